//! The table of one frame's claims.
ghost use Rattle.std.specs.Prelude.{◌≡◌, ◌≤◌, IfOk, length};
ghost use Rattle.picture_model.specs.Limits.{IsSide};
ghost use Rattle.tile_claims.specs.Parts.{tiles_of, AreSlots};

use crate::key::Key;
use crate::pixels::TilePixels;
use crate::rule::ClaimRule;
use crate::view::View;
use atomic_table::{Seat, Table};
use picture_model::{tile_count, tile_rect};
use std::alloc::{AllocError, Global};

/// A seat at such a table.
pub(crate) type RawSeat = Seat<Option<TilePixels>, View>;

/// The two counts and the tiles' pixels, with the numbers that every claim needs.
#[derive(Drop)]
pub struct Frame {
    pub(crate) table: Table<Option<TilePixels>, View, Key, ClaimRule, Global>,
    pub(crate) w: u32,
    pub(crate) h: u32,
    pub(crate) tiles: u32,
    pub ghost two_words: { table.shared.table_id.words ≡ 2 },
    pub ghost slots: { table.shared.table_id.slots ≡ tiles },
    pub ghost width: { w ≡ table.shared.key.w },
    pub ghost height: { h ≡ table.shared.key.h },
    pub ghost counted: { tiles ≡ tiles_of table.shared.key },
    pub ghost few: { tiles ≤ 65536 },
}

/// The pixels of all tiles, not yet written.
pub(crate) fn blank_slots(alloc: Global, key: &Key) -> Result<Vec<Option<TilePixels>>, AllocError>
    requires width { IsSide key.now.w }
    requires height { IsSide key.now.h }
    ensures count { IfOk result (λ slots. length slots.items ≡ tiles_of key.now) }
    ensures sized { IfOk result (λ slots. AreSlots key.now (tiles_of key.now) slots.items) }
{
    let tiles = tile_count(key.w, key.h);
    let mut slots = Vec::with_capacity(alloc, tiles as usize)?;
    for tile in 0..tiles {
        let rect = tile_rect(key.w, key.h, tile);
        slots.push(Some(TilePixels::blank(alloc, rect.w, rect.h)?))?;
    }
    Ok(slots)
}
