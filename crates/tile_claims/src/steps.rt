//! The steps on a table of claims.
ghost use Rattle.std.specs.Prelude.{◌≡◌, ℕ, ◌+◌, ◌^◌, ◌<◌, ◌≤◌, Some, None, true, false, ◌∷◌, [], min, length, IfSome, IfNone};
ghost use Rattle.atomic_table.specs.Table.{rest};
ghost use Rattle.tile_claims.specs.Parts.{tiles_of, IsSized, IsFilled};
ghost use Rattle.tile_claims.specs.Rule.{HasSeenAll};
ghost use Rattle.dev_types.specs.Counting.{times};
ghost use Rattle.tile_claims.specs.Views.{claimed, claiming, too_late, giving, looking_at_claims, looking_at_gives, stopping, splitting, beside, collecting, IsAlone};

use crate::frame::{Frame, RawSeat};
use crate::pixels::TilePixels;
use crate::rule::{Collect, Count, LookAtClaims, LookAtGives, Spread, Stop, TakeNext, Tile};

impl Frame {
    // Takes the next number, and where a tile has it the tile's pixels out of their slot.
    pub(crate) fn take_next(&self, seat: &mut RawSeat) -> Option<(u32, TilePixels)>
        requires table { seat.old.table_id ≡ self.now.table.shared.table_id }
        requires keyed { seat.old.me.0.key ≡ self.now.table.shared.key }
        requires idle { seat.old.me.0.opened ≡ None }
        requires in_time { seat.old.me.0.late ≡ false }
        ensures seat { (seat.new.table_id ≡ seat.old.table_id) × (seat.new.id ≡ seat.old.id) }
        ensures some { IfSome result (λ t. seat.new.me ≡ (claiming seat.old.me.0 t.0, (t.0, None) ∷ seat.old.me.1)) }
        ensures within { IfSome result (λ t. t.0 < self.now.tiles) }
        ensures going { IfSome result (λ t. seat.old.me.0.stop ≡ None) }
        ensures sized { IfSome result (λ t. IsSized self.now.table.shared.key t.0 t.1) }
        ensures none { IfNone result (seat.new.me ≡ (too_late seat.old.me.0, seat.old.me.1)) }
        ensures some_alone { IfSome result (λ t. IsAlone seat.old.me.0 → seat.old.me.0.stop ≡ None → t.0 ≡ claimed seat.old.me.0) }
        ensures none_alone { IfNone result (IsAlone seat.old.me.0 → seat.old.me.0.stop ≡ None → self.now.tiles ≡ claimed seat.old.me.0) }
    {
        let shared = &self.table.shared;
        let number = shared.fetch_add::<TakeNext>(seat, 0, 1);
        if number < self.tiles as u64 {
            let pixels = shared.exchange(seat, number as usize, None);
            Some((number as u32, pixels.unwrap()))
        } else {
            None
        }
    }

    // Puts the pixels of the open tile into their slot, and counts it as given.
    pub(crate) fn put_back(&self, seat: &mut RawSeat, tile: u32, pixels: TilePixels)
        requires table { seat.old.table_id ≡ self.now.table.shared.table_id }
        requires opened { seat.old.me.0.opened ≡ Some tile }
        requires out { seat.old.me.1 ≡ (tile, None) ∷ rest seat.old.me.1 }
        requires filled { IsFilled self.now.table.shared.key tile pixels }
        ensures seat { (seat.new.table_id ≡ seat.old.table_id) × (seat.new.id ≡ seat.old.id) }
        ensures view { seat.new.me ≡ (giving seat.old.me.0 tile, rest seat.old.me.1) }
    {
        let shared = &self.table.shared;
        let before = shared.exchange(seat, tile as usize, Some(pixels));
        let None = before else { unreachable!() };
        shared.fetch_add::<Count>(seat, 1, 1);
    }

    // Reads the count of claims.
    pub(crate) fn look_at_claims(&self, seat: &mut RawSeat) -> u64
        requires table { seat.old.table_id ≡ self.now.table.shared.table_id }
        ensures seat { (seat.new.table_id ≡ seat.old.table_id) × (seat.new.id ≡ seat.old.id) }
        ensures view { seat.new.me ≡ (looking_at_claims seat.old.me.0 result, seat.old.me.1) }
        ensures rises { seat.old.me.0.claims.last ≤ result }
        ensures alone { IsAlone seat.old.me.0 → seat.old.me.0.stop ≡ None → min result (tiles_of seat.old.me.0.key) ≡ claimed seat.old.me.0 }
    {
        self.table.shared.load::<LookAtClaims>(seat, 0)
    }

    // Reads the count of given tiles.
    pub(crate) fn look_at_gives(&self, seat: &mut RawSeat) -> u64
        requires table { seat.old.table_id ≡ self.now.table.shared.table_id }
        ensures seat { (seat.new.table_id ≡ seat.old.table_id) × (seat.new.id ≡ seat.old.id) }
        ensures view { seat.new.me ≡ (looking_at_gives seat.old.me.0 result, seat.old.me.1) }
        ensures rises { seat.old.me.0.gives.last ≤ result }
        ensures within { result ≤ tiles_of seat.old.me.0.key }
        ensures stopped { (m : ℕ) → seat.old.me.0.stop ≡ Some m → result ≤ m }
        ensures alone { IsAlone seat.old.me.0 → result ≡ length seat.old.me.0.given }
    {
        self.table.shared.load::<LookAtGives>(seat, 1)
    }

    // Raises the count of claims to the number of tiles at least. Answers what it was.
    pub(crate) fn pass_all(&self, seat: &mut RawSeat) -> u64
        requires table { seat.old.table_id ≡ self.now.table.shared.table_id }
        requires first { seat.old.me.0.first ≡ true }
        requires going { seat.old.me.0.stop ≡ None }
        ensures seat { (seat.new.table_id ≡ seat.old.table_id) × (seat.new.id ≡ seat.old.id) }
        ensures view { seat.new.me ≡ (stopping seat.old.me.0 (min result (tiles_of seat.old.me.0.key)), seat.old.me.1) }
        ensures claims { min seat.old.me.0.claims.last (tiles_of seat.old.me.0.key) ≤ min result (tiles_of seat.old.me.0.key) }
        ensures gives { seat.old.me.0.gives.last ≤ min result (tiles_of seat.old.me.0.key) }
        ensures alone { IsAlone seat.old.me.0 → min result (tiles_of seat.old.me.0.key) ≡ claimed seat.old.me.0 }
    {
        self.table
            .shared
            .fetch_max::<Stop>(seat, 0, self.tiles as u64)
    }

    // Another seat.
    pub(crate) fn spread(&self, seat: &mut RawSeat) -> RawSeat
        requires table { seat.old.table_id ≡ self.now.table.shared.table_id }
        requires first { seat.old.me.0.first ≡ true }
        requires few { seat.old.me.0.splits < 2 ^ 20 }
        ensures seat { (seat.new.table_id ≡ seat.old.table_id) × (seat.new.id ≡ seat.old.id) }
        ensures view { seat.new.me ≡ (splitting seat.old.me.0, seat.old.me.1) }
        ensures other { (result.table_id ≡ seat.old.table_id) × (result.me ≡ (beside seat.old.me.0, [])) }
    {
        self.table.shared.split_seat::<Spread>(seat)
    }

    // Takes the pixels of a tile out of their slot for good.
    pub(crate) fn take_out<T: Tile>(&self, seat: &mut RawSeat, tile: u32) -> TilePixels
        requires named { tile ≡ T.tile }
        requires table { seat.old.table_id ≡ self.now.table.shared.table_id }
        requires first { seat.old.me.0.first ≡ true }
        requires seen { HasSeenAll seat.old.me.0 }
        requires within { tile < tiles_of seat.old.me.0.key }
        requires there { times tile seat.old.me.0.collected ≡ 0 }
        ensures seat { (seat.new.table_id ≡ seat.old.table_id) × (seat.new.id ≡ seat.old.id) }
        ensures idle { seat.old.me.0.opened ≡ None }
        ensures view { seat.new.me ≡ (collecting seat.old.me.0 tile, (tile, None) ∷ seat.old.me.1) }
        ensures filled { IsFilled seat.old.me.0.key tile result }
    {
        let shared = &self.table.shared;
        shared.load::<Collect<T>>(seat, 1);
        shared.exchange(seat, tile as usize, None).unwrap()
    }
}
