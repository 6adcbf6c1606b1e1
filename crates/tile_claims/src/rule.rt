//! The rule of a table of claims, and its steps.
ghost use Rattle.std.specs.Prelude.{ℕ};

use crate::key::Key;
use crate::pixels::TilePixels;
use crate::view::View;
use atomic_table::{Play, Split, TableRule};
use std::marker::{Brand, PhantomData};

// Word 0 counts claims, word 1 given tiles, and slot i has the pixels of tile i.
pub struct ClaimRule;

impl TableRule<Option<TilePixels>, View, Key> for ClaimRule {
    ghost use Rattle.std.specs.Prelude.{true};
    ghost use Rattle.tile_claims.specs.Rule.{Kept};
    ghost use Rattle.tile_claims.specs.Views.{new_view};

    ghost holds = { Kept };

    ghost first = { new_view true };
}

// The count of claims rises by one.
pub(crate) struct TakeNext;

impl Play<Option<TilePixels>, View> for TakeNext {
    ghost use Rattle.tile_claims.specs.Rule.{TakesNext};

    ghost then = { TakesNext };
}

// The count of given tiles rises by one.
pub(crate) struct Count;

impl Play<Option<TilePixels>, View> for Count {
    ghost use Rattle.tile_claims.specs.Rule.{Counts};

    ghost then = { Counts };
}

// The count of claims is read.
pub(crate) struct LookAtClaims;

impl Play<Option<TilePixels>, View> for LookAtClaims {
    ghost use Rattle.tile_claims.specs.Rule.{LooksAtClaims};

    ghost then = { LooksAtClaims };
}

// The count of given tiles is read.
pub(crate) struct LookAtGives;

impl Play<Option<TilePixels>, View> for LookAtGives {
    ghost use Rattle.tile_claims.specs.Rule.{LooksAtGives};

    ghost then = { LooksAtGives };
}

// The count of claims passes all tiles.
pub(crate) struct Stop;

impl Play<Option<TilePixels>, View> for Stop {
    ghost use Rattle.tile_claims.specs.Rule.{Stops};

    ghost then = { Stops };
}

pub(crate) struct Spread;

impl Split<View> for Spread {
    ghost use Rattle.tile_claims.specs.Views.{splitting, beside};

    ghost left = { splitting };

    ghost right = { beside };
}

// A tile, as the proof of a call names it.
pub(crate) trait Tile {
    ghost tile: { ℕ };
}

impl Tile for Brand {
    ghost tile = { 0 };
}

// The count of given tiles is read, and the slot of a tile is taken.
pub(crate) struct Collect<T: Tile> {
    tile: PhantomData<T>,
}

impl<T: Tile> Play<Option<TilePixels>, View> for Collect<T> {
    ghost use Rattle.tile_claims.specs.Rule.{Collects};

    ghost then = { Collects T.tile };
}
