//! Claims, seats, and a tile in hand.
ghost use Rattle.std.specs.Prelude.{◌≡◌};
ghost use Rattle.tile_claims.specs.Views.{hand};

use crate::frame::{Frame, RawSeat};
use crate::pixels::TilePixels;
use std::snapshot::Snapshot;
use std::sync::Arc;

/// One frame's tiles, to be claimed, filled and given by any number of threads.
///
/// Contracts see its key (`key_of`): the size, and the scene whose picture the tiles show.
#[derive(Drop)]
pub struct Claims {
    pub(crate) frame: Arc<Frame>,
}

/// What a thread claims tiles with.
///
/// Contracts see what it knows (`view`): the key; whether it is the first seat, and how many it split
/// off; its open tile, if it has one, and the tiles that it gave and collected; whether a claim of it
/// came too late; its looks at the two counts; and how many tiles were claimed when it stopped the claims.
///
/// A seat may be dropped. A tile that is open at it then stays open.
#[derive(Drop)]
pub struct Seat {
    pub(crate) seat: RawSeat,
    pub ghost held: { seat.me.1 ≡ hand seat.me.0 },
}

/// A tile in hand, from [`Claims::claim`] until [`Claims::give`].
///
/// It has to be given: it cannot be dropped, nor taken apart outside this crate. It belongs to the seat
/// with which it was claimed, and can be given with no other.
pub struct Claim {
    pub(crate) pixels: TilePixels,
    pub(crate) tile: u32,
    // The seat as it was when it claimed the tile, so that the two belong together.
    pub(crate) of: Snapshot<RawSeat>,
}
