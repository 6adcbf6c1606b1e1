//! The pixels of a finished picture.
ghost use Rattle.std.specs.Prelude.{◌≡◌, ◌*◌, ◌+◌, ◌-◌, ◌/◌, ◌<◌, min, length, take, drop};
ghost use Rattle.dev_types.specs.declared.handles.Channel.{Channel as TheChannel};
ghost use Rattle.tile_claims.specs.Seats.{key_of};
ghost use Rattle.dev_types.specs.Channels.{number_of_channel};
ghost use Rattle.frame_future.specs.Pixels.{picture_of, AreAll};

use dev_types::Channel;
use std::marker::Model;
use std::snapshot::Snapshot;
use tile_claims::{Claims, TilePixels};

/// All tiles of a finished picture, with the pixels of its four channels.
///
/// Contracts see the key whose picture it is.
#[derive(Drop)]
pub struct Tiles {
    w: u32,
    h: u32,
    pixels: Vec<TilePixels>,
    // The claims that the tiles were collected of.
    of: Snapshot<Claims>,
}

impl Model for Tiles {
    ghost use Rattle.std.specs.Prelude.{◌≡◌};
    ghost use Rattle.tile_claims.specs.declared.key.Key.{Key};
    ghost use Rattle.tile_claims.specs.Seats.{key_of};
    ghost use Rattle.frame_future.specs.Pixels.{AreAll};

    ghost Value = { Key };

    ghost view = { λ t. key_of t.of.value };

    ghost invariant = { λ t. (t.w ≡ (key_of t.of.value).w) × (t.h ≡ (key_of t.of.value).h) × AreAll (key_of t.of.value) t.pixels.items };
}

impl Tiles {
    /// The tiles that were collected of claims, in their order.
    pub(crate) fn new(claims: &Claims, pixels: Vec<TilePixels>) -> Tiles
        requires { AreAll (key_of claims.now) pixels.items }
        ensures { result ≡ key_of claims.now }
    {
        let (w, h) = claims.sides();
        Tiles {
            w,
            h,
            pixels,
            of: Snapshot::of(claims),
        }
    }

    /// The width in pixels.
    pub(crate) fn width(&self) -> u32
        ensures { result ≡ self.now.w }
    {
        self.w
    }

    /// The height in pixels.
    pub(crate) fn height(&self) -> u32
        ensures { result ≡ self.now.h }
    {
        self.h
    }

    /// The bytes of row `y` in a channel within a column of tiles, as they lie in the tile.
    pub(crate) fn part(&self, channel: Channel, y: u32, column: u32) -> &[u8]
        requires row { y < self.now.h }
        requires column { 16 * column < self.now.w }
        ensures count { length result.now ≡ 4 * min 16 (self.now.w - 16 * column) }
        ensures value { result.now ≡ take (4 * min 16 (self.now.w - 16 * column)) (drop (4 * (y * self.now.w + 16 * column)) (picture_of self.now channel)) }
    {
        let tile = y / 16 * self.w.div_ceil(16) + column;
        self.pixels[tile as usize].row(channel.number(), y % 16)
    }
}
