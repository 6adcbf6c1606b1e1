//! The buffers of one tile.
ghost use Rattle.std.specs.Prelude.{◌≡◌, ◌+◌, ◌*◌, ◌<◌, ◌≤◌, IfOk};
ghost use Rattle.std.specs.Borrow.{sem, Array as Row, Lends, u8 as byte};
ghost use Rattle.tile_claims.specs.Pixels.{row, row_start};

use std::alloc::{AllocError, Global};
use std::marker::Model;

/// A tile's pixels in the four channels of its frame, in the order of `Channel`. They lie together: one
/// channel after the other, each by rows from the lowest, with 4 bytes a pixel.
#[derive(Drop)]
pub struct TilePixels {
    w: u32,
    h: u32,
    bytes: Vec<u8>,
}

impl Model for TilePixels {
    ghost use Rattle.std.specs.Prelude.{◌≡◌, ◌*◌, ◌≤◌, length};
    ghost use Rattle.tile_claims.specs.Pixels.{Pixels, IsWhole};

    ghost Value = { Pixels };

    ghost view = { λ p. record { w = p.w; h = p.h; bytes = p.bytes.items } };

    ghost invariant = { λ p. IsWhole p.w p.h p.bytes.items };
}

impl TilePixels {
    ghost use Rattle.tile_claims.specs.contracts.pixels.TilePixels.{the_row};
    ghost use Rattle.tile_claims.specs.Pixels.{with_row};

    // A tile of `w` by `h` pixels, all zeros.
    pub(crate) fn blank(alloc: Global, w: u32, h: u32) -> Result<TilePixels, AllocError>
        requires width { w ≤ 16 }
        requires height { h ≤ 16 }
        ensures { IfOk result (λ p. (p.w ≡ w) × (p.h ≡ h)) }
    {
        let bytes = vec![in alloc; 0; (4 * h * (4 * w)) as usize]?;
        Ok(TilePixels { w, h, bytes })
    }

    /// Row `y` of the tile in a channel, from 0 for the lowest: 4 bytes a pixel.
    pub fn row(&self, channel: u32, y: u32) -> &[u8]
        requires channel { channel < 4 }
        requires row { y < self.now.h }
        ensures { result.now ≡ row self.now channel y }
    {
        let start = self.start(channel, y);
        &self.bytes[start..start + self.len()]
    }

    // The length of a row, in bytes.
    fn len(&self) -> usize
        ensures { result ≡ 4 * self.now.w }
    {
        4 * self.w as usize
    }

    // Where a row begins.
    fn start(&self, channel: u32, y: u32) -> usize
        requires channel { channel < 4 }
        requires row { y < self.now.h }
        ensures value { result ≡ row_start self.now channel y }
    {
        let before = (channel * self.h + y) as usize;
        before * self.len()
    }

    /// The same row, to be written. What is written stands in the tile afterwards.
    pub(crate) fn row_mut(&mut self, channel: u32, y: u32) -> &mut [u8]
        requires channel { channel < 4 }
        requires row { y < self.old.h }
        ensures* writes_back { sem 𝓛 (Lends the_row (Row byte 0) self.entry result (with_row self.old channel y)) }
        ensures value { result.now ≡ row self.old channel y }
    {
        let start = self.start(channel, y);
        let len = self.len();
        self.bytes.slice_mut(start..start + len)
    }
}
