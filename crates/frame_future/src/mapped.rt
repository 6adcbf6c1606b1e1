//! A mapped channel of a frame.
ghost use Rattle.std.specs.Prelude.{◌≡◌, ◌+◌, ◌-◌, ◌*◌, ◌<◌, min, ◌≤◌, ◌++◌, ℕ, List, length, take};
ghost use Rattle.kind_tables.specs.Ranges.{type_of_channel};
ghost use Rattle.frame_future.specs.Mapped.{pixel_at, part_at};
ghost use Rattle.frame_future.specs.Pixels.{picture_of};

use crate::tiles::Tiles;
use dev_types::{Channel, DataType, Handle};
use std::marker::Model;
use std::sync::Arc;

/// A channel of a frame that is mapped (ANARI 1.0 Specification, Frame: mapping), until it is given to `Frames::unmap`. Where it
/// is dropped instead, the channel stays mapped.
///
/// It shares the tiles of the frame's picture: no pixel is copied. Contracts see the frame, the channel, the number of the loan,
/// the size, and the picture's bytes: four a pixel, by rows from the lowest.
#[derive(Drop)]
pub struct MappedFrame {
    frame: Handle,
    channel: Channel,
    number: u64,
    tiles: Arc<Tiles>,
}

impl Model for MappedFrame {
    ghost use Rattle.frame_future.specs.Mapped.{Mapped};
    ghost use Rattle.frame_future.specs.Pixels.{picture_of};

    ghost Value = { Mapped };

    ghost view = { λ m. record {
      frame = m.frame;
      channel = m.channel;
      number = m.number;
      width = m.tiles.value.w;
      height = m.tiles.value.h;
      bytes = picture_of m.tiles.value m.channel;
    } };
}

impl MappedFrame {
    /// A channel of a picture, lent under this number.
    pub(crate) fn new(
        frame: Handle,
        channel: Channel,
        number: u64,
        tiles: Arc<Tiles>,
    ) -> MappedFrame
        ensures { result ≡ record {
          frame = frame;
          channel = channel;
          number = number;
          width = tiles.value.w;
          height = tiles.value.h;
          bytes = picture_of tiles.value channel;
        } }
    {
        MappedFrame {
            frame,
            channel,
            number,
            tiles,
        }
    }

    /// The frame whose channel is mapped.
    pub fn frame(&self) -> Handle
        ensures { result ≡ self.now.frame }
    {
        self.frame
    }

    /// The channel that is mapped.
    pub fn channel(&self) -> Channel
        ensures { result ≡ self.now.channel }
    {
        self.channel
    }

    /// The number of the loan: the place of the journal entry that lent it.
    pub fn number(&self) -> u64
        ensures { result ≡ self.now.number }
    {
        self.number
    }

    /// The width in pixels.
    pub fn width(&self) -> u32
        ensures { result ≡ self.now.width }
    {
        self.tiles.width()
    }

    /// The height in pixels. The picture has four bytes a pixel.
    pub fn height(&self) -> u32
        ensures value { result ≡ self.now.height }
        ensures whole { length self.now.bytes ≡ 4 * self.now.width * self.now.height }
    {
        self.tiles.height()
    }

    /// What a pixel is (ANARI 1.0 Specification, Frame: channels): a colour's red, green, blue and alpha, or an id, lowest byte first.
    pub fn pixel_type(&self) -> DataType
        ensures { result ≡ type_of_channel self.now.channel }
    {
        match self.channel {
            Channel::Color => DataType::Ufixed8Vec4,
            _ => DataType::Uint32,
        }
    }

    /// The bytes of pixel (`x`, `y`). Pixel (0, 0) is the lower left one.
    pub fn pixel(&self, x: u32, y: u32) -> [u8; 4]
        requires column { x < self.now.width }
        requires row { y < self.now.height }
        ensures { result ≡ pixel_at self.now x y }
    {
        let part = self.part(y, x / 16);
        let at = 4 * (x % 16) as usize;
        [part[at], part[at + 1], part[at + 2], part[at + 3]]
    }

    /// The bytes of row `y` within a column of tiles, 16 pixels or fewer at the right border, as they lie in the tile.
    pub fn part(&self, y: u32, tile: u32) -> &[u8]
        requires row { y < self.now.height }
        requires column { 16 * tile < self.now.width }
        ensures value { result.now ≡ part_at self.now y tile }
        ensures count { length result.now ≡ 4 * min 16 (self.now.width - 16 * tile) }
    {
        self.tiles.part(self.channel, y, tile)
    }

    /// Writes all bytes of the picture: four a pixel, by rows from the lowest.
    pub fn copy_rows(&self, out: &mut [u8])
        requires { length out.old ≡ 4 * self.now.width * self.now.height }
        ensures { out.new ≡ self.now.bytes }
    {
        for y in 0..self.height() {
            self.copy_row(y, out);
        }
    }

    // Writes the bytes of row `y`, where those of the rows below are written.
    fn copy_row(&self, y: u32, out: &mut [u8])
        requires size { length out.old ≡ 4 * self.now.width * self.now.height }
        requires row { y < self.now.height }
        requires below { take (4 * (y * self.now.width)) out.old ≡ take (4 * (y * self.now.width)) self.now.bytes }
        ensures same { length out.new ≡ length out.old }
        ensures written { take (4 * ((y + 1) * self.now.width)) out.new ≡ take (4 * ((y + 1) * self.now.width)) self.now.bytes }
    {
        let width = self.width();
        for tile in 0..width.div_ceil(16) {
            let start = 4 * (y as usize * width as usize + 16 * tile as usize);
            put(out, start, self.part(y, tile));
        }
    }
}

// Writes a part over what stands from a place on.
fn put(out: &mut [u8], at: usize, part: &[u8])
    requires within { at + length part.now ≤ length out.old }
    ensures same { length out.new ≡ length out.old }
    ensures front { take (at + length part.now) out.new ≡ take at out.old ++ part.now }
{
    out[at..at + part.len()].copy_from_slice(part);
}
