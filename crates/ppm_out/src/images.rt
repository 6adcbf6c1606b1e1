//! Binary PPM images (P6).
ghost use Rattle.std.specs.Prelude.{◌≡◌, ◌*◌, ◌<◌, ◌++◌, length, OnOk, OnErr};
ghost use Rattle.ppm_out.specs.Ppm.{ppm, from_top, row_of, shown, KeepsFront};

use dev_types::{Bytes, NoMemory};
use std::alloc::{AllocError, Global};

/// A mapped channel of a frame.
#[derive(Drop)]
pub struct MappedBytes {
    /// Columns of pixels.
    pub w: u32,
    /// Rows of pixels.
    pub h: u32,
    /// Whether a pixel is red, green, blue and alpha; else it is an id, lowest byte first.
    pub color: bool,
    /// Four bytes a pixel, rows from the lowest up.
    pub rows: Bytes,
}

/// Writes the frame as a P6 image to the end of `out`: a header, and then three bytes a pixel, rows
/// from the top. A colour loses its alpha, and an id its highest byte, the others highest first.
///
/// # Errors
/// `NoMemory` where `out` found none; it is then as it was.
pub fn write_ppm(alloc: Global, frame: &MappedBytes, out: &mut Vec<u8>) -> Result<(), NoMemory>
    requires { length frame.now.rows ≡ 4 * frame.now.w * frame.now.h }
    ensures ok { OnOk result (out.new.items
        ≡ out.old.items ++ ppm frame.now.color frame.now.w frame.now.h frame.now.rows) }
    ensures err { OnErr result (out.new.items ≡ out.old.items) }
{
    let before = out.len();
    if push_image(alloc, frame, out).is_ok() {
        return Ok(());
    }
    out.truncate(before);
    Err(NoMemory)
}

/// The same, but where there is no memory a part of the image stays.
fn push_image(alloc: Global, frame: &MappedBytes, out: &mut Vec<u8>) -> Result<(), AllocError>
    requires { length frame.now.rows ≡ 4 * frame.now.w * frame.now.h }
    ensures ok { OnOk result (out.new.items
        ≡ out.old.items ++ ppm frame.now.color frame.now.w frame.now.h frame.now.rows) }
    ensures front { KeepsFront out.old.items out.new.items }
{
    let (w, h) = (frame.w, frame.h);
    let header = format!(in alloc; "P6\n{w} {h}\n255\n")?;
    out.extend_from_slice(header.as_bytes())?;
    push_rows(frame, out)
}

fn push_rows(frame: &MappedBytes, out: &mut Vec<u8>) -> Result<(), AllocError>
    requires { length frame.now.rows ≡ 4 * frame.now.w * frame.now.h }
    ensures ok { OnOk result (out.new.items
        ≡ out.old.items ++ from_top frame.now.color frame.now.w frame.now.rows frame.now.h) }
    ensures front { KeepsFront out.old.items out.new.items }
{
    let mut y = frame.h as usize;
    'rows: while y > 0 {
        y -= 1;
        push_row(frame, y, out)?;
    }
    Ok(())
}

fn push_row(frame: &MappedBytes, y: usize, out: &mut Vec<u8>) -> Result<(), AllocError>
    requires pixels { length frame.now.rows ≡ 4 * frame.now.w * frame.now.h }
    requires row { y < frame.now.h }
    ensures ok { OnOk result (out.new.items
        ≡ out.old.items ++ shown frame.now.color (row_of frame.now.w frame.now.rows y)) }
    ensures front { KeepsFront out.old.items out.new.items }
{
    let row = 4 * frame.w as usize;
    let pixels = &frame.rows.as_slice()[row * y..];
    push_pixels(frame.color, &pixels[..row], out)
}

fn push_pixels(color: bool, mut pixels: &[u8], out: &mut Vec<u8>) -> Result<(), AllocError>
    ensures ok { OnOk result (out.new.items ≡ out.old.items ++ shown color pixels.entry.now) }
    ensures front { KeepsFront out.old.items out.new.items }
{
    'pixels: while let [a, b, c, _, rest @ ..] = pixels {
        let bytes = if color { [*a, *b, *c] } else { [*c, *b, *a] };
        out.extend_from_slice(&bytes)?;
        pixels = rest;
    }
    Ok(())
}
