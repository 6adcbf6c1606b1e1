//! Bytes in hexadecimal digits.
ghost use Rattle.std.specs.Prelude.{◌≡◌, ◌*◌, ◌++◌, length, OnOk};
ghost use Rattle.ppm_out.specs.Lines.{hex, hex_digits};
ghost use Rattle.ppm_out.specs.Ppm.{KeepsFront};

use dev_types::NoMemory;

const DIGITS: [u8; 16] = *b"0123456789abcdef";

/// Writes the bytes to the end of `out`, two lower-case digits a byte, and a dash for none.
pub(crate) fn push_hex(bytes: &[u8], out: &mut Vec<u8>) -> Result<(), NoMemory>
    ensures ok { OnOk result (out.new.items ≡ out.old.items ++ hex bytes.now) }
    ensures front { KeepsFront out.old.items out.new.items }
{
    if bytes.is_empty() {
        out.extend_from_slice(b"-")?;
        return Ok(());
    }
    let start = out.len();
    let Some(end) = start.checked_add(2 * bytes.len()) else {
        return Err(NoMemory);
    };
    out.resize(end, 0)?;
    write_hex(bytes, &mut out[start..]);
    Ok(())
}

fn write_hex(bytes: &[u8], into: &mut [u8])
    requires { length into.old ≡ 2 * length bytes.now }
    ensures { into.new ≡ hex_digits bytes.now }
{
    for (i, &byte) in bytes.iter().enumerate() {
        let pair = [DIGITS[byte as usize / 16], DIGITS[byte as usize % 16]];
        into[2 * i..2 * i + 2].copy_from_slice(&pair);
    }
}
