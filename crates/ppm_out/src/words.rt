//! Words of a line: each goes behind what stands there, after a space.
ghost use Rattle.std.specs.Prelude.{◌≡◌, [], ◌∷◌, ◌++◌, codes, decimal, OnOk};
ghost use Rattle.dev_types.specs.ValueBytes.{bytes_of, type_of};
ghost use Rattle.dev_types.specs.Words.{name_of_type};
ghost use Rattle.ppm_out.specs.Lines.{continued, hex, type_mark, type_word};
ghost use Rattle.ppm_out.specs.Ppm.{KeepsFront};

use crate::hex::push_hex;
use dev_types::{NoMemory, Value, encode_value};
use std::alloc::Global;

pub(crate) fn push_text(text: &str, out: &mut Vec<u8>) -> Result<(), NoMemory>
    ensures ok { OnOk result (out.new.items ≡ out.old.items ++ text.now) }
    ensures front { KeepsFront out.old.items out.new.items }
{
    out.extend_from_slice(text.as_bytes())?;
    Ok(())
}

pub(crate) fn push_word(word: &str, out: &mut Vec<u8>) -> Result<(), NoMemory>
    ensures ok { OnOk result (out.new.items ≡ out.old.items ++ (codes " " ++ word.now)) }
    ensures front { KeepsFront out.old.items out.new.items }
{
    push_text(" ", out)?;
    push_text(word, out)
}

pub(crate) fn push_number(alloc: Global, number: u64, out: &mut Vec<u8>) -> Result<(), NoMemory>
    ensures ok { OnOk result (out.new.items ≡ out.old.items ++ (codes " " ++ decimal number)) }
    ensures front { KeepsFront out.old.items out.new.items }
{
    push_text(&format!(in alloc; " {number}")?, out)
}

pub(crate) fn push_bytes(bytes: &[u8], out: &mut Vec<u8>) -> Result<(), NoMemory>
    ensures ok { OnOk result (out.new.items ≡ out.old.items ++ (codes " " ++ hex bytes.now)) }
    ensures front { KeepsFront out.old.items out.new.items }
{
    push_text(" ", out)?;
    push_hex(bytes, out)
}

/// A value's bytes.
pub(crate) fn push_encoded(alloc: Global, value: &Value, out: &mut Vec<u8>) -> Result<(), NoMemory>
    ensures ok { OnOk result (out.new.items ≡ out.old.items ++ (codes " " ++ hex (bytes_of value.now))) }
    ensures front { KeepsFront out.old.items out.new.items }
{
    push_bytes(&encode_value(alloc, value)?, out)
}

/// A value's type, and its bytes.
pub(crate) fn push_value(alloc: Global, value: &Value, out: &mut Vec<u8>) -> Result<(), NoMemory>
    ensures ok { OnOk result (out.new.items
        ≡ out.old.items ++ continued (name_of_type (type_of value.now) ∷ hex (bytes_of value.now) ∷ [])) }
    ensures front { KeepsFront out.old.items out.new.items }
{
    push_word(value.data_type().name(), out)?;
    push_encoded(alloc, value, out)
}

/// The type with which a value was handed in, marked where it is that of no value, and its bytes.
pub(crate) fn push_given_value(
    alloc: Global,
    value: &Value,
    out: &mut Vec<u8>,
) -> Result<(), NoMemory>
    ensures ok { OnOk result (out.new.items
        ≡ out.old.items ++ continued (type_word value.now ∷ hex (bytes_of value.now) ∷ [])) }
    ensures front { KeepsFront out.old.items out.new.items }
{
    push_word(type_mark(value), out)?;
    push_text(value.data_type().name(), out)?;
    push_encoded(alloc, value, out)
}

fn type_mark(value: &Value) -> &'static str
    ensures { result.now ≡ type_mark value.now }
{
    match value {
        Value::Object(ty, _) if !ty.is_object() => "!",
        _ => "",
    }
}
