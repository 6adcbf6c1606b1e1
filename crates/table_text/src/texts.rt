//! Texts and numbers, put behind what stands there.
ghost use Rattle.std.specs.Prelude.{◌≡◌, ◌++◌, codes, decimal, map, pos, OnOk};
ghost use Rattle.std.specs.Fmt.{signed_decimal};
ghost use Rattle.table_text.specs.Tables.{numbers_of, spaced_numbers};

use dev_types::{NoMemory, Value};
use std::alloc::Global;

pub(crate) fn push_text(text: &str, out: &mut Vec<u8>) -> Result<(), NoMemory>
    ensures { OnOk result (out.new.items ≡ out.old.items ++ text.now) }
{
    out.extend_from_slice(text.as_bytes())?;
    Ok(())
}

/// A number with a space before it.
fn push_integer(alloc: Global, number: i32, out: &mut Vec<u8>) -> Result<(), NoMemory>
    ensures { OnOk result (out.new.items ≡ out.old.items ++ (codes " " ++ signed_decimal number)) }
{
    push_text(&format!(in alloc; " {number}")?, out)
}

fn push_natural(alloc: Global, number: u64, out: &mut Vec<u8>) -> Result<(), NoMemory>
    ensures { OnOk result (out.new.items ≡ out.old.items ++ (codes " " ++ signed_decimal (pos number))) }
{
    push_text(&format!(in alloc; " {number}")?, out)
}

fn push_signed(alloc: Global, numbers: &[i32], out: &mut Vec<u8>) -> Result<(), NoMemory>
    ensures { OnOk result (out.new.items ≡ out.old.items ++ spaced_numbers numbers.now) }
{
    for i in 0..numbers.len() {
        push_integer(alloc, numbers[i], out)?;
    }
    Ok(())
}

fn push_unsigned(alloc: Global, numbers: &[u32], out: &mut Vec<u8>) -> Result<(), NoMemory>
    ensures { OnOk result (out.new.items ≡ out.old.items ++ spaced_numbers (map pos numbers.now)) }
{
    for i in 0..numbers.len() {
        push_natural(alloc, u64::from(numbers[i]), out)?;
    }
    Ok(())
}

fn push_longs(alloc: Global, numbers: &[u64], out: &mut Vec<u8>) -> Result<(), NoMemory>
    ensures { OnOk result (out.new.items ≡ out.old.items ++ spaced_numbers (map pos numbers.now)) }
{
    for i in 0..numbers.len() {
        push_natural(alloc, numbers[i], out)?;
    }
    Ok(())
}

fn push_bytes(alloc: Global, numbers: &[u8], out: &mut Vec<u8>) -> Result<(), NoMemory>
    ensures { OnOk result (out.new.items ≡ out.old.items ++ spaced_numbers (map pos numbers.now)) }
{
    for i in 0..numbers.len() {
        push_natural(alloc, u64::from(numbers[i]), out)?;
    }
    Ok(())
}

/// The components of a value, each with a space before it.
pub(crate) fn push_numbers(alloc: Global, value: &Value, out: &mut Vec<u8>) -> Result<(), NoMemory>
    ensures { OnOk result (out.new.items ≡ out.old.items ++ spaced_numbers (numbers_of value.now)) }
{
    match value {
        Value::Int32(number) | Value::Scalar(number) => push_signed(alloc, &[*number], out),
        Value::ScalarVec2(numbers) => push_signed(alloc, numbers, out),
        Value::ScalarVec3(numbers) => push_signed(alloc, numbers, out),
        Value::ScalarMat34(numbers) => push_signed(alloc, numbers, out),
        Value::ScalarBox3(numbers) => push_signed(alloc, numbers, out),
        Value::Uint32(number) => push_unsigned(alloc, &[*number], out),
        Value::Uint32Vec2(numbers) => push_unsigned(alloc, numbers, out),
        Value::Uint32Vec3(numbers) => push_unsigned(alloc, numbers, out),
        Value::Uint64(number) => push_longs(alloc, &[*number], out),
        Value::Ufixed8Vec4(bytes) => push_bytes(alloc, bytes, out),
        Value::Str(_) | Value::TypeName(_) | Value::Object(..) => Ok(()),
    }
}
