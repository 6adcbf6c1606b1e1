//! Values that are written as numbers, one for each component.
ghost use Rattle.std.specs.Prelude.{◌≡◌, option_map, IfOk};
ghost use Rattle.std.specs.Int.{w8, w32, w64};
ghost use Rattle.trace_text.specs.Components.{component_count, signed_component, unsigned_component, component_bytes, bytes_of_numbers, value_of_numbers, IsPushed};

use dev_types::{DataType, NoMemory, Value, decode_value};
use std::alloc::{AllocError, Global};

/// How many components each value of the type has; 0 where values of the type are not numbers.
pub(crate) fn component_count(ty: DataType) -> u64
    ensures { result ≡ component_count ty }
{
    match ty {
        DataType::Int32 | DataType::Uint32 | DataType::Uint64 | DataType::Scalar => 1,
        DataType::Uint32Vec2 | DataType::ScalarVec2 => 2,
        DataType::Uint32Vec3 | DataType::ScalarVec3 => 3,
        DataType::Ufixed8Vec4 => 4,
        DataType::ScalarBox3 => 6,
        DataType::ScalarMat34 => 12,
        _ => 0,
    }
}

/// The value of a type with these components: signed scalars in units of 1/65536, other numbers as they
/// are. `None` exactly where there are not as many as the type has, where one is out of its range, or
/// where values of the type are not numbers.
///
/// # Errors
/// `NoMemory` where there was none for the value's bytes.
pub fn value_of_numbers(
    alloc: Global,
    ty: DataType,
    numbers: &[i128],
) -> Result<Option<Value>, NoMemory>
    ensures { IfOk result (λ value. value ≡ value_of_numbers ty numbers.now) }
{
    Ok(value(alloc, ty, numbers)?)
}

pub(crate) fn value(
    alloc: Global,
    ty: DataType,
    numbers: &[i128],
) -> Result<Option<Value>, AllocError>
    ensures { IfOk result (λ value. value ≡ value_of_numbers ty numbers.now) }
{
    let count = component_count(ty);
    if count == 0 || numbers.len() as u64 != count {
        return Ok(None);
    }
    match bytes_of_numbers(alloc, ty, numbers)? {
        Some(bytes) => Ok(decode_value(ty, bytes.as_slice())),
        None => Ok(None),
    }
}

/// The bytes of components of the type, where each number is in its range.
pub(crate) fn bytes_of_numbers(
    alloc: Global,
    ty: DataType,
    numbers: &[i128],
) -> Result<Option<Vec<u8>>, AllocError>
    ensures { IfOk result (λ found. option_map (λ bytes. bytes.items) found ≡ bytes_of_numbers ty numbers.now) }
{
    let mut bytes = Vec::new(alloc);
    for number in numbers {
        if !push_component(ty, number, &mut bytes)? {
            return Ok(None);
        }
    }
    Ok(Some(bytes))
}

/// Adds the bytes of a component of the type; `false` where the number is out of its range.
fn push_component(ty: DataType, number: &i128, bytes: &mut Vec<u8>) -> Result<bool, AllocError>
    ensures { IfOk result (IsPushed (component_bytes ty number.now) bytes.old.items bytes.new.items) }
{
    match ty {
        DataType::Int32
        | DataType::Scalar
        | DataType::ScalarVec2
        | DataType::ScalarVec3
        | DataType::ScalarMat34
        | DataType::ScalarBox3 => push_signed(number, bytes),
        DataType::Uint32 | DataType::Uint32Vec2 | DataType::Uint32Vec3 => {
            push_unsigned(number, bytes)
        }
        DataType::Uint64 => push_long(number, bytes),
        DataType::Ufixed8Vec4 => push_byte(number, bytes),
        _ => Ok(false),
    }
}

fn push_signed(number: &i128, bytes: &mut Vec<u8>) -> Result<bool, AllocError>
    ensures { IfOk result (IsPushed (signed_component number.now) bytes.old.items bytes.new.items) }
{
    let Ok(number) = i32::try_from(*number) else {
        return Ok(false);
    };
    bytes.extend_from_slice(&number.to_le_bytes())?;
    Ok(true)
}

fn push_unsigned(number: &i128, bytes: &mut Vec<u8>) -> Result<bool, AllocError>
    ensures { IfOk result (IsPushed (unsigned_component w32 32 number.now) bytes.old.items bytes.new.items) }
{
    let Ok(number) = u32::try_from(*number) else {
        return Ok(false);
    };
    bytes.extend_from_slice(&number.to_le_bytes())?;
    Ok(true)
}

fn push_long(number: &i128, bytes: &mut Vec<u8>) -> Result<bool, AllocError>
    ensures { IfOk result (IsPushed (unsigned_component w64 64 number.now) bytes.old.items bytes.new.items) }
{
    let Ok(number) = u64::try_from(*number) else {
        return Ok(false);
    };
    bytes.extend_from_slice(&number.to_le_bytes())?;
    Ok(true)
}

fn push_byte(number: &i128, bytes: &mut Vec<u8>) -> Result<bool, AllocError>
    ensures { IfOk result (IsPushed (unsigned_component w8 8 number.now) bytes.old.items bytes.new.items) }
{
    let Ok(number) = u8::try_from(*number) else {
        return Ok(false);
    };
    bytes.push(number)?;
    Ok(true)
}
