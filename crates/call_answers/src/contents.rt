//! The bytes with which loans come back.
ghost use Rattle.std.specs.Prelude.{◌≡◌, ◌<◌, ◌≤◌, ◌^◌, ◌++◌, ◌+◌, ◌*◌, IfOk, IfErr, IfSome, OnOk, drop, length, slice_index, take, true, if◌then◌else◌};
ghost use Rattle.std.specs.Int.{from_le_bytes, w64};
ghost use Rattle.std.specs.Option.{option_map};
ghost use Rattle.dev_types.specs.Blocks.{element_of};
ghost use Rattle.dev_types.specs.DataTypes.{byte_size, is_object_type};
ghost use Rattle.dev_types.specs.ValueBytes.{value_of};
ghost use Rattle.kind_tables.specs.SceneObjects.{object_in};
ghost use Rattle.call_answers.specs.Cleaning.{cleaned_at};
ghost use Rattle.seq_model.specs.Contents.{bytes_for_array, bytes_for_parameter, cleaned, entered};
ghost use Rattle.seq_model.specs.Refusals.{is_array_loan_out, is_parameter_loan_out};
ghost use Rattle.seq_model.specs.Steps.{zeros};

use crate::asked::elements_at;
use crate::owners::has_type;
use crate::standing::Standing;
use dev_types::{Bytes, DataType, Handle, Name, NoMemory, Value, size_of};
use kind_tables::object_in;
use seq_model::Call;
use std::alloc::{AllocError, Global};

/// A byte, 0 behind the last.
fn byte_at(bytes: &[u8], i: usize) -> u8
    ensures { result ≡ slice_index bytes.now i }
{
    match bytes.get(i) {
        Some(byte) => *byte,
        None => 0,
    }
}

/// The number in the first eight bytes, of which there may be fewer.
#[tactic(auto, using(crate::proofs::Cleaned::first_eight))]
fn number_in(bytes: &[u8]) -> u64
    ensures { result ≡ from_le_bytes w64 (take 8 bytes.now) }
{
    u64::from_le_bytes([
        byte_at(bytes, 0),
        byte_at(bytes, 1),
        byte_at(bytes, 2),
        byte_at(bytes, 3),
        byte_at(bytes, 4),
        byte_at(bytes, 5),
        byte_at(bytes, 6),
        byte_at(bytes, 7),
    ])
}

/// The bytes from a place on.
fn rest_from(bytes: &[u8], start: usize) -> &[u8]
    ensures { result.now ≡ drop start bytes.now }
{
    if start < bytes.len() {
        &bytes[start..]
    } else {
        &bytes[bytes.len()..]
    }
}

/// Eight bytes 0 from a place on, also where there were fewer.
fn clear(bytes: &mut Vec<u8>, start: usize) -> Result<(), AllocError>
    requires within { start ≤ length bytes.old.items }
    requires room { start < 2 ^ 63 }
    ensures { OnOk result (bytes.new.items ≡ take start bytes.old.items ++ (zeros 8 ++ drop
        (start + 8) bytes.old.items)) }
{
    let end = bytes.len().max(start + 8);
    bytes.resize(end, 0)?;
    bytes[start..start + 8].fill(0);
    Ok(())
}

/// The element at the front of some bytes, of which there may be too few.
fn element_from(elem: DataType, rest: &[u8]) -> Value
    requires { is_object_type elem ≡ true }
    ensures { result ≡ value_of elem (take (byte_size elem) rest.now) }
{
    Value::Object(elem, Handle(number_in(rest)))
}

/// The object that element `i` names, in bytes of which there may be too few, and where the element
/// begins.
fn named_at(elem: DataType, stride: u64, bytes: &[u8], i: u64) -> Option<(Handle, usize)>
    requires { is_object_type elem ≡ true }
    ensures named { option_map (λ named. named.0) result ≡ object_in
        (element_of elem stride bytes.now i) }
    ensures place { IfSome result (λ named. (named.1 ≡ i * stride) × (named.1 < length bytes.now)) }
{
    let start = u128::from(i) * u128::from(stride);
    if start >= bytes.len() as u128 {
        return None;
    }
    let start = start as usize;
    let h = object_in(&element_from(elem, rest_from(bytes, start)))?;
    Some((h, start))
}

/// Clears element `i`, if it names no object of its type.
fn clean<S: Standing>(
    device: &S,
    elem: DataType,
    stride: u64,
    bytes: &[u8],
    i: u64,
    content: &mut Vec<u8>,
) -> Result<(), AllocError>
    requires object { is_object_type elem ≡ true }
    requires long { length bytes.now ≤ length content.old.items }
    ensures value { OnOk result (content.new.items ≡ cleaned_at
        (S.past device.now) elem stride bytes.now i content.old.items) }
    ensures long { OnOk result (length bytes.now ≤ length content.new.items) }
{
    match named_at(elem, stride, bytes, i) {
        Some((h, start)) if !has_type(device, h, elem) => clear(content, start),
        _ => Ok(()),
    }
}

/// The bytes of a block without the elements that name no object of their type.
fn cleaned<S: Standing>(
    device: &S,
    alloc: Global,
    elem: DataType,
    stride: u64,
    count: u64,
    bytes: &[u8],
) -> Result<Vec<u8>, AllocError>
    requires { is_object_type elem ≡ true }
    ensures { IfOk result (λ content. content.items ≡ (cleaned (S.past device.now)
        (record { elem = elem; count = count; stride = stride; bytes = bytes.now })).bytes) }
{
    let mut content = bytes.to_vec(alloc)?;
    for i in 0..count {
        clean(device, elem, stride, bytes, i, &mut content)?;
    }
    Ok(content)
}

/// A block without the elements that name no object of their type. The only error is want of
/// memory.
#[tactic(auto, using(crate::proofs::Cleaned::values_stay))]
fn cleaned_block<S: Standing>(
    device: &S,
    alloc: Global,
    elem: DataType,
    stride: u64,
    count: u64,
    bytes: Bytes,
) -> Result<Bytes, (NoMemory, Bytes)>
    ensures ok { IfOk result (λ block. block ≡ (cleaned (S.past device.now)
        (record { elem = elem; count = count; stride = stride; bytes = bytes })).bytes) }
    ensures err { IfErr result (λ refused. refused.1 ≡ bytes) }
{
    if !elem.is_object() {
        return Ok(bytes);
    }
    let Ok(content) = cleaned(device, alloc, elem, stride, count, bytes.as_slice()) else {
        return Err((NoMemory, bytes));
    };
    match Bytes::of(alloc, content) {
        Ok(block) => Ok(block),
        Err(_) => Err((NoMemory, bytes)),
    }
}

/// The bytes with which an array comes back. The only error is want of memory.
fn bytes_for_array<S: Standing>(
    device: &S,
    alloc: Global,
    h: Handle,
    bytes: Bytes,
) -> Result<Bytes, (NoMemory, Bytes)>
    ensures ok { IfOk result (λ block. block ≡ bytes_for_array (S.past device.now) h bytes) }
    ensures err { IfErr result (λ refused. refused.1 ≡ bytes) }
{
    let Some(array) = elements_at(device, h) else {
        return Ok(bytes);
    };
    cleaned_block(
        device,
        alloc,
        array.data_type(),
        array.stride(),
        array.len(),
        bytes,
    )
}

/// The bytes with which an array for a parameter comes back. The only error is want of memory.
fn bytes_for_parameter<S: Standing>(
    device: &S,
    alloc: Global,
    h: Handle,
    number: u64,
    bytes: Bytes,
) -> Result<Bytes, (NoMemory, Bytes)>
    ensures ok { IfOk result (λ block. block ≡ bytes_for_parameter
        (S.past device.now) h number bytes) }
    ensures err { IfErr result (λ refused. refused.1 ≡ bytes) }
{
    let Some((elem, count)) = device.parameter_loan(h, number) else {
        return Ok(bytes);
    };
    let stride = u64::from(size_of(elem));
    cleaned_block(device, alloc, elem, stride, count, bytes)
}

/// The bytes with which an unmap of an array is entered: cleaned where the loan is out, and else as
/// they were handed in. The only error is want of memory.
fn entered_for_array<S: Standing>(
    device: &S,
    alloc: Global,
    h: Handle,
    number: u64,
    bytes: Bytes,
) -> Result<Bytes, (NoMemory, Bytes)>
    ensures ok { IfOk result (λ block.
        block ≡ (if is_array_loan_out (S.past device.now).state h number (length bytes)
        then bytes_for_array (S.past device.now) h bytes else bytes)) }
    ensures err { IfErr result (λ refused. refused.1 ≡ bytes) }
{
    if device.is_array_loan_out(h, number, bytes.as_slice().len()) {
        bytes_for_array(device, alloc, h, bytes)
    } else {
        Ok(bytes)
    }
}

/// The bytes with which an unmap of an array for a parameter is entered: cleaned where the loan is
/// out, and else as they were handed in. The only error is want of memory.
fn entered_for_parameter<S: Standing>(
    device: &S,
    alloc: Global,
    h: Handle,
    name: &Name,
    number: u64,
    bytes: Bytes,
) -> Result<Bytes, (NoMemory, Bytes)>
    ensures ok { IfOk result (λ block.
        block ≡ (if is_parameter_loan_out (S.past device.now).state h name.now number (length bytes)
        then bytes_for_parameter (S.past device.now) h number bytes else bytes)) }
    ensures err { IfErr result (λ refused. refused.1 ≡ bytes) }
{
    if device.is_parameter_loan_out(h, name, number, bytes.as_slice().len()) {
        bytes_for_parameter(device, alloc, h, number, bytes)
    } else {
        Ok(bytes)
    }
}

/// A call as it is entered: what an unmap brings back from a loan that is out names only what is
/// there, and any other bytes stay as they were handed in. The only error is want of memory, and
/// hands the call back unchanged.
#[tactic(auto, unfolding(seq_model::specs::Contents::entered))]
pub fn entered<S: Standing>(device: &S, alloc: Global, call: Call) -> Result<Call, (NoMemory, Call)>
    ensures ok { IfOk result (λ made. made ≡ entered (S.past device.now) call) }
    ensures err { IfErr result (λ refused. refused.1 ≡ call) }
{
    match call {
        Call::UnmapArray { h, number, bytes } => {
            match entered_for_array(device, alloc, h, number, bytes) {
                Ok(bytes) => Ok(Call::UnmapArray { h, number, bytes }),
                Err((none, bytes)) => Err((none, Call::UnmapArray { h, number, bytes })),
            }
        }
        Call::UnmapParameterArray {
            h,
            name,
            number,
            bytes,
        } => match entered_for_parameter(device, alloc, h, &name, number, bytes) {
            Ok(bytes) => Ok(Call::UnmapParameterArray {
                h,
                name,
                number,
                bytes,
            }),
            Err((none, bytes)) => Err((
                none,
                Call::UnmapParameterArray {
                    h,
                    name,
                    number,
                    bytes,
                },
            )),
        },
        call => Ok(call),
    }
}
