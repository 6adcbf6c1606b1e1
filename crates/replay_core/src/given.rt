//! The bytes that are given for new arrays.
ghost use Rattle.std.specs.Prelude.{◌≡◌, ◌≤◌, ◌^◌, ◌*◌, ◌-◌, ◌&&◌, ◌++◌, not, [], IfOk, OnOk, if◌then◌else◌, map, length, take, drop};
ghost use Rattle.std.specs.Int.{to_le_bytes, w64};
ghost use Rattle.std.specs.List.{range_with_len};
ghost use Rattle.dev_types.specs.Blocks.{needed_length};
ghost use Rattle.dev_types.specs.DataTypes.{byte_size, is_element_type};
ghost use Rattle.replay_core.specs.Labels.{given_bytes, parts_of, spread};
ghost use Rattle.replay_core.specs.Views.{meaning_of};
ghost use Rattle.seq_model.specs.Refusals.{is_bad_layout};
ghost use Rattle.seq_model.specs.Steps.{zeros};

use crate::bindings::Labels;
use call_answers::layouts::is_bad_layout;
use dev_types::{Bytes, DataType, Name, NoMemory, Origin, size_of};
use std::alloc::{AllocError, Global};
use trace_text::ArrayData;

/// Adds the bytes of an element, and zeros up to the next one where one follows.
fn push_part(bytes: &mut Vec<u8>, part: &[u8], stride: u64, is_last: bool) -> Result<(), AllocError>
    requires { stride ≤ 2 ^ 28 }
    ensures { OnOk result (bytes.new.items ≡ bytes.old.items ++ (part.now ++ (if is_last then [] else zeros (stride - length part.now)))) }
{
    bytes.extend_from_slice(part)?;
    if is_last {
        return Ok(());
    }
    let gap = stride.saturating_sub(part.len() as u64) as usize;
    push_zeros(bytes, gap)
}

fn push_zeros(bytes: &mut Vec<u8>, count: usize) -> Result<(), AllocError>
    requires { count ≤ 2 ^ 28 }
    ensures { OnOk result (bytes.new.items ≡ bytes.old.items ++ zeros count) }
{
    bytes.resize(bytes.len() + count, 0)
}

/// The bytes of element `i` in values without gaps; fewer where the values end.
fn part(values: &[u8], size: u32, i: u64) -> &[u8]
    requires { i * size ≤ 2 ^ 28 }
    ensures { result.now ≡ take size (drop (i * size) values.now) }
{
    let start = values.len().min((i * u64::from(size)) as usize);
    let rest = &values[start..];
    &rest[..rest.len().min(size as usize)]
}

/// Values without gaps, at a stride.
fn spread_values(
    alloc: Global,
    values: &[u8],
    elem: DataType,
    count: u64,
    stride: u64,
) -> Result<Vec<u8>, AllocError>
    requires wide { byte_size elem ≤ stride }
    requires near { stride ≤ 2 ^ 28 }
    requires within { needed_length elem stride count ≤ 2 ^ 28 }
    ensures { IfOk result (λ bytes. bytes.items ≡ spread stride (map (λ i. take (byte_size elem) (drop (i * byte_size elem) values.now)) (range_with_len 0 count))) }
{
    let mut bytes = Vec::new(alloc);
    for i in 0..count {
        push_part(
            &mut bytes,
            part(values, size_of(elem), i),
            stride,
            i + 1 == count,
        )?;
    }
    Ok(bytes)
}

/// The bytes of the object that a label stands for.
fn object_part(labels: &Labels<'_>, label: &Name) -> [u8; 8]
    ensures { result ≡ to_le_bytes w64 (meaning_of labels.now label.now) }
{
    labels.handle(label).0.to_le_bytes()
}

/// The objects that labels stand for, at a stride.
fn spread_objects(
    alloc: Global,
    labels: &Labels<'_>,
    names: &[Name],
    stride: u64,
) -> Result<Vec<u8>, AllocError>
    requires { stride ≤ 2 ^ 28 }
    ensures { IfOk result (λ bytes. bytes.items ≡ spread stride (map (λ label. to_le_bytes w64 (meaning_of labels.now label)) names.now)) }
{
    let mut bytes = Vec::new(alloc);
    for i in 0..names.len() {
        let part = object_part(labels, &names[i]);
        push_part(&mut bytes, &part, stride, i + 1 == names.len())?;
    }
    Ok(bytes)
}

/// The elements that are given, at a stride.
fn spread(
    alloc: Global,
    labels: &Labels<'_>,
    elem: DataType,
    count: u64,
    stride: u64,
    given: &ArrayData,
) -> Result<Vec<u8>, AllocError>
    requires wide { byte_size elem ≤ stride }
    requires near { stride ≤ 2 ^ 28 }
    requires within { needed_length elem stride count ≤ 2 ^ 28 }
    ensures { IfOk result (λ bytes. bytes.items ≡ spread stride (parts_of (meaning_of labels.now) elem count given.now)) }
{
    match given {
        ArrayData::Values(values) => spread_values(alloc, values.as_slice(), elem, count, stride),
        ArrayData::Objects(names) => spread_objects(alloc, labels, names.as_slice(), stride),
    }
}

/// The block that is given for an array; empty for one that the device makes itself, and for one that it
/// refuses for the type of its elements or their layout.
///
/// # Errors
/// `NoMemory` where there was none for the bytes.
pub fn given_bytes(
    alloc: Global,
    labels: &Labels<'_>,
    elem: DataType,
    count: u64,
    stride: u64,
    origin: Origin,
    given: &ArrayData,
) -> Result<Bytes, NoMemory>
    ensures { IfOk result (λ bytes. bytes ≡ given_bytes (meaning_of labels.now) elem count stride origin given.now) }
{
    let bytes = match origin {
        Origin::Managed => Vec::new(alloc),
        _ => spread_if_laid_out(alloc, labels, elem, count, stride, given)?,
    };
    match Bytes::of(alloc, bytes) {
        Ok(bytes) => Ok(bytes),
        Err((NoMemory, _)) => Err(NoMemory),
    }
}

fn spread_if_laid_out(
    alloc: Global,
    labels: &Labels<'_>,
    elem: DataType,
    count: u64,
    stride: u64,
    given: &ArrayData,
) -> Result<Vec<u8>, AllocError>
    ensures { IfOk result (λ bytes. bytes.items ≡ (if is_element_type elem && not (is_bad_layout elem count stride) then spread stride (parts_of (meaning_of labels.now) elem count given.now) else [])) }
{
    if elem.is_element() && !is_bad_layout(elem, count, stride) {
        spread(alloc, labels, elem, count, stride, given)
    } else {
        Ok(Vec::new(alloc))
    }
}
