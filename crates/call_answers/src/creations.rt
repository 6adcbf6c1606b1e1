//! Why arrays are not made.
ghost use Rattle.std.specs.Prelude.{◌≡◌, IfOk, IsTrue, false};
ghost use Rattle.dev_types.specs.DataTypes.{is_element_type};
ghost use Rattle.kind_tables.specs.WalkRefusals.{first_answer};
ghost use Rattle.seq_model.specs.Refusals.{bad_elements, dead, first_of, given_handles, is_bad_shape, refusals_of_new_array, not_held, wrong_kind};

use crate::elements::objects_in;
use crate::layouts::is_bad_shape;
use crate::owners::{dead, first_of, not_held, wrong_kind};
use crate::standing::Standing;
use byte_view::Strided;
use dev_types::{Bytes, DataType, Handle, NoMemory, Origin, Refused};
use std::alloc::Global;

/// The first of some objects that is not there.
fn first_dead<S: Standing>(device: &S, handles: &[Handle]) -> Option<Refused>
    ensures { result ≡ first_answer (dead (S.past device.now)) handles.now }
{
    for h in handles {
        if let Some(refused) = dead(device, *h) {
            return Some(refused);
        }
    }
    None
}

/// The first of some objects that is not held.
fn first_not_held<S: Standing>(device: &S, handles: &[Handle]) -> Option<Refused>
    ensures { result ≡ first_answer (not_held (S.past device.now)) handles.now }
{
    for h in handles {
        if let Some(refused) = not_held(device, *h) {
            return Some(refused);
        }
    }
    None
}

/// The first of some objects that is of another type.
fn first_of_wrong_kind<S: Standing>(
    device: &S,
    handles: &[Handle],
    elem: DataType,
) -> Option<Refused>
    ensures { result ≡ first_answer (λ h. wrong_kind (S.past device.now) h elem) handles.now }
{
    for h in handles {
        if let Some(refused) = wrong_kind(device, *h, elem) {
            return Some(refused);
        }
    }
    None
}

/// What is wrong with the objects that an array's elements name.
pub fn refusal_of_elements<S: Standing>(
    device: &S,
    elem: DataType,
    handles: &[Handle],
) -> Option<Refused>
    ensures { result ≡ first_of (bad_elements (S.past device.now) elem handles.now) }
{
    first_of(&[
        first_dead(device, handles),
        first_not_held(device, handles),
        first_of_wrong_kind(device, handles, elem),
    ])
}

/// The objects that the given bytes of an array name; a managed array has none yet.
fn given_handles(
    alloc: Global,
    elem: DataType,
    count: u64,
    stride: u64,
    origin: Origin,
    bytes: &Bytes,
) -> Result<Vec<Handle>, NoMemory>
    requires element { IsTrue (is_element_type elem) }
    requires shape { is_bad_shape elem count stride origin bytes.now ≡ false }
    ensures { IfOk result (λ handles. handles.items ≡ given_handles elem count stride bytes.now) }
{
    if origin == Origin::Managed {
        return Ok(Vec::new(alloc));
    }
    let elements = Strided::over(bytes.as_slice(), elem, stride, count);
    Ok(objects_in(alloc, &elements)?)
}

/// Why an array is not made (ANARI 1.0 Specification, arrays). The only error is want of memory.
pub fn refusal_of_array<S: Standing>(
    device: &S,
    alloc: Global,
    elem: DataType,
    count: u64,
    stride: u64,
    origin: Origin,
    bytes: &Bytes,
) -> Result<Option<Refused>, NoMemory>
    ensures { IfOk result (λ refusal. refusal ≡ first_of (refusals_of_new_array
        (S.past device.now) elem count stride origin bytes.now)) }
{
    if !elem.is_element() {
        return Ok(Some(Refused::BadType));
    }
    if is_bad_shape(elem, count, stride, origin, bytes) {
        return Ok(Some(Refused::BadShape));
    }
    let handles = given_handles(alloc, elem, count, stride, origin, bytes)?;
    Ok(refusal_of_elements(device, elem, &handles))
}
