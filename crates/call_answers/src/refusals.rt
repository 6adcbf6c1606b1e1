//! Why calls on parameters are refused.
ghost use Rattle.std.specs.Prelude.{◌≡◌, ◌*◌, ◌&&◌, ◌||◌, not, false, nat_lt, option_map};
ghost use Rattle.std.specs.Bool.{then_some};
ghost use Rattle.std.specs.Option.{is_none, is_some, option_and_then, option_map_or};
ghost use Rattle.dev_types.specs.DataTypes.{byte_size, is_element_type};
ghost use Rattle.dev_types.specs.ValueBytes.{is_well_typed};
ghost use Rattle.dev_types.specs.declared.refusals.Refused.TheVariants.{BadType, UnknownObjectParameter};
ghost use Rattle.kind_tables.specs.Kinds.{is_same_type};
ghost use Rattle.seq_model.specs.Refusals.{dead, first_of, has_elements, most_bytes, not_held, object_of_value, permits, refusals_of_map_parameter, refusals_of_set, row_at, takes_arrays_of, wrong_value};
ghost use Rattle.seq_model.specs.State.{object_at};

use crate::asked::{elements_at, kind_at};
use crate::layouts::MOST_BYTES;
use crate::owners::{dead, first_of, not_held, wrong_kind};
use crate::standing::Standing;
use dev_types::{DataType, Handle, Name, Refused, Value, size_of};
use kind_tables::{Row, row_of};

/// The object that a value names, also one that is not there.
fn object_of_value(value: &Value) -> Option<Handle>
    ensures { result ≡ object_of_value value.now }
{
    match value {
        Value::Object(_, h) => Some(*h),
        _ => None,
    }
}

/// Whether a value is one of its type: an object has the type of an object.
fn is_well_typed(value: &Value) -> bool
    ensures { result ≡ is_well_typed value.now }
{
    match value {
        Value::Object(ty, _) => ty.is_object(),
        _ => true,
    }
}

/// `WrongKind` where the value is an object of another type than it says.
fn wrong_value<S: Standing>(device: &S, value: &Value) -> Option<Refused>
    ensures { result ≡ wrong_value (S.past device.now) value.now }
{
    match value {
        Value::Object(ty, h) if ty.is_object() => wrong_kind(device, *h, *ty),
        _ => None,
    }
}

/// The type of the elements of an array.
fn element_type<S: Standing>(device: &S, h: Option<Handle>) -> Option<DataType>
    ensures { result ≡ option_map (λ a. a.block.elem) (option_and_then (λ o. o.array)
        (option_and_then (object_at (S.past device.now).state) h)) }
{
    let elements = elements_at(device, h?)?;
    Some(elements.data_type())
}

/// Whether an array has the elements that a row asks for, where it asks for arrays.
fn has_elements<S: Standing>(device: &S, h: Option<Handle>, elem: Option<DataType>) -> bool
    ensures { result ≡ has_elements (S.past device.now) h elem }
{
    let Some(elem) = elem else {
        return true;
    };
    match element_type(device, h) {
        Some(found) => found.number() == elem.number(),
        None => false,
    }
}

/// Whether a row permits a value.
fn permits<S: Standing>(device: &S, row: &Row, value: &Value) -> bool
    ensures { result ≡ permits (S.past device.now) row.now value.now }
{
    value.data_type().number() == row.ty.number()
        && has_elements(device, object_of_value(value), row.elem)
}

/// The row of an object's parameter.
fn row_at<S: Standing>(device: &S, h: Handle, name: &Name) -> Option<Row>
    ensures { result ≡ row_at (S.past device.now) h name.now }
{
    row_of(kind_at(device, h)?, name)
}

/// `BadHandle` and `NotHeld` of the object that a value names.
fn dead_value<S: Standing>(device: &S, value: &Value) -> Option<Refused>
    ensures { result ≡ option_and_then (dead (S.past device.now)) (object_of_value value.now) }
{
    let h = object_of_value(value)?;
    dead(device, h)
}

fn value_not_held<S: Standing>(device: &S, value: &Value) -> Option<Refused>
    ensures { result ≡ option_and_then (not_held (S.past device.now)) (object_of_value value.now) }
{
    let h = object_of_value(value)?;
    not_held(device, h)
}

/// `BadType` where the value is none of its type, or the parameter's row, if it has one, does not
/// permit it.
fn bad_value<S: Standing>(device: &S, h: Handle, name: &Name, value: &Value) -> Option<Refused>
    ensures { result ≡ then_some (not (is_well_typed value.now) || option_map_or (λ row. not
        (permits (S.past device.now) row value.now)) (row_at
        (S.past device.now) h name.now) false) BadType }
{
    if !is_well_typed(value) {
        return Some(Refused::BadType);
    }
    match row_at(device, h, name) {
        Some(row) => (!permits(device, &row, value)).then_some(Refused::BadType),
        None => None,
    }
}

/// `UnknownObjectParameter` where the value is an object, and the parameter has no row.
fn unknown_object<S: Standing>(device: &S, h: Handle, name: &Name, value: &Value) -> Option<Refused>
    ensures { result ≡ then_some (is_none (row_at (S.past device.now) h name.now) && is_some
        (object_of_value value.now)) UnknownObjectParameter }
{
    match row_at(device, h, name) {
        Some(_) => None,
        None => object_of_value(value)
            .is_some()
            .then_some(Refused::UnknownObjectParameter),
    }
}

/// Why a value is not staged (ANARI 1.0 Specification, object parameters).
pub fn refusal_of_set<S: Standing>(
    device: &S,
    h: Handle,
    name: &Name,
    value: &Value,
) -> Option<Refused>
    ensures { result ≡ first_of (refusals_of_set (S.past device.now) h name.now value.now) }
{
    first_of(&[
        dead(device, h),
        dead_value(device, value),
        not_held(device, h),
        value_not_held(device, value),
        wrong_value(device, value),
        bad_value(device, h, name, value),
        unknown_object(device, h, name, value),
    ])
}

/// `BadType` where no array has such elements, or the parameter's row, if it has one, takes none
/// with them.
fn bad_elements<S: Standing>(device: &S, h: Handle, name: &Name, elem: DataType) -> Option<Refused>
    ensures { result ≡ then_some (not (is_element_type elem) || option_map_or (λ row. not
        (takes_arrays_of elem row)) (row_at (S.past device.now) h name.now) false) BadType }
{
    if !elem.is_element() {
        return Some(Refused::BadType);
    }
    match row_at(device, h, name) {
        Some(row) => (!takes_arrays_of(elem, &row)).then_some(Refused::BadType),
        None => None,
    }
}

/// `UnknownObjectParameter` where the parameter has no row.
fn unknown_parameter<S: Standing>(device: &S, h: Handle, name: &Name) -> Option<Refused>
    ensures { result ≡ then_some (is_none (row_at
        (S.past device.now) h name.now)) UnknownObjectParameter }
{
    row_at(device, h, name)
        .is_none()
        .then_some(Refused::UnknownObjectParameter)
}

/// Why no array is lent for a parameter (ANARI 1.0 Specification, parameter arrays).
pub fn refusal_of_map_parameter<S: Standing>(
    device: &S,
    h: Handle,
    name: &Name,
    elem: DataType,
    count: u64,
) -> Option<Refused>
    ensures { result ≡ first_of (refusals_of_map_parameter
        (S.past device.now) h name.now elem count) }
{
    first_of(&[
        dead(device, h),
        not_held(device, h),
        bad_elements(device, h, name, elem),
        unknown_parameter(device, h, name),
        is_too_long(elem, count).then_some(Refused::BadShape),
    ])
}

fn takes_arrays_of(elem: DataType, row: &Row) -> bool
    ensures { result ≡ takes_arrays_of elem row.now }
{
    row.ty.number() == DataType::Array1D.number() && is_same_type(elem, row.elem)
}

fn is_same_type(elem: DataType, wanted: Option<DataType>) -> bool
    ensures { result ≡ option_map_or (is_same_type elem) wanted false }
{
    match wanted {
        Some(wanted) => elem.number() == wanted.number(),
        None => false,
    }
}

/// Whether so many elements have more bytes than an array may have.
fn is_too_long(elem: DataType, count: u64) -> bool
    ensures { result ≡ nat_lt most_bytes (count * byte_size elem) }
{
    u128::from(count) * u128::from(size_of(elem)) > u128::from(MOST_BYTES)
}
