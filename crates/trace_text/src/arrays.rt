//! New arrays, and what is written into loans.
ghost use Rattle.std.specs.Prelude.{◌≡◌, map, option_map, IfOk};
ghost use Rattle.serde_json.specs.View.{view};
ghost use Rattle.trace_text.specs.Json.{each};
ghost use Rattle.trace_text.specs.Forms.{objects_of, numbers_of, elements_of, lent_of, has_neither, memory_named, memory_of, components_of, pair_of, writes_of};

use crate::calls::{ArrayData, Components, Write};
use crate::components::{bytes_of_numbers, component_count};
use crate::json::{count_at, list, list_at, name, names, wholes};
use dev_types::{DataType, Origin};
use serde_json::Value;
use sqlite_items::Items;
use std::alloc::{AllocError, Global};

/// Whose memory a new array has, and its elements.
pub(crate) fn memory(
    alloc: Global,
    elem: DataType,
    count: u64,
    array: &Value,
) -> Result<Option<(Origin, ArrayData)>, AllocError>
    ensures { IfOk result (λ memory. memory ≡ memory_of elem count (view array.now)) }
{
    match array.get("origin").and_then(Value::as_str) {
        Some(word) => memory_named(alloc, word, elem, count, array),
        None => Ok(None),
    }
}

fn memory_named(
    alloc: Global,
    word: &str,
    elem: DataType,
    count: u64,
    array: &Value,
) -> Result<Option<(Origin, ArrayData)>, AllocError>
    ensures { IfOk result (λ memory. memory ≡ memory_named word.now elem count (view array.now)) }
{
    match word {
        "captured" => {
            let lent = lent(alloc, elem, count, array)?;
            Ok(lent.map(|(user, data)| (Origin::Captured(user), data)))
        }
        "shared" => {
            let lent = lent(alloc, elem, count, array)?;
            Ok(lent.map(|(user, data)| (Origin::Shared(user), data)))
        }
        "managed" if has_neither(array) => {
            Ok(Some((Origin::Managed, ArrayData::Values(Items::new(alloc)))))
        }
        _ => Ok(None),
    }
}

/// The application's word and the elements, which come with memory of its own.
fn lent(
    alloc: Global,
    elem: DataType,
    count: u64,
    array: &Value,
) -> Result<Option<(u64, ArrayData)>, AllocError>
    ensures { IfOk result (λ lent. lent ≡ lent_of elem count (view array.now)) }
{
    let (Some(user), Some(values)) = (count_at(array, "user"), list_at(array, "data")) else {
        return Ok(None);
    };
    let elements = elements(alloc, elem, count, values)?;
    Ok(elements.map(|elements| (user, elements)))
}

fn has_neither(array: &Value) -> bool
    ensures { result ≡ has_neither (view array.now) }
{
    array.get("user").is_none() && array.get("data").is_none()
}

/// The elements of a new array, where the values are such elements and as many as it has.
fn elements(
    alloc: Global,
    elem: DataType,
    count: u64,
    values: &[Value],
) -> Result<Option<ArrayData>, AllocError>
    ensures { IfOk result (λ elements. elements ≡ elements_of elem count (map view values.now)) }
{
    if !elem.is_element() {
        return Ok(Some(ArrayData::Values(Items::new(alloc))));
    }
    if elem.is_object() {
        return objects(alloc, count, values);
    }
    numbers(alloc, elem, count, values)
}

fn numbers(
    alloc: Global,
    elem: DataType,
    count: u64,
    values: &[Value],
) -> Result<Option<ArrayData>, AllocError>
    ensures { IfOk result (λ numbers. numbers ≡ numbers_of elem count (map view values.now)) }
{
    if values.len() as u128 != count as u128 * component_count(elem) as u128 {
        return Ok(None);
    }
    let Some(numbers) = wholes(alloc, values)? else {
        return Ok(None);
    };
    let bytes = bytes_of_numbers(alloc, elem, numbers.as_slice())?;
    Ok(bytes.map(|bytes| ArrayData::Values(Items::from_vec(bytes))))
}

fn objects(alloc: Global, count: u64, values: &[Value]) -> Result<Option<ArrayData>, AllocError>
    ensures { IfOk result (λ objects. objects ≡ objects_of count (map view values.now)) }
{
    if values.len() as u64 != count {
        return Ok(None);
    }
    let names = names(alloc, values)?;
    Ok(names.map(|names| ArrayData::Objects(Items::from_vec(names))))
}

/// What is written into a loan; nothing where the key is missing.
pub(crate) fn writes(alloc: Global, loan: &Value) -> Result<Option<Items<Write>>, AllocError>
    ensures { IfOk result (λ writes. writes ≡ writes_of (view loan.now)) }
{
    let Some(value) = loan.get("write") else {
        return Ok(Some(Items::new(alloc)));
    };
    let Some(values) = list(value) else {
        return Ok(None);
    };
    let pairs = pairs(alloc, values)?;
    Ok(pairs.map(|pairs| Items::from_vec(pairs)))
}

fn pairs(alloc: Global, values: &[Value]) -> Result<Option<Vec<Write>>, AllocError>
    ensures { IfOk result (λ found. option_map (λ pairs. pairs.items) found ≡ each pair_of (map view values.now)) }
{
    let mut pairs = Vec::with_capacity(alloc, values.len())?;
    for value in values {
        let Some(pair) = pair(alloc, value)? else {
            return Ok(None);
        };
        pairs.push(pair)?;
    }
    Ok(Some(pairs))
}

fn pair(alloc: Global, value: &Value) -> Result<Option<Write>, AllocError>
    ensures { IfOk result (λ pair. pair ≡ pair_of (view value.now)) }
{
    let Some([index, parts]) = list(value) else {
        return Ok(None);
    };
    let (Some(index), Some(values)) = (index.as_u64(), list(parts)) else {
        return Ok(None);
    };
    let element = components(alloc, values)?;
    Ok(element.map(|element| Write { index, element }))
}

/// Exactly one label, or numbers alone.
fn components(alloc: Global, values: &[Value]) -> Result<Option<Components>, AllocError>
    ensures { IfOk result (λ components. components ≡ components_of (map view values.now)) }
{
    if let [only] = values {
        if only.is_string() {
            return Ok(name(only).map(|label| Components::Label(label)));
        }
    }
    let numbers = wholes(alloc, values)?;
    Ok(numbers.map(|numbers| Components::Numbers(Items::from_vec(numbers))))
}
