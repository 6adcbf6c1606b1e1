//! What stands under the keys of a JSON object.
ghost use Rattle.std.specs.Prelude.{◌≡◌, map, option_map, IfOk, Some};
ghost use Rattle.std.specs.List.{list_any, list_all};
ghost use Rattle.std.specs.Map.{keys_of as entry_keys};
ghost use Rattle.std.specs.Str.{bytes_eq};
ghost use Rattle.std.specs.String.{string_bytes};
ghost use Rattle.serde_json.specs.View.{view};
ghost use Rattle.trace_text.specs.Places.{items_at};
ghost use Rattle.trace_text.specs.Json.{name_of, count_of, whole_of, list_of, items_of, is_list, each, field, field_or, has_only};

use dev_types::Name;
use serde_json::{Map, Value};
use std::alloc::{AllocError, Global};

/// Whether this is an object that has no other keys than these.
pub(crate) fn has_only(value: &Value, keys: &[&str]) -> bool
    ensures { result ≡ has_only (map (λ key. key.now) keys.now) (view value.now) }
{
    match value.as_object() {
        Some(members) => are_among(members, keys),
        None => false,
    }
}

fn are_among(members: &Map<String, Value>, keys: &[&str]) -> bool
    ensures { result ≡ list_all (λ k. list_any (λ key. bytes_eq (string_bytes k) key.now) keys.now) (entry_keys members.now.entries) }
{
    members.keys().all(|key| is_among(key.as_str(), keys))
}

fn is_among(key: &str, keys: &[&str]) -> bool
    ensures { result ≡ list_any (λ k. bytes_eq key.now k.now) keys.now }
{
    keys.iter().any(|k| key == *k)
}

/// A label, a subtype or a name.
pub(crate) fn name(value: &Value) -> Option<Name>
    ensures { result ≡ name_of (view value.now) }
{
    Name::new(value.as_str()?)
}

pub(crate) fn whole(value: &Value) -> Option<i128>
    ensures { result ≡ whole_of (view value.now) }
{
    value.as_number()?.as_i128()
}

pub(crate) fn name_at(value: &Value, key: &str) -> Option<Name>
    ensures { result ≡ field name_of key.now (view value.now) }
{
    name(value.get(key)?)
}

pub(crate) fn count_at(value: &Value, key: &str) -> Option<u64>
    ensures { result ≡ field count_of key.now (view value.now) }
{
    value.get(key)?.as_u64()
}

pub(crate) fn count_or(value: &Value, key: &str, missing: u64) -> Option<u64>
    ensures { result ≡ field_or missing count_of key.now (view value.now) }
{
    match value.get(key) {
        Some(count) => count.as_u64(),
        None => Some(missing),
    }
}

pub(crate) fn list(value: &Value) -> Option<&[Value]>
    ensures { option_map (λ values. map view values.now) result ≡ list_of (view value.now) }
{
    Some(value.as_array()?.as_slice())
}

pub(crate) fn list_at<'v>(value: &'v Value, key: &str) -> Option<&'v [Value]>
    ensures { option_map (λ values. map view values.now) result ≡ field list_of key.now (view value.now) }
{
    list(value.get(key)?)
}

/// The values of a list, and none of what is no list.
pub(crate) fn items(value: &Value) -> &[Value]
    ensures { map view result.now ≡ items_of (view value.now) }
{
    match list(value) {
        Some(values) => values,
        None => &[],
    }
}

/// The values of a list under a key, and none where there is no list.
pub(crate) fn items_at<'v>(value: &'v Value, key: &str) -> &'v [Value]
    ensures { map view result.now ≡ items_at key.now (view value.now) }
{
    match list_at(value, key) {
        Some(values) => values,
        None => &[],
    }
}

pub(crate) fn are_lists(values: &[Value]) -> bool
    ensures { result ≡ list_all (λ value. is_list (view value)) values.now }
{
    values.iter().all(|value| value.is_array())
}

/// The labels that the values are, where each is one.
pub(crate) fn names(alloc: Global, values: &[Value]) -> Result<Option<Vec<Name>>, AllocError>
    ensures { IfOk result (λ found. option_map (λ names. names.items) found ≡ each name_of (map view values.now)) }
{
    let mut names = Vec::with_capacity(alloc, values.len())?;
    for value in values {
        let Some(name) = name(value) else {
            return Ok(None);
        };
        names.push(name)?;
    }
    Ok(Some(names))
}

/// The whole numbers that the values are, where each is one.
pub(crate) fn wholes(alloc: Global, values: &[Value]) -> Result<Option<Vec<i128>>, AllocError>
    ensures { IfOk result (λ found. option_map (λ numbers. numbers.items) found ≡ each whole_of (map view values.now)) }
{
    let mut numbers = Vec::with_capacity(alloc, values.len())?;
    for value in values {
        let Some(number) = whole(value) else {
            return Ok(None);
        };
        numbers.push(number)?;
    }
    Ok(Some(numbers))
}
