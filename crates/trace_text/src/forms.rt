//! The form of each call: its keys, and what stands under them.
ghost use Rattle.std.specs.Prelude.{◌≡◌, option_map, codes, false, IfOk};
ghost use Rattle.serde_json.specs.View.{view};
ghost use Rattle.serde_json.specs.Find.{as_bool};
ghost use Rattle.trace_text.specs.Json.{name_of, field, field_or};
ghost use Rattle.trace_text.specs.Forms.{type_of, kind_of, made_kind_of, array_of, components_in, number_value_of, text_value_of, set_value_of, asked_object, query_form, query_of, of_object, of_frame, channel_of, new_of, new_array_of, set_of, unset_of, with_array_of, with_param_of, with_frame_of, ready_of, call_form};

use crate::arrays::{memory, writes};
use crate::calls::{Query, SetValue, TraceCall};
use crate::components::{component_count, value as value_of};
use crate::json::{count_at, count_or, has_only, list, list_at, name, name_at, whole, wholes};
use crate::ops::{Asked, Op};
use dev_types::{Channel, DataType, Name, Text, Value, size_of};
use serde_json::Value as Json;
use std::alloc::{AllocError, Global};

/// The call, where it has the form of its op.
pub(crate) fn call(alloc: Global, op: Op, value: &Json) -> Result<Option<TraceCall>, AllocError>
    ensures { IfOk result (λ call. call ≡ call_form op (view value.now)) }
{
    match op {
        Op::New => Ok(new(value)),
        Op::NewArray => new_array(alloc, value),
        Op::Retain => Ok(of_object(value).map(|object| TraceCall::Retain { object })),
        Op::Release => Ok(of_object(value).map(|object| TraceCall::Release { object })),
        Op::Set => set(alloc, value),
        Op::Unset => Ok(unset(value)),
        Op::UnsetAll => Ok(of_object(value).map(|object| TraceCall::UnsetAll { object })),
        Op::Commit => Ok(of_object(value).map(|object| TraceCall::Commit { object })),
        Op::WithArray => with_array(alloc, value),
        Op::WithParam => with_param(alloc, value),
        Op::WithFrame => Ok(with_frame(value)),
        Op::Render => Ok(of_frame(value).map(|frame| TraceCall::Render { frame })),
        Op::Discard => Ok(of_frame(value).map(|frame| TraceCall::Discard { frame })),
        Op::Ready => Ok(ready(value)),
        Op::Query => Ok(query(value).map(|query| TraceCall::Query(query))),
    }
}

/// A data type by its name, as `SCALAR_VEC3`.
fn data_type(value: &Json) -> Option<DataType>
    ensures { result ≡ type_of (view value.now) }
{
    DataType::named(value.as_str()?)
}

fn data_type_at(value: &Json, key: &str) -> Option<DataType>
    ensures { result ≡ field type_of key.now (view value.now) }
{
    data_type(value.get(key)?)
}

/// An object type by its word, as `camera`.
fn kind_at(value: &Json, key: &str) -> Option<DataType>
    ensures { result ≡ field kind_of key.now (view value.now) }
{
    DataType::worded(value.get(key)?.as_str()?)
}

/// The same, but no array.
fn made_kind_at(value: &Json, key: &str) -> Option<DataType>
    ensures { result ≡ field made_kind_of key.now (view value.now) }
{
    match kind_at(value, key)? {
        DataType::Array1D => None,
        ty => Some(ty),
    }
}

fn new(value: &Json) -> Option<TraceCall>
    ensures { result ≡ new_of (view value.now) }
{
    if !has_only(value, &["op", "label", "type", "subtype"]) {
        return None;
    }
    Some(TraceCall::New {
        label: name_at(value, "label")?,
        ty: made_kind_at(value, "type")?,
        subtype: subtype(value)?,
    })
}

/// The subtype of a new object, which may be missing.
fn subtype(value: &Json) -> Option<Name>
    ensures { result ≡ field_or (codes "default") name_of (codes "subtype") (view value.now) }
{
    match value.get("subtype") {
        Some(subtype) => name(subtype),
        None => Name::new("default"),
    }
}

fn new_array(alloc: Global, value: &Json) -> Result<Option<TraceCall>, AllocError>
    ensures { IfOk result (λ call. call ≡ new_array_of (view value.now)) }
{
    if !has_only(
        value,
        &[
            "op", "label", "elem", "count", "stride", "origin", "user", "data",
        ],
    ) {
        return Ok(None);
    }
    match (data_type_at(value, "elem"), count_at(value, "count")) {
        (Some(elem), Some(count)) => array(alloc, elem, count, value),
        _ => Ok(None),
    }
}

fn array(
    alloc: Global,
    elem: DataType,
    count: u64,
    value: &Json,
) -> Result<Option<TraceCall>, AllocError>
    ensures { IfOk result (λ call. call ≡ array_of elem count (view value.now)) }
{
    let Some(label) = name_at(value, "label") else {
        return Ok(None);
    };
    let Some(stride) = count_or(value, "stride", size_of(elem) as u64) else {
        return Ok(None);
    };
    let memory = memory(alloc, elem, count, value)?;
    Ok(memory.map(|(origin, data)| TraceCall::NewArray {
        label,
        elem,
        count,
        stride,
        origin,
        data,
    }))
}

fn set(alloc: Global, value: &Json) -> Result<Option<TraceCall>, AllocError>
    ensures { IfOk result (λ call. call ≡ set_of (view value.now)) }
{
    if !has_only(value, &["op", "object", "name", "type", "value"]) {
        return Ok(None);
    }
    let (Some(object), Some(name)) = (name_at(value, "object"), name_at(value, "name")) else {
        return Ok(None);
    };
    let (Some(ty), Some(given)) = (data_type_at(value, "type"), value.get("value")) else {
        return Ok(None);
    };
    let value = set_value(alloc, ty, given)?;
    Ok(value.map(|value| TraceCall::Set {
        object,
        name,
        value,
    }))
}

/// The value of a parameter of type `ty`.
fn set_value(alloc: Global, ty: DataType, value: &Json) -> Result<Option<SetValue>, AllocError>
    ensures { IfOk result (λ set. set ≡ set_value_of ty (view value.now)) }
{
    match ty {
        DataType::Str => Ok(text_value(value).map(|text| SetValue::Plain(text))),
        DataType::TypeName => {
            Ok(data_type(value).map(|named| SetValue::Plain(Value::TypeName(named))))
        }
        _ if ty.is_object() => Ok(name(value).map(|label| SetValue::Object(ty, label))),
        _ => {
            let plain = number_value(alloc, ty, value)?;
            Ok(plain.map(|plain| SetValue::Plain(plain)))
        }
    }
}

fn text_value(value: &Json) -> Option<Value>
    ensures { result ≡ text_value_of (view value.now) }
{
    Some(Value::Str(Text::new(value.as_str()?)?))
}

fn number_value(alloc: Global, ty: DataType, value: &Json) -> Result<Option<Value>, AllocError>
    ensures { IfOk result (λ number. number ≡ number_value_of ty (view value.now)) }
{
    match components(alloc, ty, value)? {
        Some(numbers) => value_of(alloc, ty, numbers.as_slice()),
        None => Ok(None),
    }
}

/// The components of a value: one number for one component, a list for several.
fn components(alloc: Global, ty: DataType, value: &Json) -> Result<Option<Vec<i128>>, AllocError>
    ensures { IfOk result (λ found. option_map (λ numbers. numbers.items) found ≡ components_in ty (view value.now)) }
{
    if component_count(ty) == 1 {
        return match whole(value) {
            Some(number) => Ok(Some(Vec::from_slice(alloc, &[number])?)),
            None => Ok(None),
        };
    }
    match list(value) {
        Some(values) => wholes(alloc, values),
        None => Ok(None),
    }
}

fn unset(value: &Json) -> Option<TraceCall>
    ensures { result ≡ unset_of (view value.now) }
{
    if !has_only(value, &["op", "object", "name"]) {
        return None;
    }
    Some(TraceCall::Unset {
        object: name_at(value, "object")?,
        name: name_at(value, "name")?,
    })
}

fn with_array(alloc: Global, value: &Json) -> Result<Option<TraceCall>, AllocError>
    ensures { IfOk result (λ call. call ≡ with_array_of (view value.now)) }
{
    if !has_only(value, &["op", "array", "write", "calls"]) || list_at(value, "calls").is_none() {
        return Ok(None);
    }
    let Some(array) = name_at(value, "array") else {
        return Ok(None);
    };
    let write = writes(alloc, value)?;
    Ok(write.map(|write| TraceCall::WithArray { array, write }))
}

fn with_param(alloc: Global, value: &Json) -> Result<Option<TraceCall>, AllocError>
    ensures { IfOk result (λ call. call ≡ with_param_of (view value.now)) }
{
    let keys = ["op", "object", "name", "elem", "count", "write", "calls"];
    if !has_only(value, &keys) || list_at(value, "calls").is_none() {
        return Ok(None);
    }
    let (Some(object), Some(name)) = (name_at(value, "object"), name_at(value, "name")) else {
        return Ok(None);
    };
    let (Some(elem), Some(count)) = (data_type_at(value, "elem"), count_at(value, "count")) else {
        return Ok(None);
    };
    let write = writes(alloc, value)?;
    Ok(write.map(|write| TraceCall::WithParam {
        object,
        name,
        elem,
        count,
        write,
    }))
}

fn with_frame(value: &Json) -> Option<TraceCall>
    ensures { result ≡ with_frame_of (view value.now) }
{
    if !has_only(value, &["op", "frame", "channel", "calls"]) || list_at(value, "calls").is_none() {
        return None;
    }
    Some(TraceCall::WithFrame {
        frame: name_at(value, "frame")?,
        channel: channel_at(value, "channel")?,
    })
}

fn channel_at(value: &Json, key: &str) -> Option<Channel>
    ensures { result ≡ field channel_of key.now (view value.now) }
{
    Channel::named(value.get(key)?.as_str()?)
}

fn ready(value: &Json) -> Option<TraceCall>
    ensures { result ≡ ready_of (view value.now) }
{
    if !has_only(value, &["op", "frame", "wait"]) {
        return None;
    }
    Some(TraceCall::Ready {
        frame: name_at(value, "frame")?,
        wait: wait(value)?,
    })
}

/// Whether to wait, which may be missing.
fn wait(value: &Json) -> Option<bool>
    ensures { result ≡ field_or false as_bool (codes "wait") (view value.now) }
{
    match value.get("wait") {
        Some(wait) => wait.as_bool(),
        None => Some(false),
    }
}

/// The object of a call that has no more.
fn of_object(value: &Json) -> Option<Name>
    ensures { result ≡ of_object (view value.now) }
{
    if has_only(value, &["op", "object"]) {
        name_at(value, "object")
    } else {
        None
    }
}

/// The frame of a call that has no more.
fn of_frame(value: &Json) -> Option<Name>
    ensures { result ≡ of_frame (view value.now) }
{
    if has_only(value, &["op", "frame"]) {
        name_at(value, "frame")
    } else {
        None
    }
}

fn query(value: &Json) -> Option<Query>
    ensures { result ≡ query_of (view value.now) }
{
    match Asked::named(value.get("what")?.as_str()?)? {
        Asked::Property => property(value),
        Asked::Subtypes => subtypes(value),
        Asked::ObjectInfo => object_info(value),
        Asked::ParameterInfo => parameter_info(value),
    }
}

fn property(value: &Json) -> Option<Query>
    ensures { result ≡ query_form Asked.Property (view value.now) }
{
    if !has_only(value, &["op", "what", "object", "name"]) {
        return None;
    }
    Some(Query::Property {
        object: asked_object(value)?,
        name: name_at(value, "name")?,
    })
}

/// The object that is asked; none where the key is missing.
fn asked_object(value: &Json) -> Option<Option<Name>>
    ensures { result ≡ asked_object (view value.now) }
{
    match value.get("object") {
        Some(object) => Some(Some(name(object)?)),
        None => Some(None),
    }
}

fn subtypes(value: &Json) -> Option<Query>
    ensures { result ≡ query_form Asked.Subtypes (view value.now) }
{
    if !has_only(value, &["op", "what", "type"]) {
        return None;
    }
    Some(Query::Subtypes {
        ty: kind_at(value, "type")?,
    })
}

fn object_info(value: &Json) -> Option<Query>
    ensures { result ≡ query_form Asked.ObjectInfo (view value.now) }
{
    if !has_only(value, &["op", "what", "type", "subtype"]) {
        return None;
    }
    Some(Query::ObjectInfo {
        ty: kind_at(value, "type")?,
        subtype: name_at(value, "subtype")?,
    })
}

fn parameter_info(value: &Json) -> Option<Query>
    ensures { result ≡ query_form Asked.ParameterInfo (view value.now) }
{
    if !has_only(value, &["op", "what", "type", "subtype", "name"]) {
        return None;
    }
    Some(Query::ParameterInfo {
        ty: kind_at(value, "type")?,
        subtype: name_at(value, "subtype")?,
        name: name_at(value, "name")?,
    })
}
