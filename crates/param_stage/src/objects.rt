//! The objects that values name.
ghost use Rattle.std.specs.Prelude.{◌≡◌, ◌<◌, ◌^◌, IfOk, length, slice_get};
ghost use Rattle.std.specs.Option.{option_to_list};
ghost use Rattle.kind_tables.specs.SceneObjects.{object_in, objects_of};
ghost use Rattle.param_stage.specs.Params.{object_under};

use crate::handles::HandleList;
use dev_types::{Handle, Name, Value};
use kind_tables::object_in;
use std::alloc::{AllocError, Global};
use std::collections::BTreeMap;

pub(crate) type Values = BTreeMap<Name, Value>;

pub(crate) fn one_or_none(alloc: Global, object: Option<Handle>) -> Result<HandleList, AllocError>
    ensures { IfOk result (λ list. list ≡ option_to_list object) }
{
    match object {
        Some(handle) => Ok(HandleList::of(vec![in alloc; handle]?)),
        None => Ok(HandleList::of(Vec::new(alloc))),
    }
}

pub(crate) fn object_under(
    alloc: Global,
    name: &Name,
    values: &Values,
) -> Result<HandleList, AllocError>
    ensures { IfOk result (λ list. list ≡ object_under name.now values.now.entries) }
{
    one_or_none(alloc, values.get(name).and_then(|value| object_in(value)))
}

pub(crate) fn objects_of(alloc: Global, values: &Values) -> Result<HandleList, AllocError>
    ensures { IfOk result (λ list. list ≡ objects_of values.now.entries) }
{
    Ok(HandleList::of(collected(alloc, values)?))
}

fn collected(alloc: Global, values: &Values) -> Result<Vec<Handle>, AllocError>
    ensures { IfOk result (λ handles. handles.items ≡ objects_of values.now.entries) }
{
    values
        .iter()
        .filter_map(|(_, value)| object_in(value))
        .collect(alloc)
}

pub(crate) fn objects_len(values: &Values) -> usize
    ensures len { result ≡ length (objects_of values.now.entries) }
    ensures small { result < 2 ^ 63 }
{
    values
        .iter()
        .filter_map(|(_, value)| object_in(value))
        .count()
}

pub(crate) fn nth_object(values: &Values, i: usize) -> Option<Handle>
    ensures { result ≡ slice_get (objects_of values.now.entries) i }
{
    values
        .iter()
        .filter_map(|(_, value)| object_in(value))
        .nth(i)
}

pub(crate) fn copied(values: &Values) -> Result<Values, AllocError>
    ensures { IfOk result (λ copy. copy.entries ≡ values.now.entries) }
{
    values.clone()
}
