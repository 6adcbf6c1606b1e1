//! The objects that the elements of an array name.
ghost use Rattle.std.specs.Prelude.{◌≡◌, ◌≤◌, ◌^◌, ◌++◌, IfOk, OnOk, map};
ghost use Rattle.std.specs.Option.{option_to_list};
ghost use Rattle.kind_tables.specs.SceneObjects.{object_in, objects_in};
ghost use Rattle.call_answers.specs.Named.{block_of, named_below};

use byte_view::Strided;
use dev_types::{Handle, Value};
use kind_tables::object_in;
use std::alloc::{AllocError, Global};

/// Adds an item, if there is one.
fn push_some(items: &mut Vec<Handle>, item: Option<Handle>) -> Result<(), AllocError>
    ensures { OnOk result (items.new.items ≡ items.old.items ++ option_to_list item) }
{
    if let Some(item) = item {
        items.push(item)?;
    }
    Ok(())
}

/// The objects that the elements name, in their order.
pub fn objects_in(alloc: Global, elements: &Strided<'_>) -> Result<Vec<Handle>, AllocError>
    requires { elements.now.count ≤ 2 ^ 28 }
    ensures { IfOk result (λ handles. handles.items ≡ map (λ named. named.1) (objects_in
        (block_of elements.now))) }
{
    let mut handles = Vec::new(alloc);
    for i in 0..elements.len() {
        push_some(&mut handles, object_in(&elements.get(i)))?;
    }
    Ok(handles)
}
