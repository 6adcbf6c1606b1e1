//! The arrays of a geometry, as they stood when they were captured.
ghost use Rattle.std.specs.Prelude.{◌≡◌, ◌≤◌, ◌^◌, IsTrue, IfOk};
ghost use Rattle.dev_types.specs.Bounded.{is_name};
ghost use Rattle.scene_read.specs.Reading.{IsCounted, array_in, content_of};

use byte_view::Strided;
use dev_types::{Bytes, DataType, Handle, NoMemory};
use scene_read::Objects;
use scene_read::readers::named;
use std::alloc::Global;
use std::marker::Model;

/// An array's elements in a block that is shared with it.
///
/// Contracts see the elements.
#[derive(Drop)]
pub(crate) struct HeldArray {
    bytes: Bytes,
    ty: DataType,
    stride: u64,
    count: u64,
}

impl Model for HeldArray {
    ghost use Rattle.byte_view.specs.Elements.{Elements};
    ghost use Rattle.world_snapshot.specs.Held.{IsHeld};

    ghost Value = { Elements };

    ghost view = { λ c. record { ty = c.ty; stride = c.stride; count = c.count; bytes = c.bytes } };

    ghost invariant = { λ c. IsHeld (record { ty = c.ty; stride = c.stride; count = c.count; bytes = c.bytes }) };
}

impl HeldArray {
    /// The elements, read where they lie.
    fn elements(&self) -> Strided<'_>
        ensures value { result ≡ self.now }
        ensures size { result.count ≤ 2 ^ 28 }
    {
        Strided::over(self.bytes.as_slice(), self.ty, self.stride, self.count)
    }
}

/// The elements of an array, if there is one.
pub(crate) fn elements(array: &Option<HeldArray>) -> Option<Strided<'_>>
    ensures value { result ≡ array.now }
    ensures size { IsCounted result }
{
    match array {
        Some(array) => Some(array.elements()),
        None => None,
    }
}

/// Captures the elements of an object, if it is an array. The only error is want of memory.
fn captured<O: Objects>(alloc: Global, state: &O, h: Handle) -> Result<Option<HeldArray>, NoMemory>
    ensures { IfOk result (λ array. array ≡ content_of (O.objects state.now) h) }
{
    let Some(elements) = state.content(h) else {
        return Ok(None);
    };
    let Some(block) = state.block(h) else {
        return Ok(None);
    };
    let (ty, stride, count) = (elements.data_type(), elements.stride(), elements.len());
    Ok(Some(HeldArray {
        bytes: block.share(alloc)?,
        ty,
        stride,
        count,
    }))
}

/// Captures the array that was committed under a name, if there is one. The only error is want of memory.
pub(crate) fn captured_array<O: Objects>(
    alloc: Global,
    state: &O,
    h: Handle,
    text: &str,
) -> Result<Option<HeldArray>, NoMemory>
    requires { IsTrue (is_name text.now) }
    ensures { IfOk result (λ array. array ≡ array_in (O.objects state.now) h text.now) }
{
    match named(state, h, text) {
        Some(array) => captured(alloc, state, array),
        None => Ok(None),
    }
}
