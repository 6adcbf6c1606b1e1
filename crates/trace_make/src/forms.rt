//! The forms of the calls in a trace, as JSON.
ghost use Rattle.std.specs.Prelude.{◌≡◌, IfOk};
ghost use Rattle.serde_json.specs.View.{view};
ghost use Rattle.trace_make.specs.Calls.{new_call, new_of_call, array_call, set_call, commit_call, release_call, render_call, wait_call, look_call};

use serde_json::{Value, json};
use std::alloc::{AllocError, Global};

pub(crate) fn new(alloc: Global, label: &str, ty: &str) -> Result<Value, AllocError>
    ensures { IfOk result (λ v. view v ≡ new_call label.now ty.now) }
{
    json!(in alloc; {"op": "new", "label": label, "type": ty})
}

pub(crate) fn new_of(
    alloc: Global,
    label: &str,
    ty: &str,
    subtype: &str,
) -> Result<Value, AllocError>
    ensures { IfOk result (λ v. view v ≡ new_of_call label.now ty.now subtype.now) }
{
    json!(in alloc; {"op": "new", "label": label, "type": ty, "subtype": subtype})
}

pub(crate) fn array(
    alloc: Global,
    label: &str,
    elem: &str,
    count: u64,
    origin: &str,
    user: u64,
    elements: Value,
) -> Result<Value, AllocError>
    ensures { IfOk result (λ v. view v ≡ array_call label.now elem.now count origin.now user (view elements)) }
{
    json!(in alloc; {"op": "new_array", "label": label, "elem": elem, "count": count, "origin": origin, "user": user, "data": elements})
}

pub(crate) fn set(
    alloc: Global,
    object: &str,
    name: &str,
    ty: &str,
    value: Value,
) -> Result<Value, AllocError>
    ensures { IfOk result (λ v. view v ≡ set_call object.now name.now ty.now (view value)) }
{
    json!(in alloc; {"op": "set", "object": object, "name": name, "type": ty, "value": value})
}

pub(crate) fn commit(alloc: Global, object: &str) -> Result<Value, AllocError>
    ensures { IfOk result (λ v. view v ≡ commit_call object.now) }
{
    json!(in alloc; {"op": "commit", "object": object})
}

pub(crate) fn release(alloc: Global, object: &str) -> Result<Value, AllocError>
    ensures { IfOk result (λ v. view v ≡ release_call object.now) }
{
    json!(in alloc; {"op": "release", "object": object})
}

pub(crate) fn render(alloc: Global, frame: &str) -> Result<Value, AllocError>
    ensures { IfOk result (λ v. view v ≡ render_call frame.now) }
{
    json!(in alloc; {"op": "render", "frame": frame})
}

/// Waits until a frame is done.
pub(crate) fn wait(alloc: Global, frame: &str) -> Result<Value, AllocError>
    ensures { IfOk result (λ v. view v ≡ wait_call frame.now) }
{
    json!(in alloc; {"op": "ready", "frame": frame, "wait": true})
}

/// Maps a channel of a frame, and unmaps it with no call between.
pub(crate) fn look(alloc: Global, frame: &str, channel: &str) -> Result<Value, AllocError>
    ensures { IfOk result (λ v. view v ≡ look_call frame.now channel.now) }
{
    json!(in alloc; {"op": "with_frame", "frame": frame, "channel": channel, "calls": []})
}
