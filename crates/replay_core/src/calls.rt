//! The calls of a device that the calls of a trace make.
ghost use Rattle.std.specs.Prelude.{◌≡◌, IfOk};
ghost use Rattle.std.specs.Option.{option_copied, option_map_or};
ghost use Rattle.replay_core.specs.Labels.{call_of, call_of_query, given_bytes, label_of, value_of_set};
ghost use Rattle.replay_core.specs.Loans.{opens};
ghost use Rattle.replay_core.specs.Views.{meaning_of};

use crate::bindings::Labels;
use crate::given::given_bytes;
use dev_types::{DataType, Handle, Name, NoMemory, Origin, Value};
use seq_model::Call;
use std::alloc::Global;
use trace_text::{ArrayData, Query, SetValue, TraceCall};

/// The value that a parameter is set to.
fn value_of_set(labels: &Labels<'_>, value: &SetValue) -> Value
    ensures { result ≡ value_of_set (meaning_of labels.now) value.now }
{
    match value {
        SetValue::Plain(value) => value.copied(),
        SetValue::Object(ty, label) => Value::Object(*ty, labels.handle(label)),
    }
}

/// The object that a query asks of; handle 0, which stands for the device, where it names none.
fn asked(labels: &Labels<'_>, object: &Option<Name>) -> Handle
    ensures { result ≡ option_map_or (meaning_of labels.now) object.now 0 }
{
    match object {
        Some(label) => labels.handle(label),
        None => Handle(0),
    }
}

fn call_of_query(labels: &Labels<'_>, query: &Query) -> Call
    ensures { result ≡ call_of_query (meaning_of labels.now) query.now }
{
    match query {
        Query::Property { object, name } => Call::GetProperty {
            h: asked(labels, object),
            name: name.copied(),
        },
        Query::Subtypes { ty } => Call::Subtypes { ty: *ty },
        Query::ObjectInfo { ty, subtype } => Call::ObjectInfo {
            ty: *ty,
            subtype: subtype.copied(),
        },
        Query::ParameterInfo { ty, subtype, name } => Call::ParameterInfo {
            ty: *ty,
            subtype: subtype.copied(),
            name: name.copied(),
        },
    }
}

/// The call that makes an array of the elements that are given for it.
fn new_array(
    alloc: Global,
    labels: &Labels<'_>,
    elem: DataType,
    count: u64,
    stride: u64,
    origin: Origin,
    given: &ArrayData,
) -> Result<Call, NoMemory>
    ensures { IfOk result (λ call. call ≡ Call.NewArray elem count stride origin (given_bytes (meaning_of labels.now) elem count stride origin given.now)) }
{
    let bytes = given_bytes(alloc, labels, elem, count, stride, origin, given)?;
    Ok(Call::NewArray {
        elem,
        count,
        stride,
        origin,
        bytes,
    })
}

/// The call of the device that a call of a trace makes; `None` for the end of a loan, whose unmap is
/// made with the loan.
pub fn call_of(alloc: Global, labels: &Labels<'_>, c: &TraceCall) -> Result<Option<Call>, NoMemory>
    ensures { IfOk result (λ call. call ≡ call_of (meaning_of labels.now) c.now) }
{
    match c {
        TraceCall::New { ty, subtype, .. } => Ok(Some(Call::NewObject {
            ty: *ty,
            subtype: subtype.copied(),
        })),
        TraceCall::NewArray {
            elem,
            count,
            stride,
            origin,
            data,
            ..
        } => {
            let call = new_array(alloc, labels, *elem, *count, *stride, *origin, data)?;
            Ok(Some(call))
        }
        TraceCall::Retain { object } => Ok(Some(Call::Retain {
            h: labels.handle(object),
        })),
        TraceCall::Release { object } => Ok(Some(Call::Release {
            h: labels.handle(object),
        })),
        TraceCall::Set {
            object,
            name,
            value,
        } => Ok(Some(Call::SetParameter {
            h: labels.handle(object),
            name: name.copied(),
            value: value_of_set(labels, value),
        })),
        TraceCall::Unset { object, name } => Ok(Some(Call::UnsetParameter {
            h: labels.handle(object),
            name: name.copied(),
        })),
        TraceCall::UnsetAll { object } => Ok(Some(Call::UnsetAll {
            h: labels.handle(object),
        })),
        TraceCall::Commit { object } => Ok(Some(Call::Commit {
            h: labels.handle(object),
        })),
        TraceCall::WithArray { array, .. } => Ok(Some(Call::MapArray {
            h: labels.handle(array),
        })),
        TraceCall::WithParam {
            object,
            name,
            elem,
            count,
            ..
        } => Ok(Some(Call::MapParameterArray {
            h: labels.handle(object),
            name: name.copied(),
            elem: *elem,
            count: *count,
        })),
        TraceCall::WithFrame { frame, channel } => Ok(Some(Call::MapFrame {
            h: labels.handle(frame),
            channel: *channel,
        })),
        TraceCall::EndLoan => Ok(None),
        TraceCall::Render { frame } => Ok(Some(Call::RenderFrame {
            h: labels.handle(frame),
        })),
        TraceCall::Discard { frame } => Ok(Some(Call::DiscardFrame {
            h: labels.handle(frame),
        })),
        TraceCall::Ready { frame, wait } => Ok(Some(Call::FrameReady {
            h: labels.handle(frame),
            wait: *wait,
        })),
        TraceCall::Query(query) => Ok(Some(call_of_query(labels, query))),
    }
}

/// The label that a call of a trace binds to what it makes.
pub fn label_of(c: &TraceCall) -> Option<&Name>
    ensures { option_copied result ≡ label_of c.now }
{
    match c {
        TraceCall::New { label, .. } => Some(label),
        TraceCall::NewArray { label, .. } => Some(label),
        _ => None,
    }
}

/// Whether a call opens a loan.
pub fn opens(c: &TraceCall) -> bool
    ensures { result ≡ opens c.now }
{
    matches!(
        c,
        TraceCall::WithArray { .. } | TraceCall::WithParam { .. } | TraceCall::WithFrame { .. }
    )
}
