//! Calls as words.
ghost use Rattle.std.specs.Prelude.{◌≡◌, [], ◌∷◌, ◌++◌, decimal, take, drop, OnOk};
ghost use Rattle.dev_types.specs.Words.{word_of_origin};
ghost use Rattle.ppm_out.specs.Lines.{spaced, continued, first_word, call_words, hex, user_of, wait_word};
ghost use Rattle.ppm_out.specs.Ppm.{KeepsFront};

use crate::entries::CallText;
use crate::words::{push_bytes, push_given_value, push_number, push_text, push_word};
use dev_types::{Bytes, NoMemory, Origin};
use std::alloc::Global;

pub(crate) fn push_call(alloc: Global, call: &CallText, out: &mut Vec<u8>) -> Result<(), NoMemory>
    ensures ok { OnOk result (out.new.items ≡ out.old.items ++ spaced (call_words call.now)) }
    ensures front { KeepsFront out.old.items out.new.items }
{
    push_text(verb(call), out)?;
    push_subject(alloc, call, out)?;
    push_argument(alloc, call, out)?;
    push_others(alloc, call, out)
}

fn verb(call: &CallText) -> &'static str
    ensures { result.now ≡ first_word (call_words call.now) }
{
    match call {
        CallText::NewObject { .. } => "new",
        CallText::NewArray { .. } => "new_array",
        CallText::Retain { .. } => "retain",
        CallText::Release { .. } => "release",
        CallText::SetParameter { .. } => "set",
        CallText::UnsetParameter { .. } => "unset",
        CallText::UnsetAll { .. } => "unset_all",
        CallText::Commit { .. } => "commit",
        CallText::MapArray { .. } => "map_array",
        CallText::UnmapArray { .. } => "unmap_array",
        CallText::MapParameterArray { .. } => "map_parameter_array",
        CallText::UnmapParameterArray { .. } => "unmap_parameter_array",
        CallText::RenderFrame { .. } => "render",
        CallText::FrameReady { .. } => "ready",
        CallText::DiscardFrame { .. } => "discard",
        CallText::MapFrame { .. } => "map_frame",
        CallText::UnmapFrame { .. } => "unmap_frame",
        CallText::GetProperty { .. } => "property",
        CallText::Subtypes { .. } => "subtypes",
        CallText::ObjectInfo { .. } => "object_info",
        CallText::ParameterInfo { .. } => "parameter_info",
        CallText::Finished(_) => "finished",
        CallText::Left(_) => "left",
        CallText::Close => "close",
    }
}

/// The second word, with a space before it: what the call is made on.
fn push_subject(alloc: Global, call: &CallText, out: &mut Vec<u8>) -> Result<(), NoMemory>
    ensures ok { OnOk result (out.new.items
        ≡ out.old.items ++ continued (take 1 (drop 1 (call_words call.now)))) }
    ensures front { KeepsFront out.old.items out.new.items }
{
    match call {
        CallText::NewObject { ty, .. }
        | CallText::Subtypes { ty }
        | CallText::ObjectInfo { ty, .. }
        | CallText::ParameterInfo { ty, .. } => push_word(ty.word(), out),
        CallText::NewArray { elem, .. } => push_word(elem.name(), out),
        CallText::Retain { h }
        | CallText::Release { h }
        | CallText::SetParameter { h, .. }
        | CallText::UnsetParameter { h, .. }
        | CallText::UnsetAll { h }
        | CallText::Commit { h }
        | CallText::MapArray { h }
        | CallText::UnmapArray { h, .. }
        | CallText::MapParameterArray { h, .. }
        | CallText::UnmapParameterArray { h, .. }
        | CallText::RenderFrame { h }
        | CallText::FrameReady { h, .. }
        | CallText::DiscardFrame { h }
        | CallText::MapFrame { h, .. }
        | CallText::UnmapFrame { h, .. }
        | CallText::GetProperty { h, .. } => push_number(alloc, h.0, out),
        CallText::Finished(ticket) | CallText::Left(ticket) => push_number(alloc, *ticket, out),
        CallText::Close => Ok(()),
    }
}

/// The third word, with a space before it.
fn push_argument(alloc: Global, call: &CallText, out: &mut Vec<u8>) -> Result<(), NoMemory>
    ensures ok { OnOk result (out.new.items
        ≡ out.old.items ++ continued (take 1 (drop 2 (call_words call.now)))) }
    ensures front { KeepsFront out.old.items out.new.items }
{
    match call {
        CallText::NewObject { subtype: word, .. }
        | CallText::ObjectInfo { subtype: word, .. }
        | CallText::ParameterInfo { subtype: word, .. }
        | CallText::SetParameter { name: word, .. }
        | CallText::UnsetParameter { name: word, .. }
        | CallText::MapParameterArray { name: word, .. }
        | CallText::UnmapParameterArray { name: word, .. }
        | CallText::GetProperty { name: word, .. } => push_word(word.as_str(), out),
        CallText::NewArray { count: number, .. }
        | CallText::UnmapArray { number, .. }
        | CallText::UnmapFrame { number, .. } => push_number(alloc, *number, out),
        CallText::FrameReady { wait, .. } => push_word(wait_word(*wait), out),
        CallText::MapFrame { channel, .. } => push_word(channel.name(), out),
        _ => Ok(()),
    }
}

/// The words after the third, with a space before each.
fn push_others(alloc: Global, call: &CallText, out: &mut Vec<u8>) -> Result<(), NoMemory>
    ensures ok { OnOk result (out.new.items
        ≡ out.old.items ++ continued (drop 3 (call_words call.now))) }
    ensures front { KeepsFront out.old.items out.new.items }
{
    match call {
        CallText::NewArray {
            stride,
            origin,
            bytes,
            ..
        } => {
            push_number(alloc, *stride, out)?;
            push_memory(alloc, *origin, bytes, out)
        }
        CallText::SetParameter { value, .. } => push_given_value(alloc, value, out),
        CallText::UnmapArray { bytes, .. } => push_bytes(bytes.as_slice(), out),
        CallText::MapParameterArray { elem, count, .. } => {
            push_word(elem.name(), out)?;
            push_number(alloc, *count, out)
        }
        CallText::UnmapParameterArray { number, bytes, .. } => {
            push_number(alloc, *number, out)?;
            push_bytes(bytes.as_slice(), out)
        }
        CallText::ParameterInfo { name, .. } => push_word(name.as_str(), out),
        _ => Ok(()),
    }
}

/// Where an array's memory comes from, and its bytes.
fn push_memory(
    alloc: Global,
    origin: Origin,
    bytes: &Bytes,
    out: &mut Vec<u8>,
) -> Result<(), NoMemory>
    ensures ok { OnOk result (out.new.items ≡ out.old.items
        ++ continued (word_of_origin origin ∷ decimal (user_of origin) ∷ hex bytes.now ∷ [])) }
    ensures front { KeepsFront out.old.items out.new.items }
{
    push_word(origin.word(), out)?;
    push_number(alloc, user_of(origin), out)?;
    push_bytes(bytes.as_slice(), out)
}

fn user_of(origin: Origin) -> u64
    ensures { result ≡ user_of origin }
{
    match origin {
        Origin::Captured(user) | Origin::Shared(user) => user,
        Origin::Managed => 0,
    }
}

fn wait_word(wait: bool) -> &'static str
    ensures { result.now ≡ wait_word wait }
{
    if wait { "wait" } else { "nowait" }
}
