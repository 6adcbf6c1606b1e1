//! Entries as they are printed.
ghost use Rattle.std.specs.Prelude.{◌≡◌, IfOk};
ghost use Rattle.report_text.specs.Reports.{call_text, entry_text, reply_text};

use dev_types::NoMemory;
use ppm_out::{CallText, EntryText, ReplyText};
use seq_model::{Call, Entry, Reply};
use std::alloc::Global;

/// An entry as it is printed. Bytes are shared and not copied.
///
/// # Errors
/// `NoMemory` where there was none for the lists in it.
pub(crate) fn entry_text(alloc: Global, entry: &Entry) -> Result<EntryText, NoMemory>
    ensures { IfOk result (λ text. text ≡ entry_text entry.now) }
{
    match entry {
        Entry::Called { actor, call, reply } => Ok(EntryText {
            actor: Some(*actor),
            call: call_text(alloc, call)?,
            reply: reply_text(alloc, reply)?,
        }),
        Entry::Finished(ticket) => Ok(note(CallText::Finished(*ticket))),
        Entry::Left(ticket) => Ok(note(CallText::Left(*ticket))),
        Entry::Closed => Ok(note(CallText::Close)),
    }
}

/// What a device notes by itself.
fn note(call: CallText) -> EntryText
    ensures { result ≡ record { actor = None; call = call; reply = ReplyText.Noted } }
{
    EntryText {
        actor: None,
        call,
        reply: ReplyText::Noted,
    }
}

fn call_text(alloc: Global, call: &Call) -> Result<CallText, NoMemory>
    ensures { IfOk result (λ text. text ≡ call_text call.now) }
{
    match call {
        Call::NewObject { ty, subtype } => Ok(CallText::NewObject {
            ty: *ty,
            subtype: subtype.copied(),
        }),
        Call::NewArray {
            elem,
            count,
            stride,
            origin,
            bytes,
        } => Ok(CallText::NewArray {
            elem: *elem,
            count: *count,
            stride: *stride,
            origin: *origin,
            bytes: bytes.share(alloc)?,
        }),
        Call::Retain { h } => Ok(CallText::Retain { h: *h }),
        Call::Release { h } => Ok(CallText::Release { h: *h }),
        Call::SetParameter { h, name, value } => Ok(CallText::SetParameter {
            h: *h,
            name: name.copied(),
            value: value.copied(),
        }),
        Call::UnsetParameter { h, name } => Ok(CallText::UnsetParameter {
            h: *h,
            name: name.copied(),
        }),
        Call::UnsetAll { h } => Ok(CallText::UnsetAll { h: *h }),
        Call::Commit { h } => Ok(CallText::Commit { h: *h }),
        Call::MapArray { h } => Ok(CallText::MapArray { h: *h }),
        Call::UnmapArray { h, number, bytes } => Ok(CallText::UnmapArray {
            h: *h,
            number: *number,
            bytes: bytes.share(alloc)?,
        }),
        Call::MapParameterArray {
            h,
            name,
            elem,
            count,
        } => Ok(CallText::MapParameterArray {
            h: *h,
            name: name.copied(),
            elem: *elem,
            count: *count,
        }),
        Call::UnmapParameterArray {
            h,
            name,
            number,
            bytes,
        } => Ok(CallText::UnmapParameterArray {
            h: *h,
            name: name.copied(),
            number: *number,
            bytes: bytes.share(alloc)?,
        }),
        Call::RenderFrame { h } => Ok(CallText::RenderFrame { h: *h }),
        Call::FrameReady { h, wait } => Ok(CallText::FrameReady { h: *h, wait: *wait }),
        Call::DiscardFrame { h } => Ok(CallText::DiscardFrame { h: *h }),
        Call::MapFrame { h, channel } => Ok(CallText::MapFrame {
            h: *h,
            channel: *channel,
        }),
        Call::UnmapFrame { h, number } => Ok(CallText::UnmapFrame {
            h: *h,
            number: *number,
        }),
        Call::GetProperty { h, name } => Ok(CallText::GetProperty {
            h: *h,
            name: name.copied(),
        }),
        Call::Subtypes { ty } => Ok(CallText::Subtypes { ty: *ty }),
        Call::ObjectInfo { ty, subtype } => Ok(CallText::ObjectInfo {
            ty: *ty,
            subtype: subtype.copied(),
        }),
        Call::ParameterInfo { ty, subtype, name } => Ok(CallText::ParameterInfo {
            ty: *ty,
            subtype: subtype.copied(),
            name: name.copied(),
        }),
    }
}

fn reply_text(alloc: Global, reply: &Reply) -> Result<ReplyText, NoMemory>
    ensures { IfOk result (λ text. text ≡ reply_text reply.now) }
{
    match reply {
        Reply::Done => Ok(ReplyText::Done),
        Reply::Made(h) => Ok(ReplyText::Made(*h)),
        Reply::Lent(number) => Ok(ReplyText::Lent(*number)),
        Reply::Mapped {
            width,
            height,
            ty,
            rows,
        } => Ok(ReplyText::Mapped {
            width: *width,
            height: *height,
            ty: *ty,
            rows: rows.share(alloc)?,
        }),
        Reply::Ready => Ok(ReplyText::Ready),
        Reply::NotReady { given, of } => Ok(ReplyText::NotReady {
            given: *given,
            of: *of,
        }),
        Reply::Val(value) => Ok(ReplyText::Val(value.copied())),
        Reply::Listed(names) => Ok(ReplyText::Listed(names.copied(alloc)?)),
        Reply::Info(info) => Ok(ReplyText::Info(info.copied(alloc)?)),
        Reply::Denied(refused) => Ok(ReplyText::Denied(refused.copied())),
    }
}
