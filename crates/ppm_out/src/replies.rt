//! Replies as words.
ghost use Rattle.std.specs.Prelude.{◌≡◌, ◌++◌, ◌∷◌, codes, decimal, OnOk};
ghost use Rattle.dev_types.specs.Refusals.{refusal_number};
ghost use Rattle.dev_types.specs.Words.{name_of_type};
ghost use Rattle.ppm_out.specs.Lines.{spaced, continued, reply_words, refusal_words, need_words, comma_before, types_word};
ghost use Rattle.ppm_out.specs.Ppm.{KeepsFront};

use crate::entries::ReplyText;
use crate::words::{push_bytes, push_encoded, push_number, push_text, push_value, push_word};
use dev_types::{DataType, Names, NoMemory, ParamInfo, Refused, TypeList};
use std::alloc::Global;

pub(crate) fn push_reply(
    alloc: Global,
    reply: &ReplyText,
    out: &mut Vec<u8>,
) -> Result<(), NoMemory>
    ensures ok { OnOk result (out.new.items ≡ out.old.items ++ spaced (reply_words reply.now)) }
    ensures front { KeepsFront out.old.items out.new.items }
{
    match reply {
        ReplyText::Done => push_text("done", out),
        ReplyText::Made(h) => push_text(&format!(in alloc; "made {}", h.0)?, out),
        ReplyText::Lent(number) => push_text(&format!(in alloc; "lent {number}")?, out),
        ReplyText::Mapped {
            width,
            height,
            ty,
            rows,
        } => {
            push_text(&format!(in alloc; "mapped {width} {height}")?, out)?;
            push_word(ty.name(), out)?;
            push_bytes(rows.as_slice(), out)
        }
        ReplyText::Ready => push_text("ready", out),
        ReplyText::NotReady { given, of } => {
            push_text(&format!(in alloc; "notready {given} {of}")?, out)
        }
        ReplyText::Val(value) => {
            push_text("value", out)?;
            push_value(alloc, value, out)
        }
        ReplyText::Listed(names) => push_names(names, out),
        ReplyText::Info(info) => push_info(alloc, info, out),
        ReplyText::Denied(refused) => push_refusal(alloc, refused, out),
        ReplyText::Noted => push_text("noted", out),
    }
}

#[tactic(auto, using(crate::proofs::Joined::spaced_first))]
fn push_names(names: &Names, out: &mut Vec<u8>) -> Result<(), NoMemory>
    ensures ok { OnOk result (out.new.items ≡ out.old.items ++ spaced (codes "names" ∷ names.now)) }
    ensures front { KeepsFront out.old.items out.new.items }
{
    push_text("names", out)?;
    push_each(names, out)
}

fn push_each(names: &Names, out: &mut Vec<u8>) -> Result<(), NoMemory>
    ensures ok { OnOk result (out.new.items ≡ out.old.items ++ continued names.now) }
    ensures front { KeepsFront out.old.items out.new.items }
{
    for i in 0..names.len() {
        push_word(names.get(i).as_str(), out)?;
    }
    Ok(())
}

fn push_info(alloc: Global, info: &ParamInfo, out: &mut Vec<u8>) -> Result<(), NoMemory>
    ensures ok { OnOk result (out.new.items ≡ out.old.items
        ++ spaced (codes "info" ∷ types_word info.now.types ∷ need_words info.now.required info.now.default)) }
    ensures front { KeepsFront out.old.items out.new.items }
{
    push_text("info ", out)?;
    push_types(&info.types, out)?;
    match &info.default {
        _ if info.required => push_text(" required", out),
        None => push_text(" optional", out),
        Some(value) => {
            push_text(" default", out)?;
            push_encoded(alloc, value, out)
        }
    }
}

fn push_types(types: &TypeList, out: &mut Vec<u8>) -> Result<(), NoMemory>
    ensures ok { OnOk result (out.new.items ≡ out.old.items ++ types_word types.now) }
    ensures front { KeepsFront out.old.items out.new.items }
{
    for i in 0..types.len() {
        push_type(i, *types.get(i), out)?;
    }
    Ok(())
}

fn push_type(i: u64, ty: DataType, out: &mut Vec<u8>) -> Result<(), NoMemory>
    ensures ok { OnOk result (out.new.items ≡ out.old.items ++ (comma_before i ++ name_of_type ty)) }
    ensures front { KeepsFront out.old.items out.new.items }
{
    push_text(comma_before(i), out)?;
    push_text(ty.name(), out)
}

fn comma_before(i: u64) -> &'static str
    ensures { result.now ≡ comma_before i }
{
    if i == 0 { "" } else { "," }
}

fn push_refusal(alloc: Global, refused: &Refused, out: &mut Vec<u8>) -> Result<(), NoMemory>
    ensures ok { OnOk result (out.new.items ≡ out.old.items
        ++ spaced (codes "refused" ∷ decimal (refusal_number refused.now) ∷ refusal_words refused.now)) }
    ensures front { KeepsFront out.old.items out.new.items }
{
    push_text("refused", out)?;
    push_number(alloc, u64::from(refused.number()), out)?;
    push_refusal_fields(alloc, refused, out)
}

/// The words after the number, with a space before each.
fn push_refusal_fields(alloc: Global, refused: &Refused, out: &mut Vec<u8>) -> Result<(), NoMemory>
    ensures ok { OnOk result (out.new.items ≡ out.old.items ++ continued (refusal_words refused.now)) }
    ensures front { KeepsFront out.old.items out.new.items }
{
    match refused {
        Refused::JournalFull(limit) => push_number(alloc, u64::from(*limit), out),
        Refused::TooMany(limit) => push_number(alloc, *limit, out),
        Refused::BadHandle(h)
        | Refused::NotHeld(h)
        | Refused::WrongKind(h)
        | Refused::ArrayMapped(h) => push_number(alloc, h.0, out),
        Refused::InFlight { given, of } => {
            push_number(alloc, *given, out)?;
            push_number(alloc, *of, out)
        }
        Refused::Incomplete(h, name) | Refused::OutOfRange(h, name) => {
            push_number(alloc, h.0, out)?;
            push_word(name.as_str(), out)
        }
        Refused::BadSubtype
        | Refused::BadType
        | Refused::UnknownObjectParameter
        | Refused::BadShape
        | Refused::NotMapped
        | Refused::NoPicture
        | Refused::ChannelMapped
        | Refused::NoChannel
        | Refused::NoSuchName
        | Refused::NoMemory => Ok(()),
    }
}
