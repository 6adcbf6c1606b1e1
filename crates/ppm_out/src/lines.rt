//! The lines of a journal.
ghost use Rattle.std.specs.Prelude.{◌≡◌, ◌++◌, codes, decimal, OnOk, OnErr};
ghost use Rattle.ppm_out.specs.Lines.{line, spaced, actor_word, call_words, reply_words};
ghost use Rattle.ppm_out.specs.Ppm.{KeepsFront};

use crate::calls::push_call;
use crate::entries::EntryText;
use crate::replies::push_reply;
use crate::words::push_text;
use dev_types::NoMemory;
use std::alloc::Global;

/// Writes one line of a journal to the end of `out`: the entry's place, counted from 1, the caller, the
/// call, `->`, the reply, and a newline.
///
/// # Errors
/// `NoMemory` where `out` or the text found none; `out` is then as it was.
pub fn entry_line(
    alloc: Global,
    place: u64,
    entry: &EntryText,
    out: &mut Vec<u8>,
) -> Result<(), NoMemory>
    ensures ok { OnOk result (out.new.items ≡ out.old.items ++ line place entry.now) }
    ensures err { OnErr result (out.new.items ≡ out.old.items) }
{
    let before = out.len();
    if push_line(alloc, place, entry, out).is_ok() {
        return Ok(());
    }
    out.truncate(before);
    Err(NoMemory)
}

/// The same, but where there is no memory a part of the line stays.
fn push_line(
    alloc: Global,
    place: u64,
    entry: &EntryText,
    out: &mut Vec<u8>,
) -> Result<(), NoMemory>
    ensures ok { OnOk result (out.new.items ≡ out.old.items ++ line place entry.now) }
    ensures front { KeepsFront out.old.items out.new.items }
{
    push_place(alloc, place, entry.actor, out)?;
    push_call(alloc, &entry.call, out)?;
    push_text(" -> ", out)?;
    push_reply(alloc, &entry.reply, out)?;
    push_text("\n", out)
}

fn push_place(
    alloc: Global,
    place: u64,
    actor: Option<u32>,
    out: &mut Vec<u8>,
) -> Result<(), NoMemory>
    ensures ok { OnOk result (out.new.items
        ≡ out.old.items ++ (decimal place ++ (codes " " ++ (actor_word actor ++ codes " ")))) }
    ensures front { KeepsFront out.old.items out.new.items }
{
    let text = match actor {
        Some(actor) => format!(in alloc; "{place} {actor} ")?,
        None => format!(in alloc; "{place} - ")?,
    };
    push_text(&text, out)
}
