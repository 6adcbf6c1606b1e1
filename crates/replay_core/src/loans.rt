//! Loans that a replay opens, and the unmaps that end them.
ghost use Rattle.std.specs.Prelude.{◌≡◌, ◌*◌, ◌≤◌, ◌^◌, ℕ, IfOk, IsTrue, List, Ok, OnOk, Option, Some, length, option_to_list, true};
ghost use Rattle.call_answers.specs.Named.{block_of};
ghost use Rattle.dev_types.specs.DataTypes.{byte_size, is_element_type};
ghost use Rattle.dev_types.specs.declared.handles.Channel.{Channel as Channels};
ghost use Rattle.device_parts.specs.Makes.{Hands, array_of};
ghost use Rattle.kind_tables.specs.SceneObjects.{Block};
ghost use Rattle.object_steps.specs.ParameterLoans.{zero_elements};
ghost use Rattle.replay_core.specs.Held.{IsBlank, holding, loan_by};
ghost use Rattle.replay_core.specs.Labels.{Meaning, binding_of};
ghost use Rattle.replay_core.specs.Loans.{is_unmap, new_content, unmap_by, written};
ghost use Rattle.replay_core.specs.Views.{meaning_of};

use crate::bindings::{Binding, Labels};
use crate::calls::label_of;
use crate::writes::{Draft, bytes_of_lent, write_all_lent};
use array_objects::Lent;
use dev_types::{Bytes, DataType, Handle, NoMemory, Refused};
use object_steps::LentParam;
use seq_model::{Call, Reply};
use solo_device::Handed;
use std::alloc::Global;
use std::marker::Model;
use trace_text::{TraceCall, Write};

/// Gives up the memory of a loan, if there is one.
pub fn give_up(loan: Handed) {
    match loan {
        Handed::Nothing => {}
        Handed::Lent(lent) => {
            let _bytes = lent.give_up();
        }
        Handed::Param(lent) => {
            let _bytes = lent.give_up();
        }
        Handed::Frame(_) => {}
    }
}

/// The call that ends a loan, and the loan that it gives back, where it is one of an array.
pub struct Unmap {
    call: Call,
    loan: Handed,
}

impl Model for Unmap {
    ghost use Rattle.std.specs.Prelude.{◌≡◌, true};
    ghost use Rattle.device_parts.specs.Makes.{Hands};
    ghost use Rattle.replay_core.specs.Loans.{is_unmap};
    ghost use Rattle.seq_model.specs.declared.calls.Call.{Call};

    ghost Value = { Call };

    ghost view = { λ u. u.call };

    ghost invariant = { λ u. (is_unmap u.call ≡ true) × Hands u.call u.loan };
}

impl Drop for Unmap {
    fn drop(self) {
        let Unmap { call: _, loan } = self;
        give_up(loan);
    }
}

impl Unmap {
    fn of(call: Call, loan: Handed) -> Unmap
        requires ends { is_unmap call ≡ true }
        requires hands { Hands call loan }
        ensures { result ≡ call }
    {
        Unmap { call, loan }
    }

    /// The call, and the loan that it gives back.
    pub fn into_parts(self) -> (Call, Handed)
        ensures call { result.0 ≡ self }
        ensures ends { is_unmap result.0 ≡ true }
        ensures hands { Hands result.0 result.1 }
    {
        let Unmap { call, loan } = self;
        (call, loan)
    }
}

/// What a creation binds, if it was done.
pub fn binding_of(phase: u64, caller: u32, c: &TraceCall, reply: &Reply) -> Option<Binding>
    ensures { option_to_list result ≡ binding_of phase caller c.now reply.now }
{
    let Reply::Made(handle) = reply else {
        return None;
    };
    match label_of(c) {
        Some(label) => Some(Binding {
            label: label.copied(),
            handle: *handle,
            phase,
            caller,
        }),
        None => None,
    }
}

/// The unmap that ends the loan of an array, after all that is written into it.
fn unmap_of_array(
    alloc: Global,
    labels: &Labels<'_>,
    lent: Lent,
    writes: &[Write],
) -> Result<Option<Unmap>, NoMemory>
    ensures { IfOk result (λ unmap. unmap ≡ Some (Call.UnmapArray lent.array lent.number
        (written (meaning_of labels.now) writes.now (block_of lent.elements)).bytes)) }
{
    let mut lent = lent;
    let Ok(bytes) = written_bytes(alloc, labels, &mut lent, writes) else {
        give_up(Handed::Lent(lent));
        return Err(NoMemory);
    };
    let call = Call::UnmapArray {
        h: lent.array(),
        number: lent.number(),
        bytes,
    };
    Ok(Some(Unmap::of(call, Handed::Lent(lent))))
}

/// The bytes of a loan of an array after all that is written into it.
fn written_bytes(
    alloc: Global,
    labels: &Labels<'_>,
    lent: &mut Lent,
    writes: &[Write],
) -> Result<Bytes, NoMemory>
    ensures bytes { IfOk result (λ bytes. bytes ≡ lent.new.elements.bytes) }
    ensures written { OnOk result (lent.new ≡ holding
        (written (meaning_of labels.now) writes.now (block_of lent.old.elements)) lent.old) }
{
    write_all_lent(alloc, labels, lent, writes)?;
    bytes_of_lent(alloc, lent)
}

/// The unmap that ends the loan of a new array for a parameter, after all that is written into it.
fn unmap_of_parameter(
    alloc: Global,
    labels: &Labels<'_>,
    lent: LentParam,
    elem: DataType,
    count: u64,
    writes: &[Write],
) -> Result<Option<Unmap>, NoMemory>
    requires element { IsTrue (is_element_type elem) }
    requires within { count * byte_size elem ≤ 2 ^ 28 }
    requires blank { lent.elements ≡ zero_elements elem count }
    ensures { IfOk result (λ unmap. unmap ≡ Some (Call.UnmapParameterArray lent.object lent.name
        lent.number (written (meaning_of labels.now) writes.now (new_content elem count)).bytes)) }
{
    let Ok(bytes) = new_bytes(alloc, labels, elem, count, writes) else {
        give_up(Handed::Param(lent));
        return Err(NoMemory);
    };
    let call = Call::UnmapParameterArray {
        h: lent.object(),
        name: lent.name().copied(),
        number: lent.number(),
        bytes,
    };
    Ok(Some(Unmap::of(call, Handed::Param(lent))))
}

/// The bytes of a new array after all that is written into it.
fn new_bytes(
    alloc: Global,
    labels: &Labels<'_>,
    elem: DataType,
    count: u64,
    writes: &[Write],
) -> Result<Bytes, NoMemory>
    requires element { IsTrue (is_element_type elem) }
    requires within { count * byte_size elem ≤ 2 ^ 28 }
    ensures bytes { IfOk result (λ bytes. bytes
        ≡ (written (meaning_of labels.now) writes.now (new_content elem count)).bytes) }
    ensures length { IfOk result (λ bytes. length bytes
        ≡ length (new_content elem count).bytes) }
{
    let mut draft = Draft::new(alloc, elem, count)?;
    draft.write_all(alloc, labels, writes)?;
    draft.into_bytes(alloc)
}

/// The unmap that will end a loan, with what was written into it, where the reply granted one. `out` is
/// the loan of an array that was handed out with the reply, if one was, and `place` the place of the
/// call in the journal.
pub fn unmap_of(
    alloc: Global,
    labels: &Labels<'_>,
    c: &TraceCall,
    reply: &Reply,
    out: Handed,
    place: u64,
) -> Result<Option<Unmap>, NoMemory>
    requires { IsBlank c.now out }
    ensures { (content : Option Block)
        → array_of out ≡ loan_by content (meaning_of labels.now) c.now reply.now
        → IfOk result (λ unmap. unmap
        ≡ unmap_by content place (meaning_of labels.now) c.now reply.now) }
{
    match c {
        TraceCall::WithArray { write, .. } => match out {
            Handed::Lent(lent) => unmap_of_array(alloc, labels, lent, write.as_slice()),
            out => {
                give_up(out);
                Ok(None)
            }
        },
        TraceCall::WithParam {
            elem,
            count,
            write,
            ..
        } => match out {
            Handed::Param(lent) => {
                unmap_of_parameter(alloc, labels, lent, *elem, *count, write.as_slice())
            }
            out => {
                give_up(out);
                Ok(None)
            }
        },
        TraceCall::WithFrame { frame, .. } => {
            give_up(out);
            Ok(unmap_of_frame(labels.handle(frame), reply, place))
        }
        _ => {
            give_up(out);
            Ok(None)
        }
    }
}

/// The unmap that ends the loan of a frame's channel, where the reply granted one at this place.
fn unmap_of_frame(h: Handle, reply: &Reply, place: u64) -> Option<Unmap>
    ensures { (content : Option Block) (meaning : Meaning) (frame : List ℕ) (channel : Channels)
        → h ≡ meaning frame
        → result ≡ unmap_by content place meaning (TraceCall.WithFrame frame channel) reply.now }
{
    let Reply::Mapped { .. } = reply else {
        return None;
    };
    let call = Call::UnmapFrame { h, number: place };
    Some(Unmap::of(call, Handed::Nothing))
}

/// What the reply to a call of the trace gives: a binding, and the unmap of a loan. `out` is the loan that
/// was handed out with the reply, and `place` the place of the call in the journal.
pub fn gained(
    alloc: Global,
    labels: Labels<'_>,
    c: &TraceCall,
    reply: &Reply,
    out: Handed,
    place: u64,
) -> Result<(Option<Binding>, Option<Unmap>), NoMemory>
    requires { IsBlank c.now out }
    ensures binding { IfOk result (λ g. option_to_list g.0
        ≡ binding_of labels.entry.phase labels.entry.caller c.now reply.now) }
    ensures unmap { (content : Option Block)
        → array_of out ≡ loan_by content (meaning_of labels.entry) c.now reply.now
        → IfOk result (λ g. g.1
        ≡ unmap_by content place (meaning_of labels.entry) c.now reply.now) }
{
    let unmap = unmap_of(alloc, &labels, c, reply, out, place)?;
    Ok((binding_of(labels.phase, labels.caller, c, reply), unmap))
}

/// What a call made; where it was not made, want of memory. A loan that comes back is given up.
pub fn made_or_short(
    tried: Result<(Reply, Handed), (Refused, Call, Handed)>,
) -> Result<(Reply, Handed), NoMemory>
    ensures { IfOk result (λ made. tried ≡ Ok made) }
{
    match tried {
        Ok(made) => Ok(made),
        Err((_refused, _call, loan)) => {
            give_up(loan);
            Err(NoMemory)
        }
    }
}
