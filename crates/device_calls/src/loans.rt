//! Loans that calls hand out, and that come back of calls which would end them.
ghost use Rattle.std.specs.Prelude.{◌≡◌, None, Some, true, IfErr, IfOk, OnOk};
ghost use Rattle.std.specs.Option.{is_some};
ghost use Rattle.device_calls.specs.Lending.{IsMade, lent_of, param_of};
ghost use Rattle.device_parts.specs.Makes.{frame_of};
ghost use Rattle.device_parts.specs.Maps.{is_refused};
ghost use Rattle.seq_model.specs.declared.calls.Reply.TheVariants.{Denied, Made};

use array_objects::Lent;
use dev_types::{Bytes, Handle, NoMemory, Refused};
use device_core::Handed;
use frame_future::MappedFrame;
use object_steps::LentParam;
use seq_model::Reply;
use std::alloc::Global;

/// The loan of an array, if this is one; any other is given up.
pub(crate) fn lent_of(out: Handed) -> Option<Lent>
    ensures { result ≡ lent_of out }
{
    match out {
        Handed::Lent(lent) => Some(lent),
        other => {
            other.give_up();
            None
        }
    }
}

/// The loan of an array for a parameter, if this is one; any other is given up.
pub(crate) fn param_of(out: Handed) -> Option<LentParam>
    ensures { result ≡ param_of out }
{
    match out {
        Handed::Param(lent) => Some(lent),
        other => {
            other.give_up();
            None
        }
    }
}

/// The loan of a channel, if this is one; any other is given up.
pub(crate) fn channel_of(out: Handed) -> Option<MappedFrame>
    ensures { result ≡ frame_of out }
{
    match out {
        Handed::Frame(frame) => Some(frame),
        other => {
            other.give_up();
            None
        }
    }
}

/// Why a reply refuses.
fn refusal_in(reply: Reply) -> Refused
    requires { is_refused reply ≡ true }
    ensures { reply ≡ Denied result }
{
    match reply {
        Reply::Denied(refused) => refused,
        _ => unreachable!(),
    }
}

/// What a map lends, or why it was refused.
pub(crate) fn lent_or_refused<T>(reply: Reply, lent: Option<T>) -> Result<T, Refused>
    requires { lent ≡ None → is_refused reply ≡ true }
    ensures lent { IfOk result (λ loan. lent ≡ Some loan) }
    ensures refused { IfErr result (λ e. (lent ≡ None) × (reply ≡ Denied e)) }
{
    match lent {
        Some(loan) => Ok(loan),
        None => Err(refusal_in(reply)),
    }
}

/// That a loan was given back, or why it was not, with the loan.
pub(crate) fn done_or_back<T>(reply: Reply, back: Option<T>) -> Result<(), (Refused, T)>
    requires { is_some back ≡ true → is_refused reply ≡ true }
    ensures done { OnOk result (back ≡ None) }
    ensures back { IfErr result (λ e. (back ≡ Some e.1) × (reply ≡ Denied e.0)) }
{
    match back {
        Some(loan) => Err((refusal_in(reply), loan)),
        None => Ok(()),
    }
}

/// The handle of the array that was made, or why it was not, with the loan.
pub(crate) fn made_or_back(
    reply: Reply,
    back: Option<LentParam>,
) -> Result<Handle, (Refused, LentParam)>
    requires back { is_some back ≡ true → is_refused reply ≡ true }
    requires made { back ≡ None → IsMade reply }
    ensures made { IfOk result (λ k. (back ≡ None) × (reply ≡ Made k)) }
    ensures back { IfErr result (λ e. (back ≡ Some e.1) × (reply ≡ Denied e.0)) }
{
    match back {
        Some(loan) => Err((refusal_in(reply), loan)),
        None => match reply {
            Reply::Made(h) => Ok(h),
            _ => unreachable!(),
        },
    }
}

/// The same bytes once more. The only error is want of memory.
pub(crate) fn copied(alloc: Global, bytes: &[u8]) -> Result<Bytes, NoMemory>
    ensures { IfOk result (λ block. block ≡ bytes.now) }
{
    let copy = Vec::from_slice(alloc, bytes)?;
    match Bytes::of(alloc, copy) {
        Ok(block) => Ok(block),
        Err((NoMemory, _bytes)) => Err(NoMemory),
    }
}
