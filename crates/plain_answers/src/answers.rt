//! Why a call is refused, what it is answered, and as what it is entered.
ghost use Rattle.std.specs.Prelude.{◌≡◌, IfErr, IfOk, IsSome, Some};
ghost use Rattle.seq_model.specs.Answers.{answer};
ghost use Rattle.seq_model.specs.Contents.{entered};
ghost use Rattle.seq_model.specs.Refusals.{refusal};
ghost use Rattle.seq_model.specs.declared.calls.Call.TheVariants.{MapFrame};

use crate::asked::Asked;
use crate::pictures::mapped;
use call_answers::{answers, contents, frames, replies};
use dev_types::{Channel, Handle, NoMemory, Refused};
use plain_journal::record::Record;
use seq_model::{Call, Reply};
use std::alloc::Global;

/// Why a call is refused; `None` exactly where no refusal applies to it. The only error is want of
/// memory.
pub fn refusal(past: &Record, alloc: Global, call: &Call) -> Result<Option<Refused>, NoMemory>
    ensures { IfOk result (λ found. found ≡ refusal past.now call.now) }
{
    answers::refusal(&Asked { record: past }, alloc, call)
}

/// A call as it is entered: what an unmap brings names only what is there. The only error is want of
/// memory, and hands the call back unchanged.
pub fn entered(past: &Record, alloc: Global, call: Call) -> Result<Call, (NoMemory, Call)>
    ensures ok { IfOk result (λ made. made ≡ entered past.now call) }
    ensures err { IfErr result (λ refused. refused.1 ≡ call) }
{
    contents::entered(&Asked { record: past }, alloc, call)
}

/// The reply to a call that maps a channel of a frame. The only error is want of memory.
#[tactic(auto, unfolding(seq_model::specs::Answers::answer, seq_model::specs::Refusals::refusal, seq_model::specs::Refusals::refusals_of))]
fn mapping(past: &Record, alloc: Global, h: Handle, channel: Channel) -> Result<Reply, NoMemory>
    requires { IsSome (answer past.now (MapFrame h channel)) }
    ensures { IfOk result (λ reply. answer past.now (MapFrame h channel) ≡ Some reply) }
{
    match frames::refusal_of_map_frame(&Asked { record: past }, h, channel) {
        Some(refused) => Ok(Reply::Denied(refused)),
        None => mapped(past, alloc, h, channel),
    }
}

/// The reply to a call, where no tile of a flight was seen finished yet. The call may not wait for a
/// flight. The only error is want of memory.
pub fn answer(past: &Record, alloc: Global, call: &Call) -> Result<Reply, NoMemory>
    requires { IsSome (answer past.now call.now) }
    ensures { IfOk result (λ reply. answer past.now call.now ≡ Some reply) }
{
    match call {
        Call::MapFrame { h, channel } => mapping(past, alloc, *h, *channel),
        _ => replies::answer(&Asked { record: past }, alloc, call),
    }
}
