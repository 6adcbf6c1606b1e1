//! What calls are answered, but for those that show a picture.
ghost use Rattle.std.specs.Prelude.{◌≡◌, IfOk, IsOk, IsSome, Some, true};
ghost use Rattle.seq_model.specs.Answers.{answer, granted};
ghost use Rattle.call_answers.specs.Plain.{IsPlain, ShowsNoPicture, needs_no_memory};
ghost use Rattle.call_answers.specs.Telling.{IsReplyOf};

use crate::answers::refusal;
use crate::frames::readiness;
use crate::queries::{told_info, told_parameters, told_property, told_subtypes};
use crate::standing::Standing;
use dev_types::{NoMemory, Refused};
use seq_model::{Call, Reply};
use std::alloc::Global;

/// What was told as a reply: a refusal is one, too. The only error is want of memory.
fn replied(told: Result<Reply, Refused>) -> Result<Reply, NoMemory>
    ensures { IfOk result (IsReplyOf told) }
{
    match told {
        Ok(reply) => Ok(reply),
        Err(Refused::NoMemory) => Err(NoMemory),
        Err(refused) => Ok(Reply::Denied(refused)),
    }
}

/// The reply to a call that no refusal applies to, where the reply takes no memory.
fn granted<S: Standing>(device: &S, call: &Call) -> Reply
    requires plain { IsPlain call.now }
    requires answered { IsSome (granted (S.past device.now) call.now) }
    ensures { granted (S.past device.now) call.now ≡ Some result }
{
    match call {
        Call::NewObject { .. } | Call::NewArray { .. } => Reply::Made(device.next()),
        Call::UnmapParameterArray { .. } => Reply::Made(device.next()),
        Call::MapArray { .. } | Call::MapParameterArray { .. } => Reply::Lent(device.place()),
        Call::FrameReady { h, wait } => readiness(device, *h, *wait),
        _ => Reply::Done,
    }
}

/// The reply to a call that is refused, or else to one whose reply takes no memory. The only error
/// is want of memory.
#[tactic(auto, unfolding(seq_model::specs::Answers::answer))]
fn refused_or_granted<S: Standing>(
    device: &S,
    alloc: Global,
    call: &Call,
) -> Result<Reply, NoMemory>
    requires plain { IsPlain call.now }
    requires answered { IsSome (answer (S.past device.now) call.now) }
    ensures answered { IfOk result (λ reply. answer (S.past device.now) call.now ≡ Some reply) }
    ensures no_memory { needs_no_memory call.now ≡ true → IsOk result }
{
    match refusal(device, alloc, call)? {
        Some(refused) => Ok(Reply::Denied(refused)),
        None => Ok(granted(device, call)),
    }
}

/// The reply to a call that shows no picture, where no tile of a flight was seen finished yet. The
/// call may not wait for a flight. Each question is asked once. The only error is want of memory.
pub fn answer<S: Standing>(device: &S, alloc: Global, call: &Call) -> Result<Reply, NoMemory>
    requires pictureless { ShowsNoPicture call.now }
    requires answered { IsSome (answer (S.past device.now) call.now) }
    ensures answered { IfOk result (λ reply. answer (S.past device.now) call.now ≡ Some reply) }
    ensures no_memory { needs_no_memory call.now ≡ true → IsOk result }
{
    match call {
        Call::GetProperty { h, name } => replied(told_property(device, alloc, *h, name)),
        Call::Subtypes { ty } => replied(told_subtypes(alloc, *ty)),
        Call::ObjectInfo { ty, subtype } => replied(told_parameters(alloc, *ty, subtype)),
        Call::ParameterInfo { ty, subtype, name } => replied(told_info(alloc, *ty, subtype, name)),
        _ => refused_or_granted(device, alloc, call),
    }
}
