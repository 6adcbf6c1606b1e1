//! What a call is answered, and how it is entered, before anything changes.
ghost use Rattle.std.specs.Prelude.{◌≡◌, IfOk, IsOk, None, Ok, Some, true};
ghost use Rattle.std.specs.Option.{unwrap_or};
ghost use Rattle.call_answers.specs.Plain.{ShowsNoPicture, needs_no_memory};
ghost use Rattle.past_laws.specs.Open.{IsOpen};
ghost use Rattle.seq_model.specs.Answers.{answer};
ghost use Rattle.seq_model.specs.Contents.{entered};
ghost use Rattle.seq_model.specs.Endings.{waited_flight};
ghost use Rattle.seq_model.specs.Steps.{after};
ghost use Rattle.object_steps.specs.Resting.{IsAtRest};

use crate::at_rest::{AtRest, Records};
use call_answers::Standing;
use call_answers::contents::entered;
use call_answers::replies::answer;
use dev_types::NoMemory;
use object_store::store::Store;
use seq_model::{Call, Reply};
use std::alloc::Global;

/// A call as it is entered, if that differs from the call as it was made, and its reply.
#[derive(Drop)]
pub struct Decided {
    pub cleaned: Option<Call>,
    pub reply: Reply,
}

/// What a call is answered that shows no picture and waits for no flight, where no tile of a flight
/// was seen finished yet, and how it is entered. The only error is want of memory.
pub fn decide<R: Records>(
    store: &Store,
    alloc: Global,
    records: &R,
    call: &Call,
) -> Result<Decided, NoMemory>
    requires rests { IsAtRest store.now (R.history records.now) }
    requires may_follow { IsOpen (R.history records.now) }
    requires pictureless { ShowsNoPicture call.now }
    requires waits_for_none { waited_flight (after (R.history records.now)) call.now ≡ None }
    ensures entered { IfOk result (λ d. unwrap_or d.cleaned call.now ≡ entered (after (R.history
        records.now)) call.now) }
    ensures answered { IfOk result (λ d. answer (after (R.history records.now)) (unwrap_or d.cleaned
        call.now) ≡ Some d.reply) }
    ensures no_memory { needs_no_memory call.now ≡ true → IsOk result }
{
    let device = AtRest::new(store, records);
    device.is_legal();
    let cleaned = cleaned(&device, alloc, call)?;
    let reply = answer(&device, alloc, entry_of(&cleaned, call))?;
    Ok(Decided { cleaned, reply })
}

/// The call as it is entered, if it brings something back; the call that was made stays.
#[tactic(auto, unfolding(seq_model::specs::Contents::entered))]
fn cleaned<S: Standing>(device: &S, alloc: Global, call: &Call) -> Result<Option<Call>, NoMemory>
    ensures made { IfOk result (λ made. unwrap_or made call.now
        ≡ entered (S.past device.now) call.now) }
    ensures no_memory { needs_no_memory call.now ≡ true → (result ≡ Ok None) }
{
    let brought = match call {
        Call::UnmapArray { h, number, bytes } => Call::UnmapArray {
            h: *h,
            number: *number,
            bytes: bytes.share(alloc)?,
        },
        Call::UnmapParameterArray {
            h,
            name,
            number,
            bytes,
        } => Call::UnmapParameterArray {
            h: *h,
            name: name.copied(),
            number: *number,
            bytes: bytes.share(alloc)?,
        },
        _ => return Ok(None),
    };
    match entered(device, alloc, brought) {
        Ok(made) => Ok(Some(made)),
        Err(_) => Err(NoMemory),
    }
}

/// The call as it is entered.
pub fn entry_of<'a>(cleaned: &'a Option<Call>, call: &'a Call) -> &'a Call
    ensures { result.now ≡ unwrap_or cleaned.now call.now }
{
    match cleaned {
        Some(cleaned) => cleaned,
        None => call,
    }
}
