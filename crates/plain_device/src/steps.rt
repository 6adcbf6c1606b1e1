//! One call more: it is answered, and entered with its reply.
ghost use Rattle.std.specs.Prelude.{◌≡◌, ◌≤◌, ◌++◌, IfErr, IsSome, ℕ, OnErr, OnOk, length, true};
ghost use Rattle.seq_model.specs.Endings.{reply_to};
ghost use Rattle.past_laws.specs.Open.{IsOpen};
ghost use Rattle.seq_model.specs.Answers.{answer};
ghost use Rattle.seq_model.specs.Histories.{rendered};
ghost use Rattle.seq_model.specs.Legal.{is_content_sound};
ghost use Rattle.seq_model.specs.Steps.{step};
ghost use Rattle.seq_model.specs.Told.{told_by};
ghost use Rattle.seq_model.specs.declared.calls.Entry.TheVariants.{Called};

use dev_types::{Client, Handle, NoMemory};
use plain_answers::answers::answer;
use plain_journal::record::Record;
use seq_model::{Call, Reply};
use std::alloc::Global;

/// One call: it is answered, and entered with its reply. All memory is taken before anything changes.
///
/// # Errors
/// `NoMemory`, with the call; all is then as it was.
pub fn step<C: Client>(
    past: &mut Record,
    alloc: Global,
    client: &mut C,
    actor: u32,
    call: Call,
) -> Result<(), (NoMemory, Call)>
    requires open { IsOpen past.old.seen }
    requires answered { IsSome (answer past.old call) }
    requires sound { is_content_sound past.old call ≡ true }
    requires room { length past.old.state.objects ≤ C.spare client.old }
    ensures entered { OnOk result (past.new ≡ step past.old (Called actor call (reply_to past.old call))) }
    ensures told { OnOk result (C.notices client.new ≡ C.notices client.old ++ told_by past.old (Called actor call (reply_to past.old call))) }
    ensures room { length past.new.state.objects ≤ C.spare client.new }
    ensures err { OnErr result ((past.new ≡ past.old) × (C.notices client.new ≡ C.notices client.old)) }
    ensures returned { IfErr result (λ e. e.1 ≡ call) }
{
    let Ok(reply) = answer(past, alloc, &call) else {
        return Err((NoMemory, call));
    };
    match rendered(&call, &reply) {
        Some(h) => match past.enter_render(alloc, client, actor, h) {
            Ok(()) => Ok(()),
            Err(refused) => Err((refused, call)),
        },
        None => past.enter_call(alloc, client, actor, call, reply),
    }
}

/// The frame of a render that was done.
fn rendered(call: &Call, reply: &Reply) -> Option<Handle>
    ensures { (actor : ℕ) → result ≡ rendered (Called actor call.now reply.now) }
{
    match (call, reply) {
        (Call::RenderFrame { h }, Reply::Done) => Some(*h),
        _ => None,
    }
}
