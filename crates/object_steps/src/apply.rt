//! Calls on objects: each is refused or carried out, and the client is told of it.
ghost use Rattle.std.specs.Prelude.{◌≡◌, [], ℕ, ◌+◌, ◌<◌, ◌≤◌, ◌^◌, ◌++◌, IfErr, IfOk, IsOk, OnErr, OnOk, Some, length, true};
ghost use Rattle.call_answers.specs.Plain.{needs_no_memory};
ghost use Rattle.past_laws.specs.Open.{IsOpen};
ghost use Rattle.seq_model.specs.Answers.{answer};
ghost use Rattle.seq_model.specs.Contents.{entered};
ghost use Rattle.seq_model.specs.Steps.{after, step};
ghost use Rattle.seq_model.specs.Told.{status_at, told_by};
ghost use Rattle.seq_model.specs.declared.calls.Entry.TheVariants.{Called};
ghost use Rattle.object_steps.specs.Applying.{is_object_call, with_call};
ghost use Rattle.object_steps.specs.Carrying.{Brings, handed};
ghost use Rattle.object_steps.specs.Objects.{tellable};
ghost use Rattle.object_steps.specs.Resting.{Follows, HasRoom, IsAtRest, past_of};

use crate::array_loans::ArrayLoan;
use crate::at_rest::Records;
use crate::deciding::{Decided, decide, entry_of};
use crate::objects::ObjectStore;
use answered_calls::tell_status;
use dev_types::{Client, NoMemory};
use seq_model::{Call, Reply};
use std::alloc::Global;

impl ObjectStore {
    /// Makes a call on objects: it is refused or carried out, the client is told why it is refused,
    /// and of the end of each array that nothing holds any more. `records` tells what happened
    /// before. The call comes back as it is to be entered, with its reply: of the bytes that it
    /// brings from a loan that is out, elements that name no object of their type are 0. The loan of
    /// a map is handed out, and that of an unmap which is refused comes back.
    ///
    /// # Errors
    /// `NoMemory`, with the call and the loan as they were; all is then as it was, but for the room.
    /// Retain and release never answer it where the client has a place for a status.
    pub fn apply<C: Client, R: Records>(
        &mut self,
        alloc: Global,
        client: &mut C,
        records: &R,
        call: Call,
        with: ArrayLoan,
    ) -> Result<(Call, Reply, ArrayLoan), (NoMemory, Call, ArrayLoan)>
        requires rests { IsAtRest self.old.stored (R.history records.now) }
        requires may_follow { IsOpen (R.history records.now) }
        requires short { length (R.history records.now) < 2 ^ 63 }
        requires object_call { is_object_call call ≡ true }
        requires brings { Brings call with }
        requires none { self.old.dead ≡ [] }
        requires spare { tellable self.old.stored.state ≤ C.spare client.old }
        ensures entered { IfOk result (λ r. r.0 ≡ entered (after (R.history records.now)) call) }
        ensures answered { IfOk result (λ r. answer (after (R.history records.now)) r.0 ≡ Some r.1) }
        ensures step { IfOk result (λ r. (actor : ℕ)
            → past_of (record {
              stored = self.new.stored;
              history = with_call (R.history records.now) actor r.0 r.1;
            }) ≡ step (after (R.history records.now)) (Called actor r.0 r.1)) }
        ensures rests { IfOk result (λ r. (actor : ℕ)
            → IsAtRest self.new.stored (with_call (R.history records.now) actor r.0 r.1)) }
        ensures may_follow { IfOk result (λ r. (actor : ℕ)
            → IsOpen (with_call (R.history records.now) actor r.0 r.1)) }
        ensures told { IfOk result (λ r. (actor : ℕ)
            → C.notices client.new ≡ C.notices client.old
            ++ told_by (after (R.history records.now)) (Called actor r.0 r.1)) }
        ensures handed { IfOk result (λ r. r.2 ≡ handed (length (R.history records.now) + 1) r.0 r.1
            self.old.stored.state with) }
        ensures none { self.new.dead ≡ [] }
        ensures returned { IfErr result (λ e. (e.1 ≡ call) × (e.2 ≡ with)) }
        ensures err { OnErr result (self.new ≡ record self.old {
          stored = record self.old.stored { ready = self.new.stored.ready };
        }) }
        ensures quiet { OnErr result (C.notices client.new ≡ C.notices client.old) }
        ensures no_memory { needs_no_memory call ≡ true
            → tellable self.old.stored.state + 1 < 2 ^ 32
            → tellable self.old.stored.state < C.spare client.old
            → IsOk result }
        ensures spare { tellable self.new.stored.state ≤ C.spare client.new }
        ensures room { C.spare client.old + length (C.notices client.old)
            ≤ C.spare client.new + length (C.notices client.new) }
    {
        let place = records.place();
        let Ok(()) = self.prepare(alloc, client, &call) else {
            return Err((NoMemory, call, with));
        };
        let Ok(decided) = decide(self.store(), alloc, records, &call) else {
            return Err((NoMemory, call, with));
        };
        let entry = entry_of(&decided.cleaned, &call);
        self.store().counts_its_objects();
        let out = match self.carry_out(alloc, place, entry, &decided.reply, with) {
            Ok(out) => out,
            Err((e, with)) => return Err((e, call, with)),
        };
        self.end_call(client, records, entry, &decided.reply);
        let Decided { cleaned, reply } = decided;
        Ok((cleaned.unwrap_or(call), reply, out))
    }

    /// Makes room for what a call may need: for its status at the client, and for the object that it
    /// makes.
    fn prepare<C: Client>(
        &mut self,
        alloc: Global,
        client: &mut C,
        call: &Call,
    ) -> Result<(), NoMemory>
        ensures ready { OnOk result (HasRoom self.new.stored call.now) }
        ensures room { OnOk result (tellable self.old.stored.state + 1 ≤ C.spare client.new) }
        ensures same { self.new ≡ record self.old {
          stored = record self.old.stored { ready = self.new.stored.ready };
        } }
        ensures quiet { C.notices client.new ≡ C.notices client.old }
        ensures no_less { C.spare client.old ≤ C.spare client.new }
        ensures no_memory { needs_no_memory call.now ≡ true
            → tellable self.old.stored.state + 1 < 2 ^ 32
            → tellable self.old.stored.state < C.spare client.old
            → IsOk result }
    {
        let notices = u32::try_from(self.tellable())
            .ok()
            .and_then(|tellable| tellable.checked_add(1));
        let Some(notices) = notices else {
            return Err(NoMemory);
        };
        client.reserve(alloc, notices)?;
        self.make_ready(alloc, call)
    }

    /// Makes room for the object that a call makes, if it makes one.
    ///
    /// # Errors
    /// `NoMemory`; all is then as it was.
    pub fn make_ready(&mut self, alloc: Global, call: &Call) -> Result<(), NoMemory>
        ensures ready { OnOk result (HasRoom self.new.stored call.now) }
        ensures same { self.new ≡ record self.old {
          stored = record self.old.stored { ready = self.new.stored.ready };
        } }
        ensures no_memory { needs_no_memory call.now ≡ true → IsOk result }
    {
        match call {
            Call::NewObject { .. } | Call::NewArray { .. } | Call::UnmapParameterArray { .. } => {
                self.make_room(alloc)
            }
            _ => Ok(()),
        }
    }

    /// Ends a call that was carried out: its status is told, and what nothing holds any more is gone.
    fn end_call<C: Client, R: Records>(
        &mut self,
        client: &mut C,
        records: &R,
        call: &Call,
        reply: &Reply,
    )
        requires follows { (actor : ℕ)
            → Follows self.old.stored (R.history records.now) (Called actor call.now reply.now) }
        requires told { length (status_at (Called 0 call.now reply.now)) + tellable
            self.old.stored.state ≤ C.spare client.old }
        requires some { 0 < C.spare client.old }
        requires none { self.old.dead ≡ [] }
        ensures none { self.new.dead ≡ [] }
        ensures rests { (actor : ℕ)
            → IsAtRest self.new.stored (with_call (R.history records.now) actor call.now reply.now) }
        ensures told { (actor : ℕ)
            → C.notices client.new ≡ C.notices client.old
            ++ told_by (after (R.history records.now)) (Called actor call.now reply.now) }
        ensures spare { tellable self.new.stored.state ≤ C.spare client.new }
        ensures room { C.spare client.old + length (C.notices client.old)
            ≤ C.spare client.new + length (C.notices client.new) }
    {
        self.store().counts_its_objects();
        tell_status(client, call, reply);
        self.bury(client);
        self.store().counts_its_objects();
    }
}
