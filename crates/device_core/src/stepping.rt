//! Calls of the application.
ghost use Rattle.std.specs.Prelude.{◌≡◌, ◌++◌, ◌∷◌, ◌+◌, ◌-◌, ◌<◌, ◌≤◌, ◌^◌, [], IfErr, IfOk, IsSome, OnOk, false, length, true};
ghost use Rattle.call_answers.specs.Plain.{needs_no_memory};
ghost use Rattle.dev_types.specs.declared.refusals.Refused.TheVariants.{JournalFull};
ghost use Rattle.frame_future.specs.Future.{AreHome};
ghost use Rattle.room_laws.specs.Loans.{lends, takes_back};
ghost use Rattle.seq_model.specs.Answers.{answer};
ghost use Rattle.seq_model.specs.Contents.{entered};
ghost use Rattle.seq_model.specs.Histories.{History};
ghost use Rattle.seq_model.specs.Steps.{after};
ghost use Rattle.seq_model.specs.Told.{status_at};
ghost use Rattle.seq_model.specs.declared.calls.Entry.{Entry as Entries};
ghost use Rattle.device_parts.specs.Looks.{AreShort};
ghost use Rattle.device_parts.specs.Makes.{Hands};
ghost use Rattle.device_parts.specs.Uses.{NothingGoneIsUsed};
ghost use Rattle.device_core.specs.States.{spare_calls};
ghost use Rattle.device_core.specs.Sweeping.{Sweeps};
ghost use Rattle.device_core.specs.Stepping.{Declines, HasDeclined, HasMade, HasStepped, IsAwake};

use crate::rooms::reserve_notices;
use crate::states::DeviceState;
use answered_calls::tell_status;
use dev_types::{Client, NoMemory, Refused};
use device_parts::{Handed, Parts};
use seq_model::{Call, Entry, Reply};
use std::alloc::Global;

impl<C: Client> DeviceState<C> {
    /// Makes a call of this caller: a sweep; the call, which is refused or carried out, and entered
    /// with its reply; and another sweep. A reply that tells of a flight tells what the first sweep
    /// read. `with` is the loan that an unmap gives back; the loan of a map is handed out, and that of
    /// an unmap which is refused comes back. It does not wait for a flight: no call that waits for a
    /// frame in flight is made, which [`DeviceState::settled`] tells.
    ///
    /// # Errors
    /// `JournalFull` exactly where the journal has no place left for the call and what it owes, else
    /// `NoMemory`; the call and the loan come back, and only the first sweep has changed anything.
    /// Retain, release, a question whether a frame is ready, a discard and the unmap of a frame's
    /// channel never answer `NoMemory` where memory was taken ahead for a call.
    pub fn step(
        &mut self,
        alloc: Global,
        actor: u32,
        call: Call,
        with: Handed,
    ) -> Result<(Reply, Handed), (Refused, Call, Handed)>
        requires home { AreHome self.old.parts.flights.future }
        requires going { self.old.ending ≡ false }
        requires awake { IsAwake (after self.old.parts.history) call }
        requires hands { Hands call with }
        ensures stepped { IfOk result (λ r. HasStepped actor call with r.0 r.1 self.old self.new) }
        ensures declined { IfErr result (λ e. HasDeclined call e.0 self.old self.new) }
        ensures full_alone { needs_no_memory call ≡ true → 0 < spare_calls self.old
            → IfErr result (λ e. e.0 ≡ JournalFull self.old.limit) }
        ensures returned { IfErr result (λ e. (e.1 ≡ call) × (e.2 ≡ with)) }
        ensures spare { OnOk result (spare_calls self.old ≤ spare_calls self.new + 1) }
        ensures going { self.new.ending ≡ false }
        ensures home { AreHome self.new.parts.flights.future }
    {
        self.sweep_before(&call);
        match self.make(alloc, actor, call, with) {
            Ok(made) => {
                self.sweep();
                Ok(made)
            }
            Err(refused) => Err(refused),
        }
    }

    /// Sweeps before a call that does not wait: it is then answered.
    fn sweep_before(&mut self, call: &Call)
        requires home { AreHome self.old.parts.flights.future }
        requires going { self.old.ending ≡ false }
        requires awake { IsAwake (after self.old.parts.history) call.now }
        ensures swept { Sweeps self.old self.new }
        ensures awake { IsSome (answer (after self.new.parts.history)
            (entered (after self.new.parts.history) call.now)) }
        ensures home { AreHome self.new.parts.flights.future }
        ensures short { AreShort self.new.parts.flights.future }
        ensures unused { NothingGoneIsUsed self.new.parts }
    {
        // Their clauses tell the proof what held before.
        self.is_device();
        self.sweep();
        self.is_device();
        self.parts.flights_are_booked();
    }

    /// Makes a call after a sweep, and tells the client of it.
    fn make(
        &mut self,
        alloc: Global,
        actor: u32,
        call: Call,
        with: Handed,
    ) -> Result<(Reply, Handed), (Refused, Call, Handed)>
        requires home { AreHome self.old.parts.flights.future }
        requires going { self.old.ending ≡ false }
        requires short { AreShort self.old.parts.flights.future }
        requires awake { IsSome (answer (after self.old.parts.history)
            (entered (after self.old.parts.history) call)) }
        requires hands { Hands call with }
        ensures made { IfOk result (λ r. HasMade actor call with r.0 r.1 self.old self.new) }
        ensures declined { IfErr result (λ e. Declines call e.0 self.old self.new) }
        ensures returned { IfErr result (λ e. (e.1 ≡ call) × (e.2 ≡ with)) }
        ensures home { AreHome self.new.parts.flights.future }
        ensures unused { NothingGoneIsUsed self.new.parts }
    {
        // Their clauses tell the proof what always holds of the parts, and how long the journal is at most.
        self.parts.are_parts();
        let _entries = self.parts.entries();
        if self.parts.is_full(self.limit, self.loans, &call) {
            self.parts.use_nothing_gone();
            return Err((Refused::JournalFull(self.limit), call, with));
        }
        let Ok(()) = reserve_notices(&self.parts, &mut self.client, alloc, 1) else {
            self.parts.use_nothing_gone();
            return Err((Refused::NoMemory, call, with));
        };
        match self.parts.make(alloc, actor, call, with) {
            Ok(made) => {
                // Their clauses tell the proof what holds of the parts, and that nothing gone is used.
                self.parts.are_parts();
                tell_last(&self.parts, &mut self.client);
                self.loans = loans_after(&self.parts, self.loans);
                self.parts.tell(&mut self.client);
                self.parts.use_nothing_gone();
                Ok(made)
            }
            Err((NoMemory, call, with)) => {
                self.parts.use_nothing_gone();
                Err((Refused::NoMemory, call, with))
            }
        }
    }
}

/// Tells the client the status of the last entry, if it is a call that was refused. Takes no memory.
fn tell_last<C: Client>(parts: &Parts, client: &mut C)
    requires { 0 < C.spare client.old }
    ensures told { (before : History) (e : Entries) → parts.now.history ≡ before ++ e ∷ []
        → C.notices client.new ≡ C.notices client.old ++ status_at e }
    ensures used { (before : History) (e : Entries) → parts.now.history ≡ before ++ e ∷ []
        → C.spare client.new + length (status_at e) ≡ C.spare client.old }
{
    if let Some(Entry::Called { call, reply, .. }) = parts.last_entry() {
        tell_status(client, call, reply);
    }
}

/// How many loans are out after the last entry, by how many there were before it.
fn loans_after(parts: &Parts, loans: u64) -> u64
    requires few { loans < 2 ^ 63 }
    ensures { (before : History) (e : Entries) → parts.now.history ≡ before ++ e ∷ []
        → result ≡ loans + lends e - takes_back e }
{
    match parts.last_entry() {
        Some(entry) => (loans + lends(entry)).saturating_sub(takes_back(entry)),
        None => loans,
    }
}

/// How many loans an entry makes.
fn lends(entry: &Entry) -> u64
    ensures { result ≡ lends entry.now }
{
    match entry {
        Entry::Called { call, reply, .. } => match (call, reply) {
            (Call::MapArray { .. } | Call::MapParameterArray { .. }, Reply::Lent(_))
            | (Call::MapFrame { .. }, Reply::Mapped { .. }) => 1,
            _ => 0,
        },
        _ => 0,
    }
}

/// How many loans end with an entry.
fn takes_back(entry: &Entry) -> u64
    ensures { result ≡ takes_back entry.now }
{
    match entry {
        Entry::Called { call, reply, .. } => match (call, reply) {
            (Call::UnmapArray { .. } | Call::UnmapFrame { .. }, Reply::Done)
            | (Call::UnmapParameterArray { .. }, Reply::Made(_)) => 1,
            _ => 0,
        },
        _ => 0,
    }
}
