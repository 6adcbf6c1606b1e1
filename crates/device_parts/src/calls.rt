//! Calls that change no frame: what they do to the objects is carried out, and they are entered.
ghost use Rattle.std.specs.Prelude.{◌≡◌, ◌+◌, ◌<◌, ◌≤◌, ◌^◌, ◌++◌, ◌∷◌, [], ℕ, Bool, IfErr, IfOk, IsOk, None, OnErr, OnOk, Some, false, length, true};
ghost use Rattle.std.specs.Option.{unwrap_or};
ghost use Rattle.call_answers.specs.Plain.{needs_no_memory};
ghost use Rattle.flight_books.specs.Kept.{with_future};
ghost use Rattle.frame_future.specs.Future.{AreHome};
ghost use Rattle.kept_worlds.specs.KeptMaps.{reach_at, shown_at};
ghost use Rattle.kept_worlds.specs.LastKept.{AreKept, AreShown};
ghost use Rattle.object_steps.specs.Applying.{tells_of_flights};
ghost use Rattle.object_steps.specs.Carrying.{Brings, CanCarry, GivesBack, handed};
ghost use Rattle.object_steps.specs.Resting.{HasRoom, IsOfObjects};
ghost use Rattle.seq_model.specs.Answers.{answer};
ghost use Rattle.seq_model.specs.Contents.{entered};
ghost use Rattle.seq_model.specs.Histories.{History, rendered};
ghost use Rattle.seq_model.specs.Legal.{Legal};
ghost use Rattle.seq_model.specs.Steps.{after};
ghost use Rattle.seq_model.specs.declared.calls.Entry.TheVariants.{Called};
ghost use Rattle.world_laws.specs.Alike.{Shown as ShownWorld};
ghost use Rattle.device_laws.specs.FramesStand.{without_pictures};
ghost use Rattle.device_laws.specs.Replies.{AreTold};
ghost use Rattle.device_parts.specs.Calls.{AreMoved, HasEntered, HasRoomMade, move_of, touched_by};
ghost use Rattle.device_parts.specs.Standing.{IsStanding};

use crate::burials::bury;
use crate::parts::Parts;
use crate::records::Recorded;
use crate::replies::share;
use dev_types::{Handle, NoMemory};
use kept_worlds::KeptWorlds;
use object_steps::ArrayLoan;
use object_steps::deciding::{Decided, decide};
use seq_model::{Call, Entry, Reply};
use std::alloc::Global;

/// What a call does to a frame by its reply.
pub(crate) enum Move {
    Nothing,
    Discard(Handle),
    /// The loan with this number ends.
    Unmap(Handle, u64),
}

impl Parts {
    /// Makes a call that tells of no flight: it is refused or carried out, and entered; what it touched
    /// of kept worlds is dropped, and what nothing holds any more dies. Its reply is handed out, with
    /// the loan of a map, or that of an unmap which is refused.
    ///
    /// # Errors
    /// `NoMemory`; the call and the loan come back, and nothing has changed but for the room.
    pub(crate) fn call(
        &mut self,
        alloc: Global,
        actor: u32,
        call: Call,
        with: ArrayLoan,
    ) -> Result<(Reply, ArrayLoan), (NoMemory, Call, ArrayLoan)>
        requires all_told { self.old.objects.dead ≡ [] }
        requires stands { IsStanding self.old }
        requires home { AreHome self.old.flights.future }
        requires short { length self.old.history < 2 ^ 63 }
        requires quiet { tells_of_flights call ≡ false }
        requires brings { Brings call with }
        ensures entered { IfOk result (λ r. HasEntered actor (entered (after self.old.history) call)
            r.0 self.old self.new) }
        ensures answered { IfOk result (λ r. answer (after self.old.history)
            (entered (after self.old.history) call) ≡ Some r.0) }
        ensures frames { IfOk result (λ r. AreMoved (move_of (entered (after self.old.history) call)
            r.0) self.old self.new) }
        ensures stands { IsStanding self.new }
        ensures home { AreHome self.new.flights.future }
        ensures handed { IfOk result (λ r. r.1 ≡ handed (length self.old.history + 1)
            (entered (after self.old.history) call) r.0 self.old.objects.stored.state with) }
        ensures returned { IfErr result (λ e. (e.1 ≡ call) × (e.2 ≡ with)) }
        ensures err { OnErr result (HasRoomMade self.old self.new) }
        ensures no_memory { needs_no_memory call ≡ true
            → length self.old.history + length self.old.flights.future.flights + 1 < self.old.room
            → IsOk result }
    {
        let Ok(()) = self.make_places(1) else {
            return Err((NoMemory, call, with));
        };
        let Ok(()) = self.objects.make_ready(alloc, &call) else {
            return Err((NoMemory, call, with));
        };
        self.answer_call(alloc, actor, call, with)
    }

    /// Makes room in the journal for so many entries, beside the notes of the flights and one place
    /// more.
    ///
    /// # Errors
    /// `NoMemory`, only where that room was missing; nothing has changed.
    pub fn make_places(&mut self, places: usize) -> Result<(), NoMemory>
        ensures places { OnOk result (length self.old.history + length self.old.flights.future.flights
            + places < self.new.room) }
        ensures had_room { length self.old.history + length self.old.flights.future.flights + places
            < self.old.room → IsOk result }
        ensures refused { OnErr result (self.new ≡ self.old) }
        ensures same { self.new ≡ record self.old { room = self.new.room } }
        ensures grows { self.old.room ≤ self.new.room }
    {
        // Its clause tells the proof that there is room for fewer than 2^64 entries.
        let _entries = self.journal.len();
        let flights = self.flights.flight_count();
        let Some(places) = flights.checked_add(places) else {
            return Err(NoMemory);
        };
        let Some(more) = places.checked_add(1) else {
            return Err(NoMemory);
        };
        self.journal.reserve(more)?;
        Ok(())
    }

    /// Makes a call for which there is room: it is answered, and entered.
    fn answer_call(
        &mut self,
        alloc: Global,
        actor: u32,
        call: Call,
        with: ArrayLoan,
    ) -> Result<(Reply, ArrayLoan), (NoMemory, Call, ArrayLoan)>
        requires all_told { self.old.objects.dead ≡ [] }
        requires stands { IsStanding self.old }
        requires home { AreHome self.old.flights.future }
        requires short { length self.old.history < 2 ^ 63 }
        requires quiet { tells_of_flights call ≡ false }
        requires brings { Brings call with }
        requires ready { HasRoom self.old.objects.stored call }
        requires place { length self.old.history + length self.old.flights.future.flights + 1
            < self.old.room }
        ensures entered { IfOk result (λ r. HasEntered actor (entered (after self.old.history) call)
            r.0 self.old self.new) }
        ensures answered { IfOk result (λ r. answer (after self.old.history)
            (entered (after self.old.history) call) ≡ Some r.0) }
        ensures frames { IfOk result (λ r. AreMoved (move_of (entered (after self.old.history) call)
            r.0) self.old self.new) }
        ensures stands { IsStanding self.new }
        ensures home { AreHome self.new.flights.future }
        ensures handed { IfOk result (λ r. r.1 ≡ handed (length self.old.history + 1)
            (entered (after self.old.history) call) r.0 self.old.objects.stored.state with) }
        ensures returned { IfErr result (λ e. (e.1 ≡ call) × (e.2 ≡ with)) }
        ensures err { OnErr result (HasRoomMade self.old self.new) }
        ensures no_memory { needs_no_memory call ≡ true → IsOk result }
    {
        self.are_parts();
        let Ok(decided) = self.decide(alloc, &call) else {
            return Err((NoMemory, call, with));
        };
        let Ok(answer) = share(alloc, &decided.reply) else {
            return Err((NoMemory, call, with));
        };
        let Decided { cleaned, reply } = decided;
        let (entry, made) = parted(cleaned, call);
        match move_of(&entry, &reply) {
            Move::Nothing => match self.enter_call(alloc, actor, entry, reply, with) {
                Ok(out) => Ok((answer, out)),
                Err((none, entry, with)) => Err((none, made.unwrap_or(entry), with)),
            },
            Move::Discard(h) => {
                self.enter_discard(actor, h);
                Ok((answer, with))
            }
            Move::Unmap(h, number) => {
                self.enter_unmap(actor, h, number);
                Ok((answer, with))
            }
        }
    }

    /// What a call is answered, and how it is entered.
    fn decide(&self, alloc: Global, call: &Call) -> Result<Decided, NoMemory>
        requires stands { IsStanding self.now }
        requires quiet { tells_of_flights call.now ≡ false }
        ensures entered { IfOk result (λ d. unwrap_or d.cleaned call.now
            ≡ entered (after self.now.history) call.now) }
        ensures answered { IfOk result (λ d. answer (after self.now.history)
            (unwrap_or d.cleaned call.now) ≡ Some d.reply) }
        ensures no_memory { needs_no_memory call.now ≡ true → IsOk result }
    {
        self.are_parts();
        let recorded = Recorded::new(self);
        decide(self.objects.store(), alloc, &recorded, call)
    }

    /// Carries out a call that was answered, and that changes no frame, and enters it: what it
    /// touched of kept worlds is dropped, and what nothing holds any more dies. There is a place for
    /// it in the journal.
    ///
    /// # Errors
    /// `NoMemory`; the call and the loan come back, and nothing has changed.
    pub(crate) fn enter_call(
        &mut self,
        alloc: Global,
        actor: u32,
        call: Call,
        reply: Reply,
        with: ArrayLoan,
    ) -> Result<ArrayLoan, (NoMemory, Call, ArrayLoan)>
        requires all_told { self.old.objects.dead ≡ [] }
        requires stands { IsStanding self.old }
        requires place { length self.old.history + length self.old.flights.future.flights + 1
            < self.old.room }
        requires can { CanCarry self.old.objects.stored call reply }
        requires of_objects { IsOfObjects call reply }
        requires legal { Legal (self.old.history ++ Called actor call reply ∷ []) }
        requires gives { GivesBack call reply with }
        requires tells { AreTold (self.old.history ++ Called actor call reply ∷ [])
            self.old.flights.future.flights }
        ensures entered { OnOk result (HasEntered actor call reply self.old self.new) }
        ensures frames { OnOk result (self.new.flights ≡ with_future self.old.flights
            (without_pictures self.old.flights.future self.new.objects.departed)) }
        ensures stands { OnOk result (IsStanding self.new) }
        ensures home { AreHome self.old.flights.future → AreHome self.new.flights.future }
        ensures handed { IfOk result (λ l. l ≡ handed (length self.old.history + 1) call reply
            self.old.objects.stored.state with) }
        ensures returned { IfErr result (λ e. (e.1 ≡ call) × (e.2 ≡ with)) }
        ensures err { OnErr result (self.new ≡ self.old) }
        ensures no_memory { needs_no_memory call ≡ true → IsOk result }
    {
        let place = self.entries() + 1;
        self.objects.store().counts_its_objects();
        let out = match self.objects.carry_out(alloc, place, &call, &reply, with) {
            Ok(out) => out,
            Err((none, with)) => return Err((none, call, with)),
        };
        self.objects.store().counts_its_objects();
        touch(&mut self.worlds, &call, &reply);
        self.journal
            .push_reserved(Entry::Called { actor, call, reply });
        bury(&mut self.objects, &mut self.flights, &mut self.worlds);
        self.objects.store().counts_its_objects();
        Ok(out)
    }
}

/// The call as it is entered, and the call that was made, where that is another.
fn parted(cleaned: Option<Call>, call: Call) -> (Call, Option<Call>)
    ensures entry { result.0 ≡ unwrap_or cleaned call }
    ensures made { unwrap_or result.1 result.0 ≡ call }
{
    match cleaned {
        Some(entry) => (entry, Some(call)),
        None => (call, None),
    }
}

/// What a call does to a frame by its reply.
fn move_of(call: &Call, reply: &Reply) -> Move
    ensures { result ≡ move_of call.now reply.now }
{
    match (call, reply) {
        (Call::DiscardFrame { h }, Reply::Done) => Move::Discard(*h),
        (Call::UnmapFrame { h, number }, Reply::Done) => Move::Unmap(*h, *number),
        _ => Move::Nothing,
    }
}

/// Drops each kept world that reached the object that a call touches by its reply.
fn touch<P: Drop>(worlds: &mut KeptWorlds<P>, call: &Call, reply: &Reply)
    requires { (actor : ℕ) → rendered (Called actor call.now reply.now) ≡ None }
    ensures known { (history : History) (actor : ℕ) (there : ℕ → Bool)
        → AreKept there history (reach_at worlds.old)
        → AreKept there (history ++ Called actor call.now reply.now ∷ []) (reach_at worlds.new) }
    ensures shown { (shows : P → ShownWorld) (history : History)
        → AreShown history (shown_at shows worlds.old)
        → AreShown history (shown_at shows worlds.new) }
{
    if let Some(h) = touched_by(call, reply) {
        worlds.touch(h);
    }
}

/// The object that a call touches by its reply, so that worlds that reached it show something else.
fn touched_by(call: &Call, reply: &Reply) -> Option<Handle>
    ensures { result ≡ touched_by call.now reply.now }
{
    match (call, reply) {
        (Call::Commit { h } | Call::UnmapArray { h, .. }, Reply::Done) => Some(*h),
        _ => None,
    }
}
