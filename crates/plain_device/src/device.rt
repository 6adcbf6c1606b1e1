//! The sequential device: what an application calls, one call after the other.
ghost use Rattle.std.specs.Prelude.{◌≡◌, ◌≤◌, ◌++◌, IfOk, IfErr, IfSome, IsSome, None, OnErr, OnOk, Some, length, option_copied, true};
ghost use Rattle.std.specs.Option.{option_map};
ghost use Rattle.dev_types.specs.Blocks.{FitsBlock};
ghost use Rattle.call_answers.specs.Named.{block_of};
ghost use Rattle.plain_device.specs.Views.{client_of, past_of, last_reply, content_at, reply_in};
ghost use Rattle.seq_model.specs.Answers.{answer};
ghost use Rattle.seq_model.specs.Builds.{builds};
ghost use Rattle.seq_model.specs.Contents.{entered};
ghost use Rattle.seq_model.specs.Endings.{ended, reply_to, waited_flight};
ghost use Rattle.seq_model.specs.Legal.{Legal, is_content_sound, is_flying};
ghost use Rattle.seq_model.specs.Life.{has};
ghost use Rattle.seq_model.specs.Refusals.{phase_at};
ghost use Rattle.seq_model.specs.State.{ticket_in};
ghost use Rattle.seq_model.specs.Steps.{after, next_place, start, step};
ghost use Rattle.seq_model.specs.Told.{told, told_by};
ghost use Rattle.seq_model.specs.declared.calls.Entry.TheVariants.{Called, Finished, Left};

use crate::steps::step;
use byte_view::Strided;
use dev_types::{Bytes, Client, Handle, NoMemory};
use plain_answers::answers::entered;
use plain_journal::record::Record;
use plain_objects::objects::Shows;
use seq_model::{Call, Entry, Journal, Reply};
use std::alloc::Global;
use std::marker::Model;

/// A device to which calls are made one after the other, and the client that it tells of statuses and of the ends of
/// arrays. It is open: a call may follow, and there is room to tell of the end of each object.
pub struct Device<C: Client> {
    record: Record,
    client: C,
}

impl<C: Client> Model for Device<C> {
    ghost use Rattle.std.specs.Prelude.{◌≤◌, length};
    ghost use Rattle.past_laws.specs.Open.{IsOpen};
    ghost use Rattle.plain_device.specs.Views.{Seen};

    ghost Value = { Seen C };

    ghost view = { λ d. record { past = d.record; client = d.client } };

    ghost invariant = { λ d. IsOpen d.record.seen × (length d.record.state.objects ≤ C.spare d.client) };
}

/// What a device leaves: all that happened on it, the client, and how many renders prepared their world.
pub struct Ended<C> {
    pub history: Journal,
    pub client: C,
    pub builds: u64,
}

/// The reply of an entry, where it is a call.
fn reply_in(entry: &Entry) -> Option<&Reply>
    ensures { option_copied result ≡ reply_in (Some entry.now) }
{
    match entry {
        Entry::Called { reply, .. } => Some(reply),
        Entry::Finished(_) | Entry::Left(_) | Entry::Closed => None,
    }
}

/// The reply of the last of some entries, where it is a call.
fn last_reply(entries: &[Entry]) -> Option<&Reply>
    ensures { option_copied result ≡ last_reply entries.now }
{
    reply_in(entries.last()?)
}

impl<C: Client> Device<C> {
    /// A device to which nothing happened. The only error is want of memory, and the client comes back.
    pub fn new(alloc: Global, client: C) -> Result<Device<C>, (NoMemory, C)>
        ensures ok { IfOk result (λ d. (past_of d ≡ start) × (C.notices (client_of d) ≡ C.notices client)) }
        ensures err { IfErr result (λ e. e.1 ≡ client) }
    {
        match Record::new(alloc) {
            Ok(record) => Ok(Device { record, client }),
            Err(none) => Err((none, client)),
        }
    }

    /// The ticket of the flight that a frame waits for, if it is in flight.
    pub fn flight_of(&self, h: Handle) -> Option<u64>
        ensures { result ≡ ticket_in (phase_at (past_of self.now) h) }
    {
        match self.record.shows(h) {
            Shows::Flight(ticket) => Some(ticket),
            _ => None,
        }
    }

    /// Whether a frame waits for the flight with this ticket.
    pub fn is_flying(&self, ticket: u64) -> bool
        ensures { result ≡ is_flying (past_of self.now).state ticket }
    {
        self.record.is_flying(ticket)
    }

    /// Whether the flight with this ticket was stopped and has not left.
    pub fn is_stopped(&self, ticket: u64) -> bool
        ensures { result ≡ has ticket (past_of self.now).state.stopped }
    {
        self.record.is_stopped(ticket)
    }

    /// The flight that a call waits for: only once that has finished is the call answered.
    pub fn waits_for(&self, call: &Call) -> Option<u64>
        ensures value { result ≡ waited_flight (past_of self.now) call.now }
        ensures answered { result ≡ None → IsSome (answer (past_of self.now) call.now) }
    {
        self.waited_flight(call)
    }

    fn waited_flight(&self, call: &Call) -> Option<u64>
        ensures { result ≡ waited_flight (past_of self.now) call.now }
    {
        match call {
            Call::FrameReady { h, wait: true } => self.flight_of(*h),
            _ => None,
        }
    }

    /// Whom the device tells of statuses and of the ends of arrays.
    pub fn client(&self) -> &C
        ensures { result.now ≡ client_of self.now }
    {
        &self.client
    }

    /// The place of the next entry.
    pub fn place(&self) -> u64
        ensures { result ≡ next_place (past_of self.now) }
    {
        self.record.place()
    }

    /// The elements of an array; `None` where no array has the handle.
    pub fn block_of(&self, h: Handle) -> Option<Strided<'_>>
        ensures value { option_map block_of result ≡ content_at (past_of self.now) h }
        ensures fits { IfSome result (λ e. FitsBlock e.ty e.stride e.count (length e.bytes)) }
    {
        self.record.get(h)?.content()
    }

    /// All bytes of an array, those between its elements too; `None` where no array has the handle.
    pub fn bytes_of(&self, h: Handle) -> Option<&Bytes>
        ensures { option_copied result ≡ option_map (λ b. b.bytes) (content_at (past_of self.now) h) }
    {
        self.record.get(h)?.bytes()
    }

    /// The reply of the last entry, where it is a call.
    pub fn reply(&self) -> Option<&Reply>
        ensures { option_copied result ≡ last_reply (past_of self.now).seen }
    {
        last_reply(self.record.journal())
    }

    /// The call as it is entered: of what it brings back, elements that name no object of their type name none. The only
    /// error is want of memory, and the call comes back.
    pub fn entered(&self, alloc: Global, call: Call) -> Result<Call, (NoMemory, Call)>
        ensures value { IfOk result (λ c. c ≡ entered (past_of self.now) call) }
        ensures err { IfErr result (λ e. e.1 ≡ call) }
        ensures legal { Legal (past_of self.now).seen }
        ensures led { past_of self.now ≡ after (past_of self.now).seen }
    {
        self.record.is_legal();
        entered(&self.record, alloc, call)
    }

    /// One call: it is answered, and entered with its reply. All memory is taken before anything changes.
    ///
    /// # Errors
    /// `NoMemory`, with the call; all is then as it was.
    pub fn step(&mut self, alloc: Global, actor: u32, call: Call) -> Result<(), (NoMemory, Call)>
        requires answered { IsSome (answer (past_of self.old) call) }
        requires sound { is_content_sound (past_of self.old) call ≡ true }
        ensures entered { OnOk result (past_of self.new ≡ step (past_of self.old) (Called actor call (reply_to (past_of self.old) call))) }
        ensures told { OnOk result (C.notices (client_of self.new) ≡ C.notices (client_of self.old) ++ told_by (past_of self.old) (Called actor call (reply_to (past_of self.old) call))) }
        ensures err { OnErr result ((past_of self.new ≡ past_of self.old) × (C.notices (client_of self.new) ≡ C.notices (client_of self.old))) }
        ensures returned { IfErr result (λ e. e.1 ≡ call) }
    {
        step(&mut self.record, alloc, &mut self.client, actor, call)
    }

    /// The flight with this ticket has finished: its frame shows its picture. Takes no memory.
    pub fn finish_flight(&mut self, ticket: u64)
        requires { is_flying (past_of self.old).state ticket ≡ true }
        ensures entered { past_of self.new ≡ step (past_of self.old) (Finished ticket) }
        ensures told { C.notices (client_of self.new) ≡ C.notices (client_of self.old) ++ told_by (past_of self.old) (Finished ticket) }
    {
        self.record.finish_flight(&mut self.client, ticket);
    }

    /// The flight with this ticket, which was stopped, has left. Takes no memory.
    pub fn let_leave(&mut self, ticket: u64)
        requires { has ticket (past_of self.old).state.stopped ≡ true }
        ensures entered { past_of self.new ≡ step (past_of self.old) (Left ticket) }
        ensures told { C.notices (client_of self.new) ≡ C.notices (client_of self.old) ++ told_by (past_of self.old) (Left ticket) }
    {
        self.record.let_leave(&mut self.client, ticket);
    }

    /// Ends the device: each flight leaves, by rising ticket, and then the device is closed. Takes no memory.
    pub fn finish(self) -> Ended<C>
        ensures history { result.history ≡ (ended (past_of self)).seen }
        ensures told { C.notices (client_of self) ≡ told (past_of self).seen → C.notices result.client ≡ told result.history }
        ensures legal { Legal result.history }
        ensures builds { result.builds ≡ builds result.history }
    {
        let Device { record, mut client } = self;
        let (history, builds) = record.finish(&mut client);
        Ended {
            history,
            client,
            builds,
        }
    }
}
