//! How a device ends: each flight leaves, by rising ticket, and then the device is closed
//! (ANARI 1.0 Specification, object lifetime).
ghost use Rattle.std.specs.Prelude.{ℕ, ◌≡◌, ◌+◌, ◌≤◌, ◌++◌, ◌∷◌, [], length, true};
ghost use Rattle.std.specs.List.{filter_map, list_any};
ghost use Rattle.seq_model.specs.Endings.{ended};
ghost use Rattle.plain_journal.specs.Leaving.{IsEnding};
ghost use Rattle.past_laws.specs.Open.{IsOpen};
ghost use Rattle.plain_objects.specs.Sweeping.{entry_at};
ghost use Rattle.seq_model.specs.Builds.{builds};
ghost use Rattle.seq_model.specs.Legal.{Legal, is_flying};
ghost use Rattle.seq_model.specs.Life.{has};
ghost use Rattle.seq_model.specs.State.{flights, is_in_flight};
ghost use Rattle.seq_model.specs.Steps.{after, step};
ghost use Rattle.seq_model.specs.Told.{end_of_object, told, told_by};
ghost use Rattle.seq_model.specs.declared.calls.Entry.TheVariants.{Closed};

use crate::record::Record;
use dev_types::{Client, Handle};
use plain_objects::stage::Stage;
use plain_objects::sweeps::take_unmarked;
use seq_model::{Entry, Journal};

/// Whether the object with this handle is a frame in flight with this ticket.
fn is_flying_at(stage: &Stage, h: Handle, ticket: u64) -> bool
    ensures { result ≡ list_any (λ entry. is_in_flight ticket entry.1) (entry_at h stage.now.objects) }
{
    match stage.get(h) {
        Some(object) => object.is_in_flight(ticket),
        None => false,
    }
}

/// Whether a frame is in flight with this ticket.
fn is_flying(stage: &Stage, ticket: u64) -> bool
    ensures { result ≡ is_flying stage.now ticket }
{
    let next = stage.next();
    for h in 1..next.0 {
        if is_flying_at(stage, Handle(h), ticket) {
            return true;
        }
    }
    false
}

/// Whether this ticket is that of a flight that was stopped and has not left.
fn is_stopped(stopped: &[u64], ticket: u64) -> bool
    ensures { result ≡ has ticket stopped.now }
{
    stopped.contains(&ticket)
}

/// Takes all objects away, and tells the client of the ends of arrays, by rising handle. Takes no memory.
fn take_all<C: Client>(stage: &mut Stage, client: &mut C)
    requires { length stage.old.objects ≤ C.spare client.old }
    ensures { C.notices client.new ≡ C.notices client.old ++ filter_map end_of_object stage.old.objects }
{
    take_unmarked(stage, &[], client);
}

impl Record {
    /// Whether a frame waits for the flight with this ticket.
    pub fn is_flying(&self, ticket: u64) -> bool
        ensures { result ≡ is_flying self.now.state ticket }
    {
        is_flying(&self.stage, ticket)
    }

    /// Whether the flight with this ticket was stopped and has not left.
    pub fn is_stopped(&self, ticket: u64) -> bool
        ensures { result ≡ has ticket self.now.state.stopped }
    {
        is_stopped(self.stage.stopped(), ticket)
    }

    /// Whether a flight with this ticket is not over.
    pub fn is_flight(&self, ticket: u64) -> bool
        ensures { result ≡ has ticket (flights self.now.state) }
    {
        is_flying(&self.stage, ticket) || is_stopped(self.stage.stopped(), ticket)
    }

    /// Lets each flight leave, by rising ticket. Takes no memory.
    fn leave_all<C: Client>(&mut self, client: &mut C)
        requires open { IsOpen self.old.seen }
        requires room { length self.old.state.objects ≤ C.spare client.old }
        ensures led { self.old ≡ after self.old.seen }
        ensures ending { IsEnding self.old self.new (length self.old.seen + 1) }
        ensures told { C.notices client.old ≡ told self.old.seen → C.notices client.new ≡ told self.new.seen }
        ensures room { length self.new.state.objects ≤ C.spare client.new }
    {
        let place = self.books.place();
        for ticket in 1..place {
            if self.is_flight(ticket) {
                self.leave(client, ticket);
            }
        }
    }

    /// Closes the device: the history, and how many renders prepared their world. Takes no memory.
    fn close<C: Client>(self, client: &mut C) -> (Journal, u64)
        requires { length self.state.objects ≤ C.spare client.old }
        ensures history { result.0 ≡ (step self Closed).seen }
        ensures told { C.notices client.new ≡ C.notices client.old ++ told_by self Closed }
        ensures builds { result.1 ≡ builds result.0 }
    {
        let Record {
            mut stage,
            mut books,
        } = self;
        take_all(&mut stage, client);
        books.enter_note(Entry::Closed);
        let builds = books.worlds.builds();
        (Journal::of(books.journal), builds)
    }

    /// Ends the device: the history, and how many renders prepared their world. Takes no memory.
    pub fn finish<C: Client>(self, client: &mut C) -> (Journal, u64)
        requires open { IsOpen self.seen }
        requires room { length self.state.objects ≤ C.spare client.old }
        ensures history { result.0 ≡ (ended self).seen }
        ensures legal { Legal result.0 }
        ensures told { C.notices client.old ≡ told self.seen → C.notices client.new ≡ told result.0 }
        ensures builds { result.1 ≡ builds result.0 }
    {
        let mut record = self;
        record.leave_all(client);
        record.close(client)
    }
}
