//! Flights that finish, and flights that leave.
ghost use Rattle.std.specs.Prelude.{◌≡◌, ◌≤◌, ◌++◌, ◌∷◌, [], length, true};
ghost use Rattle.seq_model.specs.Legal.{is_flying};
ghost use Rattle.seq_model.specs.Life.{has};
ghost use Rattle.seq_model.specs.State.{flights};
ghost use Rattle.seq_model.specs.Steps.{step};
ghost use Rattle.seq_model.specs.Told.{told_by};
ghost use Rattle.seq_model.specs.declared.calls.Entry.TheVariants.{Finished, Left};
ghost use Rattle.plain_journal.specs.Unseen.{IsUnseen};
ghost use Rattle.past_laws.specs.Open.{IsOpen};

use crate::books::sweep_by;
use crate::record::Record;
use dev_types::Client;
use plain_objects::objects::Shows;
use seq_model::Entry;

impl Record {
    /// The flight with this ticket has finished: its frame shows its picture. Takes no memory.
    pub fn finish_flight<C: Client>(&mut self, client: &mut C, ticket: u64)
        requires flying { is_flying self.old.state ticket ≡ true }
        requires open { IsOpen self.old.seen }
        requires room { length self.old.state.objects ≤ C.spare client.old }
        ensures entered { self.new ≡ step self.old (Finished ticket) }
        ensures open { IsOpen self.new.seen }
        ensures told { C.notices client.new ≡ C.notices client.old ++ told_by self.old (Finished ticket) }
        ensures room { length self.new.state.objects ≤ C.spare client.new }
    {
        self.stage.end_flights(ticket, Shows::Picture(ticket));
        self.books.enter_note(Entry::Finished(ticket));
        sweep_by(&mut self.stage, &mut self.books, client);
    }

    /// The flight with this ticket has left: if a frame waited for it, that shows nothing. Takes no memory.
    pub fn leave<C: Client>(&mut self, client: &mut C, ticket: u64)
        requires there { has ticket (flights self.old.state) ≡ true }
        requires legal { IsUnseen (self.old.seen ++ Left ticket ∷ []) }
        requires room { length self.old.state.objects ≤ C.spare client.old }
        ensures entered { self.new ≡ step self.old (Left ticket) }
        ensures told { C.notices client.new ≡ C.notices client.old ++ told_by self.old (Left ticket) }
        ensures room { length self.new.state.objects ≤ C.spare client.new }
    {
        self.stage.end_flights(ticket, Shows::Nothing);
        self.stage.let_leave(ticket);
        self.books.enter_note(Entry::Left(ticket));
        sweep_by(&mut self.stage, &mut self.books, client);
    }

    /// The flight with this ticket, which was stopped, has left. Takes no memory.
    pub fn let_leave<C: Client>(&mut self, client: &mut C, ticket: u64)
        requires stopped { has ticket self.old.state.stopped ≡ true }
        requires open { IsOpen self.old.seen }
        requires room { length self.old.state.objects ≤ C.spare client.old }
        ensures entered { self.new ≡ step self.old (Left ticket) }
        ensures open { IsOpen self.new.seen }
        ensures told { C.notices client.new ≡ C.notices client.old ++ told_by self.old (Left ticket) }
        ensures room { length self.new.state.objects ≤ C.spare client.new }
    {
        let _ = &self.stage;
        self.leave(client, ticket);
    }
}
