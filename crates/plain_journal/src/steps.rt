//! One more entry of a record.
ghost use Rattle.std.specs.Prelude.{◌≡◌, ◌+◌, ◌≤◌, ◌++◌, IfOk, IfErr, None, OnErr, OnOk, Some, length, true};
ghost use Rattle.seq_model.specs.Answers.{answer};
ghost use Rattle.seq_model.specs.Histories.{rendered};
ghost use Rattle.seq_model.specs.Legal.{is_content_sound};
ghost use Rattle.seq_model.specs.Steps.{start, step};
ghost use Rattle.seq_model.specs.Told.{told_by};
ghost use Rattle.seq_model.specs.declared.calls.Entry.TheVariants.{Called};
ghost use Rattle.seq_model.specs.declared.calls.Call.TheVariants.{RenderFrame};
ghost use Rattle.seq_model.specs.declared.calls.Reply.TheVariants as reply;
ghost use Rattle.past_laws.specs.Worlds.{render_of};
ghost use Rattle.past_laws.specs.Open.{IsOpen};

use crate::books::{Books, sweep_by};
use crate::record::Record;
use answered_calls::tell_status;
use dev_types::{Client, Handle, NoMemory};
use plain_objects::objects::Shows;
use plain_objects::stage::Stage;
use seq_model::{Call, Reply};
use std::alloc::Global;

/// How many entries a journal has to have room for before a call: its own, and the notes that may be owed after it.
fn owed(stage: &Stage) -> Result<usize, NoMemory>
    ensures { IfOk result (λ n. n ≡ stage.now.next + length stage.now.stopped + 3) }
{
    let handles = stage.next().0 as usize;
    let stopped = stage.stopped().len();
    handles
        .checked_add(stopped)
        .and_then(|sum| sum.checked_add(3))
        .ok_or(NoMemory)
}

/// Makes room for what a client may be told of one call.
fn reserve_notices<C: Client>(alloc: Global, stage: &Stage, client: &mut C) -> Result<(), NoMemory>
    ensures room { OnOk result (stage.now.next + 1 ≤ C.spare client.new) }
    ensures list { C.notices client.new ≡ C.notices client.old }
    ensures no_less { C.spare client.old ≤ C.spare client.new }
{
    let Ok(count) = u32::try_from(stage.next().0) else {
        return Err(NoMemory);
    };
    let Some(count) = count.checked_add(1) else {
        return Err(NoMemory);
    };
    client.reserve(alloc, count)
}

impl Record {
    /// Of a device to which nothing happened. It has room for its close.
    pub fn new(alloc: Global) -> Result<Record, NoMemory>
        ensures { IfOk result (λ made. made ≡ start) }
    {
        let stage = Stage::new(alloc);
        let mut books = Books::new(alloc);
        books.reserve(alloc, 1)?;
        Ok(Record { stage, books })
    }

    /// Enters a call that renders nothing, with its answer. All memory is taken before anything changes.
    ///
    /// # Errors
    /// `NoMemory`, with the call; all is then as it was.
    pub fn enter_call<C: Client>(
        &mut self,
        alloc: Global,
        client: &mut C,
        actor: u32,
        call: Call,
        reply: Reply,
    ) -> Result<(), (NoMemory, Call)>
        requires open { IsOpen self.old.seen }
        requires answered { answer self.old call ≡ Some reply }
        requires sound { is_content_sound self.old call ≡ true }
        requires plain { rendered (Called actor call reply) ≡ None }
        requires room { length self.old.state.objects ≤ C.spare client.old }
        ensures entered { OnOk result (self.new ≡ step self.old (Called actor call reply)) }
        ensures told { OnOk result (C.notices client.new ≡ C.notices client.old ++ told_by self.old (Called actor call reply)) }
        ensures room { length self.new.state.objects ≤ C.spare client.new }
        ensures err { OnErr result ((self.new ≡ self.old) × (C.notices client.new ≡ C.notices client.old)) }
        ensures returned { IfErr result (λ e. e.1 ≡ call) }
    {
        let place = self.books.place();
        let Ok(owed) = owed(&self.stage) else {
            return Err((NoMemory, call));
        };
        let Ok(()) = self.books.reserve(alloc, owed) else {
            return Err((NoMemory, call));
        };
        let Ok(()) = reserve_notices(alloc, &self.stage, client) else {
            return Err((NoMemory, call));
        };
        let Ok(()) = self.stage.change(alloc, place, &call, &reply) else {
            return Err((NoMemory, call));
        };
        tell_status(client, &call, &reply);
        self.books.enter_call(alloc, actor, call, reply);
        sweep_by(&mut self.stage, &mut self.books, client);
        Ok(())
    }

    /// Enters a render that is granted, with all that it needs. All memory is taken before anything changes.
    ///
    /// # Errors
    /// `NoMemory`; all is then as it was.
    pub fn enter_render<C: Client>(
        &mut self,
        alloc: Global,
        client: &mut C,
        actor: u32,
        h: Handle,
    ) -> Result<(), NoMemory>
        requires open { IsOpen self.old.seen }
        requires answered { answer self.old (RenderFrame h) ≡ Some reply.Done }
        requires room { length self.old.state.objects ≤ C.spare client.old }
        ensures entered { OnOk result (self.new ≡ step self.old (render_of actor h)) }
        ensures told { OnOk result (C.notices client.new ≡ C.notices client.old ++ told_by self.old (render_of actor h)) }
        ensures room { length self.new.state.objects ≤ C.spare client.new }
        ensures err { OnErr result ((self.new ≡ self.old) × (C.notices client.new ≡ C.notices client.old)) }
    {
        let place = self.books.place();
        let prepared = self.prepared(alloc, h)?;
        let owed = owed(&self.stage)?;
        self.books.reserve(alloc, owed)?;
        reserve_notices(alloc, &self.stage, client)?;
        self.stage.show(h, Shows::Flight(place));
        self.books.enter_render(alloc, actor, h, prepared);
        sweep_by(&mut self.stage, &mut self.books, client);
        Ok(())
    }
}
