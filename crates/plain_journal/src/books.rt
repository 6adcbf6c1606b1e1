//! What a device keeps beside its objects.
ghost use Rattle.std.specs.Prelude.{◌≡◌, ◌+◌, ◌-◌, ◌*◌, ◌^◌, ◌<◌, ◌≤◌, ◌++◌, ◌∷◌, [], ℕ, OnOk, length, vec_capacity};
ghost use Rattle.std.specs.List.{filter_map};
ghost use Rattle.std.specs.Option.{option_map};
ghost use Rattle.seq_model.specs.Histories.{History};
ghost use Rattle.seq_model.specs.Steps.{after};
ghost use Rattle.seq_model.specs.Told.{end_of_object, gone};
ghost use Rattle.plain_journal.specs.Counting.{IsCountable};
ghost use Rattle.past_laws.specs.Prepared.{world_reach};
ghost use Rattle.past_laws.specs.Worlds.{HasRoom, KnowsWorlds, render_of};
ghost use Rattle.plain_journal.specs.Booked.{HasSpace, IsCalled, IsMarked, IsNoted, IsRendered, IsSame};
ghost use Rattle.plain_journal.specs.Whole.{swept_by};

use crate::counting::count;
use crate::prepared::Prepared;
use crate::renders::Render;
use crate::uses::{note_render, note_world};
use crate::worlds::Worlds;
use dev_types::{Client, Handle, NoMemory};
use plain_objects::reaches::Reach;
use plain_objects::stage::Stage;
use plain_objects::sweeps::sweep;
use seq_model::{Call, Entry, Reply};
use std::alloc::Global;

/// What a device keeps beside its objects: the journal, and what is known by it.
#[derive(Drop)]
pub struct Books {
    pub journal: Vec<Entry>,
    /// What each flight reached, by rising ticket.
    pub reached: Vec<Reach>,
    /// How many public references there are to each handle, from handle 1 on.
    pub held: Vec<u64>,
    pub renders: Vec<Render>,
    pub worlds: Worlds,
    /// Two marks for each handle, for the sweeps.
    pub marks: Vec<bool>,
}

impl Books {
    /// Of a device to which nothing happened.
    pub fn new(alloc: Global) -> Books
        ensures journal { result.journal.items ≡ [] }
        ensures reached { result.reached.items ≡ [] }
        ensures held { result.held.items ≡ [] }
        ensures renders { result.renders.items ≡ [] }
        ensures worlds { KnowsWorlds [] result.worlds }
        ensures marks { result.marks.items ≡ [] }
    {
        Books {
            journal: Vec::new(alloc),
            reached: Vec::new(alloc),
            held: Vec::new(alloc),
            renders: Vec::new(alloc),
            worlds: Worlds::new(alloc),
            marks: Vec::new(alloc),
        }
    }

    /// Makes room for `owed` more entries, a render and a handle. Nothing else changes.
    pub fn reserve(&mut self, alloc: Global, owed: usize) -> Result<(), NoMemory>
        requires { 1 ≤ owed }
        ensures space { OnOk result (HasSpace self.new) }
        ensures owed { OnOk result (length self.old.journal.items + owed ≤ vec_capacity self.new.journal) }
        ensures same { IsSame self.old self.new }
    {
        self.journal.reserve(owed)?;
        self.reached.reserve(1)?;
        self.held.reserve(1)?;
        self.renders.reserve(1)?;
        self.marks.reserve(2)?;
        self.worlds.reserve(alloc)
    }

    /// The place of the next entry.
    pub fn place(&self) -> u64
        ensures { result ≡ length self.now.journal.items + 1 }
    {
        self.journal.len() as u64 + 1
    }

    /// Enters a call that renders nothing, with its reply. Takes no memory.
    pub fn enter_call(&mut self, alloc: Global, actor: u32, call: Call, reply: Reply)
        requires space { HasSpace self.old }
        requires countable { IsCountable self.old.held.items (vec_capacity self.old.held) call reply }
        ensures { IsCalled actor call reply self.old self.new }
    {
        let handles = self.held.len();
        count(&mut self.held, &call, &reply);
        mark_made(&mut self.marks, self.held.len() - handles);
        note_world(&mut self.worlds, &call, &reply, None, Vec::new(alloc));
        self.journal
            .push_reserved(Entry::Called { actor, call, reply });
    }

    /// Enters a render that was done. Takes no memory.
    pub fn enter_render(&mut self, alloc: Global, actor: u32, h: Handle, prepared: Prepared)
        requires space { HasSpace self.old }
        ensures { IsRendered actor h prepared self.old self.new }
    {
        let ticket = self.place();
        let Prepared {
            reach,
            scene,
            channels,
            world,
        } = prepared;
        note_world_of(alloc, &mut self.worlds, world);
        self.reached.push_reserved(Reach {
            ticket,
            handles: reach,
        });
        self.renders.push_reserved(Render {
            ticket,
            scene,
            channels,
        });
        self.journal.push_reserved(Entry::Called {
            actor,
            call: Call::RenderFrame { h },
            reply: Reply::Done,
        });
    }

    /// Enters a note. Takes no memory.
    pub fn enter_note(&mut self, note: Entry)
        requires { length self.old.journal.items + 1 ≤ vec_capacity self.old.journal }
        ensures { IsNoted note self.old self.new }
    {
        self.journal.push_reserved(note);
    }
}

/// Marks for handles that were made, one at the most.
fn mark_made(marks: &mut Vec<bool>, made: usize)
    requires one { made ≤ 1 }
    requires room { length marks.old.items + 2 ≤ vec_capacity marks.old }
    ensures { length marks.new.items ≡ length marks.old.items + 2 * made }
{
    if made > 0 {
        marks.push_reserved(false);
        marks.push_reserved(false);
    }
}

/// Notes a render of a frame with this world.
fn note_world_of(alloc: Global, worlds: &mut Worlds, world: Option<(Handle, Vec<Handle>)>)
    requires { HasRoom worlds.old }
    ensures { (history : History) (actor f : ℕ)
        → length history < 2 ^ 64 - 1
        → option_map (λ w. (w.0, w.1.items)) world ≡ world_reach (after history).state f
        → KnowsWorlds history worlds.old
        → KnowsWorlds (history ++ render_of actor f ∷ []) worlds.new }
{
    match world {
        Some((world, reach)) => note_render(worlds, Some(world), reach),
        None => note_render(worlds, None, Vec::new(alloc)),
    }
}

/// Takes away the objects that do not live by these books. Takes no memory.
pub(crate) fn sweep_by<C: Client>(stage: &mut Stage, books: &mut Books, client: &mut C)
    requires marks { length books.old.marks.items ≡ 2 * (stage.old.next - 1) }
    requires room { length stage.old.objects ≤ C.spare client.old }
    ensures stage { stage.new ≡ swept_by books.old stage.old }
    ensures books { IsMarked books.old books.new }
    ensures told { C.notices client.new ≡ C.notices client.old ++ filter_map end_of_object (gone stage.old stage.new) }
    ensures room { length stage.new.objects ≤ C.spare client.new }
{
    sweep(stage, &books.held, &books.reached, &mut books.marks, client);
}
