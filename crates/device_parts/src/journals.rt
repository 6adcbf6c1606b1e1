//! The journal of a device, with places that are kept for entries to come.
ghost use Rattle.std.specs.Prelude.{◌≡◌, ◌+◌, ◌-◌, ◌<◌, ◌≤◌, ◌^◌, ◌++◌, ◌∷◌, [], IfOk, IsOk, OnErr, OnOk, Some, length, max};
ghost use Rattle.std.specs.Option.{option_map};
ghost use Rattle.seq_model.specs.Histories.{History};
ghost use Rattle.seq_model.specs.declared.calls.Entry.{Entry as Entries};

use dev_types::NoMemory;
use seq_model::Entry;
use std::alloc::Global;
use std::marker::Model;

/// What happened on a device, with a number of places that are kept: room for further entries, which
/// are entered without asking for memory.
///
/// Contracts see the entries, and for how many in all places are kept. Memory may be there for more:
/// it is taken ahead, so that it is seldom asked for however few places are added at once.
#[derive(Drop)]
pub(crate) struct EntryLog {
    entries: Vec<Entry>,
    room: usize,
}

impl Model for EntryLog {
    ghost use Rattle.std.specs.Prelude.{◌≤◌, length, vec_capacity};
    ghost use Rattle.device_parts.specs.Journals.{Logged};

    ghost Value = { Logged };

    ghost view = { λ j. record { items = j.entries.items; room = j.room } };

    ghost invariant = { λ j. (length j.entries.items ≤ j.room) × (j.room ≤ vec_capacity j.entries) };
}

impl EntryLog {
    /// An empty journal, with one place.
    ///
    /// # Errors
    /// `NoMemory`.
    pub(crate) fn new(alloc: Global) -> Result<EntryLog, NoMemory>
        ensures items { IfOk result (λ j. j.items ≡ []) }
        ensures room { IfOk result (λ j. j.room ≡ 1) }
    {
        let mut entries = Vec::new(alloc);
        entries.reserve(1)?;
        Ok(EntryLog { entries, room: 1 })
    }

    /// How many entries there are.
    pub(crate) fn len(&self) -> usize
        ensures count { result ≡ length self.now.items }
        ensures range { self.now.room < 2 ^ 64 }
    {
        // Its range tells the proof that the places can be counted.
        let _room = self.room;
        self.entries.len()
    }

    /// Keeps places for at least so many more entries.
    ///
    /// # Errors
    /// `NoMemory`, only where fewer were kept; nothing has changed.
    pub(crate) fn reserve(&mut self, more: usize) -> Result<(), NoMemory>
        ensures items { self.new.items ≡ self.old.items }
        ensures room { OnOk result (self.new.room
            ≡ max self.old.room (length self.old.items + more)) }
        ensures had_room { length self.old.items + more ≤ self.old.room → IsOk result }
        ensures refused { OnErr result (self.new ≡ self.old) }
    {
        self.entries.reserve(more)?;
        self.room = self.room.max(self.entries.len() + more);
        Ok(())
    }

    /// Keeps so many places more than before.
    ///
    /// # Errors
    /// `NoMemory`; nothing has changed.
    pub(crate) fn add_places(&mut self, places: usize) -> Result<(), NoMemory>
        ensures items { self.new.items ≡ self.old.items }
        ensures room { OnOk result (self.new.room ≡ self.old.room + places) }
        ensures refused { OnErr result (self.new ≡ self.old) }
    {
        let Some(room) = self.room.checked_add(places) else {
            return Err(NoMemory);
        };
        self.entries.reserve(room - self.entries.len())?;
        self.room = room;
        Ok(())
    }

    /// Keeps so many places less, which are free.
    pub(crate) fn give_up_places(&mut self, places: usize)
        requires { length self.old.items + places ≤ self.old.room }
        ensures { self.new ≡ record self.old { room = self.old.room - places } }
    {
        self.room -= places;
    }

    /// Enters one entry more, for which a place is kept.
    pub(crate) fn push_reserved(&mut self, entry: Entry)
        requires { length self.old.items < self.old.room }
        ensures items { self.new.items ≡ self.old.items ++ entry ∷ [] }
        ensures room { self.new.room ≡ self.old.room }
    {
        self.entries.push_reserved(entry);
    }

    /// The last entry, if there is one.
    pub(crate) fn last(&self) -> Option<&Entry>
        ensures { (before : History) (e : Entries) → self.now.items ≡ before ++ e ∷ []
            → option_map (λ r. r.now) result ≡ Some e }
    {
        self.entries.last()
    }

    /// What happened.
    pub(crate) fn into_entries(self) -> Vec<Entry>
        ensures { result.items ≡ self.items }
    {
        self.entries
    }
}
