ghost use Rattle.std.specs.Prelude.{◌≡◌, ◌+◌, ◌-◌, ◌<◌, ◌≤◌, [], ◌∷◌, ◌++◌, IsTrue, ◌↔◌, IsOk, IsSome, OnOk, OnErr, IfSome, None, Some, option_copied, map, slice_index_or};
ghost use Rattle.std.specs.Option.{option_copied_mut};
ghost use Rattle.std.specs.Borrow.{Lends, LendsIf, sem};
ghost use Rattle.std.specs.BTreeMap.{is_at};
ghost use Rattle.std.specs.Map.{remove_entry};
ghost use Rattle.std.specs.Ordering.{nat_cmp};
ghost use Rattle.handle_table.specs.HandleMaps.{value_at, with_value, ChangesAt, RiseWithin};
ghost use Rattle.handle_table.specs.Slots.{value_of};

use dev_types::{Handle, NoMemory};
use std::alloc::Global;
use std::marker::Model;
use std::mem;

/// Values by handle. A value gets the next handle when it is put in, 1 at first, and keeps it until it
/// is taken out; after that the handle stands for nothing.
#[derive(Drop)]
pub struct Table<T> {
    // The value of handle h is in slot h - 1.
    slots: Vec<Slot<T>>,
}

#[derive(Drop)]
enum Slot<T> {
    Empty,
    Filled(T),
}

impl<T> Model for Table<T> {
    ghost use Rattle.std.specs.Prelude.{◌+◌, ◌-◌, length, vec_capacity};
    ghost use Rattle.handle_table.specs.HandleMaps.{HandleMap, coded_map};

    ghost Value = { HandleMap T };

    ghost coded = { coded_map T.code };

    ghost use Rattle.handle_table.specs.Slots.{entries_from};

    ghost view = { λ t. record {
      entries = entries_from 1 t.slots.items;
      next = length t.slots.items + 1;
      spare = vec_capacity t.slots - length t.slots.items;
    } };
}

impl<T> Slot<T> {
    ghost use Rattle.handle_table.specs.contracts.table.Slot.{the_row};

    fn value(&self) -> Option<&T>
        ensures { option_copied result ≡ value_of self.now }
    {
        match self {
            Slot::Filled(value) => Some(value),
            Slot::Empty => None,
        }
    }

    fn into_value(self) -> Option<T>
        ensures { result ≡ value_of self }
    {
        match self {
            Slot::Filled(value) => Some(value),
            Slot::Empty => None,
        }
    }

    fn value_mut(&mut self) -> &mut T
        requires { IsSome (value_of self.old) }
        ensures* lends { sem 𝓛 (Lends (the_row T.row) T.row self.entry result Slot.Filled) }
        ensures value { value_of self.old ≡ Some result.now }
    {
        match self {
            Slot::Filled(value) => value,
            Slot::Empty => unreachable!(),
        }
    }
}

impl<T> Table<T> {
    ghost use Rattle.handle_table.specs.contracts.table.Table.{the_row};

    /// A table with no values, which takes no memory.
    pub fn new(alloc: Global) -> Table<T>
        ensures empty { result.entries ≡ [] }
        ensures first { result.next ≡ 1 }
        ensures spare { result.spare ≡ 0 }
    {
        Table {
            slots: Vec::new(alloc),
        }
    }

    /// Makes room for at least one more insertion. `NoMemory` only where there was none and no memory is
    /// found; the values stay in either case.
    pub fn reserve(&mut self, _alloc: Global) -> Result<(), NoMemory>
        ensures room { OnOk result (1 ≤ self.new.spare) }
        ensures had_room { 1 ≤ self.old.spare → IsOk result }
        ensures spare { self.old.spare ≤ self.new.spare }
        ensures refused { OnErr result (self.new.spare ≡ self.old.spare) }
        ensures entries { self.new.entries ≡ self.old.entries }
        ensures next { self.new.next ≡ self.old.next }
    {
        self.slots.reserve(1)?;
        Ok(())
    }

    /// How many insertions need no memory.
    pub fn spare(&self) -> u64
        ensures { result ≡ self.now.spare }
    {
        (self.slots.capacity() - self.slots.len()) as u64
    }

    /// The handle of the next insertion.
    pub fn next(&self) -> Handle
        ensures value { result ≡ self.now.next }
        ensures unused { value_at self.now result ≡ None }
        ensures rising { RiseWithin 1 result self.now.entries }
    {
        Handle(self.slots.len() as u64 + 1)
    }

    /// Puts a value in at the next handle, and takes no memory.
    pub fn insert(&mut self, value: T) -> Handle
        requires { 1 ≤ self.old.spare }
        ensures handle { result ≡ self.old.next }
        ensures unused { value_at self.old result ≡ None }
        ensures entries { self.new.entries ≡ self.old.entries ++ (result, value) ∷ [] }
        ensures changes { ChangesAt self.old self.new result (Some value) }
        ensures next { self.new.next ≡ self.old.next + 1 }
        ensures spare { self.new.spare + 1 ≡ self.old.spare }
    {
        let handle = self.next();
        self.slots.push_reserved(Slot::Filled(value));
        handle
    }

    /// The value at the handle; `None` exactly where nothing stands there.
    pub fn get(&self, h: Handle) -> Option<&T>
        ensures value { option_copied result ≡ value_at self.now h }
        ensures given { IfSome result (λ _. (1 ≤ h) × (h < self.now.next)) }
    {
        let slots = &self.slots;
        if h.0 == 0 {
            return None;
        }
        slots.get(h.0 as usize - 1)?.value()
    }

    /// The value at the handle, to be written in place; `None` exactly where nothing stands there.
    pub fn get_mut(&mut self, h: Handle) -> Option<&mut T>
        // The table ends with what was last written, at that handle alone.
        ensures* writes_back { sem 𝓛 (LendsIf (the_row T.row) T.row self.entry result (with_value self.old h) self.old) }
        ensures value { option_copied_mut result ≡ value_at self.old h }
    {
        if self.get(h).is_some() {
            Some(self.value_mut(h))
        } else {
            None
        }
    }

    fn value_mut(&mut self, h: Handle) -> &mut T
        requires { IsSome (value_at self.old h) }
        ensures* writes_back { sem 𝓛 (Lends (the_row T.row) T.row self.entry result (with_value self.old h)) }
        ensures value { value_at self.old h ≡ Some result.now }
    {
        self.slots[h.0 as usize - 1].value_mut()
    }

    /// Takes the value at the handle out; `None` exactly where nothing stands there. The handle stands
    /// for nothing from then on.
    pub fn remove(&mut self, h: Handle) -> Option<T>
        ensures value { result ≡ value_at self.old h }
        ensures entries { self.new.entries ≡ remove_entry (is_at (nat_cmp h)) self.old.entries }
        ensures changes { ChangesAt self.old self.new h None }
        ensures next { self.new.next ≡ self.old.next }
        ensures spare { self.new.spare ≡ self.old.spare }
    {
        if self.get(h).is_none() {
            return None;
        }
        mem::replace(&mut self.slots[h.0 as usize - 1], Slot::Empty).into_value()
    }
}
