//! The store.
ghost use Rattle.std.specs.List.{filter, filter_map};
ghost use Rattle.std.specs.Prelude.{◌≡◌, ◌==◌, ◌∷◌, ◌++◌, ℕ, ◌+◌, ◌-◌, ◌^◌, ◌<◌, ◌≤◌, [], IsTrue, IsOk, IsSome, IfErr, IfNone, IfOk, IfSome, OnOk, OnErr, Some, None, false, length, not, true, option_copied, vec_capacity};
ghost use Rattle.std.specs.BTreeMap.{is_at};
ghost use Rattle.std.specs.Map.{keys_of, set_value};
ghost use Rattle.std.specs.Ordering.{nat_cmp};
ghost use Rattle.std.specs.Option.{MatchOption, is_some, option_and_then, option_map, option_map_or};
ghost use Rattle.kind_tables.specs.SceneObjects.{object_in, value_named, with_value, without_value};
ghost use Rattle.seq_model.specs.State.{Empty, array_loan, changed_at, empty, object_at, with_object};
ghost use Rattle.seq_model.specs.Steps.{change_array, commit, discard, end_parameter_loan, fresh, holding, lend_parameter, lent, map_channel, set_phase, set_staged, unmap_channel};
ghost use Rattle.object_store.specs.Phases.{phase_of};
ghost use Rattle.dev_types.specs.declared.data_types.DataType.TheVariants as ty;
ghost use Rattle.dev_types.specs.declared.values.Value.TheVariants as value;
ghost use Rattle.scene_read.specs.Reading.{lent as lent_block};

use crate::account::{account, public_of, unname_object, unname_times};
use crate::closing::{empty_slots, end_all};
use crate::contents::{bytes_at, elements_len, name_content, taken_back, unname_content};
use crate::dead::{Dead, order_handles};
use crate::loans::{ParameterLoan, is_any_out, loan_with};
use crate::reslotting::{
    end_loan_at, hold_at, lend_at, map_channel_at, show_at, unhold_at, unmap_channel_at,
};
use crate::slots::{Shows, Slot};
use crate::staging::{commit_at, is_there, names_at, set_at, unset_all_at, unset_at};
use crate::stops::Stops;
use array_objects::{ArrayStore, Block, Lent};
use byte_view::Strided;
use dev_types::{Bytes, Channel, DataType, Handle, Name, NoMemory, Refused, Value};
use handle_table::Table;
use kind_tables::Kind;
use ref_counts::Counts;
use std::alloc::Global;
use std::marker::Model;
use std::mem;

/// The objects of a device.
#[derive(Drop)]
pub struct Store {
    slots: Table<Slot>,
    arrays: ArrayStore,
    counts: Counts,
    stopped: Stops,
    // How many names were ever made; so no object is named more often.
    bound: u64,
}

impl Model for Store {
    ghost use Rattle.object_store.specs.Kept.{AreParts, Stored, stored};

    ghost Value = { Stored };

    ghost view = { λ s. stored s.slots s.arrays s.counts s.stopped };

    ghost invariant = { λ s. AreParts s.slots s.arrays s.counts s.bound };
}

impl Store {
    ghost use Rattle.object_store.specs.Kept.{CountsItsObjects, IsSettled, IsUnmapRefusal, IsUnheld, number_at, without};
    ghost use Rattle.array_objects.specs.Stores.{Fits};
    ghost use Rattle.dev_types.specs.Counting.{times};
    ghost use Rattle.seq_model.specs.Refusals.{is_array_loan_out, is_parameter_loan_out};
    ghost use Rattle.seq_model.specs.State.{parameter_loan};
    ghost use Rattle.object_store.specs.Parts.{array_of, at, block_of, memory_in, memory_of, named_in_block, named_with};
    ghost use Rattle.object_store.specs.Gathers.{IsLeft, buried};
    ghost use Rattle.seq_model.specs.Soundness.{IsRanked};
    ghost use Rattle.seq_model.specs.Told.{end_of_object, gone};
    ghost use Rattle.object_store.specs.Ends.{ended, notice_of};

    /// A store without objects, which takes no memory.
    pub fn new(alloc: Global) -> Store
        ensures state { result.state ≡ empty }
        ensures public { result.public ≡ [] }
        ensures holds { result.holds ≡ [] }
        ensures ready { result.ready ≡ false }
    {
        Store {
            slots: Table::new(alloc),
            arrays: ArrayStore::new(alloc),
            counts: Counts::new(alloc),
            stopped: Stops::new(alloc),
            bound: 0,
        }
    }

    /// The kind of an object; `None` exactly where there is no such object.
    pub fn kind_of(&self, h: Handle) -> Option<Kind>
        ensures { result ≡ option_map (λ o. o.kind) (object_at self.now.state h) }
    {
        Some(self.slots.get(h)?.kind())
    }

    /// The handle of the next object.
    pub fn next(&self) -> Handle
        ensures { result ≡ self.now.state.next }
    {
        self.slots.next()
    }

    /// The public references to an object; `None` exactly where there is no such object.
    pub fn public(&self, h: Handle) -> Option<u64>
        ensures value { result ≡ at h self.now.public }
        ensures there { is_some result ≡ is_some (object_at self.now.state h) }
    {
        if !is_there(&self.slots, h) {
            return None;
        }
        Some(public_of(&self.counts, h))
    }

    /// How many flights hold an object.
    pub fn holds(&self, h: Handle) -> u64
        ensures { result ≡ number_at self.now.holds h }
    {
        match self.slots.get(h) {
            Some(slot) => slot.holds(),
            None => 0,
        }
    }

    /// The tickets of the flights that were stopped and have not left.
    pub fn stopped(&self) -> &[u64]
        ensures { result.now ≡ self.now.state.stopped }
    {
        self.stopped.tickets()
    }

    /// The channels of a frame that are mapped, each with the number of its loan; `None` exactly
    /// where there is no such object.
    pub fn channels(&self, h: Handle) -> Option<&[(Channel, u64)]>
        ensures { option_map (λ c. c.now) result ≡ option_map (λ o. o.channels) (object_at
            self.now.state h) }
    {
        Some(self.slots.get(h)?.channels())
    }

    /// The arrays that are written for parameters of an object; `None` exactly where there is no
    /// such object.
    pub fn parameter_loans(&self, h: Handle) -> Option<&[ParameterLoan]>
        ensures { option_map (λ l. l.now) result ≡ option_map (λ o. o.parameter_loans) (object_at
            self.now.state h) }
    {
        Some(self.slots.get(h)?.loans())
    }

    /// The array that is written under a number for a parameter of an object, if there is one.
    pub fn parameter_loan(&self, h: Handle, number: u64) -> Option<&ParameterLoan>
        ensures { option_copied result ≡ option_and_then (λ o. parameter_loan number
            o.parameter_loans) (object_at self.now.state h) }
    {
        loan_with(self.slots.get(h)?.loans(), number)
    }

    /// Whether an array of so many bytes is written under a number for the parameter of an object.
    pub fn is_parameter_loan_out(&self, h: Handle, name: &Name, number: u64, len: usize) -> bool
        ensures { result ≡ is_parameter_loan_out self.now.state h name.now number len }
    {
        match self.slots.get(h) {
            Some(slot) => is_any_out(slot.loans(), name, number, len),
            None => false,
        }
    }

    /// The committed value of a parameter of an object, if there is one.
    pub fn committed(&self, h: Handle, name: &Name) -> Option<&Value>
        ensures { option_copied result ≡ option_and_then (λ o. value_named name.now o.committed)
            (object_at self.now.state h) }
    {
        self.slots.get(h)?.committed(name)
    }

    /// Makes room for one more object.
    ///
    /// # Errors
    /// `NoMemory`, where there was no room; all is then as it was.
    pub fn make_room(&mut self, alloc: Global) -> Result<(), NoMemory>
        ensures room { OnOk result (self.new ≡ record self.old { ready = true }) }
        ensures had_room { self.old.ready ≡ true → IsOk result }
        ensures err { OnErr result (self.new ≡ self.old) }
    {
        self.slots.reserve(alloc)?;
        let next = self.slots.next();
        if self.counts.counts(next).is_none() {
            self.counts.born(alloc, next)?;
        }
        Ok(())
    }

    /// Makes an object of this kind, for which there is room. Its maker has a public reference to
    /// it.
    pub fn new_object(&mut self, alloc: Global, kind: Kind) -> Handle
        requires { self.old.ready ≡ true }
        ensures handle { result ≡ self.old.state.next }
        ensures store { self.new ≡ record {
          state = with_object (fresh kind None) self.old.state;
          public = self.old.public ++ (self.old.state.next, 1) ∷ [];
          holds = self.old.holds ++ (self.old.state.next, 0) ∷ [];
          ready = false;
          places = self.old.places;
        } }
    {
        self.slots.insert(Slot::new(alloc, kind))
    }

    /// Makes an array with this block of at most 2^28 elements, for which there is room. Its maker
    /// has a public reference to it; each object that its elements name is there.
    ///
    /// # Errors
    /// `NoMemory`; the block comes back, and all is as it was.
    pub fn new_array(&mut self, alloc: Global, block: Block) -> Result<Handle, (NoMemory, Block)>
        requires room { self.old.ready ≡ true }
        requires fits { Fits block }
        requires short { block.count ≤ 2 ^ 28 }
        requires named { (k : ℕ) → 0 < times k (named_in_block (Some block)) → IsSome (object_at
            self.old.state k) }
        ensures handle { IfOk result (λ h. h ≡ self.old.state.next) }
        ensures store { OnOk result (self.new ≡ record {
          state = with_object (array_of block) self.old.state;
          public = self.old.public ++ (self.old.state.next, 1) ∷ [];
          holds = self.old.holds ++ (self.old.state.next, 0) ∷ [];
          ready = false;
          places = self.old.places;
        }) }
        ensures returned { IfErr result (λ e. e.1 ≡ block) }
        ensures err { OnErr result (self.new ≡ self.old) }
    {
        let (ty, count) = (block.ty, block.count);
        if count > MOST_NAMES || self.bound > MOST_NAMES {
            return Err((NoMemory, block));
        }
        let next = self.slots.next();
        self.arrays.add(alloc, next, block)?;
        name_content(&mut self.counts, &self.arrays, next);
        self.bound += count;
        Ok(self.slots.insert(Slot::new(alloc, Kind::Array(ty))))
    }

    /// Takes away the object with the least handle of those that nothing holds; its block comes
    /// back. `None` exactly where each object is held. This takes no memory.
    pub fn die(&mut self) -> Option<(Handle, Option<Block>)>
        ensures unheld { IfSome result (λ d. IsUnheld self.old d.0) }
        ensures gone { IfSome result (λ d. self.new ≡ without d.0 self.old) }
        ensures block { IfSome result (λ d. memory_of d.1 ≡ memory_in (option_and_then (λ o.
            o.array) (object_at self.old.state d.0))) }
        ensures settled { IfNone result (IsSettled self.new) }
        ensures none { IfNone result (self.new ≡ self.old) }
    {
        let h = self.counts.die()?;
        let Some(slot) = self.slots.remove(h) else {
            unreachable!();
        };
        let block = self.arrays.remove(h);
        unname_object(&mut self.counts, slot.params(), &block);
        Some((h, block))
    }

    /// Takes away all objects that do not live: until each that is left is held. The arrays among
    /// them, for which there is room among the dead, stand there by rising handle, and `handles`,
    /// which has room, names all of them by rising handle. This takes no memory.
    pub fn gather(&mut self, dead: &mut Dead, handles: &mut Vec<Handle>)
        requires ranked { IsRanked self.old.state.objects }
        requires none { dead.old.list ≡ [] }
        requires room { length (ended self.old.state.objects) ≤ dead.old.room }
        requires no_handles { handles.old.items ≡ [] }
        requires places { length self.old.state.objects ≤ vec_capacity handles.old }
        ensures state { self.new.state ≡ buried self.old }
        ensures left { IsLeft self.old self.new }
        ensures dead { dead.new.list ≡ ended (gone self.old.state self.new.state) }
        ensures notices { filter_map notice_of dead.new.list ≡ filter_map end_of_object (gone
            self.old.state self.new.state) }
        ensures room { dead.new.room ≡ dead.old.room }
        ensures handles { handles.new.items ≡ keys_of (gone self.old.state self.new.state) }
        ensures places { vec_capacity handles.new ≡ vec_capacity handles.old }
    {
        let _slots = &self.slots;
        while let Some(death) = self.die() {
            handles.push_reserved(death.0);
            dead.add(death);
        }
        order_handles(handles);
        dead.order();
    }

    /// All objects end: the arrays among them, for which there is room among the dead, stand there
    /// by rising handle. Handles go on from where they were. This takes no memory.
    pub fn clear(&mut self, alloc: Global, dead: &mut Dead)
        requires none { dead.old.list ≡ [] }
        requires room { length (ended self.old.state.objects) ≤ dead.old.room }
        ensures store { self.new ≡ record {
          state = record self.old.state { objects = [] };
          public = [];
          holds = [];
          ready = false;
          places = self.old.places;
        } }
        ensures dead { dead.new ≡ record dead.old { list = ended self.old.state.objects } }
        ensures notices { filter_map notice_of dead.new.list ≡ filter_map end_of_object
            self.old.state.objects }
    {
        let arrays = mem::replace(&mut self.arrays, ArrayStore::new(alloc));
        end_all(&self.slots, arrays, dead);
        empty_slots(&mut self.slots);
        self.counts = Counts::new(alloc);
    }

    /// One more public reference to an object, which has one.
    pub fn retain(&mut self, h: Handle)
        requires held { 1 ≤ number_at self.old.public h }
        requires fits { number_at self.old.public h < 2 ^ 63 }
        ensures { self.new ≡ record self.old {
          public = set_value (is_at (nat_cmp h))
              self.old.public (number_at self.old.public h + 1);
        } }
    {
        self.counts.retain(h);
    }

    /// One public reference less to an object, which has one. It is there until the next `gather`.
    pub fn release(&mut self, h: Handle)
        requires { 1 ≤ number_at self.old.public h }
        ensures { self.new ≡ record self.old {
          public = set_value (is_at (nat_cmp h))
              self.old.public (number_at self.old.public h - 1);
        } }
    {
        self.counts.release(h);
    }

    /// Lends an array's memory under a number.
    ///
    /// # Errors
    /// `ArrayMapped` where a loan of the array is out, else `NoMemory`; all is then as it was.
    pub fn map_array(&mut self, alloc: Global, h: Handle, number: u64) -> Result<Lent, Refused>
        requires { IsSome (option_and_then (λ o. o.array) (object_at self.old.state h)) }
        ensures ok { OnOk result (self.new ≡ record self.old {
          state = changed_at h (change_array
              (lent number)) self.old.state;
        }) }
        ensures loan { IfOk result (λ l. (l.array ≡ h) × (l.number ≡ number)) }
        ensures content { IfOk result (λ l. IfSome (option_and_then (λ o. o.array) (object_at
            self.old.state h)) (λ a. block_of l.elements ≡ a.block)) }
        ensures err { OnErr result (self.new ≡ self.old) }
    {
        if self.bound >= MOST_NAMES {
            return Err(Refused::NoMemory);
        }
        let lent = self.arrays.map(alloc, h, number)?;
        self.counts.name(h);
        self.bound += 1;
        Ok(lent)
    }

    /// Ends a loan of an array: the content is then these bytes, as many as the loan has. Each
    /// object that they name is there.
    ///
    /// # Errors
    /// `NotMapped` exactly where no loan of this array, number and length is out, else `NoMemory`;
    /// the loan comes back, and all is as it was.
    pub fn unmap_array(&mut self, lent: Lent, content: Bytes) -> Result<(), (Refused, Lent)>
        requires length { length content ≡ length lent.elements.bytes }
        requires named { (k : ℕ) → 0 < times k (named_with content (object_at self.old.state
            lent.array)) → IsSome (object_at self.old.state k) }
        ensures ok { OnOk result (self.new ≡ record self.old {
          state = changed_at lent.array
              (change_array (holding content)) self.old.state;
        }) }
        ensures out { OnOk result (is_array_loan_out self.old.state lent.array lent.number (length
            content) ≡ true) }
        ensures causes { IfErr result (λ e. IsUnmapRefusal (is_array_loan_out self.old.state
            lent.array lent.number (length content)) e.0) }
        ensures returned { IfErr result (λ e. e.1 ≡ lent) }
        ensures err { OnErr result (self.new ≡ self.old) }
    {
        let h = lent.array();
        if !is_there(&self.slots, h) {
            return Err((Refused::NotMapped, lent));
        }
        let count = elements_len(&self.arrays, h);
        if count > MOST_NAMES || self.bound > MOST_NAMES {
            return Err((Refused::NoMemory, lent));
        }
        let old = match self.arrays.unmap(lent, content) {
            Ok(old) => old,
            Err(refused) => return Err(refused),
        };
        name_content(&mut self.counts, &self.arrays, h);
        unname_content(&mut self.counts, &self.arrays, h, &old);
        self.counts.unname(h);
        self.bound += count;
        Ok(())
    }

    /// Makes the committed values of an object, which is there, the staged ones.
    ///
    /// # Errors
    /// `NoMemory`; all is then as it was.
    pub fn commit(&mut self, alloc: Global, h: Handle) -> Result<(), NoMemory>
        requires { IsSome (object_at self.old.state h) }
        ensures ok { OnOk result (self.new ≡ record self.old {
          state = changed_at h commit
              self.old.state;
        }) }
        ensures err { OnErr result (self.new ≡ self.old) }
    {
        let names = names_at(&self.slots, h);
        if names > MOST_NAMES || self.bound > MOST_NAMES {
            return Err(NoMemory);
        }
        let told = commit_at(&mut self.slots, alloc, h)?;
        account(&mut self.counts, &told);
        self.bound += names;
        Ok(())
    }

    /// Stages a value for an object, which is there, as is an object that the value names.
    ///
    /// # Errors
    /// `NoMemory`; all is then as it was.
    pub fn set_parameter(
        &mut self,
        alloc: Global,
        h: Handle,
        name: &Name,
        v: &Value,
    ) -> Result<(), NoMemory>
        requires there { IsSome (object_at self.old.state h) }
        requires named { MatchOption (object_in v.now) (Unit {0}) (λ k. IsSome (object_at
            self.old.state k)) }
        ensures ok { OnOk result (self.new ≡ record self.old {
          state = changed_at h (set_staged
              (with_value name.now v.now)) self.old.state;
        }) }
        ensures err { OnErr result (self.new ≡ self.old) }
    {
        if self.bound >= MOST_NAMES {
            return Err(NoMemory);
        }
        let told = set_at(&mut self.slots, alloc, h, name, v)?;
        account(&mut self.counts, &told);
        self.bound += 1;
        Ok(())
    }

    /// Takes a staged value of an object, which is there, away.
    ///
    /// # Errors
    /// `NoMemory`; all is then as it was.
    pub fn unset_parameter(&mut self, alloc: Global, h: Handle, name: &Name) -> Result<(), NoMemory>
        requires { IsSome (object_at self.old.state h) }
        ensures ok { OnOk result (self.new ≡ record self.old {
          state = changed_at h (set_staged
              (without_value name.now)) self.old.state;
        }) }
        ensures err { OnErr result (self.new ≡ self.old) }
    {
        let told = unset_at(&mut self.slots, alloc, h, name)?;
        account(&mut self.counts, &told);
        Ok(())
    }

    /// Takes all staged values of an object, which is there, away.
    ///
    /// # Errors
    /// `NoMemory`; all is then as it was.
    pub fn unset_all(&mut self, alloc: Global, h: Handle) -> Result<(), NoMemory>
        requires { IsSome (object_at self.old.state h) }
        ensures ok { OnOk result (self.new ≡ record self.old {
          state = changed_at h (set_staged (λ
              _. [])) self.old.state;
        }) }
        ensures err { OnErr result (self.new ≡ self.old) }
    {
        let told = unset_all_at(&mut self.slots, alloc, h)?;
        account(&mut self.counts, &told);
        Ok(())
    }

    /// Lets a frame, which is there, show something else.
    pub fn show(&mut self, h: Handle, shows: Shows)
        requires { IsSome (object_at self.old.state h) }
        ensures { self.new ≡ record self.old {
          state = changed_at h (set_phase (phase_of shows))
              self.old.state;
        } }
    {
        show_at(&mut self.slots, h, shows);
    }

    /// Maps a channel of a frame, which is there, under a number.
    ///
    /// # Errors
    /// `NoMemory`; all is then as it was.
    pub fn map_channel(&mut self, h: Handle, channel: Channel, number: u64) -> Result<(), NoMemory>
        requires { IsSome (object_at self.old.state h) }
        ensures ok { OnOk result (self.new ≡ record self.old {
          state = changed_at h (map_channel
              channel number) self.old.state;
        }) }
        ensures err { OnErr result (self.new ≡ self.old) }
    {
        if self.bound >= MOST_NAMES {
            return Err(NoMemory);
        }
        map_channel_at(&mut self.slots, h, channel, number)?;
        self.counts.name(h);
        self.bound += 1;
        Ok(())
    }

    /// The channels of a frame, which is there, that were mapped under a number are mapped no more.
    pub fn unmap_channel(&mut self, h: Handle, number: u64)
        requires { IsSome (object_at self.old.state h) }
        ensures { self.new ≡ record self.old {
          state = changed_at h (unmap_channel number)
              self.old.state;
        } }
    {
        let ended = unmap_channel_at(&mut self.slots, h, number);
        unname_times(&mut self.counts, h, ended);
    }

    /// Notes an array that is written for a parameter of an object, which is there.
    ///
    /// # Errors
    /// `NoMemory`; all is then as it was.
    pub fn lend_parameter(&mut self, h: Handle, loan: ParameterLoan) -> Result<(), NoMemory>
        requires { IsSome (object_at self.old.state h) }
        ensures ok { OnOk result (self.new ≡ record self.old {
          state = changed_at h (lend_parameter
              loan) self.old.state;
        }) }
        ensures err { OnErr result (self.new ≡ self.old) }
    {
        if self.bound >= MOST_NAMES {
            return Err(NoMemory);
        }
        lend_at(&mut self.slots, h, loan)?;
        self.counts.name(h);
        self.bound += 1;
        Ok(())
    }

    /// The arrays that are written under a number for parameters of an object, which is there, are
    /// written no more.
    pub fn end_parameter_loan(&mut self, h: Handle, number: u64)
        requires { IsSome (object_at self.old.state h) }
        ensures { self.new ≡ record self.old {
          state = changed_at h (end_parameter_loan number)
              self.old.state;
        } }
    {
        let ended = end_loan_at(&mut self.slots, h, number);
        unname_times(&mut self.counts, h, ended);
    }

    /// Makes an array with this block of at most 2^28 elements, for which there is room, and stages
    /// it for an object, which is there, as is each object that the elements name. It has a public
    /// reference.
    ///
    /// # Errors
    /// `NoMemory`; the block comes back, and all is as it was.
    pub fn stage_array(
        &mut self,
        alloc: Global,
        h: Handle,
        name: &Name,
        block: Block,
    ) -> Result<Handle, (NoMemory, Block)>
        requires room { self.old.ready ≡ true }
        requires fits { Fits block }
        requires short { block.count ≤ 2 ^ 28 }
        requires there { IsSome (object_at self.old.state h) }
        requires named { (k : ℕ) → 0 < times k (named_in_block (Some block)) → IsSome (object_at
            self.old.state k) }
        ensures handle { IfOk result (λ made. made ≡ self.old.state.next) }
        ensures store { OnOk result (self.new ≡ record {
          state = changed_at h (set_staged (with_value name.now (value.Object ty.Array1D
              self.old.state.next))) (with_object (array_of block) self.old.state);
          public = self.old.public ++ (self.old.state.next, 1) ∷ [];
          holds = self.old.holds ++ (self.old.state.next, 0) ∷ [];
          ready = false;
          places = self.old.places;
        }) }
        ensures returned { IfErr result (λ e. e.1 ≡ block) }
        ensures err { OnErr result (self.new ≡ self.old) }
    {
        let (ty, count) = (block.ty, block.count);
        if count > MOST_NAMES || self.bound >= MOST_NAMES {
            return Err((NoMemory, block));
        }
        let next = self.slots.next();
        self.arrays.add(alloc, next, block)?;
        let v = Value::Object(DataType::Array1D, next);
        let told = match set_at(&mut self.slots, alloc, h, name, &v) {
            Ok(told) => told,
            Err(_) => return Err((NoMemory, taken_back(&mut self.arrays, next))),
        };
        name_content(&mut self.counts, &self.arrays, next);
        account(&mut self.counts, &told);
        self.bound += count + 1;
        Ok(self.slots.insert(Slot::new(alloc, Kind::Array(ty))))
    }

    /// The array that is written under a number for a parameter of an object, which is there, comes
    /// back: it is a new array with this block, for which there is room, and the staged value of
    /// the parameter, and no public reference to it is given out.
    ///
    /// # Errors
    /// `NoMemory`; the block comes back, and all is as it was.
    pub fn take_in(
        &mut self,
        alloc: Global,
        h: Handle,
        name: &Name,
        number: u64,
        block: Block,
    ) -> Result<Handle, (NoMemory, Block)>
        requires room { self.old.ready ≡ true }
        requires fits { Fits block }
        requires short { block.count ≤ 2 ^ 28 }
        requires there { IsSome (object_at self.old.state h) }
        requires named { (k : ℕ) → 0 < times k (named_in_block (Some block)) → IsSome (object_at
            self.old.state k) }
        ensures handle { IfOk result (λ made. made ≡ self.old.state.next) }
        ensures store { OnOk result (self.new ≡ record {
          state = with_object (array_of block) (changed_at h (set_staged (with_value name.now
              (value.Object ty.Array1D self.old.state.next)))
              (changed_at h (end_parameter_loan number) self.old.state));
          public = self.old.public ++ (self.old.state.next, 0) ∷ [];
          holds = self.old.holds ++ (self.old.state.next, 0) ∷ [];
          ready = false;
          places = self.old.places;
        }) }
        ensures returned { IfErr result (λ e. e.1 ≡ block) }
        ensures err { OnErr result (self.new ≡ self.old) }
    {
        let _slots = &self.slots;
        let made = self.stage_array(alloc, h, name, block)?;
        self.end_parameter_loan(h, number);
        self.release(made);
        Ok(made)
    }

    /// One flight more holds an object, which is there.
    pub fn hold(&mut self, h: Handle)
        requires there { IsSome (object_at self.old.state h) }
        requires few { number_at self.old.holds h < 2 ^ 40 }
        ensures { self.new ≡ record self.old {
          holds = set_value (is_at (nat_cmp h)) self.old.holds
              (number_at self.old.holds h + 1);
        } }
    {
        hold_at(&mut self.slots, h);
        self.counts.name(h);
    }

    /// One flight less holds an object.
    pub fn unhold(&mut self, h: Handle)
        requires { 1 ≤ number_at self.old.holds h }
        ensures { self.new ≡ record self.old {
          holds = set_value (is_at (nat_cmp h)) self.old.holds
              (number_at self.old.holds h - 1);
        } }
    {
        unhold_at(&mut self.slots, h);
        self.counts.unname(h);
    }

    /// Makes room for `more` stopped flights beside those that are there.
    ///
    /// # Errors
    /// `NoMemory`; all is then as it was, but for the room.
    pub fn make_places(&mut self, more: usize) -> Result<(), NoMemory>
        ensures places { self.new ≡ record self.old { places = self.new.places } }
        ensures room { OnOk result (length self.old.state.stopped + more ≤ self.new.places) }
        ensures grows { self.old.places ≤ self.new.places }
    {
        self.stopped.reserve(more)
    }

    /// One flight more was stopped.
    ///
    /// # Errors
    /// `NoMemory`; all is then as it was, but for the room.
    pub fn stop(&mut self, ticket: u64) -> Result<(), NoMemory>
        ensures ok { OnOk result (self.new ≡ record self.old {
          state = record self.old.state {
            stopped = self.old.state.stopped ++ ticket ∷ [];
          };
          places = self.new.places;
        }) }
        ensures had_room { length self.old.state.stopped < self.old.places → IsOk result }
        ensures grows { self.old.places ≤ self.new.places }
        ensures err { OnErr result (self.new ≡ record self.old { places = self.new.places }) }
    {
        self.stopped.push(ticket)
    }

    /// A flight that was stopped has left.
    pub fn let_leave(&mut self, ticket: u64)
        ensures { self.new ≡ record self.old {
          state = record self.old.state {
            stopped = filter (λ
                u. not (u == ticket)) self.old.state.stopped;
          };
        } }
    {
        self.stopped.remove(ticket);
    }

    /// The elements of an array, at most 2^28; `None` exactly where the object is none.
    pub fn content(&self, h: Handle) -> Option<Strided<'_>>
        ensures value { result ≡ option_and_then (λ o. option_map (λ a. lent_block a.block) o.array)
            (object_at self.now.state h) }
        ensures short { IfSome result (λ e. e.count ≤ 2 ^ 28) }
    {
        if !is_there(&self.slots, h) {
            return None;
        }
        self.arrays.view(h)
    }

    /// The bytes of an array; `None` exactly where the object is none.
    pub fn bytes(&self, h: Handle) -> Option<&Bytes>
        ensures { option_copied result ≡ option_and_then (λ o. option_map (λ a. a.block.bytes)
            o.array) (object_at self.now.state h) }
    {
        if !is_there(&self.slots, h) {
            return None;
        }
        bytes_at(&self.arrays, h)
    }

    /// The number of the loan of an array that is out; `None` exactly where the object is no array
    /// that is mapped.
    pub fn array_loan(&self, h: Handle) -> Option<u64>
        ensures { result ≡ option_and_then array_loan (object_at self.now.state h) }
    {
        if !is_there(&self.slots, h) {
            return None;
        }
        self.arrays.loan(h)
    }

    /// Whether a loan of an array under this number is out, of so many bytes.
    pub fn is_array_loan_out(&self, h: Handle, number: u64, len: usize) -> bool
        ensures { result ≡ is_array_loan_out self.now.state h number len }
    {
        let Some(bytes) = self.bytes(h) else {
            return false;
        };
        self.array_loan(h) == Some(number) && bytes.as_slice().len() == len
    }

    /// What is known of a store at any time: the handles of its objects rise, each is counted, and
    /// what an object names is there.
    pub fn counts_its_objects(&self)
        ensures { CountsItsObjects self.now }
    {
        let _slots = &self.slots;
    }

    /// What a frame shows; nothing where there is no such object.
    pub fn shows(&self, h: Handle) -> Shows
        ensures { phase_of result ≡ option_map_or (λ o. o.phase) (object_at self.now.state h) Empty }
    {
        match self.slots.get(h) {
            Some(slot) => slot.shows(),
            None => Shows::Nothing,
        }
    }

    /// Discards what a frame, which is there, shows, with its flight, if it is in flight.
    ///
    /// # Errors
    /// `NoMemory`; all is then as it was, but for the room.
    #[tactic(auto, unfolding(seq_model::specs::Steps::discard))]
    pub fn discard(&mut self, h: Handle) -> Result<(), NoMemory>
        requires { IsSome (object_at self.old.state h) }
        ensures ok { OnOk result (self.new ≡ record self.old {
          state = discard h self.old.state;
          places = self.new.places;
        }) }
        ensures had_room { length self.old.state.stopped < self.old.places → IsOk result }
        ensures grows { self.old.places ≤ self.new.places }
        ensures err { OnErr result (self.new ≡ record self.old { places = self.new.places }) }
    {
        if let Shows::Flight(ticket) = self.shows(h) {
            self.stop(ticket)?;
        }
        self.show(h, Shows::Nothing);
        Ok(())
    }
}

/// More names than these are not made.
const MOST_NAMES: u64 = 1 << 61;
