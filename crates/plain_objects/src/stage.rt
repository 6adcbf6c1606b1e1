//! The objects of a device by their handles.
ghost use Rattle.std.specs.Prelude.{◌==◌, not, ◌≡◌, ◌≤◌, ◌∷◌, ◌++◌, [], OnOk, OnErr, Some, length, map, option_copied};
ghost use Rattle.std.specs.BTreeMap.{is_at};
ghost use Rattle.std.specs.List.{filter};
ghost use Rattle.std.specs.Map.{remove_entry};
ghost use Rattle.std.specs.Option.{option_and_then, option_map, option_map_or};
ghost use Rattle.std.specs.Ordering.{nat_cmp};
ghost use Rattle.seq_model.specs.State.{scene_object, scene_objects, Empty, changed_at, empty, object_at, with_object};
ghost use Rattle.seq_model.specs.Steps.{change_array, commit, discard, end_flight, end_flights, end_parameter_loan, holding, lend_parameter, lent, map_channel, set_phase, set_staged, unmap_channel};
ghost use Rattle.kind_tables.specs.SceneObjects.{object_at as scene_at, with_value, without_value};
ghost use Rattle.dev_types.specs.declared.data_types.DataType.TheVariants as ty;
ghost use Rattle.dev_types.specs.declared.values.Value.TheVariants as Value;
ghost use Rattle.handle_table.specs.HandleMaps.{RiseWithin};
ghost use Rattle.plain_objects.specs.Shown.{HasLength, changed_in, phase_of};

use crate::objects::{Object, ParameterLoan, Shows};
use dev_types::{Bytes, Channel, Handle, Name, NoMemory, Value};
use handle_table::Table;
use std::alloc::{AllocError, Global};
use std::marker::Model;

/// The objects by their handles, and the tickets of the flights that were stopped and have not left.
#[derive(Drop)]
pub struct Stage {
    objects: Table<Object>,
    stopped: Vec<u64>,
}

impl Model for Stage {
    ghost use Rattle.seq_model.specs.State.{State};

    ghost Value = { State };

    ghost view = { λ s. record { objects = s.objects.entries; stopped = s.stopped.items; next = s.objects.next } };
}

impl Stage {
    /// The object with this handle, if it is there.
    pub fn get(&self, h: Handle) -> Option<&Object>
        ensures value { option_copied result ≡ object_at self.now h }
        ensures seen { option_map (λ o. scene_object o.now) result ≡ scene_at (scene_objects self.now) h }
    {
        self.objects.get(h)
    }

    /// Stages a value for an object.
    #[tactic(auto, using(crate::proofs::Entries::written_back))]
    pub fn set(&mut self, h: Handle, name: &Name, value: &Value) -> Result<(), NoMemory>
        ensures ok { OnOk result (self.new ≡ changed_at h (set_staged (with_value name.now value.now)) self.old) }
        ensures err { OnErr result (self.new ≡ self.old) }
    {
        let Some(object) = self.objects.get_mut(h) else {
            return Ok(());
        };
        object.set(name, value)
    }

    /// Takes a staged value of an object away.
    pub fn unset(&mut self, h: Handle, name: &Name)
        ensures { self.new ≡ changed_at h (set_staged (without_value name.now)) self.old }
    {
        if let Some(object) = self.objects.get_mut(h) {
            object.unset(name);
        }
    }

    /// Takes all staged values of an object away.
    pub fn unset_all(&mut self, h: Handle)
        ensures { self.new ≡ changed_at h (set_staged (λ _. [])) self.old }
    {
        if let Some(object) = self.objects.get_mut(h) {
            object.unset_all();
        }
    }

    /// Makes the committed values of an object the staged ones.
    #[tactic(auto, using(crate::proofs::Entries::written_back))]
    pub fn commit(&mut self, h: Handle) -> Result<(), NoMemory>
        ensures ok { OnOk result (self.new ≡ changed_at h commit self.old) }
        ensures err { OnErr result (self.new ≡ self.old) }
    {
        let Some(object) = self.objects.get_mut(h) else {
            return Ok(());
        };
        object.commit()
    }

    /// Lends an array under a number.
    pub fn lend(&mut self, h: Handle, number: u64)
        ensures { self.new ≡ changed_at h (change_array (lent number)) self.old }
    {
        if let Some(object) = self.objects.get_mut(h) {
            object.lend(number);
        }
    }

    /// Gives an array other bytes, as many as it has; it is lent no more.
    pub fn take_back(&mut self, h: Handle, bytes: Bytes)
        requires { HasLength (option_and_then (λ o. o.array) (object_at self.old h)) (length bytes) }
        ensures { self.new ≡ changed_at h (change_array (holding bytes)) self.old }
    {
        if let Some(object) = self.objects.get_mut(h) {
            object.take_back(bytes);
        }
    }

    /// Notes an array that is written for a parameter.
    #[tactic(auto, using(crate::proofs::Entries::written_back))]
    pub fn lend_parameter(&mut self, h: Handle, loan: ParameterLoan) -> Result<(), NoMemory>
        ensures ok { OnOk result (self.new ≡ changed_at h (lend_parameter loan) self.old) }
        ensures err { OnErr result (self.new ≡ self.old) }
    {
        let Some(object) = self.objects.get_mut(h) else {
            return Ok(());
        };
        object.lend_parameter(loan)
    }

    /// The array with this number is written no more.
    pub fn end_parameter_loan(&mut self, h: Handle, number: u64)
        ensures { self.new ≡ changed_at h (end_parameter_loan number) self.old }
    {
        if let Some(object) = self.objects.get_mut(h) {
            object.end_parameter_loan(number);
        }
    }

    /// Lets a frame show something else.
    pub fn show(&mut self, h: Handle, shows: Shows)
        ensures { self.new ≡ changed_at h (set_phase (phase_of shows)) self.old }
    {
        if let Some(object) = self.objects.get_mut(h) {
            object.show(shows);
        }
    }

    /// Notes that a channel is mapped.
    #[tactic(auto, using(crate::proofs::Entries::written_back))]
    pub fn map_channel(&mut self, h: Handle, channel: Channel, number: u64) -> Result<(), NoMemory>
        ensures ok { OnOk result (self.new ≡ changed_at h (map_channel channel number) self.old) }
        ensures err { OnErr result (self.new ≡ self.old) }
    {
        let Some(object) = self.objects.get_mut(h) else {
            return Ok(());
        };
        object.map_channel(channel, number)
    }

    /// The channel with this number is mapped no more.
    pub fn unmap_channel(&mut self, h: Handle, number: u64)
        ensures { self.new ≡ changed_at h (unmap_channel number) self.old }
    {
        if let Some(object) = self.objects.get_mut(h) {
            object.unmap_channel(number);
        }
    }
    /// A device without objects.
    pub fn new(alloc: Global) -> Stage
        ensures { result ≡ empty }
    {
        Stage {
            objects: Table::new(alloc),
            stopped: Vec::new(alloc),
        }
    }

    /// The handle of the next creation.
    pub fn next(&self) -> Handle
        ensures value { result ≡ self.now.next }
        ensures rising { RiseWithin 1 result self.now.objects }
    {
        self.objects.next()
    }

    /// The tickets of the flights that were stopped and have not left.
    pub fn stopped(&self) -> &[u64]
        ensures { result.now ≡ self.now.stopped }
    {
        &self.stopped
    }

    /// Adds an object under the next handle.
    pub fn add(&mut self, alloc: Global, object: Object) -> Result<(), NoMemory>
        ensures ok { OnOk result (self.new ≡ with_object object self.old) }
        ensures err { OnErr result (self.new ≡ self.old) }
    {
        self.objects.reserve(alloc)?;
        self.objects.insert(object);
        Ok(())
    }

    /// A loan for a parameter has come back as this array, which stands under the next handle.
    pub fn take_in(
        &mut self,
        alloc: Global,
        h: Handle,
        name: &Name,
        number: u64,
        array: Object,
    ) -> Result<(), NoMemory>
        ensures ok { OnOk result (self.new ≡ with_object array (changed_at h (set_staged (with_value name.now (Value.Object ty.Array1D self.old.next))) (changed_at h (end_parameter_loan number) self.old))) }
        ensures err { OnErr result (self.new ≡ self.old) }
    {
        self.objects.reserve(alloc)?;
        let made = self.next();
        replace_loan(&mut self.objects, h, name, number, made)?;
        self.objects.insert(array);
        Ok(())
    }

    /// What a frame has to show; nothing where there is no such object.
    pub fn shows(&self, h: Handle) -> Shows
        ensures { phase_of result ≡ option_map_or (λ o. o.phase) (object_at self.now h) Empty }
    {
        match self.get(h) {
            Some(object) => object.shows,
            None => Shows::Nothing,
        }
    }

    /// Discards what a frame shows, with its flight, if it is in flight.
    #[tactic(auto, unfolding(seq_model::specs::Steps::discard))]
    pub fn discard(&mut self, h: Handle) -> Result<(), NoMemory>
        ensures ok { OnOk result (self.new ≡ discard h self.old) }
        ensures err { OnErr result (self.new ≡ self.old) }
    {
        if let Shows::Flight(ticket) = self.shows(h) {
            self.stopped.push(ticket).map_err(AllocError::from)?;
        }
        self.show(h, Shows::Nothing);
        Ok(())
    }

    /// The flight with this ticket is none of those that were stopped any more.
    pub fn let_leave(&mut self, ticket: u64)
        ensures { self.new ≡ record self.old { stopped = filter (λ u. not (u == ticket)) self.old.stopped } }
    {
        drop_ticket(&mut self.stopped, ticket);
    }

    /// Takes an object away; `None` exactly where there is no such object.
    pub fn remove(&mut self, h: Handle) -> Option<Object>
        ensures value { result ≡ object_at self.old h }
        ensures stage { self.new ≡ record self.old { objects = remove_entry (is_at (nat_cmp h)) self.old.objects } }
    {
        self.objects.remove(h)
    }

    /// Ends the flight with this ticket: its frame shows something else.
    pub fn end_flights(&mut self, ticket: u64, shows: Shows)
        ensures { self.new ≡ end_flights ticket (phase_of shows) self.old }
    {
        let next = self.next();
        for h in 1..next.0 {
            self.end_flight(Handle(h), ticket, shows);
        }
    }

    /// Ends the flight with this ticket, if its frame has this handle.
    fn end_flight(&mut self, h: Handle, ticket: u64, shows: Shows)
        ensures { self.new ≡ changed_at h (end_flight ticket (phase_of shows)) self.old }
    {
        if let Some(object) = self.objects.get_mut(h) {
            object.end_flight(ticket, shows);
        }
    }
}

/// Takes a ticket away.
fn drop_ticket(tickets: &mut Vec<u64>, ticket: u64)
    ensures { tickets.new.items ≡ filter (λ u. not (u == ticket)) tickets.old.items }
{
    tickets.retain(|stopped| *stopped != ticket);
}

/// A loan for a parameter has come back as the array with this handle.
#[tactic(auto, using(crate::proofs::Entries::written_back))]
fn replace_loan(
    objects: &mut Table<Object>,
    h: Handle,
    name: &Name,
    number: u64,
    made: Handle,
) -> Result<(), NoMemory>
    ensures ok { OnOk result (objects.new ≡ changed_in h (λ o. set_staged (with_value name.now (Value.Object ty.Array1D made)) (end_parameter_loan number o)) objects.old) }
    ensures spare { objects.new.spare ≡ objects.old.spare }
    ensures next { objects.new.next ≡ objects.old.next }
    ensures err { OnErr result (objects.new ≡ objects.old) }
{
    let Some(object) = objects.get_mut(h) else {
        return Ok(());
    };
    object.take_in(name, number, made)
}
