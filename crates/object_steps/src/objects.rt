//! The objects of a device, with room for the ends of all of them.
ghost use Rattle.std.specs.Prelude.{◌≡◌, ◌+◌, ◌-◌, ◌++◌, ◌<◌, ◌≤◌, ◌^◌, [], IfErr, IfOk, IsOk, IsSome, OnErr, OnOk, length, true, vec_capacity};
ghost use Rattle.std.specs.BTreeMap.{is_at};
ghost use Rattle.std.specs.List.{filter_map};
ghost use Rattle.std.specs.Map.{keys_of, set_value};
ghost use Rattle.std.specs.Option.{is_some};
ghost use Rattle.std.specs.Ordering.{nat_cmp};
ghost use Rattle.call_answers.specs.Plain.{needs_no_memory};
ghost use Rattle.object_store.specs.Ends.{ended, notice_of};
ghost use Rattle.object_store.specs.Gathers.{IsLeft, buried};
ghost use Rattle.object_store.specs.Kept.{number_at};
ghost use Rattle.object_store.specs.Parts.{at};
ghost use Rattle.seq_model.specs.Soundness.{IsRanked};
ghost use Rattle.seq_model.specs.State.{empty, object_at};
ghost use Rattle.seq_model.specs.Told.{end_of_object, gone};
ghost use Rattle.object_steps.specs.Carrying.{CanCarry, GivesBack, carried, handed};
ghost use Rattle.object_steps.specs.Objects.{is_birth, one_if, takes_memory, tellable};

use crate::array_loans::ArrayLoan;
use crate::changes::carry_out;
use dev_types::{Client, Handle, NoMemory, Origin};
use object_store::dead::Dead;
use object_store::store::Store;
use seq_model::{Call, Reply};
use std::alloc::Global;
use std::marker::Model;

/// The objects of a device, with room for the ends of all of them, so that dying takes no memory.
#[derive(Drop)]
pub struct ObjectStore {
    pub(crate) store: Store,
    // How many objects there are.
    pub(crate) count: usize,
    // Of the ends of how many the client is to be told.
    pub(crate) tellable: usize,
    // The arrays that died with the last burial, of whose end nothing was told yet.
    pub(crate) dead: Dead,
    // The handles of all that died with the last burial.
    pub(crate) departed: Vec<Handle>,
}

impl Model for ObjectStore {
    ghost use Rattle.std.specs.Prelude.{vec_capacity};
    ghost use Rattle.object_steps.specs.Objects.{HasPlaces, Objects};

    ghost Value = { Objects };

    ghost view = { λ o. record {
      stored = o.store;
      departed = o.departed.items;
      dead = o.dead.list;
    } };

    ghost invariant = { λ o. HasPlaces o.store o.dead o.count o.tellable (vec_capacity o.departed) };
}

impl ObjectStore {
    /// No objects, which takes no memory.
    pub fn new(alloc: Global) -> ObjectStore
        ensures state { result.stored.state ≡ empty }
        ensures public { result.stored.public ≡ [] }
        ensures holds { result.stored.holds ≡ [] }
        ensures dead { result.dead ≡ [] }
    {
        ObjectStore {
            store: Store::new(alloc),
            count: 0,
            tellable: 0,
            dead: Dead::new(alloc),
            departed: Vec::new(alloc),
        }
    }

    /// The objects, as they are read.
    pub fn store(&self) -> &Store
        ensures { result.now ≡ self.now.stored }
    {
        &self.store
    }

    /// The handles of the objects that died with the last burial, by rising handle.
    pub fn departed(&self) -> &[Handle]
        ensures { result.now ≡ self.now.departed }
    {
        &self.departed
    }

    /// The public references to an object; `None` exactly where it is not there.
    pub fn public(&self, h: Handle) -> Option<u64>
        ensures value { result ≡ at h self.now.stored.public }
        ensures there { is_some result ≡ is_some (object_at self.now.stored.state h) }
    {
        self.store.public(h)
    }

    /// Of how many ends the client is to be told: how many arrays there are whose memory the
    /// application gave.
    pub fn tellable(&self) -> usize
        ensures { result ≡ tellable self.now.stored.state }
    {
        self.tellable
    }

    /// Makes room for one more object, and for its end.
    ///
    /// # Errors
    /// `NoMemory`; all is then as it was.
    pub fn make_room(&mut self, alloc: Global) -> Result<(), NoMemory>
        ensures room { OnOk result (self.new ≡ record self.old {
          stored = record self.old.stored { ready = true };
        }) }
        ensures err { OnErr result (self.new ≡ self.old) }
    {
        let Some(more) = self.count.checked_add(1) else {
            return Err(NoMemory);
        };
        self.dead.reserve(more)?;
        reserve_places(&mut self.departed, more)?;
        self.store.make_room(alloc)
    }

    /// What the call at a place does to the objects by its reply, as `changes::carry_out`.
    ///
    /// # Errors
    /// `NoMemory`; the loan comes back, and all is as it was.
    pub fn carry_out(
        &mut self,
        alloc: Global,
        place: u64,
        call: &Call,
        reply: &Reply,
        loan: ArrayLoan,
    ) -> Result<ArrayLoan, (NoMemory, ArrayLoan)>
        requires can { CanCarry self.old.stored call.now reply.now }
        requires brings { GivesBack call.now reply.now loan }
        ensures ok { OnOk result (self.new ≡ record self.old {
          stored = carried place call.now reply.now self.old.stored;
        }) }
        ensures handed { IfOk result (λ l. l ≡ handed place call.now reply.now
            self.old.stored.state loan) }
        ensures returned { IfErr result (λ e. e.1 ≡ loan) }
        ensures err { OnErr result (self.new ≡ self.old) }
        ensures no_memory { needs_no_memory call.now ≡ true → IsOk result }
    {
        let out = match carry_out(&mut self.store, alloc, place, call, reply, loan) {
            Ok(out) => out,
            Err(refused) => return Err(refused),
        };
        self.count += one_if(is_birth(call, reply));
        self.tellable += one_if(takes_memory(call, reply));
        Ok(out)
    }

    /// Takes away all objects that do not live. The arrays among them are dead, by rising handle, and
    /// of their ends nothing is told yet. This takes no memory.
    pub fn gather(&mut self)
        requires ranked { IsRanked self.old.stored.state.objects }
        requires none { self.old.dead ≡ [] }
        ensures state { self.new.stored.state ≡ buried self.old.stored }
        ensures left { IsLeft self.old.stored self.new.stored }
        ensures departed { self.new.departed ≡ keys_of (gone self.old.stored.state
            self.new.stored.state) }
        ensures dead { self.new.dead ≡ ended (gone self.old.stored.state self.new.stored.state) }
        ensures notices { filter_map notice_of self.new.dead ≡ filter_map end_of_object (gone
            self.old.stored.state self.new.stored.state) }
    {
        self.departed.clear();
        self.store.gather(&mut self.dead, &mut self.departed);
        self.count -= self.departed.len();
        self.tellable -= self.dead.notices();
    }

    /// Tells the client of the ends of the arrays that are dead. This takes no memory.
    pub fn tell<C: Client>(&mut self, client: &mut C)
        requires { length (filter_map notice_of self.old.dead) ≤ C.spare client.old }
        ensures none { self.new ≡ record self.old { dead = [] } }
        ensures told { C.notices client.new ≡ C.notices client.old ++ filter_map notice_of
            self.old.dead }
        ensures room { C.spare client.old ≤ C.spare client.new + length (filter_map notice_of
            self.old.dead) }
    {
        self.dead.tell(client);
    }

    /// Takes away all objects that do not live, and tells the client of their ends by rising handle.
    /// This takes no memory.
    pub fn bury<C: Client>(&mut self, client: &mut C)
        requires ranked { IsRanked self.old.stored.state.objects }
        requires none { self.old.dead ≡ [] }
        requires spare { tellable self.old.stored.state ≤ C.spare client.old }
        ensures state { self.new.stored.state ≡ buried self.old.stored }
        ensures left { IsLeft self.old.stored self.new.stored }
        ensures departed { self.new.departed ≡ keys_of (gone self.old.stored.state
            self.new.stored.state) }
        ensures dead { self.new.dead ≡ [] }
        ensures told { C.notices client.new ≡ C.notices client.old ++ filter_map end_of_object
            (gone self.old.stored.state self.new.stored.state) }
        ensures room { C.spare client.old ≤ C.spare client.new + length (filter_map end_of_object
            (gone self.old.stored.state self.new.stored.state)) }
    {
        self.gather();
        self.tell(client);
    }

    /// All objects end, as with a close, and the client is told of their ends by rising handle.
    /// Handles go on from where they were. This takes no memory.
    pub fn clear<C: Client>(&mut self, client: &mut C)
        requires none { self.old.dead ≡ [] }
        requires spare { tellable self.old.stored.state ≤ C.spare client.old }
        ensures state { self.new.stored.state ≡ record self.old.stored.state { objects = [] } }
        ensures public { self.new.stored.public ≡ [] }
        ensures holds { self.new.stored.holds ≡ [] }
        ensures departed { self.new.departed ≡ [] }
        ensures dead { self.new.dead ≡ [] }
        ensures told { C.notices client.new ≡ C.notices client.old ++ filter_map end_of_object
            self.old.stored.state.objects }
        ensures room { C.spare client.old ≤ C.spare client.new + length (filter_map end_of_object
            self.old.stored.state.objects) }
    {
        self.departed.clear();
        self.store.clear(*self.departed.allocator(), &mut self.dead);
        self.count = 0;
        self.tellable = 0;
        self.tell(client);
    }

    /// All objects end, and the client is told of their ends by rising handle. This takes no memory.
    pub fn close<C: Client>(self, client: &mut C)
        requires none { self.dead ≡ [] }
        requires spare { tellable self.stored.state ≤ C.spare client.old }
        ensures told { C.notices client.new ≡ C.notices client.old ++ filter_map end_of_object
            self.stored.state.objects }
        ensures room { C.spare client.old ≤ C.spare client.new + length (filter_map end_of_object
            self.stored.state.objects) }
    {
        let mut objects = self;
        objects.clear(client);
    }

    /// One flight more holds an object, which is there.
    pub fn hold(&mut self, h: Handle)
        requires there { IsSome (object_at self.old.stored.state h) }
        requires few { number_at self.old.stored.holds h < 2 ^ 40 }
        ensures { self.new ≡ record self.old {
          stored = record self.old.stored {
            holds = set_value (is_at (nat_cmp h)) self.old.stored.holds
                (number_at self.old.stored.holds h + 1);
          };
        } }
    {
        self.store.hold(h);
    }

    /// One flight less holds an object.
    pub fn unhold(&mut self, h: Handle)
        requires { 1 ≤ number_at self.old.stored.holds h }
        ensures { self.new ≡ record self.old {
          stored = record self.old.stored {
            holds = set_value (is_at (nat_cmp h)) self.old.stored.holds
                (number_at self.old.stored.holds h - 1);
          };
        } }
    {
        self.store.unhold(h);
    }
}

/// Whether a call makes an object by its reply.
fn is_birth(call: &Call, reply: &Reply) -> bool
    ensures { result ≡ is_birth call.now reply.now }
{
    matches!(reply, Reply::Made(_))
        && matches!(
            call,
            Call::NewObject { .. } | Call::NewArray { .. } | Call::UnmapParameterArray { .. }
        )
}

/// Whether a call makes, by its reply, an array of memory that the application gave.
fn takes_memory(call: &Call, reply: &Reply) -> bool
    ensures { result ≡ takes_memory call.now reply.now }
{
    match (call, reply) {
        (Call::NewArray { origin, .. }, Reply::Made(_)) => !matches!(origin, Origin::Managed),
        _ => false,
    }
}

fn one_if(test: bool) -> usize
    ensures { result ≡ one_if test }
{
    if test { 1 } else { 0 }
}

/// Makes room for so many handles, in all.
fn reserve_places(handles: &mut Vec<Handle>, places: usize) -> Result<(), NoMemory>
    ensures items { handles.new.items ≡ handles.old.items }
    ensures room { OnOk result (places ≤ vec_capacity handles.new) }
    ensures grows { vec_capacity handles.old ≤ vec_capacity handles.new }
{
    handles.reserve(places)?;
    Ok(())
}
