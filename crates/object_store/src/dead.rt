//! The arrays that die with one entry, and the client that is told of them.
ghost use Rattle.std.specs.Prelude.{◌≡◌, ◌+◌, ◌<◌, ◌≤◌, ◌∷◌, ◌++◌, [], IfNone, OnOk, length, reverse, vec_capacity};
ghost use Rattle.std.specs.List.{cons_option, filter_map};
ghost use Rattle.std.specs.List.Sorted.{IsNonDecreasing, IsNonDecreasingBy, IsPermutation};
ghost use Rattle.std.specs.Option.{option_to_list};
ghost use Rattle.object_store.specs.Ends.{death_of, notice_of};

use array_objects::Block;
use dev_types::{Bytes, Client, Handle, NoMemory, Origin};
use std::alloc::Global;
use std::marker::Model;

/// An array that died: its bytes as they were last, and where their memory comes from.
#[derive(Drop)]
pub struct Ended {
    pub source: Handle,
    pub bytes: Bytes,
    pub origin: Origin,
}

impl Model for Ended {
    ghost use Rattle.object_store.specs.Ends.{Ended as End};

    ghost Value = { End };

    ghost view = { λ e. (e.source, (e.bytes, e.origin)) };
}

/// The arrays that died with one entry and were not told yet.
#[derive(Drop)]
pub struct Dead {
    // The next to be told stands last.
    ended: Vec<Ended>,
}

impl Model for Dead {
    ghost use Rattle.std.specs.Prelude.{reverse, vec_capacity};
    ghost use Rattle.object_store.specs.Ends.{Ends};

    ghost Value = { Ends };

    ghost view = { λ d. record { list = reverse d.ended.items; room = vec_capacity d.ended } };
}

impl Dead {
    /// No arrays, which takes no memory.
    pub fn new(alloc: Global) -> Dead
        ensures { result.list ≡ [] }
    {
        Dead {
            ended: Vec::new(alloc),
        }
    }

    /// Makes room for `more` arrays beside those that are there.
    ///
    /// # Errors
    /// `NoMemory`; the arrays are then as they were.
    #[tactic(auto, using(crate::proofs::Reversed::reversed_length))]
    pub fn reserve(&mut self, more: usize) -> Result<(), NoMemory>
        ensures list { self.new.list ≡ self.old.list }
        ensures room { OnOk result (length self.old.list + more ≤ self.new.room) }
        ensures grows { self.old.room ≤ self.new.room }
    {
        self.ended.reserve(more)?;
        Ok(())
    }

    /// Of an object that died, the array, if it was one, stands first; there is room for it.
    pub fn add(&mut self, death: (Handle, Option<Block>))
        requires { length (option_to_list (death_of death)) + length self.old.list ≤ self.old.room }
        ensures { self.new ≡ record self.old {
          list = cons_option (death_of death)
              self.old.list;
        } }
    {
        let (source, block) = death;
        if let Some(Block { bytes, origin, .. }) = block {
            self.push(Ended {
                source,
                bytes,
                origin,
            });
        }
    }

    /// One more array stands first; there is room for it.
    #[tactic(auto, using(crate::proofs::Reversed::reversed_length, crate::proofs::Reversed::reversed_with))]
    fn push(&mut self, ended: Ended)
        requires { length self.old.list < self.old.room }
        ensures { self.new ≡ record self.old { list = ended ∷ self.old.list } }
    {
        self.ended.push_reserved(ended);
    }

    /// Brings the arrays into the order of their handles.
    pub fn order(&mut self)
        ensures same { IsPermutation self.old.list self.new.list }
        ensures rising { IsNonDecreasingBy (λ e. e.0) self.new.list }
        ensures room { self.new.room ≡ self.old.room }
    {
        order_by_handle(&mut self.ended);
        turn_round(&mut self.ended);
    }

    /// Takes the first array out.
    #[tactic(auto, using(crate::proofs::Reversed::reversed_taken, crate::proofs::Reversed::reversed_none))]
    pub fn next(&mut self) -> Option<Ended>
        ensures list { self.old.list ≡ option_to_list result ++ self.new.list }
        ensures none { IfNone result (self.old.list ≡ []) }
        ensures room { self.new.room ≡ self.old.room }
    {
        self.ended.pop()
    }

    /// Of how many of the arrays the client is to be told: of those whose memory the application gave.
    #[tactic(auto, using(crate::proofs::Reversed::reversed_collected))]
    pub fn notices(&self) -> usize
        ensures { result ≡ length (filter_map notice_of self.now.list) }
    {
        notices_of(self.ended.as_slice())
    }

    /// Tells the client of the end of each array whose memory the application gave, in their order.
    /// This takes no memory.
    pub fn tell<C: Client>(&mut self, client: &mut C)
        requires { length (filter_map notice_of self.old.list) ≤ C.spare client.old }
        ensures list { self.new ≡ record self.old { list = [] } }
        ensures told { C.notices client.new ≡ C.notices client.old ++ filter_map notice_of
            self.old.list }
        ensures room { C.spare client.old ≤ C.spare client.new + length (filter_map notice_of
            self.old.list) }
    {
        while let Some(ended) = self.next() {
            tell_end(ended, client);
        }
    }
}

/// Of how many of these arrays the client is to be told.
fn notices_of(ended: &[Ended]) -> usize
    ensures { result ≡ length (filter_map notice_of ended.now) }
{
    let mut count = 0;
    for e in ended {
        count += notice_count(e);
    }
    count
}

/// One where the client is to be told of the array, else none.
fn notice_count(ended: &Ended) -> usize
    ensures { result ≡ length (option_to_list (notice_of ended.now)) }
{
    match ended.origin {
        Origin::Managed => 0,
        _ => 1,
    }
}

/// Brings the arrays into the order of their handles.
fn order_by_handle(ended: &mut Vec<Ended>)
    ensures same { IsPermutation ended.old.items ended.new.items }
    ensures rising { IsNonDecreasingBy (λ e. e.0) ended.new.items }
    ensures room { vec_capacity ended.new ≡ vec_capacity ended.old }
{
    ended.sort_unstable_by_key(|e| e.source);
}

/// Brings the handles of the dead into their order.
pub fn order_handles(handles: &mut Vec<Handle>)
    ensures same { IsPermutation handles.old.items handles.new.items }
    ensures rising { IsNonDecreasing handles.new.items }
    ensures room { vec_capacity handles.new ≡ vec_capacity handles.old }
{
    handles.sort_unstable();
}

/// Brings the arrays into the opposite order.
fn turn_round(ended: &mut Vec<Ended>)
    ensures items { ended.new.items ≡ reverse ended.old.items }
    ensures room { vec_capacity ended.new ≡ vec_capacity ended.old }
{
    ended.reverse();
}

/// Tells the client of the end of an array, if the application gave its memory.
fn tell_end<C: Client>(ended: Ended, client: &mut C)
    requires { length (option_to_list (notice_of ended)) ≤ C.spare client.old }
    ensures told { C.notices client.new ≡ C.notices client.old ++ option_to_list (notice_of ended) }
    ensures room { C.spare client.old ≡ C.spare client.new + length (option_to_list (notice_of
        ended)) }
{
    let Ended {
        source,
        bytes,
        origin,
    } = ended;
    match origin {
        Origin::Captured(user) => client.deleted(source, user, bytes),
        Origin::Shared(user) => client.let_go(source, user),
        Origin::Managed => {}
    }
}
