//! The device, and the calls that all others are made of.
ghost use Rattle.std.specs.Prelude.{◌≡◌, ◌≤◌, ◌^◌, [], Some, false, IfErr, IfOk};
ghost use Rattle.device_core.specs.Stepping.{IsAwake};
ghost use Rattle.device_parts.specs.Makes.{Hands};
ghost use Rattle.seq_model.specs.Steps.{Past};
ghost use Rattle.turn_lock.specs.Histories.{AreApart, Extends, longer, merged};
ghost use Rattle.turn_lock.specs.Passes.{IsPassOf, caller_number, fixed, holding, mine, seen, share};
ghost use Rattle.turn_lock.specs.Views.{both_shares, half, whole};
ghost use Rattle.device_calls.specs.Passes.{HasCalled, HasDeclined, Sees};

use crate::fixed::Fixed;
use crate::state::SharedState;
use dev_types::{Client, NoMemory, Refused};
use device_core::Handed;
use seq_model::{Call, Entry, Reply};
use std::alloc::Global;
use std::sync::Wait;
use turn_lock::Turn;

/// The right to call a device, and what was seen and called with it.
pub type Pass = turn_lock::Pass<Entry, Fixed>;

/// A device, which threads share by reference. Each call is one hold of the turn: a sweep of the
/// flights, the call, and another sweep; tiles are rendered outside it.
#[derive(Drop)]
pub struct Device<C: Client> {
    pub(crate) turn: Turn<SharedState<C>>,
}

impl<C: Client> Device<C> {
    /// A device on which nothing happened, and its first pass: of caller 0, with the whole turn for its
    /// share. Its journal takes so many entries at most, the close among them: 2 to 1048576.
    ///
    /// # Errors
    /// `NoMemory`; the client comes back.
    pub fn new(alloc: Global, client: C, limit: u32) -> Result<(Device<C>, Pass), (NoMemory, C)>
        requires some { 2 ≤ limit }
        requires few { limit ≤ 2 ^ 20 }
        ensures pass { IfOk result (λ d. IsPassOf d.0.turn d.1 × (holding d.1 ≡ false)) }
        ensures caller { IfOk result (λ d. caller_number d.1 ≡ 0) }
        ensures seen { IfOk result (λ d. (seen d.1 ≡ []) × (mine d.1 ≡ [])) }
        ensures share { IfOk result (λ d. share d.1 ≡ whole) }
        ensures fixed { IfOk result (λ d. fixed d.1
            ≡ Some (record { limit = limit; notices = C.notices client })) }
        ensures refused { IfErr result (λ e. C.notices e.1 ≡ C.notices client) }
    {
        let state = SharedState::new(alloc, client, limit)?;
        match Turn::new(alloc, state) {
            Ok((turn, pass)) => Ok((Device { turn }, pass)),
            Err((none, state)) => Err((none, state.into_client())),
        }
    }

    /// Another pass, with this caller number, which has seen as much and made no call. It has one half
    /// of the share, and the pass keeps the other. Takes no memory.
    pub fn split(&self, pass: &mut Pass, caller: u32) -> Pass
        requires pass { IsPassOf self.now.turn pass.old }
        requires idle { holding pass.old ≡ false }
        ensures pass { IsPassOf self.now.turn pass.new × (holding pass.new ≡ false) }
        ensures same_caller { caller_number pass.new ≡ caller_number pass.old }
        ensures same_seen { seen pass.new ≡ seen pass.old }
        ensures same_mine { mine pass.new ≡ mine pass.old }
        ensures same_fixed { fixed pass.new ≡ fixed pass.old }
        ensures halved { share pass.new ≡ half (share pass.old) }
        ensures other { IsPassOf self.now.turn result × (holding result ≡ false) }
        ensures caller { caller_number result ≡ caller }
        ensures seen { seen result ≡ seen pass.old }
        ensures mine { mine result ≡ [] }
        ensures fixed { fixed result ≡ fixed pass.old }
        ensures share { share result ≡ half (share pass.old) }
    {
        self.turn.split(pass, caller)
    }

    /// Takes in another pass of this device: its share and its places, and what it has seen where that
    /// is more. The two have no place in common. Takes no memory.
    pub fn join(&self, pass: &mut Pass, other: Pass)
        requires pass { IsPassOf self.now.turn pass.old × IsPassOf self.now.turn other }
        requires idle { (holding pass.old ≡ false) × (holding other ≡ false) }
        ensures pass { IsPassOf self.now.turn pass.new × (holding pass.new ≡ false) }
        ensures caller { caller_number pass.new ≡ caller_number pass.old }
        ensures seen { seen pass.new ≡ longer (seen pass.old) (seen other) }
        ensures mine { mine pass.new ≡ merged (mine pass.old) (mine other) }
        ensures later { Extends (seen pass.old) (seen pass.new) × Extends (seen other) (seen pass.new) }
        ensures apart { AreApart (mine pass.old) (mine other) }
        ensures share { share pass.new ≡ both_shares (share pass.old) (share other) }
        ensures fixed { fixed pass.new ≡ fixed pass.old }
    {
        self.turn.join(pass, other);
    }

    /// Takes memory for so many calls, whoever makes them.
    ///
    /// # Errors
    /// `NoMemory`.
    pub fn reserve_calls<R: Wait>(
        &self,
        rt: &R,
        alloc: Global,
        pass: &mut Pass,
        n: u32,
    ) -> Result<(), NoMemory>
        requires pass { IsPassOf self.now.turn pass.old }
        requires idle { holding pass.old ≡ false }
        ensures pass { IsPassOf self.now.turn pass.new × (holding pass.new ≡ false) }
        ensures sees { Sees pass.old pass.new }
        ensures mine { mine pass.new ≡ mine pass.old }
    {
        let mut held = self.turn.enter(rt, pass);
        let reserved = held.state.reserve_calls(alloc, n);
        self.turn.leave(pass, held);
        reserved
    }

    /// Makes a call, as a value, in one hold; one that waits for a flight is made by
    /// [`Device::ready_with`]. The loan that it ends goes with it; the loan that it hands out, or
    /// that a refused unmap gives back, comes with the reply.
    ///
    /// # Errors
    /// `JournalFull` exactly where the journal has no place left for the call and what it owes, else
    /// `NoMemory`; the call and the loan come back.
    pub fn make<R: Wait>(
        &self,
        rt: &R,
        alloc: Global,
        pass: &mut Pass,
        call: Call,
        with: Handed,
    ) -> Result<(Reply, Handed), (Refused, Call, Handed)>
        requires pass { IsPassOf self.now.turn pass.old }
        requires idle { holding pass.old ≡ false }
        requires awake { (past : Past) → IsAwake past call }
        requires hands { Hands call with }
        ensures pass { IsPassOf self.now.turn pass.new × (holding pass.new ≡ false) }
        ensures sees { Sees pass.old pass.new }
        ensures made { IfOk result (λ r. HasCalled call with r.0 r.1 pass.old pass.new) }
        ensures declined { IfErr result (λ e. HasDeclined call e.0 pass.old pass.new) }
        ensures returned { IfErr result (λ e. (e.1 ≡ call) × (e.2 ≡ with)) }
    {
        let mut held = self.turn.enter(rt, pass);
        let made = held.state.step(alloc, pass.caller(), call, with);
        self.turn.leave(pass, held);
        made
    }
}
