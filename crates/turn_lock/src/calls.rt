//! The calls of a turn.
ghost use Rattle.std.specs.Prelude.{◌≡◌, ◌++◌, Some, true, false, [], length, IfOk, IfErr};
ghost use Rattle.turn_lock.specs.Histories.{Extends, AddsOneCall, AreApart, AreRising, callers, places, new_places, merged, longer};
ghost use Rattle.turn_lock.specs.Views.{half, both_shares, whole, IsWhole};
ghost use Rattle.turn_lock.specs.Passes.{caller_number, holding, seen, mine, share, fixed, known, entered, IsPassOf, IsHeldOf};

use crate::journaled::Journaled;
use crate::pass::Pass;
use crate::turn::{Held, Turn};
use atomic_table::{Badge, Table};
use dev_types::NoMemory;
use std::alloc::{AllocFailed, Global};
use std::mem;
use std::snapshot::Snapshot;
use std::sync::Wait;

impl<E, F> Pass<E, F> {
    /// The length of the history as far as the pass has seen it, in entries. The places of the
    /// pass's own entries rise within it, from 1 on. While its state is in hand, what a pass has
    /// seen is told by the [`Held`].
    pub fn seen_len(&self) -> u64
        ensures length { holding self.now ≡ false → result ≡ length (seen self.now) }
        ensures rising { holding self.now ≡ false → AreRising 0 result (mine self.now) }
    {
        self.seen_len
    }

    /// The pass's caller number.
    pub fn caller(&self) -> u32
        ensures { result ≡ caller_number self.now }
    {
        self.caller
    }
}

impl<S: Journaled> Turn<S> {
    /// A turn with this state, and its first pass: of caller 0, with the whole turn for its share,
    /// which has seen nothing and made no call. No entry of the state's history may have a caller
    /// yet.
    ///
    /// # Errors
    ///
    /// Where memory is short, the state comes back unchanged.
    pub fn new(
        alloc: Global,
        state: S,
    ) -> Result<(Turn<S>, Pass<S::Entry, S::Fixed>), (NoMemory, S)>
        requires uncalled { callers S.by (S.history state) ≡ [] }
        ensures pass { IfOk result (λ t. IsPassOf t.0 t.1 × (holding t.1 ≡ false)) }
        ensures caller { IfOk result (λ t. caller_number t.1 ≡ 0) }
        ensures seen { IfOk result (λ t. (seen t.1 ≡ []) × (mine t.1 ≡ [])) }
        ensures share { IfOk result (λ t. share t.1 ≡ whole) }
        ensures fixed { IfOk result (λ t. fixed t.1 ≡ Some (S.fixed state)) }
        ensures err { IfErr result (λ e. e.1 ≡ state) }
    {
        let about = Snapshot::of(&state);
        let Ok(mut slots) = Vec::with_capacity(alloc, 1) else {
            return Err((NoMemory, state));
        };
        slots.push_reserved(Some(state));
        match Table::new(alloc, &[0], slots, &about) {
            Ok((table, seat)) => {
                let pass = Pass {
                    badge: seat.into_badge(),
                    caller: 0,
                    seen_len: 0,
                    holding: false,
                };
                Ok((Turn { table }, pass))
            }
            Err(refused) => {
                let mut slots = refused.slots;
                let state = slots.pop().unwrap().unwrap();
                slots.destroy_empty();
                Err((NoMemory, state))
            }
        }
    }

    /// Waits until no one has the state in hand, and takes it as it was last left. Its history
    /// begins with all that the pass has seen.
    ///
    /// While it waits it sleeps, and costs no processor time: a thread that finds the turn taken
    /// parks on its word, and [`Turn::leave`] wakes one that parks there. A thread that comes just
    /// then may overtake the one that wakes, which parks again. The state may be in hand for long,
    /// so a spinning wait would not do.
    pub fn enter<R: Wait>(&self, rt: &R, pass: &mut Pass<S::Entry, S::Fixed>) -> Held<S>
        requires pass { IsPassOf self.now pass.old }
        requires idle { holding pass.old ≡ false }
        ensures held { IsHeldOf self.now pass.new result }
        ensures begins { Extends (seen pass.old) (S.history result.state) }
        ensures fixed { fixed pass.old ≡ Some (S.fixed result.state) }
        ensures entered { entered result ≡ S.history result.state }
        ensures caller { caller_number pass.new ≡ caller_number pass.old }
        ensures seen { (known result).seen ≡ seen pass.old }
        ensures mine { (known result).mine ≡ mine pass.old }
        ensures share { (known result).share ≡ share pass.old }
        ensures same_fixed { (known result).fixed ≡ fixed pass.old }
    {
        let mut seat = mem::replace(&mut pass.badge, Badge::blank()).into_seat();
        pass.holding = true;
        let state = self.take(rt, &mut seat);
        let stub = Snapshot::of(&pass.badge);
        Held { state, seat, stub }
    }

    /// Leaves the state for the next, and wakes one that waits for it.
    ///
    /// The history begins with the one that [`Turn::enter`] gave, and at most one entry more has a
    /// caller, which is the pass's. Afterwards the pass has seen this history, and that entry's
    /// place is the last of its own.
    pub fn leave(&self, pass: &mut Pass<S::Entry, S::Fixed>, held: Held<S>)
        requires held { IsHeldOf self.now pass.old held }
        requires fixed { (known held).fixed ≡ Some (S.fixed held.state) }
        requires history { AddsOneCall S.by (caller_number pass.old) (entered held)
            (S.history held.state) }
        ensures pass { IsPassOf self.now pass.new × (holding pass.new ≡ false) }
        ensures caller { caller_number pass.new ≡ caller_number pass.old }
        ensures seen { seen pass.new ≡ S.history held.state }
        ensures mine { mine pass.new
            ≡ (known held).mine ++ new_places S.by (entered held) (S.history held.state) }
        ensures share { share pass.new ≡ (known held).share }
        ensures fixed { fixed pass.new ≡ (known held).fixed }
    {
        let Held {
            state,
            mut seat,
            stub: _,
        } = held;
        pass.seen_len = state.history_len();
        self.put(&mut seat, state);
        pass.badge = seat.into_badge();
        pass.holding = false;
    }

    /// Another pass, with this caller number, which has seen as much and made no call. It has one
    /// half of the share, and the pass keeps the other.
    pub fn split(
        &self,
        pass: &mut Pass<S::Entry, S::Fixed>,
        caller: u32,
    ) -> Pass<S::Entry, S::Fixed>
        requires pass { IsPassOf self.now pass.old }
        requires idle { holding pass.old ≡ false }
        ensures pass { IsPassOf self.now pass.new × (holding pass.new ≡ false) }
        ensures same_caller { caller_number pass.new ≡ caller_number pass.old }
        ensures same_seen { seen pass.new ≡ seen pass.old }
        ensures same_mine { mine pass.new ≡ mine pass.old }
        ensures same_fixed { fixed pass.new ≡ fixed pass.old }
        ensures halved { share pass.new ≡ half (share pass.old) }
        ensures other { IsPassOf self.now result × (holding result ≡ false) }
        ensures caller { caller_number result ≡ caller }
        ensures seen { seen result ≡ seen pass.old }
        ensures mine { mine result ≡ [] }
        ensures fixed { fixed result ≡ fixed pass.old }
        ensures share { share result ≡ half (share pass.old) }
    {
        let mut seat = mem::replace(&mut pass.badge, Badge::blank()).into_seat();
        let other = self.halve(&mut seat);
        pass.badge = seat.into_badge();
        Pass {
            badge: other.into_badge(),
            caller,
            seen_len: pass.seen_len,
            holding: false,
        }
    }

    /// Takes in another pass of this turn: its share and its places, and what it has seen where
    /// that is more. The two have no place in common.
    pub fn join(&self, pass: &mut Pass<S::Entry, S::Fixed>, other: Pass<S::Entry, S::Fixed>)
        requires pass { IsPassOf self.now pass.old × IsPassOf self.now other }
        requires idle { (holding pass.old ≡ false) × (holding other ≡ false) }
        ensures pass { IsPassOf self.now pass.new × (holding pass.new ≡ false) }
        ensures caller { caller_number pass.new ≡ caller_number pass.old }
        ensures seen { seen pass.new ≡ longer (seen pass.old) (seen other) }
        ensures mine { mine pass.new ≡ merged (mine pass.old) (mine other) }
        ensures later { Extends (seen pass.old) (seen pass.new) × Extends (seen other) (seen pass.new) }
        ensures apart { AreApart (mine pass.old) (mine other) }
        ensures share { share pass.new ≡ both_shares (share pass.old) (share other) }
        ensures fixed { fixed pass.new ≡ fixed pass.old }
    {
        let mut seat = mem::replace(&mut pass.badge, Badge::blank()).into_seat();
        pass.seen_len = pass.seen_len.max(other.seen_len);
        let Pass { badge, .. } = other;
        self.merge(&mut seat, badge.into_seat());
        pass.badge = seat.into_badge();
    }

    /// The state as it was last left, for the pass that has the whole turn for its share. Each
    /// called entry of its history was made with this pass, or with one that it took in.
    pub fn close(self, pass: Pass<S::Entry, S::Fixed>) -> S
        requires pass { IsPassOf self pass }
        requires idle { holding pass ≡ false }
        requires whole { IsWhole (share pass) }
        ensures begins { Extends (seen pass) (S.history result) }
        ensures fixed { fixed pass ≡ Some (S.fixed result) }
        ensures mine { mine pass ≡ places S.by (S.history result) }
    {
        let Turn { table } = self;
        let Pass { badge, .. } = pass;
        let mut closed = table.close_with(badge.into_seat());
        let state = closed.take(0);
        closed.free();
        state.unwrap()
    }
}
