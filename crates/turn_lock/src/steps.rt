//! The steps of a turn, on a seat at its table.
ghost use Rattle.std.specs.Prelude.{◌≡◌, ◌<◌, Some, None, true, false, [], ◌∷◌, IfSome, IfNone};
ghost use Rattle.turn_lock.specs.Histories.{Extends};
ghost use Rattle.turn_lock.specs.Views.{PlacesRise, entering, leaving, halved, beside, joined};

use crate::journaled::Journaled;
use crate::rule::{Grab, Halve, LetGo, Look, Merge};
use crate::turn::Turn;
use crate::view::View;
use atomic_table::Seat;
use std::sync::Wait;

impl<S: Journaled> Turn<S> {
    // Takes the turn where it is free, and then the state out of its slot.
    fn try_take(&self, seat: &mut Seat<Option<S>, View<S::Entry, S::Fixed>>) -> Option<S>
        requires table { seat.old.table_id ≡ self.now.table.shared.table_id }
        requires empty { seat.old.me.1 ≡ [] }
        requires unspent { 0 < seat.old.me.0.share.parts }
        ensures seat { (seat.new.table_id ≡ seat.old.table_id) × (seat.new.id ≡ seat.old.id) }
        ensures some { IfSome result (λ x. seat.new.me
            ≡ (entering seat.old.me.0 (S.history x), (0, None) ∷ [])) }
        ensures begins { IfSome result (λ x. Extends seat.old.me.0.seen (S.history x)) }
        ensures fixed { IfSome result (λ x. seat.old.me.0.fixed ≡ Some (S.fixed x)) }
        ensures none { IfNone result (seat.new.me ≡ seat.old.me) }
    {
        let shared = &self.table.shared;
        let free = shared.compare_exchange::<Grab>(seat, 0, 0, 1) == 0;
        if free {
            Some(shared.exchange(seat, 0, None).unwrap())
        } else {
            None
        }
    }

    // The same, once it is free.
    pub(crate) fn take<R: Wait>(
        &self,
        rt: &R,
        seat: &mut Seat<Option<S>, View<S::Entry, S::Fixed>>,
    ) -> S
        requires table { seat.old.table_id ≡ self.now.table.shared.table_id }
        requires empty { seat.old.me.1 ≡ [] }
        requires unspent { 0 < seat.old.me.0.share.parts }
        ensures seat { (seat.new.table_id ≡ seat.old.table_id) × (seat.new.id ≡ seat.old.id) }
        ensures view { seat.new.me ≡ (entering seat.old.me.0 (S.history result), (0, None) ∷ []) }
        ensures begins { Extends seat.old.me.0.seen (S.history result) }
        ensures fixed { seat.old.me.0.fixed ≡ Some (S.fixed result) }
    {
        for _ in rt.forever() {
            if let Some(state) = self.try_take(seat) {
                return state;
            }
            self.table.shared.park(rt, 0, 1);
        }
        unreachable!()
    }

    // Puts the state into its slot, and frees the turn.
    pub(crate) fn put(&self, seat: &mut Seat<Option<S>, View<S::Entry, S::Fixed>>, state: S)
        requires table { seat.old.table_id ≡ self.now.table.shared.table_id }
        requires out { seat.old.me.1 ≡ (0, None) ∷ [] }
        requires holding { seat.old.me.0.holding ≡ true }
        requires unspent { 0 < seat.old.me.0.share.parts }
        requires fixed { seat.old.me.0.fixed ≡ Some (S.fixed state) }
        requires extends { Extends seat.old.me.0.entered (S.history state) }
        ensures seat { (seat.new.table_id ≡ seat.old.table_id) × (seat.new.id ≡ seat.old.id) }
        ensures view { seat.new.me ≡ (leaving S.by seat.old.me.0 (S.history state), []) }
        ensures rising { PlacesRise seat.new.me.0 }
    {
        let shared = &self.table.shared;
        let before = shared.exchange(seat, 0, Some(state));
        let None = before else { unreachable!() };
        shared.store::<LetGo>(seat, 0, 0);
        shared.wake_one(0);
    }

    // Cuts the seat's share in half, for another seat that has seen as much.
    pub(crate) fn halve(
        &self,
        seat: &mut Seat<Option<S>, View<S::Entry, S::Fixed>>,
    ) -> Seat<Option<S>, View<S::Entry, S::Fixed>>
        requires table { seat.old.table_id ≡ self.now.table.shared.table_id }
        requires idle { seat.old.me.0.holding ≡ false }
        requires unspent { 0 < seat.old.me.0.share.parts }
        ensures table { seat.new.table_id ≡ seat.old.table_id }
        ensures view { seat.new.me ≡ (halved seat.old.me.0, seat.old.me.1) }
        ensures other { (result.table_id ≡ seat.old.table_id) × (result.me ≡ (beside seat.old.me.0, [])) }
    {
        self.table.shared.split_seat::<Halve>(seat)
    }

    // Takes in all that another seat has.
    pub(crate) fn merge(
        &self,
        seat: &mut Seat<Option<S>, View<S::Entry, S::Fixed>>,
        other: Seat<Option<S>, View<S::Entry, S::Fixed>>,
    )
        requires table { seat.old.table_id ≡ self.now.table.shared.table_id }
        requires same_table { other.table_id ≡ seat.old.table_id }
        requires empty { other.me.1 ≡ [] }
        requires idle { (seat.old.me.0.holding ≡ false) × (other.me.0.holding ≡ false) }
        requires unspent { 0 < seat.old.me.0.share.parts }
        ensures table { seat.new.table_id ≡ seat.old.table_id }
        ensures view { seat.new.me ≡ (joined seat.old.me.0 other.me.0, seat.old.me.1) }
        ensures rising { PlacesRise seat.new.me.0 }
        ensures older { Extends seat.new.me.0.older seat.new.me.0.seen }
    {
        let shared = &self.table.shared;
        shared.join_seat::<Merge>(seat, other);
        shared.load::<Look>(seat, 0);
    }
}
