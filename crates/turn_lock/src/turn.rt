//! A turn, and its state in hand.
ghost use Rattle.std.specs.Prelude.{◌≡◌, ◌<◌, None, true, [], ◌∷◌};

use crate::journaled::Journaled;
use crate::rule::TurnRule;
use crate::view::View;
use atomic_table::{Badge, Seat, Table};
use std::alloc::Global;
use std::snapshot::Snapshot;

/// One state, and an atomic word that says whether it is in hand.
#[derive(Drop)]
pub struct Turn<S: Journaled> {
    pub(crate) table: Table<Option<S>, View<S::Entry, S::Fixed>, Snapshot<S>, TurnRule<S>, Global>,
    pub ghost one_word: { table.shared.table_id.words ≡ 1 },
    pub ghost one_slot: { table.shared.table_id.slots ≡ 1 },
}

/// The state in hand, from [`Turn::enter`] until [`Turn::leave`].
///
/// It has to be left: it cannot be dropped, nor taken apart outside this crate. It belongs to the
/// pass with which it was taken, and can be left with no other.
pub struct Held<S: Journaled> {
    /// The state. Its history may grow here, by one called entry at most, and its `fixed` has to stay.
    pub state: S,
    pub(crate) seat: Seat<Option<S>, View<S::Entry, S::Fixed>>,
    // The pass's badge as it stands while the state is in hand, so that the two belong together.
    pub(crate) stub: Snapshot<Badge<View<S::Entry, S::Fixed>>>,
    pub ghost out: { seat.me.1 ≡ (0, None) ∷ [] },
    pub ghost holding: { seat.me.0.holding ≡ true },
    pub ghost unspent: { 0 < seat.me.0.share.parts },
}
