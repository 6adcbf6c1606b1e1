//! A pass, as it lies between two calls of its turn.
ghost use Rattle.std.specs.Prelude.{◌≡◌, ◌<◌, false, [], ◌∷◌, length};
ghost use Rattle.turn_lock.specs.Views.{PlacesRise, PlacesRise-prop, view_in};

use crate::view::View;
use atomic_table::Badge;

/// The right to enter a turn, and what was seen and done with it.
///
/// Contracts see a pass as five things: its caller number (`caller_number`); the history as far as
/// the pass has seen it (`seen`); the rising places in it, counted from 1, of the entries that were
/// made with the pass (`mine`); its share of the turn, a fraction a / 2^k as two whole numbers
/// (`share`); and the data of the state that no call changes (`fixed`). Besides it tells whether
/// its state is in hand (`holding`); while it is, what the pass knows is told by the
/// [`Held`](crate::Held).
///
/// A pass may be dropped. Then its share is lost, and the turn can no more be closed.
#[derive(Drop)]
pub struct Pass<E, F> {
    // Its seat at the table; while its state is in hand, a blank.
    pub(crate) badge: Badge<View<E, F>>,
    pub(crate) caller: u32,

    // The length of what it has seen.
    pub(crate) seen_len: u64,
    pub(crate) holding: bool,
    pub ghost one_view: { holding ≡ false → badge.views ≡ view_in badge.views ∷ [] },
    pub ghost counted: { holding ≡ false → seen_len ≡ length (view_in badge.views).seen },
    pub ghost unspent: { holding ≡ false → 0 < (view_in badge.views).share.parts },
    pub ghost rising: { PlacesRise (view_in badge.views) } by { PlacesRise-prop (view_in badge.views) },
    pub ghost idle: { (view_in badge.views).holding ≡ false },
}
