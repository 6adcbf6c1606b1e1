//! A turn: one state behind one atomic word, and passes that remember its history.
//!
//! Threads share a [`Turn`], and each has a [`Pass`] of its own. With it a thread enters, gets the
//! state in hand as a [`Held`], works on it, and leaves it for the next. The state keeps a history
//! ([`Journaled`]) to which its calls add entries. A pass remembers how far it has seen this history,
//! and at which places in it the entries stand that were made with it.
//!
//! So what a thread called is in the one history, each call once and in its order, whatever the other
//! threads did between: after [`Turn::leave`] the pass has seen the whole history as it was left,
//! and its own places have grown by the place of the one call that was made. No place is two
//! passes' ([`places_are_apart`]). Whoever closes the turn, with the whole of it for a share, has
//! taken in all passes, and so all places.
//!
//! No clause says that a thread gets its turn, nor in which order those that wait do.
#![tactic(auto)]

mod calls;
mod journaled;
mod pass;
mod rule;
mod steps;
mod turn;
mod view;

pub use journaled::Journaled;
pub use pass::Pass;
pub use rule::places_are_apart;
pub use turn::{Held, Turn};
