//! What a seat at the turn's table knows. Values of these types are never made: they are what
//! proofs speak of.
use std::collections::LinkedList;

/// The fraction `parts / 2 ^ halvings` of a turn.
pub struct Share {
    pub parts: u64,
    pub halvings: u64,
}

/// What one pass knows.
pub struct View<E, F> {
    /// The history as far as it was seen.
    pub seen: LinkedList<E>,
    /// The shorter of the two histories that a join compared, of which the longer is seen; empty otherwise.
    pub older: LinkedList<E>,
    /// The places of the entries that were made with it, counted from 1.
    pub mine: LinkedList<u64>,
    pub share: Share,
    /// What no call changes; none once the view is spent.
    pub fixed: Option<F>,
    pub holding: bool,
    /// While it is holding, the history as it was when it entered.
    pub entered: LinkedList<E>,
}
