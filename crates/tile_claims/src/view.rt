//! What a seat at a table of claims knows. Values of these types are never made: they are what
//! proofs speak of.
use crate::key::Key;
use std::collections::LinkedList;

/// Looks at one of the two counts.
pub struct Looks {
    /// How many there were.
    pub count: u64,
    /// What the last of them read, or 0 before the first.
    pub last: u64,
}

/// What one seat knows.
pub struct View {
    pub key: Key,
    /// It is the seat that was made with the claims.
    pub first: bool,
    /// How many seats it has split off.
    pub splits: u64,
    /// The tile that it has claimed and not yet given.
    pub opened: Option<u64>,
    /// The tiles that it has given, the last one first.
    pub given: LinkedList<u64>,
    /// The tiles whose pixels it has collected, the last one first.
    pub collected: LinkedList<u64>,
    /// A claim of it has read the number of tiles or more.
    pub late: bool,
    /// Its looks at the count of claimed tiles.
    pub claims: Looks,
    /// Its looks at the count of given tiles.
    pub gives: Looks,
    /// How many tiles were claimed when it stopped them, at most all.
    pub stop: Option<u64>,
}
