// Who is still held: two counts for each handle, of the references that the application holds to it and
// of the places that name it. A handle without either is dead, and `die` gives the dead out one by
// one, the least first, and each once.
//
// Contracts see one map, by rising handle: for each handle that was born its two counts, or nothing
// once `die` gave it.
#![tactic(auto)]

pub mod counts;
mod entries;
mod held;

pub use counts::Counts;
