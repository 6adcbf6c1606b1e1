// The parameters of one object: the staged map, which calls change, and the committed map, which a commit
// makes the same. Each call tells the objects that it adds to the entries and takes from them, so that whoever
// counts the names of each object can follow.
#![tactic(auto)]

mod handles;
mod objects;
mod params;

pub use handles::{HandleList, Named};
pub use params::Params;
