//! The core of the device: one state for objects, flights and kept worlds, with the journal of what
//! happened.
#![tactic(auto)]

mod asks;
mod begins;
mod burials;
mod calls;
mod closes;
mod discards;
mod ends;
mod handed;
mod holds;
mod journals;
mod lends;
mod loads;
mod looks;
mod makes;
mod maps;
mod notes;
mod parts;
mod records;
mod renders;
mod replies;
mod rooms;
mod stops;
mod sweeps;
mod tickets;
mod unmaps;
mod uses;
mod waits;
mod works;

pub use handed::Handed;
pub use loads::{Load, PreparedScene};
pub use parts::Parts;
pub use renders::{Build, NewLoad, keep_build, load_of};
pub use works::{Handout, Idle};
