//! Worlds that are kept prepared from one render to the next. What is kept of a world is dropped when
//! an object that its last render reached is touched, and when the world goes; it is no concern of
//! this crate what that is.
#![tactic(auto)]

mod builds;
mod laws;
mod users;
mod worlds;

pub use laws::{kept_worlds_show_what_is_there, kept_worlds_stay};
pub use worlds::KeptWorlds;
