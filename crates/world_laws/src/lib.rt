//! What a world shows stays as long as nobody touches what it reaches, over the definitions alone:
//! what was prepared of it at its last render is what would be prepared now.
#![tactic(auto)]

mod laws;

pub use laws::{untouched_objects_stay, untouched_worlds_stay, worlds_show_their_last_render};
