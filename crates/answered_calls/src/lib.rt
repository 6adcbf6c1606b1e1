//! What a device that answers by the definitions may say and enter, and the status that it tells
//! where it refuses. Its replies are ones that their calls may have, and what comes back from a loan
//! names only what is there: each of these laws is the contract of a function that does nothing.
#![tactic(auto)]

mod laws;
mod telling;

pub use laws::{
    answers_may_be_given, replies_tell_of_the_flight_of_the_frame,
    what_comes_back_names_what_is_there,
};
pub use telling::{source_of, tell_status, with_given};
