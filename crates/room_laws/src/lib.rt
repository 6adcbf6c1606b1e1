//! What a journal of limited length owes, over the definitions alone: its loans and its flights,
//! counted, and the room that is left by few calls.
#![tactic(auto)]

mod laws;

pub use laws::{
    flights_are_counted, loans_are_counted, places_are_counted, short_histories_leave_room,
};
