//! Flights with what is kept of each, and the sweeps over them.
//!
//! [`FlightBooks`] keeps with each flight of its frames a [`Cargo`]: what the flight reads, until
//! it ends. A sweep looks once at each flight, by rising ticket, and notes those that end, as the
//! journal of a device has them.
#![tactic(auto)]

mod books;
mod calls;
mod kept;
mod laws;
mod lookups;
mod names;
mod stops;
mod work;

pub use books::{FlightBooks, note_of};
pub use kept::{Cargo, Over};
pub use laws::{
    a_begun_flight_reads_nothing, a_given_flight_ends, a_sweep_keeps_pairs,
    each_flight_has_its_cargo, flights_that_are_asked_stay,
    stopped_flights_that_stay_were_handed_out, unworked_flights_stay, what_was_lent_comes_home,
};
pub use lookups::fresh;
pub use work::{Handed, Handout};
