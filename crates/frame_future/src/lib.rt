//! What frames have to show, and their mapped channels.
//!
//! A frame has nothing to show, is in flight, or is done ([`Phase`]). [`Frames`] keeps the claims of each flight with their first
//! seat, and looks with it at how many tiles are given: a flight all of whose tiles are given ends, and its frame is done; one that
//! was stopped leaves when the tiles that were claimed are given, and no picture with it. A channel of a picture is lent as a
//! [`MappedFrame`], which shares the tiles as they were filled. No call takes memory but those that are passed an allocator.
#![tactic(auto)]

mod flight;
mod frames;
mod held;
mod laws;
mod mapped;
mod phase;
mod picture;
mod tiles;

pub use frames::Frames;
pub use laws::{
    a_fresh_flight_reads_nothing, a_stopped_flight_of_one_seat_ends, an_ended_flight_is_done,
    looks_are_read, looks_are_read_to_an_end,
};
pub use mapped::MappedFrame;
pub use phase::{Ended, Phase};
