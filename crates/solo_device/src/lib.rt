//! A device with one caller, on one thread: a flight is rendered when it is asked for, so that no
//! call waits for one.
#![tactic(auto)]

mod devices;
mod flights;

pub use device_core::Handed;
pub use devices::{Ended, SoloDevice};
pub use flights::render_flight;
