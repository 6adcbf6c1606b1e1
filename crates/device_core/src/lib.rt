//! The state of a device, with the client that it tells: one call at a time, and how it ends.
#![tactic(auto)]

mod finishing;
mod lending;
mod rooms;
mod states;
mod stepping;
mod sweeping;

pub use device_parts::{Handed, Handout, Idle};
pub use finishing::Closed;
pub use states::DeviceState;
