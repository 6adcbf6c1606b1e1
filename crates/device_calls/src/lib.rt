//! The device, which threads share by reference: each call is one hold of the turn.
#![tactic(auto)]

mod arrays;
mod births;
mod close;
mod device;
mod fixed;
mod frames;
mod loans;
mod objects;
mod queries;
mod ready;
mod renders;
mod state;
mod work;

pub use device::{Device, Pass};
pub use device_core::{Closed, Handed, Idle};
pub use fixed::Fixed;
pub use work::Worked;
