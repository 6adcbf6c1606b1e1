//! Why calls on a device over plain lists are refused, and what they are answered.
#![tactic(auto)]

pub mod answers;
pub mod asked;
pub mod pictures;
