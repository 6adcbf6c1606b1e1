//! The text of the tables of kinds and parameters: a line for each kind, and below it one for each of
//! its parameters.
#![tactic(auto)]

mod kinds;
mod parameters;
mod texts;

pub use kinds::describe;
