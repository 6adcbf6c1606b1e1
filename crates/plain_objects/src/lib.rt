// The objects of a device by their handles: what calls change of them, which loans are out, and which of them live.
#![tactic(auto)]

pub mod changes;
pub mod loans;
mod marks;
pub mod objects;
pub mod reaches;
pub mod scenes;
pub mod stage;
pub mod sweeps;
#[cfg(test)]
mod tests;
