//! Flights with what is kept of each, and worlds that are kept. These are tests alone: they stand in a crate of their own, so that the
//! crates that they run are proved once.
#![tactic(auto)]

#[cfg(test)]
mod flights;
#[cfg(test)]
mod worlds;
