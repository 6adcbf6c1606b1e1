//! What callers get of the device that threads share: the rows of the documents that no trace carries.
//! These are tests alone: they stand in a crate of their own, so that the crates that they run are
//! proved once.
#![tactic(auto)]

#[cfg(test)]
mod desk;
#[cfg(test)]
mod listener;
#[cfg(test)]
mod rows;
#[cfg(test)]
mod scene;
