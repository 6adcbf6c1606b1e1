//! Calls on objects: releases and what dies with them, refusals and their statuses, loans of arrays
//! and of parameters. These are tests alone: they stand in a crate of their own, so that the crates
//! that they run are proved once.
#![tactic(auto)]

#[cfg(test)]
mod desk;
#[cfg(test)]
mod loans;
#[cfg(test)]
mod refusals;
#[cfg(test)]
mod releases;
