//! The parts that keep parameters, counts and arrays. These are tests alone: they stand in a crate of their own, so that the crates that they run are proved once.
#![tactic(auto)]

#[cfg(test)]
mod arrays;
#[cfg(test)]
mod counts;
#[cfg(test)]
mod parameters;
