//! The turn, the tiles that are claimed, the phases of frames, and what is kept with flights. These are tests alone: they stand in a crate of their own, so that the crates that they run are proved once.
#![tactic(auto)]

#[cfg(test)]
mod books;
#[cfg(test)]
mod flights;
#[cfg(test)]
mod tiles;
#[cfg(test)]
mod turns;
