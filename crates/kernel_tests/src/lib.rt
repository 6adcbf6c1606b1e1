//! The exact kernel and the hierarchy. These are tests alone: they stand in a crate of their own, so that the crates that they run are proved once.
#![tactic(auto)]

#[cfg(test)]
mod boxes;
#[cfg(test)]
mod depths;
#[cfg(test)]
mod searches;
#[cfg(test)]
mod shading;
#[cfg(test)]
mod trees;
