//! Scenes in a small store: the walk and its refusals, prepared worlds and rendered tiles. These are tests alone: they stand in a
//! crate of their own, so that the crates that they run are proved once.
#![tactic(auto)]

#[cfg(test)]
mod refusals;
#[cfg(test)]
mod renders;
#[cfg(test)]
mod scenes;
#[cfg(test)]
mod store;
#[cfg(test)]
mod worlds;
