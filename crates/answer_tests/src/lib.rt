//! Why calls are refused, and what is answered of properties, kinds and parameters, by the device
//! over plain lists; and what an application gets in short histories on it. These are tests alone:
//! they stand in a crate of their own, so that the crates that they run are proved once.
#![tactic(auto)]

#[cfg(test)]
mod bench;
#[cfg(test)]
mod calls;
#[cfg(test)]
mod orders;
#[cfg(test)]
mod pictures;
#[cfg(test)]
mod queries;
#[cfg(test)]
mod refusals;
