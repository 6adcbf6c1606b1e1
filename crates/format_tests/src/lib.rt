//! Texts that come in and go out: traces, journals, images and tables. These are tests alone: they stand in a crate of their own, so that the crates that they run are proved once.
#![tactic(auto)]

#[cfg(test)]
mod journals;
#[cfg(test)]
mod made;
#[cfg(test)]
mod tables;
#[cfg(test)]
mod traces;
