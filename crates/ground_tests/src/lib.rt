//! The lowest layer: values, numbers, streams, strided loans, tables and the plain program of the picture. These are tests alone: they stand in a crate of their own, so that the crates that they run are proved once.
#![tactic(auto)]

#[cfg(test)]
mod handles;
#[cfg(test)]
mod kinds;
#[cfg(test)]
mod pictures;
#[cfg(test)]
mod streams;
#[cfg(test)]
mod strided;
#[cfg(test)]
mod values;
#[cfg(test)]
mod vectors;
