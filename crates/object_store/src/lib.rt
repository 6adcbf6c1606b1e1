// The objects of a device over fast parts: a slot for each object, the arrays, and the counts of
// what holds each object.
//
// Contracts see a store as the state of the definitions, beside the public references to each
// object and the flights that hold it.
#![tactic(auto)]

pub mod account;
pub mod closing;
pub mod contents;
pub mod dead;
pub mod loans;
pub mod reslotting;
pub mod scenes;
pub mod slots;
pub mod staging;
pub mod stops;
pub mod store;
