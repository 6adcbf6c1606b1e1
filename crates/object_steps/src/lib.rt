// The object calls over fast parts: what a call that was answered does to the objects and their
// counts, the loans that calls bring and hand out, and the objects with room for their ends.
//
// Contracts see a loan for a parameter as its object, the parameter's name, its number and its
// elements, which have bytes of their own. The laws say where entries lead a store that stands where
// a history led to.
#![tactic(auto)]

mod apply;
pub mod array_loans;
pub mod at_rest;
pub mod carry_laws;
pub mod changes;
pub mod deciding;
mod frames;
pub mod lent_params;
pub mod objects;

pub use array_loans::ArrayLoan;
pub use at_rest::{AtRest, Records};
pub use lent_params::LentParam;
pub use objects::ObjectStore;
