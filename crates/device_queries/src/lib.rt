//! What a device tells about itself, over any objects: the properties of objects and of the device,
//! and which subtypes, parameters and rows there are (ANARI 1.0 Specification, object properties
//! and introspection).
#![tactic(auto)]

pub mod bounds;
pub mod extents;
pub mod names;
pub mod properties;

pub use names::{info_of, parameters_of, subtypes_of};
pub use properties::property;
