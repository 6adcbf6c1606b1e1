//! Boxes whose sides lie along the axes, and between which depth numbers a ray may be hit inside one.
#![tactic(auto)]

mod boxes;
mod spans;

pub use boxes::{Box3, join};
pub use spans::{PreparedRay, span};
