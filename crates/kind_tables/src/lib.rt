// The table of the kinds of objects that a device has and of their parameters: which subtypes each type
// has, how kinds stand above one another, and for each parameter its type and the value that stands where
// it was not set. The code and the definitions of all layers above read this one table.
#![tactic(auto)]

pub mod examples;
pub mod kinds;
pub mod rows;
pub mod values;
pub mod walks;

pub use kinds::{Kind, kind_of, rank, subtypes_of};
pub use rows::{Row, parameters_of, row_of};
pub use values::{object_in, type_of_channel};
pub use walks::{a_frame_shows_its_world, walks_end, walks_go_down, walks_visit_objects};
