//! Worlds prepared for rendering. A prepared world shares the blocks of the arrays that its walk visits, and reads each primitive from
//! them when it is asked for: what is mapped, unmapped or committed later does not show in it.
#![tactic(auto)]

mod arrays;
mod geometries;
mod prepared;
mod rows;
mod searches;
mod surfaces;
mod views;
mod works;

pub use prepared::{Prepared, prepare, prepare_visited};
pub use views::{View, view_of};
pub use works::Work;
