//! The nearest hit of a ray with the primitives of a source, by a tree of their boxes: a search that passes over each part of the tree
//! in which no wanted hit can be nearer than the best one found.
#![tactic(auto)]

mod hits;
mod searches;
mod shapes;
mod trees;
mod walks;

pub use hits::{hit_after, nearest};
pub use shapes::shape_box;
pub use trees::tree_over;
