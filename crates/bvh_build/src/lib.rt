//! A bounding volume hierarchy: a tree of boxes over numbered boxes, cut at the median of their centres.
#![tactic(auto)]

mod centres;
mod growth;
mod trees;

pub use trees::{Item, Node, Tree, build};
