//! The pixels of a tile: a search by the tree of a prepared world for each ray, and the colours and ids of what it meets.
#![tactic(auto)]

mod pixels;
mod rows;
mod tiles;

pub use tiles::render;
