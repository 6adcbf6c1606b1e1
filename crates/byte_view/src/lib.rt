// Strided loans: the elements of an array as they lie in a block of bytes, each `stride` bytes behind
// the one before, to be read or written in place. A part that is lent is the block's own memory, and
// nothing here copies the block or takes memory.
#![tactic(auto)]

pub mod reads;
pub mod writes;

pub use reads::{Strided, fits_block};
pub use writes::{StridedMut, split_block};
