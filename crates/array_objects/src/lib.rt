// The memory of arrays: each array's block, and the loans in which an application may write new content.
//
// Contracts see a store as the list of its arrays by rising handle, each with its block and the number
// of the loan that is out, if one is; and a loan as its array, its number and its elements. A loan has
// bytes of its own, so an array's content stays the old one until the loan is given back.
#![tactic(auto)]

pub mod arrays;
pub mod lent;
pub mod store;

pub use arrays::{Array, Block};
pub use lent::Lent;
pub use store::ArrayStore;
