// Slots by handle: each value that is put in stands at a handle of its own, 1, 2, .. in turn, until
// it is taken out, and no handle is ever used again. Access by handle takes constant time.
//
// Contracts see a table as a finite map: the list of its pairs of a handle and a value, by rising
// handle, beside the handle that comes next and the number of insertions that need no memory.
#![tactic(auto)]

pub mod table;

pub use table::Table;
