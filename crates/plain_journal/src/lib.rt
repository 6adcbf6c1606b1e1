// What happened on a device over plain lists, and what is known by it: the journal, public references, renders, worlds.
// Each entry that is added leaves all of it right, and tells the client what the entry says.
#![tactic(auto)]

pub mod books;
pub mod counting;
pub mod endings;
pub mod notes;
pub mod pictures;
pub mod prepared;
pub mod record;
pub mod renders;
pub mod steps;
#[cfg(test)]
mod tests;
pub mod uses;
pub mod worlds;
