//! The sequential device: what a history of calls means. Whatever a device does, with however many callers and workers, its
//! journal is one history, and these pages say which histories are right: which replies each call may have, which objects
//! live, what each picture shows, and what the application is told.
#![tactic(auto)]

pub mod calls;
pub mod examples;
pub mod journal;
pub mod laws;

pub use calls::{Call, Entry, Reply};
pub use journal::Journal;
