//! Replays of traces: which histories follow a trace, and which one a single thread makes of it.
#![tactic(auto)]

mod binding_order;
pub mod bindings;
pub mod calls;
pub mod examples;
pub mod given;
pub mod laws;
pub mod loans;
pub mod notices;
pub mod replays;
#[cfg(test)]
mod tests;
pub mod writes;

pub use bindings::{Binding, Bindings, Labels};
pub use notices::NoticeList;
pub use replays::{Replayed, solo};
