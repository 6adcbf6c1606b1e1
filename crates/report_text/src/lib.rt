//! What is printed of a replay: its images, its journal, or a summary.
#![tactic(auto)]

mod entries;
pub mod examples;
mod images;
mod journal;
mod prints;
mod reports;
mod summary;

pub use prints::Print;
pub use reports::report;
