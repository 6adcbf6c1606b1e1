//! Why calls are refused, and what they are answered, on any device that tells its objects and its
//! past.
#![tactic(auto)]

pub mod answers;
pub mod asked;
pub mod contents;
pub mod creations;
pub mod elements;
pub mod frames;
pub mod layouts;
pub mod owners;
pub mod queries;
pub mod refusals;
pub mod replies;
pub mod shown;
pub mod standing;

pub use shown::Shown;
pub use standing::Standing;
