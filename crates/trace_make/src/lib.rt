//! The generator of traces: a scene of two shapes under two lights, and callers that render it, all by the
//! draws of one seed.
#![tactic(auto)]

mod calls;
mod draws;
mod forms;
mod pictures;
mod scene;
mod shapes;
mod traces;

pub use traces::make;
