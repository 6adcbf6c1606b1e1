//! What `trace_make` makes is a trace, for every seed: so a made trace is read without a fault.
#![tactic(auto)]

mod traces;

pub use traces::{made_texts_are_traces, make_trace};
