//! The reader of traces: what callers do with a device, phase by phase, written as JSON. A text is read
//! whole, or refused by the first of its rules that it breaks, with the place.
#![tactic(auto)]

mod arrays;
mod before;
mod calls;
mod components;
mod fault;
mod forms;
mod json;
mod laws;
mod ops;
mod reader;

pub use calls::{ArrayData, Caller, Components, Phase, Query, SetValue, Trace, TraceCall, Write};
pub use components::value_of_numbers;
pub use fault::{TraceError, TraceFault};
pub use laws::traces_have_few_calls;
pub use reader::read_trace;
pub use sqlite_items::Items;
