//! Sources and sinks: where bytes come from and go to, with a count of the faults on the way; and gates, which hold up threads
//! that render.
//!
//! A [`Source`] is read and a [`Sink`] is written. Each counts its faults, so that a caller can
//! prove that it tells of a fault only where there was one. Those in memory fail at calls that
//! are listed beforehand; those over `std` fail where the reader or writer does.
#![tactic(auto)]

mod gate;
mod host;
mod memory;
mod sink;
mod source;
mod streams;

pub use gate::{Gate, OpenGate};
pub use host::{HostSink, HostSource};
pub use memory::{MemorySink, MemorySource, SteadySource};
pub use sink::{NotWritten, Sink};
pub use source::{Failed, Source};
pub use streams::{NotRead, read_up_to, write_all};
