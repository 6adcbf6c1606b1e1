//! Why a run ends early, with the status and the line of each cause.
ghost use Rattle.std.specs.Prelude.{◌≡◌};
ghost use Rattle.anari_replay.specs.Faults.{read_fault, trace_fault, write_fault};
ghost use Rattle.anari_replay.specs.declared.fault.Fault.TheVariants.{Memory};

use dev_types::NoMemory;
use replay_io::{NotRead, NotWritten};
use std::alloc::{AllocError, AllocFailed};
use thiserror::Error;
use trace_text::{TraceError, TraceFault};

/// Why a run ended early. The text is its line on standard error.
#[derive(Clone, Copy, Debug, PartialEq, Eq, Error)]
pub enum Fault {
    #[error("anari_replay: words refused")]
    Words,
    #[error("anari_replay: out of memory")]
    Memory,
    #[error("anari_replay: read fault")]
    Read,
    #[error("anari_replay: write fault")]
    Write,
    #[error("anari_replay: trace refused: rule {} at phase {} caller {} call {}", .0.rule, .0.phase, .0.caller, .0.call)]
    Trace(TraceFault),
}

impl From<NoMemory> for Fault {
    ghost from_gives = { λ _ e. e ≡ Memory };

    fn from(_: NoMemory) -> Self {
        Fault::Memory
    }
}

impl From<AllocError> for Fault {
    ghost from_gives = { λ _ e. e ≡ Memory };

    fn from(_: AllocError) -> Self {
        Fault::Memory
    }
}

impl<T: Drop> From<AllocFailed<T>> for Fault {
    ghost from_gives = { λ _ e. e ≡ Memory };

    fn from(_: AllocFailed<T>) -> Self {
        Fault::Memory
    }
}

impl From<TraceError> for Fault {
    ghost from_gives = { λ why e. e ≡ trace_fault why };

    fn from(why: TraceError) -> Self {
        match why {
            TraceError::Broken(fault) => Fault::Trace(fault),
            TraceError::NoMemory => Fault::Memory,
        }
    }
}

impl From<NotRead> for Fault {
    ghost from_gives = { λ why e. e ≡ read_fault why };

    fn from(why: NotRead) -> Self {
        match why {
            NotRead::Failed => Fault::Read,
            NotRead::NoMemory => Fault::Memory,
        }
    }
}

impl From<NotWritten> for Fault {
    ghost from_gives = { λ why e. e ≡ write_fault why };

    fn from(why: NotWritten) -> Self {
        match why {
            NotWritten::Failed => Fault::Write,
            NotWritten::NoMemory => Fault::Memory,
        }
    }
}
