//! Why a text is no trace.
ghost use Rattle.std.specs.Prelude.{◌≡◌};
ghost use Rattle.trace_text.specs.Reading.{rule_number, at_start};
ghost use Rattle.trace_text.specs.declared.fault.TraceError.TheVariants.{NoMemory};

use std::alloc::{AllocError, AllocFailed};

/// Which rule a trace breaks first, and where. Places count from 0; one that does not apply is 0.
#[derive(Clone, Copy, Debug, PartialEq, Eq)]
pub struct TraceFault {
    /// The rule's number.
    pub rule: u8,
    pub phase: u32,
    pub caller: u32,
    /// The call of this caller, in the order of the text: a call before those inside it.
    pub call: u32,
}

/// The rules of the format, by their numbers from 1 on.
#[derive(Clone, Copy, Debug, PartialEq, Eq)]
pub(crate) enum Rule {
    /// There are more than 67108864 bytes.
    TooLong,
    /// The bytes are not JSON.
    NotJson,
    /// The root is not an object with exactly `trace`, which is 1 or 2, and `phases`, a list.
    NotATrace,
    /// There are more than 64 phases.
    TooManyPhases,
    /// A phase is not an object with exactly `callers`, a list of 1 to 8 lists.
    NotAPhase,
    /// The trace has more calls than its version allows: 65536 or 262144.
    TooManyCalls,
    /// A loan would be the ninth inside one another.
    TooDeep,
    /// A call is not an object with a known `op`.
    UnknownOp,
    /// A key of a call is missing, is not named for it, or has another form.
    NotOfItsForm,
    /// The label was bound before in the text.
    BoundBefore,
}

impl Rule {
    pub(crate) fn number(self) -> u8
        ensures { result ≡ rule_number self }
    {
        match self {
            Rule::TooLong => 1,
            Rule::NotJson => 2,
            Rule::NotATrace => 3,
            Rule::TooManyPhases => 4,
            Rule::NotAPhase => 5,
            Rule::TooManyCalls => 6,
            Rule::TooDeep => 7,
            Rule::UnknownOp => 8,
            Rule::NotOfItsForm => 9,
            Rule::BoundBefore => 10,
        }
    }

    /// The fault of a text that breaks this rule as a whole.
    pub(crate) fn at_start(self) -> TraceFault
        ensures { result ≡ at_start self }
    {
        TraceFault {
            rule: self.number(),
            phase: 0,
            caller: 0,
            call: 0,
        }
    }
}

/// Why a trace was not read.
#[derive(Clone, Copy, Debug, PartialEq, Eq)]
pub enum TraceError {
    /// The text breaks this rule, and none before it.
    Broken(TraceFault),
    /// There was no memory for the trace.
    NoMemory,
}

impl From<AllocError> for TraceError {
    ghost from_gives = { λ _ error. error ≡ NoMemory };

    fn from(_: AllocError) -> TraceError {
        TraceError::NoMemory
    }
}

impl<T: Drop> From<AllocFailed<T>> for TraceError {
    ghost from_gives = { λ _ error. error ≡ NoMemory };

    fn from(_: AllocFailed<T>) -> TraceError {
        TraceError::NoMemory
    }
}
