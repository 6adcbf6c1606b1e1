//! Where bytes go to.
ghost use Rattle.std.specs.Prelude.{◌≡◌, ℕ, ◌<◌, ◌≤◌, List, Option, length, IfOk, IsErrOf};
ghost use Rattle.std.specs.Io.{WritesAtMost};
ghost use Rattle.std.specs.Io.KnownBytes.{WriteAppends};
ghost use Rattle.replay_io.specs.declared.sink.NotWritten.TheVariants.{NoMemory};
ghost use Rattle.replay_io.specs.Faults.{Rose};

use std::alloc::AllocError;

/// Why a write took nothing.
#[derive(Clone, Copy, Debug, PartialEq, Eq)]
pub enum NotWritten {
    /// The sink counted a fault.
    Failed,
    /// The sink found no memory.
    NoMemory,
}

impl From<AllocError> for NotWritten {
    ghost from_gives = { λ _ e. e ≡ NoMemory };

    fn from(_: AllocError) -> Self {
        NotWritten::NoMemory
    }
}

/// A stream of bytes that grows at its end.
///
/// A sink counts its faults. The count never falls. It may stand still at the last number of
/// a `u64`, so one that stands there counts as having risen.
pub trait Sink {
    /// The bytes that were written, where the sink tells them.
    ghost written: { Self → Option (List ℕ) };

    /// How many faults there were.
    ghost faults: { Self → ℕ };

    /// Takes the first bytes of `piece` to its end, and answers how many: at least one of a
    /// piece that is not empty.
    ///
    /// # Errors
    /// `Failed` where the sink counted a fault in this call, and `NoMemory` where it found no
    /// memory. It then took nothing.
    fn write(&mut self, piece: &[u8]) -> Result<usize, NotWritten>
        ensures bound { WritesAtMost result piece.now }
        ensures bytes { WriteAppends (written self.old) (written self.new) result piece.now }
        ensures progress { IfOk result (λ n. 0 < length piece.now → 0 < n) }
        ensures later { faults self.old ≤ faults self.new }
        ensures failed { IsErrOf result NotWritten.Failed
            → Rose (faults self.old) (faults self.new) };
}
