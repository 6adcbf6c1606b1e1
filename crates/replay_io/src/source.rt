//! Where bytes come from.
ghost use Rattle.std.specs.Prelude.{◌≡◌, ◌==◌, ℕ, ◌<◌, ◌≤◌, Bool, List, Option, length, IfOk, OnErr};
ghost use Rattle.std.specs.Io.{ReadsAtMost};
ghost use Rattle.std.specs.Io.KnownBytes.{ReadConsumes};
ghost use Rattle.replay_io.specs.Faults.{Rose};
ghost use Rattle.replay_io.specs.Streams.{EndsExactly};

/// A read that failed. It took nothing, and its source counted a fault.
#[derive(Clone, Copy, Debug, PartialEq, Eq)]
pub struct Failed;

/// A stream of bytes that is read to its end.
///
/// A source counts its faults. The count never falls. It may stand still at the last number of
/// a `u64`, so one that stands there counts as having risen.
pub trait Source {
    /// The bytes that reads will give from here on, where the source tells them.
    ghost left: { Self → Option (List ℕ) };

    /// How many faults there were.
    ghost faults: { Self → ℕ };

    /// Whether the last read that had room, and did not fail, met the end of the input.
    ghost ended: { Self → Bool };

    /// Takes the first bytes of what is left to the front of `into`, and answers how many. What
    /// stands behind them in `into` means nothing. Into a buffer that is not empty it answers
    /// 0 exactly where nothing is left: the end of the input.
    ///
    /// # Errors
    /// `Failed` where the source counted a fault in this call. It then took nothing.
    fn read(&mut self, into: &mut [u8]) -> Result<usize, Failed>
        ensures bound { ReadsAtMost result into.new }
        ensures bytes { ReadConsumes (left self.old) (left self.new) result into.new }
        ensures end { EndsExactly (left self.old) result (length into.old) }
        ensures ended { IfOk result (λ n. 0 < length into.old → ended self.new ≡ (n == 0)) }
        ensures kept { OnErr result (ended self.new ≡ ended self.old) }
        ensures no_room { length into.old ≡ 0 → ended self.new ≡ ended self.old }
        ensures later { faults self.old ≤ faults self.new }
        ensures failed { OnErr result (Rose (faults self.old) (faults self.new)) };
}
