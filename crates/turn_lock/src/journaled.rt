//! What a state behind a turn has.
ghost use Rattle.std.specs.Prelude.{◌≡◌, ℕ, List, Option, length};

/// A state with a history that its calls only add to.
///
/// Contracts see its history, a list of entries, its `fixed`, data that no call changes, and for
/// each entry the number of the caller that made it, or none, as of a note.
pub trait Journaled {
    /// An entry of the history.
    type Entry;

    /// What no call changes.
    type Fixed;

    // The entries, from the first on.
    ghost history: { Self → List Self.Entry };

    // What no call changes, as contracts see it.
    ghost fixed: { Self → Self.Fixed };

    // The number of the caller that made the entry, or none.
    ghost by: { Self.Entry → Option ℕ };

    /// The number of the history's entries, which is below 2^64.
    fn history_len(&self) -> u64
        ensures { result ≡ length (history self.now) };
}
