ghost use Rattle.std.specs.Prelude.{◌≡◌};

/// The counts of a handle that was not given as dead.
#[derive(Clone, Copy)]
pub struct Held {
    pub public: u64,
    pub named: u64,
    /// Whether the handle stands in the queue of those that may be dead.
    pub queued: bool,
}

impl Held {
    ghost use Rattle.ref_counts.specs.Queues.{is_dead, needs_place};

    /// Whether nothing holds the handle.
    pub fn is_dead(self) -> bool
        ensures { result ≡ is_dead self }
    {
        self.public == 0 && self.named == 0
    }

    /// Whether the handle must come into the queue.
    pub fn needs_place(self) -> bool
        ensures { result ≡ needs_place self }
    {
        !self.queued && self.is_dead()
    }
}
