//! What the flights reached.
use dev_types::Handle;
use std::marker::Model;

/// All that the walk of a render visited, by the ticket of its flight.
#[derive(Drop)]
pub struct Reach {
    pub ticket: u64,
    pub handles: Vec<Handle>,
}

impl Model for Reach {
    ghost use Rattle.std.specs.Prelude.{ℕ, List};

    ghost Value = { ℕ × List ℕ };

    ghost view = { λ r. (r.ticket, r.handles.items) };
}
