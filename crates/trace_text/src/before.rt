//! What was read before a place of the text.
ghost use Rattle.std.specs.Prelude.{◌≡◌, ◌<◌, not, IfOk, OnOk, Some, suc};
ghost use Rattle.trace_text.specs.Reading.{nothing_before, is_bound, with_label};

use dev_types::Name;
use std::alloc::{AllocError, Global};
use std::collections::BTreeSet;
use std::marker::Model;

/// How many calls were read, how many of them are of this caller, and the labels that they bind.
#[derive(Drop)]
pub(crate) struct Before {
    calls: u32,
    of_caller: u32,
    labels: BTreeSet<Name>,
}

impl Model for Before {
    ghost use Rattle.std.specs.Prelude.{◌≤◌};
    ghost use Rattle.trace_text.specs.Reading.{Before as Place};

    ghost Value = { Place };

    ghost view = { λ b. record { calls = b.calls; of_caller = b.of_caller; labels = b.labels.keys } };

    ghost invariant = { λ b. (b.of_caller ≤ b.calls) × (b.calls ≤ 262144) };
}

impl Before {
    pub(crate) fn new(alloc: Global) -> Before
        ensures { result ≡ nothing_before }
    {
        Before {
            calls: 0,
            of_caller: 0,
            labels: BTreeSet::new(alloc),
        }
    }

    pub(crate) fn calls(&self) -> u32
        ensures { result ≡ self.now.calls }
    {
        self.calls
    }

    pub(crate) fn of_caller(&self) -> u32
        ensures { result ≡ self.now.of_caller }
    {
        self.of_caller
    }

    pub(crate) fn begin_caller(&mut self)
        ensures { self.new ≡ record { calls = self.old.calls; of_caller = 0; labels = self.old.labels } }
    {
        self.of_caller = 0;
    }

    /// Counts a call that binds no label.
    pub(crate) fn add_call(&mut self)
        requires { self.old.calls < 262144 }
        ensures { self.new ≡ record { calls = suc self.old.calls; of_caller = suc self.old.of_caller; labels = self.old.labels } }
    {
        self.calls += 1;
        self.of_caller += 1;
    }

    /// Binds a label; `false` where it was bound before.
    pub(crate) fn bind(&mut self, label: Name) -> Result<bool, AllocError>
        ensures new_only { IfOk result (λ added. added ≡ not (is_bound label self.old)) }
        ensures bound { OnOk result (self.new ≡ record { calls = self.old.calls; of_caller = self.old.of_caller; labels = with_label (Some label) self.old.labels }) }
    {
        Ok(self.labels.insert(label)?)
    }
}
