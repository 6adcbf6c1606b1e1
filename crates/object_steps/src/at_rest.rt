//! A store between two entries, as it is asked why a call is refused and what it is answered.
ghost use Rattle.std.specs.Prelude.{◌≡◌, ◌+◌, length, refl};
ghost use Rattle.call_answers.specs.Showing.{IsKnown, phase_of};
ghost use Rattle.object_store.specs.Phases.{phase_of as phase_in};
ghost use Rattle.past_laws.specs.Open.{IsOpen};
ghost use Rattle.seq_model.specs.Histories.{History};
ghost use Rattle.seq_model.specs.Refusals.{phase_at};
ghost use Rattle.seq_model.specs.State.{scene_objects};
ghost use Rattle.seq_model.specs.Steps.{after};
ghost use Rattle.object_steps.specs.Resting.{IsAtRest, past_of};

use byte_view::Strided;
use call_answers::{Shown, Standing};
use dev_types::{Bytes, Channel, DataType, Handle, Name, Value};
use kind_tables::Kind;
use object_store::slots::Shows;
use object_store::store::Store;
use scene_read::Objects;
use std::marker::Model;

/// What is recorded of a device beside its objects.
pub trait Records {
    /// All that happened on the device.
    ghost history: { Self → History };

    /// The place of the next entry.
    fn place(&self) -> u64
        ensures { result ≡ length (history self.now) + 1 };

    /// What a frame has to show, by what a store says of it, with what is known of the render.
    fn shown(&self, h: Handle, shows: Shows) -> Shown
        requires { phase_at (after (history self.now)) h ≡ phase_in shows }
        ensures phase { phase_of result ≡ phase_in shows }
        ensures known { IsKnown (history self.now) result };
}

/// A store where a history led to, which a call may follow.
#[derive(Drop)]
pub struct AtRest<'a, R: Records> {
    store: &'a Store,
    records: &'a R,
}

impl<'a, R: Records> Model for AtRest<'a, R> {
    ghost use Rattle.object_steps.specs.Resting.{IsAtRest, Rested};
    ghost use Rattle.past_laws.specs.Open.{IsOpen};

    ghost Value = { Rested };

    ghost view = { λ r. record { stored = r.store.now; history = R.history r.records.now } };

    ghost invariant = { λ r. IsAtRest r.store.now (R.history r.records.now) × IsOpen
        (R.history r.records.now) };
}

impl<'a, R: Records> AtRest<'a, R> {
    /// The store, with what is recorded of its device.
    pub fn new(store: &'a Store, records: &'a R) -> AtRest<'a, R>
        requires rests { IsAtRest store.now (R.history records.now) }
        requires may_follow { IsOpen (R.history records.now) }
        ensures { result ≡ record { stored = store.now; history = R.history records.now } }
    {
        AtRest { store, records }
    }
}

impl<R: Records> Objects for AtRest<'_, R> {
    ghost objects = { λ r. scene_objects r.stored.state };

    fn kind(&self, h: Handle) -> Option<Kind> {
        self.store.kind(h)
    }

    fn committed(&self, h: Handle, name: &Name) -> Option<&Value> {
        Objects::committed(self.store, h, name)
    }

    fn content(&self, h: Handle) -> Option<Strided<'_>> {
        Objects::content(self.store, h)
    }

    fn block(&self, h: Handle) -> Option<&Bytes> {
        self.store.block(h)
    }

    fn mapped(&self, h: Handle) -> bool {
        self.store.mapped(h)
    }
}

impl<R: Records> Standing for AtRest<'_, R> {
    ghost past = { past_of };

    fn is_legal(&self) {
        let _store = &self.store;
    }

    fn is_held(&self, h: Handle) -> bool {
        match self.store.public(h) {
            Some(references) => references != 0,
            None => false,
        }
    }

    fn next(&self) -> Handle {
        self.store.next()
    }

    fn place(&self) -> u64 {
        self.records.place()
    }

    fn is_array_loan_out(&self, h: Handle, number: u64, len: usize) -> bool {
        self.store.is_array_loan_out(h, number, len)
    }

    fn is_parameter_loan_out(&self, h: Handle, name: &Name, number: u64, len: usize) -> bool {
        self.store.is_parameter_loan_out(h, name, number, len)
    }

    fn parameter_loan(&self, h: Handle, number: u64) -> Option<(DataType, u64)> {
        let loan = self.store.parameter_loan(h, number)?;
        Some((loan.elem, loan.count))
    }

    fn mapped_channels(&self, h: Handle) -> Option<&[(Channel, u64)]> {
        self.store.channels(h)
    }

    fn shows(&self, h: Handle) -> Shown {
        self.records.shown(h, self.store.shows(h))
    }

    ghost agrees = { λ r. refl };
}
