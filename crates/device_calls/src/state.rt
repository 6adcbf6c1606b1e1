//! The state of a device, as callers share it.
ghost use Rattle.std.specs.Prelude.{◌≡◌, ◌≤◌, ◌^◌, [], IfErr, IfOk, OnErr, OnOk};
ghost use Rattle.device_core.specs.States.{spare_calls};
ghost use Rattle.device_core.specs.Stepping.{IsAwake};
ghost use Rattle.device_parts.specs.Makes.{Hands};
ghost use Rattle.seq_model.specs.Histories.{caller_of};
ghost use Rattle.seq_model.specs.Legal.{Legal};
ghost use Rattle.seq_model.specs.Steps.{after};
ghost use Rattle.device_calls.specs.Holds.{AddsCall, AddsNotes, IsCause};
ghost use Rattle.device_calls.specs.Sharing.{given_of};

use crate::fixed::Fixed;
use dev_types::{Client, NoMemory, Refused};
use device_core::{DeviceState, Handed};
use seq_model::{Call, Entry, Reply};
use std::alloc::Global;
use std::marker::Model;
use turn_lock::Journaled;

/// A device between two holds of the turn.
#[derive(Drop)]
pub struct SharedState<C: Client> {
    pub(crate) device: DeviceState<C>,
}

impl<C: Client> Model for SharedState<C> {
    ghost use Rattle.device_core.specs.States.{Device};
    ghost use Rattle.device_calls.specs.Sharing.{IsShared};

    ghost Value = { Device };

    ghost view = { λ s. s.device };

    ghost invariant = { λ s. IsShared s.device };
}

impl<C: Client> Journaled for SharedState<C> {
    ghost use Rattle.seq_model.specs.Histories.{caller_of};
    ghost use Rattle.device_calls.specs.Sharing.{given_of};

    type Entry = Entry;

    type Fixed = Fixed;

    ghost history = { λ s. s.parts.history };

    ghost fixed = { given_of };

    ghost by = { caller_of };

    fn history_len(&self) -> u64 {
        self.device.entries()
    }
}

impl<C: Client> SharedState<C> {
    /// A device on which nothing happened, with a journal of so many entries at most.
    ///
    /// # Errors
    /// `NoMemory`; the client comes back.
    pub(crate) fn new(alloc: Global, client: C, limit: u32) -> Result<SharedState<C>, (NoMemory, C)>
        requires some { 2 ≤ limit }
        requires few { limit ≤ 2 ^ 20 }
        ensures history { IfOk result (λ s. s.parts.history ≡ []) }
        ensures given { IfOk result (λ s. given_of s
            ≡ record { limit = limit; notices = C.notices client }) }
        ensures told { IfOk result (λ s. s.told ≡ C.notices client) }
        ensures refused { IfErr result (λ e. e.1 ≡ client) }
    {
        match DeviceState::new(alloc, client, limit) {
            Ok(device) => Ok(SharedState { device }),
            Err(refused) => Err(refused),
        }
    }

    /// Makes a call of this caller, which does not wait for a flight, between two sweeps.
    ///
    /// # Errors
    /// `JournalFull` exactly where the journal has no place left for the call and what it owes, else
    /// `NoMemory`; the call and the loan come back.
    pub(crate) fn step(
        &mut self,
        alloc: Global,
        actor: u32,
        call: Call,
        with: Handed,
    ) -> Result<(Reply, Handed), (Refused, Call, Handed)>
        requires awake { IsAwake (after self.old.parts.history) call }
        requires hands { Hands call with }
        ensures made { IfOk result (λ r. AddsCall actor call with r.0 r.1
            self.old.parts.history self.new.parts.history) }
        ensures noted { OnErr result (AddsNotes self.old.parts.history
            self.new.parts.history) }
        ensures cause { IfErr result (λ e. IsCause e.0 self.old.limit
            self.new.parts.history call) }
        ensures returned { IfErr result (λ e. (e.1 ≡ call) × (e.2 ≡ with)) }
        ensures given { given_of self.new ≡ given_of self.old }
        ensures legal { Legal self.new.parts.history }
    {
        let made = self.device.step(alloc, actor, call, with);
        // Its clause tells the proof that the history is legal.
        self.device.is_device();
        made
    }

    /// The client of a device that is given up before anybody called it.
    pub(crate) fn into_client(self) -> C
        ensures notices { C.notices result ≡ self.told }
        ensures spare { C.spare result ≡ self.spare }
    {
        let SharedState { device } = self;
        device.into_client()
    }

    /// Takes memory for so many calls.
    ///
    /// # Errors
    /// `NoMemory`.
    pub(crate) fn reserve_calls(&mut self, alloc: Global, n: u32) -> Result<(), NoMemory>
        ensures history { self.new.parts.history ≡ self.old.parts.history }
        ensures spare { OnOk result (n ≤ spare_calls self.new) }
        ensures given { given_of self.new ≡ given_of self.old }
        ensures legal { Legal self.new.parts.history }
    {
        let reserved = self.device.reserve_calls(alloc, n);
        self.device.is_device();
        reserved
    }
}
