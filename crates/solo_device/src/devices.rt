//! A device with one caller.
ghost use Rattle.std.specs.Prelude.{◌≡◌, ◌++◌, ◌+◌, ◌≤◌, ◌^◌, IfErr, IfOk, List, None, OnErr, OnOk, if◌then◌else◌};
ghost use Rattle.dev_types.specs.declared.notices.Notice.{Notice as Notices};
ghost use Rattle.dev_types.specs.declared.refusals.Refused.TheVariants as refused;
ghost use Rattle.object_steps.specs.Carrying.{handed};
ghost use Rattle.seq_model.specs.Builds.{builds};
ghost use Rattle.seq_model.specs.Contents.{entered};
ghost use Rattle.seq_model.specs.Endings.{ended, reply_to};
ghost use Rattle.seq_model.specs.Legal.{Legal};
ghost use Rattle.seq_model.specs.Refusals.{phase_at};
ghost use Rattle.seq_model.specs.Room.{is_full};
ghost use Rattle.seq_model.specs.State.{ticket_in};
ghost use Rattle.seq_model.specs.Steps.{after, next_place, start};
ghost use Rattle.seq_model.specs.Told.{told};
ghost use Rattle.seq_model.specs.declared.calls.Entry.TheVariants.{Finished};
ghost use Rattle.device_parts.specs.Makes.{Hands, array_of};
ghost use Rattle.solo_device.specs.Lone.{HeardOn};
ghost use Rattle.solo_device.specs.OneThread.{asked_flight, ready_for, with_call, with_note};

use crate::flights::render_flight;
use dev_types::{Client, Handle, NoMemory, Refused};
use device_core::{Closed, DeviceState, Handed};
use seq_model::{Call, Journal, Reply};
use std::alloc::Global;
use std::marker::Model;

/// A device with one caller, on one thread. Nobody else works on its flights: a flight is rendered
/// when it is asked for, and so has finished before the call that asks for it; and a flight that a
/// call stops leaves with that call. So no call waits, and none sees a flight half done.
#[derive(Drop)]
pub struct SoloDevice<C: Client> {
    device: DeviceState<C>,
    tests: u64,
}

impl<C: Client> Model for SoloDevice<C> {
    ghost use Rattle.solo_device.specs.Lone.{IsLone, Lone, lone_of};

    ghost Value = { Lone };

    ghost view = { λ d. lone_of d.device };

    ghost invariant = { λ d. IsLone d.device };
}

/// What a device leaves: all that happened on it, the client, how many renders prepared their
/// world, and how many times a ray was tested against a primitive beyond its box, up to the
/// greatest number.
pub struct Ended<C> {
    pub history: Journal,
    pub client: C,
    pub builds: u64,
    pub tests: u64,
}

impl<C: Client> SoloDevice<C> {
    /// A device on which nothing happened. Its journal takes so many entries at most, the close
    /// among them: 2 to 1048576.
    ///
    /// # Errors
    /// `NoMemory`; the client comes back.
    pub fn new(alloc: Global, client: C, limit: u32) -> Result<SoloDevice<C>, (NoMemory, C)>
        requires some { 2 ≤ limit }
        requires few { limit ≤ 2 ^ 20 }
        ensures past { IfOk result (λ d. d.past ≡ start) }
        ensures told { IfOk result (λ d. d.told ≡ C.notices client) }
        ensures limit { IfOk result (λ d. d.limit ≡ limit) }
        ensures refused { IfErr result (λ e. e.1 ≡ client) }
    {
        match DeviceState::new(alloc, client, limit) {
            Ok(device) => Ok(SoloDevice { device, tests: 0 }),
            Err(refused) => Err(refused),
        }
    }

    /// What always holds: the past is what its history led to, which is legal.
    pub fn is_led(&self)
        ensures led { self.now.past ≡ after self.now.past.seen }
        ensures legal { Legal self.now.past.seen }
    {
        self.device.is_device();
    }

    /// The place of the next entry in the journal, counted from 1.
    pub fn place(&self) -> u64
        ensures { result ≡ next_place self.now.past }
    {
        // Its clause tells the proof that the journal is not too long.
        self.device.is_device();
        self.device.entries() + 1
    }

    /// Finishes the flight that a call asks for, if it asks for one: its tiles are rendered, and
    /// then it is noted that it has finished. Takes no memory.
    pub fn finish_asked(&mut self, call: &Call)
        ensures past { self.new.past ≡ ready_for self.old.past call.now }
        ensures told { HeardOn self.old self.new }
        ensures limit { self.new.limit ≡ self.old.limit }
        ensures landed { asked_flight self.new.past call.now ≡ None }
    {
        match call {
            Call::FrameReady { h, .. } | Call::MapFrame { h, .. } | Call::RenderFrame { h } => {
                self.finish_flight(*h);
            }
            _ => {}
        }
    }

    /// Finishes the flight of a frame, if it is in flight.
    fn finish_flight(&mut self, h: Handle)
        ensures past { self.new.past
            ≡ with_note Finished (ticket_in (phase_at self.old.past h)) self.old.past }
        ensures landed { ticket_in (phase_at self.new.past h) ≡ None }
        ensures told { HeardOn self.old self.new }
        ensures limit { self.new.limit ≡ self.old.limit }
    {
        // Its clauses tell the proof what held before.
        self.device.is_device();
        let Some(mut work) = self.device.lend_flight(h) else {
            return;
        };
        let tests = render_flight(&mut work);
        self.device.return_flight(work);
        // The sweep notes that the flight has finished.
        self.device.settled(h);
        self.tests = self.tests.saturating_add(tests);
    }

    /// Makes a call of this caller, for which the flight that it asks for has finished: it is
    /// refused or carried out, and entered with its reply; and a flight that it stopped leaves.
    /// `with` is the loan that an unmap gives back; the loan of a map is handed out, and that of an
    /// unmap which is refused comes back.
    ///
    /// # Errors
    /// `JournalFull` exactly where the journal has no place left for the call and what it owes,
    /// else `NoMemory`; the call and the loan come back, and nothing has happened.
    pub fn step(
        &mut self,
        alloc: Global,
        actor: u32,
        call: Call,
        with: Handed,
    ) -> Result<(Reply, Handed), (Refused, Call, Handed)>
        requires landed { asked_flight self.old.past call ≡ None }
        requires hands { Hands call with }
        ensures past { OnOk result (self.new.past
            ≡ with_call actor (entered self.old.past call) self.old.past) }
        ensures reply { IfOk result
            (λ r. r.0 ≡ reply_to self.old.past (entered self.old.past call)) }
        ensures array { IfOk result (λ r. array_of r.1 ≡ handed (next_place self.old.past)
            (entered self.old.past call) r.0 self.old.past.state (array_of with)) }
        ensures told { HeardOn self.old self.new }
        ensures limit { self.new.limit ≡ self.old.limit }
        ensures cause { IfErr result (λ e. e.0 ≡ (if is_full self.old.limit self.old.past call
            then refused.JournalFull self.old.limit else refused.NoMemory)) }
        ensures unchanged { OnErr result (self.new.past ≡ self.old.past) }
        ensures returned { IfErr result (λ e. (e.1 ≡ call) × (e.2 ≡ with)) }
    {
        // Its clauses tell the proof what held before.
        self.device.is_device();
        self.device.step(alloc, actor, call, with)
    }

    /// Ends the device: each flight leaves, by rising ticket, and then the device is closed. Takes
    /// no memory.
    pub fn finish(self) -> Ended<C>
        ensures history { result.history ≡ (ended self.past).seen }
        ensures told { (before : List Notices) → self.told ≡ before ++ told self.past.seen
            → C.notices result.client ≡ before ++ told result.history }
        ensures legal { Legal result.history }
        ensures builds { result.builds ≡ builds result.history }
    {
        let SoloDevice { device, tests } = self;
        // Its clauses tell the proof what held before.
        device.is_device();
        match device.finish() {
            Ok(
                Closed {
                    journal,
                    client,
                    builds,
                },
            ) => Ended {
                history: journal,
                client,
                builds,
                tests,
            },
            Err(_open) => unreachable!(),
        }
    }
}
