//! Work on the tiles of flights, outside the turn.
ghost use Rattle.std.specs.Prelude.{◌≡◌, ◌<◌, ◌^◌, ◌∷◌, ℕ, None, IfOk, IfSome, false, true};
ghost use Rattle.picture_model.specs.Limits.{IsSceneWithin};
ghost use Rattle.seq_model.specs.Legal.{Legal};
ghost use Rattle.tile_claims.specs.Parts.{scene_of};
ghost use Rattle.tile_claims.specs.Seats.{IsSeatOf, key_of, view};
ghost use Rattle.turn_lock.specs.Passes.{IsPassOf, holding, mine, seen};
ghost use Rattle.world_snapshot.specs.Works.{scene_of_work};
ghost use Rattle.device_calls.specs.Holds.{AddsNotes};
ghost use Rattle.device_calls.specs.Passes.{Sees};
ghost use Rattle.device_calls.specs.Sharing.{given_of};
ghost use Rattle.device_calls.specs.Working.{HasWorked, IsHandout};

use crate::device::{Device, Pass};
use crate::state::SharedState;
use dev_types::{Client, NoMemory};
use device_core::{Handout, Idle};
use replay_io::{Gate, OpenGate};
use std::alloc::Global;
use std::sync::Wait;
use tile_claims::Seat;
use tile_render::render;
use world_snapshot::Work;

/// What whoever helps has done.
#[derive(Drop)]
pub enum Worked {
    /// One tile of the flight with this ticket was rendered and given, by this seat.
    Gave { ticket: u64, seat: Seat },
    /// There was nothing to do.
    Idle(Idle),
}

/// Claims a tile, renders it and gives it. False exactly where all tiles were claimed before, or the
/// flight was stopped. Takes no memory.
fn give_one(work: &mut Work) -> bool
    requires seat { IsSeatOf work.old.claims work.old.seat }
    requires idle { (view work.old.seat).opened ≡ None }
    requires in_time { (view work.old.seat).late ≡ false }
    requires key { scene_of (key_of work.old.claims) ≡ scene_of_work work.old }
    requires within { IsSceneWithin (scene_of_work work.old) }
    ensures rest { work.new ≡ record work.old { seat = work.new.seat } }
    ensures seat { IsSeatOf work.new.claims work.new.seat }
    ensures gave { result ≡ true → (tile : ℕ) × ((view work.new.seat).given
        ≡ tile ∷ (view work.old.seat).given) }
{
    let Some(mut claim) = work.claims.claim(&mut work.seat) else {
        return false;
    };
    render(work, &mut claim);
    work.claims.give(&mut work.seat, claim);
    true
}

impl<C: Client> SharedState<C> {
    /// Sweeps, and asks the flights for work.
    ///
    /// # Errors
    /// `NoMemory`; no seat was handed out.
    fn take_work(&mut self, alloc: Global) -> Result<Handout, NoMemory>
        ensures noted { AddsNotes self.old.parts.history self.new.parts.history }
        ensures work { IfOk result (IsHandout self.new.parts.history) }
        ensures given { given_of self.new ≡ given_of self.old }
        ensures legal { Legal self.new.parts.history }
    {
        let taken = self.device.take_work(alloc);
        // Its clause tells the proof what always holds of the flights, and that the history is legal.
        self.device.is_device();
        taken
    }
}

impl<C: Client> Device<C> {
    /// Takes work of the flights, in one hold.
    ///
    /// # Errors
    /// `NoMemory`; no seat was handed out.
    fn take_work<R: Wait>(
        &self,
        rt: &R,
        alloc: Global,
        pass: &mut Pass,
    ) -> Result<Handout, NoMemory>
        requires pass { IsPassOf self.now.turn pass.old }
        requires idle { holding pass.old ≡ false }
        ensures pass { IsPassOf self.now.turn pass.new × (holding pass.new ≡ false) }
        ensures sees { Sees pass.old pass.new }
        ensures mine { mine pass.new ≡ mine pass.old }
        ensures work { IfOk result (IsHandout (seen pass.new)) }
    {
        let mut held = self.turn.enter(rt, pass);
        let taken = held.state.take_work(alloc);
        self.turn.leave(pass, held);
        taken
    }

    /// Helps: takes work, claims a tile, renders it outside the turn, and gives it; where all tiles of
    /// the flight were claimed in between it takes work anew. It calls the gate at point `2 * k` before
    /// a claim, and at `2 * k + 1` after a give. It makes no call of its own.
    ///
    /// # Errors
    /// `NoMemory`.
    pub fn work_with<R: Wait, G: Gate>(
        &self,
        rt: &R,
        alloc: Global,
        pass: &mut Pass,
        gate: &G,
        k: u32,
    ) -> Result<Worked, NoMemory>
        requires pass { IsPassOf self.now.turn pass.old }
        requires idle { holding pass.old ≡ false }
        requires small { k < 2 ^ 31 }
        ensures pass { IsPassOf self.now.turn pass.new × (holding pass.new ≡ false) }
        ensures sees { Sees pass.old pass.new }
        ensures mine { mine pass.new ≡ mine pass.old }
        ensures worked { IfOk result (HasWorked (seen pass.new)) }
    {
        for _ in rt.forever() {
            if let Some(worked) = self.work_or_late(rt, alloc, pass, gate, k) {
                return worked;
            }
        }
        unreachable!()
    }

    /// Takes work and gives one tile; `None` where all tiles of the flight were claimed in between.
    fn work_or_late<R: Wait, G: Gate>(
        &self,
        rt: &R,
        alloc: Global,
        pass: &mut Pass,
        gate: &G,
        k: u32,
    ) -> Option<Result<Worked, NoMemory>>
        requires pass { IsPassOf self.now.turn pass.old }
        requires idle { holding pass.old ≡ false }
        requires small { k < 2 ^ 31 }
        ensures pass { IsPassOf self.now.turn pass.new × (holding pass.new ≡ false) }
        ensures sees { Sees pass.old pass.new }
        ensures mine { mine pass.new ≡ mine pass.old }
        ensures worked { IfSome result (λ w. IfOk w (HasWorked (seen pass.new))) }
    {
        match self.take_work(rt, alloc, pass) {
            Ok(handout) => match handout {
                Handout::Work { ticket, mut work } => {
                    gate.at(2 * k);
                    if give_one(&mut work) {
                        gate.at(2 * k + 1);
                        let seat = work.seat;
                        Some(Ok(Worked::Gave { ticket, seat }))
                    } else {
                        None
                    }
                }
                Handout::Idle(idle) => Some(Ok(Worked::Idle(idle))),
            },
            Err(none) => Some(Err(none)),
        }
    }

    /// Helps, as [`Device::work_with`] with an open gate.
    ///
    /// # Errors
    /// `NoMemory`.
    pub fn work_once<R: Wait>(
        &self,
        rt: &R,
        alloc: Global,
        pass: &mut Pass,
    ) -> Result<Worked, NoMemory>
        requires pass { IsPassOf self.now.turn pass.old }
        requires idle { holding pass.old ≡ false }
        ensures pass { IsPassOf self.now.turn pass.new × (holding pass.new ≡ false) }
        ensures sees { Sees pass.old pass.new }
        ensures mine { mine pass.new ≡ mine pass.old }
        ensures worked { IfOk result (HasWorked (seen pass.new)) }
    {
        self.work_with(rt, alloc, pass, &OpenGate, 0)
    }
}
