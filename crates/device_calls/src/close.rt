//! How a device that threads shared ends.
ghost use Rattle.std.specs.Prelude.{◌≡◌, ◌++◌, ◌∷◌, [], false};
ghost use Rattle.seq_model.specs.Builds.{builds};
ghost use Rattle.seq_model.specs.Histories.{History, caller_of};
ghost use Rattle.seq_model.specs.Legal.{Legal};
ghost use Rattle.seq_model.specs.Told.{told};
ghost use Rattle.seq_model.specs.declared.calls.Entry.TheVariants.{Closed as Closes};
ghost use Rattle.turn_lock.specs.Histories.{Extends, places};
ghost use Rattle.turn_lock.specs.Passes.{IsPassOf, holding, mine, seen, share};
ghost use Rattle.turn_lock.specs.Views.{IsWhole};
ghost use Rattle.device_calls.specs.Holds.{AddsNotes};
ghost use Rattle.device_calls.specs.Passes.{notices_of};
ghost use Rattle.device_calls.specs.Sharing.{told_first};

use crate::device::{Device, Pass};
use crate::state::SharedState;
use dev_types::Client;
use device_core::Closed;
use std::sync::Wait;
use std::thread;

impl<C: Client> SharedState<C> {
    /// Stops all flights, waits until no tile of them is open, notes them, and closes.
    fn close<R: Wait>(self, rt: &R) -> Closed<C>
        ensures journal { AddsNotes self.parts.history result.journal }
        ensures ends { (h : History) × (result.journal ≡ h ++ Closes ∷ []) }
        ensures legal { Legal result.journal }
        ensures told { C.notices result.client ≡ told_first self ++ told result.journal }
        ensures builds { result.builds ≡ builds result.journal }
    {
        let SharedState { mut device } = self;
        for _ in rt.forever() {
            match device.finish() {
                Ok(closed) => return closed,
                Err((still, _given, _claimed)) => device = still,
            }
            thread::yield_now();
        }
        unreachable!()
    }
}

impl<C: Client> Device<C> {
    /// Ends the device: stops all flights, waits until no tile of them is open, notes those that end by
    /// it, and closes. What comes back is all that happened, with the close as the last entry, the
    /// client, and how many renders prepared their world. The pass has the whole device for its share,
    /// so each call of the journal was made with it, or with one that it took in. Takes no memory.
    pub fn close<R: Wait>(self, rt: &R, pass: Pass) -> Closed<C>
        requires pass { IsPassOf self.turn pass }
        requires idle { holding pass ≡ false }
        requires whole { IsWhole (share pass) }
        ensures begins { Extends (seen pass) result.journal }
        ensures ends { (h : History) × (result.journal ≡ h ++ Closes ∷ []) }
        ensures mine { mine pass ≡ places caller_of result.journal }
        ensures legal { Legal result.journal }
        ensures told { C.notices result.client ≡ notices_of pass ++ told result.journal }
        ensures builds { result.builds ≡ builds result.journal }
    {
        let Device { turn } = self;
        turn.close(pass).close(rt)
    }
}
