//! A flight whose work is lent, to whoever renders its tiles.
ghost use Rattle.std.specs.Prelude.{◌≡◌, None, IfNone, IfSome, false};
ghost use Rattle.std.specs.Option.{is_some};
ghost use Rattle.frame_future.specs.Future.{AreHome, flight_of};
ghost use Rattle.seq_model.specs.Refusals.{phase_at};
ghost use Rattle.seq_model.specs.State.{ticket_in};
ghost use Rattle.seq_model.specs.Steps.{after};
ghost use Rattle.device_parts.specs.Lends.{HasLentFlight, HasReturned, IsLentFlight};

use crate::states::DeviceState;
use dev_types::{Client, Handle};
use world_snapshot::Work;

impl<C: Client> DeviceState<C> {
    /// Takes the work of a frame's flight, until [`DeviceState::return_flight`]: the claims of its
    /// tiles with their first seat, and its scene. `None` exactly where the frame is no live frame in
    /// flight, and nothing has changed then. Until the work is back no other call is made. Takes no
    /// memory.
    pub fn lend_flight(&mut self, h: Handle) -> Option<Work>
        requires home { AreHome self.old.parts.flights.future }
        requires going { self.old.ending ≡ false }
        ensures lent { IfSome result (HasLentFlight h self.old.parts self.new.parts) }
        ensures none { IfNone result (flight_of self.old.parts.flights.future h ≡ None) }
        ensures exactly { is_some result
            ≡ is_some (ticket_in (phase_at (after self.old.parts.history) h)) }
        ensures same { IfNone result (self.new ≡ self.old) }
        ensures rest { self.new ≡ record self.old { parts = self.new.parts } }
    {
        let _limit = self.limit;
        self.parts.lend_flight(h)
    }

    /// Puts back the work of the flight that is lent. No tile is open at its seat, and since the
    /// lending the seat has split off no seat, has not stopped and has collected nothing. Takes no
    /// memory.
    pub fn return_flight(&mut self, work: Work)
        requires { IsLentFlight self.old.parts work }
        ensures returned { HasReturned self.old.parts self.new.parts work }
        ensures home { AreHome self.new.parts.flights.future }
        ensures rest { self.new ≡ record self.old { parts = self.new.parts } }
    {
        let _limit = self.limit;
        self.parts.return_flight(work);
    }
}
