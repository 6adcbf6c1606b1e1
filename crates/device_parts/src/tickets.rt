//! The tickets of flights, and what the last look at the first of them read.
ghost use Rattle.std.specs.Prelude.{◌≡◌, [], IfNone};
ghost use Rattle.std.specs.List.{slice_get};
ghost use Rattle.std.specs.Option.{option_map};
ghost use Rattle.frame_future.specs.Flights.{awaited};
ghost use Rattle.frame_future.specs.Future.{flight_of};
ghost use Rattle.seq_model.specs.Refusals.{phase_at};
ghost use Rattle.seq_model.specs.State.{ticket_in};
ghost use Rattle.seq_model.specs.Steps.{after};
ghost use Rattle.device_parts.specs.Standing.{IsStanding};

use crate::parts::Parts;
use dev_types::Handle;
use frame_future::Phase;

impl Parts {
    /// The ticket of a frame's flight, which is the place of its render in the journal. `None`
    /// exactly where the frame is no live frame in flight.
    pub fn ticket(&self, h: Handle) -> Option<u64>
        ensures flight { result ≡ option_map (λ f. f.ticket) (flight_of self.now.flights.future h) }
        ensures standing { IsStanding self.now
            → result ≡ ticket_in (phase_at (after self.now.history) h) }
    {
        self.are_parts();
        match self.flights.frames().phase_of(h) {
            Phase::Flight(ticket) => Some(ticket),
            _ => None,
        }
    }

    /// Of the first flight, those that were stopped among them: how many tiles its last look read as
    /// given, and how many given tiles it waits for. `None` exactly where there is no flight.
    pub fn first_look(&self) -> Option<(u64, u64)>
        ensures look { result ≡ option_map (λ f. (f.looked, awaited f))
            (slice_get self.now.flights.future.flights 0) }
        ensures none { IfNone result (self.now.flights.future.flights ≡ []) }
    {
        match self.flights.first_ticket() {
            Some(ticket) => Some(self.flights.frames().last_look(ticket)),
            None => None,
        }
    }
}
