//! All flights are stopped.
ghost use Rattle.std.specs.Prelude.{◌≡◌, ◌<◌, None, length};
ghost use Rattle.frame_future.specs.Future.{flight_of, AreHome};
ghost use Rattle.flight_books.specs.Stops.{StopsAll, StopsAt, StopsFlight};

use crate::books::FlightBooks;
use dev_types::Handle;
use frame_future::Phase;

impl<T> FlightBooks<T> {
    /// Stops each flight that was not stopped: it waits for the tiles that were claimed. The
    /// pictures stay.
    pub fn stop_all(&mut self)
        requires home { AreHome self.old.future }
        ensures stopped { StopsAll self.old self.new }
        ensures home { AreHome self.new.future }
    {
        for place in 0..self.cargo.len() {
            self.stop_at(place);
        }
    }

    // Stops the flight at a place, if it was not stopped.
    fn stop_at(&mut self, place: usize)
        requires home { AreHome self.old.future }
        requires within { place < length self.old.cargo }
        ensures stopped { StopsAt place self.old self.new }
        ensures home { AreHome self.new.future }
    {
        let frame = self.cargo[place].frame;
        self.stop_flight(frame);
    }

    // Stops the frame's flight, if it has one. Its picture stays.
    fn stop_flight(&mut self, frame: Handle)
        requires home { AreHome self.old.future }
        ensures stopped { StopsFlight frame self.old.future self.new.future
            (flight_of self.old.future frame) }
        ensures none { flight_of self.new.future frame ≡ None }
        ensures cargo { self.new.cargo ≡ self.old.cargo }
        ensures over { self.new.over ≡ self.old.over }
        ensures home { AreHome self.new.future }
    {
        let Phase::Flight(_) = self.frames().phase_of(frame) else {
            return;
        };
        self.discard(frame);
    }
}
