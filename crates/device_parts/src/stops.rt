//! All flights are stopped: so a device ends.
ghost use Rattle.std.specs.Prelude.{◌≡◌};
ghost use Rattle.flight_books.specs.Stops.{StopsAll};
ghost use Rattle.frame_future.specs.Future.{AreHome};

use crate::parts::Parts;

impl Parts {
    /// Stops each flight that was not stopped: it waits for the tiles that were claimed, and where no
    /// seat of it was handed out, those are the tiles that its first seat claimed. The history does not
    /// tell it: so a device ends. Takes no memory.
    pub fn stop_all(&mut self)
        requires home { AreHome self.old.flights.future }
        ensures stopped { StopsAll self.old.flights self.new.flights }
        ensures rest { self.new ≡ record self.old { flights = self.new.flights } }
        ensures home { AreHome self.new.flights.future }
    {
        self.flights.stop_all();
    }
}
