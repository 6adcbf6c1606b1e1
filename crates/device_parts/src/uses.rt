//! What uses objects that are gone.
ghost use Rattle.device_parts.specs.Uses.{NothingGoneIsUsed};

use crate::parts::Parts;

impl Parts {
    /// Nothing uses what is gone, at any time, so also when the client is told of an end: each flight
    /// that reached it is over, with no tile open, and no kept world holds it.
    pub fn use_nothing_gone(&self)
        ensures { NothingGoneIsUsed self.now }
    {
        // Its clause tells the proof that no tile of a flight that is over is open.
        let _flights = self.flights.frames();
    }
}
