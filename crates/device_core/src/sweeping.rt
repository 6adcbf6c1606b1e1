//! Sweeps of a device, each with what is asked after it.
ghost use Rattle.std.specs.Prelude.{◌≡◌, false, not};
ghost use Rattle.frame_future.specs.Future.{AreHome};
ghost use Rattle.seq_model.specs.Steps.{after};
ghost use Rattle.device_parts.specs.Looks.{AreShort};
ghost use Rattle.device_parts.specs.Uses.{NothingGoneIsUsed};
ghost use Rattle.device_parts.specs.Waits.{is_waited_for};
ghost use Rattle.device_parts.specs.Works.{TakesWork};
ghost use Rattle.device_core.specs.States.{Device};
ghost use Rattle.device_core.specs.Sweeping.{Sweeps, Works};

use crate::states::DeviceState;
use dev_types::{Client, Handle, NoMemory};
use device_parts::Handout;
use std::alloc::Global;

impl<C: Client> DeviceState<C> {
    /// Looks once at each flight, by rising ticket, and notes those that ended by it. The client is
    /// told who died with a note before the next one is made. Takes no memory.
    pub(crate) fn sweep(&mut self)
        requires home { AreHome self.old.parts.flights.future }
        ensures swept { Sweeps self.old self.new }
        ensures home { AreHome self.new.parts.flights.future }
        ensures short { AreShort self.new.parts.flights.future }
        ensures unused { NothingGoneIsUsed self.new.parts }
    {
        self.parts.sweep(&mut self.client);
        // Their clauses tell the proof what always holds of the parts, and that nothing gone is used.
        self.parts.are_parts();
        self.parts.use_nothing_gone();
    }

    /// Sweeps, and tells whether a call that waits for the frame is answered now: false exactly where
    /// the frame is in flight and the application holds it. Takes no memory.
    pub fn settled(&mut self, h: Handle) -> bool
        requires home { AreHome self.old.parts.flights.future }
        requires going { self.old.ending ≡ false }
        ensures swept { Sweeps self.old self.new }
        ensures settled { result ≡ not (is_waited_for (after self.new.parts.history) h) }
        ensures home { AreHome self.new.parts.flights.future }
        ensures short { AreShort self.new.parts.flights.future }
        ensures unused { NothingGoneIsUsed self.new.parts }
    {
        self.sweep();
        let _limit = self.limit;
        !self.parts.is_waited_for(h)
    }

    /// Sweeps, and asks the flights for work, by rising ticket, up to the first that has some: a handle
    /// to its claims with another seat of them, and its scene. `Idle` exactly where of each flight a
    /// look in this call reads all tiles claimed, or 2^20 seats were handed out, with the tickets of all
    /// flights.
    ///
    /// # Errors
    /// `NoMemory`; no seat was handed out.
    pub fn take_work(&mut self, alloc: Global) -> Result<Handout, NoMemory>
        requires home { AreHome self.old.parts.flights.future }
        ensures works { Works result self.old self.new }
        ensures home { AreHome self.new.parts.flights.future }
    {
        self.sweep();
        self.parts.take_work(alloc)
    }
}
