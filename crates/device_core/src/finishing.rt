//! How a device ends.
ghost use Rattle.std.specs.Prelude.{◌≡◌, ◌<◌, ◌++◌, ◌∷◌, [], IfErr, IfOk, IsOk, List, Some, true};
ghost use Rattle.std.specs.List.{AllByRecursion, slice_get};
ghost use Rattle.std.specs.Option.{option_map};
ghost use Rattle.dev_types.specs.declared.notices.Notice.{Notice as Notices};
ghost use Rattle.flight_books.specs.Stops.{StopsAll};
ghost use Rattle.frame_future.specs.Flights.{awaited};
ghost use Rattle.frame_future.specs.Future.{AreHome};
ghost use Rattle.seq_model.specs.Builds.{builds};
ghost use Rattle.seq_model.specs.Legal.{Legal};
ghost use Rattle.seq_model.specs.Told.{told};
ghost use Rattle.seq_model.specs.declared.calls.Entry.TheVariants.{Closed as Closes};
ghost use Rattle.tile_claims.specs.Views.{IsAlone};
ghost use Rattle.device_parts.specs.Looks.{AreShort};
ghost use Rattle.device_parts.specs.Uses.{NothingGoneIsUsed};
ghost use Rattle.device_core.specs.Finishing.{Halts, IsFirstLook};
ghost use Rattle.device_core.specs.States.{Device};

use crate::states::DeviceState;
use dev_types::Client;
use seq_model::Journal;

/// What a device leaves: all that happened on it, the client, and how many renders prepared their
/// world.
pub struct Closed<C> {
    pub journal: Journal,
    pub client: C,
    pub builds: u64,
}

impl<C: Client> DeviceState<C> {
    /// Ends the device: it is swept, each flight is stopped that was not, those that ended by it are
    /// noted, and all objects end with the close. Takes no memory.
    ///
    /// # Errors
    /// Exactly where a flight is left, of which a claim is open: of the first one how many tiles a look
    /// in this call read as given, and how many were claimed when it was stopped, which are more. The
    /// device comes back; it may be finished later, asked for work, or dropped. It is no error where no
    /// seat of any flight was handed out.
    pub fn finish(self) -> Result<Closed<C>, (DeviceState<C>, u64, u64)>
        requires home { AreHome self.parts.flights.future }
        ensures closed { IfOk result (λ c. (left : Device) × Halts self left
            × (left.parts.flights.future.flights ≡ [])
            × (c.journal ≡ left.parts.history ++ Closes ∷ [])
            × (c.builds ≡ builds c.journal)) }
        ensures legal { IfOk result (λ c. Legal c.journal) }
        ensures told { IfOk result (λ c. (before : List Notices)
            → self.told ≡ before ++ told self.parts.history
            → C.notices c.client ≡ before ++ told c.journal) }
        ensures open_ { IfErr result (λ e. Halts self e.0
            × IsFirstLook e.0 e.1 e.2 × (e.1 < e.2)) }
        ensures alone { AllByRecursion (λ f. IsAlone f.view) self.parts.flights.future.flights
            → IsOk result }
        ensures home { IfErr result (λ e. AreHome e.0.parts.flights.future) }
        ensures unused { IfErr result (λ e. NothingGoneIsUsed e.0.parts) }
    {
        let mut state = self;
        state.halt();
        match state.parts.first_look() {
            Some((given, claimed)) => Err((state, given, claimed)),
            None => Ok(state.close()),
        }
    }

    /// The client of a device that is given up without a close: it is told nothing more.
    pub fn into_client(self) -> C
        ensures notices { C.notices result ≡ self.told }
        ensures spare { C.spare result ≡ self.spare }
    {
        let DeviceState {
            parts: _,
            client,
            limit: _,
            loans: _,
            ending: _,
        } = self;
        client
    }

    /// Sweeps, stops each flight, and sweeps again.
    fn halt(&mut self)
        requires home { AreHome self.old.parts.flights.future }
        ensures halts { Halts self.old self.new }
        ensures alone { AllByRecursion (λ f. IsAlone f.view) self.old.parts.flights.future.flights
            → self.new.parts.flights.future.flights ≡ [] }
        ensures home { AreHome self.new.parts.flights.future }
        ensures short { AreShort self.new.parts.flights.future }
        ensures unused { NothingGoneIsUsed self.new.parts }
    {
        self.sweep();
        self.stop_all();
        // Its clause tells the proof what always holds of the flights.
        self.parts.flights_are_booked();
        self.sweep();
    }

    /// The end begins: each flight is stopped.
    fn stop_all(&mut self)
        requires home { AreHome self.old.parts.flights.future }
        ensures stops { StopsAll self.old.parts.flights self.new.parts.flights }
        ensures rest { self.new ≡ record self.old {
          parts = record self.old.parts { flights = self.new.parts.flights };
          ending = true;
        } }
        ensures home { AreHome self.new.parts.flights.future }
    {
        let _limit = self.limit;
        self.parts.stop_all();
        self.ending = true;
    }

    /// Closes the device, in which no flight is left.
    fn close(self) -> Closed<C>
        requires landed { self.parts.flights.future.flights ≡ [] }
        ensures journal { result.journal ≡ self.parts.history ++ Closes ∷ [] }
        ensures legal { Legal result.journal }
        ensures builds { result.builds ≡ builds result.journal }
        ensures told { (before : List Notices)
            → self.told ≡ before ++ told self.parts.history
            → C.notices result.client ≡ before ++ told result.journal }
    {
        let DeviceState {
            parts,
            mut client,
            limit: _,
            loans: _,
            ending: _,
        } = self;
        let (entries, builds) = parts.close(&mut client);
        Closed {
            journal: Journal::of(entries),
            client,
            builds,
        }
    }
}
