//! The flights that are over, as contracts see them.
ghost use Rattle.std.specs.Prelude.{◌≡◌, ◌++◌, [], List, Some};
ghost use Rattle.frame_future.specs.Flights.{Flying};
ghost use Rattle.flight_books.specs.Kept.{over_by};

use frame_future::{Ended, Frames};
use std::marker::{Model, PhantomData};
use std::snapshot::Snapshot;

/// Flights, for contracts alone (`list`): they have no bytes, and nothing reads them when the
/// program runs.
pub(crate) struct FlightNames {
    marker: PhantomData<()>,
    pub(crate) ghost list: { List Flying },
}

impl Model for FlightNames {
    ghost use base.Fml.{ftrue};

    ghost also_owns = { λ _. ftrue };
}

impl FlightNames {
    // Names own nothing, so they may be those of any flights.
    fn any() -> FlightNames
        ghost list: { List Flying }
        ensures { result.list ≡ list }
    {
        FlightNames {
            marker: PhantomData,
        }
    }

    // The names of flights that these show.
    fn of(_names: &FlightNames, _before: &Snapshot<Frames>, _ended: &Ended) -> FlightNames
        ghost list: { List Flying }
        ensures { result.list ≡ list }
    {
        FlightNames::any()
    }

    /// No flight.
    pub(crate) fn none() -> FlightNames
        ensures { result.list ≡ [] }
    {
        FlightNames::any()
    }

    /// These, and the flight that a look at the frames before it showed the end of.
    pub(crate) fn grown(&self, before: &Snapshot<Frames>, ended: &Ended) -> FlightNames
        ensures { result.list ≡ self.now.list ++ over_by before.now.value (Some ended.now) }
    {
        FlightNames::of(self, before, ended)
    }
}

impl Drop for FlightNames {
    fn drop(self) {
        let Self { marker: _ } = self;
    }
}
