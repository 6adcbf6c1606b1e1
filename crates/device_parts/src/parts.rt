//! The parts of a device between two entries.
ghost use Rattle.std.specs.Prelude.{◌≡◌, [], IfOk};
ghost use Rattle.frame_future.specs.Future.{nothing};
ghost use Rattle.device_parts.specs.Standing.{IsStanding};

use crate::journals::EntryLog;
use crate::loads::Load;
use dev_types::NoMemory;
use flight_books::FlightBooks;
use kept_worlds::KeptWorlds;
use object_steps::ObjectStore;
use std::alloc::Global;
use std::marker::Model;
use world_snapshot::Prepared;

/// The objects, the flights and the kept worlds of a device, and all that happened.
#[derive(Drop)]
pub struct Parts {
    pub(crate) objects: ObjectStore,
    pub(crate) flights: FlightBooks<Load>,
    pub(crate) worlds: KeptWorlds<Prepared>,
    pub(crate) journal: EntryLog,
    pub(crate) builds: u64,
}

impl Model for Parts {
    ghost use Rattle.device_parts.specs.AllParts.{AreParts, Inside as Insides};

    ghost Value = { Insides };

    ghost view = { λ p. record {
      objects = p.objects;
      flights = p.flights;
      worlds = p.worlds;
      history = p.journal.items;
      room = p.journal.room;
      builds = p.builds;
    } };

    ghost invariant = { λ p. AreParts (record {
      objects = p.objects;
      flights = p.flights;
      worlds = p.worlds;
      history = p.journal.items;
      room = p.journal.room;
      builds = p.builds;
    }) };
}

impl Parts {
    /// The parts of a device on which nothing happened.
    ///
    /// # Errors
    /// `NoMemory`.
    pub fn new(alloc: Global) -> Result<Parts, NoMemory>
        ensures history { IfOk result (λ parts. parts.history ≡ []) }
        ensures objects { IfOk result (λ parts. parts.objects.dead ≡ []) }
        ensures flights { IfOk result (λ parts. parts.flights.future ≡ nothing) }
        ensures stands { IfOk result IsStanding }
    {
        let journal = EntryLog::new(alloc)?;
        let mut objects = ObjectStore::new(alloc);
        // A discard finds a free place among the stopped flights whatever the frame shows.
        objects.make_places(1)?;
        Ok(Parts {
            objects,
            flights: FlightBooks::new(alloc),
            worlds: KeptWorlds::new(alloc),
            journal,
            builds: 0,
        })
    }
}
