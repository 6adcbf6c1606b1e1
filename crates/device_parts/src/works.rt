//! Work that is taken of the flights: another seat of the first that has one, with its scene.
ghost use Rattle.std.specs.Prelude.{◌≡◌, ◌<◌, Some, IfSome, length};
ghost use Rattle.std.specs.List.{slice_get};
ghost use Rattle.frame_future.specs.Future.{AreHome, IsCount, IsHandout};
ghost use Rattle.device_parts.specs.Standing.{IsStanding};
ghost use Rattle.device_parts.specs.Works.{AnswersFor, AsksFlights, MovesAt, TakesWork};

use crate::loads::PreparedScene;
use crate::parts::Parts;
use dev_types::NoMemory;
use std::alloc::Global;
use tile_claims::{Claims, Seat};
use world_snapshot::Work;

/// The answer that no flight has work: of each a look read all tiles claimed, or 2^20 seats were
/// handed out. Only [`Parts::take_work`] makes one.
#[derive(Drop)]
pub struct Idle {
    tickets: Vec<u64>,
}

impl Idle {
    /// The flights of which it speaks, by rising ticket.
    pub fn tickets(&self) -> &[u64]
        ensures { result.now ≡ self.now.tickets.items }
    {
        self.tickets.as_slice()
    }
}

/// What is answered to whoever asks for work.
#[derive(Drop)]
pub enum Handout {
    /// What tiles of the flight with this ticket are rendered with, at a seat of its own.
    Work { ticket: u64, work: Work },
    Idle(Idle),
}

/// Work of the flight with this ticket.
#[derive(Drop)]
pub(crate) struct Taken {
    pub(crate) ticket: u64,
    pub(crate) work: Work,
}

impl Parts {
    /// Asks the flights for work, by rising ticket, up to the first that has some: a handle to its
    /// claims with another seat of them, and its scene. The prepared world is shared, and of the view
    /// the lights are copied. `Idle` exactly where of each flight a look reads all tiles claimed, or
    /// 2^20 seats were handed out, with the tickets of all flights. Each flight that is asked is
    /// looked at, and the one that hands out work once more.
    ///
    /// # Errors
    /// `NoMemory`; no seat was handed out.
    pub fn take_work(&mut self, alloc: Global) -> Result<Handout, NoMemory>
        requires home { AreHome self.old.flights.future }
        ensures taken { TakesWork result self.old self.new }
        ensures home { AreHome self.new.flights.future }
        ensures stands { IsStanding self.old → IsStanding self.new }
    {
        match self.ask_flights(alloc) {
            Ok(Some(taken)) => Ok(Handout::Work {
                ticket: taken.ticket,
                work: taken.work,
            }),
            Ok(None) => match self.flights.tickets(alloc) {
                Ok(tickets) => Ok(Handout::Idle(Idle { tickets })),
                Err(none) => Err(none),
            },
            Err(none) => Err(none),
        }
    }

    /// Asks the flights for work, by rising ticket, up to the first that has some.
    fn ask_flights(&mut self, alloc: Global) -> Result<Option<Taken>, NoMemory>
        requires home { AreHome self.old.flights.future }
        ensures asked { AsksFlights result self.old self.new }
        ensures count { length self.new.flights.future.flights
            ≡ length self.old.flights.future.flights }
        ensures pictures { self.new.flights.future.pictures ≡ self.old.flights.future.pictures }
        ensures cargo { self.new.flights.cargo ≡ self.old.flights.cargo }
        ensures over { self.new.flights.over ≡ self.old.flights.over }
        ensures rest { self.new ≡ record self.old { flights = self.new.flights } }
        ensures home { AreHome self.new.flights.future }
        ensures stands { IsStanding self.old → IsStanding self.new }
    {
        for place in 0..self.flights.flight_count() {
            match self.ask_at(alloc, place) {
                Ok(Some(taken)) => return Ok(Some(taken)),
                Ok(None) => {}
                Err(none) => return Err(none),
            }
        }
        Ok(None)
    }

    /// Asks the flight at a place for work. Its scene is shared before a seat is split off, so that
    /// no seat is lost for want of memory; and not at all where a look reads all its tiles claimed.
    fn ask_at(&mut self, alloc: Global, place: usize) -> Result<Option<Taken>, NoMemory>
        requires home { AreHome self.old.flights.future }
        requires within { place < length self.old.flights.cargo }
        ensures asked { MovesAt place (AnswersFor self.old.history result) self.old self.new }
        ensures home { AreHome self.new.flights.future }
        ensures stands { IsStanding self.old → IsStanding self.new }
    {
        let claimed = self.look_at(place);
        // Its clause tells the proof what always holds of the books.
        let _books = self.flights.frames();
        if claimed == self.scene_at(place).tiles() {
            return Ok(None);
        }
        let scene = match self.scene_at(place).shared(alloc) {
            Ok(scene) => scene,
            Err(none) => return Err(none),
        };
        let ticket = self.flights.cargo()[place].ticket;
        match self.split_at(alloc, place) {
            Ok(Some((claims, seat))) => Ok(Some(Taken {
                ticket,
                work: scene.into_work(claims, seat),
            })),
            Ok(None) => Ok(None),
            Err(none) => Err(none),
        }
    }

    /// The scene of the flight at a place.
    fn scene_at(&self, place: usize) -> &PreparedScene
        requires home { AreHome self.now.flights.future }
        requires within { place < length self.now.flights.cargo }
        ensures { IfSome (slice_get self.now.flights.cargo place)
            (λ c. c.kept.scene ≡ Some result.now) }
    {
        match &self.flights.cargo()[place].kept.scene {
            Some(scene) => scene,
            None => unreachable!(),
        }
    }

    /// How many tiles of the flight at a place are claimed, by a look.
    fn look_at(&mut self, place: usize) -> u64
        requires home { AreHome self.old.flights.future }
        requires within { place < length self.old.flights.cargo }
        ensures looks { MovesAt place (λ f g. IsCount f g result) self.old self.new }
        ensures home { AreHome self.new.flights.future }
        ensures stands { IsStanding self.old → IsStanding self.new }
    {
        // Its clause tells the proof what always holds of the flights.
        self.flights.frames().are_kept();
        let ticket = self.flights.cargo()[place].ticket;
        self.flights.claimed(ticket)
    }

    /// Splits another seat off that of the flight at a place, where it has one.
    fn split_at(&mut self, alloc: Global, place: usize) -> Result<Option<(Claims, Seat)>, NoMemory>
        requires home { AreHome self.old.flights.future }
        requires within { place < length self.old.flights.cargo }
        ensures splits { MovesAt place (λ f g. IsHandout f g result) self.old self.new }
        ensures home { AreHome self.new.flights.future }
        ensures stands { IsStanding self.old → IsStanding self.new }
    {
        // Its clause tells the proof what always holds of the flights.
        self.flights.frames().are_kept();
        let ticket = self.flights.cargo()[place].ticket;
        self.flights.hand_out_of(alloc, ticket)
    }
}
