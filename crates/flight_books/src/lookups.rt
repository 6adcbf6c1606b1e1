//! What is kept, and the tickets of the flights.
ghost use Rattle.std.specs.Prelude.{◌≡◌, length, map, option_copied, IfOk};
ghost use Rattle.std.specs.List.{slice_get};
ghost use Rattle.std.specs.Option.{option_map};
ghost use Rattle.tile_claims.specs.Seats.{view};
ghost use Rattle.tile_claims.specs.Views.{looking_at_claims};
ghost use Rattle.frame_future.specs.Flights.{IsNew};
ghost use Rattle.flight_books.specs.Kept.{cargo_at, cargo_of};

use crate::books::{FlightBooks, found};
use crate::kept::Cargo;
use dev_types::{Handle, NoMemory};
use frame_future::Phase;
use std::alloc::{AllocError, Global};
use tile_claims::{Claims, Seat};

impl<T> FlightBooks<T> {
    /// What is kept with the flight with this ticket.
    pub fn cargo_at(&self, ticket: u64) -> Option<&Cargo<T>>
        ensures { option_copied result ≡ cargo_at self.now.cargo ticket }
    {
        match found(&self.cargo, ticket) {
            Some(place) => Some(&self.cargo[place]),
            None => None,
        }
    }

    /// What is kept with the flight of this frame that was not stopped.
    pub fn cargo_of(&self, frame: Handle) -> Option<&Cargo<T>>
        ensures { option_copied result ≡ cargo_of self.now frame }
    {
        match self.frames.phase_of(frame) {
            Phase::Flight(ticket) => self.cargo_at(ticket),
            _ => None,
        }
    }

    /// What is kept with the flights, in their order.
    pub fn cargo(&self) -> &[Cargo<T>]
        ensures { result.now ≡ self.now.cargo }
    {
        &self.cargo
    }

    /// How many flights there are, those that were stopped among them.
    pub fn flight_count(&self) -> usize
        ensures { result ≡ length self.now.future.flights }
    {
        self.cargo.len()
    }

    /// The ticket of the first flight, if there is one.
    pub fn first_ticket(&self) -> Option<u64>
        ensures { result ≡ option_map (λ f. f.ticket) (slice_get self.now.future.flights 0) }
    {
        if self.cargo.is_empty() {
            None
        } else {
            Some(self.cargo[0].ticket)
        }
    }

    /// The tickets of the flights, which rise.
    ///
    /// # Errors
    ///
    /// Want of memory alone.
    pub fn tickets(&self, alloc: Global) -> Result<Vec<u64>, NoMemory>
        ensures { IfOk result (λ tickets. tickets.items
            ≡ map (λ f. f.ticket) self.now.future.flights) }
    {
        Ok(tickets_of(&self.cargo, alloc)?)
    }
}

/// The tickets with which something is kept.
fn tickets_of<T>(cargo: &[Cargo<T>], alloc: Global) -> Result<Vec<u64>, AllocError>
    ensures { IfOk result (λ tickets. tickets.items ≡ map (λ c. c.ticket) cargo.now) }
{
    cargo.iter().map(|kept| kept.ticket).collect(alloc)
}

/// How many tiles are claimed of claims that a flight may begin with, by a look: none. A flight may
/// still begin with them.
pub fn fresh(claims: &Claims, seat: &mut Seat) -> u64
    requires { IsNew claims.now seat.old }
    ensures none { result ≡ 0 }
    ensures new { IsNew claims.now seat.new }
    ensures view { view seat.new ≡ looking_at_claims (view seat.old) (view seat.new).claims.last }
{
    claims.claimed(seat)
}
