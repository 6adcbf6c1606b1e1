//! Pictures that are mapped, flights that are lent, and what is kept with a flight.
ghost use Rattle.std.specs.Prelude.{◌≡◌, ◌↔◌, ◌⊎◌, ◌<◌, Err, None, Some, false, true, IfErr, IfOk, IfSome, IsOk, IsSome, OnErr, OnOk};
ghost use Rattle.std.specs.Borrow.{Lends, sem};
ghost use Rattle.std.specs.Option.{IsSomeAnd};
ghost use Rattle.dev_types.specs.declared.refusals.Refused.TheVariants as refused;
ghost use Rattle.tile_claims.specs.Seats.{view};
ghost use Rattle.frame_future.specs.Flights.{Flying, awaited, away, back, is_stopped, IsOfFlight, IsWorked};
ghost use Rattle.frame_future.specs.Future.{flight_at, flight_of, given_back, lent_as, loan_ended, loan_from, refusal_of_map, shown_by, with_flight_at, with_picture, without_picture, AreHome, IsCount, IsHandout, IsOut};
ghost use Rattle.flight_books.specs.Kept.{cargo_at, with_future, with_kept};

use crate::books::{FlightBooks, place_of};
use dev_types::{Channel, Handle, NoMemory, Refused};
use frame_future::MappedFrame;
use std::alloc::Global;
use std::mem;
use tile_claims::{Claims, Seat};

impl<T> FlightBooks<T> {
    ghost use Rattle.flight_books.specs.contracts.books.FlightBooks.{the_row};

    /// Lends a channel of the frame's picture under this number, as
    /// [`Frames::map`](frame_future::Frames::map) does.
    ///
    /// # Errors
    ///
    /// The first of these that applies, and nothing has changed: `InFlight` exactly where the frame
    /// is in flight, with what the last look read as given and how many given tiles the flight
    /// waits for; `NoPicture` exactly where it has neither flight nor picture; `ChannelMapped`
    /// exactly where the channel is mapped; `NoChannel` exactly where it was not asked for; else
    /// `NoMemory`, where there is none.
    pub fn map(
        &mut self,
        alloc: Global,
        frame: Handle,
        channel: Channel,
        number: u64,
    ) -> Result<MappedFrame, Refused>
        requires { IfSome (flight_of self.old.future frame) (λ f. f.looked < awaited f) }
        ensures refused { IfSome (refusal_of_map self.old.future frame channel)
            (λ e. result ≡ Err e) }
        ensures causes { IfErr result
            (λ e. (refusal_of_map self.old.future frame channel ≡ Some e)
            ⊎ ((refusal_of_map self.old.future frame channel ≡ None) × (e ≡ refused.NoMemory))) }
        ensures loan { IfOk result (λ m. IsSomeAnd (shown_by self.old.future frame)
            (λ p. m ≡ loan_from p channel number)) }
        ensures lent { OnOk result (IsSomeAnd (shown_by self.old.future frame) (λ p. self.new
            ≡ with_future self.old (with_picture self.old.future (lent_as p channel number)))) }
        ensures unchanged { OnErr result (self.new ≡ self.old) }
    {
        self.frames.map(alloc, frame, channel, number)
    }

    /// Ends a loan.
    ///
    /// # Errors
    ///
    /// `NotMapped` exactly where this loan is not out. It comes back, and nothing has changed.
    pub fn unmap(&mut self, frame: MappedFrame) -> Result<(), (Refused, MappedFrame)>
        ensures out { IsOk result ↔ IsOut self.old.future frame }
        ensures ended { OnOk result (IsSomeAnd (shown_by self.old.future frame.frame) (λ p. self.new
            ≡ with_future self.old (with_picture self.old.future (given_back p frame.channel)))) }
        ensures refused { IfErr result (λ e. (e.0 ≡ refused.NotMapped) × (e.1 ≡ frame)) }
        ensures unchanged { OnErr result (self.new ≡ self.old) }
    {
        self.frames.unmap(frame)
    }

    /// Ends the loan of a channel of the frame's picture, whoever holds what was lent of it.
    /// Nothing changes where the frame is not done, or the channel is not mapped.
    pub fn end_loan(&mut self, frame: Handle, channel: Channel)
        ensures { self.new ≡ with_future self.old (loan_ended self.old.future frame channel) }
    {
        self.frames.end_loan(frame, channel);
    }

    /// Drops the picture of a frame that is dead. A loan of it is out no more.
    pub fn forget(&mut self, frame: Handle)
        ensures { self.new ≡ with_future self.old (without_picture self.old.future frame) }
    {
        self.frames.forget(frame);
    }

    /// How many tiles of the flight with this ticket are claimed, by a look: at most all. Where no
    /// seat of it was handed out, it is how many its first seat claimed.
    pub fn claimed(&mut self, ticket: u64) -> u64
        requires { IsSomeAnd (flight_at self.old.future ticket) (λ f. f.home ≡ true) }
        ensures counted { IfSome (flight_at self.old.future ticket)
            (λ f. (g : Flying) × IsCount f g result
            × (self.new ≡ with_future self.old (with_flight_at self.old.future ticket g))) }
        ensures home { AreHome self.old.future → AreHome self.new.future }
    {
        self.frames.claimed(ticket)
    }

    /// A handle to the claims of the flight with this ticket, and another seat of them. `Ok(None)`
    /// exactly where a look reads all tiles claimed, or 2^20 seats were handed out.
    ///
    /// # Errors
    ///
    /// Want of memory alone.
    pub fn hand_out_of(
        &mut self,
        alloc: Global,
        ticket: u64,
    ) -> Result<Option<(Claims, Seat)>, NoMemory>
        requires { IsSomeAnd (flight_at self.old.future ticket) (λ f. f.home ≡ true) }
        ensures handed { IfSome (flight_at self.old.future ticket)
            (λ f. (g : Flying) × IsHandout f g result
            × (self.new ≡ with_future self.old (with_flight_at self.old.future ticket g))) }
        ensures home { AreHome self.old.future → AreHome self.new.future }
    {
        self.frames.hand_out(alloc, ticket)
    }

    /// Takes the claims of the flight with this ticket, which was not stopped, with their first
    /// seat, until [`FlightBooks::put_back`].
    pub fn lend(&mut self, ticket: u64) -> (Claims, Seat)
        requires { IsSomeAnd (flight_at self.old.future ticket)
            (λ f. (f.home ≡ true) × (is_stopped f ≡ false)) }
        ensures lent { IfSome (flight_at self.old.future ticket)
            (λ f. self.new
            ≡ with_future self.old (with_flight_at self.old.future ticket (away f))) }
        ensures held { IfSome (flight_at self.old.future ticket)
            (λ f. IsOfFlight f result.0 result.1 × (view result.1 ≡ f.view)) }
    {
        self.frames.lend(ticket)
    }

    /// Puts back what was lent. No tile is open at the seat, and it has split off no seat, has not
    /// stopped and has collected nothing since.
    pub fn put_back(&mut self, ticket: u64, claims: Claims, seat: Seat)
        requires { IsSomeAnd (flight_at self.old.future ticket)
            (λ f. (f.home ≡ false) × IsOfFlight f claims seat × IsWorked f seat) }
        ensures { IfSome (flight_at self.old.future ticket)
            (λ f. self.new
            ≡ with_future self.old (with_flight_at self.old.future ticket (back seat f))) }
    {
        self.frames.put_back(ticket, claims, seat);
    }

    /// What is kept with the flight with this ticket, to be changed.
    pub fn kept_mut(&mut self, ticket: u64) -> &mut T
        requires { IsSome (cargo_at self.old.cargo ticket) }
        // The books end with what was last written, with that flight alone.
        ensures* writes_back { sem 𝓛 (Lends (the_row T.row) T.row self.entry result
            (with_kept self.old ticket)) }
        ensures value { IfSome (cargo_at self.old.cargo ticket) (λ c. result.now ≡ c.kept) }
    {
        let place = place_of(&self.cargo, ticket);
        let cargo = &mut self.cargo[place];
        &mut cargo.kept
    }

    /// Keeps something else with the flight with this ticket. What was kept comes back.
    pub fn load(&mut self, ticket: u64, kept: T) -> T
        requires { IsSome (cargo_at self.old.cargo ticket) }
        ensures was { IfSome (cargo_at self.old.cargo ticket) (λ c. result ≡ c.kept) }
        ensures kept { self.new ≡ with_kept self.old ticket kept }
    {
        let place = place_of(&self.cargo, ticket);
        mem::replace(&mut self.cargo[place].kept, kept)
    }
}
