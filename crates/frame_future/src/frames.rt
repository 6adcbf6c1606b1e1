//! The frames of a device.
ghost use Rattle.std.specs.Prelude.{◌≡◌, ℕ, ◌+◌, ◌<◌, ◌≤◌, Some, None, Err, [], All, not, length, vec_capacity, true, false, IsTrue, IsSome, IsOk, IfOk, IfErr, IfSome, OnOk, OnErr, ◌⊎◌, ◌↔◌};
ghost use Rattle.std.specs.Option.{IsSomeAnd, MatchOption, option_map};
ghost use Rattle.dev_types.specs.declared.refusals.Refused.TheVariants as refused;
ghost use Rattle.tile_claims.specs.Seats.{key_of, view};
ghost use Rattle.frame_future.specs.Ends.{NoneEnds, Ends, EndsAt, AreAlike, IsAlike, IsLast, StayOpen, StaysOpen};
ghost use Rattle.frame_future.specs.Reads.{AreSeen};
ghost use Rattle.frame_future.specs.Flights.{Flying, key_at, awaited, away, back, begun, IsNew, IsOfFlight, IsSound, IsWorked};
ghost use Rattle.frame_future.specs.Future.{Future, nothing, is_flight_of, is_picture_of, has_ticket, refusal_of_picture, flight_of, flight_at, shown_by, phase_of, is_mapped, asked_by, with_flight, with_flight_at, with_picture, without_picture, refusal_of_map, lent_as, given_back, loan_ended, loan_from, IsKept, IsLater, AreHome, IsCount, IsDiscarded, IsHandout, IsOut};
ghost use Rattle.frame_future.specs.declared.phase.Phase.TheVariants as phase;
ghost use Rattle.frame_future.specs.Pixels.{IsSized};
ghost use Rattle.tile_claims.specs.Parts.{tiles_of};
ghost use Rattle.std.specs.List.{filter, position};

use crate::flight::Flight;
use crate::mapped::MappedFrame;
use crate::phase::{Ended, Phase};
use crate::picture::Picture;
use dev_types::{Channel, Handle, NoMemory, Refused};
use picture_model::tile_count;
use std::alloc::Global;
use std::marker::Model;
use tile_claims::{Claims, Seat, TilePixels};

/// The frames of a device that are in flight or done, and the flights that were stopped.
///
/// Contracts see its flights by rising ticket, and its pictures.
#[derive(Drop)]
pub struct Frames {
    flights: Vec<Flight>,
    // With room for the pictures of all flights.
    pictures: Vec<Picture>,
}

impl Model for Frames {
    ghost use Rattle.std.specs.Prelude.{length, vec_capacity, ◌+◌, ◌≤◌};
    ghost use Rattle.frame_future.specs.Future.{Future, IsKept};

    ghost Value = { Future };

    ghost view = { λ s. record { flights = s.flights.items; pictures = s.pictures.items } };

    ghost invariant = { λ s. IsKept (record { flights = s.flights.items; pictures = s.pictures.items })
        × (length s.flights.items + length s.pictures.items ≤ vec_capacity s.pictures) };
}

impl Frames {
    /// No frame is in flight or done. Takes no memory.
    pub fn new(alloc: Global) -> Frames
        ensures { result ≡ nothing }
    {
        Frames {
            flights: Vec::new(alloc),
            pictures: Vec::new(alloc),
        }
    }

    /// What the frame has to show: nothing, or what the render with this ticket makes or has made.
    pub fn phase_of(&self, frame: Handle) -> Phase
        ensures value { result ≡ phase_of self.now frame }
        ensures kept { IsKept self.now }
    {
        if let Some(place) = self.flight_of(frame) {
            return Phase::Flight(self.flights[place].ticket());
        }
        match self.picture_of(frame) {
            Some(place) => Phase::Done(self.pictures[place].ticket()),
            None => Phase::Empty,
        }
    }

    /// The tickets of the flights rise, and each frame has one flight that was not stopped, or one picture, or neither. Nothing is done.
    pub fn are_kept(&self)
        ensures { IsKept self.now }
    {
        let _flights = &self.flights;
    }

    /// Begins a flight of the frame with these claims and their first seat, which is fresh. `channels` are those that were asked
    /// for, in the order of `Channel`. An older picture of the frame is gone. All memory that the flight and its picture need is
    /// taken here.
    ///
    /// # Errors
    ///
    /// Want of memory alone. The claims and the seat come back, and nothing has changed.
    pub fn begin(
        &mut self,
        alloc: Global,
        frame: Handle,
        ticket: u64,
        claims: Claims,
        seat: Seat,
        channels: [bool; 4],
    ) -> Result<(), (NoMemory, Claims, Seat)>
        requires new { IsNew claims seat }
        requires sized { IsSized (key_of claims) }
        requires landed { flight_of self.old frame ≡ None }
        requires unmapped { is_mapped self.old frame ≡ false }
        requires later { IsLater self.old ticket }
        ensures begun { OnOk result (self.new ≡ with_flight self.old (begun ticket frame channels claims seat)) }
        ensures phase { OnOk result (phase_of self.new frame ≡ phase.Flight ticket) }
        ensures refused { OnErr result (self.new ≡ self.old) }
        ensures returned { IfErr result (λ e. (e.1 ≡ claims) × (e.2 ≡ seat)) }
    {
        let Ok(room) = reserve(&mut self.flights, &mut self.pictures, alloc, &claims) else {
            return Err((NoMemory, claims, seat));
        };
        drop_pictures(&mut self.pictures, frame);
        self.flights
            .push_reserved(Flight::new(ticket, frame, channels, claims, seat, room));
        Ok(())
    }

    /// Looks at each flight with a ticket above `after`, by rising ticket, and ends the first of which the look shows that as many
    /// tiles are given as it waits for: no tile of it is open then. Where it was not stopped, its frame is done. None exactly where
    /// no look showed an end.
    pub fn next_ended(&mut self, after: u64) -> Option<Ended>
        requires home { AreHome self.old }
        ensures ended { MatchOption result (NoneEnds after self.old self.new) (Ends after self.old self.new) }
        ensures seen { AreSeen after self.old self.new result }
        ensures home { AreHome self.new }
        ensures kept { IsKept self.old }
    {
        let Some(place) = first_ended(&mut self.flights, after) else {
            return None;
        };
        let flight = self.flights.remove(place);
        let ticket = flight.ticket();
        if flight.is_stopped() {
            return Some(Ended { ticket, left: true });
        }
        self.pictures.push_reserved(flight.finish());
        Some(Ended {
            ticket,
            left: false,
        })
    }

    /// What the last look at the flight with this ticket read as given, 0 before the first, and how many given tiles the flight
    /// waits for.
    pub fn last_look(&self, ticket: u64) -> (u64, u64)
        requires { IsSome (flight_at self.now ticket) }
        ensures value { IfSome (flight_at self.now ticket) (λ f. result ≡ (f.looked, awaited f)) }
        ensures sound { IfSome (flight_at self.now ticket) IsSound }
    {
        self.flights[self.place_at(ticket)].last_look()
    }

    /// How many tiles of the flight with this ticket are claimed, by a look: at most all. Where no seat of it was handed out, it is how
    /// many its first seat claimed.
    pub fn claimed(&mut self, ticket: u64) -> u64
        requires { IsSomeAnd (flight_at self.old ticket) (λ f. f.home ≡ true) }
        ensures { IfSome (flight_at self.old ticket) (λ f. (g : Flying) × IsCount f g result × (self.new ≡ with_flight_at self.old ticket g)) }
    {
        let place = self.place_at(ticket);
        self.flights[place].claimed()
    }

    /// Stops the frame's flight, or drops its picture; a frame that has neither stays as it is. No channel of it is mapped.
    pub fn discard(&mut self, frame: Handle)
        requires unmapped { is_mapped self.old frame ≡ false }
        requires home { IfSome (flight_of self.old frame) (λ f. f.home ≡ true) }
        ensures discarded { IsDiscarded frame self.old self.new (flight_of self.old frame) }
        ensures phase { phase_of self.new frame ≡ phase.Empty }
    {
        match self.flight_of(frame) {
            Some(place) => self.flights[place].stop(),
            None => self.forget_picture(frame),
        }
    }

    /// Drops the picture of a frame that is dead. A loan of it is out no more.
    pub fn forget(&mut self, frame: Handle)
        ensures { self.new ≡ without_picture self.old frame }
    {
        self.forget_picture(frame);
    }

    /// Whether some channel of the frame is mapped.
    pub fn mapped(&self, frame: Handle) -> bool
        ensures { result ≡ is_mapped self.now frame }
    {
        match self.picture_of(frame) {
            Some(place) => self.pictures[place].is_lent(),
            None => false,
        }
    }

    /// Which channels the frame asked for when its picture was rendered, in the order of `Channel`; none where it has no picture.
    pub fn asked(&self, frame: Handle) -> [bool; 4]
        ensures { result ≡ asked_by self.now frame }
    {
        match self.picture_of(frame) {
            Some(place) => self.pictures[place].channels(),
            None => [false, false, false, false],
        }
    }

    /// A handle to the claims of the flight with this ticket, and another seat of them. `Ok(None)` exactly where a look reads all
    /// tiles claimed, or 2^20 seats were handed out.
    ///
    /// # Errors
    ///
    /// Want of memory alone.
    pub fn hand_out(
        &mut self,
        alloc: Global,
        ticket: u64,
    ) -> Result<Option<(Claims, Seat)>, NoMemory>
        requires { IsSomeAnd (flight_at self.old ticket) (λ f. f.home ≡ true) }
        ensures { IfSome (flight_at self.old ticket) (λ f. (g : Flying) × IsHandout f g result × (self.new ≡ with_flight_at self.old ticket g)) }
    {
        let place = self.place_at(ticket);
        self.flights[place].hand_out(alloc)
    }

    /// Takes the claims of the flight with this ticket, with their first seat, until [`Frames::put_back`].
    pub fn lend(&mut self, ticket: u64) -> (Claims, Seat)
        requires { IsSomeAnd (flight_at self.old ticket) (λ f. f.home ≡ true) }
        ensures lent { IfSome (flight_at self.old ticket) (λ f. self.new ≡ with_flight_at self.old ticket (away f)) }
        ensures held { IfSome (flight_at self.old ticket) (λ f. IsOfFlight f result.0 result.1 × (view result.1 ≡ f.view)) }
    {
        let place = self.place_at(ticket);
        self.flights[place].lend()
    }

    /// Puts back what was lent. No tile is open at the seat, and it has split off no seat, has not stopped and has collected nothing
    /// since.
    pub fn put_back(&mut self, ticket: u64, claims: Claims, seat: Seat)
        requires { IsSomeAnd (flight_at self.old ticket) (λ f. (f.home ≡ false) × IsOfFlight f claims seat × IsWorked f seat) }
        ensures { IfSome (flight_at self.old ticket) (λ f. self.new ≡ with_flight_at self.old ticket (back seat f)) }
    {
        let place = self.place_at(ticket);
        self.flights[place].put_back(claims, seat);
    }

    /// Lends a channel of the frame's picture under this number (ANARI 1.0 Specification, Frame: mapping).
    ///
    /// # Errors
    ///
    /// The first of these that applies, and nothing has changed: `InFlight` exactly where the frame is in flight, with the two
    /// numbers of [`Frames::last_look`]; `NoPicture` exactly where it has neither flight nor picture; `ChannelMapped` exactly where
    /// the channel is mapped; `NoChannel` exactly where it was not asked for; else `NoMemory`, where there is none.
    pub fn map(
        &mut self,
        alloc: Global,
        frame: Handle,
        channel: Channel,
        number: u64,
    ) -> Result<MappedFrame, Refused>
        requires { IfSome (flight_of self.old frame) (λ f. f.looked < awaited f) }
        ensures refused { IfSome (refusal_of_map self.old frame channel) (λ e. result ≡ Err e) }
        ensures causes { IfErr result (λ e. (refusal_of_map self.old frame channel ≡ Some e) ⊎ ((refusal_of_map self.old frame channel ≡ None) × (e ≡ refused.NoMemory))) }
        ensures loan { IfOk result (λ m. IsSomeAnd (shown_by self.old frame) (λ p. m ≡ loan_from p channel number)) }
        ensures lent { OnOk result (IsSomeAnd (shown_by self.old frame) (λ p. self.new ≡ with_picture self.old (lent_as p channel number))) }
        ensures unchanged { OnErr result (self.new ≡ self.old) }
    {
        if let Some(place) = self.flight_of(frame) {
            let (given, of) = self.flights[place].last_look();
            return Err(Refused::InFlight { given, of });
        }
        match self.picture_of(frame) {
            Some(place) => lend(&mut self.pictures[place], alloc, channel, number),
            None => Err(Refused::NoPicture),
        }
    }

    /// Ends a loan.
    ///
    /// # Errors
    ///
    /// `NotMapped` exactly where this loan is not out. It comes back, and nothing has changed.
    pub fn unmap(&mut self, frame: MappedFrame) -> Result<(), (Refused, MappedFrame)>
        ensures out { IsOk result ↔ IsOut self.old frame }
        ensures ended { OnOk result (IsSomeAnd (shown_by self.old frame.frame) (λ p. self.new ≡ with_picture self.old (given_back p frame.channel))) }
        ensures refused { IfErr result (λ e. (e.0 ≡ refused.NotMapped) × (e.1 ≡ frame)) }
        ensures unchanged { OnErr result (self.new ≡ self.old) }
    {
        match self.place_of_loan(&frame) {
            Some(place) => {
                self.pictures[place].take_back(frame.channel());
                Ok(())
            }
            None => Err((Refused::NotMapped, frame)),
        }
    }

    /// Ends the loan of a channel of the frame's picture, whoever holds what was lent of it. Nothing changes where the frame is not
    /// done, or the channel is not mapped.
    pub fn end_loan(&mut self, frame: Handle, channel: Channel)
        ensures { self.new ≡ loan_ended self.old frame channel }
    {
        match self.picture_of(frame) {
            Some(place) => self.pictures[place].take_back(channel),
            None => {}
        }
    }

    // The place of the frame's flight, if it has one that was not stopped.
    fn flight_of(&self, frame: Handle) -> Option<usize>
        ensures { result ≡ position (is_flight_of frame) self.now.flights }
    {
        self.flights
            .iter()
            .position(|flight| flight.frame() == frame && !flight.is_stopped())
    }

    // The place of the frame's picture, if it has one.
    fn picture_of(&self, frame: Handle) -> Option<usize>
        ensures { result ≡ position (is_picture_of frame) self.now.pictures }
    {
        self.pictures
            .iter()
            .position(|picture| picture.frame() == frame)
    }

    // The place of the flight with this ticket, if there is one.
    fn place_of(&self, ticket: u64) -> Option<usize>
        ensures { result ≡ position (has_ticket ticket) self.now.flights }
    {
        self.flights
            .iter()
            .position(|flight| flight.ticket() == ticket)
    }

    // The place of the flight with this ticket.
    fn place_at(&self, ticket: u64) -> usize
        requires { IsSome (flight_at self.now ticket) }
        ensures { position (has_ticket ticket) self.now.flights ≡ Some result }
    {
        match self.place_of(ticket) {
            Some(place) => place,
            None => unreachable!(),
        }
    }

    // The place of the picture that the loan is of, if the loan is out.
    fn place_of_loan(&self, frame: &MappedFrame) -> Option<usize>
        ensures { MatchOption result (IsOut self.now frame.now → ⊥) (λ place. (position (is_picture_of frame.now.frame) self.now.pictures ≡ Some place) × IsOut self.now frame.now) }
    {
        match self.picture_of(frame.frame()) {
            Some(place) => {
                if self.pictures[place].is_out(frame.channel(), frame.number()) {
                    Some(place)
                } else {
                    None
                }
            }
            None => None,
        }
    }

    // Drops the frame's picture, if it has one.
    fn forget_picture(&mut self, frame: Handle)
        ensures { self.new ≡ without_picture self.old frame }
    {
        drop_pictures(&mut self.pictures, frame);
    }
}

// Takes the memory for one more flight, and for its picture: the room for its tiles is handed out.
fn reserve(
    flights: &mut Vec<Flight>,
    pictures: &mut Vec<Picture>,
    alloc: Global,
    claims: &Claims,
) -> Result<Vec<TilePixels>, NoMemory>
    requires { IsSized (key_of claims.now) }
    ensures flights { flights.new.items ≡ flights.old.items }
    ensures pictures { pictures.new.items ≡ pictures.old.items }
    ensures capacity { vec_capacity pictures.old ≤ vec_capacity pictures.new }
    ensures place { OnOk result (length flights.old.items < vec_capacity flights.new) }
    ensures places { OnOk result (length flights.old.items + 1 + length pictures.old.items ≤ vec_capacity pictures.new) }
    ensures empty { IfOk result (λ room. room.items ≡ []) }
    ensures room { IfOk result (λ room. tiles_of (key_of claims.now) ≤ vec_capacity room) }
{
    let (w, h) = claims.sides();
    let room = Vec::with_capacity(alloc, tile_count(w, h) as usize)?;
    flights.reserve(1)?;
    pictures.reserve(flights.len() + 1)?;
    Ok(room)
}

// Lends a channel of a picture, if it is neither mapped nor missing.
fn lend(
    picture: &mut Picture,
    alloc: Global,
    channel: Channel,
    number: u64,
) -> Result<MappedFrame, Refused>
    ensures refused { IfSome (refusal_of_picture picture.old channel) (λ e. result ≡ Err e) }
    ensures causes { IfErr result (λ e. (refusal_of_picture picture.old channel ≡ Some e) ⊎ ((refusal_of_picture picture.old channel ≡ None) × (e ≡ refused.NoMemory))) }
    ensures loan { IfOk result (λ m. m ≡ loan_from picture.old channel number) }
    ensures lent { OnOk result (picture.new ≡ lent_as picture.old channel number) }
    ensures unchanged { OnErr result (picture.new ≡ picture.old) }
{
    if picture.is_mapped(channel) {
        return Err(Refused::ChannelMapped);
    }
    if !picture.is_asked(channel) {
        return Err(Refused::NoChannel);
    }
    match picture.lend(alloc, channel, number) {
        Ok(mapped) => Ok(mapped),
        Err(_) => Err(Refused::NoMemory),
    }
}

// Looks at the flights above a ticket up to the first that ends by it. Its place.
fn first_ended(flights: &mut Vec<Flight>, after: u64) -> Option<usize>
    requires { All (λ f. f.home ≡ true) flights.old.items }
    ensures ended { MatchOption result (StayOpen after (length flights.old.items) flights.old.items flights.new.items) (EndsAt after flights.old.items flights.new.items) }
    ensures alike { AreAlike flights.old.items flights.new.items }
    ensures count { length flights.new.items ≡ length flights.old.items }
    ensures capacity { vec_capacity flights.new ≡ vec_capacity flights.old }
{
    for place in 0..flights.len() {
        if look_above(&mut flights[place], after) {
            return Some(place);
        }
    }
    None
}

// Looks at a flight above a ticket. Whether it ends by it.
fn look_above(flight: &mut Flight, after: u64) -> bool
    requires { flight.old.home ≡ true }
    ensures alike { IsAlike flight.old flight.new }
    ensures stays { result ≡ false → StaysOpen after flight.old flight.new }
    ensures ends { result ≡ true → IsLast after flight.old flight.new }
{
    flight.ticket() > after && flight.look()
}

// Takes the pictures of a frame away.
fn drop_pictures(pictures: &mut Vec<Picture>, frame: Handle)
    ensures kept { pictures.new.items ≡ filter (λ p. not (is_picture_of frame p)) pictures.old.items }
    ensures count { length pictures.new.items ≤ length pictures.old.items }
    ensures capacity { vec_capacity pictures.new ≡ vec_capacity pictures.old }
{
    pictures.retain(|picture| picture.frame() != frame);
}
