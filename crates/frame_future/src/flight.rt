//! One flight of a frame.
ghost use Rattle.std.specs.Prelude.{◌≡◌, ◌==◌, ◌^◌, ◌≤◌, ◌<◌, ℕ, [], length, Some, None, true, false, min, vec_capacity, IfOk, IfErr, OnErr, IfSome, MatchOption};
ghost use Rattle.tile_claims.specs.Parts.{tiles_of};
ghost use Rattle.tile_claims.specs.Seats.{frame_of, key_of, view, IsSeatOf};
ghost use Rattle.tile_claims.specs.Rule.{HasSeenAll};
ghost use Rattle.tile_claims.specs.Views.{claimed, beside, IsAlone};
ghost use Rattle.frame_future.specs.Flights.{Flying, key_at, is_stopped, awaited, begun, looked_at, stopped_at, asked_at, handed_at, away, back, IsSound, IsNew, IsOfFlight, IsWorked, HasEnded};
ghost use Rattle.frame_future.specs.Future.{finished, IsCount, IsStop, IsHandout};
ghost use Rattle.frame_future.specs.Pixels.{IsSized, AreAll};

use crate::held::{Held, Place};
use crate::picture::Picture;
use crate::tiles::Tiles;
use dev_types::{Handle, NoMemory};
use picture_model::tile_count;
use std::alloc::Global;
use std::marker::Model;
use std::mem;
use std::snapshot::Snapshot;
use tile_claims::{Claims, Seat, TilePixels};

/// How many seats a flight hands out at most.
const MOST_SEATS: u64 = 1 << 20;

/// A flight of a frame, or one that was stopped.
///
/// Contracts see its ticket, its frame, what its first seat knows of its claims, and what the last look read.
#[derive(Drop)]
pub struct Flight {
    ticket: u64,
    frame: Handle,
    channels: [bool; 4],
    place: Place,
    tiles: u64,
    stop: Option<u64>,
    looked: u64,
    handed: u64,
    // The room for its tiles, when they are all given.
    room: Vec<TilePixels>,
}

impl Model for Flight {
    ghost use Rattle.std.specs.Prelude.{◌≡◌, [], vec_capacity};
    ghost use Rattle.frame_future.specs.Flights.{Flying};
    ghost use Rattle.frame_future.specs.Held.{flying_of, held_in, IsNoted};

    ghost Value = { Flying };

    ghost view = { λ f. flying_of f.ticket f.frame f.channels f.place f.looked };

    ghost invariant = { λ f. (f.room.items ≡ [])
        × IsNoted (flying_of f.ticket f.frame f.channels f.place f.looked) (held_in f.place) f.tiles f.stop f.handed (vec_capacity f.room) };
}

impl Flight {
    /// A flight that begins, with room for its tiles.
    pub(crate) fn new(
        ticket: u64,
        frame: Handle,
        channels: [bool; 4],
        claims: Claims,
        seat: Seat,
        room: Vec<TilePixels>,
    ) -> Flight
        requires new { IsNew claims seat }
        requires sized { IsSized (key_of claims) }
        requires empty { room.items ≡ [] }
        requires room { tiles_of (key_of claims) ≤ vec_capacity room }
        ensures { result ≡ begun ticket frame channels claims seat }
    {
        let (w, h) = claims.sides();
        Flight {
            ticket,
            frame,
            channels,
            place: Place::Here(Held { claims, seat }),
            tiles: tile_count(w, h) as u64,
            stop: None,
            looked: 0,
            handed: 0,
            room,
        }
    }

    pub(crate) fn ticket(&self) -> u64
        ensures { result ≡ self.now.ticket }
    {
        self.ticket
    }

    pub(crate) fn frame(&self) -> Handle
        ensures { result ≡ self.now.frame }
    {
        self.frame
    }

    pub(crate) fn is_stopped(&self) -> bool
        ensures { result ≡ is_stopped self.now }
    {
        self.stop.is_some()
    }

    /// What the last look read as given, and how many given tiles the flight waits for.
    pub(crate) fn last_look(&self) -> (u64, u64)
        ensures value { result ≡ (self.now.looked, awaited self.now) }
        ensures sound { IsSound self.now }
    {
        (self.looked, self.stop.unwrap_or(self.tiles))
    }

    /// Looks at the count of given tiles. Whether it shows the flight's end.
    pub(crate) fn look(&mut self) -> bool
        requires { self.old.home ≡ true }
        ensures look { self.new ≡ looked_at self.new.looked self.old }
        ensures ended { result ≡ (self.new.looked == awaited self.old) }
        ensures within { self.new.looked ≤ awaited self.old }
        ensures rises { self.old.view.gives.last ≤ self.new.looked }
        ensures alone { IsAlone self.old.view → self.new.looked ≡ length self.old.view.given }
        ensures seen { result ≡ true → HasEnded self.new }
    {
        self.looked = self.place.given();
        self.looked == self.stop.unwrap_or(self.tiles)
    }

    /// Looks at the count of claimed tiles: how many are claimed, at most all.
    pub(crate) fn claimed(&mut self) -> u64
        requires { self.old.home ≡ true }
        ensures { IsCount self.old self.new result }
    {
        self.place.claimed()
    }

    /// Stops the flight, which then waits for the tiles that were claimed.
    pub(crate) fn stop(&mut self)
        requires home { self.old.home ≡ true }
        requires going { is_stopped self.old ≡ false }
        ensures { IsStop self.old self.new }
    {
        self.stop = Some(self.place.stop());
    }

    /// A handle to the claims with another seat: none exactly where a look at the count of claimed tiles reads all of them, or
    /// `MOST_SEATS` were handed out.
    pub(crate) fn hand_out(&mut self, alloc: Global) -> Result<Option<(Claims, Seat)>, NoMemory>
        requires { self.old.home ≡ true }
        ensures { IsHandout self.old self.new result }
    {
        let claimed = self.place.claimed();
        if claimed == self.tiles || self.handed == MOST_SEATS {
            return Ok(None);
        }
        let out = self.place.hand_out(alloc)?;
        self.handed += 1;
        Ok(Some(out))
    }

    /// Takes the claims with their first seat, until [`Flight::put_back`].
    pub(crate) fn lend(&mut self) -> (Claims, Seat)
        requires { self.old.home ≡ true }
        ensures lent { self.new ≡ away self.old }
        ensures held { IsOfFlight self.old result.0 result.1 × (view result.1 ≡ self.old.view) }
    {
        let Held { claims, seat } = self.place.lend();
        (claims, seat)
    }

    /// Puts them back.
    pub(crate) fn put_back(&mut self, claims: Claims, seat: Seat)
        requires same { IsOfFlight self.old claims seat }
        requires worked { IsWorked self.old seat }
        ensures { self.new ≡ back seat self.old }
    {
        self.place = Place::Here(Held { claims, seat });
    }

    /// Collects the tiles, which are all given.
    pub(crate) fn finish(self) -> Picture
        requires home { self.home ≡ true }
        requires seen { HasSeenAll self.view }
        ensures { result ≡ finished self }
    {
        let Flight {
            ticket,
            frame,
            channels,
            place,
            tiles,
            stop: _,
            looked: _,
            handed: _,
            room,
        } = self;
        let Held { claims, mut seat } = place.into_held();
        let pixels = collect_all(&claims, &mut seat, tiles as u32, room);
        Picture::new(ticket, frame, channels, Tiles::new(&claims, pixels))
    }
}

/// All tiles of claims, in their order.
fn collect_all(
    claims: &Claims,
    seat: &mut Seat,
    tiles: u32,
    room: Vec<TilePixels>,
) -> Vec<TilePixels>
    requires seat { IsSeatOf claims.now seat.old }
    requires first { (view seat.old).first ≡ true }
    requires seen { HasSeenAll (view seat.old) }
    requires there { (view seat.old).collected ≡ [] }
    requires sized { IsSized (key_of claims.now) }
    requires count { tiles ≡ tiles_of (key_of claims.now) }
    requires empty { room.items ≡ [] }
    requires room { tiles ≤ vec_capacity room }
    ensures { AreAll (key_of claims.now) result.items }
{
    let mut pixels = room;
    for tile in 0..tiles {
        pixels.push_reserved(claims.collect(seat, tile));
    }
    pixels
}
