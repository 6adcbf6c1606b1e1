//! What the layers above may rely on: each law is the contract of a function that does nothing.
ghost use Rattle.std.specs.Prelude.{◌≡◌, ◌<◌, ℕ, [], Bool, List, Option, Result, Some, None, length, map, slice_index_or, true};
ghost use Rattle.std.specs.List.{AllByRecursion, Contains, slice_get};
ghost use Rattle.std.specs.Option.{IsSomeAnd};
ghost use Rattle.seq_model.specs.Histories.{History};
ghost use Rattle.tile_claims.specs.declared.seats.Claims.{Claims as TheClaims};
ghost use Rattle.tile_claims.specs.declared.seats.Seat.{Seat as TheSeat};
ghost use Rattle.tile_claims.specs.Views.{IsAlone};
ghost use Rattle.frame_future.specs.Flights.{Flying, away, awaited, begun, is_stopped, looked_at, IsNew};
ghost use Rattle.frame_future.specs.Future.{Future, flight_at, flight_of, with_flight_at, AreHome, IsCount, IsKept};
ghost use Rattle.frame_future.specs.Reads.{IsRead};
ghost use Rattle.flight_books.specs.declared.kept.Cargo.{Cargo as TheCargo};
ghost use Rattle.flight_books.specs.Kept.{Books, cargo_at, cargo_of, AreBooks, IsBooked};
ghost use Rattle.flight_books.specs.Rests.{IsUnworked};
ghost use Rattle.flight_books.specs.Stops.{StopsAll};
ghost use Rattle.flight_books.specs.Sweeps.{note_of, IsSwept, WasBefore};
ghost use Rattle.flight_books.specs.Work.{AreAsked, StaysOrAsked};
ghost use Rattle.flight_books.specs.declared.work.Handed.{Handed as TheHanded};
ghost use Rattle.dev_types.specs.declared.handles.NoMemory.{NoMemory as NoRoom};

/// Of a flight that began, and of which no seat was handed out nor its first one lent, each look
/// reads no tile as claimed, and none as given.
pub fn a_begun_flight_reads_nothing()
    ensures claimed { (ticket frame : ℕ) (channels : List Bool) (claims : TheClaims) (s : TheSeat)
        (g : Flying) (read : ℕ) → IsNew claims s
        → IsCount (begun ticket frame channels claims s) g read → read ≡ 0 }
    ensures given { (ticket frame : ℕ) (channels : List Bool) (claims : TheClaims) (s : TheSeat)
        (read : ℕ) → IsNew claims s
        → IsRead (begun ticket frame channels claims s) read → read ≡ 0 }
{}

/// A flight of which no seat was handed out, and whose first seat gave as many tiles as it waits
/// for, ends by the next sweep: it is noted, it is over, and there is no flight with its ticket.
pub fn a_given_flight_ends<T>()
    ensures { (old new : Books T) (before after : History) (f : Flying)
        → IsKept old.future → IsSwept old new before after → Contains old.future.flights f
        → IsAlone f.view → length f.view.given ≡ awaited f
        → Contains after (note_of f) × Contains new.over (looked_at (awaited f) f)
        × (flight_at new.future f.ticket ≡ None) }
{}

/// Where all flights are stopped, those that a sweep leaves are flights of which seats were handed
/// out. So none is left where no seat of any flight was handed out before they were stopped.
pub fn stopped_flights_that_stay_were_handed_out<T>()
    ensures stay { (old new : Books T) (before after : History) → AreBooks old
        → AllByRecursion (λ f. is_stopped f ≡ true) old.future.flights
        → IsSwept old new before after
        → AllByRecursion (λ f. IsAlone f.view → ⊥) new.future.flights }
    ensures none { (first old new : Books T) (before after : History)
        → AllByRecursion (λ f. IsAlone f.view) first.future.flights → StopsAll first old
        → AreBooks old → IsSwept old new before after → new.future.flights ≡ [] }
{}

/// With each flight something is kept, and with all that is kept there is a flight; both are found
/// at one place, by the ticket, and by the frame.
pub fn each_flight_has_its_cargo<T>()
    ensures flights { (b : Books T) (place : ℕ) (f : Flying) → AreBooks b
        → slice_get b.future.flights place ≡ Some f
        → (c : TheCargo T) × (slice_get b.cargo place ≡ Some c) × IsBooked f c }
    ensures cargo { (b : Books T) (place : ℕ) (c : TheCargo T) → AreBooks b
        → slice_get b.cargo place ≡ Some c
        → (f : Flying) × (slice_get b.future.flights place ≡ Some f) × IsBooked f c }
    ensures tickets { (b : Books T) (ticket : ℕ) (f : Flying) → AreBooks b
        → flight_at b.future ticket ≡ Some f → IsSomeAnd (cargo_at b.cargo ticket) (IsBooked f) }
    ensures frames { (b : Books T) (frame : ℕ) (f : Flying) → AreBooks b → IsKept b.future
        → flight_of b.future frame ≡ Some f → IsSomeAnd (cargo_of b frame) (IsBooked f) }
{}

/// Each flight that a sweep leaves was there before it, and what is kept with it stays kept with it:
/// the sweep looked at it once.
pub fn a_sweep_keeps_pairs<T>()
    ensures { (old new : Books T) (before after : History) (place : ℕ) (g : Flying) → AreBooks old
        → IsKept old.future → IsSwept old new before after
        → slice_get new.future.flights place ≡ Some g
        → WasBefore old.future.flights old.cargo new.cargo place g }
{}

/// Where flights are asked for a seat, as [`FlightBooks::hand_out`](crate::FlightBooks::hand_out)
/// does, each stays as it is or was asked itself.
pub fn flights_that_are_asked_stay()
    ensures { (old new : Future) (result : Result (Option TheHanded) NoRoom)
        → AreAsked old new result
        → (length new.flights ≡ length old.flights) × (new.pictures ≡ old.pictures)
        × ((k : ℕ) (d : Flying) → k < length old.flights
        → StaysOrAsked (slice_index_or old.flights k d) (slice_index_or new.flights k d)) }
{}

/// A sweep of flights at which nobody worked notes nothing, and changes only what their first seats
/// know of their looks. Nobody worked at them still.
pub fn unworked_flights_stay<T>()
    ensures { (old new : Books T) (before after : History)
        → AllByRecursion IsUnworked old.future.flights → IsSwept old new before after
        → (after ≡ before)
        × (new ≡ record old {
          future = record old.future
              { flights = map (λ f. looked_at f.looked f) old.future.flights };
        })
        × AllByRecursion IsUnworked new.future.flights }
{}

/// A flight that was lent is found by its ticket, lent, and once it is back no flight is lent, if
/// none was lent before.
pub fn what_was_lent_comes_home()
    ensures { (s : Future) (ticket : ℕ) (f g : Flying) → AreHome s
        → flight_at s ticket ≡ Some f → g.home ≡ true
        → (flight_at (with_flight_at s ticket (away f)) ticket ≡ Some (away f))
        × AreHome (with_flight_at (with_flight_at s ticket (away f)) ticket g) }
{}
