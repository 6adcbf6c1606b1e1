//! What the layers above may rely on: each law is the contract of a function that does nothing.
ghost use Rattle.std.specs.Prelude.{◌≡◌, ℕ, List, Bool, Some, None, true, false};
ghost use Rattle.frame_future.specs.declared.phase.Ended.{Ended as TheEnd};
ghost use Rattle.frame_future.specs.Ends.{Ends, NoneEnds};
ghost use Rattle.frame_future.specs.Flights.{Flying, begun, IsNew, IsSound};
ghost use Rattle.frame_future.specs.Future.{Future, IsDone, IsKept, IsStop};
ghost use Rattle.frame_future.specs.Reads.{AreSeen, IsRead, is_end};
ghost use Rattle.tile_claims.specs.declared.seats.Claims.{Claims as TheClaims};
ghost use Rattle.tile_claims.specs.declared.seats.Seat.{Seat as TheSeat};
ghost use Rattle.tile_claims.specs.Views.{IsAlone};

/// A flight that ends and was not stopped leaves its frame done, with exactly the picture of its key, of which no channel is mapped.
pub fn an_ended_flight_is_done()
    ensures { (after : ℕ) (old new : Future) (e : TheEnd) → IsKept old → (ends : Ends after old new e) → e.left ≡ false → IsDone new ends.last }
{}

/// The looks of a call that ends no flight are a list of what they read, one for each flight above the ticket.
pub fn looks_are_read()
    ensures { (after : ℕ) (old new : Future) → IsKept old → NoneEnds after old new → AreSeen after old new None }
{}

/// So are those of a call that ends a flight, up to that flight.
pub fn looks_are_read_to_an_end()
    ensures { (after : ℕ) (old new : Future) (e : TheEnd) → IsKept old → Ends after old new e → AreSeen after old new (Some e) }
{}

/// Of a flight that began, and of which no seat was handed out nor its first one lent, each look reads 0.
pub fn a_fresh_flight_reads_nothing()
    ensures { (ticket frame : ℕ) (channels : List Bool) (claims : TheClaims) (s : TheSeat) (read : ℕ) → IsNew claims s
        → IsRead (begun ticket frame channels claims s) read → read ≡ 0 }
{}

/// A flight that was stopped while only its first seat worked on it ends by the next look.
pub fn a_stopped_flight_of_one_seat_ends()
    ensures { (f g : Flying) (read : ℕ) → IsSound f → IsAlone f.view → IsStop f g → IsRead g read → is_end g read ≡ true }
{}
