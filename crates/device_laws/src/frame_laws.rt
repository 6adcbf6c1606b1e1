//! What calls on kept frames leave of them: each law is the contract of a function that does nothing.
ghost use Rattle.std.specs.Prelude.{◌≡◌, ◌++◌, ◌∷◌, [], ℕ, Option, Result, Some};
ghost use Rattle.dev_types.specs.declared.handles.NoMemory.{NoMemory as NoRoom};
ghost use Rattle.flight_books.specs.Work.{AreAsked};
ghost use Rattle.flight_books.specs.declared.work.Handed.{Handed};
ghost use Rattle.frame_future.specs.Flights.{Flying, IsWorked, back};
ghost use Rattle.frame_future.specs.Future.{Finished, Future, flight_at, shown_by, with_flight, with_flight_at, with_picture};
ghost use Rattle.seq_model.specs.Histories.{History};
ghost use Rattle.tile_claims.specs.declared.seats.Seat.{Seat};
ghost use Rattle.device_laws.specs.Flown.{Flown, run_of, runs_of};
ghost use Rattle.device_laws.specs.Renders.{Renders};
ghost use Rattle.device_laws.specs.SameFrames.{SameFrames, shape_of_flight, shape_of_picture};
ghost use Rattle.device_laws.specs.Standing.{Standing, other_pictures};

/// Looks at a flight, seats of it that are handed out, its claims that are lent or come back, and
/// channels that are mapped or come back leave which flights and pictures there are. A flight that
/// begins is one more, and its frame's older picture is gone.
pub fn calls_on_kept_frames_leave_them()
    ensures flight { (old : Future) (ticket : ℕ) (f g : Flying)
        → flight_at old ticket ≡ Some f
        → shape_of_flight g ≡ shape_of_flight f
        → SameFrames old (with_flight_at old ticket g) }
    ensures put_back { (old : Future) (ticket : ℕ) (f : Flying) (seat : Seat)
        → flight_at old ticket ≡ Some f
        → IsWorked f seat
        → SameFrames old (with_flight_at old ticket (back seat f)) }
    ensures asked { (old new : Future) (result : Result (Option Handed) NoRoom)
        → AreAsked old new result
        → SameFrames old new }
    ensures picture { (old : Future) (p q : Finished)
        → shown_by old q.frame ≡ Some p
        → shape_of_picture q ≡ shape_of_picture p
        → SameFrames old (with_picture old q) }
    ensures begun { (old : Future) (flight : Flying)
        → (runs_of (with_flight old flight).flights ≡ runs_of old.flights ++ run_of flight ∷ [])
        × ((with_flight old flight).pictures ≡ other_pictures flight.frame old.pictures) }
{}

/// What is known of kept frames is known of all that are the same.
pub fn same_frames_stand_alike()
    ensures runs { (old new : Future) → SameFrames old new → runs_of new.flights ≡ runs_of old.flights }
    ensures flown { (history : History) (old new : Future)
        → SameFrames old new
        → Flown history (runs_of old.flights)
        → Flown history (runs_of new.flights) }
    ensures stands { (history : History) (old new : Future)
        → SameFrames old new
        → Standing history (runs_of old.flights) old.pictures
        → Standing history (runs_of new.flights) new.pictures }
    ensures renders { (history : History) (old new : Future)
        → SameFrames old new
        → Renders history old
        → Renders history new }
{}
