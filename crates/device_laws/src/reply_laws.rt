//! What replies tell of flights was read of them, and never falls: each law is the contract of a
//! function that does nothing.
ghost use Rattle.std.specs.Prelude.{
  ◌≡◌,
  ◌≤◌,
  ◌+◌,
  ◌++◌,
  ◌∷◌,
  [],
  ℕ,
  List,
  None,
  Option,
  Result,
  Some,
  length,
  map,
};
ghost use Rattle.std.specs.Option.{MatchOption};
ghost use Rattle.dev_types.specs.declared.handles.NoMemory.{NoMemory as NoRoom};
ghost use Rattle.flight_books.specs.Work.{AreAsked};
ghost use Rattle.flight_books.specs.declared.work.Handed.{Handed};
ghost use Rattle.frame_future.specs.Flights.{Flying};
ghost use Rattle.frame_future.specs.Future.{
  Future,
  IsDiscarded,
  Rising,
  flight_at,
  flight_of,
  with_flight_at,
};
ghost use Rattle.frame_future.specs.Reads.{AreSeen};
ghost use Rattle.frame_future.specs.declared.phase.Ended.{Ended};
ghost use Rattle.seq_model.specs.Extensions.{readings_of};
ghost use Rattle.seq_model.specs.Histories.{History};
ghost use Rattle.seq_model.specs.Legal.{IsNoLess, reading, seen_of};
ghost use Rattle.seq_model.specs.Steps.{after};
ghost use Rattle.seq_model.specs.declared.calls.Entry.{Entry};
ghost use Rattle.device_laws.specs.Flown.{Flown, runs_of};
ghost use Rattle.device_laws.specs.Replies.{AreTold};
ghost use Rattle.device_laws.specs.Standing.{Standing};

/// No reply tells of more given tiles of a flight than its last look read. It stays so by looks, by
/// entries that tell of no flight, by one that tells what the last look at a frame's flight read,
/// which is no less than what was told before, and by a flight that begins.
pub fn replies_tell_what_was_read()
    ensures starts { AreTold [] [] }
    ensures looked { (history : History) (last : ℕ) (old new : Future) (result : Option Ended)
        → AreSeen last old new result
        → AreTold history old.flights
        → AreTold history new.flights }
    ensures quiet { (history : History) (e : Entry) (flights : List Flying)
        → reading (after history) e ≡ None
        → AreTold history flights
        → AreTold (history ++ e ∷ []) flights }
    ensures told { (history : History) (e : Entry) (future : Future) (h : ℕ) (f : Flying)
        → Flown history (runs_of future.flights)
        → Standing history (runs_of future.flights) future.pictures
        → Rising (map (λ f. f.ticket) future.flights)
        → flight_of future h ≡ Some f
        → reading (after history) e ≡ seen_of (after history) h f.looked
        → AreTold history future.flights
        → MatchOption (reading (after history) e) (Unit {0}) (IsNoLess (readings_of history))
        × AreTold (history ++ e ∷ []) future.flights }
    ensures begun { (history : History) (flights : List Flying) (f : Flying)
        → f.ticket ≡ length history + 1
        → f.looked ≤ f.view.gives.last
        → AreTold history flights
        → AreTold history (flights ++ f ∷ []) }
{}

/// And it stays so where a flight is stopped, where flights are asked for a seat, and by all else
/// that leaves the last look at a flight, and takes nothing from what its first seat has seen.
pub fn what_was_told_stays_told()
    ensures discarded { (history : History) (frame : ℕ) (old new : Future)
        → IsDiscarded frame old new (flight_of old frame)
        → AreTold history old.flights
        → AreTold history new.flights }
    ensures asked { (history : History) (old new : Future) (result : Result (Option Handed) NoRoom)
        → AreAsked old new result
        → AreTold history old.flights
        → AreTold history new.flights }
    ensures flight { (history : History) (old : Future) (ticket : ℕ) (f g : Flying)
        → flight_at old ticket ≡ Some f
        → g.ticket ≡ f.ticket
        → g.looked ≡ f.looked
        → f.view.gives.last ≤ g.view.gives.last
        → AreTold history old.flights
        → AreTold history (with_flight_at old ticket g).flights }
{}
