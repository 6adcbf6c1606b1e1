//! What keeps the flights of a device those of its history, also once its end has begun: the law is
//! the contract of a function that does nothing.
ghost use Rattle.std.specs.Prelude.{
  ◌≡◌,
  ◌+◌,
  ◌++◌,
  ◌∷◌,
  [],
  ℕ,
  List,
  None,
  Some,
  false,
  length,
  map,
};
ghost use Rattle.flight_books.specs.Sweeps.{note_of_end};
ghost use Rattle.frame_future.specs.Flights.{Flying, is_stopped};
ghost use Rattle.frame_future.specs.Future.{
  Future,
  IsDiscarded,
  IsKept,
  Rising,
  flight_of,
  with_flight,
};
ghost use Rattle.frame_future.specs.Reads.{AreSeen};
ghost use Rattle.frame_future.specs.declared.phase.Ended.{Ended};
ghost use Rattle.past_laws.specs.Worlds.{render_of};
ghost use Rattle.seq_model.specs.Histories.{History};
ghost use Rattle.seq_model.specs.Legal.{Legal};
ghost use Rattle.seq_model.specs.declared.calls.Call.TheVariants.{DiscardFrame};
ghost use Rattle.seq_model.specs.declared.calls.Entry.{Entry};
ghost use Rattle.seq_model.specs.declared.calls.Entry.TheVariants.{Called};
ghost use Rattle.seq_model.specs.declared.calls.Reply.TheVariants as reply;
ghost use Rattle.device_laws.specs.FlightMoves.{moves_flights};
ghost use Rattle.device_laws.specs.Flown.{Flown, IsNoted, LetsNotes, runs_of};
ghost use Rattle.device_laws.specs.FramesStand.{without_pictures};

/// The flights stay those of the history: over a look that shows no end, where the one that a look
/// showed to be over is noted, by each entry that moves none, by a render with the flight that it
/// begins, and by a discard. The pictures of what dies by the entry are no part of that.
pub fn kept_flights_are_those_of_the_history()
    ensures looked { (history : History) (last : ℕ) (old new : Future)
        → AreSeen last old new None
        → Flown history (runs_of old.flights)
        → Flown history (runs_of new.flights) }
    ensures noted { (history : History) (last : ℕ) (old looked : Future) (e : Ended)
        (dead : List ℕ)
        → Legal history
        → LetsNotes history
        → Rising (map (λ f. f.ticket) old.flights)
        → AreSeen last old looked (Some e)
        → Flown history (runs_of old.flights)
        → IsNoted (history ++ note_of_end e ∷ [])
        (runs_of (without_pictures looked dead).flights) }
    ensures others { (history : History) (e : Entry) (old : Future) (dead : List ℕ)
        → Legal (history ++ e ∷ [])
        → moves_flights e ≡ false
        → Flown history (runs_of old.flights)
        → Flown (history ++ e ∷ []) (runs_of (without_pictures old dead).flights) }
    ensures rendered { (history : History) (actor : ℕ) (old : Future) (f : Flying) (dead : List ℕ)
        → Legal (history ++ render_of actor f.frame ∷ [])
        → f.ticket ≡ length history + 1
        → is_stopped f ≡ false
        → Flown history (runs_of old.flights)
        → Flown (history ++ render_of actor f.frame ∷ [])
        (runs_of (without_pictures (with_flight old f) dead).flights) }
    ensures discarded { (history : History) (actor f : ℕ) (old new : Future) (dead : List ℕ)
        → Legal (history ++ Called actor (DiscardFrame f) reply.Done ∷ [])
        → IsKept old
        → IsDiscarded f old new (flight_of old f)
        → Flown history (runs_of old.flights)
        → Flown (history ++ Called actor (DiscardFrame f) reply.Done ∷ [])
        (runs_of (without_pictures new dead).flights) }
{}
