//! Which flights of a history are over: the law is the contract of a function that does nothing.
ghost use Rattle.std.specs.Prelude.{◌≡◌, ◌++◌, ◌∷◌, [], ℕ, List, None, Some, false, true};
ghost use Rattle.std.specs.List.{AllByRecursion, find};
ghost use Rattle.flight_books.specs.Kept.{over_by};
ghost use Rattle.flight_books.specs.Sweeps.{note_of_end};
ghost use Rattle.frame_future.specs.Flights.{Flying, HasEnded};
ghost use Rattle.frame_future.specs.Future.{Future, has_ticket};
ghost use Rattle.frame_future.specs.Reads.{AreSeen};
ghost use Rattle.frame_future.specs.declared.phase.Ended.{Ended};
ghost use Rattle.seq_model.specs.Histories.{History};
ghost use Rattle.seq_model.specs.Legal.{Legal};
ghost use Rattle.seq_model.specs.State.{object_at};
ghost use Rattle.seq_model.specs.Steps.{after, is_reached_by};
ghost use Rattle.seq_model.specs.declared.calls.Entry.{Entry};
ghost use Rattle.device_laws.specs.Over.{AllOver, is_note};

/// Each render whose flight is gone is that of a flight that is over: at first, by each entry that
/// is no note, and by the note of a flight that a look showed to be over, with that flight. So what
/// is gone was reached by flights alone that are over, and no tile of those is open.
pub fn flights_that_are_gone_are_over()
    ensures starts { AllOver [] [] }
    ensures others { (history : History) (e : Entry) (over : List Flying)
        → Legal (history ++ e ∷ [])
        → is_note e ≡ false
        → AllOver history over
        → AllOver (history ++ e ∷ []) over }
    ensures noted { (history : History) (last : ℕ) (old looked : Future) (e : Ended)
        (over : List Flying)
        → Legal (history ++ note_of_end e ∷ [])
        → AreSeen last old looked (Some e)
        → AllOver history over
        → AllOver (history ++ note_of_end e ∷ []) (over ++ over_by old (Some e)) }
    ensures unused { (history : History) (over : List Flying) (t h : ℕ)
        → Legal history
        → AllOver history over
        → AllByRecursion HasEnded over
        → object_at (after history).state h ≡ None
        → is_reached_by (after history).reached t h ≡ true
        → (f : Flying) × (find (has_ticket t) over ≡ Some f) × HasEnded f }
{}
