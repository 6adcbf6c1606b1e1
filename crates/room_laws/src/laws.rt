//! How many loans are out, and how many flights there are: each law is the contract of a function that
//! does nothing.
ghost use Rattle.std.specs.Prelude.{◌≡◌, ◌+◌, ◌*◌, ◌++◌, ◌∷◌, ◌<◌, ◌≤◌, [], ℕ, List, count_by, false, length};
ghost use Rattle.std.specs.List.{sum_by};
ghost use Rattle.dev_types.specs.Counting.{times};
ghost use Rattle.seq_model.specs.Histories.{History};
ghost use Rattle.seq_model.specs.Legal.{Legal, is_called};
ghost use Rattle.seq_model.specs.Life.{has};
ghost use Rattle.seq_model.specs.Room.{is_full, loans_out};
ghost use Rattle.seq_model.specs.State.{flights};
ghost use Rattle.seq_model.specs.Steps.{after};
ghost use Rattle.seq_model.specs.declared.calls.Call.{Call};
ghost use Rattle.seq_model.specs.declared.calls.Entry.{Entry};
ghost use Rattle.seq_model.specs.declared.calls.Entry.TheVariants.{Closed};
ghost use Rattle.room_laws.specs.Loans.{lends, takes_back};
ghost use Rattle.room_laws.specs.Taken.{is_close, most_places};

/// Nothing is lent at first. With each entry but the close, as many loans are out as before, with
/// what it lends, less what comes back by it: nothing that is lent dies.
pub fn loans_are_counted()
    ensures starts { loans_out (after []).state ≡ 0 }
    ensures moves { (history : History) (e : Entry)
        → Legal (history ++ e ∷ [])
        → (e ≡ Closed → ⊥)
        → loans_out (after (history ++ e ∷ [])).state + takes_back e
        ≡ loans_out (after history).state + lends e }
{}

/// As many flights as there are tickets of them, where each stands once.
pub fn flights_are_counted()
    ensures { (history : History) (tickets : List ℕ)
        → ((t : ℕ) → has t (flights (after history).state) ≡ has t tickets)
        → ((t : ℕ) → times t tickets ≤ 1)
        → length (flights (after history).state) ≡ length tickets }
{}

/// What a history owes is bounded by its calls. Its entries, the notes of its flights and the unmaps
/// of its loans take at most two places of a journal for each call but an unmap, which takes one, and
/// one for the close. An unmap that ends a loan gives back the place that the loan kept for it.
pub fn places_are_counted()
    ensures entries { (history : History)
        → Legal history
        → length history + length (flights (after history).state) + loans_out (after history).state
        + sum_by takes_back history
        ≤ sum_by most_places history }
    ensures calls { (history : History)
        → Legal history
        → length history + length (flights (after history).state) + loans_out (after history).state
        ≤ 2 * count_by is_called history + count_by is_close history }
{}

/// A journal has room for any call behind a legal history whose entries take few places: one of
/// 1048576 entries has it behind 262144 calls.
pub fn short_histories_leave_room()
    ensures entries { (limit : ℕ) (history : History) (call : Call)
        → Legal history
        → sum_by most_places history + 2 < limit
        → is_full limit (after history) call ≡ false }
    ensures calls { (history : History) (call : Call)
        → Legal history
        → count_by is_called history ≤ 262144
        → is_full 1048576 (after history) call ≡ false }
{}
