//! What one entry more makes of a state: each law is the contract of a function that does nothing.
ghost use Rattle.std.specs.Prelude.{◌≡◌, ◌<◌, ◌+◌, ◌++◌, ◌∷◌, [], ℕ, Bool, Some, false, length, true};
ghost use Rattle.std.specs.List.{filter};
ghost use Rattle.std.specs.Map.{keys_of};
ghost use Rattle.std.specs.Option.{is_some};
ghost use Rattle.past_laws.specs.HeldUp.{IsHeldUp};
ghost use Rattle.seq_model.specs.Deaths.{changed_by, lives_itself};
ghost use Rattle.seq_model.specs.Histories.{History, public};
ghost use Rattle.seq_model.specs.Legal.{Legal};
ghost use Rattle.seq_model.specs.Life.{has, is_root, live};
ghost use Rattle.seq_model.specs.State.{Object, flights, object_at};
ghost use Rattle.seq_model.specs.Steps.{after, is_reached};
ghost use Rattle.seq_model.specs.Told.{gone};
ghost use Rattle.seq_model.specs.declared.calls.Entry.{Entry};
ghost use Rattle.seq_model.specs.declared.calls.Entry.TheVariants.{Closed};
ghost use Rattle.device_laws.specs.Changing.{changes};
ghost use Rattle.device_laws.specs.FlightMoves.{flies_after, stopped_after};
ghost use Rattle.device_laws.specs.FramesStand.{LeavesBut};
ghost use Rattle.device_laws.specs.Showings.{showing_after, showing_at};

/// What an entry makes of what a frame shows, and of its mapped channels: a render begins a flight, a
/// discard leaves nothing to show, a note ends a flight, a channel that is mapped is lent until it
/// comes back, and nothing else moves. Objects that are not frames show nothing.
pub fn entries_move_frames()
    ensures { (history : History) (e : Entry) (h : ℕ)
        → is_some (object_at (after (history ++ e ∷ [])).state h) ≡ true
        → showing_at (after (history ++ e ∷ [])).state h ≡ showing_after (length history + 1) e h (showing_at (after history).state h) }
{}

/// Which flights there are after an entry: a render that was done adds exactly its own ticket, a note
/// takes away exactly its ticket, and nothing else moves. A discard stops the flight of its frame.
pub fn entries_move_flights()
    ensures flights { (history : History) (e : Entry) (t : ℕ)
        → Legal (history ++ e ∷ [])
        → has t (flights (after (history ++ e ∷ [])).state) ≡ flies_after (length history + 1) e t (has t (flights (after history).state)) }
    ensures stopped { (history : History) (e : Entry) (t : ℕ)
        → has t (after (history ++ e ∷ [])).state.stopped ≡ stopped_after (after history) e t }
{}

/// An object that an entry does not change is what it was, as long as it is there.
pub fn calls_change_the_objects()
    ensures { (history : History) (e : Entry) (h : ℕ) (o : Object)
        → h < (after history).state.next
        → changes (after history).state e h ≡ false
        → object_at (after (history ++ e ∷ [])).state h ≡ Some o
        → object_at (after history).state h ≡ Some o }
{}

/// An entry leaves what lives of its change, by any numbers that are those of the history for the
/// objects that are there: the public references of each, and whether a flight reached it.
pub fn burials_end_an_entry()
    ensures { (history : History) (e : Entry) (held : ℕ → ℕ) (is_read : ℕ → Bool)
        → ((h : ℕ) (o : Object) → object_at (changed_by history e) h ≡ Some o
        → (held h ≡ public (history ++ e ∷ []) h)
        × (is_read h ≡ is_reached (after (history ++ e ∷ [])).reached (changed_by history e) h))
        → record (changed_by history e) { objects = live (is_root held is_read) (changed_by history e).objects } ≡ (after (history ++ e ∷ [])).state }
{}

/// And it leaves exactly the kept objects, whatever keeps them, where no root and nothing that a kept
/// object names is missed, and each kept object is a root or is named by a kept one.
pub fn burials_leave_what_lives()
    ensures { (history : History) (e : Entry) (keep : ℕ × Object → Bool)
        → Legal (history ++ e ∷ [])
        → IsHeldUp (lives_itself history e) keep (changed_by history e).objects
        → record (changed_by history e) { objects = filter keep (changed_by history e).objects } ≡ (after (history ++ e ∷ [])).state }
{}

/// Of the objects that were there, an entry that is not the close leaves all but those that go with
/// it, which are there after its change and do not live any more.
pub fn burials_leave_all_but_what_goes()
    ensures { (history : History) (e : Entry)
        → (e ≡ Closed → ⊥)
        → LeavesBut history e (keys_of (gone (changed_by history e) (after (history ++ e ∷ [])).state)) }
{}
