//! What entries make of the flights that a device keeps: each law is the contract of a function that
//! does nothing.
ghost use Rattle.std.specs.Prelude.{◌≡◌, ◌==◌, ◌||◌, ◌+◌, ◌++◌, ◌∷◌, [], ℕ, Bool, List, None, Some, false, length, map, true};
ghost use Rattle.std.specs.Option.{is_some};
ghost use Rattle.dev_types.specs.declared.data_types.DataType.{DataType};
ghost use Rattle.dev_types.specs.declared.handles.Channel.{Channel};
ghost use Rattle.dev_types.specs.declared.refusals.Refused.{Refused};
ghost use Rattle.flight_books.specs.Sweeps.{notes_of};
ghost use Rattle.frame_future.specs.Flights.{Flying};
ghost use Rattle.frame_future.specs.Future.{Finished, Future, IsDiscarded, IsKept, Rising, flight_of, phase_of};
ghost use Rattle.frame_future.specs.Reads.{AreRead, left_by};
ghost use Rattle.past_laws.specs.Worlds.{render_of};
ghost use Rattle.seq_model.specs.Histories.{History, frame_at};
ghost use Rattle.seq_model.specs.Legal.{Legal};
ghost use Rattle.seq_model.specs.Life.{has};
ghost use Rattle.seq_model.specs.Refusals.{mapped_at, phase_at};
ghost use Rattle.seq_model.specs.State.{Flight, flights, object_at};
ghost use Rattle.seq_model.specs.Steps.{after, is_reached_by};
ghost use Rattle.seq_model.specs.declared.calls.Call.{Call};
ghost use Rattle.seq_model.specs.declared.calls.Call.TheVariants.{DiscardFrame, MapFrame};
ghost use Rattle.seq_model.specs.declared.calls.Entry.{Entry};
ghost use Rattle.seq_model.specs.declared.calls.Entry.TheVariants.{Called};
ghost use Rattle.seq_model.specs.declared.calls.Reply.TheVariants as reply;
ghost use Rattle.device_laws.specs.FlightMoves.{moves_flights};
ghost use Rattle.device_laws.specs.Flown.{Flown, IsNoted, LetsNotes, Run, note_of_run, runs_of, stopped_runs, tickets_in};
ghost use Rattle.device_laws.specs.Lent.{moves_channels};
ghost use Rattle.device_laws.specs.Standing.{AreLeft, LeavesPictures, Standing, other_pictures, phase_as, pictures_left};

/// Where nothing happened yet, no frame is in flight or done.
pub fn nothing_is_kept_at_first()
    ensures flown { Flown [] [] }
    ensures stands { Standing [] [] [] }
{}

/// A render that was done begins one flight, whose ticket is its place; its frame is then in flight.
pub fn renders_begin_a_flight()
    ensures flights { (history : History) (actor f t : ℕ)
        → Legal (history ++ render_of actor f ∷ [])
        → has t (flights (after (history ++ render_of actor f ∷ [])).state) ≡ ((length history + 1 == t) || has t (flights (after history).state)) }
    ensures phase { (history : History) (actor f : ℕ)
        → Legal (history ++ render_of actor f ∷ [])
        → phase_at (after (history ++ render_of actor f ∷ [])) f ≡ Flight (length history + 1) }
    ensures flown { (history : History) (actor f : ℕ) (runs : List Run)
        → Legal (history ++ render_of actor f ∷ [])
        → Flown history runs
        → Flown (history ++ render_of actor f ∷ []) (runs ++ record { ticket = length history + 1; frame = f; stopped = false } ∷ []) }
    ensures stands { (history : History) (actor f : ℕ) (left : ℕ → Bool) (runs : List Run) (pictures : List Finished)
        → AreLeft history (render_of actor f) left
        → Standing history runs pictures
        → Standing (history ++ render_of actor f ∷ [])
        (runs ++ record { ticket = length history + 1; frame = f; stopped = false } ∷ [])
        (pictures_left left (other_pictures f pictures)) }
{}

/// A discard that was done stops the flight of its frame, which flies on until its note, or drops the
/// frame's picture; and that is what a discard of kept frames makes of them.
pub fn discards_stop_a_flight()
    ensures flown { (history : History) (actor f : ℕ) (runs : List Run)
        → Legal (history ++ Called actor (DiscardFrame f) reply.Done ∷ [])
        → Flown history runs
        → Flown (history ++ Called actor (DiscardFrame f) reply.Done ∷ []) (stopped_runs f runs) }
    ensures stands { (history : History) (actor f : ℕ) (left : ℕ → Bool) (runs : List Run) (pictures : List Finished)
        → AreLeft history (Called actor (DiscardFrame f) reply.Done) left
        → Flown history runs
        → Standing history runs pictures
        → Standing (history ++ Called actor (DiscardFrame f) reply.Done ∷ []) (stopped_runs f runs)
        (pictures_left left (other_pictures f pictures)) }
    ensures kept { (f : ℕ) (old new : Future)
        → IsKept old
        → IsDiscarded f old new (flight_of old f)
        → (runs_of new.flights ≡ stopped_runs f (runs_of old.flights))
        × (new.pictures ≡ other_pictures f old.pictures) }
{}

/// The note of a flight may stand behind a history, others may follow it, and the other flights are
/// those of the history then. Where the flight was not stopped, its frame shows its picture, if the
/// frame is left. So a sweep notes the flights that it ends, one after the other.
pub fn notes_end_a_flight()
    ensures one { (history : History) (before : List Run) (r : Run) (behind : List Run)
        → Legal history
        → LetsNotes history
        → has r.ticket (tickets_in (before ++ behind)) ≡ false
        → Flown history (before ++ r ∷ behind)
        → IsNoted (history ++ note_of_run r ∷ []) (before ++ behind) }
    ensures stands { (history : History) (before : List Run) (r : Run) (behind : List Run) (left : ℕ → Bool) (pictures ended : List Finished)
        → has r.ticket (tickets_in (before ++ behind)) ≡ false
        → LeavesPictures r ended
        → AreLeft history (note_of_run r) left
        → Flown history (before ++ r ∷ behind)
        → Standing history (before ++ r ∷ behind) pictures
        → Standing (history ++ note_of_run r ∷ []) (before ++ behind) (pictures_left left (pictures ++ ended)) }
    ensures sweep { (history : History) (fs : List Flying) (reads : List ℕ)
        → Legal history
        → LetsNotes history
        → Rising (map (λ f. f.ticket) fs)
        → AreRead fs reads
        → Flown history (runs_of fs)
        → IsNoted (history ++ notes_of fs reads) (runs_of (left_by fs reads)) }
{}

/// Every other entry leaves the flights as they are, and the pictures of the frames that it leaves.
pub fn other_entries_keep_the_flights()
    ensures flown { (history : History) (e : Entry) (runs : List Run)
        → Legal (history ++ e ∷ [])
        → moves_flights e ≡ false
        → Flown history runs
        → Flown (history ++ e ∷ []) runs }
    ensures stands { (history : History) (e : Entry) (left : ℕ → Bool) (runs : List Run) (pictures : List Finished)
        → moves_flights e ≡ false
        → AreLeft history e left
        → Standing history runs pictures
        → Standing (history ++ e ∷ []) runs (pictures_left left pictures) }
{}

/// A call that was refused begins, ends and stops no flight, maps no channel and takes none back.
pub fn refused_calls_move_nothing()
    ensures { (actor : ℕ) (call : Call) (refused : Refused)
        → (moves_flights (Called actor call (reply.Denied refused)) ≡ false)
        × (moves_channels (Called actor call (reply.Denied refused)) ≡ false) }
{}

/// Where what is kept of frames stands as the history says, each frame is in flight, done or neither
/// as the history says.
pub fn kept_phases_are_those_of_the_history()
    ensures { (history : History) (future : Future) (h : ℕ)
        → Flown history (runs_of future.flights)
        → Standing history (runs_of future.flights) future.pictures
        → phase_at (after history) h ≡ phase_as (phase_of future h) }
{}

/// A flight that was not stopped is what the frame of its render shows.
pub fn flights_are_shown_by_their_frames()
    ensures { (history : History) (t f : ℕ)
        → has t (flights (after history).state) ≡ true
        → has t (after history).state.stopped ≡ false
        → frame_at history t ≡ Some f
        → phase_at (after history) f ≡ Flight t }
{}

/// All that a flight reached lives as long as the flight: no flight reached what is gone.
pub fn flights_hold_what_they_reached()
    ensures lives { (history : History)
        → Legal history
        → (t h : ℕ)
        → has t (flights (after history).state) ≡ true
        → is_reached_by (after history).reached t h ≡ true
        → is_some (object_at (after history).state h) ≡ true }
    ensures gone { (history : History)
        → Legal history
        → (t h : ℕ)
        → has t (flights (after history).state) ≡ true
        → object_at (after history).state h ≡ None
        → is_reached_by (after history).reached t h ≡ false }
{}

/// A channel that is mapped is lent by its entry: its loan has that place for its number.
pub fn maps_lend_a_channel()
    ensures { (history : History) (actor f : ℕ) (channel : Channel) (width height : ℕ) (t : DataType) (rows : List ℕ)
        → Legal (history ++ Called actor (MapFrame f channel) (reply.Mapped width height t rows) ∷ [])
        → mapped_at (after (history ++ Called actor (MapFrame f channel) (reply.Mapped width height t rows) ∷ [])) f
        ≡ mapped_at (after history) f ++ (channel, length history + 1) ∷ [] }
{}
