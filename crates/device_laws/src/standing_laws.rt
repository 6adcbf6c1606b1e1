//! What keeps a device's frames as its history says, as long as its end has not begun: each law is
//! the contract of a function that does nothing.
ghost use Rattle.std.specs.Prelude.{
  ◌≡◌,
  ◌+◌,
  ◌++◌,
  ◌∷◌,
  [],
  ℕ,
  List,
  None,
  Some,
  false,
  length,
  map,
  not,
};
ghost use Rattle.dev_types.specs.declared.data_types.DataType.{DataType};
ghost use Rattle.dev_types.specs.declared.handles.Channel.{Channel};
ghost use Rattle.flight_books.specs.Sweeps.{note_of_end};
ghost use Rattle.frame_future.specs.Channels.{is_asked, loan_of};
ghost use Rattle.frame_future.specs.Flights.{Flying, is_stopped, key_at};
ghost use Rattle.frame_future.specs.Future.{
  Finished,
  Future,
  IsDiscarded,
  IsKept,
  Rising,
  flight_of,
  lent_as,
  loan_ended,
  nothing,
  shown_by,
  with_flight,
  with_picture,
};
ghost use Rattle.frame_future.specs.Reads.{AreSeen};
ghost use Rattle.frame_future.specs.declared.phase.Ended.{Ended};
ghost use Rattle.kind_tables.specs.Scenes.{scene};
ghost use Rattle.past_laws.specs.Prepared.{asks_for};
ghost use Rattle.past_laws.specs.Worlds.{render_of};
ghost use Rattle.seq_model.specs.Histories.{History};
ghost use Rattle.seq_model.specs.Legal.{Legal};
ghost use Rattle.seq_model.specs.Life.{has};
ghost use Rattle.seq_model.specs.State.{scene_objects};
ghost use Rattle.seq_model.specs.Steps.{after};
ghost use Rattle.seq_model.specs.declared.calls.Call.{Call};
ghost use Rattle.seq_model.specs.declared.calls.Call.TheVariants.{
  DiscardFrame,
  MapFrame,
  UnmapFrame,
};
ghost use Rattle.seq_model.specs.declared.calls.Entry.TheVariants.{Called};
ghost use Rattle.seq_model.specs.declared.calls.Reply.{Reply};
ghost use Rattle.seq_model.specs.declared.calls.Reply.TheVariants as reply;
ghost use Rattle.tile_claims.specs.Parts.{scene_of};
ghost use Rattle.device_laws.specs.FlightMoves.{moves_flights};
ghost use Rattle.device_laws.specs.Flown.{Flown, runs_of};
ghost use Rattle.device_laws.specs.FramesStand.{FramesStand, LeavesBut, without_pictures};
ghost use Rattle.device_laws.specs.Lent.{moves_channels};
ghost use Rattle.device_laws.specs.SameFrames.{SameFrames};
ghost use Rattle.device_laws.specs.Standing.{pictures_left};

/// Frames stand as the history says where nothing happened yet. They do so after a look that shows
/// no end, and where they are the same with the same loans. Without the pictures of what died, the
/// flights are the same, and so are all other pictures.
pub fn frames_stand_between_entries()
    ensures starts { FramesStand [] nothing }
    ensures looked { (history : History) (last : ℕ) (old new : Future)
        → AreSeen last old new None
        → FramesStand history old
        → FramesStand history new }
    ensures same { (history : History) (old new : Future)
        → SameFrames old new
        → map (λ p. p.loans) new.pictures ≡ map (λ p. p.loans) old.pictures
        → FramesStand history old
        → FramesStand history new }
    ensures fewer { (old : Future) (dead : List ℕ)
        → ((without_pictures old dead).flights ≡ old.flights)
        × ((without_pictures old dead).pictures
        ≡ pictures_left (λ h. not (has h dead)) old.pictures) }
{}

/// They stand on by the note of the flight that a look showed to be over, without the pictures of
/// what dies with it.
pub fn frames_stand_on_by_a_note()
    ensures { (history : History) (last : ℕ) (old looked : Future) (e : Ended) (dead : List ℕ)
        → Legal history
        → Rising (map (λ f. f.ticket) old.flights)
        → Flown history (runs_of old.flights)
        → AreSeen last old looked (Some e)
        → LeavesBut history (note_of_end e) dead
        → FramesStand history old
        → FramesStand (history ++ note_of_end e ∷ []) (without_pictures looked dead) }
{}

/// They stand on by each call that was answered, without the pictures of what dies by it: as they
/// are by one that moves no flight and no channel; by a render with the flight that it begins,
/// which has the scene and the channels of its frame as they are committed then; and by a discard.
pub fn frames_stand_on_by_a_call()
    ensures called { (history : History) (actor : ℕ) (call : Call) (r : Reply)
        (old : Future) (dead : List ℕ)
        → moves_flights (Called actor call r) ≡ false
        → moves_channels (Called actor call r) ≡ false
        → Flown history (runs_of old.flights)
        → LeavesBut history (Called actor call r) dead
        → FramesStand history old
        → FramesStand (history ++ Called actor call r ∷ []) (without_pictures old dead) }
    ensures rendered { (history : History) (actor : ℕ) (old : Future) (f : Flying) (dead : List ℕ)
        → f.ticket ≡ length history + 1
        → is_stopped f ≡ false
        → scene_of (key_at f) ≡ scene (scene_objects (after history).state) f.frame
        → ((c : Channel) → is_asked f.channels c ≡ asks_for (after history).state f.frame c)
        → Flown history (runs_of old.flights)
        → LeavesBut history (render_of actor f.frame) dead
        → FramesStand history old
        → FramesStand (history ++ render_of actor f.frame ∷ [])
        (without_pictures (with_flight old f) dead) }
    ensures discarded { (history : History) (actor f : ℕ) (old new : Future) (dead : List ℕ)
        → IsKept old
        → IsDiscarded f old new (flight_of old f)
        → Flown history (runs_of old.flights)
        → LeavesBut history (Called actor (DiscardFrame f) reply.Done) dead
        → FramesStand history old
        → FramesStand (history ++ Called actor (DiscardFrame f) reply.Done ∷ [])
        (without_pictures new dead) }
{}

/// They stand on where a channel of a frame's picture is mapped, which is lent by its entry, and
/// where the loan of a channel, which has this number, ends.
pub fn frames_stand_on_by_a_loan()
    ensures mapped { (history : History) (actor f : ℕ) (c : Channel) (width height : ℕ)
        (t : DataType) (rows : List ℕ) (old : Future) (p : Finished) (dead : List ℕ)
        → Legal (history ++ Called actor (MapFrame f c) (reply.Mapped width height t rows) ∷ [])
        → IsKept old
        → shown_by old f ≡ Some p
        → Flown history (runs_of old.flights)
        → LeavesBut history (Called actor (MapFrame f c) (reply.Mapped width height t rows)) dead
        → FramesStand history old
        → FramesStand
        (history ++ Called actor (MapFrame f c) (reply.Mapped width height t rows) ∷ [])
        (without_pictures (with_picture old (lent_as p c (length history + 1))) dead) }
    ensures unmapped { (history : History) (actor f number : ℕ) (c : Channel)
        (old : Future) (p : Finished) (dead : List ℕ)
        → Legal history
        → IsKept old
        → shown_by old f ≡ Some p
        → loan_of p.loans c ≡ Some number
        → Flown history (runs_of old.flights)
        → LeavesBut history (Called actor (UnmapFrame f number) reply.Done) dead
        → FramesStand history old
        → FramesStand (history ++ Called actor (UnmapFrame f number) reply.Done ∷ [])
        (without_pictures (loan_ended old f c) dead) }
{}
