//! What the mapped channels of kept pictures are: each law is the contract of a function that does
//! nothing.
ghost use Rattle.std.specs.Prelude.{◌≡◌, ◌≤◌, ◌+◌, ◌++◌, ◌∷◌, [], ℕ, Bool, List, None, Some, count_by, false, length, true};
ghost use Rattle.std.specs.List.{filter, find};
ghost use Rattle.std.specs.Option.{is_some};
ghost use Rattle.dev_types.specs.declared.data_types.DataType.{DataType};
ghost use Rattle.dev_types.specs.declared.handles.Channel.{Channel};
ghost use Rattle.frame_future.specs.Channels.{loan_of};
ghost use Rattle.frame_future.specs.Future.{Finished, Future, given_back, is_mapped, is_picture_of, lent_as, replaced};
ghost use Rattle.seq_model.specs.Histories.{History};
ghost use Rattle.seq_model.specs.Legal.{Legal};
ghost use Rattle.seq_model.specs.Refusals.{mapped_at, phase_at};
ghost use Rattle.seq_model.specs.State.{Flight, object_at};
ghost use Rattle.seq_model.specs.Steps.{after};
ghost use Rattle.seq_model.specs.declared.calls.Call.TheVariants.{MapFrame, UnmapFrame};
ghost use Rattle.seq_model.specs.declared.calls.Entry.{Entry};
ghost use Rattle.seq_model.specs.declared.calls.Entry.TheVariants.{Called};
ghost use Rattle.seq_model.specs.declared.calls.Reply.TheVariants as reply;
ghost use Rattle.device_laws.specs.Flown.{Run};
ghost use Rattle.device_laws.specs.Lent.{AreLent, IsLent, moves_channels};
ghost use Rattle.device_laws.specs.Standing.{AreLeft, Standing, pictures_left};

/// A frame in flight has no mapped channel. A kept frame is mapped just where the history says so.
pub fn mapped_frames_have_pictures()
    ensures flights { (history : History)
        → Legal history
        → (h t : ℕ)
        → phase_at (after history) h ≡ Flight t
        → mapped_at (after history) h ≡ [] }
    ensures unmapped { (history : History) (future : Future) (h : ℕ)
        → AreLent history future.pictures
        → mapped_at (after history) h ≡ []
        → is_mapped future h ≡ false }
{}

/// The loans of kept pictures stay those of the mapped channels of their frames: by each entry that
/// maps none and takes none back, of fewer pictures, of the picture that a flight leaves, and where a
/// channel is lent by its entry or comes back.
pub fn kept_loans_are_those_of_the_history()
    ensures others { (history : History) (e : Entry) (left : ℕ → Bool) (runs : List Run) (pictures : List Finished)
        → moves_channels e ≡ false
        → AreLeft history e left
        → Standing history runs pictures
        → AreLent history pictures
        → AreLent (history ++ e ∷ []) (pictures_left left pictures) }
    ensures fewer { (history : History) (keep : Finished → Bool) (pictures : List Finished)
        → AreLent history pictures
        → AreLent history (filter keep pictures) }
    ensures ended { (history : History) (e : Entry) (h t : ℕ) (p : Finished)
        → Legal history
        → moves_channels e ≡ false
        → is_some (object_at (after (history ++ e ∷ [])).state h) ≡ true
        → phase_at (after history) h ≡ Flight t
        → p.frame ≡ h
        → p.loans ≡ None ∷ None ∷ None ∷ None ∷ []
        → IsLent (history ++ e ∷ []) p }
    ensures mapped { (history : History) (actor f : ℕ) (c : Channel) (width height : ℕ) (t : DataType) (rows : List ℕ) (left : ℕ → Bool)
        (runs : List Run) (p : Finished) (pictures : List Finished)
        → Legal (history ++ Called actor (MapFrame f c) (reply.Mapped width height t rows) ∷ [])
        → AreLeft history (Called actor (MapFrame f c) (reply.Mapped width height t rows)) left
        → Standing history runs pictures
        → count_by (is_picture_of f) pictures ≤ 1
        → find (is_picture_of f) pictures ≡ Some p
        → AreLent history pictures
        → AreLent (history ++ Called actor (MapFrame f c) (reply.Mapped width height t rows) ∷ [])
        (pictures_left left (replaced (is_picture_of f) (lent_as p c (length history + 1)) pictures)) }
    ensures back { (history : History) (actor f number : ℕ) (c : Channel) (left : ℕ → Bool) (runs : List Run) (p : Finished) (pictures : List Finished)
        → Legal history
        → AreLeft history (Called actor (UnmapFrame f number) reply.Done) left
        → Standing history runs pictures
        → count_by (is_picture_of f) pictures ≤ 1
        → find (is_picture_of f) pictures ≡ Some p
        → loan_of p.loans c ≡ Some number
        → AreLent history pictures
        → AreLent (history ++ Called actor (UnmapFrame f number) reply.Done ∷ [])
        (pictures_left left (replaced (is_picture_of f) (given_back p c) pictures)) }
{}
