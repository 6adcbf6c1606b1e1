//! What a history grants of a frame, the kept frames grant: the law is the contract of a function
//! that does nothing.
ghost use Rattle.std.specs.Prelude.{◌≡◌, ◌⊎◌, ◌+◌, [], ℕ, None, Some, false, length};
ghost use Rattle.std.specs.Option.{IsSome};
ghost use Rattle.dev_types.specs.declared.handles.Channel.{Channel};
ghost use Rattle.frame_future.specs.Channels.{loan_of};
ghost use Rattle.frame_future.specs.Future.{
  Finished,
  Future,
  IsLater,
  flight_of,
  is_mapped,
  refusal_of_map,
  shown_by,
};
ghost use Rattle.seq_model.specs.Histories.{History};
ghost use Rattle.seq_model.specs.Legal.{Legal};
ghost use Rattle.seq_model.specs.Refusals.{mapped_at, phase_at, refusal};
ghost use Rattle.seq_model.specs.State.{Done};
ghost use Rattle.seq_model.specs.Steps.{after};
ghost use Rattle.seq_model.specs.declared.calls.Call.TheVariants.{
  DiscardFrame,
  MapFrame,
  RenderFrame,
  UnmapFrame,
};
ghost use Rattle.device_laws.specs.Flown.{Flown, runs_of};
ghost use Rattle.device_laws.specs.FramesStand.{FramesStand};

/// Where the history does not refuse a call on a frame, the kept frames do not either. A frame with
/// a mapped channel is done. A frame that may be rendered has no flight and no mapped channel, and
/// the ticket of the render is above all others; one that may be discarded has no mapped channel. A
/// channel that may be mapped is one of a kept picture, not mapped and asked for. Where a loan may
/// come back, it is that of a channel of the frame's picture.
pub fn kept_frames_grant_what_the_history_grants()
    ensures done { (history : History) (h : ℕ)
        → Legal history
        → (mapped_at (after history) h ≡ []) ⊎ ((t : ℕ) × (phase_at (after history) h ≡ Done t)) }
    ensures rendered { (history : History) (future : Future)
        → Flown history (runs_of future.flights)
        → FramesStand history future
        → (f : ℕ)
        → refusal (after history) (RenderFrame f) ≡ None
        → (flight_of future f ≡ None) × (is_mapped future f ≡ false)
        × IsLater future (length history + 1) }
    ensures discarded { (history : History) (future : Future)
        → FramesStand history future
        → (f : ℕ)
        → refusal (after history) (DiscardFrame f) ≡ None
        → is_mapped future f ≡ false }
    ensures mapped { (history : History) (future : Future)
        → Flown history (runs_of future.flights)
        → FramesStand history future
        → (f : ℕ) (c : Channel)
        → refusal (after history) (MapFrame f c) ≡ None
        → (refusal_of_map future f c ≡ None) × IsSome (shown_by future f) }
    ensures unmapped { (history : History) (future : Future)
        → Flown history (runs_of future.flights)
        → FramesStand history future
        → (f number : ℕ)
        → Legal history
        → refusal (after history) (UnmapFrame f number) ≡ None
        → (p : Finished) × (c : Channel)
        × (shown_by future f ≡ Some p) × (loan_of p.loans c ≡ Some number) }
{}
