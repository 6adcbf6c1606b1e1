//! Laws of replays, of every trace: each is the contract of a function that does nothing.
ghost use Rattle.std.specs.Prelude.{◌≡◌, ◌≤◌, ◌+◌, ◌++◌, ℕ, All, List, Ok, false};
ghost use Rattle.std.specs.List.{sum_by};
ghost use Rattle.replay_core.specs.Follows.{Follows};
ghost use Rattle.replay_core.specs.Places.{EndsLoan, places_of_call, places_of_caller, places_of_phase, places_of_trace};
ghost use Rattle.replay_core.specs.Solo.{Replay, caller_replayed, phase_replayed, replayed, solo};
ghost use Rattle.room_laws.specs.Taken.{most_places};
ghost use Rattle.seq_model.specs.Histories.{History};
ghost use Rattle.seq_model.specs.Legal.{Legal};
ghost use Rattle.seq_model.specs.Room.{is_full};
ghost use Rattle.seq_model.specs.Steps.{after};
ghost use Rattle.seq_model.specs.declared.calls.Call.{Call};
ghost use Rattle.trace_text.specs.Reading.{trace_of};
ghost use Rattle.trace_text.specs.declared.calls.Caller.{Caller};
ghost use Rattle.trace_text.specs.declared.calls.Phase.{Phase};
ghost use Rattle.trace_text.specs.declared.calls.Trace.{Trace};
ghost use Rattle.trace_text.specs.declared.calls.TraceCall.{TraceCall};

/// The history of a trace on one thread is legal: each reply is one that its call may have, and each note stands where it is true.
#[tactic(auto, using(crate::proofs::SoloLegal::solo_is_legal))]
pub fn solo_is_legal()
    ensures { (trace : Trace) → Legal (solo trace) }
{}

/// The history of a trace on one thread follows the trace: each caller's calls stand in it once, in their order, with the labels replaced, phase
/// after phase.
#[tactic(auto, using(crate::proofs::SoloFollows::solo_follows))]
pub fn solo_follows()
    ensures { (trace : Trace) → Follows trace (solo trace) }
{}

/// A journal of 1048576 entries has room for any call behind each beginning of a legal history that
/// follows a trace which was read; so it is not full before any call of the trace, on one thread or
/// on many.
#[tactic(auto, using(crate::proofs::TracePlaces::follows_has_room, crate::proofs::TracePlaces::solo_has_room))]
pub fn journals_of_traces_have_room()
    ensures follows { (bytes : List ℕ) (trace : Trace) (before rest : History) (call : Call)
        → trace_of bytes ≡ Ok trace
        → Legal (before ++ rest)
        → Follows trace (before ++ rest)
        → is_full 1048576 (after before) call ≡ false }
    ensures solo { (bytes : List ℕ) (trace : Trace) (before rest : History) (call : Call)
        → trace_of bytes ≡ Ok trace
        → solo trace ≡ before ++ rest
        → is_full 1048576 (after before) call ≡ false }
{}

/// In its replay on one thread a call of a trace takes at most two places of a journal, with that of
/// what it may owe, and the end of a loan one; so callers and phases take no more than their calls,
/// and a trace which was read takes at most 786432.
#[tactic(auto, using(crate::proofs::SoloPlaces::takes_places, crate::proofs::SoloPlaces::leaves_unmaps, crate::proofs::SoloPlaces::caller_places, crate::proofs::SoloPlaces::phase_places, crate::proofs::TracePlaces::few_places))]
pub fn replays_take_few_places()
    ensures call { (phase caller : ℕ) (r : Replay) (c : TraceCall)
        → All EndsLoan r.loans
        → sum_by most_places (replayed phase caller r c).past.seen
        ≤ sum_by most_places r.past.seen + places_of_call c }
    ensures loans { (phase caller : ℕ) (r : Replay) (c : TraceCall)
        → All EndsLoan r.loans
        → All EndsLoan (replayed phase caller r c).loans }
    ensures caller { (phase : ℕ) (r : Replay) (caller : ℕ × Caller)
        → sum_by most_places (caller_replayed phase r caller).past.seen
        ≤ sum_by most_places r.past.seen + places_of_caller caller.1 }
    ensures phase { (r : Replay) (phase : ℕ × Phase)
        → sum_by most_places (phase_replayed r phase).past.seen
        ≤ sum_by most_places r.past.seen + places_of_phase phase.1 }
    ensures trace { (bytes : List ℕ) (trace : Trace)
        → trace_of bytes ≡ Ok trace
        → places_of_trace trace ≤ 786432 }
{}
