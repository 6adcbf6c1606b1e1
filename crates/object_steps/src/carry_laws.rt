//! What can be carried out, and where it leads: each law is the contract of a function that does
//! nothing.
ghost use Rattle.std.specs.Prelude.{◌≡◌, ℕ, ◌+◌, ◌<◌, ◌^◌, ◌∷◌, ◌++◌, [], None, Some, cond, length, true};
ghost use Rattle.std.specs.List.{filter_map};
ghost use Rattle.object_store.specs.Gathers.{IsLeft, buried};
ghost use Rattle.object_store.specs.Kept.{CountsItsObjects, Stored};
ghost use Rattle.kind_tables.specs.Walks.{visited, walk};
ghost use Rattle.seq_model.specs.Answers.{answer};
ghost use Rattle.seq_model.specs.Contents.{entered};
ghost use Rattle.seq_model.specs.Histories.{History, public, rendered};
ghost use Rattle.seq_model.specs.Legal.{Legal, is_content_sound};
ghost use Rattle.seq_model.specs.Life.{has};
ghost use Rattle.seq_model.specs.Soundness.{IsRanked};
ghost use Rattle.seq_model.specs.State.{State, empty, scene_objects};
ghost use Rattle.seq_model.specs.Steps.{after, change, is_reached_by, next_place, step};
ghost use Rattle.seq_model.specs.Told.{end_of_object, gone, status_at, told_by};
ghost use Rattle.seq_model.specs.declared.calls.Call.{Call};
ghost use Rattle.seq_model.specs.declared.calls.Call.TheVariants.{RenderFrame};
ghost use Rattle.seq_model.specs.declared.calls.Entry.{Entry};
ghost use Rattle.seq_model.specs.declared.calls.Entry.TheVariants.{Called, Closed, Finished, Left};
ghost use Rattle.seq_model.specs.declared.calls.Reply.{Reply};
ghost use Rattle.seq_model.specs.declared.calls.Reply.TheVariants as reply;
ghost use Rattle.object_steps.specs.Carrying.{Brings, CanCarry, GivesBack, carried};
ghost use Rattle.object_steps.specs.declared.array_loans.ArrayLoan.{ArrayLoan};
ghost use Rattle.object_steps.specs.Resting.{Follows, HasRoom, IsAtRest, IsOfObjects, KeepsReferences, reaches};

/// A new store rests before anything happened.
pub fn new_stores_rest()
    ensures { (s : Stored) → s.state ≡ empty → s.public ≡ [] → s.holds ≡ [] → IsAtRest s [] }
{}

/// A store that rests after a history can carry out what a call is answered there: there is room for
/// what it makes, and what an unmap brings names only what is there.
pub fn calls_can_be_carried_out()
    ensures { (s : Stored) (history : History) (call : Call) (r : Reply)
        → IsAtRest s history
        → length history < 2 ^ 63
        → HasRoom s call
        → IsOfObjects call r
        → answer (after history) call ≡ Some r
        → is_content_sound (after history) call ≡ true
        → CanCarry s call r }
{}

/// A call as it is entered gives back the loan that it brought as it was handed in.
pub fn loans_are_given_back()
    ensures { (history : History) (call : Call) (r : Reply) (loan : ArrayLoan)
        → Brings call loan
        → answer (after history) (entered (after history) call) ≡ Some r
        → GivesBack (entered (after history) call) r loan }
{}

/// A call that a store, which rests after a history, carried out as it was answered is one more
/// entry.
pub fn carried_calls_follow()
    ensures { (s : Stored) (history : History) (actor : ℕ) (call : Call) (r : Reply)
        → IsAtRest s history
        → CountsItsObjects s
        → IsOfObjects call r
        → CanCarry s call r
        → Legal (history ++ Called actor call r ∷ [])
        → Follows (carried (length history + 1) call r s) history (Called actor call r) }
{}

/// After one more entry all that is there stands by rank, so that it can be gathered.
pub fn what_follows_is_ranked()
    ensures { (moved : Stored) (history : History) (e : Entry)
        → Follows moved history e
        → IsRanked moved.state.objects }
{}

/// After one more entry a store rests once what does not live is gone.
pub fn entries_lead_on()
    ensures { (moved left : Stored) (history : History) (e : Entry)
        → Follows moved history e
        → CountsItsObjects moved
        → CountsItsObjects left
        → IsLeft moved left
        → left.state ≡ buried moved
        → IsAtRest left (history ++ e ∷ []) }
{}

/// What an entry other than the close tells is its status, and then the end of each array that is
/// gone.
pub fn ends_are_told()
    ensures { (moved : Stored) (left : State) (history : History) (e : Entry)
        → Follows moved history e
        → left ≡ buried moved
        → (e ≡ Closed → ⊥)
        → told_by (after history) e ≡ status_at e ++ filter_map end_of_object (gone moved.state left) }
{}

/// Public references stay where none is given out or taken back.
pub fn references_stay()
    ensures { (history : History) (e : Entry) (h : ℕ)
        → Legal (history ++ e ∷ [])
        → KeepsReferences e
        → public (history ++ e ∷ []) h ≡ public history h }
{}

/// After a call that renders nothing as many flights reach an object as before.
pub fn other_calls_reach_as_before()
    ensures { (history : History) (h actor : ℕ) (call : Call) (r : Reply)
        → rendered (Called actor call r) ≡ None
        → reaches (step (after history) (Called actor call r)).reached (change
        (next_place (after history)) (Called actor call r) (after history).state) h
        ≡ reaches (after history).reached (after history).state h }
{}

/// A render reaches what its walk visits, and earlier flights reach what they reached.
pub fn renders_reach_more()
    ensures { (history : History) (h actor f : ℕ)
        → Legal (history ++ Called actor (RenderFrame f) reply.Done ∷ [])
        → reaches (step (after history) (Called actor (RenderFrame f) reply.Done)).reached
        (change (next_place (after history)) (Called actor (RenderFrame f) reply.Done)
        (after history).state) h
        ≡ reaches (after history).reached (after history).state h
        + cond (has h (visited (walk (scene_objects (after history).state) f))) 1 0 }
{}

/// A flight that finished reaches nothing any more.
pub fn finished_flights_reach_no_more()
    ensures { (history : History) (h t : ℕ)
        → Legal (history ++ Finished t ∷ [])
        → reaches (step (after history) (Finished t)).reached (change (next_place (after history))
        (Finished t) (after history).state) h
        + cond (is_reached_by (after history).reached t h) 1 0
        ≡ reaches (after history).reached (after history).state h }
{}

/// A flight that left reaches nothing any more.
pub fn flights_that_left_reach_no_more()
    ensures { (history : History) (h t : ℕ)
        → Legal (history ++ Left t ∷ [])
        → reaches (step (after history) (Left t)).reached (change (next_place (after history))
        (Left t) (after history).state) h
        + cond (is_reached_by (after history).reached t h) 1 0
        ≡ reaches (after history).reached (after history).state h }
{}
