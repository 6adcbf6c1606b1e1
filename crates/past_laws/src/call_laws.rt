//! What may follow a history, and what a walk does not depend on: each law is the contract of a
//! function that does nothing.
ghost use Rattle.std.specs.Prelude.{ℕ, ◌≡◌, ◌++◌, ◌∷◌, [], List, map, true};
ghost use Rattle.std.specs.Option.{MatchOption};
ghost use Rattle.kind_tables.specs.SceneObjects.{SceneObjects};
ghost use Rattle.kind_tables.specs.Walks.{Spot, walk_from};
ghost use Rattle.past_laws.specs.Stills.{AreStill, unmarked_visit};
ghost use Rattle.seq_model.specs.Answers.{IsAnswer};
ghost use Rattle.seq_model.specs.Extensions.{let_follow, readings_of};
ghost use Rattle.seq_model.specs.Histories.{History};
ghost use Rattle.seq_model.specs.Legal.{IsNoLess, Legal, is_content_sound, reading};
ghost use Rattle.seq_model.specs.Life.{has};
ghost use Rattle.seq_model.specs.Steps.{after};
ghost use Rattle.seq_model.specs.declared.calls.Call.{Call};
ghost use Rattle.seq_model.specs.declared.calls.Entry.TheVariants.{Called};
ghost use Rattle.seq_model.specs.declared.calls.Reply.{Reply};

/// One more call may follow a legal history where its reply is one that it may have there, and
/// reads no fewer tiles of a flight than an earlier reply did.
pub fn calls_may_follow()
    ensures { (history : History) (actor : ℕ) (call : Call) (r : Reply)
        → Legal history
        → let_follow history (Called actor call r) ≡ true
        → IsAnswer (after history) call r
        → is_content_sound (after history) call ≡ true
        → MatchOption (reading (after history) (Called actor call r)) (Unit {0}) (IsNoLess (readings_of history))
        → Legal (history ++ Called actor call r ∷ []) }
{}

/// A walk over objects that are what they were, but for which of them are mapped, visits what it
/// visited.
pub fn walks_stay()
    ensures { (reach : List ℕ) (old new : SceneObjects) (n : ℕ) (start : Spot × ℕ)
        → AreStill (λ k. has k reach ≡ true) old new
        → has start.1 reach ≡ true
        → map unmarked_visit (walk_from n new start) ≡ map unmarked_visit (walk_from n old start) }
{}
