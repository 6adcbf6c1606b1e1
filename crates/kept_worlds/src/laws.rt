//! What holds of kept worlds: each law is the contract of a function that does nothing.
ghost use Rattle.std.specs.Prelude.{◌≡◌, ◌++◌, ◌∷◌, [], ℕ, Bool, List, None, Option, Some, false, true};
ghost use Rattle.std.specs.Option.{is_some, option_and_then};
ghost use Rattle.past_laws.specs.Worlds.{render_of, world_of};
ghost use Rattle.seq_model.specs.Builds.{is_touching};
ghost use Rattle.seq_model.specs.Histories.{History, rendered};
ghost use Rattle.seq_model.specs.Legal.{Legal};
ghost use Rattle.seq_model.specs.Life.{has};
ghost use Rattle.seq_model.specs.Steps.{after};
ghost use Rattle.seq_model.specs.declared.calls.Entry.{Entry};
ghost use Rattle.world_laws.specs.Alike.{Shown};
ghost use Rattle.kept_worlds.specs.LastKept.{AreKept, AreShown, ShowsLastRender, is_there};

/// Kept worlds stay what they are by an entry that renders no world and touches nothing, and by a
/// render of a world that is kept. After a legal history one entry more leaves exactly those kept
/// that are there and untouched since their last render, if what it changed was kept so for the
/// worlds that were there before it, and what is gone was forgotten: a world that comes was never
/// rendered.
pub fn kept_worlds_stay()
    ensures stay { (history : History) (e : Entry) (there : ℕ → Bool) (reaches : ℕ → Option (List ℕ))
        → option_and_then (world_of (after history).state) (rendered e) ≡ None
        → ((objects : List ℕ) → is_touching objects e ≡ false)
        → AreKept there history reaches
        → AreKept there (history ++ e ∷ []) reaches }
    ensures again { (history : History) (actor f world : ℕ) (reaches : ℕ → Option (List ℕ))
        → Legal history
        → world_of (after history).state f ≡ Some world
        → is_some (reaches world) ≡ true
        → AreKept (is_there history) history reaches
        → AreKept (is_there history) (history ++ render_of actor f ∷ []) reaches }
    ensures over { (history : History) (e : Entry) (reaches : ℕ → Option (List ℕ))
        → Legal history
        → AreKept (is_there history) (history ++ e ∷ []) reaches
        → ((w : ℕ) → is_there history w ≡ true → is_there (history ++ e ∷ []) w ≡ false → reaches w ≡ None)
        → AreKept (is_there (history ++ e ∷ [])) (history ++ e ∷ []) reaches }
{}

/// A world is kept no longer than it lives, and all that it reached lives with it. It shows now, and reaches, what it did at its last
/// render; and what showed it before an entry over which it is kept shows it after the entry: so
/// what was prepared of it at its last render is what would be prepared of it now.
pub fn kept_worlds_show_what_is_there()
    ensures lives { (history : History) (reaches : ℕ → Option (List ℕ)) (w : ℕ)
        → AreKept (is_there history) history reaches
        → is_some (reaches w) ≡ true
        → is_there history w ≡ true }
    ensures reached { (history : History) (reaches : ℕ → Option (List ℕ)) (w : ℕ) (reach : List ℕ) (h : ℕ)
        → Legal history
        → AreKept (is_there history) history reaches
        → reaches w ≡ Some reach
        → has h reach ≡ true
        → is_there history h ≡ true }
    ensures last { (history : History) (reaches : ℕ → Option (List ℕ)) (w : ℕ) (reach : List ℕ)
        → Legal history
        → AreKept (is_there history) history reaches
        → reaches w ≡ Some reach
        → ShowsLastRender history w reach }
    ensures now { (history : History) (e : Entry) (reaches : ℕ → Option (List ℕ)) (shown : ℕ → Option Shown)
        → Legal (history ++ e ∷ [])
        → AreKept (is_there (history ++ e ∷ [])) (history ++ e ∷ []) reaches
        → ((w : ℕ) → is_some (shown w) ≡ true → is_some (reaches w) ≡ true)
        → AreShown history shown
        → AreShown (history ++ e ∷ []) shown }
{}
