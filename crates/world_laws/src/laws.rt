//! What worlds show as a history grows: each law is the contract of a function that does nothing.
ghost use Rattle.std.specs.Prelude.{◌≡◌, ◌<◌, ◌+◌, ◌++◌, ◌∷◌, [], ℕ, All, Some, false, length, true};
ghost use Rattle.std.specs.Option.{is_some};
ghost use Rattle.kind_tables.specs.SceneObjects.{object_at as scene_object_at};
ghost use Rattle.kind_tables.specs.Walks.{visited, walk};
ghost use Rattle.past_laws.specs.Worlds.{Use, last_use};
ghost use Rattle.seq_model.specs.Builds.{is_touched, is_touching, last_render};
ghost use Rattle.seq_model.specs.Histories.{History};
ghost use Rattle.seq_model.specs.Legal.{Legal};
ghost use Rattle.seq_model.specs.Pictures.{state_before};
ghost use Rattle.seq_model.specs.State.{object_at, scene_objects};
ghost use Rattle.seq_model.specs.Steps.{after};
ghost use Rattle.world_laws.specs.Alike.{IsAsBefore, ShowsAsBefore};

/// As long as it is there, an object keeps its kind, its committed parameters and its elements over
/// entries that do not touch it: over all but a commit or an unmap of it that was done.
pub fn untouched_objects_stay()
    ensures { (history further : History) (h : ℕ)
        → h < (after history).state.next
        → All (λ e. is_touching (h ∷ []) e ≡ false) further
        → IsAsBefore (scene_object_at (scene_objects (after history).state) h)
        (scene_object_at (scene_objects (after (history ++ further)).state) h) }
{}

/// A world that is there, and stays there, shows and reaches what it did over entries that touch
/// nothing that it reaches.
pub fn untouched_worlds_stay()
    ensures { (history further : History) (w : ℕ)
        → Legal (history ++ further)
        → All (λ e. is_touching (visited (walk (scene_objects (after history).state) w)) e ≡ false) further
        → is_some (object_at (after history).state w) ≡ true
        → is_some (object_at (after (history ++ further)).state w) ≡ true
        → ShowsAsBefore (scene_objects (after history).state) (scene_objects (after (history ++ further)).state) w }
{}

/// A world that is there, and that nobody touched since its last render, shows what it showed at
/// that render, and reaches what it reached there: so what was prepared of it then is what would be
/// prepared of it now.
pub fn worlds_show_their_last_render()
    ensures shown { (history : History) (w p : ℕ)
        → Legal history
        → last_render history w (length history + 1) ≡ Some p
        → is_touched history w p (length history + 1) ≡ false
        → is_some (object_at (after history).state w) ≡ true
        → ShowsAsBefore (scene_objects (state_before history p)) (scene_objects (after history).state) w }
    ensures reach { (history : History) (w : ℕ) (u : Use)
        → Legal history
        → last_use history w ≡ Some u
        → u.touched ≡ false
        → is_some (object_at (after history).state w) ≡ true
        → visited (walk (scene_objects (after history).state) w) ≡ u.reach }
{}
