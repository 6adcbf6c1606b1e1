//! What the flights and pictures that a device keeps show: each law is the contract of a function that
//! does nothing.
ghost use Rattle.std.specs.Prelude.{◌≡◌, ◌≤◌, ◌+◌, ◌++◌, ◌∷◌, [], ℕ, Bool, List, length};
ghost use Rattle.dev_types.specs.declared.handles.Channel.{Channel};
ghost use Rattle.frame_future.specs.Channels.{is_asked};
ghost use Rattle.frame_future.specs.Future.{Future};
ghost use Rattle.frame_future.specs.Reads.{ended_by, left_by, pictures_of};
ghost use Rattle.kind_tables.specs.Scenes.{scene};
ghost use Rattle.past_laws.specs.Prepared.{asks_for};
ghost use Rattle.past_laws.specs.Worlds.{render_of};
ghost use Rattle.seq_model.specs.Histories.{History};
ghost use Rattle.seq_model.specs.State.{scene_objects};
ghost use Rattle.seq_model.specs.Steps.{after};
ghost use Rattle.tile_claims.specs.Parts.{scene_of};
ghost use Rattle.tile_claims.specs.declared.key.Key.{Key};
ghost use Rattle.device_laws.specs.Flown.{Flown, runs_of};
ghost use Rattle.device_laws.specs.Renders.{Renders, ShowsRender};
ghost use Rattle.device_laws.specs.Standing.{Standing};

/// A flight shows its render if it was begun with the scene and the channels of its frame as they are
/// committed then. It goes on to show it whatever happens later, and so does the picture that it
/// leaves, also where a sweep ends it.
pub fn flights_show_their_renders()
    ensures begins { (history : History) (actor f : ℕ) (key : Key) (channels : List Bool)
        → scene_of key ≡ scene (scene_objects (after history).state) f
        → ((c : Channel) → is_asked channels c ≡ asks_for (after history).state f c)
        → ShowsRender (history ++ render_of actor f ∷ []) (length history + 1) key channels }
    ensures stays { (history further : History) (t : ℕ) (key : Key) (channels : List Bool)
        → t ≤ length history
        → ShowsRender history t key channels
        → ShowsRender (history ++ further) t key channels }
    ensures all_stay { (history further : History) (future : Future)
        → Flown history (runs_of future.flights)
        → Standing history (runs_of future.flights) future.pictures
        → Renders history future
        → Renders (history ++ further) future }
    ensures sweep { (history : History) (old new : Future) (reads : List ℕ)
        → new.flights ≡ left_by old.flights reads
        → new.pictures ≡ old.pictures ++ pictures_of (ended_by old.flights reads)
        → Renders history old
        → Renders history new }
{}
