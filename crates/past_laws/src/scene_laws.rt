//! What holds of the scenes of renders: each law is the contract of a function that does nothing.
ghost use Rattle.std.specs.Prelude.{ℕ, ◌≡◌, ◌++◌, ◌∷◌, [], None};
ghost use Rattle.kind_tables.specs.Scenes.{scene};
ghost use Rattle.picture_model.specs.Limits.{IsSceneWithin};
ghost use Rattle.seq_model.specs.Histories.{History};
ghost use Rattle.seq_model.specs.Legal.{Legal};
ghost use Rattle.seq_model.specs.Refusals.{refusal};
ghost use Rattle.seq_model.specs.State.{scene_objects};
ghost use Rattle.seq_model.specs.Steps.{after};
ghost use Rattle.seq_model.specs.declared.calls.Call.TheVariants.{RenderFrame};
ghost use Rattle.scene_read.specs.SceneReads.{IsReadScene, size_of_frame};
ghost use Rattle.past_laws.specs.Worlds.{render_of};

/// The scene of a frame whose render is granted is within the limits of pictures, and so is that of
/// a frame that was rendered. Its numbers have 32 bits where they were read as values.
pub fn scenes_of_renders_are_within_the_limits()
    ensures granted { (history : History) (f : ℕ)
        → Legal history
        → refusal (after history) (RenderFrame f) ≡ None
        → IsReadScene (size_of_frame (scene_objects (after history).state) f) (scene (scene_objects (after history).state) f)
        → IsSceneWithin (scene (scene_objects (after history).state) f) }
    ensures rendered { (history : History) (actor f : ℕ)
        → Legal (history ++ render_of actor f ∷ [])
        → IsReadScene (size_of_frame (scene_objects (after history).state) f) (scene (scene_objects (after history).state) f)
        → IsSceneWithin (scene (scene_objects (after history).state) f) }
{}
