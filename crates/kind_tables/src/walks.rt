//! What holds of every walk and of every scene: each law is the contract of a function that does nothing.
ghost use Rattle.std.specs.Prelude.{◌≡◌, ℕ, ◌+◌, ◌<◌, Some, All, codes, drop};
ghost use Rattle.std.specs.Option.{option_and_then};
ghost use Rattle.kind_tables.specs.Ranks.{rank_of};
ghost use Rattle.kind_tables.specs.SceneObjects.{SceneObject, SceneObjects, object_at, object_in, value_named};
ghost use Rattle.kind_tables.specs.Scenes.{lights_of, primitives_of};
ghost use Rattle.kind_tables.specs.Typed.{IsTyped};
ghost use Rattle.kind_tables.specs.WalkRanks.{AreRanked};
ghost use Rattle.kind_tables.specs.Walks.{at_origin, walk, walk_from};
ghost use Rattle.kind_tables.specs.declared.kinds.Kind.TheVariants.{FrameDefault};

/// A walk ends: where each object stands higher than what it names, none goes deeper than the ten ranks.
#[tactic(auto, using(crate::proofs::WalkLaws::deeper_is_the_same))]
pub fn walks_end()
    ensures { (objects : SceneObjects) (root further : ℕ) → AreRanked objects →
        walk_from (10 + further) objects (at_origin, root) ≡ walk objects root }
{}

/// All that a walk visits behind its first object stands lower than that.
#[tactic(auto, using(crate::proofs::WalkLaws::the_rest_is_lower))]
pub fn walks_go_down()
    ensures { (objects : SceneObjects) (root : ℕ) (o : SceneObject) → AreRanked objects → object_at objects root ≡ Some o →
        All (λ v. rank_of v.object.kind < rank_of o.kind) (drop 1 (walk objects root)) }
{}

/// A walk visits the objects that are there, as they are.
#[tactic(auto, using(crate::proofs::WalkLaws::visits_are_objects))]
pub fn walks_visit_objects()
    ensures { (objects : SceneObjects) (root : ℕ) → All (λ v. object_at objects v.handle ≡ Some v.object) (walk objects root) }
{}

/// A frame shows what its committed world shows: its camera, its renderer and what stands below them are neither surfaces nor lights.
/// So what was prepared of a world serves the render of each frame that shows it.
pub fn a_frame_shows_its_world()
    ensures primitives { (objects : SceneObjects) (f w : ℕ) (frame : SceneObject)
        → IsTyped objects
        → AreRanked objects
        → object_at objects f ≡ Some frame
        → frame.kind ≡ FrameDefault
        → option_and_then object_in (value_named (codes "world") frame.committed) ≡ Some w
        → primitives_of objects (walk objects f) ≡ primitives_of objects (walk objects w) }
    ensures lights { (objects : SceneObjects) (f w : ℕ) (frame : SceneObject)
        → IsTyped objects
        → AreRanked objects
        → object_at objects f ≡ Some frame
        → frame.kind ≡ FrameDefault
        → option_and_then object_in (value_named (codes "world") frame.committed) ≡ Some w
        → lights_of (walk objects f) ≡ lights_of (walk objects w) }
{}
