//! Walks and rows that are computed: each is the contract of a function that does nothing.
ghost use Rattle.std.specs.Prelude.{◌≡◌, ℕ, [], ◌∷◌, None, pos};
ghost use Rattle.fx_math.specs.declared.scene.Shape.TheVariants.{Sphere};
ghost use Rattle.kind_tables.specs.Examples.{sphere_objects, triangle_objects};
ghost use Rattle.kind_tables.specs.Scenes.{primitives_of};
ghost use Rattle.kind_tables.specs.WalkRefusals.{walk_refusal};
ghost use Rattle.kind_tables.specs.Walks.{visited, walk};

/// From the triangle's frame nine objects are visited: the frame, the world, its array, the surface, the geometry, its
/// positions, the material, the camera, the renderer.
#[tactic(auto, using(crate::proofs::ExampleFacts::frame_walk))]
pub fn the_walk_of_a_frame()
    ensures { visited (walk triangle_objects 9) ≡ 9 ∷ 6 ∷ 5 ∷ 4 ∷ 2 ∷ 1 ∷ 3 ∷ 7 ∷ 8 ∷ [] }
{}

/// From its world six of them are.
#[tactic(auto, using(crate::proofs::ExampleFacts::world_walk))]
pub fn the_walk_of_a_world()
    ensures { visited (walk triangle_objects 6) ≡ 6 ∷ 5 ∷ 4 ∷ 2 ∷ 1 ∷ 3 ∷ [] }
{}

/// Nothing is wrong with the triangle's frame.
#[tactic(auto, using(crate::proofs::ExampleFacts::frame_is_sound))]
pub fn a_sound_frame()
    ensures { walk_refusal triangle_objects (walk triangle_objects 9) ≡ None }
{}

/// The one row of a sphere under an instance.
#[tactic(auto, using(crate::proofs::ExampleFacts::sphere_row))]
pub fn the_row_of_a_sphere_under_an_instance()
    ensures { primitives_of sphere_objects (walk sphere_objects 9) ≡ record {
      place = record { inst = 2; surf = 0; prim = 0 };
      shape = Sphere (record { x = pos 21; y = pos 42; z = pos 63 }) (pos 200);
      color = pos 52429 ∷ pos 52429 ∷ pos 52429 ∷ [];
      opacity = pos 32768;
      object_id = 11;
      instance_id = 22;
    } ∷ [] }
{}
