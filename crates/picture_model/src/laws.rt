//! What the layers above may rely on: each law is the contract of a function that does nothing.

ghost use Rattle.std.specs.Prelude.{◌≡◌, ℕ, ◌+◌, ◌*◌, ◌/◌, ◌++◌, ◌∷◌, None, fold, MatchOption};
ghost use Rattle.picture_model.specs.Depths.{IsDepth, depth};
ghost use Rattle.picture_model.specs.Hits.{nearer, nearest};
ghost use Rattle.picture_model.specs.Pictures.{in_a_row, pixel, row_of, whole};
ghost use Rattle.picture_model.specs.Shading.{blend_hit, finish_blend, placed};
ghost use Rattle.picture_model.specs.Tiles.{tile_rect, tiles_over};

use crate::records::{Blend, HitRow, Plane};
use fx_math::{Lighting, Primitive, Ray, Scene, Shape};

/// The depth number that is found is the one that the conditions on a hit describe, and where none is found there is none.
pub fn depth_is_exact(ray: &Ray, shape: &Shape)
    ensures { MatchOption (depth ray.now shape.now) ((s : ℕ) → IsDepth ray.now shape.now s → ⊥) (IsDepth ray.now shape.now) }
{}

/// The nearest hit of two groups of primitives is the nearer of the nearest of each.
pub fn nearest_of_groups(ray: &Ray, first: &[Primitive], second: &[Primitive])
    ensures { nearest ray.now (placed (first.now ++ second.now)) ≡ nearer (nearest ray.now (placed first.now)) (nearest ray.now (placed second.now)) }
{}

/// A primitive that the ray misses may be left out.
pub fn misses_do_not_matter(
    ray: &Ray,
    before: &[Primitive],
    missed: &Primitive,
    after: &[Primitive],
)
    ensures { depth ray.now missed.now.shape ≡ None →
        nearest ray.now (placed (before.now ++ missed.now ∷ after.now)) ≡ nearest ray.now (placed (before.now ++ after.now)) }
{}

/// Once nothing shows any more of what lies behind, no later hit matters: so an opaque nearest hit alone decides its pixel.
pub fn hidden_hits_do_not_matter(lighting: &Lighting, ray: &Ray, blend: &Blend, hidden: &[HitRow])
    ensures { blend.now.rest ≡ 0 →
        finish_blend lighting.now (fold (blend_hit lighting.now ray.now) blend.now hidden.now) ≡ finish_blend lighting.now blend.now }
{}

/// A row of a picture is the rows of its tiles side by side.
pub fn rows_are_those_of_tiles(scene: &Scene, plane: Plane, y: u32)
    ensures { row_of (pixel scene.now plane) (whole scene.now.width scene.now.height) y
        ≡ in_a_row (λ column. row_of (pixel scene.now plane) (tile_rect scene.now.width scene.now.height (y / 16 * tiles_over scene.now.width + column)) y)
        0 (tiles_over scene.now.width) }
{}
