//! What the layers above may rely on: a law is the contract of a function that does nothing.

ghost use Rattle.std.specs.Prelude.{◌≡◌, fold};
ghost use Rattle.picture_model.specs.Shading.{blend_hit, finish_blend, hit_rows, shade, unblended};

use fx_math::{Lighting, Primitive, Ray};

/// The hits of a ray, blended from front to back and then finished, are what the ray shows.
#[tactic(auto, unfolding(picture_model::specs::Shading::shade))]
pub fn blended_hits_are_the_shade(primitives: &[Primitive], lighting: &Lighting, ray: &Ray)
    ensures { finish_blend lighting.now (fold (blend_hit lighting.now ray.now) unblended (hit_rows primitives.now ray.now)) ≡ shade primitives.now lighting.now ray.now }
{}
