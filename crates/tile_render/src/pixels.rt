//! What one ray shows.
ghost use Rattle.std.specs.Prelude.{◌≡◌, All};
ghost use Rattle.std.specs.Option.{ForSome, option_and_then};
ghost use Rattle.picture_model.specs.Hits.{hit_after, nearest};
ghost use Rattle.picture_model.specs.Limits.{IsBlendWithin, IsHitRowWithin, IsLightingWithin, IsPrimitiveWithin, IsRayWithin};
ghost use Rattle.picture_model.specs.Pictures.{front, id_bytes};
ghost use Rattle.picture_model.specs.Shading.{blend_any, finish_blend, hit_row, placed, primitive_at, shade};
ghost use Rattle.tile_render.specs.Rays.{Shows};

use fx_math::{Lighting, Primitive, Ray};
use picture_model::{Hit, PrimSource, id_bytes};
use ray_kernel::{hit_after, nearest};
use shade_core::{Blend, HitRow, blend_hit, finish_blend};
use world_snapshot::Prepared;

/// The bytes of one pixel in the four channels.
#[derive(Clone, Copy)]
pub(crate) struct Pixel {
    pub(crate) color: [u8; 4],
    pub(crate) primitive_id: [u8; 4],
    pub(crate) object_id: [u8; 4],
    pub(crate) instance_id: [u8; 4],
}

/// What a ray shows. `tests` rises by the number of hit tests.
pub(crate) fn pixel_of(
    prepared: &Prepared,
    lighting: &Lighting,
    ray: &Ray,
    tests: &mut u64,
) -> Pixel
    requires primitives { All IsPrimitiveWithin prepared.now.primitives }
    requires lighting { IsLightingWithin lighting.now }
    requires ray { IsRayWithin ray.now }
    ensures { Shows prepared.now.primitives lighting.now ray.now result }
{
    let first = first_hit(prepared, ray, tests);
    let front = primitive_of(prepared, &first);
    Pixel {
        color: shade(prepared, lighting, ray, first, tests),
        primitive_id: id_bytes(front.map(|p| p.place.prim)),
        object_id: id_bytes(front.map(|p| p.object_id)),
        instance_id: id_bytes(front.map(|p| p.instance_id)),
    }
}

/// The nearest hit of the ray.
fn first_hit(prepared: &Prepared, ray: &Ray, tests: &mut u64) -> Option<Hit>
    requires primitives { All IsPrimitiveWithin prepared.now.primitives }
    requires ray { IsRayWithin ray.now }
    ensures { result ≡ nearest ray.now (placed prepared.now.primitives) }
{
    nearest(prepared.tree(), prepared, ray, tests)
}

/// The nearest of the hits behind one.
fn next_hit(prepared: &Prepared, ray: &Ray, last: &Hit, tests: &mut u64) -> Option<Hit>
    requires primitives { All IsPrimitiveWithin prepared.now.primitives }
    requires ray { IsRayWithin ray.now }
    ensures { result ≡ hit_after ray.now (placed prepared.now.primitives) last.now }
{
    hit_after(prepared.tree(), prepared, ray, last, tests)
}

/// The primitive that is hit, if one is.
fn primitive_of(prepared: &Prepared, hit: &Option<Hit>) -> Option<Primitive>
    ensures { result ≡ option_and_then (λ h. primitive_at prepared.now.primitives h.place) hit.now }
{
    match hit {
        Some(hit) => prepared.primitive_at(&hit.place),
        None => None,
    }
}

/// What shading needs of a hit.
fn hit_row(prepared: &Prepared, hit: &Hit) -> Option<HitRow>
    ensures { result ≡ hit_row prepared.now.primitives hit.now }
{
    let primitive = prepared.primitive_at(&hit.place)?;
    let color = primitive.color;
    Some(HitRow {
        depth: hit.depth,
        shape: primitive.shape,
        color,
        opacity: primitive.opacity,
    })
}

/// The blend with one more hit, where that has anything to show.
fn blend_any(lighting: &Lighting, ray: &Ray, row: Option<HitRow>, blend: &mut Blend)
    requires lighting { IsLightingWithin lighting.now }
    requires ray { IsRayWithin ray.now }
    requires row { ForSome row IsHitRowWithin }
    requires blend { IsBlendWithin blend.old }
    ensures value { blend.new ≡ blend_any lighting.now ray.now blend.old row }
    ensures size { IsBlendWithin blend.new }
{
    if let Some(row) = row {
        blend_hit(lighting, ray, &row, blend);
    }
}

/// The bytes of a blend, with the background behind it.
fn color_bytes(lighting: &Lighting, blend: &Blend) -> [u8; 4]
    requires lighting { IsLightingWithin lighting.now }
    requires blend { IsBlendWithin blend.now }
    ensures { result ≡ finish_blend lighting.now blend.now }
{
    finish_blend(lighting, blend)
}

/// The four colour bytes of what a ray shows whose nearest hit is `first`: its hits are blended from front to back until nothing
/// shows behind them.
fn shade(
    prepared: &Prepared,
    lighting: &Lighting,
    ray: &Ray,
    first: Option<Hit>,
    tests: &mut u64,
) -> [u8; 4]
    requires primitives { All IsPrimitiveWithin prepared.now.primitives }
    requires lighting { IsLightingWithin lighting.now }
    requires ray { IsRayWithin ray.now }
    requires first { first ≡ nearest ray.now (placed prepared.now.primitives) }
    ensures { result ≡ shade prepared.now.primitives lighting.now ray.now }
{
    let mut blend = Blend {
        sum: [0; 3],
        rest: 65536,
    };
    let mut next = first;
    for _ in 0..prepared.len() {
        let Some(hit) = next else { break };
        blend_any(lighting, ray, hit_row(prepared, &hit), &mut blend);
        if blend.rest == 0 {
            return color_bytes(lighting, &blend);
        }
        next = next_hit(prepared, ray, &hit, tests);
    }
    color_bytes(lighting, &blend)
}
