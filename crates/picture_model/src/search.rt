ghost use Rattle.std.specs.Prelude.{◌≡◌, All, IfOk, Option};
ghost use Rattle.picture_model.specs.Hits.{is_lower, is_nearer, nearer, behind, hit_with, nearest, hit_after, hits};
ghost use Rattle.picture_model.specs.Limits.{IsPrimitiveWithin, IsRayWithin};
ghost use Rattle.picture_model.specs.Shading.{placed};

use crate::depths::depth;
use crate::records::Hit;
use fx_math::{Place, Primitive, Ray};
use std::alloc::{AllocError, Global};

/// Place `a` is lower than place `b`: by instance, then surface, then primitive.
#[tactic(auto, unfolding(crate::specs::Hits::is_lower))]
fn is_lower(a: &Place, b: &Place) -> bool
    ensures { result ≡ is_lower a.now b.now }
{
    a.inst < b.inst
        || (a.inst == b.inst && (a.surf < b.surf || (a.surf == b.surf && a.prim < b.prim)))
}

/// Hit `a` stands before hit `b`: by depth, and at one depth by place.
#[tactic(auto, unfolding(crate::specs::Hits::is_nearer))]
pub fn is_nearer(a: &Hit, b: &Hit) -> bool
    ensures { result ≡ is_nearer a.now b.now }
{
    a.depth < b.depth || (a.depth == b.depth && is_lower(&a.place, &b.place))
}

/// The nearer of two hits, where there are two.
pub fn nearer(a: Option<Hit>, b: Option<Hit>) -> Option<Hit>
    ensures { result ≡ nearer a b }
{
    match (a, b) {
        (None, _) => b,
        (_, None) => a,
        (Some(first), Some(second)) => Some(if is_nearer(&second, &first) {
            second
        } else {
            first
        }),
    }
}

/// The hit of the ray with one primitive.
fn hit_with(ray: &Ray, primitive: &Primitive) -> Option<Hit>
    requires ray { IsRayWithin ray.now }
    requires primitive { IsPrimitiveWithin primitive.now }
    ensures { result ≡ hit_with ray.now (primitive.now.place, primitive.now.shape) }
{
    let depth = depth(ray, &primitive.shape)?;
    Some(Hit {
        depth,
        place: primitive.place,
    })
}

/// The hit with the least depth, and of those the one with the lowest place.
pub fn nearest(ray: &Ray, primitives: &[Primitive]) -> Option<Hit>
    requires ray { IsRayWithin ray.now }
    requires primitives { All IsPrimitiveWithin primitives.now }
    ensures { result ≡ nearest ray.now (placed primitives.now) }
{
    let mut best = None;
    for primitive in primitives {
        best = nearer(best, hit_with(ray, primitive));
    }
    best
}

/// A hit, where it lies behind the last one.
fn behind(last: &Hit, hit: Option<Hit>) -> Option<Hit>
    ensures { result ≡ behind last.now hit }
{
    hit.filter(|h| is_nearer(last, h))
}

/// The nearest of the hits behind `last`.
pub fn hit_after(ray: &Ray, primitives: &[Primitive], last: &Hit) -> Option<Hit>
    requires ray { IsRayWithin ray.now }
    requires primitives { All IsPrimitiveWithin primitives.now }
    ensures { result ≡ hit_after ray.now (placed primitives.now) last.now }
{
    let mut best = None;
    for primitive in primitives {
        best = nearer(best, behind(last, hit_with(ray, primitive)));
    }
    best
}

/// All hits from front to back. The only error is want of memory.
pub fn hits(alloc: Global, ray: &Ray, primitives: &[Primitive]) -> Result<Vec<Hit>, AllocError>
    requires ray { IsRayWithin ray.now }
    requires primitives { All IsPrimitiveWithin primitives.now }
    ensures { IfOk result (λ found. found.items ≡ hits ray.now (placed primitives.now)) }
{
    let mut found = Vec::new(alloc);
    let mut next = nearest(ray, primitives);
    for _ in primitives {
        let Some(hit) = next else { break };
        found.push(hit)?;
        next = hit_after(ray, primitives, &hit);
    }
    Ok(found)
}
