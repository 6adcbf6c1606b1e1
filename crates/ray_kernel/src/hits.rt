ghost use Rattle.std.specs.Prelude.{◌≡◌, ◌+◌, ◌-◌, ◌^◌, ◌≤◌, All, IsSome, length, min};
ghost use Rattle.picture_model.specs.Hits.{nearest, hit_after};
ghost use Rattle.picture_model.specs.Limits.{IsRayWithin, IsShapeWithin};
ghost use Rattle.ray_kernel.specs.Searches.{IsTreeFor};

use crate::searches::Search;
use crate::walks::run;
use bvh_build::Tree;
use fx_math::Ray;
use picture_model::{Hit, PrimSource};

/// The nearest hit of the ray with the primitives, by a tree over their boxes: the hit with the least depth, and of those the one
/// with the lowest place; none exactly where no primitive is hit. `tests` rises by the number of primitives that were tested, none of
/// them twice and at least one for a hit, up to its greatest number.
///
/// The ray's origin is within 2^30 and its direction within 2^25, points are within 2^28, and a radius is from 0 to 2^28.
pub fn nearest<P: PrimSource>(tree: &Tree, prims: &P, ray: &Ray, tests: &mut u64) -> Option<Hit>
    requires tree { IsTreeFor tree.now (P.primitives prims.now) }
    requires ray { IsRayWithin ray.now }
    requires shapes { All (λ p. IsShapeWithin p.1) (P.primitives prims.now) }
    ensures nearest { result ≡ nearest ray.now (P.primitives prims.now) }
    ensures tests { tests.old ≤ tests.new }
    ensures once { tests.new ≤ tests.old + length (P.primitives prims.now) }
    ensures counted { IsSome result → min (tests.old + 1) (2 ^ 64 - 1) ≤ tests.new }
{
    run(&Search::new(prims, ray, None), tree, tests)
}

/// The nearest of the hits behind `after`, by depth and then by place, as `nearest` finds the first of all.
pub fn hit_after<P: PrimSource>(
    tree: &Tree,
    prims: &P,
    ray: &Ray,
    after: &Hit,
    tests: &mut u64,
) -> Option<Hit>
    requires tree { IsTreeFor tree.now (P.primitives prims.now) }
    requires ray { IsRayWithin ray.now }
    requires shapes { All (λ p. IsShapeWithin p.1) (P.primitives prims.now) }
    ensures hit { result ≡ hit_after ray.now (P.primitives prims.now) after.now }
    ensures tests { tests.old ≤ tests.new }
    ensures once { tests.new ≤ tests.old + length (P.primitives prims.now) }
    ensures counted { IsSome result → min (tests.old + 1) (2 ^ 64 - 1) ≤ tests.new }
{
    run(&Search::new(prims, ray, Some(*after)), tree, tests)
}
