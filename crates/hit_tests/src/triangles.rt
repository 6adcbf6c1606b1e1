ghost use Rattle.std.specs.Prelude.{◌≡◌, ◌^◌, ◌≤◌, pos, ◌<ℤ◌, unsigned_abs};
ghost use Rattle.fx_math.specs.Vec3.{dot, reach};
ghost use Rattle.fx_math.specs.declared.scene.Shape.TheVariants.{Triangle};
ghost use Rattle.hit_tests.specs.Fractions.{depth_number, turned_by};
ghost use Rattle.picture_model.specs.Depths.{depth};
ghost use Rattle.picture_model.specs.Limits.{IsRayWithin, IsTriangleWithin};

use crate::quotients::quotient;
use fx_math::{FARTHEST, Ray, Vec3, cross, dot, sub};

/// The depth number of the ray's hit with the triangle of these three points, on either of its sides and up to its edges: how
/// often the ray's direction goes into the way to the hit, in 1/65536, rounded down, from 0 to 2^32. None where the ray misses
/// it, lies in its plane, or meets it behind the ray's origin or farther away.
///
/// The ray's origin is within 2^30 and its direction within 2^25, the points are within 2^28.
pub fn triangle(ray: &Ray, a: Vec3, b: Vec3, c: Vec3) -> Option<u64>
    requires ray { IsRayWithin ray.now }
    requires triangle { IsTriangleWithin a b c }
    ensures { result ≡ depth ray.now (Triangle a b c) }
{
    // Two vector products serve all four triple products, and nothing is divided before the hit is certain.
    let e1 = sub(b, a);
    let e2 = sub(c, a);
    let across = cross(ray.d, e2);
    let det = dot(e1, across);
    if det == 0 {
        return None;
    }
    let turn = det < 0;
    let det = turned(turn, det);
    let from_a = sub(ray.o, a);
    let p = signed_dot(turn, from_a, across);
    if p < 0 || det < p {
        return None;
    }
    let along = cross(from_a, e1);
    let q = signed_dot(turn, ray.d, along);
    if q < 0 || det < p + q {
        return None;
    }
    depth_number(signed_dot(turn, e2, along), det)
}

/// `z`, with its sign turned where `turn`.
#[tactic(auto, unfolding(crate::specs::Fractions::turned_by))]
fn turned(turn: bool, z: i128) -> i128
    requires { unsigned_abs z ≤ 2 ^ 96 }
    ensures value { result ≡ turned_by turn z }
    ensures size { unsigned_abs result ≤ 2 ^ 96 }
{
    if turn { -z } else { z }
}

/// The scalar product of `a` and `b`, with its sign turned where `turn`.
fn signed_dot(turn: bool, a: Vec3, b: Vec3) -> i128
    requires first { reach a ≤ 2 ^ 31 }
    requires second { reach b ≤ 2 ^ 61 }
    ensures value { result ≡ turned_by turn (dot a b) }
    ensures size { unsigned_abs result ≤ 2 ^ 96 }
{
    turned(turn, dot(a, b))
}

/// The depth number of the ray's point at `t / det`, if that is not behind the ray's origin and not too far.
#[tactic(auto, unfolding(crate::specs::Fractions::depth_number))]
fn depth_number(t: i128, det: i128) -> Option<u64>
    requires positive { pos 0 <ℤ det }
    requires room { unsigned_abs t ≤ 2 ^ 96 }
    ensures { result ≡ depth_number t det }
{
    if t < 0 {
        return None;
    }
    let depth = quotient(65536 * t.unsigned_abs(), det.unsigned_abs());
    if depth <= FARTHEST as u128 {
        Some(depth as u64)
    } else {
        None
    }
}
