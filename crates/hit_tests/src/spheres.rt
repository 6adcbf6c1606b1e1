ghost use Rattle.std.specs.Prelude.{◌≡◌, ◌+◌, ◌*◌, ◌^◌, ◌<◌, ◌≤◌, unsigned_abs};
ghost use Rattle.fx_math.specs.Vec3.{dot, reach};
ghost use Rattle.fx_math.specs.declared.scene.Shape.TheVariants.{Sphere};
ghost use Rattle.hit_tests.specs.Approaches.{IsApproachWithin, entry, is_inside};
ghost use Rattle.picture_model.specs.Depths.{depth};
ghost use Rattle.picture_model.specs.Limits.{IsRayWithin, IsSphereWithin};

use crate::quotients::quotient;
use fx_math::{FARTHEST, Ray, Vec3, dot, isqrt, sub};

/// The depth number of the ray's hit with the ball round `centre`: the least whole number from 0 to 2^32 whose point on the ray
/// lies in the ball, its surface included. So it is 0 where the ray starts in the ball, and None where the ray passes the ball, also
/// between two such points.
///
/// The ray's origin is within 2^30 and its direction within 2^25, the centre is within 2^28 and the radius from 0 to 2^28.
pub fn sphere(ray: &Ray, centre: Vec3, radius: i64) -> Option<u64>
    requires ray { IsRayWithin ray.now }
    requires sphere { IsSphereWithin centre radius }
    ensures { result ≡ depth ray.now (Sphere centre radius) }
{
    let from_centre = sub(ray.o, centre);
    let excess = short_dot(from_centre, from_centre) - radius * radius;
    if excess <= 0 {
        return Some(0);
    }
    let away = short_dot(from_centre, ray.d);
    if away >= 0 {
        return None;
    }
    entry(&Approach {
        square: short_dot(ray.d, ray.d).unsigned_abs(),
        toward: away.unsigned_abs(),
        excess: excess.unsigned_abs(),
    })
}

/// The scalar product of `a` and `b`, short enough for 64 bits.
fn short_dot(a: Vec3, b: Vec3) -> i64
    requires first { reach a ≤ 2 ^ 30 + 2 ^ 28 }
    requires second { reach b ≤ 2 ^ 30 + 2 ^ 28 }
    ensures value { result ≡ dot a b }
    ensures size { unsigned_abs result ≤ 3 * (reach a * reach b) }
{
    dot(a, b) as i64
}

/// A ray that starts outside a ball and comes nearer to it. With the way m from the ball's centre to the ray's origin, the
/// direction d and the radius r, its point at the depth number s lies in the ball where
/// `square * s * s + 2^32 * excess <= 2 * 65536 * toward * s`.
#[derive(Clone, Copy)]
struct Approach {
    /// d . d
    square: u64,
    /// -(m . d)
    toward: u64,
    /// m . m - r * r
    excess: u64,
}

/// The least depth number in the ball. The roots of the quadratic give a number before which no point lies in the ball, and
/// that number or the next one is the first that does, or else none is.
fn entry(a: &Approach) -> Option<u64>
    requires { IsApproachWithin a.now }
    ensures { result ≡ entry a.now }
{
    let nearest = a.toward as u128 * a.toward as u128;
    let away = a.square as u128 * a.excess as u128;
    if nearest < away {
        return None;
    }
    let root = long_root(a.square, nearest - away);
    let first = quotient(65536 * a.toward as u128 - root - 1, a.square as u128);
    if first > FARTHEST as u128 {
        return None;
    }
    let first = first as u64;
    if is_inside(a, first) {
        return Some(first);
    }
    if first == FARTHEST {
        return None;
    }
    if is_inside(a, first + 1) {
        Some(first + 1)
    } else {
        None
    }
}

/// 65536 times the root of `n`, or less by at most `slack`: the root of no more of the upper digits than that takes.
fn long_root(slack: u64, n: u128) -> u128
    requires slack { 0 < slack }
    requires room { n < 2 ^ 118 }
    requires small { slack < 65536 → n < 2 ^ 96 }
    ensures low { result * result ≤ 2 ^ 32 * n }
    ensures high { 2 ^ 32 * n < (result + slack) * (result + slack) }
    ensures size { result < 2 ^ 80 }
{
    if slack < 65536 {
        return isqrt(0x1_0000_0000 * n);
    }
    let digits = slack.ilog2() - 16;
    65536 * isqrt(n >> (2 * digits)) * power(digits)
}

fn power(digits: u32) -> u128
    requires { digits < 64 }
    ensures { result ≡ 2 ^ digits }
{
    1 << digits
}

/// The ray's point at `s` lies in the ball.
#[tactic(auto, unfolding(crate::specs::Approaches::is_inside))]
fn is_inside(a: &Approach, s: u64) -> bool
    requires approach { IsApproachWithin a.now }
    requires near { s ≤ 2 ^ 32 }
    ensures { result ≡ is_inside a.now s }
{
    let s = s as u128;
    a.square as u128 * s * s + 0x1_0000_0000 * a.excess as u128 <= 131072 * a.toward as u128 * s
}
