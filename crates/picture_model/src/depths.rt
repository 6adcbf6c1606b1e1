ghost use Rattle.std.specs.Prelude.{◌≡◌, ◌+◌, ◌≤◌, ◌^◌, unsigned_abs};
ghost use Rattle.fx_math.specs.Vec3.{cross, dot, reach};
ghost use Rattle.picture_model.specs.Depths.{crossing, turned, is_crossed, crossing_depth, depth, distance_at, farthest, from_centre, is_in_ball, is_settled, sphere_depth};
ghost use Rattle.picture_model.specs.Limits.{IsCrossingWithin, IsPoint, IsRayWithin, IsShapeWithin, IsSphereWithin};

use fx_math::{FARTHEST, Ray, Shape, Vec3, add, cross, dot, sub, times};

/// Where a ray meets a triangle's plane, as fractions over one denominator: `t / det` along the ray, `p / det` along the first edge and
/// `q / det` along the second.
#[derive(Clone, Copy, Debug, PartialEq, Eq)]
pub struct Crossing {
    pub det: i128,
    pub t: i128,
    pub p: i128,
    pub q: i128,
}

/// The triple product `a . (b x c)` of vectors as rays and triangles within the limits have them.
fn triple(a: Vec3, b: Vec3, c: Vec3) -> i128
    requires first { reach a ≤ 2 ^ 30 + 2 ^ 28 }
    requires second { reach b ≤ 2 ^ 30 + 2 ^ 28 }
    requires third { reach c ≤ 2 ^ 30 + 2 ^ 28 }
    ensures value { result ≡ dot a (cross b c) }
    ensures size { unsigned_abs result ≤ 2 ^ 96 }
{
    dot(a, cross(b, c))
}

fn crossing_of(ray: &Ray, a: Vec3, b: Vec3, c: Vec3) -> Crossing
    requires ray { IsRayWithin ray.now }
    requires first { IsPoint a }
    requires second { IsPoint b }
    requires third { IsPoint c }
    ensures value { result ≡ crossing ray.now a b c }
    ensures size { IsCrossingWithin result }
{
    let e1 = sub(b, a);
    let e2 = sub(c, a);
    let from_a = sub(ray.o, a);
    Crossing {
        det: -triple(ray.d, e1, e2),
        t: triple(from_a, e1, e2),
        p: -triple(ray.d, from_a, e2),
        q: -triple(ray.d, e1, from_a),
    }
}

/// The same fractions over a denominator that is not negative.
#[tactic(auto, unfolding(crate::specs::Depths::turned))]
fn turned(c: Crossing) -> Crossing
    requires { IsCrossingWithin c }
    ensures value { result ≡ turned c }
    ensures size { IsCrossingWithin result }
{
    if c.det < 0 {
        Crossing {
            det: -c.det,
            t: -c.t,
            p: -c.p,
            q: -c.q,
        }
    } else {
        c
    }
}

/// The crossing lies in the triangle, its edges included, and not behind the ray's origin.
#[tactic(auto, unfolding(crate::specs::Depths::is_crossed))]
fn is_crossed(c: &Crossing) -> bool
    requires { IsCrossingWithin c.now }
    ensures { result ≡ is_crossed c.now }
{
    if c.det <= 0 || c.t < 0 || c.p < 0 || c.q < 0 {
        return false;
    }
    c.p + c.q <= c.det
}

#[tactic(auto, unfolding(crate::specs::Depths::crossing_depth))]
fn crossing_depth(c: &Crossing) -> Option<u64>
    requires { IsCrossingWithin c.now }
    ensures { result ≡ crossing_depth c.now }
{
    if !is_crossed(c) {
        return None;
    }
    let depth = 65536 * c.t.unsigned_abs() / c.det.unsigned_abs();
    if depth <= FARTHEST as u128 {
        Some(depth as u64)
    } else {
        None
    }
}

/// 65536 times the way from the centre to the ray's point at the depth number `s`.
fn from_centre(ray: &Ray, centre: Vec3, s: u64) -> Vec3
    requires ray { IsRayWithin ray.now }
    requires centre { IsPoint centre }
    requires near { s ≤ 2 ^ 32 + 1 }
    ensures value { result ≡ from_centre ray.now centre s }
    ensures size { reach result ≤ 2 ^ 58 }
{
    add(times(sub(ray.o, centre), 65536), times(ray.d, s as i64))
}

/// The square of its length.
fn distance_at(ray: &Ray, centre: Vec3, s: u64) -> i128
    requires ray { IsRayWithin ray.now }
    requires centre { IsPoint centre }
    requires near { s ≤ 2 ^ 32 + 1 }
    ensures { result ≡ distance_at ray.now centre s }
{
    let way = from_centre(ray, centre, s);
    dot(way, way)
}

/// The ray's point at `s` lies in the ball, its surface included.
fn is_in_ball(ray: &Ray, centre: Vec3, radius: i64, s: u64) -> bool
    requires ray { IsRayWithin ray.now }
    requires sphere { IsSphereWithin centre radius }
    requires near { s ≤ farthest }
    ensures { result ≡ is_in_ball ray.now centre radius s }
{
    let reach = 65536 * radius as i128;
    distance_at(ray, centre, s) <= reach * reach
}

/// From `s` on the ray's points lie in the ball or come no nearer to it: so the first of these numbers is where the ray enters
/// the ball, or else it never does.
fn is_settled(ray: &Ray, centre: Vec3, radius: i64, s: u64) -> bool
    requires ray { IsRayWithin ray.now }
    requires sphere { IsSphereWithin centre radius }
    requires near { s ≤ farthest }
    ensures { result ≡ is_settled ray.now centre radius s }
{
    is_in_ball(ray, centre, radius, s)
        || distance_at(ray, centre, s) <= distance_at(ray, centre, s + 1)
}

fn sphere_depth(ray: &Ray, centre: Vec3, radius: i64) -> Option<u64>
    requires ray { IsRayWithin ray.now }
    requires sphere { IsSphereWithin centre radius }
    ensures { result ≡ sphere_depth ray.now centre radius }
{
    let mut low = 0;
    let mut high = FARTHEST;
    while low < high {
        let middle = (low + high) / 2;
        if is_settled(ray, centre, radius, middle) {
            high = middle;
        } else {
            low = middle + 1;
        }
    }
    if is_in_ball(ray, centre, radius, low) {
        Some(low)
    } else {
        None
    }
}

/// The depth number of the ray's hit with the shape, if it is hit.
pub fn depth(ray: &Ray, shape: &Shape) -> Option<u64>
    requires ray { IsRayWithin ray.now }
    requires shape { IsShapeWithin shape.now }
    ensures { result ≡ depth ray.now shape.now }
{
    match *shape {
        Shape::Triangle(a, b, c) => crossing_depth(&turned(crossing_of(ray, a, b, c))),
        Shape::Sphere(centre, radius) => sphere_depth(ray, centre, radius),
    }
}
