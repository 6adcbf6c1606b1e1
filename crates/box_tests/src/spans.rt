ghost use Rattle.std.specs.Prelude.{◌≡◌, ◌*◌, ◌/◌, ◌^◌, ◌<◌, ℕ, ℤ, pos, neg_ℤ, min};
ghost use Rattle.std.specs.Option.{IfSome};
ghost use Rattle.box_tests.specs.Boxes.{AreBounds, IsFrom};
ghost use Rattle.box_tests.specs.Slabs.{AreSlabBounds, IsCourse, IsInverse, IsWayUp};

use crate::boxes::Box3;
use fx_math::{FARTHEST, Ray};
use std::marker::Model;

/// Bounds of the depth numbers of the ray's hits inside the box: the ray's points `o + t * d` in it, for fractions `t` of at least 0
/// with the depth number `floor(65536 * t)` of at most 2^32. None only where there is no such hit. The first bound is rounded
/// down and the second one up.
pub fn span(b: &Box3, ray: &Ray) -> Option<(u64, u64)>
    ensures hits { AreBounds result b.now ray.now }
    ensures size { IfSome result (λ s. IsFrom s.0 (2 ^ 32) s.1) }
{
    PreparedRay::new(ray).span(b)
}

/// Bounds of 2^48 / d for a positive number d.
#[derive(Clone, Copy, Debug)]
struct Inverse {
    below: u64,
    above: u64,
}

impl Inverse {
    fn of(d: u64) -> Self
        requires { 0 < d }
        ensures { IsInverse result d }
    {
        let below = 0x1_0000_0000_0000 / d;
        Inverse {
            below,
            above: below + 1,
        }
    }
}

/// The way of a ray on one axis.
#[derive(Clone, Copy, Debug)]
enum Course {
    Still,
    Up(Inverse),
    Down(Inverse),
}

/// A ray with what all its ways through boxes have in common.
///
/// Contracts see the ray.
#[derive(Debug, Drop)]
pub struct PreparedRay {
    ray: Ray,
    x: Course,
    y: Course,
    z: Course,
}

impl Model for PreparedRay {
    ghost use Rattle.fx_math.specs.declared.vectors.Ray.{Ray};
    ghost use Rattle.box_tests.specs.Slabs.{IsPrepared};

    ghost Value = { Ray };

    ghost view = { λ p. p.ray };

    ghost invariant = { λ p. IsPrepared p.ray p.x p.y p.z };
}

impl PreparedRay {
    /// Prepares a ray for many boxes.
    pub fn new(ray: &Ray) -> Self
        ensures { result ≡ ray.now }
    {
        PreparedRay {
            ray: *ray,
            x: course_of(ray.d.x),
            y: course_of(ray.d.y),
            z: course_of(ray.d.z),
        }
    }

    /// The span of the ray in the box, as the function `span` has it.
    pub fn span(&self, b: &Box3) -> Option<(u64, u64)>
        ensures hits { AreBounds result b.now self.now }
        ensures size { IfSome result (λ s. IsFrom s.0 (2 ^ 32) s.1) }
    {
        let x = through(
            &self.x,
            &Slab {
                low: b.lo.x,
                high: b.hi.x,
                origin: self.ray.o.x,
            },
        )?;
        let y = through(
            &self.y,
            &Slab {
                low: b.lo.y,
                high: b.hi.y,
                origin: self.ray.o.y,
            },
        )?;
        let z = through(
            &self.z,
            &Slab {
                low: b.lo.z,
                high: b.hi.z,
                origin: self.ray.o.z,
            },
        )?;
        let entry = x.entry.max(y.entry).max(z.entry);
        let exit = x.exit.min(y.exit).min(z.exit).min(FARTHEST);
        if entry <= exit {
            Some((entry, exit))
        } else {
            None
        }
    }
}

/// The course of a ray whose direction has the component `d`.
fn course_of(d: i64) -> Course
    ensures { IsCourse result d }
{
    if d == 0 {
        return Course::Still;
    }
    let inverse = Inverse::of(d.unsigned_abs());
    if d > 0 {
        Course::Up(inverse)
    } else {
        Course::Down(inverse)
    }
}

/// The slab between two planes across one axis, and where a ray starts on that axis.
#[derive(Clone, Copy, Debug)]
struct Slab {
    low: i64,
    high: i64,
    origin: i64,
}

/// Depth numbers from `entry` to `exit`.
#[derive(Clone, Copy, Debug)]
struct Bounds {
    entry: u64,
    exit: u64,
}

/// Bounds of the depth numbers, up to the farthest, at which the ray is in the slab; none only where there is no such number.
fn through(course: &Course, slab: &Slab) -> Option<Bounds>
    ensures { (d : ℤ) → IsCourse course.now d → AreSlabBounds result slab.now d }
{
    match course {
        Course::Still => still(slab),
        Course::Up(inverse) => upward(inverse, slab),
        Course::Down(inverse) => downward(inverse, slab),
    }
}

/// A ray that stays where it is on the axis.
fn still(slab: &Slab) -> Option<Bounds>
    ensures { AreSlabBounds result slab.now (pos 0) }
{
    if slab.origin < slab.low {
        return None;
    }
    if slab.high < slab.origin {
        return None;
    }
    Some(Bounds {
        entry: 0,
        exit: FARTHEST,
    })
}

/// A ray that goes to higher numbers.
fn upward(inverse: &Inverse, slab: &Slab) -> Option<Bounds>
    ensures { (d : ℕ) → IsInverse inverse.now d → AreSlabBounds result slab.now (pos d) }
{
    let Some(far) = way_up(slab.origin, slab.high) else {
        return None;
    };
    let near = way_up(slab.origin, slab.low).unwrap_or(0);
    Some(Bounds {
        entry: scaled(near, inverse.below),
        exit: scaled(far, inverse.above),
    })
}

/// A ray that goes to lower numbers.
fn downward(inverse: &Inverse, slab: &Slab) -> Option<Bounds>
    ensures { (d : ℕ) → IsInverse inverse.now d → AreSlabBounds result slab.now (neg_ℤ (pos d)) }
{
    let Some(far) = way_up(slab.low, slab.origin) else {
        return None;
    };
    let near = way_up(slab.high, slab.origin).unwrap_or(0);
    Some(Bounds {
        entry: scaled(near, inverse.below),
        exit: scaled(far, inverse.above),
    })
}

/// How far it is from `from` up to `to`; none where that is lower.
fn way_up(from: i64, to: i64) -> Option<u64>
    ensures { IsWayUp result from to }
{
    if to < from {
        None
    } else {
        Some((to as i128 - from as i128) as u64)
    }
}

/// The depth number of a way by the inverse of the direction, or 2^33 where it is greater.
fn scaled(way: u64, inverse: u64) -> u64
    ensures { result ≡ min (way * inverse / 2 ^ 32) (2 ^ 33) }
{
    ((way as u128 * inverse as u128) >> 32).min(0x2_0000_0000) as u64
}
