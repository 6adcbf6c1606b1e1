ghost use Rattle.std.specs.Prelude.{ℤ, ◌≤ℤ◌};
ghost use Rattle.box_tests.specs.Boxes.{AreBelow, IsBoxIn};

use fx_math::Vec3;

/// The points from `lo` to `hi` on each axis, both included: none at all where `lo` is above `hi` on some axis.
#[derive(Clone, Copy, Debug, PartialEq, Eq)]
pub struct Box3 {
    pub lo: Vec3,
    pub hi: Vec3,
}

/// The least box that holds both boxes.
pub fn join(a: &Box3, b: &Box3) -> Box3
    ensures first { IsBoxIn a.now result }
    ensures second { IsBoxIn b.now result }
    ensures least { (c : Box3) → IsBoxIn a.now c → IsBoxIn b.now c → IsBoxIn result c }
{
    Box3 {
        lo: lowest(&a.lo, &b.lo),
        hi: highest(&a.hi, &b.hi),
    }
}

/// On each axis the lower number of the two.
fn lowest(a: &Vec3, b: &Vec3) -> Vec3
    ensures first { AreBelow result a.now }
    ensures second { AreBelow result b.now }
    ensures greatest { (c : Vec3) → AreBelow c a.now → AreBelow c b.now → AreBelow c result }
{
    Vec3 {
        x: lower(a.x, b.x),
        y: lower(a.y, b.y),
        z: lower(a.z, b.z),
    }
}

/// On each axis the higher number of the two.
fn highest(a: &Vec3, b: &Vec3) -> Vec3
    ensures first { AreBelow a.now result }
    ensures second { AreBelow b.now result }
    ensures least { (c : Vec3) → AreBelow a.now c → AreBelow b.now c → AreBelow result c }
{
    Vec3 {
        x: higher(a.x, b.x),
        y: higher(a.y, b.y),
        z: higher(a.z, b.z),
    }
}

fn lower(a: i64, b: i64) -> i64
    ensures first { result ≤ℤ a }
    ensures second { result ≤ℤ b }
    ensures greatest { (c : ℤ) → c ≤ℤ a → c ≤ℤ b → c ≤ℤ result }
{
    if a < b { a } else { b }
}

fn higher(a: i64, b: i64) -> i64
    ensures first { a ≤ℤ result }
    ensures second { b ≤ℤ result }
    ensures least { (c : ℤ) → a ≤ℤ c → b ≤ℤ c → result ≤ℤ c }
{
    if a < b { b } else { a }
}
