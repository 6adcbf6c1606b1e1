ghost use Rattle.std.specs.Prelude.{◌≡◌, ◌*◌, ◌^◌, ◌<◌, ◌≤◌, ◌≤ℤ◌, pos, slice_index_or, unsigned_abs};
ghost use Rattle.std.specs.Int.{int_div_euclid};
ghost use Rattle.std.specs.Option.{SomeIff};
ghost use Rattle.fx_math.specs.Mat34.{axis_length, column, linear, placed, row, scaled_radius};
ghost use Rattle.fx_math.specs.Vec3.{reach};

use crate::roots::isqrt;
use crate::vectors::{Vec3, add, dot, reach, wide_product};

/// An affine transform: four columns of three numbers in 1/65536, one after the other. The first three are where the
/// axes go, the last one is where the origin goes (ANARI 1.0 Specification, Instance).
#[derive(Clone, Copy, Debug, PartialEq, Eq)]
pub struct Mat34 {
    pub c: [i32; 12],
}

impl Mat34 {
    /// What takes everything to itself.
    pub const IDENTITY: Self = Mat34 {
        c: [65536, 0, 0, 0, 65536, 0, 0, 0, 65536, 0, 0, 0],
    };
}

/// Where a point goes, each component rounded down before the origin is added, or None where a component leaves
/// -2^28 to 2^28. Components are within 2^31.
pub fn transform(m: &Mat34, v: Vec3) -> Option<Vec3>
    requires { reach v ≤ 2 ^ 31 }
    ensures { SomeIff result (reach (placed m.now v) ≤ 2 ^ 28) (placed m.now v) }
{
    let image = placed(m, v);
    if reach(image) <= 1 << 28 {
        Some(image)
    } else {
        None
    }
}

/// Where a point goes, as `transform`, with no limit. Components are within 2^31.
pub fn placed(m: &Mat34, v: Vec3) -> Vec3
    requires { reach v ≤ 2 ^ 31 }
    ensures value { result ≡ placed m.now v }
    ensures size { reach result ≤ 2 ^ 48 }
{
    add(transform_direction(m, v), column(m, 3))
}

/// Where a direction goes, each component rounded down. Components are within 2^31.
pub fn transform_direction(m: &Mat34, v: Vec3) -> Vec3
    requires { reach v ≤ 2 ^ 31 }
    ensures value { result ≡ linear m.now v }
    ensures size { reach result ≤ 3 * 2 ^ 46 }
{
    Vec3 {
        x: units(dot(row(m, 0), v)),
        y: units(dot(row(m, 1), v)),
        z: units(dot(row(m, 2), v)),
    }
}

/// What a radius of at most 2^31 becomes: itself times the length of the first column, rounded down, or None where
/// that is above 2^28.
pub fn transform_radius(m: &Mat34, radius: i64) -> Option<i64>
    requires low { pos 0 ≤ℤ radius }
    requires high { radius ≤ℤ pos (2 ^ 31) }
    ensures { SomeIff result (scaled_radius m.now radius ≤ℤ pos (2 ^ 28)) (scaled_radius m.now radius) }
{
    let scaled = scaled_radius(m, radius);
    if scaled <= 1 << 28 {
        Some(scaled)
    } else {
        None
    }
}

/// A radius of at most 2^31 times the length of the first column, rounded down.
fn scaled_radius(m: &Mat34, radius: i64) -> i64
    requires low { pos 0 ≤ℤ radius }
    requires high { radius ≤ℤ pos (2 ^ 31) }
    ensures { result ≡ scaled_radius m.now radius }
{
    units(wide_product(radius, axis_length(m)))
}

/// The length of the first column, rounded down.
pub(crate) fn axis_length(m: &Mat34) -> i64
    ensures value { result ≡ pos (axis_length m.now) }
    ensures size { unsigned_abs result < 2 ^ 32 }
{
    let axis = column(m, 0);
    isqrt(dot(axis, axis) as u128) as i64
}

/// What a product of numbers in 1/65536 counts in 1/65536, rounded down.
pub(crate) fn units(n: i128) -> i64
    requires { unsigned_abs n ≤ 3 * 2 ^ 62 }
    ensures { result ≡ int_div_euclid n (pos 65536) }
{
    (n >> 16) as i64
}

/// Column `j` of the matrix.
fn column(m: &Mat34, j: usize) -> Vec3
    requires { j < 4 }
    ensures value { result ≡ column m.now j }
    ensures size { reach result ≤ 2 ^ 31 }
{
    Vec3 {
        x: entry(m, 3 * j),
        y: entry(m, 3 * j + 1),
        z: entry(m, 3 * j + 2),
    }
}

/// Row `i` of the first three columns.
fn row(m: &Mat34, i: usize) -> Vec3
    requires { i < 3 }
    ensures value { result ≡ row m.now i }
    ensures size { reach result ≤ 2 ^ 31 }
{
    Vec3 {
        x: entry(m, i),
        y: entry(m, 3 + i),
        z: entry(m, 6 + i),
    }
}

/// Number `i` of the matrix, column after column.
fn entry(m: &Mat34, i: usize) -> i64
    requires { i < 12 }
    ensures value { result ≡ slice_index_or m.now.c i (pos 0) }
    ensures size { unsigned_abs result ≤ 2 ^ 31 }
{
    m.c[i] as i64
}
