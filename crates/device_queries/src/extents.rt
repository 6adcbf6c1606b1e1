//! The box of some shapes, found point by point: nothing is kept but the box.
ghost use Rattle.std.specs.Prelude.{◌≡◌, ◌-ℤ◌, ◌+ℤ◌};
ghost use Rattle.device_queries.specs.Extents.{clamped, corner_of, extended, nothing, numbers_of, with_shape};

use fx_math::{Shape, Vec3};

/// A point whose coordinates are kept within 32 bits, in units of 1/65536.
#[derive(Clone, Copy)]
pub struct Corner {
    pub x: i32,
    pub y: i32,
    pub z: i32,
}

/// The least and the greatest coordinates of some points.
#[derive(Clone, Copy)]
pub struct Extent {
    pub low: Corner,
    pub high: Corner,
}

/// The extent of no point: any point is below its least coordinates, and above its greatest.
pub fn nothing() -> Extent
    ensures { result ≡ nothing }
{
    Extent {
        low: Corner {
            x: 2147483647,
            y: 2147483647,
            z: 2147483647,
        },
        high: Corner {
            x: -2147483648,
            y: -2147483648,
            z: -2147483648,
        },
    }
}

/// A coordinate within 32 bits.
fn clamped(z: i64) -> i32
    ensures { result ≡ clamped z }
{
    z.clamp(-2147483648, 2147483647) as i32
}

/// A difference within 32 bits.
fn clamped_difference(a: i64, b: i64) -> i32
    ensures { result ≡ clamped (a -ℤ b) }
{
    clamped(a.saturating_sub(b))
}

/// A sum within 32 bits.
fn clamped_sum(a: i64, b: i64) -> i32
    ensures { result ≡ clamped (a +ℤ b) }
{
    clamped(a.saturating_add(b))
}

/// A point within 32 bits.
fn corner_of(p: Vec3) -> Corner
    ensures { result ≡ corner_of p }
{
    Corner {
        x: clamped(p.x),
        y: clamped(p.y),
        z: clamped(p.z),
    }
}

/// The corner of a sphere's box where its coordinates are least.
fn low_corner(centre: Vec3, radius: i64) -> Corner
    ensures { result ≡ corner_of (record {
      x = centre.x -ℤ radius;
      y = centre.y -ℤ radius;
      z = centre.z -ℤ radius;
    }) }
{
    Corner {
        x: clamped_difference(centre.x, radius),
        y: clamped_difference(centre.y, radius),
        z: clamped_difference(centre.z, radius),
    }
}

/// The corner of a sphere's box where its coordinates are greatest.
fn high_corner(centre: Vec3, radius: i64) -> Corner
    ensures { result ≡ corner_of (record {
      x = centre.x +ℤ radius;
      y = centre.y +ℤ radius;
      z = centre.z +ℤ radius;
    }) }
{
    Corner {
        x: clamped_sum(centre.x, radius),
        y: clamped_sum(centre.y, radius),
        z: clamped_sum(centre.z, radius),
    }
}

/// The extent with one more corner.
fn extended(extent: Extent, corner: Corner) -> Extent
    ensures { result ≡ extended extent corner }
{
    Extent {
        low: Corner {
            x: extent.low.x.min(corner.x),
            y: extent.low.y.min(corner.y),
            z: extent.low.z.min(corner.z),
        },
        high: Corner {
            x: extent.high.x.max(corner.x),
            y: extent.high.y.max(corner.y),
            z: extent.high.z.max(corner.z),
        },
    }
}

/// The extent with the box of one more shape.
pub fn with_shape(extent: Extent, shape: &Shape) -> Extent
    ensures { result ≡ with_shape extent shape.now }
{
    match *shape {
        Shape::Triangle(a, b, c) => {
            let wider = extended(extended(extent, corner_of(a)), corner_of(b));
            extended(wider, corner_of(c))
        }
        Shape::Sphere(centre, radius) => {
            let wider = extended(extent, low_corner(centre, radius));
            extended(wider, high_corner(centre, radius))
        }
    }
}

/// The extent as a box: three lower, then three upper numbers.
pub fn numbers(extent: Extent) -> [i32; 6]
    ensures { result ≡ numbers_of extent }
{
    [
        extent.low.x,
        extent.low.y,
        extent.low.z,
        extent.high.x,
        extent.high.y,
        extent.high.z,
    ]
}
