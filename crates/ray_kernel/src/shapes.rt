ghost use Rattle.std.specs.Prelude.{ℕ, Some, ◌≡◌, ◌^◌, ◌≤◌};
ghost use Rattle.fx_math.specs.declared.vectors.Ray.{Ray};
ghost use Rattle.box_tests.specs.Boxes.{IsHitInside};
ghost use Rattle.picture_model.specs.Depths.{depth};
ghost use Rattle.picture_model.specs.Limits.{IsBetween, IsPoint, IsShapeWithin};
ghost use Rattle.ray_kernel.specs.Shapes.{AreCornersIn, IsBallIn, IsHolding};

use box_tests::{Box3, join};
use fx_math::{Shape, Vec3};

/// A box that holds the shape, and inside of which each ray's hit with it lies. Points are within 2^28, and a radius is from 0 to 2^28.
pub fn shape_box(shape: &Shape) -> Box3
    requires within { IsShapeWithin shape.now }
    ensures holds { IsHolding result shape.now }
    ensures hits { (ray : Ray) (s : ℕ) → depth ray shape.now ≡ Some s → IsHitInside result ray s }
{
    match *shape {
        Shape::Triangle(a, b, c) => corner_box(a, b, c),
        Shape::Sphere(centre, radius) => ball_box(centre, radius),
    }
}

/// The least box that holds three points.
fn corner_box(a: Vec3, b: Vec3, c: Vec3) -> Box3
    ensures { AreCornersIn result a b c }
{
    join(
        &join(&Box3 { lo: a, hi: a }, &Box3 { lo: b, hi: b }),
        &Box3 { lo: c, hi: c },
    )
}

/// The least box that holds a ball.
fn ball_box(centre: Vec3, radius: i64) -> Box3
    requires centre { IsPoint centre }
    requires radius { IsBetween 0 (2 ^ 28) radius }
    ensures { IsBallIn result centre radius }
{
    Box3 {
        lo: Vec3 {
            x: centre.x - radius,
            y: centre.y - radius,
            z: centre.z - radius,
        },
        hi: Vec3 {
            x: centre.x + radius,
            y: centre.y + radius,
            z: centre.z + radius,
        },
    }
}
