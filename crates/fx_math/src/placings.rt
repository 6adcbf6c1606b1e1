//! Where an instance puts points and balls.
ghost use Rattle.std.specs.Prelude.{◌≡◌, ◌≤◌, ◌^◌};
ghost use Rattle.fx_math.specs.Mat34.{placed, scaled_radius};
ghost use Rattle.fx_math.specs.Vec3.{reach};

use crate::transforms::{Mat34, axis_length, placed, units};
use crate::vectors::{Vec3, wide_product};
use std::marker::Model;

/// A transform with the length of its first axis, by which it scales radii (ANARI 1.0 Specification, Instance).
///
/// Contracts see the transform.
#[derive(Debug, Drop)]
pub struct Placing {
    matrix: Mat34,
    scale: i64,
}

impl Model for Placing {
    ghost use Rattle.fx_math.specs.declared.transforms.Mat34.{Mat34};
    ghost use Rattle.fx_math.specs.Placings.{IsScale};

    ghost Value = { Mat34 };

    ghost view = { λ p. p.matrix };

    ghost invariant = { λ p. IsScale p.matrix p.scale };
}

impl Placing {
    /// The transform, whose first axis is measured once.
    pub fn new(matrix: &Mat34) -> Placing
        ensures { result ≡ matrix.now }
    {
        Placing {
            matrix: *matrix,
            scale: axis_length(matrix),
        }
    }

    /// Where a point goes, each component rounded down before the origin is added, with no limit. Its components are
    /// within 2^31.
    pub fn point(&self, v: Vec3) -> Vec3
        requires { reach v ≤ 2 ^ 31 }
        ensures { result ≡ placed self.now v }
    {
        placed(&self.matrix, v)
    }

    /// What a radius becomes: itself times the length of the first axis, rounded down, with no limit.
    pub fn radius(&self, radius: i32) -> i64
        ensures { result ≡ scaled_radius self.now radius }
    {
        units(wide_product(i64::from(radius), self.scale))
    }
}
