//! Exact arithmetic on whole numbers for the picture, in units of 1/65536: vectors, and the plain records of a scene.
#![tactic(auto)]

mod directions;
mod placings;
mod roots;
mod scene;
mod transforms;
mod vectors;

pub use directions::unit;
pub use placings::Placing;
pub use roots::isqrt;
pub use scene::{
    CameraRow, FARTHEST, LightList, LightRow, Lighting, NO_ID, Place, Primitive, PrimitiveList,
    Scene, Shape,
};
pub use transforms::{Mat34, placed, transform, transform_direction, transform_radius};
pub use vectors::{Ray, Vec3, add, cross, dot, neg, reach, scaled_down, sub, times};
