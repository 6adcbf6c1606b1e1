ghost use Rattle.std.specs.Prelude.{◌≡◌};
ghost use Rattle.picture_model.specs.Pictures.{plane};

use fx_math::{Place, Shape};

/// Where a ray meets a primitive. Of two hits the lower counts, by depth and then by place.
#[derive(Clone, Copy, Debug, PartialEq, Eq, PartialOrd, Ord)]
pub struct Hit {
    /// How often the ray's direction goes into the way to the hit, in 1/65536, rounded down: 0 to 2^32.
    pub depth: u64,
    pub place: Place,
}

/// What shading needs of a hit.
#[derive(Clone, Copy, Debug, PartialEq, Eq)]
pub struct HitRow {
    pub depth: u64,
    pub shape: Shape,
    pub color: [i32; 3],
    pub opacity: i32,
}

/// The light that a pixel has gathered from front to back.
#[derive(Clone, Copy, Debug, PartialEq, Eq)]
pub struct Blend {
    /// Red, green and blue so far, each 65536 for one.
    pub sum: [i128; 3],
    /// The share of what lies behind that still shows: 65536 for all of it, 0 for nothing.
    pub rest: u32,
}

/// The four pictures of one frame. A pixel has four bytes in each (ANARI 1.0 Specification, Frame: channels).
#[derive(Clone, Copy, Debug, PartialEq, Eq)]
pub enum Plane {
    /// Red, green, blue and alpha.
    Color,
    /// The number of the nearest primitive in its geometry. Ids have their lowest byte first.
    PrimitiveId,
    ObjectId,
    InstanceId,
}

impl Plane {
    /// The picture with this number among the four, from 0.
    pub fn numbered(number: u32) -> Plane
        ensures { result ≡ plane number }
    {
        match number {
            0 => Plane::Color,
            1 => Plane::PrimitiveId,
            2 => Plane::ObjectId,
            _ => Plane::InstanceId,
        }
    }
}

/// A rectangle of pixels: `w` columns from `x0` on, `h` rows from `y0` up.
#[derive(Clone, Copy, Debug, PartialEq, Eq)]
pub struct Rect {
    pub x0: u32,
    pub y0: u32,
    pub w: u32,
    pub h: u32,
}
