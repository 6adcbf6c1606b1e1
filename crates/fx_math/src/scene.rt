ghost use Rattle.std.specs.Prelude.{◌≡◌, ◌<◌, length, slice_get};

use crate::vectors::Vec3;
use std::marker::Model;

/// Where a triangle or a sphere stands in its scene. Places are compared by their three numbers in order; of hits at one
/// depth the one of the lower place counts.
#[derive(Clone, Copy, Debug, PartialEq, Eq, PartialOrd, Ord)]
pub struct Place {
    /// 0 for the world's own surfaces, i + 1 for element i of the world's instances.
    pub inst: u32,
    /// The index in its array of surfaces.
    pub surf: u32,
    /// The number of the triangle or sphere in its geometry.
    pub prim: u32,
}

/// What a ray can hit, in world space and in units of 1/65536.
#[derive(Clone, Copy, Debug, PartialEq, Eq)]
pub enum Shape {
    /// Three vertices, within 2^28.
    Triangle(Vec3, Vec3, Vec3),
    /// A centre within 2^28 and a radius of 0 to 2^28.
    Sphere(Vec3, i64),
}

/// A camera: its kind, and each number as it was committed or by default (ANARI 1.0 Specification, Camera). Numbers
/// count 1/65536. The position is within 2^28; the direction, and its vector product with `up`, are not zero.
#[derive(Clone, Copy, Debug, PartialEq, Eq)]
pub enum CameraRow {
    Orthographic {
        position: Vec3,
        direction: Vec3,
        up: Vec3,
        /// Width by height of the image, 1 to 2^20.
        aspect: i32,
        /// The height of the image in the world, 1 to 2^26.
        height: i32,
    },
    Perspective {
        position: Vec3,
        direction: Vec3,
        up: Vec3,
        /// Width by height of the image, 1 to 2^20.
        aspect: i32,
        /// The tangent of half the field of view from bottom to top, 1 to 2^20.
        tan_half_fovy: i32,
    },
}

/// A light in world space (ANARI 1.0 Specification, Light). Numbers count 1/65536; colours, irradiance and intensity are
/// not negative.
#[derive(Clone, Copy, Debug, PartialEq, Eq)]
pub enum LightRow {
    /// Light that goes everywhere along `direction`, which is within 2^48.
    Directional {
        direction: Vec3,
        color: [i32; 3],
        irradiance: i32,
    },
    /// Light from `position`, which is within 2^28, to all sides.
    Point {
        position: Vec3,
        color: [i32; 3],
        intensity: i32,
    },
}

/// The lights of a scene, in the order of the walk through its objects.
#[derive(Debug, Drop)]
pub struct LightList {
    lights: Vec<LightRow>,
}

impl Model for LightList {
    ghost use Rattle.std.specs.Prelude.{List};
    ghost use Rattle.fx_math.specs.declared.scene.LightRow.{LightRow};

    ghost Value = { List LightRow };

    ghost view = { λ l. l.lights.items };
}

impl LightList {
    /// The list of `lights`, in their order.
    pub fn new(lights: Vec<LightRow>) -> Self
        ensures { result ≡ lights.items }
    {
        LightList { lights }
    }

    /// The number of lights.
    pub fn len(&self) -> u64
        ensures { result ≡ length self.now }
    {
        self.lights.len() as u64
    }

    /// Light `i`, counted from 0.
    pub fn get(&self, i: u64) -> &LightRow
        requires { i < length self.now }
        ensures { slice_get self.now i ≡ Some result.now }
    {
        &self.lights[i as usize]
    }

    /// The lights, given back as they were taken.
    pub fn into_vec(self) -> Vec<LightRow>
        ensures { result.items ≡ self }
    {
        self.lights
    }
}

/// What lights a scene, and what stands behind it (ANARI 1.0 Specification, Renderer): colours and radiances in 1/65536,
/// none of them negative.
#[derive(Debug, Drop)]
pub struct Lighting {
    pub lights: LightList,
    pub background: [i32; 3],
    pub ambient_color: [i32; 3],
    pub ambient_radiance: i32,
}

/// An id where there is none.
pub const NO_ID: u32 = 0xFFFF_FFFF;

/// The greatest depth number: a ray ends at 2^32 times its direction, in units of 1/65536 of it.
pub const FARTHEST: u64 = 1 << 32;

/// A triangle or a sphere of a scene, and what a pixel shows where it is hit (ANARI 1.0 Specification, Surface).
#[derive(Clone, Copy, Debug, PartialEq, Eq)]
pub struct Primitive {
    pub place: Place,
    pub shape: Shape,
    /// Red, green and blue of its material, each 65536 for one, and none negative.
    pub color: [i32; 3],
    /// 0 for what lets all light through, to 65536 for what lets none.
    pub opacity: i32,
    /// The `id` of its surface, or 0xFFFFFFFF where that has none.
    pub object_id: u32,
    /// The `id` of its instance, or 0xFFFFFFFF where that has none, and at the world's own surfaces.
    pub instance_id: u32,
}

/// The primitives of a scene, in any order.
#[derive(Debug, Drop)]
pub struct PrimitiveList {
    primitives: Vec<Primitive>,
}

impl Model for PrimitiveList {
    ghost use Rattle.std.specs.Prelude.{List};
    ghost use Rattle.fx_math.specs.declared.scene.Primitive.{Primitive};

    ghost Value = { List Primitive };

    ghost view = { λ l. l.primitives.items };
}

impl PrimitiveList {
    pub fn new(primitives: Vec<Primitive>) -> Self
        ensures { result ≡ primitives.items }
    {
        PrimitiveList { primitives }
    }

    pub fn as_slice(&self) -> &[Primitive]
        ensures { result.now ≡ self.now }
    {
        self.primitives.as_slice()
    }

    /// The same primitives, without the list's type.
    pub fn into_vec(self) -> Vec<Primitive>
        ensures { result.items ≡ self }
    {
        self.primitives
    }
}

/// All that a picture is made from.
#[derive(Debug, Drop)]
pub struct Scene {
    pub primitives: PrimitiveList,
    pub camera: CameraRow,
    pub lighting: Lighting,
    /// Pixels, 1 to 4096 each way.
    pub width: u32,
    pub height: u32,
}
