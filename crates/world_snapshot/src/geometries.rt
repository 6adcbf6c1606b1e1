//! The triangles and spheres of a geometry whose arrays are captured.
ghost use Rattle.std.specs.Prelude.{◌≡◌, ◌<◌, ◌≤◌, ◌^◌, [], Some, IfOk, IfSome, pos, slice_index_or};
ghost use Rattle.std.specs.Option.{option_map_or};
ghost use Rattle.fx_math.specs.Vec3.{reach};
ghost use Rattle.fx_math.specs.declared.transforms.Mat34.{Mat34};
ghost use Rattle.kind_tables.specs.SceneObjects.{indices_in, object_at};
ghost use Rattle.kind_tables.specs.Shapes.{radius_by, shapes_of, vertex};
ghost use Rattle.scene_read.specs.Reading.{IsCounted};
ghost use Rattle.scene_read.specs.Shaped.{corners_at, count_in, scalars_of_array, sphere_at, triangle_at, triangle_count, vectors_in};
ghost use Rattle.world_snapshot.specs.Captured.{shape_at, shape_count, shapes_in};

use crate::arrays::{HeldArray, captured_array, elements};
use dev_types::{Handle, NoMemory};
use fx_math::{Placing, Shape};
use kind_tables::Kind;
use scene_read::geometries::{count_in, sphere_at, triangle_at, triangle_count};
use scene_read::readers::scalar;
use scene_read::{Objects, Subject};
use std::alloc::Global;

/// A geometry with its arrays (ANARI 1.0 Specification, Geometry: triangle, sphere).
#[derive(Drop)]
pub(crate) enum Geometry {
    Triangles {
        positions: Option<HeldArray>,
        indices: Option<HeldArray>,
    },
    Spheres {
        positions: Option<HeldArray>,
        radii: Option<HeldArray>,
        /// The radius of all where they have none of their own.
        radius: i32,
    },
}

impl Geometry {
    /// How many shapes there are.
    pub(crate) fn count(&self) -> u64
        ensures value { result ≡ shape_count self.now }
        ensures size { result ≤ 2 ^ 28 }
    {
        match self {
            Geometry::Triangles { positions, indices } => {
                triangle_count(&elements(indices), &elements(positions))
            }
            Geometry::Spheres { positions, .. } => count_in(&elements(positions)),
        }
    }

    /// Shape number `k` under a transform.
    pub(crate) fn shape(&self, m: &Placing, k: u64) -> Shape
        requires { k < shape_count self.now }
        ensures { result ≡ shape_at m.now self.now k }
    {
        match self {
            Geometry::Triangles { positions, indices } => {
                triangle_at(m, &elements(positions), &elements(indices), k)
            }
            Geometry::Spheres {
                positions,
                radii,
                radius,
            } => sphere_at(m, &elements(positions), &elements(radii), *radius, k),
        }
    }
}

/// Captures the geometry that an object is, if it is one. The only error is want of memory.
pub(crate) fn captured_geometry<O: Objects>(
    alloc: Global,
    state: &O,
    h: Handle,
) -> Result<Option<Geometry>, NoMemory>
    ensures { IfOk result (λ g. (m : Mat34) → shapes_in m g ≡ option_map_or (λ geometry. shapes_of (O.objects state.now) geometry m) (object_at (O.objects state.now) h) []) }
{
    let Some(kind) = state.kind(h) else {
        return Ok(None);
    };
    match kind {
        Kind::GeometryTriangle => Ok(Some(Geometry::Triangles {
            positions: captured_array(alloc, state, h, "vertex.position")?,
            indices: captured_array(alloc, state, h, "primitive.index")?,
        })),
        Kind::GeometrySphere => Ok(Some(Geometry::Spheres {
            positions: captured_array(alloc, state, h, "vertex.position")?,
            radii: captured_array(alloc, state, h, "vertex.radius")?,
            radius: scalar(state, &Subject::visited(h), "radius"),
        })),
        _ => Ok(None),
    }
}
