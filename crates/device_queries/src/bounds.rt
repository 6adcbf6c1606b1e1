//! The box of what a world shows, read shape by shape: no list of shapes is made.
ghost use Rattle.std.specs.Prelude.{◌≡◌, All, [], fold, map};
ghost use Rattle.std.specs.List.{range_with_len};
ghost use Rattle.std.specs.Option.{option_map_or};
ghost use Rattle.kind_tables.specs.SceneObjects.{object_at};
ghost use Rattle.kind_tables.specs.Scenes.{primitives_at, primitives_of, surface_primitives};
ghost use Rattle.kind_tables.specs.Shapes.{shapes_of};
ghost use Rattle.picture_model.specs.Limits.{IsPrimitiveWithin};
ghost use Rattle.scene_read.specs.Reading.{IsCounted};
ghost use Rattle.scene_read.specs.Shaped.{count_in, sphere_at, triangle_at, triangle_count};
ghost use Rattle.scene_read.specs.Starts.{all_seen, seen, visited_object};
ghost use Rattle.seq_model.specs.Properties.{bounds_of};
ghost use Rattle.device_queries.specs.Extents.{extent_of, with_primitive, with_shape};

use crate::extents::{Extent, nothing, numbers, with_shape};
use byte_view::Strided;
use dev_types::Handle;
use fx_math::{Mat34, Placing};
use kind_tables::Kind;
use scene_read::geometries::{count_in, sphere_at, triangle_at, triangle_count};
use scene_read::readers::{Subject, array, scalar};
use scene_read::scenes::live;
use scene_read::{Objects, Spot, Visit, Visits};

/// The extent with the triangles of a geometry under a transform.
fn with_triangles(
    mut extent: Extent,
    m: &Placing,
    positions: &Option<Strided<'_>>,
    indices: &Option<Strided<'_>>,
) -> Extent
    requires positions { IsCounted positions.now }
    requires indices { IsCounted indices.now }
    ensures { result ≡ fold with_shape extent (map (triangle_at m.now positions.now indices.now)
        (range_with_len 0 (triangle_count indices.now positions.now))) }
{
    for k in 0..triangle_count(indices, positions) {
        extent = with_shape(extent, &triangle_at(m, positions, indices, k));
    }
    extent
}

/// The extent with the spheres of a geometry under a transform.
fn with_spheres(
    mut extent: Extent,
    m: &Placing,
    positions: &Option<Strided<'_>>,
    radii: &Option<Strided<'_>>,
    common: i32,
) -> Extent
    requires { IsCounted positions.now }
    ensures { result ≡ fold with_shape extent (map (sphere_at m.now positions.now radii.now common)
        (range_with_len 0 (count_in positions.now))) }
{
    for k in 0..count_in(positions) {
        extent = with_shape(extent, &sphere_at(m, positions, radii, common, k));
    }
    extent
}

/// The extent with the shapes of a geometry under a transform; the same where there is no such
/// object.
fn with_geometry<O: Objects>(state: &O, h: Handle, m: &Mat34, extent: Extent) -> Extent
    ensures { result ≡ fold with_shape extent (option_map_or
        (λ geometry. shapes_of (O.objects state.now) geometry m.now) (object_at (O.objects state.now) h) []) }
{
    let Some(kind) = state.kind(h) else {
        return extent;
    };
    let positions = array(state, h, "vertex.position");
    let placing = Placing::new(m);
    match kind {
        Kind::GeometryTriangle => {
            let indices = array(state, h, "primitive.index");
            with_triangles(extent, &placing, &positions, &indices)
        }
        Kind::GeometrySphere => {
            let radii = array(state, h, "vertex.radius");
            let common = scalar(state, &Subject::visited(h), "radius");
            with_spheres(extent, &placing, &positions, &radii, common)
        }
        _ => extent,
    }
}

/// The extent with what a surface at a spot shows: nothing without a material or a geometry.
fn with_surface<O: Objects>(state: &O, spot: &Spot, surface: Handle, extent: Extent) -> Extent
    ensures { result ≡ fold with_primitive extent
        (surface_primitives (O.objects state.now) spot.now (visited_object (O.objects state.now) surface)) }
{
    let Some(_material) = live(state, surface, "material") else {
        return extent;
    };
    let Some(geometry) = live(state, surface, "geometry") else {
        return extent;
    };
    with_geometry(state, geometry, &spot.transform, extent)
}

/// The extent with what a visited object shows; only surfaces show anything.
fn with_visit<O: Objects>(state: &O, visit: &Visit, extent: Extent) -> Extent
    ensures { result ≡ fold with_primitive extent
        (primitives_at (O.objects state.now) (seen (O.objects state.now) visit.now)) }
{
    match state.kind(visit.handle) {
        Some(Kind::SurfaceDefault) => with_surface(state, &visit.spot, visit.handle, extent),
        _ => extent,
    }
}

/// The extent of all that is visited.
fn extent_of<O: Objects>(state: &O, visits: &[Visit]) -> Extent
    ensures { result ≡ extent_of (primitives_of (O.objects state.now) (all_seen (O.objects state.now) visits.now)) }
{
    let mut extent = nothing();
    for visit in visits {
        extent = with_visit(state, visit, extent);
    }
    extent
}

/// The box of all that is visited, three lower and then three upper numbers in units of 1/65536,
/// where it is within the limits of pictures (ANARI 1.0 Specification, World).
pub fn bounds<O: Objects>(state: &O, visits: &Visits) -> [i32; 6]
    ensures { All IsPrimitiveWithin (primitives_of (O.objects state.now) (all_seen (O.objects state.now) visits.now))
        → result ≡ bounds_of (primitives_of (O.objects state.now) (all_seen (O.objects state.now) visits.now)) }
{
    numbers(extent_of(state, visits.as_slice()))
}
