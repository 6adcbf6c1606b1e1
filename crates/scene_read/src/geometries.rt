//! The triangles and spheres of a geometry under a transform.
ghost use Rattle.std.specs.Prelude.{◌≡◌, ◌<◌, ◌≤◌, ◌^◌, [], Some, IfOk, IfSome, length, map, pos, slice_index_or};
ghost use Rattle.std.specs.List.{range_with_len};
ghost use Rattle.std.specs.Option.{option_map_or};
ghost use Rattle.fx_math.specs.Vec3.{reach};
ghost use Rattle.kind_tables.specs.SceneObjects.{indices_in, object_at};
ghost use Rattle.kind_tables.specs.Shapes.{radius_by, shapes_of, vertex};
ghost use Rattle.scene_read.specs.Reading.{IsCounted};
ghost use Rattle.scene_read.specs.Shaped.{corners_at, count_in, scalars_of_array, sphere_at, triangle_at, triangle_count, vectors_in};

use crate::objects::Objects;
use crate::readers::{Subject, array, scalar, scalar_in, vector_in};
use byte_view::Strided;
use dev_types::{Handle, Value};
use fx_math::{Mat34, Placing, Shape, Vec3};
use kind_tables::Kind;
use std::alloc::{AllocError, Global};

/// How many elements an array has.
pub fn count_in(content: &Option<Strided<'_>>) -> u64
    requires { IsCounted content.now }
    ensures value { result ≡ count_in content.now }
    ensures size { result ≤ 2 ^ 28 }
{
    match content {
        Some(elements) => elements.len(),
        None => 0,
    }
}

/// Element `i` as a vector, or the zero vector behind the last one.
fn vector_at(elements: &Strided<'_>, i: u64) -> Vec3
    ensures value { result ≡ vertex (vectors_in (Some elements.now)) i }
    ensures size { reach result ≤ 2 ^ 31 }
{
    if i < elements.len() {
        vector_in(Some(elements.get(i)))
    } else {
        vector_in(None)
    }
}

/// Vertex `i`, or the zero vector behind the last one.
pub(crate) fn vertex(positions: &Option<Strided<'_>>, i: u64) -> Vec3
    ensures value { result ≡ vertex (vectors_in positions.now) i }
    ensures size { reach result ≤ 2 ^ 31 }
{
    match positions {
        Some(elements) => vector_at(elements, i),
        None => vector_in(None),
    }
}

/// The vertex numbers that a value holds, if it is an index.
fn index_in(value: &Value) -> Option<[u64; 3]>
    ensures { option_map_or (λ numbers. numbers) result [] ≡ indices_in (Some value.now) }
{
    match value {
        Value::Uint32Vec3(numbers) => Some([
            u64::from(numbers[0]),
            u64::from(numbers[1]),
            u64::from(numbers[2]),
        ]),
        _ => None,
    }
}

/// The vertex numbers of triangle `k`: its element of the indices, or three after three; `None` where that element is no
/// index.
pub(crate) fn corners_at(indices: &Option<Strided<'_>>, k: u64) -> Option<[u64; 3]>
    requires within { IfSome indices.now (λ e. k < e.count) }
    requires size { k < 2 ^ 28 }
    ensures { option_map_or (λ numbers. numbers) result [] ≡ corners_at indices.now k }
{
    match indices {
        Some(elements) => index_in(&elements.get(k)),
        None => Some([3 * k, 3 * k + 1, 3 * k + 2]),
    }
}

/// How many triangles there are.
pub fn triangle_count(indices: &Option<Strided<'_>>, positions: &Option<Strided<'_>>) -> u64
    requires indices { IsCounted indices.now }
    requires positions { IsCounted positions.now }
    ensures value { result ≡ triangle_count indices.now positions.now }
    ensures size { result ≤ 2 ^ 28 }
{
    match indices {
        Some(elements) => elements.len(),
        None => count_in(positions) / 3,
    }
}

/// Number `i` of a triangle's vertex numbers.
fn number_at(numbers: &Option<[u64; 3]>, i: usize) -> u64
    requires { i < 3 }
    ensures { result ≡ slice_index_or (option_map_or (λ numbers. numbers) numbers.now []) i 0 }
{
    match numbers {
        Some(numbers) => numbers[i],
        None => 0,
    }
}

/// Triangle `k`.
pub fn triangle_at(
    m: &Placing,
    positions: &Option<Strided<'_>>,
    indices: &Option<Strided<'_>>,
    k: u64,
) -> Shape
    requires within { IfSome indices.now (λ e. k < e.count) }
    requires size { k < 2 ^ 28 }
    ensures { result ≡ triangle_at m.now positions.now indices.now k }
{
    let numbers = corners_at(indices, k);
    Shape::Triangle(
        m.point(vertex(positions, number_at(&numbers, 0))),
        m.point(vertex(positions, number_at(&numbers, 1))),
        m.point(vertex(positions, number_at(&numbers, 2))),
    )
}

/// The triangles of a geometry.
fn triangles(
    alloc: Global,
    m: &Placing,
    positions: &Option<Strided<'_>>,
    indices: &Option<Strided<'_>>,
) -> Result<Vec<Shape>, AllocError>
    requires positions { IsCounted positions.now }
    requires indices { IsCounted indices.now }
    ensures value { IfOk result (λ shapes. shapes.items ≡ map (triangle_at m.now positions.now indices.now) (range_with_len 0 (triangle_count indices.now positions.now))) }
    ensures size { IfOk result (λ shapes. length shapes.items ≤ 2 ^ 28) }
{
    let mut shapes = Vec::new(alloc);
    for k in 0..triangle_count(indices, positions) {
        shapes.push(triangle_at(m, positions, indices, k))?;
    }
    Ok(shapes)
}

/// Element `i` as a scalar, or zero behind the last one.
pub(crate) fn scalar_at(elements: &Strided<'_>, i: u64) -> i32
    ensures { result ≡ radius_by (scalars_of_array (Some elements.now)) (pos 0) i }
{
    if i < elements.len() {
        scalar_in(Some(elements.get(i)))
    } else {
        0
    }
}

/// The radius of sphere `k`: its own, or the one of all.
pub(crate) fn radius_at(radii: &Option<Strided<'_>>, common: i32, k: u64) -> i32
    ensures { result ≡ radius_by (scalars_of_array radii.now) common k }
{
    match radii {
        Some(elements) => scalar_at(elements, k),
        None => common,
    }
}

/// Sphere `k`.
pub fn sphere_at(
    m: &Placing,
    positions: &Option<Strided<'_>>,
    radii: &Option<Strided<'_>>,
    common: i32,
    k: u64,
) -> Shape
    ensures { result ≡ sphere_at m.now positions.now radii.now common k }
{
    let centre = m.point(vertex(positions, k));
    Shape::Sphere(centre, m.radius(radius_at(radii, common, k)))
}

/// The spheres of a geometry.
fn spheres(
    alloc: Global,
    m: &Placing,
    positions: &Option<Strided<'_>>,
    radii: &Option<Strided<'_>>,
    common: i32,
) -> Result<Vec<Shape>, AllocError>
    requires { IsCounted positions.now }
    ensures value { IfOk result (λ shapes. shapes.items ≡ map (sphere_at m.now positions.now radii.now common) (range_with_len 0 (count_in positions.now))) }
    ensures size { IfOk result (λ shapes. length shapes.items ≤ 2 ^ 28) }
{
    let mut shapes = Vec::new(alloc);
    for k in 0..count_in(positions) {
        shapes.push(sphere_at(m, positions, radii, common, k))?;
    }
    Ok(shapes)
}

/// How many shapes a geometry has, under any transform; none where there is no such object.
pub(crate) fn shape_count<O: Objects>(state: &O, h: Handle) -> u64
    ensures value { (m : Mat34) → result ≡ length (option_map_or (λ geometry. shapes_of (O.objects state.now) geometry m) (object_at (O.objects state.now) h) []) }
    ensures size { result ≤ 2 ^ 28 }
{
    let Some(kind) = state.kind(h) else {
        return 0;
    };
    let positions = array(state, h, "vertex.position");
    match kind {
        Kind::GeometryTriangle => {
            let indices = array(state, h, "primitive.index");
            triangle_count(&indices, &positions)
        }
        Kind::GeometrySphere => count_in(&positions),
        _ => 0,
    }
}

/// The shapes of a geometry under a transform, at most 2^28; none where there is no such object. A coordinate or a radius
/// has no limit here, and each is exact.
pub fn shapes<O: Objects>(
    alloc: Global,
    state: &O,
    h: Handle,
    m: &Mat34,
) -> Result<Vec<Shape>, AllocError>
    ensures value { IfOk result (λ shapes. shapes.items ≡ option_map_or (λ geometry. shapes_of (O.objects state.now) geometry m.now) (object_at (O.objects state.now) h) []) }
    ensures size { IfOk result (λ shapes. length shapes.items ≤ 2 ^ 28) }
{
    let Some(kind) = state.kind(h) else {
        return Ok(Vec::new(alloc));
    };
    let positions = array(state, h, "vertex.position");
    let placing = Placing::new(m);
    match kind {
        Kind::GeometryTriangle => {
            let indices = array(state, h, "primitive.index");
            triangles(alloc, &placing, &positions, &indices)
        }
        Kind::GeometrySphere => {
            let radii = array(state, h, "vertex.radius");
            let common = scalar(state, &Subject::visited(h), "radius");
            spheres(alloc, &placing, &positions, &radii, common)
        }
        _ => Ok(Vec::new(alloc)),
    }
}
