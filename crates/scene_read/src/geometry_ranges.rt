//! Which array or radius of a visited geometry is out of range under its transform. Elements are read where they lie.
ghost use Rattle.std.specs.Prelude.{◌≡◌, ◌<◌, ◌^◌, Some, IsTrue, IfSome, codes, map, nat_lt};
ghost use Rattle.std.specs.List.{flat_map, list_all};
ghost use Rattle.dev_types.specs.Bounded.{is_name};
ghost use Rattle.fx_math.specs.Mat34.{placed};
ghost use Rattle.kind_tables.specs.Ranges.{first_broken, geometry_tests, is_point, triangle_tests};
ghost use Rattle.kind_tables.specs.SceneObjects.{scalar_in};
ghost use Rattle.kind_tables.specs.Shapes.{common_radius, vertex};
ghost use Rattle.scene_read.specs.Reading.{IsCounted, all_elements, array_in};
ghost use Rattle.scene_read.specs.Shaped.{corners_at, corners_in, scalars_of_array, vectors_in};
ghost use Rattle.scene_read.specs.Starts.{visited_object};
ghost use Rattle.scene_read.specs.Tested.{are_radii, radius_test, test_of};

use crate::geometries::{corners_at, count_in, scalar_at, triangle_count, vertex};
use crate::objects::Objects;
use crate::ranges::{Test, first_broken, is_placed, is_radius};
use crate::readers::{Subject, array, scalar};
use byte_view::Strided;
use dev_types::{Handle, Name};
use fx_math::Mat34;
use kind_tables::Kind;

/// Whether a vertex is a point of the world where it is placed.
fn is_vertex(m: &Mat34, positions: &Option<Strided<'_>>, i: u64) -> bool
    ensures { result ≡ is_point (placed m.now (vertex (vectors_in positions.now) i)) }
{
    is_placed(m, vertex(positions, i))
}

/// Whether each vertex number of a triangle is below the number of vertices.
fn are_numbers(numbers: &[u64; 3], count: u64) -> bool
    ensures { result ≡ list_all (λ i. nat_lt i count) numbers.now }
{
    numbers[0] < count && numbers[1] < count && numbers[2] < count
}

/// Whether each vertex of a triangle is a point of the world.
fn are_vertices(m: &Mat34, positions: &Option<Strided<'_>>, numbers: &[u64; 3]) -> bool
    ensures { result ≡ list_all (λ i. is_point (placed m.now (vertex (vectors_in positions.now) i))) numbers.now }
{
    is_vertex(m, positions, numbers[0])
        && is_vertex(m, positions, numbers[1])
        && is_vertex(m, positions, numbers[2])
}

/// What is out of range of triangle `k`: its vertex numbers, else its vertices. An element that is no index has none.
fn broken_triangle(
    m: &Mat34,
    positions: &Option<Strided<'_>>,
    indices: &Option<Strided<'_>>,
    k: u64,
) -> Option<Name>
    requires counted { IsCounted positions.now }
    requires within { IfSome indices.now (λ e. k < e.count) }
    requires size { k < 2 ^ 28 }
    ensures { result ≡ first_broken (triangle_tests m.now (vectors_in positions.now) (corners_at indices.now k)) }
{
    let numbers = corners_at(indices, k)?;
    let within = are_numbers(&numbers, count_in(positions));
    let placed = are_vertices(m, positions, &numbers);
    first_broken(&[("primitive.index", within), ("vertex.position", placed)])
}

/// What is out of range of the first triangle with such a value.
fn broken_triangles(
    m: &Mat34,
    positions: &Option<Strided<'_>>,
    indices: &Option<Strided<'_>>,
) -> Option<Name>
    requires positions { IsCounted positions.now }
    requires indices { IsCounted indices.now }
    ensures { result ≡ first_broken (flat_map (triangle_tests m.now (vectors_in positions.now)) (corners_in indices.now positions.now)) }
{
    for k in 0..triangle_count(indices, positions) {
        let broken = broken_triangle(m, positions, indices, k);
        if broken.is_some() {
            return broken;
        }
    }
    None
}

/// Whether each centre of a sphere is a point of the world where it is placed.
fn are_centres(m: &Mat34, positions: &Option<Strided<'_>>) -> bool
    requires { IsCounted positions.now }
    ensures { result ≡ list_all (λ p. is_point (placed m.now p)) (vectors_in positions.now) }
{
    for k in 0..count_in(positions) {
        if !is_vertex(m, positions, k) {
            return false;
        }
    }
    true
}

/// Whether there are `count` radii, and each of these is in range.
fn are_radii(m: &Mat34, radii: &Strided<'_>, count: u64) -> bool
    ensures { result ≡ are_radii m.now (map (λ v. scalar_in (Some v)) (all_elements radii.now)) count }
{
    if radii.len() < count {
        return false;
    }
    for k in 0..count {
        if !is_radius(m, scalar_at(radii, k)) {
            return false;
        }
    }
    true
}

/// What is asked of the radii of `count` spheres: of their own where they have such, else of the one of all.
fn radius_test<O: Objects>(state: &O, h: Handle, m: &Mat34, count: u64) -> Test
    ensures value { test_of result ≡ radius_test m.now (scalars_of_array (array_in (O.objects state.now) h (codes "vertex.radius"))) (common_radius (visited_object (O.objects state.now) h)) count }
    ensures named { IsTrue (is_name result.0.now) }
{
    match array(state, h, "vertex.radius") {
        Some(radii) => ("vertex.radius", are_radii(m, &radii, count)),
        None => {
            let common = scalar(state, &Subject::visited(h), "radius");
            ("radius", is_radius(m, common))
        }
    }
}

/// What is out of range of spheres: their centres, else their radii.
fn broken_spheres<O: Objects>(state: &O, h: Handle, m: &Mat34) -> Option<Name>
    ensures { result ≡ first_broken (geometry_tests Kind.GeometrySphere (O.objects state.now) (visited_object (O.objects state.now) h) m.now) }
{
    let positions = array(state, h, "vertex.position");
    first_broken(&[
        ("vertex.position", are_centres(m, &positions)),
        radius_test(state, h, m, count_in(&positions)),
    ])
}

/// The first parameter of a geometry that is out of range; none of another object.
pub(crate) fn broken_geometry<O: Objects>(
    state: &O,
    h: Handle,
    kind: Kind,
    m: &Mat34,
) -> Option<Name>
    ensures { result ≡ first_broken (geometry_tests kind (O.objects state.now) (visited_object (O.objects state.now) h) m.now) }
{
    match kind {
        Kind::GeometryTriangle => {
            let positions = array(state, h, "vertex.position");
            let indices = array(state, h, "primitive.index");
            broken_triangles(m, &positions, &indices)
        }
        Kind::GeometrySphere => broken_spheres(state, h, m),
        _ => None,
    }
}
