//! Which value of a visited object is out of range: the first in the order of the table. A value is the committed one, or
//! the default.
ghost use Rattle.std.specs.Prelude.{◌≡◌, ◌≤◌, ◌^◌, ◌++◌, [], ◌∷◌, IsTrue};
ghost use Rattle.std.specs.List.{list_all};
ghost use Rattle.dev_types.specs.Bounded.{is_name};
ghost use Rattle.fx_math.specs.Mat34.{placed};
ghost use Rattle.fx_math.specs.Vec3.{reach};
ghost use Rattle.kind_tables.specs.Ranges.{first_broken, is_amount, is_asked_as, is_between, is_color, is_direction, is_point, is_radius, is_side, tests_of};
ghost use Rattle.kind_tables.specs.SceneObjects.{scalar_of, scalars_of, sizes_in, value_at};
ghost use Rattle.scene_read.specs.Starts.{visited_object};
ghost use Rattle.scene_read.specs.Tested.{camera_tests, have_names, test_of, tests_in};

use crate::objects::Objects;
use crate::readers::{Subject, color, kind, scalar, value, vector};
use dev_types::{DataType, Handle, Name, Value};
use fx_math::{Mat34, Vec3, cross, reach, transform, transform_radius, unit};
use kind_tables::Kind;

/// A parameter's name, and whether its value is in range.
pub(crate) type Test = (&'static str, bool);

/// The first name whose value is out of range.
pub(crate) fn first_broken(tests: &[Test]) -> Option<Name>
    requires { IsTrue (have_names (tests_in tests.now)) }
    ensures { result ≡ first_broken (tests_in tests.now) }
{
    for (name, holds) in tests {
        if !*holds {
            return Some(Name::of(name));
        }
    }
    None
}

fn is_between(low: i32, high: i32, number: i32) -> bool
    ensures { result ≡ is_between low high number }
{
    low <= number && number <= high
}

fn is_amount(number: i32) -> bool
    ensures { result ≡ is_amount number }
{
    0 <= number
}

fn is_color(color: &[i32; 3]) -> bool
    ensures { result ≡ is_color color.now }
{
    is_amount(color[0]) && is_amount(color[1]) && is_amount(color[2])
}

/// Whether each component is from -2^28 to 2^28.
fn is_point(p: Vec3) -> bool
    ensures { result ≡ is_point p }
{
    reach(p) <= 1 << 28
}

fn is_direction(v: Vec3) -> bool
    ensures { result ≡ is_direction v }
{
    reach(v) != 0
}

/// Whether a vector is a point of the world where it is placed.
pub(crate) fn is_placed(m: &Mat34, p: Vec3) -> bool
    requires { reach p ≤ 2 ^ 31 }
    ensures { result ≡ is_point (placed m.now p) }
{
    transform(m, p).is_some()
}

/// Whether a radius is 0 or more, and at most 2^28 under the transform.
pub(crate) fn is_radius(m: &Mat34, radius: i32) -> bool
    ensures { result ≡ is_radius m.now radius }
{
    is_amount(radius) && transform_radius(m, i64::from(radius)).is_some()
}

fn is_side(side: u32) -> bool
    ensures { result ≡ is_side side }
{
    1 <= side && side <= 4096
}

fn are_sides(size: &Option<Value>) -> bool
    ensures { result ≡ list_all is_side (sizes_in size.now) }
{
    match size {
        Some(Value::Uint32Vec2(sides)) => is_side(sides[0]) && is_side(sides[1]),
        _ => true,
    }
}

/// Whether a channel is not asked for, or with this type.
fn is_asked_as(ty: DataType, asked: &Option<Value>) -> bool
    ensures { result ≡ is_asked_as ty asked.now }
{
    match asked {
        Some(Value::TypeName(asked)) => asked.number() == ty.number(),
        _ => true,
    }
}

/// A scalar within two ends.
fn between<O: Objects>(state: &O, h: Handle, name: &'static str, low: i32, high: i32) -> Test
    requires { IsTrue (is_name name.now) }
    ensures { test_of result ≡ (name.now, is_between low high (scalar_of (visited_object (O.objects state.now) h) name.now)) }
{
    let number = scalar(state, &Subject::visited(h), name);
    (name, is_between(low, high, number))
}

/// A scalar that is 0 or more.
fn amount<O: Objects>(state: &O, h: Handle, name: &'static str) -> Test
    requires { IsTrue (is_name name.now) }
    ensures { test_of result ≡ (name.now, is_amount (scalar_of (visited_object (O.objects state.now) h) name.now)) }
{
    (name, is_amount(scalar(state, &Subject::visited(h), name)))
}

/// A colour with no component below 0.
fn shade<O: Objects>(state: &O, h: Handle, name: &'static str) -> Test
    requires { IsTrue (is_name name.now) }
    ensures { test_of result ≡ (name.now, is_color (scalars_of (visited_object (O.objects state.now) h) name.now)) }
{
    (name, is_color(&color(state, &Subject::visited(h), name)))
}

/// A channel of a frame, which is not asked for or with this type.
fn channel<O: Objects>(state: &O, h: Handle, name: &'static str, ty: DataType) -> Test
    requires { IsTrue (is_name name.now) }
    ensures { test_of result ≡ (name.now, is_asked_as ty (value_at (visited_object (O.objects state.now) h) name.now)) }
{
    let asked = value(state, &Subject::visited(h), &Name::of(name));
    (name, is_asked_as(ty, &asked))
}

/// The first parameter of a camera that is out of range: those that every camera has, then its own.
fn broken_camera<O: Objects>(state: &O, h: Handle, own: Test) -> Option<Name>
    requires { IsTrue (is_name own.0.now) }
    ensures { result ≡ first_broken (camera_tests (visited_object (O.objects state.now) h) ++ test_of own.entry ∷ []) }
{
    let camera = Subject::visited(h);
    let direction = vector(state, &camera, "direction");
    let across = cross(unit(direction), vector(state, &camera, "up"));
    first_broken(&[
        ("position", is_point(vector(state, &camera, "position"))),
        ("direction", is_direction(direction)),
        ("up", is_direction(across)),
        between(state, h, "aspect", 1, 1 << 20),
        own,
    ])
}

/// The first parameter of a frame that is out of range.
fn broken_frame<O: Objects>(state: &O, h: Handle, m: &Mat34) -> Option<Name>
    ensures { result ≡ first_broken (tests_of Kind.FrameDefault m.now (visited_object (O.objects state.now) h)) }
{
    let size = value(state, &Subject::visited(h), &Name::of("size"));
    first_broken(&[
        ("size", are_sides(&size)),
        channel(state, h, "channel.color", DataType::Ufixed8Vec4),
        channel(state, h, "channel.primitiveId", DataType::Uint32),
        channel(state, h, "channel.objectId", DataType::Uint32),
        channel(state, h, "channel.instanceId", DataType::Uint32),
    ])
}

/// The first parameter of a point light that is out of range; its position is asked where it stands in the world.
fn broken_point_light<O: Objects>(state: &O, h: Handle, m: &Mat34) -> Option<Name>
    ensures { result ≡ first_broken (tests_of Kind.LightPoint m.now (visited_object (O.objects state.now) h)) }
{
    let position = vector(state, &Subject::visited(h), "position");
    first_broken(&[
        ("position", is_placed(m, position)),
        shade(state, h, "color"),
        amount(state, h, "intensity"),
    ])
}

/// The first parameter that is out of range, of an object that is no geometry.
pub(crate) fn broken_value<O: Objects>(state: &O, h: Handle, kind: Kind, m: &Mat34) -> Option<Name>
    ensures { result ≡ first_broken (tests_of kind m.now (visited_object (O.objects state.now) h)) }
{
    match kind {
        Kind::CameraOrthographic => {
            broken_camera(state, h, between(state, h, "height", 1, 1 << 26))
        }
        Kind::CameraPerspective => {
            broken_camera(state, h, between(state, h, "tanHalfFovy", 1, 1 << 20))
        }
        Kind::FrameDefault => broken_frame(state, h, m),
        Kind::LightDirectional => {
            first_broken(&[shade(state, h, "color"), amount(state, h, "irradiance")])
        }
        Kind::LightPoint => broken_point_light(state, h, m),
        Kind::MaterialMatte => first_broken(&[
            shade(state, h, "color"),
            between(state, h, "opacity", 0, 65536),
        ]),
        Kind::RendererDefault => first_broken(&[
            shade(state, h, "background"),
            shade(state, h, "ambientColor"),
            amount(state, h, "ambientRadiance"),
        ]),
        _ => None,
    }
}
