//! What is read of an object: the values of its parameters, each as committed or by default, and its elements.
ghost use Rattle.std.specs.Prelude.{◌≡◌, ◌≤◌, ◌^◌, Some, IsTrue};
ghost use Rattle.std.specs.Option.{option_and_then, option_map};
ghost use Rattle.dev_types.specs.Bounded.{is_name};
ghost use Rattle.fx_math.specs.Vec3.{reach};
ghost use Rattle.kind_tables.specs.SceneObjects.{id_in, matrix_in, object_at, object_in, scalar_in, scalar_of, scalars_in, scalars_of, value_at, value_named, vector, vector_in, vector_of};
ghost use Rattle.scene_read.specs.Reading.{IsCounted, array_in, named_in, object_of};

use crate::objects::Objects;
use byte_view::Strided;
use dev_types::{Handle, Name, Value};
use fx_math::{Mat34, NO_ID, Vec3};
use kind_tables::{Kind, object_in, row_of};

/// An object that is read. Where there is none, an object of a kind that was given nothing stands in its place.
#[derive(Clone, Copy, Debug)]
pub struct Subject {
    pub handle: Option<Handle>,
    pub otherwise: Kind,
}

impl Subject {
    /// What is visited on a walk; such an object is always there.
    pub fn visited(handle: Handle) -> Subject
        ensures { result ≡ record { handle = Some handle; otherwise = Kind.FrameDefault } }
    {
        Subject {
            handle: Some(handle),
            otherwise: Kind::FrameDefault,
        }
    }
}

/// The kind of the object, if it is there.
fn kind_of<O: Objects>(state: &O, handle: Option<Handle>) -> Option<Kind>
    ensures { result ≡ option_map (λ o. o.kind) (option_and_then (object_at (O.objects state.now)) handle) }
{
    state.kind(handle?)
}

/// The kind of what is read.
pub(crate) fn kind<O: Objects>(state: &O, subject: &Subject) -> Kind
    ensures { result ≡ (object_of (O.objects state.now) subject.now).kind }
{
    kind_of(state, subject.handle).unwrap_or(subject.otherwise)
}

/// The committed value, if there is one.
fn committed<'a, O: Objects>(state: &'a O, handle: Option<Handle>, name: &Name) -> Option<&'a Value>
    ensures { option_map (λ v. v.now) result ≡ option_and_then (λ o. value_named name.now o.committed) (option_and_then (object_at (O.objects state.now)) handle) }
{
    state.committed(handle?, name)
}

/// The committed value, or the default; `None` where there is neither.
pub fn value<O: Objects>(state: &O, subject: &Subject, name: &Name) -> Option<Value>
    ensures { result ≡ value_at (object_of (O.objects state.now) subject.now) name.now }
{
    match committed(state, subject.handle, name) {
        Some(value) => Some(value.copied()),
        None => row_of(kind(state, subject), name)?.default,
    }
}

/// A scalar, in units of 1/65536.
pub(crate) fn scalar_in(value: Option<Value>) -> i32
    ensures { result ≡ scalar_in value }
{
    match value {
        Some(Value::Scalar(number)) => number,
        _ => 0,
    }
}

/// Three scalars.
fn scalars_in(value: Option<Value>) -> [i32; 3]
    ensures { result ≡ scalars_in value }
{
    match value {
        Some(Value::ScalarVec3(numbers)) => numbers,
        _ => [0, 0, 0],
    }
}

/// Three scalars as a vector.
pub(crate) fn vector_in(value: Option<Value>) -> Vec3
    ensures value { result ≡ vector_in value }
    ensures size { reach result ≤ 2 ^ 31 }
{
    vector_of_numbers(&scalars_in(value))
}

pub(crate) fn vector_of_numbers(numbers: &[i32; 3]) -> Vec3
    ensures value { result ≡ vector numbers.now }
    ensures size { reach result ≤ 2 ^ 31 }
{
    Vec3 {
        x: i64::from(numbers[0]),
        y: i64::from(numbers[1]),
        z: i64::from(numbers[2]),
    }
}

/// A transform, or the identity.
pub(crate) fn matrix_in(value: Option<Value>) -> Mat34
    ensures { result ≡ matrix_in value }
{
    match value {
        Some(Value::ScalarMat34(numbers)) => Mat34 { c: numbers },
        _ => Mat34::IDENTITY,
    }
}

/// An id, or the one that is none.
pub(crate) fn id_in(value: Option<Value>) -> u32
    ensures { result ≡ id_in value }
{
    match value {
        Some(Value::Uint32(id)) => id,
        _ => NO_ID,
    }
}

/// A scalar parameter.
pub fn scalar<O: Objects>(state: &O, subject: &Subject, text: &str) -> i32
    requires { IsTrue (is_name text.now) }
    ensures { result ≡ scalar_of (object_of (O.objects state.now) subject.now) text.now }
{
    scalar_in(value(state, subject, &Name::of(text)))
}

/// A colour: three scalars, red, green and blue.
pub fn color<O: Objects>(state: &O, subject: &Subject, text: &str) -> [i32; 3]
    requires { IsTrue (is_name text.now) }
    ensures { result ≡ scalars_of (object_of (O.objects state.now) subject.now) text.now }
{
    scalars_in(value(state, subject, &Name::of(text)))
}

/// An id, or the one that is none.
pub fn id<O: Objects>(state: &O, subject: &Subject, text: &str) -> u32
    requires { IsTrue (is_name text.now) }
    ensures { result ≡ id_in (value_at (object_of (O.objects state.now) subject.now) text.now) }
{
    id_in(value(state, subject, &Name::of(text)))
}

/// A vector parameter.
pub(crate) fn vector<O: Objects>(state: &O, subject: &Subject, text: &str) -> Vec3
    requires { IsTrue (is_name text.now) }
    ensures value { result ≡ vector_of (object_of (O.objects state.now) subject.now) text.now }
    ensures size { reach result ≤ 2 ^ 31 }
{
    vector_in(value(state, subject, &Name::of(text)))
}

/// The object that was committed under a name.
pub fn named<O: Objects>(state: &O, h: Handle, text: &str) -> Option<Handle>
    requires { IsTrue (is_name text.now) }
    ensures { result ≡ named_in (O.objects state.now) h text.now }
{
    object_in(state.committed(h, &Name::of(text))?)
}

/// The elements of the array that was committed under a name.
pub fn array<'a, O: Objects>(state: &'a O, h: Handle, text: &str) -> Option<Strided<'a>>
    requires { IsTrue (is_name text.now) }
    ensures value { result ≡ array_in (O.objects state.now) h text.now }
    ensures size { IsCounted result }
{
    state.content(named(state, h, text)?)
}
