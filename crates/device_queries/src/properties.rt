//! The properties of objects and of the device (ANARI 1.0 Specification, object properties).
ghost use Rattle.std.specs.Prelude.{◌≡◌, ◌⊎◌, IfErr, IfOk, IsSome, IsTrue, None, Some, if◌then◌else◌, not, pos};
ghost use Rattle.std.specs.Bool.{then_some};
ghost use Rattle.std.specs.Option.{option_map};
ghost use Rattle.std.specs.Str.{bytes_eq};
ghost use Rattle.dev_types.specs.declared.refusals.Refused.TheVariants.{NoSuchName};
ghost use Rattle.kind_tables.specs.SceneObjects.{object_at};
ghost use Rattle.kind_tables.specs.Typed.{AreFit};
ghost use Rattle.kind_tables.specs.WalkRefusals.{walk_refusal};
ghost use Rattle.kind_tables.specs.Walks.{walk};
ghost use Rattle.scene_read.specs.Roots.{is_scene_root};
ghost use Rattle.seq_model.specs.Properties.{property_by, refusal_of_property};
ghost use Rattle.device_queries.specs.Properties.{property_at, refusal_at};
ghost use Rattle.device_queries.specs.Refusing.{IsReason};

use crate::bounds::bounds;
use dev_types::{Handle, Name, NoMemory, Refused, Value};
use kind_tables::Kind;
use scene_read::{Objects, walk};
use std::alloc::Global;

/// `NoSuchName` where a name is another one.
fn unless_named(name: &Name, text: &str) -> Option<Refused>
    ensures { result ≡ then_some (not (bytes_eq name.now text.now)) NoSuchName }
{
    (name.as_str() != text).then_some(Refused::NoSuchName)
}

/// Why the walk from a world is refused. The only error is want of memory.
fn refusal_of_walk<O: Objects>(
    alloc: Global,
    state: &O,
    h: Handle,
) -> Result<Option<Refused>, NoMemory>
    requires { IsTrue (is_scene_root (O.objects state.now) h) }
    ensures { IfOk result (λ refusal.
        refusal ≡ walk_refusal (O.objects state.now) (walk (O.objects state.now) h)) }
{
    match walk(alloc, state, h) {
        Ok(_visits) => Ok(None),
        Err(Refused::NoMemory) => Err(NoMemory),
        Err(refused) => Ok(Some(refused)),
    }
}

/// Why an object of a kind does not tell a property.
fn refusal_by<O: Objects>(
    alloc: Global,
    state: &O,
    h: Handle,
    kind: Kind,
    name: &Name,
) -> Result<Option<Refused>, NoMemory>
    requires { option_map (λ o. o.kind) (object_at (O.objects state.now) h) ≡ Some kind }
    ensures { IfOk result (λ refusal. refusal ≡ refusal_of_property (O.objects state.now) h kind name.now) }
{
    match kind {
        Kind::WorldDefault if name.as_str() == "bounds" => refusal_of_walk(alloc, state, h),
        Kind::FrameDefault => Ok(unless_named(name, "renderProgress")),
        _ => Ok(Some(Refused::NoSuchName)),
    }
}

/// Why a property is not told: `NoSuchName` where it is none of the object's, and for `bounds` the
/// first refusal of the walk from the world. Handle 0 stands for the device. The only error is want
/// of memory.
pub fn refusal_of_property<O: Objects>(
    alloc: Global,
    state: &O,
    h: Handle,
    name: &Name,
) -> Result<Option<Refused>, NoMemory>
    ensures { IfOk result (λ refusal. refusal ≡ refusal_at (O.objects state.now) h name.now) }
{
    if h.0 == 0 {
        return Ok(unless_named(name, "version"));
    }
    let Some(kind) = state.kind(h) else {
        return Ok(None);
    };
    refusal_by(alloc, state, h, kind, name)
}

/// How far a frame is rendered: one, in units of 1/65536, where it is done.
fn progress(done: bool) -> i32
    ensures { result ≡ if done then pos 65536 else pos 0 }
{
    if done { 65536 } else { 0 }
}

/// The property of an object of a kind.
fn property_by<O: Objects>(
    alloc: Global,
    state: &O,
    h: Handle,
    kind: Kind,
    name: &Name,
    done: bool,
) -> Result<Value, Refused>
    requires { option_map (λ o. o.kind) (object_at (O.objects state.now) h) ≡ Some kind }
    ensures value { AreFit (O.objects state.now)
        → IfOk result (λ value. value ≡ property_by (O.objects state.now) h done kind) }
    ensures told { IfOk result (λ value. refusal_of_property (O.objects state.now) h kind name.now ≡ None) }
    ensures refused { IfErr result (IsReason (refusal_of_property (O.objects state.now) h kind name.now)) }
{
    match kind {
        Kind::WorldDefault if name.as_str() == "bounds" => {
            let visits = walk(alloc, state, h)?;
            Ok(Value::ScalarBox3(bounds(state, &visits)))
        }
        Kind::FrameDefault if name.as_str() == "renderProgress" => Ok(Value::Scalar(progress(
            done,
        ))),
        _ => Err(Refused::NoSuchName),
    }
}

/// A property of a live object: `bounds` of a world, the box of all that it shows, and
/// `renderProgress` of a frame, which is one in units of 1/65536 where the frame is `done`. Handle
/// 0 stands for the device, which tells its `version`. The error is `NoSuchName` for every other
/// name; for `bounds` it is the first refusal of the walk from the world; and `NoMemory` where
/// there is none.
pub fn property<O: Objects>(
    alloc: Global,
    state: &O,
    h: Handle,
    name: &Name,
    done: bool,
) -> Result<Value, Refused>
    requires { (h ≡ 0) ⊎ IsSome (object_at (O.objects state.now) h) }
    ensures value { AreFit (O.objects state.now)
        → IfOk result (λ value. property_at (O.objects state.now) h done ≡ Some value) }
    ensures told { IfOk result (λ value. refusal_at (O.objects state.now) h name.now ≡ None) }
    ensures refused { IfErr result (IsReason (refusal_at (O.objects state.now) h name.now)) }
{
    if h.0 == 0 {
        return match unless_named(name, "version") {
            Some(refused) => Err(refused),
            None => Ok(Value::Int32(1)),
        };
    }
    match state.kind(h) {
        Some(kind) => property_by(alloc, state, h, kind, name, done),
        None => unreachable!(),
    }
}
