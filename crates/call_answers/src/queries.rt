//! What a device tells about itself, and why it does not.
ghost use Rattle.std.specs.Prelude.{◌≡◌, IfOk, None, Some};
ghost use Rattle.std.specs.Bool.{then_some};
ghost use Rattle.std.specs.Option.{is_none};
ghost use Rattle.dev_types.specs.declared.refusals.Refused.TheVariants.{BadSubtype, NoMemory};
ghost use Rattle.kind_tables.specs.Kinds.{kind_of};
ghost use Rattle.seq_model.specs.Answers.{is_done};
ghost use Rattle.seq_model.specs.Refusals.{first_of, phase_at, refusal_of_info, refusals_of_query};
ghost use Rattle.seq_model.specs.Steps.{Past};
ghost use Rattle.seq_model.specs.declared.calls.Call.TheVariants.{GetProperty, ObjectInfo, ParameterInfo, Subtypes};
ghost use Rattle.call_answers.specs.Telling.{first_refusals, IsTold, IsUntold};

use crate::owners::own;
use crate::shown::Shown;
use crate::standing::Standing;
use dev_types::{DataType, Handle, Name, NoMemory, Refused};
use device_queries::names;
use device_queries::properties::{property, refusal_of_property};
use kind_tables::kind_of;
use seq_model::Reply;
use std::alloc::Global;

/// `BadSubtype` where there is no such kind.
pub fn refusal_of_kind(ty: DataType, subtype: &Name) -> Option<Refused>
    ensures { result ≡ then_some (is_none (kind_of ty subtype.now)) BadSubtype }
{
    kind_of(ty, subtype)
        .is_none()
        .then_some(Refused::BadSubtype)
}

/// Why nothing is told of a parameter.
pub fn refusal_of_info(ty: DataType, subtype: &Name, name: &Name) -> Option<Refused>
    ensures { result ≡ refusal_of_info (kind_of ty subtype.now) name.now }
{
    match kind_of(ty, subtype) {
        Some(kind) => names::refusal_of_info(kind, name),
        None => Some(Refused::BadSubtype),
    }
}

/// Why the object with a handle is not asked: it is not there, or not held. Handle 0 stands for the
/// device, which always is.
fn refusal_of_asked<S: Standing>(device: &S, h: Handle) -> Option<Refused>
    ensures { result ≡ first_of (first_refusals (S.past device.now) h) }
{
    if h.0 == 0 { None } else { own(device, h) }
}

/// Why a property is not told (ANARI 1.0 Specification, object properties). Handle 0 stands for the
/// device. The only error is want of memory.
pub fn refusal_of_query<S: Standing>(
    device: &S,
    alloc: Global,
    h: Handle,
    name: &Name,
) -> Result<Option<Refused>, NoMemory>
    ensures { IfOk result (λ refusal. refusal ≡ first_of (refusals_of_query
        (S.past device.now) h name.now)) }
{
    if let Some(refused) = refusal_of_asked(device, h) {
        return Ok(Some(refused));
    }
    refusal_of_property(alloc, device, h, name)
}

/// Whether a frame shows a picture that is done.
fn is_done<S: Standing>(device: &S, h: Handle) -> bool
    ensures { result ≡ is_done (phase_at (S.past device.now) h) }
{
    match device.shows(h) {
        Shown::Picture { .. } => true,
        _ => false,
    }
}

/// A property that is asked for, or why it is not told. Handle 0 stands for the device, which tells
/// its version.
pub fn told_property<S: Standing>(
    device: &S,
    alloc: Global,
    h: Handle,
    name: &Name,
) -> Result<Reply, Refused>
    ensures told { IsTold (S.past device.now) (GetProperty h name.now) result }
    ensures untold { IsUntold (S.past device.now) (GetProperty h name.now) result }
{
    // So the objects are fit to be read, and what a world shows is within the limits of pictures.
    device.is_legal();
    if let Some(refused) = refusal_of_asked(device, h) {
        return Err(refused);
    }
    match property(alloc, device, h, name, is_done(device, h)) {
        Ok(value) => Ok(Reply::Val(value)),
        Err(refused) => Err(refused),
    }
}

/// The subtypes of a type, or why they are not told.
pub fn told_subtypes(alloc: Global, ty: DataType) -> Result<Reply, Refused>
    ensures told { (past : Past) → IsTold past (Subtypes ty) result }
    ensures untold { (past : Past) → IsUntold past (Subtypes ty) result }
{
    match names::subtypes_of(alloc, ty) {
        Ok(subtypes) => Ok(Reply::Listed(subtypes)),
        Err(refused) => Err(refused),
    }
}

/// The parameters of a kind, or why they are not told.
pub fn told_parameters(alloc: Global, ty: DataType, subtype: &Name) -> Result<Reply, Refused>
    ensures told { (past : Past) → IsTold past (ObjectInfo ty subtype.now) result }
    ensures untold { (past : Past) → IsUntold past (ObjectInfo ty subtype.now) result }
{
    let Some(kind) = kind_of(ty, subtype) else {
        return Err(Refused::BadSubtype);
    };
    match names::parameters_of(alloc, kind) {
        Ok(parameters) => Ok(Reply::Listed(parameters)),
        Err(refused) => Err(refused),
    }
}

/// What is known of a parameter, or why it is not told.
pub fn told_info(alloc: Global, ty: DataType, subtype: &Name, name: &Name) -> Result<Reply, Refused>
    ensures told { (past : Past) → IsTold past (ParameterInfo ty subtype.now name.now) result }
    ensures untold { (past : Past) → IsUntold past (ParameterInfo ty subtype.now name.now) result }
{
    let Some(kind) = kind_of(ty, subtype) else {
        return Err(Refused::BadSubtype);
    };
    match names::info_of(alloc, kind, name) {
        Ok(info) => Ok(Reply::Info(info)),
        Err(refused) => Err(refused),
    }
}
