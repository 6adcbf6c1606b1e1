//! Why a call is refused.
ghost use Rattle.std.specs.Prelude.{◌≡◌, ◌∷◌, ◌++◌, [], IfOk, IsOk, not, true};
ghost use Rattle.std.specs.Bool.{then_some};
ghost use Rattle.dev_types.specs.declared.data_types.DataType.TheVariants as ty;
ghost use Rattle.dev_types.specs.declared.refusals.Refused.TheVariants.{NotMapped};
ghost use Rattle.call_answers.specs.Plain.{needs_no_memory};
ghost use Rattle.seq_model.specs.Refusals.{first_of, no_picture, own_of_type, phase_at, refusal, some_channel_mapped};

use crate::asked::is_channel_out;
use crate::creations::refusal_of_array;
use crate::frames::{no_picture, refusal_of_map_frame, refusal_of_render, some_channel_mapped};
use crate::owners::{dead, first_of, not_held, own, refusal_of_map_array, wrong_kind};
use crate::queries::{refusal_of_info, refusal_of_kind, refusal_of_query};
use crate::refusals::{refusal_of_map_parameter, refusal_of_set};
use crate::standing::Standing;
use dev_types::{DataType, Handle, NoMemory, Refused};
use device_queries::names::refusal_of_subtypes;
use seq_model::Call;
use std::alloc::Global;

/// `NotMapped` where a loan is not out.
fn unless_out(is_out: bool) -> Option<Refused>
    ensures { result ≡ then_some (not is_out) NotMapped }
{
    (!is_out).then_some(Refused::NotMapped)
}

/// Why it is not told whether a frame is ready (ANARI 1.0 Specification, rendering frames).
fn refusal_of_ready<S: Standing>(device: &S, h: Handle) -> Option<Refused>
    ensures { result ≡ first_of (own_of_type (S.past device.now) h ty.Frame ++ no_picture
        (phase_at (S.past device.now) h) ∷ []) }
{
    first_of(&[
        dead(device, h),
        not_held(device, h),
        wrong_kind(device, h, DataType::Frame),
        no_picture(device, h),
    ])
}

/// Why a frame is not discarded.
fn refusal_of_discard<S: Standing>(device: &S, h: Handle) -> Option<Refused>
    ensures { result ≡ first_of (own_of_type (S.past device.now) h ty.Frame ++ some_channel_mapped
        (S.past device.now) h ∷ []) }
{
    first_of(&[
        dead(device, h),
        not_held(device, h),
        wrong_kind(device, h, DataType::Frame),
        some_channel_mapped(device, h),
    ])
}

/// Why a call is refused; `None` exactly where no refusal applies to it. The only error is want of
/// memory.
#[tactic(auto, unfolding(seq_model::specs::Refusals::refusal, seq_model::specs::Refusals::refusals_of))]
pub fn refusal<S: Standing>(
    device: &S,
    alloc: Global,
    call: &Call,
) -> Result<Option<Refused>, NoMemory>
    ensures found { IfOk result (λ found. found ≡ refusal (S.past device.now) call.now) }
    ensures no_memory { needs_no_memory call.now ≡ true → IsOk result }
{
    Ok(match call {
        Call::NewObject { ty, subtype } => refusal_of_kind(*ty, subtype),
        Call::NewArray {
            elem,
            count,
            stride,
            origin,
            bytes,
        } => refusal_of_array(device, alloc, *elem, *count, *stride, *origin, bytes)?,
        Call::Retain { h } | Call::Release { h } => own(device, *h),
        Call::SetParameter { h, name, value } => refusal_of_set(device, *h, name, value),
        Call::UnsetParameter { h, .. } | Call::UnsetAll { h } | Call::Commit { h } => own(
            device, *h,
        ),
        Call::MapArray { h } => refusal_of_map_array(device, *h),
        Call::UnmapArray { h, number, bytes } => {
            unless_out(device.is_array_loan_out(*h, *number, bytes.as_slice().len()))
        }
        Call::MapParameterArray {
            h,
            name,
            elem,
            count,
        } => refusal_of_map_parameter(device, *h, name, *elem, *count),
        Call::UnmapParameterArray {
            h,
            name,
            number,
            bytes,
        } => unless_out(device.is_parameter_loan_out(*h, name, *number, bytes.as_slice().len())),
        Call::RenderFrame { h } => refusal_of_render(device, alloc, *h)?,
        Call::FrameReady { h, .. } => refusal_of_ready(device, *h),
        Call::DiscardFrame { h } => refusal_of_discard(device, *h),
        Call::MapFrame { h, channel } => refusal_of_map_frame(device, *h, *channel),
        Call::UnmapFrame { h, number } => unless_out(is_channel_out(device, *h, *number)),
        Call::GetProperty { h, name } => refusal_of_query(device, alloc, *h, name)?,
        Call::Subtypes { ty } => refusal_of_subtypes(*ty),
        Call::ObjectInfo { ty, subtype } => refusal_of_kind(*ty, subtype),
        Call::ParameterInfo { ty, subtype, name } => refusal_of_info(*ty, subtype, name),
    })
}
