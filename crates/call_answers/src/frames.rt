//! Why calls on frames are refused, and what they are answered.
ghost use Rattle.std.specs.Prelude.{◌≡◌, ◌==◌, IfOk, IsSome, Some};
ghost use Rattle.std.specs.List.{list_any};
ghost use Rattle.kind_tables.specs.WalkRefusals.{fault_of, first_mapped};
ghost use Rattle.scene_read.specs.Starts.{all_seen};
ghost use Rattle.seq_model.specs.Answers.{readiness};
ghost use Rattle.seq_model.specs.Refusals.{first_of, in_flight, is_same_channel, no_channel, no_picture, phase_at, refusals_of_map_frame, refusals_of_render, some_channel_mapped, this_channel_mapped, walk_at};
ghost use Rattle.seq_model.specs.State.{scene_objects};

use crate::owners::{dead, first_of, not_held, wrong_kind};
use crate::shown::Shown;
use crate::standing::Standing;
use dev_types::{Channel, DataType, Handle, NoMemory, Refused};
use scene_read::{Visits, fault, first_mapped, visits_from};
use seq_model::Reply;
use std::alloc::Global;

/// Whether the channel is one of those that are mapped.
fn is_mapped(channels: &[(Channel, u64)], channel: Channel) -> bool
    ensures { result ≡ list_any (λ m. is_same_channel m.0 channel) channels.now }
{
    channels
        .iter()
        .any(|mapped| mapped.0.name() == channel.name())
}

/// `InFlight` where the frame is in flight, of whose tiles none was seen finished.
fn in_flight<S: Standing>(device: &S, h: Handle) -> Option<Refused>
    ensures { result ≡ in_flight (S.past device.now) (phase_at (S.past device.now) h) }
{
    match device.shows(h) {
        Shown::Flight { tiles, .. } => Some(Refused::InFlight {
            given: 0,
            of: tiles,
        }),
        _ => None,
    }
}

/// `NoPicture` where the frame has neither flight nor picture.
pub fn no_picture<S: Standing>(device: &S, h: Handle) -> Option<Refused>
    ensures { result ≡ no_picture (phase_at (S.past device.now) h) }
{
    match device.shows(h) {
        Shown::Nothing => Some(Refused::NoPicture),
        _ => None,
    }
}

/// `NoChannel` where the frame did not ask for the channel when it was rendered.
fn no_channel<S: Standing>(device: &S, h: Handle, channel: Channel) -> Option<Refused>
    ensures { result ≡ no_channel (S.past device.now) (phase_at (S.past device.now) h) channel }
{
    match device.shows(h) {
        Shown::Picture { asked, .. } => {
            let has_channel = asked[channel.number() as usize];
            (!has_channel).then_some(Refused::NoChannel)
        }
        _ => None,
    }
}

/// `ChannelMapped` where some channel of the frame is mapped.
pub fn some_channel_mapped<S: Standing>(device: &S, h: Handle) -> Option<Refused>
    ensures { result ≡ some_channel_mapped (S.past device.now) h }
{
    match device.mapped_channels(h) {
        Some(channels) => (!channels.is_empty()).then_some(Refused::ChannelMapped),
        None => None,
    }
}

/// `ChannelMapped` where this channel of the frame is mapped.
fn this_channel_mapped<S: Standing>(device: &S, h: Handle, channel: Channel) -> Option<Refused>
    ensures { result ≡ this_channel_mapped (S.past device.now) h channel }
{
    match device.mapped_channels(h) {
        Some(channels) => is_mapped(channels, channel).then_some(Refused::ChannelMapped),
        None => None,
    }
}

/// `ArrayMapped` of the first array that is visited and mapped.
pub fn mapped_on_walk<S: Standing>(device: &S, h: Handle, visits: &Visits) -> Option<Refused>
    requires { all_seen (scene_objects (S.past device.now).state) visits.now ≡ walk_at
        (S.past device.now) h }
    ensures { result ≡ first_mapped (walk_at (S.past device.now) h) }
{
    first_mapped(device, visits)
}

/// What is wrong with what is visited, but for mapped arrays.
pub fn fault_on_walk<S: Standing>(device: &S, h: Handle, visits: &Visits) -> Option<Refused>
    requires { all_seen (scene_objects (S.past device.now).state) visits.now ≡ walk_at
        (S.past device.now) h }
    ensures { result ≡ fault_of (scene_objects (S.past device.now).state) (walk_at
        (S.past device.now) h) }
{
    fault(device, visits)
}

/// Why a frame is not rendered (ANARI 1.0 Specification, rendering frames), by what its walk
/// visits.
pub fn refusal_by_walk<S: Standing>(device: &S, h: Handle, visits: &Visits) -> Option<Refused>
    requires { all_seen (scene_objects (S.past device.now).state) visits.now ≡ walk_at
        (S.past device.now) h }
    ensures { result ≡ first_of (refusals_of_render (S.past device.now) h) }
{
    first_of(&[
        dead(device, h),
        not_held(device, h),
        wrong_kind(device, h, DataType::Frame),
        mapped_on_walk(device, h, visits),
        in_flight(device, h),
        some_channel_mapped(device, h),
        fault_on_walk(device, h, visits),
    ])
}

/// The walk from an object. The only error is want of memory.
pub fn walk<S: Standing>(device: &S, alloc: Global, h: Handle) -> Result<Visits, NoMemory>
    ensures { IfOk result (λ visits. all_seen (scene_objects (S.past device.now).state) visits ≡
        walk_at (S.past device.now) h) }
{
    visits_from(alloc, device, h)
}

/// Why a channel of a frame is not mapped (ANARI 1.0 Specification, mapping frames).
pub fn refusal_of_map_frame<S: Standing>(device: &S, h: Handle, channel: Channel) -> Option<Refused>
    ensures { result ≡ first_of (refusals_of_map_frame (S.past device.now) h channel) }
{
    first_of(&[
        dead(device, h),
        not_held(device, h),
        wrong_kind(device, h, DataType::Frame),
        in_flight(device, h),
        no_picture(device, h),
        this_channel_mapped(device, h, channel),
        no_channel(device, h, channel),
    ])
}

/// Whether a frame is ready. It may not be asked to wait for a flight.
pub fn readiness<S: Standing>(device: &S, h: Handle, wait: bool) -> Reply
    requires { IsSome (readiness (S.past device.now) wait (phase_at (S.past device.now) h)) }
    ensures { readiness (S.past device.now) wait (phase_at (S.past device.now) h) ≡ Some result }
{
    match device.shows(h) {
        Shown::Flight { tiles, .. } => Reply::NotReady {
            given: 0,
            of: tiles,
        },
        _ => Reply::Ready,
    }
}

/// Why a frame is not rendered (ANARI 1.0 Specification, rendering frames). The only error is want
/// of memory.
pub fn refusal_of_render<S: Standing>(
    device: &S,
    alloc: Global,
    h: Handle,
) -> Result<Option<Refused>, NoMemory>
    ensures { IfOk result (λ refusal. refusal ≡ first_of (refusals_of_render
        (S.past device.now) h)) }
{
    let visits = walk(device, alloc, h)?;
    Ok(refusal_by_walk(device, h, &visits))
}
