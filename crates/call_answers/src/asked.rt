//! What is asked of the objects of a device.
ghost use Rattle.std.specs.Prelude.{◌≡◌, ◌==◌};
ghost use Rattle.std.specs.List.{list_any};
ghost use Rattle.seq_model.specs.Refusals.{is_channel_out};
ghost use Rattle.std.specs.Option.{is_some, option_and_then, option_map};
ghost use Rattle.scene_read.specs.Reading.{lent as lent_block};
ghost use Rattle.seq_model.specs.State.{array_loan, object_at};

use crate::standing::Standing;
use byte_view::Strided;
use dev_types::{Channel, Handle};
use kind_tables::Kind;

/// The kind of an object; `None` exactly where there is no such object.
#[tactic(auto, using(crate::proofs::Seen::kind_seen))]
pub fn kind_at<S: Standing>(device: &S, h: Handle) -> Option<Kind>
    ensures { result ≡ option_map (λ o. o.kind) (object_at (S.past device.now).state h) }
{
    device.kind(h)
}

/// The elements of an array; `None` exactly where the object is none.
#[tactic(auto, using(crate::proofs::Seen::content_seen))]
pub fn elements_at<S: Standing>(device: &S, h: Handle) -> Option<Strided<'_>>
    ensures { result ≡ option_map (λ a. lent_block a.block) (option_and_then (λ o. o.array)
        (object_at (S.past device.now).state h)) }
{
    device.content(h)
}

/// Whether the object is an array that is mapped.
#[tactic(auto, using(crate::proofs::Seen::mapped_seen))]
pub fn is_lent<S: Standing>(device: &S, h: Handle) -> bool
    ensures { result ≡ is_some (option_and_then array_loan (object_at
        (S.past device.now).state h)) }
{
    device.mapped(h)
}

/// Whether one of the channels was lent under this number.
fn is_any_lent(channels: &[(Channel, u64)], number: u64) -> bool
    ensures { result ≡ list_any (λ m. m.1 == number) channels.now }
{
    channels.iter().any(|mapped| mapped.1 == number)
}

/// Whether a channel of the frame was lent under this number.
pub fn is_channel_out<S: Standing>(device: &S, h: Handle, number: u64) -> bool
    ensures { result ≡ is_channel_out (S.past device.now).state h number }
{
    match device.mapped_channels(h) {
        Some(channels) => is_any_lent(channels, number),
        None => false,
    }
}
