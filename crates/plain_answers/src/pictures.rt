//! The pictures of frames that are done.
ghost use Rattle.std.specs.Prelude.{◌≡◌, IfOk, IsSome, Some};
ghost use Rattle.seq_model.specs.Answers.{mapped_picture};
ghost use Rattle.seq_model.specs.Histories.{frame_at};
ghost use Rattle.seq_model.specs.Pictures.{picture_at};
ghost use Rattle.seq_model.specs.Refusals.{phase_at};

use dev_types::{Bytes, Channel, Handle, NoMemory};
use kind_tables::type_of_channel;
use picture_model::{Plane, picture};
use plain_journal::record::Record;
use plain_objects::objects::Shows;
use seq_model::Reply;
use std::alloc::Global;

/// A list of bytes as a block.
fn block_of(alloc: Global, bytes: Vec<u8>) -> Result<Bytes, NoMemory>
    ensures { IfOk result (λ block. block ≡ bytes.items) }
{
    match Bytes::of(alloc, bytes) {
        Ok(block) => Ok(block),
        Err((NoMemory, _)) => Err(NoMemory),
    }
}

/// The picture of a render in a channel. The only error is want of memory.
#[tactic(auto, unfolding(seq_model::specs::Pictures::picture_at))]
fn picture_of(
    past: &Record,
    alloc: Global,
    ticket: u64,
    channel: Channel,
) -> Result<Bytes, NoMemory>
    requires { IsSome (frame_at past.now.seen ticket) }
    ensures { IfOk result (λ rows. rows ≡ picture_at past.now.seen ticket channel) }
{
    let render = past.render(ticket);
    let rows = picture(alloc, &render.scene, Plane::numbered(channel.number()))?;
    block_of(alloc, rows)
}

/// A channel of a frame that has its picture (ANARI 1.0 Specification, mapping frames). The only
/// error is want of memory.
pub fn mapped(past: &Record, alloc: Global, h: Handle, channel: Channel) -> Result<Reply, NoMemory>
    requires { IsSome (mapped_picture past.now channel (phase_at past.now h)) }
    ensures { IfOk result (λ mapped.
        mapped_picture past.now channel (phase_at past.now h) ≡ Some mapped) }
{
    let Shows::Picture(ticket) = past.shows(h) else {
        unreachable!();
    };
    let render = past.render(ticket);
    Ok(Reply::Mapped {
        width: render.scene.width,
        height: render.scene.height,
        ty: type_of_channel(channel),
        rows: picture_of(past, alloc, ticket, channel)?,
    })
}
