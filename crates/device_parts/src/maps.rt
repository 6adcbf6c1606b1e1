//! Channels of frames that are mapped.
ghost use Rattle.std.specs.Prelude.{◌≡◌, ◌+◌, ◌<◌, [], IfOk, IsSome, None, OnErr, OnOk, Some, length};
ghost use Rattle.frame_future.specs.Future.{AreHome, refusal_of_map};
ghost use Rattle.object_steps.specs.Objects.{with_state};
ghost use Rattle.seq_model.specs.Answers.{answer};
ghost use Rattle.seq_model.specs.Refusals.{refusal};
ghost use Rattle.seq_model.specs.State.{changed_at, object_at};
ghost use Rattle.seq_model.specs.Steps.{after, map_channel};
ghost use Rattle.seq_model.specs.declared.calls.Call.TheVariants.{MapFrame};
ghost use Rattle.device_parts.specs.Calls.{HasEntered, HasRoomMade};
ghost use Rattle.device_parts.specs.Maps.{HasLent, HasMapped, told_of};
ghost use Rattle.device_parts.specs.Standing.{IsStanding};

use crate::burials::bury;
use crate::loads::Load;
use crate::parts::Parts;
use dev_types::{Bytes, Channel, Handle, NoMemory};
use flight_books::FlightBooks;
use frame_future::MappedFrame;
use object_steps::ObjectStore;
use seq_model::{Call, Entry, Reply};
use std::alloc::Global;

/// A channel that was mapped: what is lent of it, and the reply that tells of it, once for the
/// journal and once for the caller.
#[derive(Drop)]
pub(crate) struct Mapping {
    pub(crate) loan: MappedFrame,
    pub(crate) entered: Reply,
    pub(crate) answer: Reply,
}

/// The bytes of a mapped channel: four a pixel, by rows from the lowest up. The only error is want
/// of memory.
fn rows_of(alloc: Global, loan: &MappedFrame) -> Result<Bytes, NoMemory>
    ensures { IfOk result (λ rows. rows ≡ loan.now.bytes) }
{
    let row = 4 * loan.width() as usize;
    let Some(count) = row.checked_mul(loan.height() as usize) else {
        return Err(NoMemory);
    };
    let mut rows = vec![in alloc; 0u8; count]?;
    loan.copy_rows(&mut rows);
    match Bytes::of(alloc, rows) {
        Ok(block) => Ok(block),
        Err((NoMemory, _)) => Err(NoMemory),
    }
}

/// The reply that tells of a mapped channel: its size in pixels, what a pixel is, and its bytes.
/// The only error is want of memory.
fn reply_of(alloc: Global, loan: &MappedFrame) -> Result<Reply, NoMemory>
    ensures { IfOk result (λ r. r ≡ told_of loan.now) }
{
    Ok(Reply::Mapped {
        width: loan.width(),
        height: loan.height(),
        ty: loan.pixel_type(),
        rows: rows_of(alloc, loan)?,
    })
}

/// What is lent of a channel, with the replies that tell of it, which share its bytes. The only
/// error is want of memory.
fn mapping_of(alloc: Global, loan: MappedFrame) -> Result<Mapping, NoMemory>
    ensures loan { IfOk result (λ m. m.loan ≡ loan) }
    ensures entered { IfOk result (λ m. m.entered ≡ told_of loan) }
    ensures answer { IfOk result (λ m. m.answer ≡ told_of loan) }
{
    let answer = reply_of(alloc, &loan)?;
    let entered = answer.share(alloc)?;
    Ok(Mapping {
        loan,
        entered,
        answer,
    })
}

/// Lends a channel of a frame's picture under this number, which may be mapped.
///
/// # Errors
/// `NoMemory`; nothing has changed.
fn lend_channel(
    flights: &mut FlightBooks<Load>,
    alloc: Global,
    h: Handle,
    channel: Channel,
    number: u64,
) -> Result<Mapping, NoMemory>
    requires granted { refusal_of_map flights.old.future h channel ≡ None }
    ensures lent { IfOk result (λ m. HasLent h channel number m.loan flights.old flights.new) }
    ensures entered { IfOk result (λ m. m.entered ≡ told_of m.loan) }
    ensures answer { IfOk result (λ m. m.answer ≡ told_of m.loan) }
    ensures err { OnErr result (flights.new ≡ flights.old) }
{
    let Ok(loan) = flights.map(alloc, h, channel, number) else {
        return Err(NoMemory);
    };
    let Ok(mapping) = mapping_of(alloc, loan) else {
        flights.end_loan(h, channel);
        return Err(NoMemory);
    };
    Ok(mapping)
}

/// Maps a channel of a frame under this number, which may be mapped: it is lent of the frame's
/// picture, and the frame, which is there, has it among its mapped channels.
///
/// # Errors
/// `NoMemory`; nothing has changed.
fn map_channel(
    objects: &mut ObjectStore,
    flights: &mut FlightBooks<Load>,
    alloc: Global,
    h: Handle,
    channel: Channel,
    number: u64,
) -> Result<Mapping, NoMemory>
    requires granted { refusal_of_map flights.old.future h channel ≡ None }
    requires there { IsSome (object_at objects.old.stored.state h) }
    ensures objects { OnOk result (objects.new ≡ with_state objects.old
        (changed_at h (map_channel channel number) objects.old.stored.state)) }
    ensures lent { IfOk result (λ m. HasLent h channel number m.loan flights.old flights.new) }
    ensures entered { IfOk result (λ m. m.entered ≡ told_of m.loan) }
    ensures answer { IfOk result (λ m. m.answer ≡ told_of m.loan) }
    ensures objects_kept { OnErr result (objects.new ≡ objects.old) }
    ensures flights_kept { OnErr result (flights.new ≡ flights.old) }
{
    let Ok(mapping) = lend_channel(flights, alloc, h, channel, number) else {
        return Err(NoMemory);
    };
    let Ok(()) = objects.map_channel(h, channel, number) else {
        flights.end_loan(h, channel);
        return Err(NoMemory);
    };
    Ok(mapping)
}

impl Parts {
    /// Maps a channel of a frame, as a call to which no refusal applies (ANARI 1.0 Specification,
    /// Frame: mapping), and enters it. The channel is lent under the place of the entry. The reply
    /// is handed out, and what is lent. There is a place for the call in the journal.
    ///
    /// # Errors
    /// `NoMemory`; nothing has changed.
    pub(crate) fn enter_map(
        &mut self,
        alloc: Global,
        actor: u32,
        h: Handle,
        channel: Channel,
    ) -> Result<(Reply, MappedFrame), NoMemory>
        requires all_told { self.old.objects.dead ≡ [] }
        requires stands { IsStanding self.old }
        requires home { AreHome self.old.flights.future }
        requires place { length self.old.history + length self.old.flights.future.flights + 1
            < self.old.room }
        requires granted { refusal (after self.old.history) (MapFrame h channel) ≡ None }
        ensures entered { IfOk result
            (λ r. HasEntered actor (MapFrame h channel) r.0 self.old self.new) }
        ensures answered { IfOk result
            (λ r. answer (after self.old.history) (MapFrame h channel) ≡ Some r.0) }
        ensures mapped { IfOk result (λ r. HasMapped h channel r.1 self.old self.new) }
        ensures told { IfOk result (λ r. r.0 ≡ told_of r.1) }
        ensures stands { IsStanding self.new }
        ensures home { AreHome self.new.flights.future }
        ensures err { OnErr result (self.new ≡ self.old) }
    {
        // Its clause tells the proof what always holds of the frames.
        self.flights.frames().are_kept();
        let number = self.entries() + 1;
        let Mapping {
            loan,
            entered,
            answer,
        } = map_channel(
            &mut self.objects,
            &mut self.flights,
            alloc,
            h,
            channel,
            number,
        )?;
        self.objects.store().counts_its_objects();
        self.journal.push_reserved(Entry::Called {
            actor,
            call: Call::MapFrame { h, channel },
            reply: entered,
        });
        bury(&mut self.objects, &mut self.flights, &mut self.worlds);
        self.objects.store().counts_its_objects();
        Ok((answer, loan))
    }

    /// Maps a channel of a frame, as a call to which no refusal applies, and enters it, as
    /// `enter_map`.
    ///
    /// # Errors
    /// `NoMemory`; nothing has changed but for the room.
    pub(crate) fn map(
        &mut self,
        alloc: Global,
        actor: u32,
        h: Handle,
        channel: Channel,
    ) -> Result<(Reply, MappedFrame), NoMemory>
        requires all_told { self.old.objects.dead ≡ [] }
        requires stands { IsStanding self.old }
        requires home { AreHome self.old.flights.future }
        requires granted { refusal (after self.old.history) (MapFrame h channel) ≡ None }
        ensures entered { IfOk result
            (λ r. HasEntered actor (MapFrame h channel) r.0 self.old self.new) }
        ensures answered { IfOk result
            (λ r. answer (after self.old.history) (MapFrame h channel) ≡ Some r.0) }
        ensures mapped { IfOk result (λ r. HasMapped h channel r.1 self.old self.new) }
        ensures told { IfOk result (λ r. r.0 ≡ told_of r.1) }
        ensures stands { IsStanding self.new }
        ensures home { AreHome self.new.flights.future }
        ensures err { OnErr result (HasRoomMade self.old self.new) }
    {
        self.make_places(1)?;
        self.enter_map(alloc, actor, h, channel)
    }
}
