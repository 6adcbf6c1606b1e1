//! Loans of frames' channels that end.
ghost use Rattle.std.specs.Prelude.{◌≡◌, ◌+◌, ◌<◌, ◌++◌, ◌∷◌, [], IfNone, IfSome, None, Some, length};
ghost use Rattle.dev_types.specs.declared.handles.Channel.{Channel as Channels};
ghost use Rattle.seq_model.specs.Legal.{Legal};
ghost use Rattle.seq_model.specs.Refusals.{mapped_at, refusal};
ghost use Rattle.seq_model.specs.Steps.{after};
ghost use Rattle.seq_model.specs.declared.calls.Call.TheVariants.{UnmapFrame};
ghost use Rattle.seq_model.specs.declared.calls.Entry.TheVariants.{Called};
ghost use Rattle.seq_model.specs.declared.calls.Reply.TheVariants as reply;
ghost use Rattle.frame_future.specs.Future.{AreHome};
ghost use Rattle.device_laws.specs.Lent.{loan_in};
ghost use Rattle.device_parts.specs.Calls.{HasEntered};
ghost use Rattle.device_parts.specs.Standing.{IsStanding};
ghost use Rattle.device_parts.specs.Unmaps.{HasUnmapped};

use crate::burials::bury;
use crate::parts::Parts;
use dev_types::{Channel, Handle};
use seq_model::{Call, Entry, Reply};

impl Parts {
    /// Ends the loan with this number of a frame's channel, which is out. There is a place for the call
    /// in the journal. Takes no memory.
    pub(crate) fn enter_unmap(&mut self, actor: u32, h: Handle, number: u64)
        requires all_told { self.old.objects.dead ≡ [] }
        requires stands { IsStanding self.old }
        requires home { AreHome self.old.flights.future }
        requires place { length self.old.history + length self.old.flights.future.flights + 1
            < self.old.room }
        requires out { refusal (after self.old.history) (UnmapFrame h number) ≡ None }
        requires legal { Legal (self.old.history
            ++ Called actor (UnmapFrame h number) reply.Done ∷ []) }
        ensures entered { HasEntered actor (UnmapFrame h number) reply.Done self.old self.new }
        ensures flights { HasUnmapped h number self.old self.new }
        ensures stands { IsStanding self.new }
        ensures home { AreHome self.new.flights.future }
    {
        // Its clause tells the proof what always holds of the frames.
        self.flights.frames().are_kept();
        let Some(channel) = self.channel_under(h, number) else {
            unreachable!();
        };
        self.objects.unmap_channel(h, number);
        self.objects.store().counts_its_objects();
        self.flights.end_loan(h, channel);
        self.journal.push_reserved(Entry::Called {
            actor,
            call: Call::UnmapFrame { h, number },
            reply: Reply::Done,
        });
        bury(&mut self.objects, &mut self.flights, &mut self.worlds);
        self.objects.store().counts_its_objects();
    }

    /// The channel of a frame that is lent under this number.
    fn channel_under(&self, h: Handle, number: u64) -> Option<Channel>
        ensures some { IfSome result (λ c. loan_in (mapped_at (after self.now.history) h) c
            ≡ Some number) }
        ensures none { IfNone result ((c : Channels)
            → loan_in (mapped_at (after self.now.history) h) c ≡ Some number → ⊥) }
    {
        match self.objects.store().channels(h) {
            Some(channels) => channel_under(channels, number),
            None => None,
        }
    }
}

/// The number under which a channel is lent, if it is.
fn loan_in(channels: &[(Channel, u64)], channel: Channel) -> Option<u64>
    ensures { result ≡ loan_in channels.now channel }
{
    let lent = channels
        .iter()
        .find(|lent| lent.0.name() == channel.name())?;
    Some(lent.1)
}

/// The channel that is lent under this number, if one is.
fn channel_under(channels: &[(Channel, u64)], number: u64) -> Option<Channel>
    ensures some { IfSome result (λ c. loan_in channels.now c ≡ Some number) }
    ensures none { IfNone result ((c : Channels) → loan_in channels.now c ≡ Some number → ⊥) }
{
    if loan_in(channels, Channel::Color) == Some(number) {
        return Some(Channel::Color);
    }
    if loan_in(channels, Channel::PrimitiveId) == Some(number) {
        return Some(Channel::PrimitiveId);
    }
    if loan_in(channels, Channel::ObjectId) == Some(number) {
        return Some(Channel::ObjectId);
    }
    if loan_in(channels, Channel::InstanceId) == Some(number) {
        return Some(Channel::InstanceId);
    }
    None
}
