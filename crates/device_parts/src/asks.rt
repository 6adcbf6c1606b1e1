//! Calls that may tell of a flight: whether a frame is ready, renders, and maps of its channels.
ghost use Rattle.std.specs.Prelude.{◌≡◌, ◌+◌, ◌<◌, ◌≤◌, [], IfOk, IsOk, IsSome, OnErr, OnOk, Some, length, true};
ghost use Rattle.answered_calls.specs.Tells.{with_given};
ghost use Rattle.call_answers.specs.Plain.{ShowsNoPicture, needs_no_memory};
ghost use Rattle.std.specs.Option.{option_map};
ghost use Rattle.flight_books.specs.Kept.{with_future};
ghost use Rattle.frame_future.specs.Future.{AreHome};
ghost use Rattle.seq_model.specs.Answers.{answer};
ghost use Rattle.seq_model.specs.Refusals.{refusal};
ghost use Rattle.seq_model.specs.Steps.{after};
ghost use Rattle.seq_model.specs.declared.calls.Call.TheVariants.{FrameReady, MapFrame, RenderFrame};
ghost use Rattle.seq_model.specs.declared.calls.Reply.TheVariants as reply;
ghost use Rattle.device_laws.specs.FramesStand.{without_pictures};
ghost use Rattle.device_parts.specs.Asks.{HasMappedOrStayed, HasRendered};
ghost use Rattle.device_parts.specs.Calls.{HasEntered, HasRoomMade};
ghost use Rattle.device_parts.specs.Looks.{AreShort, given_of};
ghost use Rattle.device_parts.specs.Maps.{TellsLoan};
ghost use Rattle.device_parts.specs.Standing.{IsStanding};

use crate::parts::Parts;
use crate::records::Recorded;
use call_answers::frames::refusal_of_map_frame;
use call_answers::replies::answer;
use dev_types::{Channel, Handle, NoMemory, Refused};
use frame_future::MappedFrame;
use object_steps::AtRest;
use seq_model::{Call, Reply};
use std::alloc::Global;

impl Parts {
    /// Tells whether a frame is ready (ANARI 1.0 Specification, rendering frames), and enters that: a
    /// frame in flight is not, by what the last look at its flight read. It is not asked to wait for
    /// a flight.
    ///
    /// # Errors
    /// `NoMemory`; nothing has changed but for the room.
    pub(crate) fn ready(
        &mut self,
        alloc: Global,
        actor: u32,
        h: Handle,
        wait: bool,
    ) -> Result<Reply, NoMemory>
        requires all_told { self.old.objects.dead ≡ [] }
        requires stands { IsStanding self.old }
        requires short { AreShort self.old.flights.future }
        requires awake { IsSome (answer (after self.old.history) (FrameReady h wait)) }
        ensures entered { IfOk result (λ r. HasEntered actor (FrameReady h wait) r self.old self.new) }
        ensures answered { IfOk result (λ r. option_map
            (with_given (given_of self.old.flights.future h))
            (answer (after self.old.history) (FrameReady h wait)) ≡ Some r) }
        ensures frames { OnOk result (self.new.flights ≡ with_future self.old.flights
            (without_pictures self.old.flights.future self.new.objects.departed)) }
        ensures stands { IsStanding self.new }
        ensures home { AreHome self.old.flights.future → AreHome self.new.flights.future }
        ensures err { OnErr result (HasRoomMade self.old self.new) }
        ensures no_memory { length self.old.history + length self.old.flights.future.flights + 1
            < self.old.room → IsOk result }
    {
        let call = Call::FrameReady { h, wait };
        let answered = self.readiness(alloc, &call)?;
        match self.enter_told(alloc, actor, call, answered) {
            Ok(reply) => Ok(reply),
            Err((none, _)) => Err(none),
        }
    }

    /// Whether a frame is ready, where no tile of a flight was seen given. The only error is want of
    /// memory.
    fn readiness(&self, alloc: Global, call: &Call) -> Result<Reply, NoMemory>
        requires stands { IsStanding self.now }
        requires pictureless { ShowsNoPicture call.now }
        requires awake { IsSome (answer (after self.now.history) call.now) }
        ensures answered { IfOk result (λ r. answer (after self.now.history) call.now ≡ Some r) }
        ensures no_memory { needs_no_memory call.now ≡ true → IsOk result }
    {
        self.are_parts();
        let recorded = Recorded::new(self);
        let device = AtRest::new(self.objects.store(), &recorded);
        answer(&device, alloc, call)
    }

    /// Renders a frame (ANARI 1.0 Specification, rendering frames), or refuses that, and enters it: a
    /// frame in flight is not rendered, by what the last look at its flight read.
    ///
    /// # Errors
    /// `NoMemory`; nothing has changed but for the room.
    pub(crate) fn render_or_refuse(
        &mut self,
        alloc: Global,
        actor: u32,
        frame: Handle,
    ) -> Result<Reply, NoMemory>
        requires all_told { self.old.objects.dead ≡ [] }
        requires stands { IsStanding self.old }
        requires short { AreShort self.old.flights.future }
        ensures entered { IfOk result (λ r. HasEntered actor (RenderFrame frame) r self.old self.new) }
        ensures answered { IfOk result (λ r. option_map
            (with_given (given_of self.old.flights.future frame))
            (answer (after self.old.history) (RenderFrame frame)) ≡ Some r) }
        ensures frames { IfOk result (λ r. HasRendered frame r self.old self.new) }
        ensures note_place { IfOk result (λ r. r ≡ reply.Done → self.old.room + 1 ≤ self.new.room) }
        ensures stands { IsStanding self.new }
        ensures home { AreHome self.old.flights.future → AreHome self.new.flights.future }
        ensures err { OnErr result (HasRoomMade self.old self.new) }
    {
        let (visits, refused) = self.refusal_of_render(alloc, frame)?;
        match refused {
            None => {
                self.render(alloc, actor, frame, &visits)?;
                Ok(Reply::Done)
            }
            Some(refused) => {
                let call = Call::RenderFrame { h: frame };
                match self.enter_told(alloc, actor, call, Reply::Denied(refused)) {
                    Ok(reply) => Ok(reply),
                    Err((none, _)) => Err(none),
                }
            }
        }
    }

    /// Maps a channel of a frame (ANARI 1.0 Specification, Frame: mapping), or refuses that, and
    /// enters it: of a frame in flight none is mapped, by what the last look at its flight read. What
    /// is lent is handed out.
    ///
    /// # Errors
    /// `NoMemory`; nothing has changed but for the room.
    pub(crate) fn map_or_refuse(
        &mut self,
        alloc: Global,
        actor: u32,
        h: Handle,
        channel: Channel,
    ) -> Result<(Reply, Option<MappedFrame>), NoMemory>
        requires all_told { self.old.objects.dead ≡ [] }
        requires stands { IsStanding self.old }
        requires home { AreHome self.old.flights.future }
        requires short { AreShort self.old.flights.future }
        ensures entered { IfOk result
            (λ r. HasEntered actor (MapFrame h channel) r.0 self.old self.new) }
        ensures answered { IfOk result (λ r. option_map
            (with_given (given_of self.old.flights.future h))
            (answer (after self.old.history) (MapFrame h channel)) ≡ Some r.0) }
        ensures frames { IfOk result (λ r. HasMappedOrStayed h channel r.1 self.old self.new) }
        ensures loan { IfOk result (λ r. TellsLoan r.1 r.0) }
        ensures stands { IsStanding self.new }
        ensures home { AreHome self.new.flights.future }
        ensures err { OnErr result (HasRoomMade self.old self.new) }
    {
        match self.refusal_of_map(h, channel) {
            None => {
                let (reply, loan) = self.map(alloc, actor, h, channel)?;
                Ok((reply, Some(loan)))
            }
            Some(refused) => {
                let call = Call::MapFrame { h, channel };
                match self.enter_told(alloc, actor, call, Reply::Denied(refused)) {
                    Ok(reply) => Ok((reply, None)),
                    Err((none, _)) => Err(none),
                }
            }
        }
    }

    /// Why a channel of a frame is not mapped, where no tile of a flight was seen given.
    fn refusal_of_map(&self, h: Handle, channel: Channel) -> Option<Refused>
        requires stands { IsStanding self.now }
        ensures { result ≡ refusal (after self.now.history) (MapFrame h channel) }
    {
        self.are_parts();
        let recorded = Recorded::new(self);
        let device = AtRest::new(self.objects.store(), &recorded);
        refusal_of_map_frame(&device, h, channel)
    }
}
