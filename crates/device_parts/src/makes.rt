//! Calls of all kinds: each is refused or carried out, and entered.
ghost use Rattle.std.specs.Prelude.{◌≡◌, ◌<◌, ◌≤◌, ◌+◌, ◌^◌, [], IfErr, IfOk, IsOk, IsSome, OnErr, Some, false, length, true};
ghost use Rattle.std.specs.Option.{option_map};
ghost use Rattle.call_answers.specs.Plain.{needs_no_memory};
ghost use Rattle.frame_future.specs.Future.{AreHome};
ghost use Rattle.object_steps.specs.Applying.{tells_of_flights};
ghost use Rattle.object_steps.specs.Carrying.{handed};
ghost use Rattle.seq_model.specs.Answers.{answer};
ghost use Rattle.seq_model.specs.Contents.{entered};
ghost use Rattle.seq_model.specs.Steps.{after};
ghost use Rattle.device_parts.specs.Calls.{AreMoved, HasEntered, HasRoomMade, move_of};
ghost use Rattle.device_parts.specs.Looks.{AreShort};
ghost use Rattle.device_parts.specs.Makes.{Hands, IsMoved, LeavesFrame, LendsChannel, array_of, begun_by, frame_left, frame_of, told_as};
ghost use Rattle.device_parts.specs.Standing.{IsStanding};

use crate::handed::{Handed, frame_left, joined, lent_out, parted};
use crate::parts::Parts;
use dev_types::NoMemory;
use seq_model::{Call, Reply};
use std::alloc::Global;

impl Parts {
    /// Makes a call of any kind: it is refused or carried out, and entered; what it touched of kept
    /// worlds is dropped, and what nothing holds any more dies. Its reply is handed out, which tells
    /// of a flight what the last look at it read, with the loan of a map, or with that of an unmap
    /// which is refused. It does not wait for a flight.
    ///
    /// # Errors
    /// `NoMemory`; the call and the loan come back, and nothing has changed but for the room. Retain,
    /// release, a question whether a frame is ready, a discard and the unmap of a frame's channel
    /// never answer it where the journal has a place for the call.
    pub fn make(
        &mut self,
        alloc: Global,
        actor: u32,
        call: Call,
        with: Handed,
    ) -> Result<(Reply, Handed), (NoMemory, Call, Handed)>
        requires all_told { self.old.objects.dead ≡ [] }
        requires stands { IsStanding self.old }
        requires home { AreHome self.old.flights.future }
        requires looked { AreShort self.old.flights.future }
        requires short { length self.old.history < 2 ^ 63 }
        requires awake { IsSome (answer (after self.old.history)
            (entered (after self.old.history) call)) }
        requires hands { Hands call with }
        ensures entered { IfOk result (λ r. HasEntered actor (entered (after self.old.history) call)
            r.0 self.old self.new) }
        ensures answered { IfOk result (λ r. option_map (told_as self.old.flights.future call)
            (answer (after self.old.history) (entered (after self.old.history) call)) ≡ Some r.0) }
        ensures moved { IfOk result (λ r. IsMoved (entered (after self.old.history) call) r.0
            (frame_of r.1) self.old self.new) }
        ensures lends { IfOk result (λ r. LendsChannel (length self.old.history + 1)
            (entered (after self.old.history) call) r.0 (frame_of r.1)) }
        ensures flights { IfOk result (λ r. length self.new.flights.future.flights
            ≡ length self.old.flights.future.flights + begun_by call r.0) }
        ensures room { IfOk result (λ r. self.old.room + begun_by call r.0 ≤ self.new.room) }
        ensures stands { IsStanding self.new }
        ensures home { AreHome self.new.flights.future }
        ensures array { IfOk result (λ r. array_of r.1 ≡ handed (length self.old.history + 1)
            (entered (after self.old.history) call) r.0 self.old.objects.stored.state
            (array_of with)) }
        ensures frame { IfOk result (λ r. LeavesFrame call r.0 (frame_of with) (frame_of r.1)) }
        ensures returned { IfErr result (λ e. (e.1 ≡ call) × (e.2 ≡ with)) }
        ensures err { OnErr result (HasRoomMade self.old self.new) }
        ensures no_memory { needs_no_memory call ≡ true
            → length self.old.history + length self.old.flights.future.flights + 1 < self.old.room
            → IsOk result }
    {
        match call {
            Call::RenderFrame { h } => match self.render_or_refuse(alloc, actor, h) {
                Ok(reply) => Ok((reply, with)),
                Err(none) => Err((none, Call::RenderFrame { h }, with)),
            },
            Call::FrameReady { h, wait } => match self.ready(alloc, actor, h, wait) {
                Ok(reply) => Ok((reply, with)),
                Err(none) => Err((none, Call::FrameReady { h, wait }, with)),
            },
            Call::MapFrame { h, channel } => match self.map_or_refuse(alloc, actor, h, channel) {
                Ok((reply, loan)) => Ok((reply, lent_out(with, loan))),
                Err(none) => Err((none, Call::MapFrame { h, channel }, with)),
            },
            call => self.make_plain(alloc, actor, call, with),
        }
    }

    /// Makes a call that tells of no flight, as [`Parts::call`], with any loan.
    fn make_plain(
        &mut self,
        alloc: Global,
        actor: u32,
        call: Call,
        with: Handed,
    ) -> Result<(Reply, Handed), (NoMemory, Call, Handed)>
        requires all_told { self.old.objects.dead ≡ [] }
        requires stands { IsStanding self.old }
        requires home { AreHome self.old.flights.future }
        requires short { length self.old.history < 2 ^ 63 }
        requires quiet { tells_of_flights call ≡ false }
        requires hands { Hands call with }
        ensures entered { IfOk result (λ r. HasEntered actor (entered (after self.old.history) call)
            r.0 self.old self.new) }
        ensures answered { IfOk result (λ r. answer (after self.old.history)
            (entered (after self.old.history) call) ≡ Some r.0) }
        ensures moved { IfOk result (λ r. AreMoved (move_of (entered (after self.old.history) call)
            r.0) self.old self.new) }
        ensures stands { IsStanding self.new }
        ensures home { AreHome self.new.flights.future }
        ensures array { IfOk result (λ r. array_of r.1 ≡ handed (length self.old.history + 1)
            (entered (after self.old.history) call) r.0 self.old.objects.stored.state
            (array_of with)) }
        ensures frame { IfOk result (λ r. frame_of r.1 ≡ frame_left r.0 (frame_of with)) }
        ensures returned { IfErr result (λ e. (e.1 ≡ call) × (e.2 ≡ with)) }
        ensures err { OnErr result (HasRoomMade self.old self.new) }
        ensures no_memory { needs_no_memory call ≡ true
            → length self.old.history + length self.old.flights.future.flights + 1 < self.old.room
            → IsOk result }
    {
        let (array, frame) = parted(with);
        match self.call(alloc, actor, call, array) {
            Ok((reply, out)) => {
                let left = frame_left(&reply, frame);
                Ok((reply, joined(out, left)))
            }
            Err((none, call, array)) => Err((none, call, joined(array, frame))),
        }
    }
}
