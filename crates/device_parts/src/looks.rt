//! Replies that tell of a flight what the last look at it read.
ghost use Rattle.std.specs.Prelude.{◌≡◌, ◌+◌, ◌<◌, [], IfErr, IfOk, IsOk, OnErr, OnOk, Some, length, true};
ghost use Rattle.answered_calls.specs.Tells.{with_given};
ghost use Rattle.call_answers.specs.Plain.{needs_no_memory};
ghost use Rattle.flight_books.specs.Kept.{with_future};
ghost use Rattle.frame_future.specs.Future.{AreHome};
ghost use Rattle.object_steps.specs.Applying.{tells_of_flights};
ghost use Rattle.object_steps.specs.Resting.{IsOfObjects};
ghost use Rattle.seq_model.specs.Answers.{answer};
ghost use Rattle.seq_model.specs.Steps.{after};
ghost use Rattle.seq_model.specs.Told.{source_of};
ghost use Rattle.device_laws.specs.FramesStand.{without_pictures};
ghost use Rattle.device_parts.specs.Calls.{HasEntered, HasRoomMade};
ghost use Rattle.device_parts.specs.Looks.{AreShort, given_of};
ghost use Rattle.device_parts.specs.Standing.{IsStanding};

use crate::parts::Parts;
use crate::replies::share;
use answered_calls::{source_of, with_given};
use dev_types::{Handle, NoMemory};
use frame_future::Phase;
use object_steps::ArrayLoan;
use seq_model::{Call, Reply};
use std::alloc::Global;

impl Parts {
    /// How many tiles of the frame's flight the last look read as given; none where it is in no
    /// flight.
    fn given(&self, frame: Handle) -> u64
        ensures { result ≡ given_of self.now.flights.future frame }
    {
        // Its clause tells the proof what always holds of the flights.
        self.flights.frames().are_kept();
        match self.flights.frames().phase_of(frame) {
            Phase::Flight(ticket) => self.flights.frames().last_look(ticket).0,
            _ => 0,
        }
    }

    /// Enters a call that may tell of a flight and changes nothing: it asks whether a frame is ready,
    /// or is a render or a map that is refused. `answered` is the reply where no tile was seen given;
    /// it is handed out and entered with what the last look at the flight read.
    ///
    /// # Errors
    /// `NoMemory`; the call comes back, and nothing has changed but for the room.
    pub(crate) fn enter_told(
        &mut self,
        alloc: Global,
        actor: u32,
        call: Call,
        answered: Reply,
    ) -> Result<Reply, (NoMemory, Call)>
        requires all_told { self.old.objects.dead ≡ [] }
        requires stands { IsStanding self.old }
        requires short { AreShort self.old.flights.future }
        requires tells { tells_of_flights call ≡ true }
        requires changes_nothing { IsOfObjects call answered }
        requires answered { answer (after self.old.history) call ≡ Some answered }
        ensures entered { IfOk result (λ r. HasEntered actor call r self.old self.new) }
        ensures told { IfOk result (λ r. r
            ≡ with_given (given_of self.old.flights.future (source_of call)) answered) }
        ensures frames { OnOk result (self.new.flights ≡ with_future self.old.flights
            (without_pictures self.old.flights.future self.new.objects.departed)) }
        ensures stands { IsStanding self.new }
        ensures home { AreHome self.old.flights.future → AreHome self.new.flights.future }
        ensures returned { IfErr result (λ e. e.1 ≡ call) }
        ensures err { OnErr result (HasRoomMade self.old self.new) }
        ensures no_memory { needs_no_memory call ≡ true
            → length self.old.history + length self.old.flights.future.flights + 1 < self.old.room
            → IsOk result }
    {
        // Their clauses tell the proof what always holds of the parts and of the flights.
        self.are_parts();
        self.flights.frames().are_kept();
        let reply = with_given(answered, self.given(source_of(&call)));
        let Ok(answer) = share(alloc, &reply) else {
            return Err((NoMemory, call));
        };
        let Ok(()) = self.make_places(1) else {
            return Err((NoMemory, call));
        };
        match self.enter_call(alloc, actor, call, reply, ArrayLoan::Nothing) {
            Ok(out) => {
                out.give_up();
                Ok(answer)
            }
            Err((none, call, with)) => {
                with.give_up();
                Err((none, call))
            }
        }
    }
}
