//! Frames that are discarded.
ghost use Rattle.std.specs.Prelude.{◌≡◌, ◌+◌, ◌<◌, ◌++◌, ◌∷◌, [], IsSome, false, length};
ghost use Rattle.frame_future.specs.Future.{AreHome, is_mapped};
ghost use Rattle.seq_model.specs.Legal.{Legal};
ghost use Rattle.seq_model.specs.State.{object_at};
ghost use Rattle.seq_model.specs.declared.calls.Call.TheVariants.{DiscardFrame};
ghost use Rattle.seq_model.specs.declared.calls.Entry.TheVariants.{Called};
ghost use Rattle.seq_model.specs.declared.calls.Reply.TheVariants as reply;
ghost use Rattle.device_parts.specs.Calls.{HasEntered};
ghost use Rattle.device_parts.specs.Discards.{HasDiscarded};
ghost use Rattle.device_parts.specs.Standing.{IsStanding};

use crate::burials::bury;
use crate::parts::Parts;
use dev_types::Handle;
use seq_model::{Call, Entry, Reply};

impl Parts {
    /// Discards what a frame shows, which is there and has no mapped channel: its flight is stopped,
    /// or its picture is dropped. There is a place for the call in the journal. Takes no memory: a
    /// place among the stopped flights was made when the flight began.
    pub(crate) fn enter_discard(&mut self, actor: u32, h: Handle)
        requires all_told { self.old.objects.dead ≡ [] }
        requires stands { IsStanding self.old }
        requires home { AreHome self.old.flights.future }
        requires place { length self.old.history + length self.old.flights.future.flights + 1
            < self.old.room }
        requires there { IsSome (object_at self.old.objects.stored.state h) }
        requires unmapped { is_mapped self.old.flights.future h ≡ false }
        requires legal { Legal (self.old.history ++ Called actor (DiscardFrame h) reply.Done ∷ []) }
        ensures entered { HasEntered actor (DiscardFrame h) reply.Done self.old self.new }
        ensures flights { HasDiscarded h self.old self.new }
        ensures stands { IsStanding self.new }
        ensures home { AreHome self.new.flights.future }
    {
        self.objects.store().counts_its_objects();
        // Its clause tells the proof what always holds of the frames.
        self.flights.frames().are_kept();
        let Ok(()) = self.objects.discard(h) else {
            unreachable!();
        };
        self.objects.store().counts_its_objects();
        self.flights.discard(h);
        self.journal.push_reserved(Entry::Called {
            actor,
            call: Call::DiscardFrame { h },
            reply: Reply::Done,
        });
        bury(&mut self.objects, &mut self.flights, &mut self.worlds);
        self.objects.store().counts_its_objects();
    }
}
