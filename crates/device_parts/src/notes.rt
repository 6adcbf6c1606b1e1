//! The notes of flights that ended.
ghost use Rattle.std.specs.Prelude.{◌≡◌, []};
ghost use Rattle.std.specs.Option.{MatchOption};
ghost use Rattle.frame_future.specs.Future.{AreHome};
ghost use Rattle.device_parts.specs.Notes.{HasNoted, HasNotedNothing};
ghost use Rattle.device_parts.specs.Standing.{IsStanding};

use crate::burials::bury;
use crate::ends::end_flight;
use crate::holds::unhold_all;
use crate::parts::Parts;
use flight_books::{Over, note_of};

impl Parts {
    /// Looks at each flight with a ticket above `after`, by rising ticket, up to the first that
    /// ends by it, and notes that: what the flight held is let go, and what nothing holds any more
    /// dies. Answers its ticket; `None` exactly where no look showed an end.
    pub fn note_next(&mut self, after: u64) -> Option<u64>
        requires home { AreHome self.old.flights.future }
        requires all_told { self.old.objects.dead ≡ [] }
        ensures home { AreHome self.new.flights.future }
        ensures noted { MatchOption result (HasNotedNothing after self.old self.new)
            (HasNoted after self.old self.new) }
        ensures stands { IsStanding self.old → IsStanding self.new }
    {
        self.flights.frames().are_kept();
        let Over { ended, cargo } = match self.flights.next_ended(after) {
            Some(over) => over,
            None => return None,
        };
        let ticket = ended.ticket;
        self.journal.push_reserved(note_of(&ended));
        end_flight(&mut self.objects, cargo.frame, &ended);
        unhold_all(&mut self.objects, cargo.kept.reach.as_slice());
        self.objects.store().counts_its_objects();
        bury(&mut self.objects, &mut self.flights, &mut self.worlds);
        self.objects.store().counts_its_objects();
        Some(ticket)
    }
}
