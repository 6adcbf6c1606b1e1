//! Sweeps: each flight is looked at, and those that ended are noted.
ghost use Rattle.std.specs.Prelude.{◌≡◌, ◌+◌, ◌++◌, ◌≤◌, [], List, length};
ghost use Rattle.std.specs.List.{filter_map};
ghost use Rattle.dev_types.specs.declared.notices.Notice.{Notice as Notices};
ghost use Rattle.frame_future.specs.Future.{AreHome};
ghost use Rattle.object_store.specs.Ends.{notice_of};
ghost use Rattle.object_steps.specs.Objects.{tellable};
ghost use Rattle.seq_model.specs.Told.{told};
ghost use Rattle.device_parts.specs.Deaths.{all_told, untold};
ghost use Rattle.device_parts.specs.Looks.{AreShort};
ghost use Rattle.device_parts.specs.Standing.{IsStanding};
ghost use Rattle.device_parts.specs.Sweeps.{HasSwept};

use crate::parts::Parts;
use dev_types::Client;

impl Parts {
    /// Tells the client of the ends of those that died with the last entry. Takes no memory.
    pub fn tell<C: Client>(&mut self, client: &mut C)
        requires { untold self.old.objects ≤ C.spare client.old }
        ensures none { self.new ≡ all_told self.old }
        ensures told { C.notices client.new ≡ C.notices client.old
            ++ filter_map notice_of self.old.objects.dead }
        ensures room { C.spare client.old ≤ C.spare client.new + untold self.old.objects }
    {
        self.objects.tell(client);
    }

    /// Looks once at each flight, by rising ticket, and notes those that ended by it; the client is
    /// told who died with a note before the next one is made. Each note takes the place of its flight,
    /// and what the client has beyond the ends that it is still to be told is no less. Takes no memory.
    pub fn sweep<C: Client>(&mut self, client: &mut C)
        requires home { AreHome self.old.flights.future }
        requires all_told { self.old.objects.dead ≡ [] }
        requires spare { tellable self.old.objects.stored.state ≤ C.spare client.old }
        ensures home { AreHome self.new.flights.future }
        ensures all_told { self.new.objects.dead ≡ [] }
        ensures spare { tellable self.new.objects.stored.state ≤ C.spare client.new }
        ensures swept { HasSwept self.old self.new }
        ensures places { length self.new.history + length self.new.flights.future.flights
            ≡ length self.old.history + length self.old.flights.future.flights }
        ensures told { (before : List Notices)
            → C.notices client.old ≡ before ++ told self.old.history
            → C.notices client.new ≡ before ++ told self.new.history }
        ensures room { C.spare client.old + length (C.notices client.old)
            ≤ C.spare client.new + length (C.notices client.new) }
        ensures left { C.spare client.old + tellable self.new.objects.stored.state
            ≤ C.spare client.new + tellable self.old.objects.stored.state }
        ensures fewer { tellable self.new.objects.stored.state
            ≤ tellable self.old.objects.stored.state }
        ensures short { AreShort self.new.flights.future }
        ensures stands { IsStanding self.old → IsStanding self.new }
    {
        // Its clause tells the proof what always holds of the flights.
        let _flights = self.flights.frames();
        let mut last = 0;
        while let Some(ticket) = self.note_next(last) {
            last = ticket;
            self.tell(client);
        }
    }
}
