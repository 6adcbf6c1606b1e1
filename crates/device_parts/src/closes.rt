//! The close, with which a device ends.
ghost use Rattle.std.specs.Prelude.{◌≡◌, ◌++◌, ◌∷◌, ◌≤◌, [], List};
ghost use Rattle.dev_types.specs.declared.notices.Notice.{Notice as Notices};
ghost use Rattle.object_steps.specs.Objects.{tellable};
ghost use Rattle.seq_model.specs.Builds.{builds};
ghost use Rattle.seq_model.specs.Legal.{Legal};
ghost use Rattle.seq_model.specs.Told.{told};
ghost use Rattle.seq_model.specs.declared.calls.Entry.TheVariants.{Closed};

use crate::parts::Parts;
use dev_types::Client;
use seq_model::Entry;

impl Parts {
    /// Closes the device, in which no flight is left: all objects end, and the client is told of their
    /// ends by rising handle. What comes back is all that happened, with the close as the last entry,
    /// and how many worlds were prepared. Takes no memory.
    pub fn close<C: Client>(self, client: &mut C) -> (Vec<Entry>, u64)
        requires landed { self.flights.future.flights ≡ [] }
        requires all_told { self.objects.dead ≡ [] }
        requires spare { tellable self.objects.stored.state ≤ C.spare client.old }
        ensures history { result.0.items ≡ self.history ++ Closed ∷ [] }
        ensures legal { Legal result.0.items }
        ensures builds { result.1 ≡ builds result.0.items }
        ensures told { (before : List Notices)
            → C.notices client.old ≡ before ++ told self.history
            → C.notices client.new ≡ before ++ told result.0.items }
    {
        let Parts {
            objects,
            flights: _,
            worlds: _,
            mut journal,
            builds,
        } = self;
        objects.close(client);
        journal.push_reserved(Entry::Closed);
        (journal.into_entries(), builds)
    }
}
