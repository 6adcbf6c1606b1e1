//! What frames show, their mapped channels, and the flights that were stopped.
ghost use Rattle.std.specs.Prelude.{◌≡◌, ◌==◌, ◌+◌, ◌<◌, ◌≤◌, IsOk, IsSome, OnErr, OnOk, length, not};
ghost use Rattle.std.specs.List.{filter};
ghost use Rattle.object_store.specs.Phases.{phase_of};
ghost use Rattle.seq_model.specs.State.{changed_at, object_at};
ghost use Rattle.seq_model.specs.Steps.{discard, map_channel, set_phase, unmap_channel};
ghost use Rattle.object_steps.specs.Objects.{with_places, with_state};

use crate::objects::ObjectStore;
use dev_types::{Channel, Handle, NoMemory};
use object_store::slots::Shows;

impl ObjectStore {
    /// Lets a frame, which is there, show something else.
    pub fn show(&mut self, h: Handle, shows: Shows)
        requires { IsSome (object_at self.old.stored.state h) }
        ensures { self.new ≡ with_state self.old
            (changed_at h (set_phase (phase_of shows)) self.old.stored.state) }
    {
        self.store.show(h, shows);
    }

    /// Maps a channel of a frame, which is there, under a number.
    ///
    /// # Errors
    /// `NoMemory`; all is then as it was.
    pub fn map_channel(&mut self, h: Handle, channel: Channel, number: u64) -> Result<(), NoMemory>
        requires { IsSome (object_at self.old.stored.state h) }
        ensures ok { OnOk result (self.new ≡ with_state self.old
            (changed_at h (map_channel channel number) self.old.stored.state)) }
        ensures err { OnErr result (self.new ≡ self.old) }
    {
        self.store.map_channel(h, channel, number)
    }

    /// The channels of a frame, which is there, that were mapped under a number are mapped no more.
    pub fn unmap_channel(&mut self, h: Handle, number: u64)
        requires { IsSome (object_at self.old.stored.state h) }
        ensures { self.new ≡ with_state self.old
            (changed_at h (unmap_channel number) self.old.stored.state) }
    {
        self.store.unmap_channel(h, number);
    }

    /// Makes room for `more` stopped flights beside those that are there.
    ///
    /// # Errors
    /// `NoMemory`; all is then as it was, but for the room.
    pub fn make_places(&mut self, more: usize) -> Result<(), NoMemory>
        ensures places { self.new ≡ with_places self.old self.new.stored.places }
        ensures room { OnOk result (length self.old.stored.state.stopped + more
            ≤ self.new.stored.places) }
        ensures grows { self.old.stored.places ≤ self.new.stored.places }
    {
        self.store.make_places(more)
    }

    /// Discards what a frame, which is there, shows, with its flight, if it is in flight.
    ///
    /// # Errors
    /// `NoMemory`; all is then as it was, but for the room.
    pub fn discard(&mut self, h: Handle) -> Result<(), NoMemory>
        requires { IsSome (object_at self.old.stored.state h) }
        ensures ok { OnOk result (self.new ≡ with_state
            (with_places self.old self.new.stored.places) (discard h self.old.stored.state)) }
        ensures had_room { length self.old.stored.state.stopped < self.old.stored.places
            → IsOk result }
        ensures grows { self.old.stored.places ≤ self.new.stored.places }
        ensures err { OnErr result (self.new ≡ with_places self.old self.new.stored.places) }
    {
        self.store.discard(h)
    }

    /// A flight that was stopped has left.
    pub fn let_leave(&mut self, ticket: u64)
        ensures { self.new ≡ with_state self.old (record self.old.stored.state {
          stopped = filter (λ u. not (u == ticket)) self.old.stored.state.stopped;
        }) }
    {
        self.store.let_leave(ticket);
    }
}
