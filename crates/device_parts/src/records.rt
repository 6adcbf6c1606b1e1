//! What the parts of a device tell of what happened, to whoever asks why a call is refused.
ghost use Rattle.std.specs.Prelude.{◌≡◌, ◌<◌, ◌+◌, ◌^◌, ◌++◌, ◌∷◌, [], IfSome, IsSome, Some, length};
ghost use Rattle.std.specs.Option.{option_map};
ghost use Rattle.flight_books.specs.Kept.{AreBooks};
ghost use Rattle.frame_future.specs.Future.{IsKept, asked_by, flight_of};
ghost use Rattle.object_steps.specs.Objects.{tellable};
ghost use Rattle.seq_model.specs.Histories.{History};
ghost use Rattle.seq_model.specs.Pictures.{tiles_at};
ghost use Rattle.seq_model.specs.declared.calls.Entry.{Entry as Entries};
ghost use Rattle.device_parts.specs.AllParts.{AreParts};
ghost use Rattle.device_parts.specs.Standing.{IsStanding};

use crate::parts::Parts;
use call_answers::Shown;
use dev_types::Handle;
use frame_future::Phase;
use object_steps::Records;
use object_store::slots::Shows;
use seq_model::Entry;
use std::marker::Model;

/// The parts of a device whose end has not begun.
#[derive(Drop)]
pub(crate) struct Recorded<'a> {
    parts: &'a Parts,
}

impl<'a> Model for Recorded<'a> {
    ghost use Rattle.device_parts.specs.AllParts.{AreParts, Inside as Insides};
    ghost use Rattle.device_parts.specs.Standing.{IsStanding};

    ghost Value = { Insides };

    ghost view = { λ r. r.parts.now };

    ghost invariant = { λ r. AreParts r.parts.now × IsStanding r.parts.now };
}

impl<'a> Recorded<'a> {
    /// The parts, as they are asked.
    pub(crate) fn new(parts: &'a Parts) -> Recorded<'a>
        requires { IsStanding parts.now }
        ensures { result ≡ parts.now }
    {
        parts.are_parts();
        Recorded { parts }
    }
}

impl Records for Recorded<'_> {
    ghost history = { λ r. r.history };

    fn place(&self) -> u64 {
        self.parts.entries() + 1
    }

    fn shown(&self, h: Handle, shows: Shows) -> Shown {
        match shows {
            Shows::Nothing => Shown::Nothing,
            Shows::Flight(ticket) => Shown::Flight {
                ticket,
                tiles: self.parts.tiles(h),
            },
            Shows::Picture(ticket) => Shown::Picture {
                ticket,
                asked: self.parts.asked(h),
            },
        }
    }
}

impl Parts {
    /// What always holds of the parts of a device.
    pub fn are_parts(&self)
        ensures { AreParts self.now }
    {
        let _objects = &self.objects;
    }

    /// What always holds of the flights, and of what is kept with each.
    pub fn flights_are_booked(&self)
        ensures books { AreBooks self.now.flights }
        ensures kept { IsKept self.now.flights.future }
    {
        self.flights.frames().are_kept();
    }

    /// Of how many ends the client is to be told: how many arrays there are whose memory the
    /// application gave.
    pub fn tellable(&self) -> usize
        ensures { result ≡ tellable self.now.objects.stored.state }
    {
        self.objects.tellable()
    }

    /// The last entry of the journal, if there is one.
    pub fn last_entry(&self) -> Option<&Entry>
        ensures { (before : History) (e : Entries) → self.now.history ≡ before ++ e ∷ []
            → option_map (λ r. r.now) result ≡ Some e }
    {
        self.journal.last()
    }

    /// How many entries the journal has. There is room for more.
    pub fn entries(&self) -> u64
        ensures count { result ≡ length self.now.history }
        ensures more { result < self.now.room }
        ensures fits { result + 1 < 2 ^ 64 }
    {
        self.journal.len() as u64
    }

    /// Which channels a frame asked for when its picture was rendered, in the order of `Channel`; none
    /// where it has no picture.
    fn asked(&self, frame: Handle) -> [bool; 4]
        ensures { result ≡ asked_by self.now.flights.future frame }
    {
        self.flights.frames().asked(frame)
    }

    /// In how many tiles the flight of a frame is rendered.
    fn tiles(&self, frame: Handle) -> u64
        requires stands { IsStanding self.now }
        requires flies { IsSome (flight_of self.now.flights.future frame) }
        ensures { IfSome (flight_of self.now.flights.future frame)
            (λ f. result ≡ tiles_at self.now.history f.ticket) }
    {
        let frames = self.flights.frames();
        let Phase::Flight(ticket) = frames.phase_of(frame) else {
            unreachable!();
        };
        frames.last_look(ticket).1
    }
}
