//! The picture of a frame that is done.
ghost use Rattle.std.specs.Prelude.{◌≡◌, ◌↔◌, IsTrue, List, ℕ, None, Some, [], ◌∷◌, IfOk, OnOk, OnErr};
ghost use Rattle.std.specs.Option.{is_some};
ghost use Rattle.std.specs.List.{list_any};
ghost use Rattle.frame_future.specs.Channels.{is_asked, loan_of};
ghost use Rattle.frame_future.specs.Future.{is_lent, lent_as, given_back, loan_from};

use crate::mapped::MappedFrame;
use crate::tiles::Tiles;
use dev_types::{Channel, Handle, NoMemory};
use std::alloc::Global;
use std::marker::Model;
use std::snapshot::Snapshot;
use std::sync::Arc;

/// The picture of a frame that is done, with the loans of its channels.
#[derive(Drop)]
pub struct Picture {
    ticket: u64,
    frame: Handle,
    channels: [bool; 4],
    loans: [Option<u64>; 4],
    // Its tiles, until its first channel is mapped; from then on they are shared with what is mapped.
    own: Option<Tiles>,
    shared: Option<Arc<Tiles>>,
    of: Snapshot<Tiles>,
}

impl Model for Picture {
    ghost use Rattle.std.specs.Prelude.{◌≡◌, length};
    ghost use Rattle.std.specs.Option.{option_map};
    ghost use Rattle.frame_future.specs.Future.{Finished};
    ghost use Rattle.frame_future.specs.Stored.{AreThere};

    ghost Value = { Finished };

    ghost view = { λ p. record { ticket = p.ticket; frame = p.frame; key = p.of.value; channels = p.channels; loans = p.loans } };

    ghost invariant = { λ p. AreThere p.own (option_map (λ a. a.value) p.shared) p.of.value };
}

impl Picture {
    /// The picture of these tiles, of which no channel is mapped.
    pub(crate) fn new(ticket: u64, frame: Handle, channels: [bool; 4], tiles: Tiles) -> Picture
        ensures { result ≡ record { ticket = ticket; frame = frame; key = tiles; channels = channels; loans = None ∷ None ∷ None ∷ None ∷ [] } }
    {
        let of = Snapshot::of(&tiles);
        Picture {
            ticket,
            frame,
            channels,
            loans: [None; 4],
            own: Some(tiles),
            shared: None,
            of,
        }
    }

    pub(crate) fn ticket(&self) -> u64
        ensures { result ≡ self.now.ticket }
    {
        self.ticket
    }

    /// Which channels its frame asked for.
    pub(crate) fn channels(&self) -> [bool; 4]
        ensures { result ≡ self.now.channels }
    {
        self.channels
    }

    pub(crate) fn frame(&self) -> Handle
        ensures { result ≡ self.now.frame }
    {
        self.frame
    }

    /// Whether some channel is mapped.
    pub(crate) fn is_lent(&self) -> bool
        ensures { result ≡ is_lent self.now }
    {
        self.loans.iter().any(|loan| loan.is_some())
    }

    /// Whether the channel was asked for.
    pub(crate) fn is_asked(&self, channel: Channel) -> bool
        ensures { result ≡ is_asked self.now.channels channel }
    {
        self.channels[channel.number() as usize]
    }

    /// Whether the channel is mapped.
    pub(crate) fn is_mapped(&self, channel: Channel) -> bool
        ensures { result ≡ is_some (loan_of self.now.loans channel) }
    {
        self.loans[channel.number() as usize].is_some()
    }

    /// Whether the channel is lent under this number.
    pub(crate) fn is_out(&self, channel: Channel, number: u64) -> bool
        ensures { IsTrue result ↔ (loan_of self.now.loans channel ≡ Some number) }
    {
        self.loans[channel.number() as usize] == Some(number)
    }

    /// Lends a channel under this number.
    pub(crate) fn lend(
        &mut self,
        alloc: Global,
        channel: Channel,
        number: u64,
    ) -> Result<MappedFrame, NoMemory>
        ensures loan { IfOk result (λ m. m ≡ loan_from self.old channel number) }
        ensures lent { OnOk result (self.new ≡ lent_as self.old channel number) }
        ensures refused { OnErr result (self.new ≡ self.old) }
    {
        let tiles = self.share(alloc)?;
        self.loans[channel.number() as usize] = Some(number);
        Ok(MappedFrame::new(self.frame, channel, number, tiles))
    }

    /// Notes that the loan of a channel came back.
    pub(crate) fn take_back(&mut self, channel: Channel)
        ensures { self.new ≡ given_back self.old channel }
    {
        self.loans[channel.number() as usize] = None;
    }

    // The tiles, shared.
    fn share(&mut self, alloc: Global) -> Result<Arc<Tiles>, NoMemory>
        ensures same { self.new ≡ self.old }
        ensures tiles { IfOk result (λ a. a.value ≡ self.old.key) }
    {
        if let Some(tiles) = self.own.take() {
            match Arc::new(alloc, tiles) {
                Ok(shared) => self.shared = Some(shared),
                Err(failed) => {
                    self.own = Some(failed.value);
                    return Err(NoMemory);
                }
            }
        }
        match &self.shared {
            Some(shared) => Ok(Arc::try_clone(shared)?),
            None => unreachable!(),
        }
    }
}
