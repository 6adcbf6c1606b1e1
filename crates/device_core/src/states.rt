//! The state of a device.
ghost use Rattle.std.specs.Prelude.{◌≡◌, ◌≤◌, ◌^◌, [], IfErr, IfOk, false, length};
ghost use Rattle.std.specs.Option.{option_map};
ghost use Rattle.frame_future.specs.Future.{IsKept, flight_of, nothing};
ghost use Rattle.seq_model.specs.Refusals.{phase_at};
ghost use Rattle.seq_model.specs.State.{ticket_in};
ghost use Rattle.seq_model.specs.Steps.{after};
ghost use Rattle.device_parts.specs.AllParts.{AreParts};
ghost use Rattle.device_core.specs.States.{IsDevice};

use dev_types::{Client, Handle, NoMemory};
use device_parts::Parts;
use std::alloc::Global;
use std::marker::Model;

/// A device: its objects, flights and kept worlds, all that happened on it, and the client that it
/// tells of statuses and of the ends of arrays. Each call of it is one sweep of the flights, or one
/// call of the application between two sweeps. The journal has a limited length.
#[derive(Drop)]
pub struct DeviceState<C: Client> {
    pub(crate) parts: Parts,
    pub(crate) client: C,
    pub(crate) limit: u32,
    // How many loans are out.
    pub(crate) loans: u64,
    pub(crate) ending: bool,
}

impl<C: Client> Model for DeviceState<C> {
    ghost use Rattle.std.specs.Prelude.{◌≡◌};
    ghost use Rattle.seq_model.specs.Room.{loans_out};
    ghost use Rattle.seq_model.specs.Steps.{after};
    ghost use Rattle.device_core.specs.States.{Device, IsDevice};

    ghost Value = { Device };

    ghost view = { λ d. record {
      parts = d.parts;
      told = C.notices d.client;
      spare = C.spare d.client;
      limit = d.limit;
      ending = d.ending;
    } };

    ghost invariant = { λ d. IsDevice (record {
      parts = d.parts;
      told = C.notices d.client;
      spare = C.spare d.client;
      limit = d.limit;
      ending = d.ending;
    }) × (d.loans ≡ loans_out (after d.parts.history).state) };
}

impl<C: Client> DeviceState<C> {
    /// A device on which nothing happened. Its journal takes so many entries at most, the close among
    /// them: 2 to 1048576.
    ///
    /// # Errors
    /// `NoMemory`; the client comes back.
    pub fn new(alloc: Global, client: C, limit: u32) -> Result<DeviceState<C>, (NoMemory, C)>
        requires some { 2 ≤ limit }
        requires few { limit ≤ 2 ^ 20 }
        ensures history { IfOk result (λ d. d.parts.history ≡ []) }
        ensures flights { IfOk result (λ d. d.parts.flights.future ≡ nothing) }
        ensures told { IfOk result (λ d. d.told ≡ C.notices client) }
        ensures limit { IfOk result (λ d. d.limit ≡ limit) }
        ensures going { IfOk result (λ d. d.ending ≡ false) }
        ensures refused { IfErr result (λ e. e.1 ≡ client) }
    {
        match Parts::new(alloc) {
            Ok(parts) => {
                parts.are_parts();
                Ok(DeviceState {
                    parts,
                    client,
                    limit,
                    loans: 0,
                    ending: false,
                })
            }
            Err(none) => Err((none, client)),
        }
    }

    /// What always holds of a device, of its parts, and of its flights.
    pub fn is_device(&self)
        ensures state { IsDevice self.now }
        ensures parts { AreParts self.now.parts }
        ensures kept { IsKept self.now.parts.flights.future }
    {
        let _limit = self.limit;
        self.parts.are_parts();
        self.parts.flights_are_booked();
    }

    /// How many entries the journal has.
    pub fn entries(&self) -> u64
        ensures { result ≡ length self.now.parts.history }
    {
        self.parts.entries()
    }

    /// The ticket of a frame's flight, which is the place of its render in the journal. `None` exactly
    /// where the frame is no live frame in flight.
    pub fn ticket(&self, h: Handle) -> Option<u64>
        ensures flight { result
            ≡ option_map (λ f. f.ticket) (flight_of self.now.parts.flights.future h) }
        ensures standing { self.now.ending ≡ false
            → result ≡ ticket_in (phase_at (after self.now.parts.history) h) }
    {
        let _limit = self.limit;
        self.parts.ticket(h)
    }
}
