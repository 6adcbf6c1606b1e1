//! Memory that is taken ahead.
ghost use Rattle.std.specs.Prelude.{◌≡◌, ◌≤◌, ◌<◌, ◌+◌, ◌^◌, IsOk, OnOk};
ghost use Rattle.object_steps.specs.Objects.{tellable};
ghost use Rattle.device_core.specs.States.{spare_calls};

use crate::states::DeviceState;
use dev_types::{Client, NoMemory};
use device_parts::Parts;
use std::alloc::Global;

impl<C: Client> DeviceState<C> {
    /// Takes memory for so many calls: for the entry of each, beside the notes of the flights and the
    /// close, and for its status.
    ///
    /// # Errors
    /// `NoMemory`; nothing has changed but for the room.
    pub fn reserve_calls(&mut self, alloc: Global, n: u32) -> Result<(), NoMemory>
        ensures spare { OnOk result (n ≤ spare_calls self.new) }
        ensures grows { spare_calls self.old ≤ spare_calls self.new }
        ensures same { self.new ≡ record self.old {
          parts = record self.old.parts { room = self.new.parts.room };
          spare = self.new.spare;
        } }
    {
        let _limit = self.limit;
        reserve_notices(&self.parts, &mut self.client, alloc, n)?;
        self.parts.make_places(n as usize)
    }
}

/// Makes room at the client for so many statuses, beside the ends that it is to be told.
///
/// # Errors
/// `NoMemory`, only where that room was missing.
pub(crate) fn reserve_notices<C: Client>(
    parts: &Parts,
    client: &mut C,
    alloc: Global,
    n: u32,
) -> Result<(), NoMemory>
    ensures room { OnOk result (tellable parts.now.objects.stored.state + n ≤ C.spare client.new) }
    ensures had_room { tellable parts.now.objects.stored.state + n < 2 ^ 32
        → tellable parts.now.objects.stored.state + n ≤ C.spare client.old → IsOk result }
    ensures list { C.notices client.new ≡ C.notices client.old }
    ensures no_less { C.spare client.old ≤ C.spare client.new }
{
    let Ok(tellable) = u32::try_from(parts.tellable()) else {
        return Err(NoMemory);
    };
    let Some(notices) = tellable.checked_add(n) else {
        return Err(NoMemory);
    };
    client.reserve(alloc, notices)
}
