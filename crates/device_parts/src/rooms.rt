//! Whether the journal has room for a call.
ghost use Rattle.std.specs.Prelude.{◌≡◌, ◌+◌, ◌-◌, ◌≤◌, false, length, if◌then◌else◌};
ghost use Rattle.seq_model.specs.Room.{is_full, loans_out, need};
ghost use Rattle.seq_model.specs.Steps.{after};
ghost use Rattle.device_parts.specs.Standing.{IsStanding};

use crate::parts::Parts;
use crate::records::Recorded;
use call_answers::Standing;
use call_answers::asked::is_channel_out;
use object_steps::AtRest;
use seq_model::Call;

impl Parts {
    /// Whether a journal of this length has no room for the call, where so many loans are out: for
    /// its entry, for the note of each flight and the unmap of each loan, and for the close.
    pub fn is_full(&self, limit: u32, loans: u64, call: &Call) -> bool
        requires stands { IsStanding self.now }
        requires loans { loans ≡ loans_out (after self.now.history).state }
        ensures full { result ≡ is_full limit (after self.now.history) call.now }
        ensures owed { result ≡ false → length self.now.history
            + length self.now.flights.future.flights + loans_out (after self.now.history).state
            + need (after self.now.history).state call.now ≤ limit - 1 }
    {
        // Their clauses tell the proof what always holds of the parts and of the flights.
        self.are_parts();
        self.flights.frames().are_kept();
        let entries = u128::from(self.entries());
        let flights = self.flights.flight_count() as u128;
        let owed = entries + flights + u128::from(loans) + u128::from(self.need(call));
        owed > u128::from(limit.saturating_sub(1))
    }

    /// How many entries a call takes: its own, and the note or the unmap that it will owe; what ends a
    /// loan has its place already.
    fn need(&self, call: &Call) -> u64
        requires stands { IsStanding self.now }
        ensures { result ≡ need (after self.now.history).state call.now }
    {
        self.are_parts();
        let recorded = Recorded::new(self);
        let device = AtRest::new(self.objects.store(), &recorded);
        match call {
            Call::MapArray { .. }
            | Call::MapParameterArray { .. }
            | Call::RenderFrame { .. }
            | Call::MapFrame { .. } => 2,
            Call::UnmapArray { h, number, bytes } => {
                one_unless(device.is_array_loan_out(*h, *number, bytes.as_slice().len()))
            }
            Call::UnmapParameterArray {
                h,
                name,
                number,
                bytes,
            } => {
                let len = bytes.as_slice().len();
                one_unless(device.is_parameter_loan_out(*h, name, *number, len))
            }
            Call::UnmapFrame { h, number } => one_unless(is_channel_out(&device, *h, *number)),
            _ => 1,
        }
    }
}

/// Nothing where the entry has its place, else one.
fn one_unless(has_place: bool) -> u64
    ensures { result ≡ (if has_place then 0 else 1) }
{
    u64::from(!has_place)
}
