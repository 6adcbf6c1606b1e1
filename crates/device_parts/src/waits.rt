//! Which frames a call waits for.
ghost use Rattle.std.specs.Prelude.{◌≡◌};
ghost use Rattle.seq_model.specs.Steps.{after};
ghost use Rattle.device_parts.specs.Standing.{IsStanding};
ghost use Rattle.device_parts.specs.Waits.{is_waited_for};

use crate::parts::Parts;
use crate::records::Recorded;
use call_answers::Standing;
use dev_types::Handle;
use object_steps::AtRest;

impl Parts {
    /// Whether a call that waits for the frame is not answered yet: exactly where the frame is in
    /// flight, and the application holds it.
    pub fn is_waited_for(&self, h: Handle) -> bool
        requires stands { IsStanding self.now }
        ensures { result ≡ is_waited_for (after self.now.history) h }
    {
        // Its clause tells the proof what always holds of the parts.
        self.are_parts();
        let recorded = Recorded::new(self);
        let device = AtRest::new(self.objects.store(), &recorded);
        self.ticket(h).is_some() && device.is_held(h)
    }
}
