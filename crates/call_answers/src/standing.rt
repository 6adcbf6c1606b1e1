//! What is asked of a device to tell why a call is refused, and what it is answered.
ghost use Rattle.std.specs.Prelude.{◌≡◌, ◌==◌, not};
ghost use Rattle.std.specs.Option.{option_and_then, option_map};
ghost use Rattle.seq_model.specs.Histories.{public};
ghost use Rattle.seq_model.specs.Legal.{Legal};
ghost use Rattle.seq_model.specs.Refusals.{is_array_loan_out, is_parameter_loan_out, phase_at};
ghost use Rattle.seq_model.specs.State.{object_at, parameter_loan, scene_objects};
ghost use Rattle.seq_model.specs.Steps.{Past, after, next_place};
ghost use Rattle.call_answers.specs.Showing.{IsKnown, phase_of};

use crate::shown::Shown;
use dev_types::{Channel, DataType, Handle, Name};
use scene_read::Objects;

/// The objects of a device, with the past that they stand for: all that is asked to tell why a call
/// is refused, and what it is answered.
pub trait Standing: Objects {
    /// All that happened on the device, and where it stands.
    ghost past: { Self → Past };

    /// All that happened is legal, and led to where the device stands.
    fn is_legal(&self)
        ensures legal { Legal (past self.now).seen }
        ensures led { past self.now ≡ after (past self.now).seen };

    /// Whether the application holds a public reference to the handle.
    fn is_held(&self, h: Handle) -> bool
        ensures { result ≡ not (public (past self.now).seen h == 0) };

    /// The handle of the next creation.
    fn next(&self) -> Handle
        ensures { result ≡ (past self.now).state.next };

    /// The place of the next entry: the number of the next loan.
    fn place(&self) -> u64
        ensures { result ≡ next_place (past self.now) };

    /// Whether a loan of this number and length of the array is out.
    fn is_array_loan_out(&self, h: Handle, number: u64, len: usize) -> bool
        ensures { result ≡ is_array_loan_out (past self.now).state h number len };

    /// Whether a loan of this number and length is out for the parameter.
    fn is_parameter_loan_out(&self, h: Handle, name: &Name, number: u64, len: usize) -> bool
        ensures { result ≡ is_parameter_loan_out (past self.now).state h name.now number len };

    /// The type and the count of the elements of the array that is written for a parameter under
    /// this number.
    fn parameter_loan(&self, h: Handle, number: u64) -> Option<(DataType, u64)>
        ensures { result ≡ option_map (λ l. (l.elem, l.count)) (option_and_then
            (λ o. parameter_loan number o.parameter_loans) (object_at (past self.now).state h)) };

    /// The channels of a frame that are mapped, each with the number of its loan; `None` exactly
    /// where there is no such object.
    fn mapped_channels(&self, h: Handle) -> Option<&[(Channel, u64)]>
        ensures { option_map (λ c. c.now) result ≡ option_map (λ o. o.channels) (object_at
            (past self.now).state h) };

    /// What a frame has to show.
    fn shows(&self, h: Handle) -> Shown
        ensures phase { phase_of result ≡ phase_at (past self.now) h }
        ensures known { IsKnown (past self.now).seen result };

    /// A walk reads the objects of this past.
    ghost agrees: { (device : Self) → Self.objects device ≡ scene_objects (past device).state };
}
