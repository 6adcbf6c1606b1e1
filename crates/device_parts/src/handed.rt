//! What goes with calls and comes back of them.
ghost use Rattle.std.specs.Prelude.{◌≡◌};
ghost use Rattle.object_steps.specs.declared.array_loans.ArrayLoan.TheVariants.{Nothing};
ghost use Rattle.device_parts.specs.Makes.{array_of, frame_left, frame_of, joined};

use array_objects::Lent;
use frame_future::MappedFrame;
use object_steps::{ArrayLoan, LentParam};
use seq_model::Reply;

/// A loan that goes with a call, or that a call hands out. That of an array has to be spent, as each
/// loan has.
pub enum Handed {
    Nothing,
    /// The memory of an array.
    Lent(Lent),
    /// The memory of a new array for a parameter.
    Param(LentParam),
    /// A channel of a frame.
    Frame(MappedFrame),
}

impl Handed {
    /// Gives the loan up, if there is one.
    pub fn give_up(self) {
        let (array, _channel) = parted(self);
        array.give_up();
    }
}

/// The loan of an array that goes along, and that of a channel.
pub(crate) fn parted(with: Handed) -> (ArrayLoan, Option<MappedFrame>)
    ensures array { result.0 ≡ array_of with }
    ensures frame { result.1 ≡ frame_of with }
{
    match with {
        Handed::Nothing => (ArrayLoan::Nothing, None),
        Handed::Lent(lent) => (ArrayLoan::Lent(lent), None),
        Handed::Param(lent) => (ArrayLoan::Param(lent), None),
        Handed::Frame(frame) => (ArrayLoan::Nothing, Some(frame)),
    }
}

/// These loans together, of which there is one at most.
pub(crate) fn joined(array: ArrayLoan, frame: Option<MappedFrame>) -> Handed
    ensures { result ≡ joined array frame }
{
    match array {
        ArrayLoan::Nothing => match frame {
            Some(frame) => Handed::Frame(frame),
            None => Handed::Nothing,
        },
        ArrayLoan::Lent(lent) => Handed::Lent(lent),
        ArrayLoan::Param(lent) => Handed::Param(lent),
    }
}

/// The loan of a channel that comes back of a call: that which a refused call brought.
pub(crate) fn frame_left(reply: &Reply, brought: Option<MappedFrame>) -> Option<MappedFrame>
    ensures { result ≡ frame_left reply.now brought }
{
    match reply {
        Reply::Denied(_) => brought,
        _ => None,
    }
}

/// What a map of a channel hands out, with which no loan of an array went.
pub(crate) fn lent_out(with: Handed, loan: Option<MappedFrame>) -> Handed
    requires none { array_of with ≡ Nothing }
    ensures array { array_of result ≡ Nothing }
    ensures frame { frame_of result ≡ loan }
{
    let (array, _none) = parted(with);
    joined(array, loan)
}
