//! What a call that had its way does to the objects.
ghost use Rattle.std.specs.Prelude.{◌≡◌, IfOk, IsTrue, OnOk, OnErr, ◌*◌, [], false, length, option_copied};
ghost use Rattle.seq_model.specs.Steps.{change_array, effect, holding, first_bytes, fresh_array, unmap_parameter, zeros};
ghost use Rattle.dev_types.specs.DataTypes.{is_element_type, byte_size};
ghost use Rattle.seq_model.specs.Refusals.{is_bad_shape};
ghost use Rattle.std.specs.Option.{option_and_then};
ghost use Rattle.dev_types.specs.declared.data_types.DataType.TheVariants as ty;
ghost use Rattle.seq_model.specs.State.{changed_at, object_at, parameter_loan};
ghost use Rattle.plain_objects.specs.Shown.{HasLength};
ghost use Rattle.seq_model.specs.declared.calls.Reply.TheVariants as reply;
ghost use Rattle.past_laws.specs.Suits.{IsLoanOf, Suits, parameters_changed, taken_array};

use crate::objects::{Array, Object, ParameterLoan, Shows};
use crate::stage::Stage;
use call_answers::layouts::needed_length;
use dev_types::{Bytes, DataType, Handle, Name, NoMemory, Origin, size_of};
use kind_tables::{Kind, kind_of};
use seq_model::{Call, Reply};
use std::alloc::Global;

/// So many bytes 0.
fn zeros(alloc: Global, len: usize) -> Result<Bytes, NoMemory>
    ensures { IfOk result (λ bytes. bytes ≡ zeros len) }
{
    let bytes = vec![in alloc; 0u8; len]?;
    Bytes::of(alloc, bytes).map_err(|refused| refused.0)
}

/// The first content of an array: a managed one is all zero.
fn first_bytes(alloc: Global, origin: Origin, len: usize, bytes: &Bytes) -> Result<Bytes, NoMemory>
    ensures { IfOk result (λ first. first ≡ first_bytes origin len bytes.now) }
{
    match origin {
        Origin::Managed => zeros(alloc, len),
        _ => bytes.share(alloc),
    }
}

/// An array as it is made.
fn fresh_array(
    alloc: Global,
    elem: DataType,
    count: u64,
    stride: u64,
    origin: Origin,
    bytes: &Bytes,
) -> Result<Object, NoMemory>
    requires element { IsTrue (is_element_type elem) }
    requires shape { is_bad_shape elem count stride origin bytes.now ≡ false }
    ensures { IfOk result (λ object. object ≡ fresh_array elem count stride origin bytes.now) }
{
    let len = needed_length(elem, stride, count) as usize;
    let bytes = first_bytes(alloc, origin, len, bytes)?;
    let array = Array {
        elem,
        count,
        stride,
        bytes,
        origin,
        loan: None,
    };
    Ok(Object::new(alloc, Kind::Array(elem), Some(array)))
}

/// The array that a loan for a parameter becomes.
fn taken_array(alloc: Global, loan: &ParameterLoan, bytes: &Bytes) -> Result<Object, NoMemory>
    requires { loan.now.count * byte_size loan.now.elem ≡ length bytes.now }
    ensures { IfOk result (λ object. object ≡ taken_array loan.now bytes.now) }
{
    let array = Array {
        elem: loan.elem,
        count: loan.count,
        stride: u64::from(size_of(loan.elem)),
        bytes: bytes.share(alloc)?,
        origin: Origin::Managed,
        loan: None,
    };
    Ok(Object::new(alloc, Kind::Array(loan.elem), Some(array)))
}

/// The loan with this number, if it is among those that are out.
pub fn loan_with(loans: &[ParameterLoan], number: u64) -> Option<&ParameterLoan>
    ensures { option_copied result ≡ parameter_loan number loans.now }
{
    loans.iter().find(|loan| loan.number == number)
}

impl Stage {
    /// The loan with this number for a parameter of an object.
    fn parameter_loan(&self, h: Handle, number: u64) -> Option<&ParameterLoan>
        ensures { option_copied result ≡ option_and_then (λ o. parameter_loan number o.parameter_loans) (object_at self.now h) }
    {
        loan_with(&self.get(h)?.parameter_loans, number)
    }

    /// A loan for a parameter comes back: it becomes a managed array, and the staged value of its parameter.
    #[tactic(auto, unfolding(seq_model::specs::Steps::unmap_parameter, seq_model::specs::Steps::take_in))]
    pub fn unmap_parameter(
        &mut self,
        alloc: Global,
        h: Handle,
        name: &Name,
        number: u64,
        bytes: &Bytes,
    ) -> Result<(), NoMemory>
        requires { IsLoanOf self.old h name.now number (length bytes.now) }
        ensures ok { OnOk result (self.new ≡ unmap_parameter h name.now number bytes.now self.old) }
        ensures err { OnErr result (self.new ≡ self.old) }
    {
        let Some(loan) = self.parameter_loan(h, number) else {
            return Ok(());
        };
        let array = taken_array(alloc, loan, bytes)?;
        self.take_in(alloc, h, name, number, array)
    }
}

impl Stage {
    /// What a creation that was done does.
    #[tactic(auto, unfolding(seq_model::specs::Steps::effect))]
    fn create(&mut self, alloc: Global, call: &Call) -> Result<(), NoMemory>
        requires { Suits self.old call.now (reply.Made 0) }
        ensures ok { OnOk result (self.new ≡ effect 0 call.now (reply.Made 0) self.old) }
        ensures err { OnErr result (self.new ≡ self.old) }
    {
        match call {
            Call::NewObject { ty, subtype } => match kind_of(*ty, subtype) {
                Some(kind) => self.add(alloc, Object::new(alloc, kind, None)),
                None => Ok(()),
            },
            Call::NewArray {
                elem,
                count,
                stride,
                origin,
                bytes,
            } => {
                let array = fresh_array(alloc, *elem, *count, *stride, *origin, bytes)?;
                self.add(alloc, array)
            }
            Call::UnmapParameterArray {
                h,
                name,
                number,
                bytes,
            } => self.unmap_parameter(alloc, *h, name, *number, bytes),
            _ => Ok(()),
        }
    }

    /// What a call that lends something under the number of its place does.
    #[tactic(auto, unfolding(seq_model::specs::Steps::effect))]
    fn lend_by(&mut self, place: u64, call: &Call) -> Result<(), NoMemory>
        requires { Suits self.old call.now (reply.Lent place) }
        ensures ok { OnOk result (self.new ≡ effect place call.now (reply.Lent place) self.old) }
        ensures err { OnErr result (self.new ≡ self.old) }
    {
        match call {
            Call::MapArray { h } => {
                self.lend(*h, place);
                Ok(())
            }
            Call::MapParameterArray {
                h,
                name,
                elem,
                count,
            } => self.lend_parameter(
                *h,
                ParameterLoan {
                    number: place,
                    name: name.copied(),
                    elem: *elem,
                    count: *count,
                },
            ),
            _ => Ok(()),
        }
    }

    /// What a call on parameters that was done does.
    fn change_parameters(&mut self, call: &Call) -> Result<(), NoMemory>
        ensures ok { OnOk result (self.new ≡ parameters_changed call.now self.old) }
        ensures err { OnErr result (self.new ≡ self.old) }
    {
        match call {
            Call::SetParameter { h, name, value } => self.set(*h, name, value),
            Call::UnsetParameter { h, name } => {
                self.unset(*h, name);
                Ok(())
            }
            Call::UnsetAll { h } => {
                self.unset_all(*h);
                Ok(())
            }
            Call::Commit { h } => self.commit(*h),
            _ => Ok(()),
        }
    }
    /// What the map of a channel that was granted does.
    #[tactic(auto, unfolding(seq_model::specs::Steps::effect))]
    fn map_by(&mut self, place: u64, call: &Call) -> Result<(), NoMemory>
        ensures ok { OnOk result (self.new ≡ effect place call.now (reply.Mapped 0 0 ty.Uint32 []) self.old) }
        ensures err { OnErr result (self.new ≡ self.old) }
    {
        match call {
            Call::MapFrame { h, channel } => self.map_channel(*h, *channel, place),
            _ => Ok(()),
        }
    }

    /// An array comes back with these bytes.
    fn unmap_array(&mut self, alloc: Global, h: Handle, bytes: &Bytes) -> Result<(), NoMemory>
        requires { HasLength (option_and_then (λ o. o.array) (object_at self.old h)) (length bytes.now) }
        ensures ok { OnOk result (self.new ≡ changed_at h (change_array (holding bytes.now)) self.old) }
        ensures err { OnErr result (self.new ≡ self.old) }
    {
        let bytes = bytes.share(alloc)?;
        self.take_back(h, bytes);
        Ok(())
    }

    /// What a call that was answered by `Done` does at a place.
    #[tactic(auto, unfolding(seq_model::specs::Steps::effect), using(crate::proofs::SuitFacts::length_of_array))]
    fn change_done(&mut self, alloc: Global, place: u64, call: &Call) -> Result<(), NoMemory>
        requires { Suits self.old call.now reply.Done }
        ensures ok { OnOk result (self.new ≡ effect place call.now reply.Done self.old) }
        ensures err { OnErr result (self.new ≡ self.old) }
    {
        match call {
            Call::UnmapArray { h, bytes, .. } => self.unmap_array(alloc, *h, bytes),
            Call::RenderFrame { h } => {
                self.show(*h, Shows::Flight(place));
                Ok(())
            }
            Call::DiscardFrame { h } => self.discard(*h),
            Call::UnmapFrame { h, number } => {
                self.unmap_channel(*h, *number);
                Ok(())
            }
            _ => self.change_parameters(call),
        }
    }

    /// What the call at a place does to the objects by its reply.
    pub fn change(
        &mut self,
        alloc: Global,
        place: u64,
        call: &Call,
        reply: &Reply,
    ) -> Result<(), NoMemory>
        requires { Suits self.old call.now reply.now }
        ensures ok { OnOk result (self.new ≡ effect place call.now reply.now self.old) }
        ensures err { OnErr result (self.new ≡ self.old) }
    {
        match reply {
            Reply::Done => self.change_done(alloc, place, call),
            Reply::Made(_) => self.create(alloc, call),
            Reply::Lent(_) => self.lend_by(place, call),
            Reply::Mapped { .. } => self.map_by(place, call),
            Reply::Ready
            | Reply::NotReady { .. }
            | Reply::Val(_)
            | Reply::Listed(_)
            | Reply::Info(_)
            | Reply::Denied(_) => Ok(()),
        }
    }
}
