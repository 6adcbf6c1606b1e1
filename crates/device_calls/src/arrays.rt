//! Arrays that are mapped and unmapped, and those that are made for parameters.
ghost use Rattle.std.specs.Prelude.{◌≡◌, false, IfErr, IfOk, OnOk};
ghost use Rattle.device_calls.specs.Lending.{IsBack};
ghost use Rattle.device_calls.specs.Passes.{HasCalled, Sees};
ghost use Rattle.device_calls.specs.Replies.{IsRefused};
ghost use Rattle.device_parts.specs.declared.handed.Handed.TheVariants as hand;
ghost use Rattle.seq_model.specs.declared.calls.Call.TheVariants.{MapArray, MapParameterArray, UnmapArray, UnmapParameterArray};
ghost use Rattle.seq_model.specs.declared.calls.Reply.TheVariants as reply;
ghost use Rattle.turn_lock.specs.Passes.{IsPassOf, holding};

use crate::device::{Device, Pass};
use crate::loans::{copied, done_or_back, lent_of, lent_or_refused, made_or_back, param_of};
use array_objects::Lent;
use dev_types::{Client, DataType, Handle, Name, NoMemory, Refused};
use device_core::Handed;
use object_steps::LentParam;
use seq_model::{Call, Reply};
use std::alloc::Global;
use std::sync::Wait;

impl<C: Client> Device<C> {
    /// Maps an array (ANARI 1.0 Specification, array mapping): a loan of its content, under the place of
    /// the call.
    ///
    /// # Errors
    /// 1, 2, 3, 4, 9, 19.
    pub fn map_array<R: Wait>(
        &self,
        rt: &R,
        alloc: Global,
        pass: &mut Pass,
        h: Handle,
    ) -> Result<Lent, Refused>
        requires pass { IsPassOf self.now.turn pass.old }
        requires idle { holding pass.old ≡ false }
        ensures pass { IsPassOf self.now.turn pass.new × (holding pass.new ≡ false) }
        ensures sees { Sees pass.old pass.new }
        ensures made { IfOk result (λ l. HasCalled (MapArray h) hand.Nothing (reply.Lent l.number)
            (hand.Lent l) pass.old pass.new) }
        ensures refused { IfErr result (λ e. IsRefused (MapArray h) e pass.old pass.new) }
    {
        match self.make(rt, alloc, pass, Call::MapArray { h }, Handed::Nothing) {
            Ok((reply, out)) => {
                let lent = lent_of(out);
                lent_or_refused(reply, lent)
            }
            Err((refused, _call, with)) => {
                with.give_up();
                Err(refused)
            }
        }
    }

    /// Gives a mapped array back (ANARI 1.0 Specification, array mapping): the loan's bytes are its
    /// content.
    ///
    /// # Errors
    /// 1, 10, 19; the loan comes back.
    pub fn unmap_array<R: Wait>(
        &self,
        rt: &R,
        alloc: Global,
        pass: &mut Pass,
        lent: Lent,
    ) -> Result<(), (Refused, Lent)>
        requires pass { IsPassOf self.now.turn pass.old }
        requires idle { holding pass.old ≡ false }
        ensures pass { IsPassOf self.now.turn pass.new × (holding pass.new ≡ false) }
        ensures sees { Sees pass.old pass.new }
        ensures made { OnOk result (HasCalled (UnmapArray lent.array lent.number
            lent.elements.bytes) (hand.Lent lent) reply.Done hand.Nothing pass.old pass.new) }
        ensures refused { IfErr result (λ e. IsBack (UnmapArray lent.array lent.number
            lent.elements.bytes) (hand.Lent lent) e.0 pass.old pass.new) }
        ensures returned { IfErr result (λ e. e.1 ≡ lent) }
    {
        let bytes = match copied(alloc, lent.bytes()) {
            Ok(bytes) => bytes,
            Err(NoMemory) => {
                // The pass sees the history all the same.
                let _reserved = self.reserve_calls(rt, alloc, pass, 0);
                return Err((Refused::NoMemory, lent));
            }
        };
        let h = lent.array();
        let number = lent.number();
        let call = Call::UnmapArray { h, number, bytes };
        match self.make(rt, alloc, pass, call, Handed::Lent(lent)) {
            Ok((reply, out)) => {
                let back = lent_of(out);
                done_or_back(reply, back)
            }
            Err((refused, _call, with)) => {
                let back = lent_of(with);
                done_or_back(Reply::Denied(refused), back)
            }
        }
    }

    /// Lends the memory of a new array for a parameter (ANARI 1.0 Specification, parameter arrays):
    /// `count` elements without gaps, all zero.
    ///
    /// # Errors
    /// 1, 2, 3, 6, 7, 8, 19.
    pub fn map_parameter_array<R: Wait>(
        &self,
        rt: &R,
        alloc: Global,
        pass: &mut Pass,
        h: Handle,
        name: &Name,
        elem: DataType,
        count: u64,
    ) -> Result<LentParam, Refused>
        requires pass { IsPassOf self.now.turn pass.old }
        requires idle { holding pass.old ≡ false }
        ensures pass { IsPassOf self.now.turn pass.new × (holding pass.new ≡ false) }
        ensures sees { Sees pass.old pass.new }
        ensures made { IfOk result (λ l. HasCalled (MapParameterArray h name.now elem count)
            hand.Nothing (reply.Lent l.number) (hand.Param l) pass.old pass.new) }
        ensures refused { IfErr result
            (λ e. IsRefused (MapParameterArray h name.now elem count) e pass.old pass.new) }
    {
        let name = name.copied();
        let call = Call::MapParameterArray {
            h,
            name,
            elem,
            count,
        };
        match self.make(rt, alloc, pass, call, Handed::Nothing) {
            Ok((reply, out)) => {
                let lent = param_of(out);
                lent_or_refused(reply, lent)
            }
            Err((refused, _call, with)) => {
                with.give_up();
                Err(refused)
            }
        }
    }

    /// Makes a managed array of the loan's bytes, which nobody holds, and sets the parameter to it
    /// (ANARI 1.0 Specification, parameter arrays).
    ///
    /// # Errors
    /// 1, 10, 19; the loan comes back.
    pub fn unmap_parameter_array<R: Wait>(
        &self,
        rt: &R,
        alloc: Global,
        pass: &mut Pass,
        lent: LentParam,
    ) -> Result<Handle, (Refused, LentParam)>
        requires pass { IsPassOf self.now.turn pass.old }
        requires idle { holding pass.old ≡ false }
        ensures pass { IsPassOf self.now.turn pass.new × (holding pass.new ≡ false) }
        ensures sees { Sees pass.old pass.new }
        ensures made { IfOk result (λ k. HasCalled (UnmapParameterArray lent.object lent.name
            lent.number lent.elements.bytes) (hand.Param lent) (reply.Made k) hand.Nothing
            pass.old pass.new) }
        ensures refused { IfErr result (λ e. IsBack (UnmapParameterArray lent.object lent.name
            lent.number lent.elements.bytes) (hand.Param lent) e.0 pass.old pass.new) }
        ensures returned { IfErr result (λ e. e.1 ≡ lent) }
    {
        let bytes = match copied(alloc, lent.bytes()) {
            Ok(bytes) => bytes,
            Err(NoMemory) => {
                // The pass sees the history all the same.
                let _reserved = self.reserve_calls(rt, alloc, pass, 0);
                return Err((Refused::NoMemory, lent));
            }
        };
        let h = lent.object();
        let name = lent.name().copied();
        let number = lent.number();
        let call = Call::UnmapParameterArray {
            h,
            name,
            number,
            bytes,
        };
        match self.make(rt, alloc, pass, call, Handed::Param(lent)) {
            Ok((reply, out)) => {
                let back = param_of(out);
                made_or_back(reply, back)
            }
            Err((refused, _call, with)) => {
                let back = param_of(with);
                made_or_back(Reply::Denied(refused), back)
            }
        }
    }
}
