//! Calls with which no loan goes and comes.
ghost use Rattle.std.specs.Prelude.{◌≡◌, false, IfErr, IfOk, OnOk};
ghost use Rattle.dev_types.specs.declared.refusals.Refused.{Refused as Refusals};
ghost use Rattle.device_core.specs.Stepping.{IsAwake};
ghost use Rattle.seq_model.specs.Steps.{Past};
ghost use Rattle.seq_model.specs.declared.calls.Call.TheVariants.{Commit, DiscardFrame, NewObject, Release, Retain, SetParameter, UnsetAll, UnsetParameter};
ghost use Rattle.seq_model.specs.declared.calls.Reply.TheVariants as reply;
ghost use Rattle.turn_lock.specs.Passes.{IsPassOf, holding};
ghost use Rattle.device_calls.specs.Passes.{Sees};
ghost use Rattle.device_calls.specs.Replies.{HasMade, IsDone, IsLoanless, IsRefused};

use crate::device::{Device, Pass};
use dev_types::{Client, DataType, Handle, Name, Refused, Value};
use device_core::Handed;
use seq_model::{Call, Reply};
use std::alloc::Global;
use std::sync::Wait;

impl<C: Client> Device<C> {
    /// Makes a call with which no loan goes, and answers its reply, which refuses nothing.
    ///
    /// # Errors
    /// Why it is refused; `JournalFull` and `NoMemory` without an entry.
    pub(crate) fn reply<R: Wait>(
        &self,
        rt: &R,
        alloc: Global,
        pass: &mut Pass,
        call: Call,
    ) -> Result<Reply, Refused>
        requires pass { IsPassOf self.now.turn pass.old }
        requires idle { holding pass.old ≡ false }
        requires loanless { IsLoanless call }
        requires awake { (past : Past) → IsAwake past call }
        ensures pass { IsPassOf self.now.turn pass.new × (holding pass.new ≡ false) }
        ensures sees { Sees pass.old pass.new }
        ensures made { IfOk result (λ r. HasMade call r pass.old pass.new) }
        ensures grants { IfOk result (λ r. (e : Refusals) → r ≡ reply.Denied e → ⊥) }
        ensures refused { IfErr result (λ e. IsRefused call e pass.old pass.new) }
    {
        match self.make(rt, alloc, pass, call, Handed::Nothing) {
            Ok((reply, out)) => {
                out.give_up();
                match reply {
                    Reply::Denied(refused) => Err(refused),
                    reply => Ok(reply),
                }
            }
            Err((refused, _call, with)) => {
                with.give_up();
                Err(refused)
            }
        }
    }

    /// Makes a call that is done or refused.
    fn done<R: Wait>(
        &self,
        rt: &R,
        alloc: Global,
        pass: &mut Pass,
        call: Call,
    ) -> Result<(), Refused>
        requires pass { IsPassOf self.now.turn pass.old }
        requires idle { holding pass.old ≡ false }
        requires done { IsDone call }
        ensures pass { IsPassOf self.now.turn pass.new × (holding pass.new ≡ false) }
        ensures sees { Sees pass.old pass.new }
        ensures made { OnOk result (HasMade call reply.Done pass.old pass.new) }
        ensures refused { IfErr result (λ e. IsRefused call e pass.old pass.new) }
    {
        match self.reply(rt, alloc, pass, call) {
            Ok(_reply) => Ok(()),
            Err(refused) => Err(refused),
        }
    }

    /// Makes an object of a subtype (ANARI 1.0 Specification, object creation): the next handle, which
    /// is held once.
    ///
    /// # Errors
    /// 1, 5, 19.
    pub fn new_object<R: Wait>(
        &self,
        rt: &R,
        alloc: Global,
        pass: &mut Pass,
        ty: DataType,
        subtype: &Name,
    ) -> Result<Handle, Refused>
        requires pass { IsPassOf self.now.turn pass.old }
        requires idle { holding pass.old ≡ false }
        ensures pass { IsPassOf self.now.turn pass.new × (holding pass.new ≡ false) }
        ensures sees { Sees pass.old pass.new }
        ensures made { IfOk result
            (λ h. HasMade (NewObject ty subtype.now) (reply.Made h) pass.old pass.new) }
        ensures refused { IfErr result
            (λ e. IsRefused (NewObject ty subtype.now) e pass.old pass.new) }
    {
        let subtype = subtype.copied();
        match self.reply(rt, alloc, pass, Call::NewObject { ty, subtype }) {
            Ok(reply) => match reply {
                Reply::Made(h) => Ok(h),
                _ => unreachable!(),
            },
            Err(refused) => Err(refused),
        }
    }

    /// Holds an object once more (ANARI 1.0 Specification, object lifetime).
    ///
    /// # Errors
    /// 1, 2, 3, 19.
    pub fn retain<R: Wait>(
        &self,
        rt: &R,
        alloc: Global,
        pass: &mut Pass,
        h: Handle,
    ) -> Result<(), Refused>
        requires pass { IsPassOf self.now.turn pass.old }
        requires idle { holding pass.old ≡ false }
        ensures pass { IsPassOf self.now.turn pass.new × (holding pass.new ≡ false) }
        ensures sees { Sees pass.old pass.new }
        ensures made { OnOk result (HasMade (Retain h) reply.Done pass.old pass.new) }
        ensures refused { IfErr result (λ e. IsRefused (Retain h) e pass.old pass.new) }
    {
        self.done(rt, alloc, pass, Call::Retain { h })
    }

    /// Holds an object once less (ANARI 1.0 Specification, object lifetime). What nothing holds any more
    /// dies.
    ///
    /// # Errors
    /// 1, 2, 3, 19.
    pub fn release<R: Wait>(
        &self,
        rt: &R,
        alloc: Global,
        pass: &mut Pass,
        h: Handle,
    ) -> Result<(), Refused>
        requires pass { IsPassOf self.now.turn pass.old }
        requires idle { holding pass.old ≡ false }
        ensures pass { IsPassOf self.now.turn pass.new × (holding pass.new ≡ false) }
        ensures sees { Sees pass.old pass.new }
        ensures made { OnOk result (HasMade (Release h) reply.Done pass.old pass.new) }
        ensures refused { IfErr result (λ e. IsRefused (Release h) e pass.old pass.new) }
    {
        self.done(rt, alloc, pass, Call::Release { h })
    }

    /// Sets a parameter of an object (ANARI 1.0 Specification, object parameters): the value is staged.
    ///
    /// # Errors
    /// 1, 2, 3, 4, 6, 7, 19.
    pub fn set_parameter<R: Wait>(
        &self,
        rt: &R,
        alloc: Global,
        pass: &mut Pass,
        h: Handle,
        name: &Name,
        value: &Value,
    ) -> Result<(), Refused>
        requires pass { IsPassOf self.now.turn pass.old }
        requires idle { holding pass.old ≡ false }
        ensures pass { IsPassOf self.now.turn pass.new × (holding pass.new ≡ false) }
        ensures sees { Sees pass.old pass.new }
        ensures made { OnOk result (HasMade (SetParameter h name.now value.now) reply.Done pass.old pass.new) }
        ensures refused { IfErr result (λ e. IsRefused (SetParameter h name.now value.now) e pass.old pass.new) }
    {
        let name = name.copied();
        let value = value.copied();
        self.done(rt, alloc, pass, Call::SetParameter { h, name, value })
    }

    /// Unsets a parameter of an object: it is no longer staged. A name that is not there is no fault.
    ///
    /// # Errors
    /// 1, 2, 3, 19.
    pub fn unset_parameter<R: Wait>(
        &self,
        rt: &R,
        alloc: Global,
        pass: &mut Pass,
        h: Handle,
        name: &Name,
    ) -> Result<(), Refused>
        requires pass { IsPassOf self.now.turn pass.old }
        requires idle { holding pass.old ≡ false }
        ensures pass { IsPassOf self.now.turn pass.new × (holding pass.new ≡ false) }
        ensures sees { Sees pass.old pass.new }
        ensures made { OnOk result (HasMade (UnsetParameter h name.now) reply.Done pass.old pass.new) }
        ensures refused { IfErr result (λ e. IsRefused (UnsetParameter h name.now) e pass.old pass.new) }
    {
        let name = name.copied();
        self.done(rt, alloc, pass, Call::UnsetParameter { h, name })
    }

    /// Unsets all parameters of an object: none is staged.
    ///
    /// # Errors
    /// 1, 2, 3, 19.
    pub fn unset_all<R: Wait>(
        &self,
        rt: &R,
        alloc: Global,
        pass: &mut Pass,
        h: Handle,
    ) -> Result<(), Refused>
        requires pass { IsPassOf self.now.turn pass.old }
        requires idle { holding pass.old ≡ false }
        ensures pass { IsPassOf self.now.turn pass.new × (holding pass.new ≡ false) }
        ensures sees { Sees pass.old pass.new }
        ensures made { OnOk result (HasMade (UnsetAll h) reply.Done pass.old pass.new) }
        ensures refused { IfErr result (λ e. IsRefused (UnsetAll h) e pass.old pass.new) }
    {
        self.done(rt, alloc, pass, Call::UnsetAll { h })
    }

    /// Commits the staged parameters of an object (ANARI 1.0 Specification, object parameters).
    ///
    /// # Errors
    /// 1, 2, 3, 19.
    pub fn commit<R: Wait>(
        &self,
        rt: &R,
        alloc: Global,
        pass: &mut Pass,
        h: Handle,
    ) -> Result<(), Refused>
        requires pass { IsPassOf self.now.turn pass.old }
        requires idle { holding pass.old ≡ false }
        ensures pass { IsPassOf self.now.turn pass.new × (holding pass.new ≡ false) }
        ensures sees { Sees pass.old pass.new }
        ensures made { OnOk result (HasMade (Commit h) reply.Done pass.old pass.new) }
        ensures refused { IfErr result (λ e. IsRefused (Commit h) e pass.old pass.new) }
    {
        self.done(rt, alloc, pass, Call::Commit { h })
    }

    /// Discards what a frame has to show (ANARI 1.0 Specification, rendering frames): its flight is
    /// stopped, or its picture dropped.
    ///
    /// # Errors
    /// 1, 2, 3, 4, 13, 19.
    pub fn discard_frame<R: Wait>(
        &self,
        rt: &R,
        alloc: Global,
        pass: &mut Pass,
        h: Handle,
    ) -> Result<(), Refused>
        requires pass { IsPassOf self.now.turn pass.old }
        requires idle { holding pass.old ≡ false }
        ensures pass { IsPassOf self.now.turn pass.new × (holding pass.new ≡ false) }
        ensures sees { Sees pass.old pass.new }
        ensures made { OnOk result (HasMade (DiscardFrame h) reply.Done pass.old pass.new) }
        ensures refused { IfErr result (λ e. IsRefused (DiscardFrame h) e pass.old pass.new) }
    {
        self.done(rt, alloc, pass, Call::DiscardFrame { h })
    }
}
