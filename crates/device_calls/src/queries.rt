//! What a device tells about itself and its objects.
ghost use Rattle.std.specs.Prelude.{◌≡◌, false, IfErr, IfOk};
ghost use Rattle.seq_model.specs.declared.calls.Call.TheVariants.{GetProperty, ObjectInfo, ParameterInfo, Subtypes};
ghost use Rattle.seq_model.specs.declared.calls.Reply.TheVariants as reply;
ghost use Rattle.turn_lock.specs.Passes.{IsPassOf, holding};
ghost use Rattle.device_calls.specs.Passes.{Sees};
ghost use Rattle.device_calls.specs.Replies.{HasMade, IsRefused};

use crate::device::{Device, Pass};
use dev_types::{Client, DataType, Handle, Name, Names, ParamInfo, Refused, Value};
use seq_model::{Call, Reply};
use std::alloc::Global;
use std::sync::Wait;

impl<C: Client> Device<C> {
    /// A property of an object, or of the device, which has handle 0 (ANARI 1.0 Specification, object
    /// introspection).
    ///
    /// # Errors
    /// 1, 2, 3, 9, 15, 16, 17, 18, 19.
    pub fn get_property<R: Wait>(
        &self,
        rt: &R,
        alloc: Global,
        pass: &mut Pass,
        h: Handle,
        name: &Name,
    ) -> Result<Value, Refused>
        requires pass { IsPassOf self.now.turn pass.old }
        requires idle { holding pass.old ≡ false }
        ensures pass { IsPassOf self.now.turn pass.new × (holding pass.new ≡ false) }
        ensures sees { Sees pass.old pass.new }
        ensures made { IfOk result
            (λ v. HasMade (GetProperty h name.now) (reply.Val v) pass.old pass.new) }
        ensures refused { IfErr result (λ e. IsRefused (GetProperty h name.now) e pass.old pass.new) }
    {
        let name = name.copied();
        match self.reply(rt, alloc, pass, Call::GetProperty { h, name }) {
            Ok(reply) => match reply {
                Reply::Val(value) => Ok(value),
                _ => unreachable!(),
            },
            Err(refused) => Err(refused),
        }
    }

    /// The subtypes of a type of objects (ANARI 1.0 Specification, device introspection).
    ///
    /// # Errors
    /// 1, 18, 19.
    pub fn subtypes<R: Wait>(
        &self,
        rt: &R,
        alloc: Global,
        pass: &mut Pass,
        ty: DataType,
    ) -> Result<Names, Refused>
        requires pass { IsPassOf self.now.turn pass.old }
        requires idle { holding pass.old ≡ false }
        ensures pass { IsPassOf self.now.turn pass.new × (holding pass.new ≡ false) }
        ensures sees { Sees pass.old pass.new }
        ensures made { IfOk result
            (λ names. HasMade (Subtypes ty) (reply.Listed names) pass.old pass.new) }
        ensures refused { IfErr result (λ e. IsRefused (Subtypes ty) e pass.old pass.new) }
    {
        match self.reply(rt, alloc, pass, Call::Subtypes { ty }) {
            Ok(reply) => match reply {
                Reply::Listed(names) => Ok(names),
                _ => unreachable!(),
            },
            Err(refused) => Err(refused),
        }
    }

    /// The names of the parameters of a subtype.
    ///
    /// # Errors
    /// 1, 5, 19.
    pub fn object_info<R: Wait>(
        &self,
        rt: &R,
        alloc: Global,
        pass: &mut Pass,
        ty: DataType,
        subtype: &Name,
    ) -> Result<Names, Refused>
        requires pass { IsPassOf self.now.turn pass.old }
        requires idle { holding pass.old ≡ false }
        ensures pass { IsPassOf self.now.turn pass.new × (holding pass.new ≡ false) }
        ensures sees { Sees pass.old pass.new }
        ensures made { IfOk result
            (λ names. HasMade (ObjectInfo ty subtype.now) (reply.Listed names) pass.old pass.new) }
        ensures refused { IfErr result (λ e. IsRefused (ObjectInfo ty subtype.now) e pass.old pass.new) }
    {
        let subtype = subtype.copied();
        match self.reply(rt, alloc, pass, Call::ObjectInfo { ty, subtype }) {
            Ok(reply) => match reply {
                Reply::Listed(names) => Ok(names),
                _ => unreachable!(),
            },
            Err(refused) => Err(refused),
        }
    }

    /// What is told of a parameter of a subtype: its type, whether it is required, and its default.
    ///
    /// # Errors
    /// 1, 5, 18, 19.
    pub fn parameter_info<R: Wait>(
        &self,
        rt: &R,
        alloc: Global,
        pass: &mut Pass,
        ty: DataType,
        subtype: &Name,
        name: &Name,
    ) -> Result<ParamInfo, Refused>
        requires pass { IsPassOf self.now.turn pass.old }
        requires idle { holding pass.old ≡ false }
        ensures pass { IsPassOf self.now.turn pass.new × (holding pass.new ≡ false) }
        ensures sees { Sees pass.old pass.new }
        ensures made { IfOk result
            (λ info. HasMade (ParameterInfo ty subtype.now name.now) (reply.Info info) pass.old pass.new) }
        ensures refused { IfErr result (λ e. IsRefused (ParameterInfo ty subtype.now name.now) e pass.old pass.new) }
    {
        let subtype = subtype.copied();
        let name = name.copied();
        match self.reply(rt, alloc, pass, Call::ParameterInfo { ty, subtype, name }) {
            Ok(reply) => match reply {
                Reply::Info(info) => Ok(info),
                _ => unreachable!(),
            },
            Err(refused) => Err(refused),
        }
    }
}
