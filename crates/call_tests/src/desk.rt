//! A device with a pass that has the whole turn.
ghost use Rattle.std.specs.Prelude.{◌≡◌, ◌≤◌, ◌^◌, false};
ghost use Rattle.turn_lock.specs.Passes.{IsPassOf, holding, share};
ghost use Rattle.turn_lock.specs.Views.{IsWhole};

use crate::listener::Listener;
use dev_types::{DataType, Handle, Name, Origin, Refused, Value, encode_value, size_of};
use device_calls::{Closed, Device, Pass};
use std::alloc::Global;
use std::sync::Wait;
use std::test::Fail;

/// A device with a pass that has the whole turn.
#[derive(Drop)]
pub struct Desk {
    pub device: Device<Listener>,
    pub pass: Pass,
    ghost own: { IsPassOf device.turn pass × (holding pass ≡ false) },
    ghost whole: { IsWhole (share pass) },
}

pub fn expect(is: bool, what: &'static str) -> Result<(), Fail> {
    if is { Ok(()) } else { Err(what)? }
}

pub fn name(text: &str) -> Result<Name, Fail> {
    Ok(Name::new(text).ok_or("a name")?)
}

pub fn object(ty: DataType, h: u64) -> Value {
    Value::Object(ty, Handle(h))
}

/// A call that was done.
pub fn done<T>(made: Result<T, Refused>, row: &'static str) -> Result<T, Fail> {
    match made {
        Ok(value) => Ok(value),
        Err(_refused) => Err(row)?,
    }
}

/// A call that was refused so.
pub fn refused<T: Drop>(
    made: Result<T, Refused>,
    wanted: &Refused,
    row: &'static str,
) -> Result<(), Fail> {
    match made {
        Ok(_value) => Err(row)?,
        Err(refused) => expect(refused == *wanted, row),
    }
}

impl Desk {
    /// A device whose journal takes so many entries.
    pub fn new(alloc: Global, limit: u32) -> Result<Desk, Fail>
        requires { (2 ≤ limit) × (limit ≤ 2 ^ 20) }
    {
        let listener = Listener {
            heard: Vec::new(alloc),
        };
        match Device::new(alloc, listener, limit) {
            Ok((device, pass)) => Ok(Desk { device, pass }),
            Err(_) => Err("out of memory")?,
        }
    }

    /// Ends the device: how long its journal is, how many notices were told, and how many worlds
    /// were prepared.
    pub fn close<R: Wait>(self, rt: &R) -> (u64, usize, u64) {
        let Desk { device, pass } = self;
        let Closed {
            journal,
            client,
            builds,
        } = device.close(rt, pass);
        (journal.len(), client.heard.len(), builds)
    }

    pub fn create<R: Wait>(
        &mut self,
        rt: &R,
        alloc: Global,
        ty: DataType,
        subtype: &str,
    ) -> Result<Handle, Fail> {
        let subtype = name(subtype)?;
        let made = self
            .device
            .new_object(rt, alloc, &mut self.pass, ty, &subtype);
        done(made, "new_object")
    }

    /// Makes a captured array of these values without gaps, whose deleter has this word.
    pub fn create_array<R: Wait>(
        &mut self,
        rt: &R,
        alloc: Global,
        elem: DataType,
        user: u64,
        values: &[Value],
    ) -> Result<Handle, Fail> {
        let mut bytes = Vec::new(alloc);
        for value in values {
            bytes.extend_from_slice(&encode_value(alloc, value)?)?;
        }
        let count = values.len() as u64;
        let stride = u64::from(size_of(elem));
        let origin = Origin::Captured(user);
        let device = &self.device;
        let pass = &mut self.pass;
        match device.new_array(rt, alloc, pass, bytes, elem, count, stride, origin) {
            Ok(h) => Ok(h),
            Err((_refused, _bytes)) => Err("new_array")?,
        }
    }

    pub fn set<R: Wait>(
        &mut self,
        rt: &R,
        alloc: Global,
        h: u64,
        parameter: &str,
        value: &Value,
    ) -> Result<(), Fail> {
        let parameter = name(parameter)?;
        let h = Handle(h);
        let device = &self.device;
        let made = device.set_parameter(rt, alloc, &mut self.pass, h, &parameter, value);
        done(made, "set_parameter")
    }

    pub fn commit<R: Wait>(&mut self, rt: &R, alloc: Global, h: u64) -> Result<(), Fail> {
        let made = self.device.commit(rt, alloc, &mut self.pass, Handle(h));
        done(made, "commit")
    }
}
