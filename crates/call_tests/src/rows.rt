//! One caller at the device: what is told of a frame that nobody works at, loans of another device, a
//! journal that is full, and memory for calls.
ghost use Rattle.std.specs.Prelude.{◌≡◌, false};
ghost use Rattle.turn_lock.specs.Passes.{IsPassOf, holding};

use crate::desk::{Desk, done, expect, name, refused};
use crate::scene::{FRAME, shows, triangle};
use array_objects::Lent;
use dev_types::{Channel, DataType, Handle, Origin, Ready, Refused, Value};
use device_calls::Worked;
use object_steps::LentParam;
use std::alloc::Global;
use std::sync::Wait;
use std::test::Fail;

impl Desk {
    /// Renders the frame, at place 28.
    pub fn render<R: Wait>(&mut self, rt: &R, alloc: Global) -> Result<(), Fail> {
        let made = self.device.render_frame(rt, alloc, &mut self.pass, FRAME);
        expect(done(made, "render_frame")? == 28, "a ticket of 28")
    }

    /// Whether the frame is ready, without waiting for it.
    fn ready<R: Wait>(&mut self, rt: &R, alloc: Global) -> Result<Ready, Fail> {
        let made = self
            .device
            .frame_ready(rt, alloc, &mut self.pass, FRAME, false);
        done(made, "frame_ready")
    }

    /// The frame's colours are mapped, and are those of the triangle.
    fn show<R: Wait>(&mut self, rt: &R, alloc: Global) -> Result<(), Fail> {
        let made = self
            .device
            .map_frame(rt, alloc, &mut self.pass, FRAME, Channel::Color);
        let frame = done(made, "map_frame")?;
        expect(shows(&frame, triangle(alloc)?.as_slice()), "the triangle")?;
        match self.device.unmap_frame(rt, alloc, &mut self.pass, frame) {
            Ok(()) => Ok(()),
            Err(_back) => Err("unmap_frame")?,
        }
    }

    /// A frame in flight is neither mapped nor rendered again.
    fn refuse_in_flight<R: Wait>(&mut self, rt: &R, alloc: Global) -> Result<(), Fail> {
        let wanted = Refused::InFlight { given: 0, of: 1 };
        let mapped = self
            .device
            .map_frame(rt, alloc, &mut self.pass, FRAME, Channel::Color);
        refused(mapped, &wanted, "map_frame in flight")?;
        let made = self.device.render_frame(rt, alloc, &mut self.pass, FRAME);
        refused(made, &wanted, "render_frame in flight")
    }

    /// One tile is given, and then there is nothing to do.
    fn work<R: Wait>(&mut self, rt: &R, alloc: Global) -> Result<(), Fail> {
        match &self.device.work_once(rt, alloc, &mut self.pass) {
            Ok(Worked::Gave { ticket, .. }) => expect(*ticket == 28, "work at flight 28")?,
            _ => Err("work")?,
        }
        match &self.device.work_once(rt, alloc, &mut self.pass) {
            Ok(Worked::Idle(idle)) => expect(idle.tickets().is_empty(), "no flight"),
            _ => Err("no work")?,
        }
    }
}

fn show_triangle<R: Wait>(desk: &mut Desk, rt: &R, alloc: Global) -> Result<(), Fail> {
    desk.build(rt, alloc)?;
    desk.render(rt, alloc)?;
    let ready = desk.ready(rt, alloc)?;
    expect(ready == Ready::NotYet { given: 0, of: 1 }, "not ready")?;
    desk.refuse_in_flight(rt, alloc)?;
    desk.work(rt, alloc)?;
    let ready = desk.ready(rt, alloc)?;
    expect(ready == Ready::Yes, "ready")?;
    desk.show(rt, alloc)
}

#[test]
fn a_render_renders_nothing_itself(rt: HostRuntime) -> Result<(), Fail> {
    let mut desk = Desk::new(rt.alloc(), 1048576)?;
    show_triangle(&mut desk, &rt, rt.alloc())?;
    assert_eq!(rt; desk.close(&rt), (36, 4, 1));
    Ok(())
}

/// A waiting caller renders the frame itself, where nobody else does.
fn wait_for_triangle<R: Wait>(desk: &mut Desk, rt: &R, alloc: Global) -> Result<(), Fail> {
    desk.build(rt, alloc)?;
    desk.render(rt, alloc)?;
    let made = desk
        .device
        .frame_ready(rt, alloc, &mut desk.pass, FRAME, true);
    expect(done(made, "frame_ready")? == Ready::Yes, "ready")?;
    desk.show(rt, alloc)
}

#[test]
fn a_caller_that_waits_renders(rt: HostRuntime) -> Result<(), Fail> {
    let mut desk = Desk::new(rt.alloc(), 1048576)?;
    wait_for_triangle(&mut desk, &rt, rt.alloc())?;
    assert_eq!(rt; desk.close(&rt), (33, 2, 1));
    Ok(())
}

impl Desk {
    /// A vertex array, mapped.
    fn map<R: Wait>(&mut self, rt: &R, alloc: Global) -> Result<Lent, Fail> {
        let corner = [Value::ScalarVec3([1, 2, 3])];
        let h = self.create_array(rt, alloc, DataType::ScalarVec3, 7, &corner)?;
        let made = self.device.map_array(rt, alloc, &mut self.pass, h);
        done(made, "map_array")
    }

    /// The memory of an array for the lights of a new world.
    fn map_lights<R: Wait>(&mut self, rt: &R, alloc: Global) -> Result<LentParam, Fail> {
        let h = self.create(rt, alloc, DataType::World, "default")?;
        let device = &self.device;
        let light = name("light")?;
        let pass = &mut self.pass;
        let made = device.map_parameter_array(rt, alloc, pass, h, &light, DataType::Light, 2);
        done(made, "map_parameter_array")
    }
}

/// Gives a loan to a device that did not lend it, which hands it back.
fn refuse_loan<R: Wait>(desk: &mut Desk, rt: &R, alloc: Global, lent: Lent) -> Result<Lent, Fail> {
    match desk.device.unmap_array(rt, alloc, &mut desk.pass, lent) {
        Ok(()) => Err("another device's loan")?,
        Err((refused, lent)) => {
            if refused == Refused::NotMapped && lent.bytes().len() == 12 {
                return Ok(lent);
            }
            lent.give_up();
            Err("not mapped")?
        }
    }
}

fn take_loan<R: Wait>(desk: &mut Desk, rt: &R, alloc: Global, lent: Lent) -> Result<(), Fail> {
    match desk.device.unmap_array(rt, alloc, &mut desk.pass, lent) {
        Ok(()) => Ok(()),
        Err((_refused, lent)) => {
            lent.give_up();
            Err("unmap_array")?
        }
    }
}

#[test]
fn a_loan_goes_back_to_its_own_device(rt: HostRuntime) -> Result<(), Fail> {
    let mut first = Desk::new(rt.alloc(), 1048576)?;
    let mut second = Desk::new(rt.alloc(), 1048576)?;
    let corner = [Value::ScalarVec3([4, 5, 6])];
    second.create_array(&rt, rt.alloc(), DataType::ScalarVec3, 8, &corner)?;
    let lent = first.map(&rt, rt.alloc())?;
    let lent = refuse_loan(&mut second, &rt, rt.alloc(), lent)?;
    take_loan(&mut first, &rt, rt.alloc(), lent)
}

/// As `refuse_loan`, of an array for a parameter.
fn refuse_lights<R: Wait>(
    desk: &mut Desk,
    rt: &R,
    alloc: Global,
    lent: LentParam,
) -> Result<LentParam, Fail> {
    match desk
        .device
        .unmap_parameter_array(rt, alloc, &mut desk.pass, lent)
    {
        Ok(_) => Err("another device's loan")?,
        Err((refused, lent)) => {
            if refused == Refused::NotMapped && lent.bytes().len() == 16 {
                return Ok(lent);
            }
            lent.give_up();
            Err("not mapped")?
        }
    }
}

/// The array that is made of a loan for a parameter.
fn take_lights<R: Wait>(
    desk: &mut Desk,
    rt: &R,
    alloc: Global,
    lent: LentParam,
) -> Result<Handle, Fail> {
    match desk
        .device
        .unmap_parameter_array(rt, alloc, &mut desk.pass, lent)
    {
        Ok(h) => Ok(h),
        Err((_refused, lent)) => {
            lent.give_up();
            Err("unmap_parameter_array")?
        }
    }
}

#[test]
fn a_parameters_loan_goes_back_to_its_own_device(rt: HostRuntime) -> Result<(), Fail> {
    let mut first = Desk::new(rt.alloc(), 1048576)?;
    let mut second = Desk::new(rt.alloc(), 1048576)?;
    second.create(&rt, rt.alloc(), DataType::World, "default")?;
    let lent = first.map_lights(&rt, rt.alloc())?;
    let lent = refuse_lights(&mut second, &rt, rt.alloc(), lent)?;
    let made = take_lights(&mut first, &rt, rt.alloc(), lent)?;
    assert_eq!(rt; made, Handle(2));
    Ok(())
}

/// Makes no array of these bytes, which come back, for this reason.
fn refuse_bytes<R: Wait>(
    desk: &mut Desk,
    rt: &R,
    alloc: Global,
    bytes: &[u8],
    wanted: &Refused,
) -> Result<(), Fail> {
    let given = Vec::from_slice(alloc, bytes)?;
    let elem = DataType::ScalarVec3;
    let origin = Origin::Captured(1);
    let device = &desk.device;
    let pass = &mut desk.pass;
    match device.new_array(rt, alloc, pass, given, elem, 1, 12, origin) {
        Ok(_) => Err("new_array")?,
        Err((refused, back)) => expect(
            refused == *wanted && back.as_slice() == bytes,
            "the bytes come back",
        ),
    }
}

fn fill_four<R: Wait>(desk: &mut Desk, rt: &R, alloc: Global) -> Result<(), Fail> {
    for _ in 0..3 {
        desk.create(rt, alloc, DataType::Group, "default")?;
    }
    let full = Refused::JournalFull(4);
    let made = desk.device.retain(rt, alloc, &mut desk.pass, Handle(1));
    refused(made, &full, "retain")?;
    refuse_bytes(desk, rt, alloc, &[7; 12], &full)
}

#[test]
fn a_journal_of_four_takes_three_calls_and_the_close(rt: HostRuntime) -> Result<(), Fail> {
    let mut desk = Desk::new(rt.alloc(), 4)?;
    fill_four(&mut desk, &rt, rt.alloc())?;
    assert_eq!(rt; desk.close(&rt), (4, 0, 0));
    Ok(())
}

#[test]
fn bytes_come_back_of_an_array_that_is_refused(rt: HostRuntime) -> Result<(), Fail> {
    let mut desk = Desk::new(rt.alloc(), 16)?;
    refuse_bytes(&mut desk, &rt, rt.alloc(), &[5; 11], &Refused::BadShape)?;
    assert_eq!(rt; desk.close(&rt), (2, 1, 0));
    Ok(())
}

fn hold_once<R: Wait>(desk: &mut Desk, rt: &R, alloc: Global) -> Result<(), Fail> {
    let h = desk.create(rt, alloc, DataType::Group, "default")?;
    let reserved = desk.device.reserve_calls(rt, alloc, &mut desk.pass, 2);
    expect(reserved.is_ok(), "reserve_calls")?;
    let retained = desk.device.retain(rt, alloc, &mut desk.pass, h);
    done(retained, "retain")?;
    let released = desk.device.release(rt, alloc, &mut desk.pass, h);
    done(released, "release")
}

#[test]
fn memory_for_calls_is_taken_before_them(rt: HostRuntime) -> Result<(), Fail> {
    let mut desk = Desk::new(rt.alloc(), 1048576)?;
    hold_once(&mut desk, &rt, rt.alloc())?;
    assert_eq!(rt; desk.close(&rt), (4, 0, 0));
    Ok(())
}
