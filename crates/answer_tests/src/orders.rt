//! Of several refusals that apply at once, the one with the lowest number is answered.
use crate::bench::Bench;
use crate::calls::{
    array_of, dead, discard, map_array, map_frame, map_parameter, name, not_held, object,
    parameter_info, property, ready, render, set, surfaces, wrong_kind,
};
use dev_types::{Channel, DataType, Handle, Origin, Refused, Value};
use seq_model::{Call, Reply};
use std::alloc::Global;
use std::test::Fail;

/// Why frame 9 is not rendered, or its world 6 not measured.
#[derive(Clone, Copy)]
enum Cause {
    /// The world's array 5 is mapped.
    Mapped,
    /// The frame is in flight.
    Flying,
    /// The frame's colours are mapped.
    Shown,
    /// Surface 4 has no material.
    Lacking,
    /// The world has 257 lights.
    Crowded,
    /// A vertex of geometry 2 is too far away.
    Far,
}

impl Cause {
    /// The refusal for this cause.
    fn refusal(self) -> Result<Refused, Fail> {
        Ok(match self {
            Cause::Mapped => Refused::ArrayMapped(Handle(5)),
            Cause::Flying => Refused::InFlight { given: 0, of: 1 },
            Cause::Shown => Refused::ChannelMapped,
            Cause::Lacking => Refused::Incomplete(Handle(4), name("material")?),
            Cause::Crowded => Refused::TooMany(256),
            Cause::Far => Refused::OutOfRange(Handle(2), name("vertex.position")?),
        })
    }

    /// Makes it so.
    fn arrange(self, bench: &mut Bench, alloc: Global) -> Result<(), Fail> {
        match self {
            Cause::Mapped => bench.call(alloc, map_array(5)),
            Cause::Flying => bench.call(alloc, render(9)),
            Cause::Shown => show(bench, alloc),
            Cause::Lacking => lack(bench, alloc),
            Cause::Crowded => crowd(bench, alloc),
            Cause::Far => move_away(bench, alloc),
        }
    }
}

fn show(bench: &mut Bench, alloc: Global) -> Result<(), Fail> {
    bench.call(alloc, render(9))?;
    bench.finish_flight()?;
    bench.map_triangle(alloc)
}

fn lack(bench: &mut Bench, alloc: Global) -> Result<(), Fail> {
    let name = name("material")?;
    let h = Handle(4);
    bench.call(alloc, Call::UnsetParameter { h, name })?;
    bench.commit(alloc, 4)
}

/// Gives the world an array that names one light 257 times.
fn crowd(bench: &mut Bench, alloc: Global) -> Result<(), Fail> {
    bench.create(alloc, DataType::Light, "point")?;
    let light = made(bench)?;
    let mut lights = Vec::new(alloc);
    for _ in 0..257 {
        lights.push(object(DataType::Light, light))?;
    }
    bench.create_array(alloc, DataType::Light, 1, &lights)?;
    let array = made(bench)?;
    bench.set(alloc, 6, "light", object(DataType::Array1D, array))?;
    bench.commit(alloc, 6)
}

/// Gives the geometry vertices of which one has a coordinate past 2^28.
fn move_away(bench: &mut Bench, alloc: Global) -> Result<(), Fail> {
    let corners = [
        Value::ScalarVec3([0; 3]),
        Value::ScalarVec3([268435457, 0, 0]),
        Value::ScalarVec3([0, 65536, 0]),
    ];
    bench.create_array(alloc, DataType::ScalarVec3, 1, &corners)?;
    let array = made(bench)?;
    let array = object(DataType::Array1D, array);
    bench.set(alloc, 2, "vertex.position", array)?;
    bench.commit(alloc, 2)
}

/// The handle that the last call made.
fn made(bench: &Bench) -> Result<u64, Fail> {
    match bench.device.reply() {
        Some(Reply::Made(h)) => Ok(h.0),
        _ => Err("an object")?,
    }
}

/// Arranges one cause, then another, after which the frame is not rendered for the third.
fn refuse_render(bench: &mut Bench, alloc: Global, causes: [Cause; 3]) -> Result<(), Fail> {
    let [first, second, lowest] = causes;
    bench.build(alloc)?;
    first.arrange(bench, alloc)?;
    second.arrange(bench, alloc)?;
    let wanted = lowest.refusal()?;
    bench.refuse(alloc, render(9), wanted, "render_frame: another cause")
}

/// As `refuse_render`, of the bounds of the world.
fn refuse_bounds(bench: &mut Bench, alloc: Global, causes: [Cause; 3]) -> Result<(), Fail> {
    let [first, second, lowest] = causes;
    bench.build(alloc)?;
    first.arrange(bench, alloc)?;
    second.arrange(bench, alloc)?;
    let bounds = property(6, "bounds")?;
    let wanted = lowest.refusal()?;
    bench.refuse(alloc, bounds, wanted, "bounds: another cause")
}

#[test]
fn a_render_is_refused_by_the_lower_of_two_causes(rt: HostRuntime) -> Result<(), Fail> {
    let alloc = rt.alloc();
    for causes in [
        [Cause::Flying, Cause::Mapped, Cause::Mapped],
        [Cause::Shown, Cause::Mapped, Cause::Mapped],
        [Cause::Lacking, Cause::Mapped, Cause::Mapped],
        [Cause::Crowded, Cause::Mapped, Cause::Mapped],
        [Cause::Far, Cause::Mapped, Cause::Mapped],
        [Cause::Flying, Cause::Lacking, Cause::Flying],
        [Cause::Flying, Cause::Crowded, Cause::Flying],
        [Cause::Flying, Cause::Far, Cause::Flying],
        [Cause::Shown, Cause::Lacking, Cause::Shown],
        [Cause::Shown, Cause::Crowded, Cause::Shown],
        [Cause::Shown, Cause::Far, Cause::Shown],
        [Cause::Crowded, Cause::Lacking, Cause::Lacking],
        [Cause::Far, Cause::Lacking, Cause::Lacking],
        [Cause::Far, Cause::Crowded, Cause::Crowded],
        [Cause::Far, Cause::Far, Cause::Far],
    ] {
        let mut bench = Bench::new(alloc)?;
        let refused = refuse_render(&mut bench, alloc, causes);
        bench.finish();
        refused?;
    }
    Ok(())
}

#[test]
fn bounds_are_refused_by_the_lower_of_two_causes(rt: HostRuntime) -> Result<(), Fail> {
    let alloc = rt.alloc();
    for causes in [
        [Cause::Lacking, Cause::Mapped, Cause::Mapped],
        [Cause::Crowded, Cause::Mapped, Cause::Mapped],
        [Cause::Far, Cause::Mapped, Cause::Mapped],
        [Cause::Crowded, Cause::Lacking, Cause::Lacking],
        [Cause::Far, Cause::Lacking, Cause::Lacking],
        [Cause::Far, Cause::Crowded, Cause::Crowded],
        [Cause::Far, Cause::Far, Cause::Far],
    ] {
        let mut bench = Bench::new(alloc)?;
        let refused = refuse_bounds(&mut bench, alloc, causes);
        bench.finish();
        refused?;
    }
    Ok(())
}

/// What is let go but named: the frame is held, and nothing else.
fn let_go(bench: &mut Bench, alloc: Global) -> Result<(), Fail> {
    bench.build(alloc)?;
    bench.release(alloc, &[1, 2, 3, 4, 5, 6, 7, 8])?;
    bench.create(alloc, DataType::Camera, "perspective")?;
    bench.create(alloc, DataType::Geometry, "sphere")
}

/// Values that several refusals apply to. Camera 10 and geometry 11 are held.
fn refuse_values(bench: &mut Bench, alloc: Global) -> Result<(), Fail> {
    for (h, text, value, wanted) in [
        // A dead object before a dead value, and this before all else.
        (98, "foo", 99, dead(98)),
        (1, "foo", 99, dead(99)),
        (10, "height", 99, dead(99)),
        (10, "foo", 99, dead(99)),
        // An object that is not held before such a value, and before what the value is.
        (1, "foo", 2, not_held(1)),
        (1, "foo", 10, not_held(1)),
        (4, "geometry", 10, not_held(4)),
        // A value that is not held before what it is.
        (10, "position", 3, not_held(3)),
        (10, "position", 2, not_held(2)),
        (10, "foo", 2, not_held(2)),
        // A value of another type than it says before what the row takes.
        (11, "radius", 10, wrong_kind(10)),
        (11, "foo", 10, wrong_kind(10)),
    ] {
        let call = set(h, text, object(DataType::Geometry, value))?;
        bench.refuse(alloc, call, wanted, "set: a refusal that comes later")?;
    }
    let no_object = set(11, "foo", object(DataType::Scalar, 10))?;
    bench.refuse(alloc, no_object, Refused::BadType, "set: no row first")
}

fn refuse_arrays(bench: &mut Bench, alloc: Global) -> Result<(), Fail> {
    let corner = [Value::ScalarVec3([0; 3])];
    let texts = array_of(alloc, DataType::Str, 1, Origin::Managed, &corner)?;
    bench.refuse(alloc, texts, Refused::BadType, "no elements, and a shape")?;
    let gone = [object(DataType::Surface, 99)];
    let narrow = array_of(alloc, DataType::Surface, 7, Origin::Captured(1), &gone)?;
    bench.refuse(
        alloc,
        narrow,
        Refused::BadShape,
        "a shape hides its elements",
    )?;
    let list = surfaces(alloc, &[4, 99])?;
    bench.refuse(alloc, list, dead(99), "an element not held, then one dead")?;
    let list = surfaces(alloc, &[10, 99])?;
    bench.refuse(alloc, list, dead(99), "an element of a type, then one dead")?;
    let list = surfaces(alloc, &[10, 4])?;
    bench.refuse(
        alloc,
        list,
        not_held(4),
        "an element of a type, then not held",
    )?;
    bench.refuse(alloc, map_array(2), not_held(2), "not held, and no array")
}

fn refuse_loans(bench: &mut Bench, alloc: Global) -> Result<(), Fail> {
    let text = DataType::Str;
    let light = DataType::Light;
    for (h, name, elem, wanted) in [
        (98, "foo", text, dead(98)),
        (2, "foo", text, not_held(2)),
        (2, "radius", light, not_held(2)),
        (11, "foo", text, Refused::BadType),
        (11, "radius", light, Refused::BadType),
        (11, "foo", light, Refused::UnknownObjectParameter),
    ] {
        // Of so many elements each type has too many bytes.
        let call = map_parameter(h, name, elem, 33554433)?;
        bench.refuse(alloc, call, wanted, "map: a refusal that comes later")?;
    }
    Ok(())
}

fn refuse_queries(bench: &mut Bench, alloc: Global) -> Result<(), Fail> {
    let asked = property(98, "foo")?;
    bench.refuse(alloc, asked, dead(98), "dead, and no name")?;
    let asked = property(6, "foo")?;
    bench.refuse(alloc, asked, not_held(6), "not held, and no name")?;
    let asked = parameter_info(DataType::Light, "matte", "foo")?;
    bench.refuse(alloc, asked, Refused::BadSubtype, "no subtype, and no name")?;
    lack_unheld(bench, alloc)
}

/// The frame is not held while it is in flight, and a channel that it lacks is asked for.
fn lack_unheld(bench: &mut Bench, alloc: Global) -> Result<(), Fail> {
    let ids = map_frame(9, Channel::ObjectId);
    bench.refuse(alloc, ids, Refused::NoPicture, "no picture, and no channel")?;
    bench.call(alloc, render(9))?;
    let ids = map_frame(9, Channel::ObjectId);
    let flying = Refused::InFlight { given: 0, of: 1 };
    bench.refuse(alloc, ids, flying, "in flight, and no channel")?;
    bench.release(alloc, &[9])?;
    bench.refuse(alloc, render(9), not_held(9), "not held, in flight")?;
    let colors = map_frame(9, Channel::Color);
    bench.refuse(alloc, colors, not_held(9), "not held, in flight")
}

fn refuse_all(bench: &mut Bench, alloc: Global) -> Result<(), Fail> {
    let_go(bench, alloc)?;
    refuse_values(bench, alloc)?;
    refuse_arrays(bench, alloc)?;
    refuse_loans(bench, alloc)?;
    bench.refuse(alloc, ready(2), not_held(2), "not held, and no frame")?;
    bench.refuse(alloc, discard(2), not_held(2), "not held, and no frame")?;
    bench.refuse(alloc, render(2), not_held(2), "not held, and no frame")?;
    refuse_queries(bench, alloc)
}

#[test]
fn of_two_refusals_the_lower_is_answered(rt: HostRuntime) -> Result<(), Fail> {
    let alloc = rt.alloc();
    let mut bench = Bench::new(alloc)?;
    let refused = refuse_all(&mut bench, alloc);
    bench.finish();
    refused
}

/// The frame, of which a flight was stopped or a picture is mapped, is let go.
fn refuse_unheld(bench: &mut Bench, alloc: Global, shown: bool) -> Result<(), Fail> {
    bench.build(alloc)?;
    if shown {
        show(bench, alloc)?;
    } else {
        bench.call(alloc, render(9))?;
        bench.call(alloc, discard(9))?;
    }
    bench.release(alloc, &[9])?;
    bench.refuse(alloc, ready(9), not_held(9), "not held, no picture")?;
    bench.refuse(alloc, discard(9), not_held(9), "not held, mapped")?;
    bench.refuse(alloc, render(9), not_held(9), "not held, mapped")?;
    let colors = map_frame(9, Channel::Color);
    bench.refuse(alloc, colors, not_held(9), "not held, mapped or no picture")?;
    let ids = map_frame(9, Channel::ObjectId);
    bench.refuse(alloc, ids, not_held(9), "not held, no channel")
}

#[test]
fn a_frame_that_is_not_held_is_refused_as_such(rt: HostRuntime) -> Result<(), Fail> {
    for shown in [false, true] {
        let mut bench = Bench::new(rt.alloc())?;
        let refused = refuse_unheld(&mut bench, rt.alloc(), shown);
        bench.finish();
        refused?;
    }
    Ok(())
}

/// A mapped array and its world, which others name, are let go.
fn refuse_mapped(bench: &mut Bench, alloc: Global) -> Result<(), Fail> {
    bench.build(alloc)?;
    bench.call(alloc, map_array(5))?;
    bench.release(alloc, &[5, 6])?;
    bench.refuse(alloc, map_array(5), not_held(5), "not held, and mapped")?;
    let bounds = property(6, "bounds")?;
    bench.refuse(alloc, bounds, not_held(6), "not held, over a mapped array")
}

#[test]
fn what_is_mapped_and_not_held_is_refused_as_such(rt: HostRuntime) -> Result<(), Fail> {
    let mut bench = Bench::new(rt.alloc())?;
    let refused = refuse_mapped(&mut bench, rt.alloc());
    bench.finish();
    refused
}
