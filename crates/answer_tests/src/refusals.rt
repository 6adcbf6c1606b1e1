//! Each refusal of each call, alone.
use crate::bench::Bench;
use crate::calls::{
    array_of, dead, discard, map_array, map_frame, map_parameter, name, not_held, object,
    object_info, parameter_info, property, ready, render, set, surfaces, unset, wrong_kind,
};
use dev_types::{Bytes, Channel, DataType, Handle, Origin, Refused, Value};
use seq_model::Call;
use std::alloc::Global;
use std::test::Fail;

fn refuse_creations(bench: &mut Bench, alloc: Global) -> Result<(), Fail> {
    let camera = Call::NewObject {
        ty: DataType::Camera,
        subtype: name("omnidirectional")?,
    };
    bench.refuse(alloc, camera, Refused::BadSubtype, "new_object: no subtype")?;
    let origin = Origin::Captured(1);
    let texts = array_of(alloc, DataType::Str, 256, origin, &[])?;
    bench.refuse(alloc, texts, Refused::BadType, "new_array: no elements")?;
    let corner = [Value::ScalarVec3([0; 3])];
    let narrow = array_of(alloc, DataType::ScalarVec3, 11, origin, &corner)?;
    bench.refuse(alloc, narrow, Refused::BadShape, "new_array: stride")?;
    let managed = array_of(alloc, DataType::ScalarVec3, 12, Origin::Managed, &corner)?;
    bench.refuse(alloc, managed, Refused::BadShape, "new_array: given bytes")?;
    let list = surfaces(alloc, &[99])?;
    bench.refuse(alloc, list, dead(99), "new_array: dead element")?;
    let list = surfaces(alloc, &[4])?;
    bench.refuse(alloc, list, not_held(4), "new_array: element not held")?;
    let list = surfaces(alloc, &[8])?;
    bench.refuse(alloc, list, wrong_kind(8), "new_array: element of a type")
}

fn refuse_references(bench: &mut Bench, alloc: Global, h: u64, why: &Refused) -> Result<(), Fail> {
    let object = Handle(h);
    let retain = Call::Retain { h: object };
    bench.refuse(alloc, retain, why.copied(), "retain")?;
    let release = Call::Release { h: object };
    bench.refuse(alloc, release, why.copied(), "release")?;
    let unset = unset(h, "color")?;
    bench.refuse(alloc, unset, why.copied(), "unset_parameter")?;
    let unset_all = Call::UnsetAll { h: object };
    bench.refuse(alloc, unset_all, why.copied(), "unset_all")?;
    let commit = Call::Commit { h: object };
    bench.refuse(alloc, commit, why.copied(), "commit")?;
    let set = set(h, "color", Value::Scalar(0))?;
    bench.refuse(alloc, set, why.copied(), "set_parameter")?;
    bench.refuse(alloc, map_array(h), why.copied(), "map_array")?;
    let lend = map_parameter(h, "color", DataType::Scalar, 1)?;
    bench.refuse(alloc, lend, why.copied(), "map_parameter_array")?;
    let asked = property(h, "bounds")?;
    bench.refuse(alloc, asked, why.copied(), "get_property")
}

fn refuse_frames(bench: &mut Bench, alloc: Global, h: u64, why: &Refused) -> Result<(), Fail> {
    bench.refuse(alloc, render(h), why.copied(), "render_frame")?;
    bench.refuse(alloc, ready(h), why.copied(), "frame_ready")?;
    bench.refuse(alloc, discard(h), why.copied(), "discard_frame")?;
    let map = map_frame(h, Channel::Color);
    bench.refuse(alloc, map, why.copied(), "map_frame")
}

fn refuse_values(bench: &mut Bench, alloc: Global) -> Result<(), Fail> {
    let group = DataType::Group;
    bench.create(alloc, group, "default")?;
    let gone = set(9, "world", object(DataType::World, 99))?;
    bench.refuse(alloc, gone, dead(99), "set: dead value")?;
    let lost = set(9, "world", object(DataType::World, 6))?;
    bench.refuse(alloc, lost, not_held(6), "set: value not held")?;
    let taken = set(9, "world", object(DataType::World, 10))?;
    bench.refuse(alloc, taken, wrong_kind(10), "set: value of a type")?;
    let size = set(9, "size", Value::Uint32(4))?;
    bench.refuse(alloc, size, Refused::BadType, "set: type of the row")?;
    let unfit = set(9, "world", object(group, 10))?;
    bench.refuse(alloc, unfit, Refused::BadType, "set: object of the row")?;
    let unknown = Refused::UnknownObjectParameter;
    let extra = set(9, "group", object(group, 10))?;
    bench.refuse(alloc, extra, unknown.copied(), "set: no row")?;
    bench.refuse(alloc, map_array(10), wrong_kind(10), "map_array: kind")?;
    let lights = map_parameter(10, "light", DataType::Scalar, 1)?;
    bench.refuse(alloc, lights, Refused::BadType, "map_parameter: elements")?;
    let foo = map_parameter(10, "foo", DataType::Scalar, 1)?;
    bench.refuse(alloc, foo, unknown, "map_parameter: no row")?;
    let long = map_parameter(10, "light", DataType::Light, 33554433)?;
    bench.refuse(alloc, long, Refused::BadShape, "map_parameter: length")
}

fn refuse_unmaps(bench: &mut Bench, alloc: Global) -> Result<(), Fail> {
    let bytes = Bytes::of(alloc, Vec::new(alloc)).map_err(|_| "a block")?;
    let array = Call::UnmapArray {
        h: Handle(1),
        number: 1,
        bytes: bytes.share(alloc)?,
    };
    bench.refuse(alloc, array, Refused::NotMapped, "unmap_array")?;
    let parameter = Call::UnmapParameterArray {
        h: Handle(2),
        name: name("vertex.position")?,
        number: 1,
        bytes,
    };
    bench.refuse(
        alloc,
        parameter,
        Refused::NotMapped,
        "unmap_parameter_array",
    )?;
    let frame = Call::UnmapFrame {
        h: Handle(9),
        number: 1,
    };
    bench.refuse(alloc, frame, Refused::NotMapped, "unmap_frame")
}

fn refuse_queries(bench: &mut Bench, alloc: Global) -> Result<(), Fail> {
    let unnamed = Refused::NoSuchName;
    for (h, text) in [(8, "bounds"), (9, "bounds"), (9, "foo"), (0, "bounds")] {
        let asked = property(h, text)?;
        bench.refuse(alloc, asked, unnamed.copied(), "get_property: no name")?;
    }
    for ty in [DataType::Scalar, DataType::Array1D] {
        let asked = Call::Subtypes { ty };
        bench.refuse(alloc, asked, unnamed.copied(), "subtypes: no objects")?;
    }
    let asked = object_info(DataType::Light, "orthographic")?;
    bench.refuse(alloc, asked, Refused::BadSubtype, "object_info: subtype")?;
    let asked = parameter_info(DataType::Array1D, "default", "height")?;
    bench.refuse(alloc, asked, Refused::BadSubtype, "parameter_info: subtype")?;
    let asked = parameter_info(DataType::Camera, "perspective", "height")?;
    bench.refuse(alloc, asked, unnamed, "parameter_info: no row")
}

/// Calls where nothing is held but the frame and its renderer, though all that it shows is there.
fn refuse_calls(bench: &mut Bench, alloc: Global) -> Result<(), Fail> {
    bench.build(alloc)?;
    bench.release(alloc, &[1, 2, 3, 4, 5, 6, 7])?;
    refuse_creations(bench, alloc)?;
    refuse_references(bench, alloc, 99, &dead(99))?;
    refuse_references(bench, alloc, 1, &not_held(1))?;
    refuse_values(bench, alloc)?;
    refuse_unmaps(bench, alloc)?;
    refuse_queries(bench, alloc)
}

#[test]
fn calls_on_objects_are_refused_by_their_causes(rt: HostRuntime) -> Result<(), Fail> {
    let alloc = rt.alloc();
    let mut bench = Bench::new(alloc)?;
    let refused = refuse_calls(&mut bench, alloc);
    bench.finish();
    refused
}

/// Calls on a frame that was not rendered, whose picture was mapped, and that was let go then.
fn refuse_frame_calls(bench: &mut Bench, alloc: Global) -> Result<(), Fail> {
    bench.build(alloc)?;
    refuse_frames(bench, alloc, 99, &dead(99))?;
    refuse_frames(bench, alloc, 8, &wrong_kind(8))?;
    bench.refuse(alloc, ready(9), Refused::NoPicture, "frame_ready: none")?;
    let colors = map_frame(9, Channel::Color);
    bench.refuse(alloc, colors, Refused::NoPicture, "map_frame: none")?;
    bench.call(alloc, render(9))?;
    let flying = Refused::InFlight { given: 0, of: 1 };
    bench.refuse(alloc, render(9), flying.copied(), "render_frame: flight")?;
    let colors = map_frame(9, Channel::Color);
    bench.refuse(alloc, colors, flying, "map_frame: flight")?;
    bench.finish_flight()?;
    bench.map_triangle(alloc)?;
    let ids = map_frame(9, Channel::ObjectId);
    bench.refuse(alloc, ids, Refused::NoChannel, "map_frame: channel")?;
    let mapped = Refused::ChannelMapped;
    let colors = map_frame(9, Channel::Color);
    bench.refuse(alloc, colors, mapped.copied(), "map_frame: mapped")?;
    bench.refuse(alloc, render(9), mapped.copied(), "render_frame: mapped")?;
    bench.refuse(alloc, discard(9), mapped, "discard_frame: mapped")?;
    bench.release(alloc, &[9])?;
    refuse_frames(bench, alloc, 9, &not_held(9))
}

#[test]
fn calls_on_frames_are_refused_by_their_causes(rt: HostRuntime) -> Result<(), Fail> {
    let alloc = rt.alloc();
    let mut bench = Bench::new(alloc)?;
    let refused = refuse_frame_calls(&mut bench, alloc);
    bench.finish();
    refused
}
