// Walks that are refused, over a small store of objects, with the rows of the documents.
use crate::scenes::{frame, named, triangle};
use crate::store::{Object, Store, array, bare};
use dev_types::{DataType, Handle, Name, Refused, Value};
use kind_tables::Kind;
use scene_read::{is_scene_root, walk};
use std::alloc::Global;
use std::process::Abort;
use std::test::Fail;

/// That the walk from a root is refused so, or is not.
fn answers(
    rt: &impl Abort,
    alloc: Global,
    store: &Store,
    root: u64,
    wanted: Option<Refused>,
    row: &str,
) -> Result<(), Fail> {
    let begins = is_scene_root(store, Handle(root));
    assert!(rt; begins, "{row}: a root");
    let refused = walk(alloc, store, Handle(root)).err();
    assert!(rt; refused == wanted, "{row}");
    Ok(())
}

fn incomplete(h: u64, text: &str) -> Result<Option<Refused>, Fail> {
    let name = Name::new(text).ok_or("a name")?;
    Ok(Some(Refused::Incomplete(Handle(h), name)))
}

fn out_of_range(h: u64, text: &str) -> Result<Option<Refused>, Fail> {
    let name = Name::new(text).ok_or("a name")?;
    Ok(Some(Refused::OutOfRange(Handle(h), name)))
}

/// An array that names one object so many times.
fn times(alloc: Global, ty: DataType, h: u64, count: u32) -> Result<Object, Fail> {
    let mut values = Vec::new(alloc);
    for _ in 0..count {
        values.push(named(ty, h))?;
    }
    array(alloc, ty, &values)
}

/// A triangle or sphere geometry over positions 1.
fn geometry(alloc: Global, kind: Kind) -> Result<Object, Fail> {
    let mut geometry = bare(alloc, kind);
    geometry.set("vertex.position", named(DataType::Array1D, 1))?;
    Ok(geometry)
}

/// Puts surface array 5 and light array 10 of a store under an instance 14 with this transform, in place of world 6's own.
fn under_instance(alloc: Global, store: &mut Store, transform: [i32; 12]) -> Result<(), Fail> {
    let mut group = bare(alloc, Kind::GroupDefault);
    group.set("light", named(DataType::Array1D, 10))?;
    group.set("surface", named(DataType::Array1D, 5))?;
    store.add(13, group)?;
    let mut instance = bare(alloc, Kind::InstanceTransform);
    instance.set("group", named(DataType::Group, 13))?;
    instance.set("transform", Value::ScalarMat34(transform))?;
    store.add(14, instance)?;
    let instances = [named(DataType::Instance, 14)];
    store.add(15, array(alloc, DataType::Instance, &instances)?)?;
    let mut world = bare(alloc, Kind::WorldDefault);
    world.set("instance", named(DataType::Array1D, 15))?;
    store.add(6, world)
}

/// The identity but for the first axis and the origin.
fn moved(axis: i32, origin: i32) -> [i32; 12] {
    [axis, 0, 0, 0, 65536, 0, 0, 0, 65536, origin, 0, 0]
}

#[test]
fn a_sound_walk_is_granted(rt: HostRuntime) -> Result<(), Fail> {
    let store = triangle(rt.alloc())?;
    answers(&rt, rt.alloc(), &store, 9, None, "the triangle's frame")?;
    answers(&rt, rt.alloc(), &store, 6, None, "its world")?;
    assert!(rt; !is_scene_root(&store, Handle(4)), "a surface is no root");
    assert!(rt;
        !is_scene_root(&store, Handle(77)),
        "what is not there is no root"
    );
    Ok(())
}

#[test]
fn what_is_missing_is_named(rt: HostRuntime) -> Result<(), Fail> {
    let alloc = rt.alloc();
    let mut store = triangle(alloc)?;
    let mut surface = bare(alloc, Kind::SurfaceDefault);
    surface.set("material", named(DataType::Material, 3))?;
    store.add(4, surface)?;
    let wanted = incomplete(4, "geometry")?;
    answers(&rt, alloc, &store, 9, wanted, "a surface without geometry")?;
    store.add(9, bare(alloc, Kind::FrameDefault))?;
    let wanted = incomplete(9, "world")?;
    answers(&rt, alloc, &store, 9, wanted, "a frame without anything")
}

#[test]
fn a_mapped_array_comes_before_all_else(rt: HostRuntime) -> Result<(), Fail> {
    let alloc = rt.alloc();
    let mut store = triangle(alloc)?;
    let mut positions = array(alloc, DataType::ScalarVec3, &[])?;
    positions.mapped = true;
    store.add(1, positions)?;
    let mapped = Some(Refused::ArrayMapped(Handle(1)));
    answers(&rt, alloc, &store, 9, mapped, "mapped positions")?;
    store.add(7, bare(alloc, Kind::CameraOrthographic))?;
    store.add(9, frame(alloc, [0, 4])?)?;
    let mut surface = bare(alloc, Kind::SurfaceDefault);
    surface.set("geometry", named(DataType::Geometry, 2))?;
    store.add(4, surface)?;
    let mapped = Some(Refused::ArrayMapped(Handle(1)));
    answers(&rt, alloc, &store, 9, mapped, "and a material that lacks")
}

/// Gives world 6 so many visits of a light 11 beside its surfaces.
fn lit(alloc: Global, store: &mut Store, count: u32) -> Result<(), Fail> {
    store.add(11, bare(alloc, Kind::LightPoint))?;
    store.add(10, times(alloc, DataType::Light, 11, count)?)?;
    let mut world = bare(alloc, Kind::WorldDefault);
    world.set("light", named(DataType::Array1D, 10))?;
    world.set("surface", named(DataType::Array1D, 5))?;
    store.add(6, world)
}

#[test]
fn limits_hold_at_their_last_number(rt: HostRuntime) -> Result<(), Fail> {
    let alloc = rt.alloc();
    let mut store = triangle(alloc)?;
    lit(alloc, &mut store, 256)?;
    answers(&rt, alloc, &store, 9, None, "256 lights")?;
    lit(alloc, &mut store, 257)?;
    let lights = Some(Refused::TooMany(256));
    answers(&rt, alloc, &store, 9, lights, "257 lights")?;
    store.add(4, bare(alloc, Kind::SurfaceDefault))?;
    let wanted = incomplete(4, "geometry")?;
    answers(&rt, alloc, &store, 9, wanted, "and a surface that lacks")
}

#[test]
fn surfaces_are_counted_before_lights(rt: HostRuntime) -> Result<(), Fail> {
    let alloc = rt.alloc();
    let mut store = triangle(alloc)?;
    lit(alloc, &mut store, 257)?;
    store.add(5, times(alloc, DataType::Surface, 4, 65537)?)?;
    let surfaces = Some(Refused::TooMany(65536));
    answers(&rt, alloc, &store, 6, surfaces, "65537 surfaces")
}

/// So many centres at the origin.
fn centres(alloc: Global, count: u32) -> Result<Object, Fail> {
    let mut values = Vec::new(alloc);
    for _ in 0..count {
        values.push(Value::ScalarVec3([0, 0, 0]))?;
    }
    array(alloc, DataType::ScalarVec3, &values)
}

#[test]
fn primitives_are_counted_at_each_visit(rt: HostRuntime) -> Result<(), Fail> {
    let alloc = rt.alloc();
    let mut store = triangle(alloc)?;
    store.add(1, centres(alloc, 1024)?)?;
    store.add(2, geometry(alloc, Kind::GeometrySphere)?)?;
    store.add(5, times(alloc, DataType::Surface, 4, 1024)?)?;
    answers(&rt, alloc, &store, 9, None, "1048576 spheres")?;
    store.add(5, times(alloc, DataType::Surface, 4, 1025)?)?;
    let primitives = Some(Refused::TooMany(1048576));
    answers(&rt, alloc, &store, 9, primitives, "1024 more")?;
    store.add(9, frame(alloc, [0, 4])?)?;
    let primitives = Some(Refused::TooMany(1048576));
    answers(
        &rt,
        alloc,
        &store,
        9,
        primitives,
        "a size out of range besides",
    )
}

#[test]
fn values_are_asked_in_the_order_of_the_table(rt: HostRuntime) -> Result<(), Fail> {
    let alloc = rt.alloc();
    let mut store = triangle(alloc)?;
    let mut camera = bare(alloc, Kind::CameraOrthographic);
    camera.set("direction", Value::ScalarVec3([0, 65536, 0]))?;
    store.add(7, camera)?;
    let up = out_of_range(7, "up")?;
    answers(
        &rt,
        alloc,
        &store,
        9,
        up,
        "up by default, along the direction",
    )?;
    let mut material = bare(alloc, Kind::MaterialMatte);
    material.set("opacity", Value::Scalar(65537))?;
    store.add(3, material)?;
    let opacity = out_of_range(3, "opacity")?;
    answers(
        &rt,
        alloc,
        &store,
        9,
        opacity,
        "the material is visited first",
    )?;
    let mut frame = frame(alloc, [4, 4])?;
    frame.set("channel.color", Value::TypeName(DataType::Uint32))?;
    store.add(9, frame)?;
    let channel = out_of_range(9, "channel.color")?;
    answers(&rt, alloc, &store, 9, channel, "a channel of another type")?;
    Ok(())
}

#[test]
fn a_side_of_nothing_is_out_of_range(rt: HostRuntime) -> Result<(), Fail> {
    let alloc = rt.alloc();
    let mut store = triangle(alloc)?;
    store.add(9, frame(alloc, [0, 4])?)?;
    answers(&rt, alloc, &store, 9, out_of_range(9, "size")?, "0 by 4")?;
    store.add(9, frame(alloc, [4096, 4097])?)?;
    answers(
        &rt,
        alloc,
        &store,
        9,
        out_of_range(9, "size")?,
        "4096 by 4097",
    )?;
    store.add(9, frame(alloc, [4096, 4096])?)?;
    answers(&rt, alloc, &store, 9, None, "4096 by 4096")
}

/// Three vertices, the first of which has this x.
fn corners(alloc: Global, x: i32) -> Result<Object, Fail> {
    let values = [
        Value::ScalarVec3([x, 0, 0]),
        Value::ScalarVec3([0, 65536, 0]),
        Value::ScalarVec3([0, 0, 65536]),
    ];
    array(alloc, DataType::ScalarVec3, &values)
}

#[test]
fn a_far_vertex_is_refused_where_it_is_placed(rt: HostRuntime) -> Result<(), Fail> {
    let alloc = rt.alloc();
    let mut store = triangle(alloc)?;
    store.add(1, corners(alloc, 268435456)?)?;
    answers(&rt, alloc, &store, 9, None, "a vertex at the limit")?;
    under_instance(alloc, &mut store, moved(65536, 1))?;
    let position = out_of_range(2, "vertex.position")?;
    answers(
        &rt,
        alloc,
        &store,
        9,
        position,
        "one further under an instance",
    )?;
    store.add(1, corners(alloc, 268435455)?)?;
    answers(&rt, alloc, &store, 9, None, "and one less")
}

#[test]
fn triangles_are_asked_one_after_the_other(rt: HostRuntime) -> Result<(), Fail> {
    let alloc = rt.alloc();
    let mut store = triangle(alloc)?;
    store.add(1, corners(alloc, 268435457)?)?;
    let mut indexed = geometry(alloc, Kind::GeometryTriangle)?;
    indexed.set("primitive.index", named(DataType::Array1D, 16))?;
    store.add(2, indexed)?;
    let near = Value::Uint32Vec3([1, 2, 2]);
    let far = Value::Uint32Vec3([0, 1, 2]);
    let none = Value::Uint32Vec3([1, 2, 3]);
    let far_and_none = Value::Uint32Vec3([0, 1, 3]);
    store.add(16, array(alloc, DataType::Uint32Vec3, &[near])?)?;
    answers(&rt, alloc, &store, 9, None, "what is not used is not asked")?;
    store.add(16, array(alloc, DataType::Uint32Vec3, &[far, none])?)?;
    let position = out_of_range(2, "vertex.position")?;
    answers(
        &rt,
        alloc,
        &store,
        9,
        position,
        "the first triangle's vertex",
    )?;
    store.add(16, array(alloc, DataType::Uint32Vec3, &[far_and_none])?)?;
    let index = out_of_range(2, "primitive.index")?;
    answers(&rt, alloc, &store, 9, index, "a triangle's numbers first")?;
    store.add(1, array(alloc, DataType::ScalarVec3, &[])?)?;
    let index = out_of_range(2, "primitive.index")?;
    answers(&rt, alloc, &store, 9, index, "no vertices at all")
}

#[test]
fn radii_are_asked_under_the_transform(rt: HostRuntime) -> Result<(), Fail> {
    let alloc = rt.alloc();
    let mut store = triangle(alloc)?;
    store.add(2, geometry(alloc, Kind::GeometrySphere)?)?;
    under_instance(alloc, &mut store, moved(268435456, 0))?;
    store.add(1, array(alloc, DataType::ScalarVec3, &[])?)?;
    answers(
        &rt,
        alloc,
        &store,
        9,
        None,
        "the default radius at the limit",
    )?;
    under_instance(alloc, &mut store, moved(268435457, 0))?;
    let radius = out_of_range(2, "radius")?;
    answers(
        &rt,
        alloc,
        &store,
        9,
        radius,
        "beyond it, also without positions",
    )?;
    let mut sized = geometry(alloc, Kind::GeometrySphere)?;
    sized.set("vertex.radius", named(DataType::Array1D, 16))?;
    store.add(2, sized)?;
    store.add(16, array(alloc, DataType::Scalar, &[Value::Scalar(-1)])?)?;
    answers(&rt, alloc, &store, 9, None, "a radius that is not used")?;
    store.add(1, centres(alloc, 1)?)?;
    let radius = out_of_range(2, "vertex.radius")?;
    answers(&rt, alloc, &store, 9, radius, "a radius below 0")?;
    store.add(16, array(alloc, DataType::Scalar, &[Value::Scalar(1)])?)?;
    answers(&rt, alloc, &store, 9, None, "a radius for each")?;
    store.add(1, centres(alloc, 2)?)?;
    let radius = out_of_range(2, "vertex.radius")?;
    answers(&rt, alloc, &store, 9, radius, "too few radii")
}

#[test]
fn a_light_is_asked_where_it_stands(rt: HostRuntime) -> Result<(), Fail> {
    let alloc = rt.alloc();
    let mut store = triangle(alloc)?;
    store.add(5, times(alloc, DataType::Surface, 0, 1)?)?;
    store.add(10, times(alloc, DataType::Light, 11, 1)?)?;
    store.add(11, bare(alloc, Kind::LightPoint))?;
    under_instance(alloc, &mut store, moved(65536, 268435456))?;
    answers(
        &rt,
        alloc,
        &store,
        9,
        None,
        "the default position at the limit",
    )?;
    under_instance(alloc, &mut store, moved(65536, 268435457))?;
    let position = out_of_range(11, "position")?;
    answers(&rt, alloc, &store, 9, position, "and beyond it")
}
