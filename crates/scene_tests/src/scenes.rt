// Walks and scenes over a small store of objects, with the rows of the documents.
use crate::store::{Object, Store, array, bare};
use dev_types::{DataType, Handle, Value};
use fx_math::{CameraRow, LightRow, NO_ID, Place, Shape, Vec3};
use kind_tables::Kind;
use scene_read::{scene, visits_from};
use std::alloc::Global;
use std::process::Abort;
use std::test::Fail;

/// A value that names an object.
pub fn named(ty: DataType, h: u64) -> Value {
    Value::Object(ty, Handle(h))
}

/// The triangle's frame, of a size.
pub fn frame(alloc: Global, size: [u32; 2]) -> Result<Object, Fail> {
    let mut frame = bare(alloc, Kind::FrameDefault);
    frame.set("camera", named(DataType::Camera, 7))?;
    frame.set("channel.color", Value::TypeName(DataType::Ufixed8Vec4))?;
    frame.set("renderer", named(DataType::Renderer, 8))?;
    frame.set("size", Value::Uint32Vec2(size))?;
    frame.set("world", named(DataType::World, 6))?;
    Ok(frame)
}

/// A frame of 4 by 4 with one red triangle: positions 1, geometry 2, material 3, surface 4 in array 5 of world 6, camera 7,
/// renderer 8, frame 9.
pub fn triangle(alloc: Global) -> Result<Store, Fail> {
    let mut store = Store::new(alloc);
    let corners = [
        Value::ScalarVec3([-131072, -131072, 0]),
        Value::ScalarVec3([131072, -131072, 0]),
        Value::ScalarVec3([-131072, 131072, 0]),
    ];
    store.add(1, array(alloc, DataType::ScalarVec3, &corners)?)?;
    let mut geometry = bare(alloc, Kind::GeometryTriangle);
    geometry.set("vertex.position", named(DataType::Array1D, 1))?;
    store.add(2, geometry)?;
    let mut material = bare(alloc, Kind::MaterialMatte);
    material.set("color", Value::ScalarVec3([65536, 0, 0]))?;
    store.add(3, material)?;
    let mut surface = bare(alloc, Kind::SurfaceDefault);
    surface.set("geometry", named(DataType::Geometry, 2))?;
    surface.set("material", named(DataType::Material, 3))?;
    store.add(4, surface)?;
    store.add(
        5,
        array(alloc, DataType::Surface, &[named(DataType::Surface, 4)])?,
    )?;
    let mut world = bare(alloc, Kind::WorldDefault);
    world.set("surface", named(DataType::Array1D, 5))?;
    store.add(6, world)?;
    let mut camera = bare(alloc, Kind::CameraOrthographic);
    camera.set("height", Value::Scalar(262144))?;
    camera.set("position", Value::ScalarVec3([0, 0, 65536]))?;
    store.add(7, camera)?;
    store.add(8, bare(alloc, Kind::RendererDefault))?;
    store.add(9, frame(alloc, [4, 4])?)?;
    Ok(store)
}

/// The handles that are visited from a root.
fn visited(
    rt: &impl Abort,
    alloc: Global,
    store: &Store,
    root: u64,
    handles: &[u64],
) -> Result<(), Fail> {
    let visits = visits_from(alloc, store, Handle(root))?;
    let visits = visits.as_slice();
    assert!(rt; visits.len() == handles.len(), "so many visits from {root}");
    for (visit, h) in visits.iter().zip(handles) {
        assert!(rt; visit.handle.0 == *h, "{h} from {root}");
    }
    Ok(())
}

#[test]
fn a_walk_goes_down_in_the_order_of_the_table(rt: HostRuntime) -> Result<(), Fail> {
    let store = triangle(rt.alloc())?;
    visited(&rt, rt.alloc(), &store, 9, &[9, 6, 5, 4, 2, 1, 3, 7, 8])?;
    visited(&rt, rt.alloc(), &store, 6, &[6, 5, 4, 2, 1, 3])
}

/// A world with one sphere in a group under the second of two instances, the first of which is empty, and a light.
fn sphere(alloc: Global) -> Result<Store, Fail> {
    let mut store = Store::new(alloc);
    let centres = [Value::ScalarVec3([10, 20, 30])];
    store.add(1, array(alloc, DataType::ScalarVec3, &centres)?)?;
    let mut geometry = bare(alloc, Kind::GeometrySphere);
    geometry.set("radius", Value::Scalar(100))?;
    geometry.set("vertex.position", named(DataType::Array1D, 1))?;
    store.add(2, geometry)?;
    let mut material = bare(alloc, Kind::MaterialMatte);
    material.set("opacity", Value::Scalar(32768))?;
    store.add(3, material)?;
    let mut surface = bare(alloc, Kind::SurfaceDefault);
    surface.set("geometry", named(DataType::Geometry, 2))?;
    surface.set("id", Value::Uint32(11))?;
    surface.set("material", named(DataType::Material, 3))?;
    store.add(4, surface)?;
    store.add(
        5,
        array(alloc, DataType::Surface, &[named(DataType::Surface, 4)])?,
    )?;
    let mut group = bare(alloc, Kind::GroupDefault);
    group.set("light", named(DataType::Array1D, 11))?;
    group.set("surface", named(DataType::Array1D, 5))?;
    store.add(6, group)?;
    let mut instance = bare(alloc, Kind::InstanceTransform);
    instance.set("group", named(DataType::Group, 6))?;
    instance.set("id", Value::Uint32(22))?;
    let doubled = [131072, 0, 0, 0, 131072, 0, 0, 0, 131072, 1, 2, 3];
    instance.set("transform", Value::ScalarMat34(doubled))?;
    store.add(7, instance)?;
    let instances = [named(DataType::Instance, 0), named(DataType::Instance, 7)];
    store.add(8, array(alloc, DataType::Instance, &instances)?)?;
    let mut world = bare(alloc, Kind::WorldDefault);
    world.set("instance", named(DataType::Array1D, 8))?;
    store.add(9, world)?;
    store.add(10, bare(alloc, Kind::LightPoint))?;
    store.add(
        11,
        array(alloc, DataType::Light, &[named(DataType::Light, 10)])?,
    )?;
    Ok(store)
}

#[test]
fn a_sphere_and_a_light_stand_under_their_instance(rt: HostRuntime) -> Result<(), Fail> {
    let store = sphere(rt.alloc())?;
    visited(
        &rt,
        rt.alloc(),
        &store,
        9,
        &[9, 8, 7, 6, 5, 4, 2, 1, 3, 11, 10],
    )?;
    let visits = visits_from(rt.alloc(), &store, Handle(9))?;
    let scene = scene(rt.alloc(), &store, Handle(9), &visits)?;
    let primitives = scene.primitives.as_slice();
    assert!(rt; primitives.len() == 1, "one sphere");
    let one = &primitives[0];
    let centre = Vec3 {
        x: 21,
        y: 42,
        z: 63,
    };
    assert!(rt;
        one.place
            == Place {
                inst: 2,
                surf: 0,
                prim: 0
            },
        "its place"
    );
    assert!(rt; one.shape == Shape::Sphere(centre, 200), "its shape");
    assert!(rt;
        one.color == [52429, 52429, 52429] && one.opacity == 32768,
        "its material"
    );
    assert!(rt; one.object_id == 11 && one.instance_id == 22, "its ids");
    let light = LightRow::Point {
        position: Vec3 { x: 1, y: 2, z: 3 },
        color: [65536, 65536, 65536],
        intensity: 65536,
    };
    assert!(rt; scene.lighting.lights.len() == 1, "one light");
    assert!(rt; *scene.lighting.lights.get(0) == light, "its numbers");
    Ok(())
}

#[test]
fn the_scene_of_the_triangle(rt: HostRuntime) -> Result<(), Fail> {
    let store = triangle(rt.alloc())?;
    let visits = visits_from(rt.alloc(), &store, Handle(9))?;
    let scene = scene(rt.alloc(), &store, Handle(9), &visits)?;
    let primitives = scene.primitives.as_slice();
    assert!(rt; primitives.len() == 1, "one triangle");
    let one = &primitives[0];
    assert!(rt;
        one.place
            == Place {
                inst: 0,
                surf: 0,
                prim: 0
            },
        "its place"
    );
    let shape = Shape::Triangle(
        Vec3 {
            x: -131072,
            y: -131072,
            z: 0,
        },
        Vec3 {
            x: 131072,
            y: -131072,
            z: 0,
        },
        Vec3 {
            x: -131072,
            y: 131072,
            z: 0,
        },
    );
    assert!(rt; one.shape == shape, "its shape");
    assert!(rt;
        one.color == [65536, 0, 0] && one.opacity == 65536,
        "its material"
    );
    assert!(rt;
        one.object_id == NO_ID && one.instance_id == NO_ID,
        "its ids"
    );
    let camera = CameraRow::Orthographic {
        position: Vec3 {
            x: 0,
            y: 0,
            z: 65536,
        },
        direction: Vec3 {
            x: 0,
            y: 0,
            z: -65536,
        },
        up: Vec3 {
            x: 0,
            y: 65536,
            z: 0,
        },
        aspect: 65536,
        height: 262144,
    };
    assert!(rt; scene.camera == camera, "its camera");
    assert!(rt; scene.width == 4 && scene.height == 4, "its size");
    assert!(rt; scene.lighting.lights.len() == 0, "no light");
    assert!(rt; scene.lighting.background == [0, 0, 0], "its background");
    Ok(())
}
