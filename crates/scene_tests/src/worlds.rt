// Worlds of a small store of objects, prepared: what they show, that they keep it, and why they are refused.
use crate::store::{Object, Store, array, bare, named, set_positions, spaced};
use bvh_build::Node;
use dev_types::{DataType, Handle, Name, Refused, Value};
use fx_math::{LightRow, NO_ID, Place, Primitive, Shape, Vec3};
use kind_tables::Kind;
use picture_model::PrimSource;
use scene_read::Objects;
use std::alloc::Global;
use std::process::Abort;
use std::test::Fail;
use world_snapshot::{Prepared, prepare};

const CORNERS: [[i32; 3]; 3] = [
    [-131072, -131072, 0],
    [131072, -131072, 0],
    [-131072, 131072, 0],
];

/// A world 6 with surface 4 in array 5, of a geometry 2 over positions 1, in red.
fn world(alloc: Global, kind: Kind) -> Result<Store, Fail> {
    let mut store = Store::new(alloc);
    set_positions(alloc, &mut store, &CORNERS)?;
    let mut geometry = bare(alloc, kind);
    geometry.set("vertex.position", named(DataType::Array1D, 1))?;
    store.add(2, geometry)?;
    let mut material = bare(alloc, Kind::MaterialMatte);
    material.set("color", Value::ScalarVec3([65536, 0, 0]))?;
    store.add(3, material)?;
    let mut surface = bare(alloc, Kind::SurfaceDefault);
    surface.set("geometry", named(DataType::Geometry, 2))?;
    surface.set("id", Value::Uint32(11))?;
    surface.set("material", named(DataType::Material, 3))?;
    store.add(4, surface)?;
    store.add(
        5,
        array(alloc, DataType::Surface, &[named(DataType::Surface, 4)])?,
    )?;
    let mut world = bare(alloc, Kind::WorldDefault);
    world.set("surface", named(DataType::Array1D, 5))?;
    store.add(6, world)?;
    Ok(store)
}

/// What `prepare` answers of world 6.
fn prepared(alloc: Global, store: &Store) -> Result<Result<Prepared, Refused>, Fail> {
    let Some(Kind::WorldDefault) = store.kind(Handle(6)) else {
        return Err("a live world")?;
    };
    Ok(prepare(alloc, store, Handle(6)))
}

/// World 6, which is not refused.
fn shown(alloc: Global, store: &Store) -> Result<Prepared, Fail> {
    let prepared = prepared(alloc, store)?.map_err(|_| "not refused")?;
    Ok(prepared)
}

fn point(x: i64, y: i64, z: i64) -> Vec3 {
    Vec3 { x, y, z }
}

/// The red primitive with a number.
fn red(prim: u32, shape: Shape) -> Primitive {
    Primitive {
        place: Place {
            inst: 0,
            surf: 0,
            prim,
        },
        shape,
        color: [65536, 0, 0],
        opacity: 65536,
        object_id: 11,
        instance_id: NO_ID,
    }
}

/// The world shows exactly these, by number and by place.
fn shows(rt: &impl Abort, prepared: &Prepared, wanted: &[Primitive]) {
    assert!(rt; prepared.len() == wanted.len() as u64);
    let leaves = prepared
        .tree()
        .nodes()
        .iter()
        .filter(|node| matches!(node, Node::Leaf(_)))
        .count();
    assert!(rt; leaves == wanted.len());
    for i in 0..prepared.len() {
        let primitive = prepared.primitive(i);
        assert!(rt; wanted.get(i as usize) == Some(&primitive), "primitive {i}");
        assert!(rt;
            prepared.primitive_at(&primitive.place) == Some(primitive),
            "the place of {i}"
        );
    }
}

fn triangle() -> Shape {
    Shape::Triangle(
        point(-131072, -131072, 0),
        point(131072, -131072, 0),
        point(-131072, 131072, 0),
    )
}

#[test]
fn a_prepared_world_keeps_what_it_shows(rt: HostRuntime) -> Result<(), Fail> {
    let mut store = world(rt.alloc(), Kind::GeometryTriangle)?;
    let first = shown(rt.alloc(), &store)?;
    shows(&rt, &first, &[red(0, triangle())]);
    assert!(rt; first.lights().len() == 0);
    // Another content of the array shows in what is prepared later alone, also where the first is shared.
    let shared = first.share(rt.alloc())?;
    set_positions(rt.alloc(), &mut store, &[[0, 0, 0], CORNERS[1], CORNERS[2]])?;
    shows(&rt, &shared, &[red(0, triangle())]);
    let second = shown(rt.alloc(), &store)?;
    let flat = Shape::Triangle(
        point(0, 0, 0),
        point(131072, -131072, 0),
        point(-131072, 131072, 0),
    );
    shows(&rt, &second, &[red(0, flat)]);
    shows(&rt, &first, &[red(0, triangle())]);
    Ok(())
}

/// Puts surface array 5 of a store and a light into group 13 under the second of the instances 12 and 14, in place of world 6's own.
fn under_instance(alloc: Global, store: &mut Store) -> Result<(), Fail> {
    let mut light = bare(alloc, Kind::LightPoint);
    light.set("position", Value::ScalarVec3([1, 2, 3]))?;
    store.add(10, light)?;
    store.add(
        11,
        array(alloc, DataType::Light, &[named(DataType::Light, 10)])?,
    )?;
    let mut group = bare(alloc, Kind::GroupDefault);
    group.set("light", named(DataType::Array1D, 11))?;
    group.set("surface", named(DataType::Array1D, 5))?;
    store.add(13, group)?;
    store.add(12, bare(alloc, Kind::GroupDefault))?;
    let mut first = bare(alloc, Kind::InstanceTransform);
    first.set("group", named(DataType::Group, 12))?;
    store.add(14, first)?;
    let mut second = bare(alloc, Kind::InstanceTransform);
    second.set("group", named(DataType::Group, 13))?;
    second.set("id", Value::Uint32(22))?;
    second.set(
        "transform",
        Value::ScalarMat34([131072, 0, 0, 0, 131072, 0, 0, 0, 131072, 10, 20, 30]),
    )?;
    store.add(15, second)?;
    let instances = [named(DataType::Instance, 14), named(DataType::Instance, 15)];
    store.add(16, array(alloc, DataType::Instance, &instances)?)?;
    let mut world = bare(alloc, Kind::WorldDefault);
    world.set("instance", named(DataType::Array1D, 16))?;
    store.add(6, world)
}

#[test]
fn spheres_under_an_instance_are_placed_and_scaled(rt: HostRuntime) -> Result<(), Fail> {
    let mut store = world(rt.alloc(), Kind::GeometrySphere)?;
    set_positions(rt.alloc(), &mut store, &[[1, 2, 3], [100, 0, 0]])?;
    under_instance(rt.alloc(), &mut store)?;
    let prepared = shown(rt.alloc(), &store)?;
    // Without a radius of its own each has the default one, 65536, twice as long under the instance.
    let placed = |prim, centre| Primitive {
        place: Place {
            inst: 2,
            surf: 0,
            prim,
        },
        instance_id: 22,
        ..red(prim, Shape::Sphere(centre, 131072))
    };
    let wanted = [placed(0, point(12, 24, 36)), placed(1, point(210, 20, 30))];
    shows(&rt, &prepared, &wanted);
    assert!(rt; prepared.lights().len() == 1);
    let light = LightRow::Point {
        position: point(12, 24, 36),
        color: [65536; 3],
        intensity: 65536,
    };
    assert!(rt; *prepared.lights().get(0) == light);
    let nowhere = Place {
        inst: 1,
        surf: 0,
        prim: 0,
    };
    assert!(rt; prepared.primitive_at(&nowhere).is_none());
    Ok(())
}

/// World 6 is refused so.
fn refused(rt: &impl Abort, alloc: Global, store: &Store, wanted: Refused) -> Result<(), Fail> {
    let answer = prepared(alloc, store)?.err();
    assert!(rt; answer == Some(wanted));
    Ok(())
}

#[test]
fn a_world_is_refused_as_its_walk_is(rt: HostRuntime) -> Result<(), Fail> {
    let alloc = rt.alloc();
    let mut store = world(alloc, Kind::GeometryTriangle)?;
    set_positions(
        alloc,
        &mut store,
        &[[268435457, 0, 0], CORNERS[1], CORNERS[2]],
    )?;
    let position = Name::new("vertex.position").ok_or("a name")?;
    refused(&rt, alloc, &store, Refused::OutOfRange(Handle(2), position))?;
    store.add(4, bare(alloc, Kind::SurfaceDefault))?;
    let geometry = Name::new("geometry").ok_or("a name")?;
    refused(&rt, alloc, &store, Refused::Incomplete(Handle(4), geometry))?;
    let mut mapped = array(alloc, DataType::Surface, &[named(DataType::Surface, 4)])?;
    mapped.mapped = true;
    store.add(5, mapped)?;
    refused(&rt, alloc, &store, Refused::ArrayMapped(Handle(5)))
}

/// Three positions, 24 bytes from one to the next.
fn spaced_positions(alloc: Global) -> Result<Object, Fail> {
    let values = [
        Value::ScalarVec3(CORNERS[0]),
        Value::ScalarVec3(CORNERS[1]),
        Value::ScalarVec3(CORNERS[2]),
    ];
    spaced(alloc, DataType::ScalarVec3, 24, &values)
}

#[test]
fn elements_may_stand_apart(rt: HostRuntime) -> Result<(), Fail> {
    let mut store = world(rt.alloc(), Kind::GeometryTriangle)?;
    store.add(1, spaced_positions(rt.alloc())?)?;
    let prepared = shown(rt.alloc(), &store)?;
    shows(&rt, &prepared, &[red(0, triangle())]);
    Ok(())
}

#[test]
fn a_world_whose_positions_are_lent_is_refused(rt: HostRuntime) -> Result<(), Fail> {
    let alloc = rt.alloc();
    let mut store = world(alloc, Kind::GeometryTriangle)?;
    let mut positions = spaced_positions(alloc)?;
    positions.mapped = true;
    store.add(1, positions)?;
    refused(&rt, alloc, &store, Refused::ArrayMapped(Handle(1)))
}
