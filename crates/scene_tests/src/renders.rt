// Worlds that are prepared and rendered by tiles: worked scenes, against the plain program.
ghost use Rattle.std.specs.Prelude.{◌≡◌, ◌<◌, ◌≤◌, ◌∷◌, [], pos, true, IfOk};
ghost use Rattle.picture_model.specs.Limits.{IsSceneWithin, IsSide};
ghost use Rattle.picture_model.specs.Tiles.{tile_count};
ghost use Rattle.tile_claims.specs.Parts.{scene_of};
ghost use Rattle.tile_claims.specs.Rule.{HasSeenAll};
ghost use Rattle.tile_claims.specs.Seats.{IsSeatOf, key_of, view};
ghost use Rattle.tile_claims.specs.Views.{new_view};
ghost use Rattle.world_snapshot.specs.Works.{scene_of_work};

use crate::store::{Store, array, bare, named, set_positions};
use dev_types::{DataType, Handle, Value};
use fx_math::{LightList, Lighting, NO_ID, PrimitiveList, Scene};
use kind_tables::Kind;
use picture_model::{Plane, PrimSource, is_scene_within, pixel, tile_count};
use scene_read::{Objects, Subject, camera};
use std::alloc::{AllocError, Global};
use std::process::Abort;
use std::test::Fail;
use tile_claims::{Claims, Key, SceneName, Seat, TilePixels};
use tile_render::render;
use world_snapshot::{Prepared, Work, prepare};

/// An array that names these objects.
fn names(alloc: Global, ty: DataType, handles: &[u64]) -> Result<crate::store::Object, Fail> {
    let mut values = Vec::new(alloc);
    for h in handles {
        values.push(named(ty, *h))?;
    }
    array(alloc, ty, &values)
}

/// A material under a handle.
fn set_material(
    alloc: Global,
    store: &mut Store,
    h: u64,
    color: [i32; 3],
    opacity: i32,
) -> Result<(), Fail> {
    let mut material = bare(alloc, Kind::MaterialMatte);
    material.set("color", Value::ScalarVec3(color))?;
    material.set("opacity", Value::Scalar(opacity))?;
    store.add(h, material)
}

/// A surface of geometry 2 under a handle.
fn set_surface(
    alloc: Global,
    store: &mut Store,
    h: u64,
    material: u64,
    id: u32,
) -> Result<(), Fail> {
    let mut surface = bare(alloc, Kind::SurfaceDefault);
    surface.set("geometry", named(DataType::Geometry, 2))?;
    surface.set("id", Value::Uint32(id))?;
    surface.set("material", named(DataType::Material, material))?;
    store.add(h, surface)
}

/// World 6 with these surfaces and lights.
fn set_world(
    alloc: Global,
    store: &mut Store,
    surfaces: &[u64],
    lights: &[u64],
) -> Result<(), Fail> {
    store.add(5, names(alloc, DataType::Surface, surfaces)?)?;
    store.add(11, names(alloc, DataType::Light, lights)?)?;
    let mut world = bare(alloc, Kind::WorldDefault);
    world.set("surface", named(DataType::Array1D, 5))?;
    world.set("light", named(DataType::Array1D, 11))?;
    store.add(6, world)
}

/// World 6 of one triangle in red, surface 4 of geometry 2 over positions 1 with material 3, and an orthographic camera 7 over a window
/// of 4 by 4.
fn triangle(alloc: Global) -> Result<Store, Fail> {
    let mut store = Store::new(alloc);
    let corners = [
        [-131072, -131072, 0],
        [131072, -131072, 0],
        [-131072, 131072, 0],
    ];
    set_positions(alloc, &mut store, &corners)?;
    let mut geometry = bare(alloc, Kind::GeometryTriangle);
    geometry.set("vertex.position", named(DataType::Array1D, 1))?;
    store.add(2, geometry)?;
    set_material(alloc, &mut store, 3, [65536, 0, 0], 65536)?;
    set_surface(alloc, &mut store, 4, 3, 11)?;
    set_world(alloc, &mut store, &[4], &[])?;
    let mut camera = bare(alloc, Kind::CameraOrthographic);
    camera.set("height", Value::Scalar(262144))?;
    camera.set("position", Value::ScalarVec3([0, 0, 65536]))?;
    store.add(7, camera)?;
    Ok(store)
}

/// World 6 of spheres of one radius at these centres, with a perspective camera 7.
fn spheres(
    alloc: Global,
    centre: [i32; 3],
    radius: i32,
    position: [i32; 3],
    tangent: i32,
) -> Result<Store, Fail> {
    let mut store = Store::new(alloc);
    set_positions(alloc, &mut store, &[centre])?;
    let mut geometry = bare(alloc, Kind::GeometrySphere);
    geometry.set("vertex.position", named(DataType::Array1D, 1))?;
    geometry.set("radius", Value::Scalar(radius))?;
    store.add(2, geometry)?;
    store.add(3, bare(alloc, Kind::MaterialMatte))?;
    set_surface(alloc, &mut store, 4, 3, 11)?;
    set_world(alloc, &mut store, &[4], &[])?;
    let mut camera = bare(alloc, Kind::CameraPerspective);
    camera.set("position", Value::ScalarVec3(position))?;
    camera.set("tanHalfFovy", Value::Scalar(tangent))?;
    store.add(7, camera)?;
    Ok(store)
}

/// What stands behind a scene, and the light that is everywhere.
#[derive(Clone, Copy)]
struct Surroundings {
    background: [i32; 3],
    ambient_radiance: i32,
}

const BLACK: Surroundings = Surroundings {
    background: [0; 3],
    ambient_radiance: 65536,
};

const DARK: Surroundings = Surroundings {
    background: [0; 3],
    ambient_radiance: 0,
};

/// The same lights.
fn copied(alloc: Global, lights: &LightList) -> Result<LightList, AllocError>
    ensures { IfOk result (λ copied. copied ≡ lights.now) }
{
    let mut copied = Vec::new(alloc);
    for i in 0..lights.len() {
        copied.push(*lights.get(i))?;
    }
    Ok(LightList::new(copied))
}

/// The lights of a prepared world in its surroundings.
fn lighting(
    alloc: Global,
    prepared: &Prepared,
    around: &Surroundings,
) -> Result<Lighting, AllocError>
    ensures lights { IfOk result (λ made. made.lights ≡ prepared.now.lights) }
    ensures background { IfOk result (λ made. made.background ≡ around.now.background) }
    ensures color { IfOk result (λ made. made.ambient_color ≡ pos 65536 ∷ pos 65536 ∷ pos 65536 ∷ []) }
    ensures radiance { IfOk result (λ made. made.ambient_radiance ≡ around.now.ambient_radiance) }
{
    Ok(Lighting {
        lights: copied(alloc, prepared.lights())?,
        background: around.background,
        ambient_color: [65536; 3],
        ambient_radiance: around.ambient_radiance,
    })
}

/// The primitives of a prepared world.
fn primitives(alloc: Global, prepared: &Prepared) -> Result<PrimitiveList, AllocError>
    ensures { IfOk result (λ made. made ≡ prepared.now.primitives) }
{
    let mut primitives = Vec::new(alloc);
    for i in 0..prepared.len() {
        primitives.push(prepared.primitive(i))?;
    }
    Ok(PrimitiveList::new(primitives))
}

/// The key of a scene.
fn naming(scene: &Scene) -> Key
    ensures size { (result.w ≡ scene.now.width) × (result.h ≡ scene.now.height) }
    ensures scene { scene_of result ≡ scene.now }
{
    Key {
        w: scene.width,
        h: scene.height,
        scene: SceneName::of(scene),
    }
}

/// World 6 of a store, prepared.
fn prepared(alloc: Global, store: &Store) -> Result<Prepared, Fail> {
    let Some(Kind::WorldDefault) = store.kind(Handle(6)) else {
        return Err("a live world")?;
    };
    let prepared = prepare(alloc, store, Handle(6)).map_err(|_| "not refused")?;
    Ok(prepared)
}

/// A frame's work, and the scene that it is about.
struct Job {
    work: Work,
    scene: Scene,
    ghost seat: { IsSeatOf work.claims work.seat },
    ghost fresh: { view work.seat ≡ new_view true (key_of work.claims) },
    ghost keyed: { scene_of (key_of work.claims) ≡ scene },
    ghost about: { scene_of_work work ≡ scene },
}

/// The work on a frame of a prepared world with camera 7 of the store.
fn job_of(
    rt: &impl Abort,
    alloc: Global,
    store: &Store,
    prepared: Prepared,
    size: (u32, u32),
    around: &Surroundings,
) -> Result<Job, Fail> {
    let (width, height) = size;
    let scene = Scene {
        primitives: primitives(alloc, &prepared)?,
        camera: camera(store, &Subject::visited(Handle(7))),
        lighting: lighting(alloc, &prepared, around)?,
        width,
        height,
    };
    assert!(rt; is_scene_within(&scene));
    let (claims, seat) = Claims::new(alloc, naming(&scene))?;
    let work = Work {
        claims,
        seat,
        lighting: lighting(alloc, &prepared, around)?,
        prepared,
        camera: scene.camera,
        size,
    };
    Ok(Job { work, scene })
}

/// Whether all tiles are given.
fn sees_all(claims: &Claims, seat: &mut Seat) -> bool
    requires seat { IsSeatOf claims.now seat.old }
    requires width { IsSide (key_of claims.now).w }
    requires height { IsSide (key_of claims.now).h }
    ensures seat { IsSeatOf claims.now seat.new }
    ensures seen { result ≡ true → HasSeenAll (view seat.new) }
    ensures first { (view seat.new).first ≡ (view seat.old).first }
    ensures collected { (view seat.new).collected ≡ (view seat.old).collected }
{
    let (w, h) = claims.sides();
    claims.given(seat) == tile_count(w, h) as u64
}

/// Renders the one tile of a frame. Answers its pixels, the scene, and the number of hit tests.
fn one_tile(rt: &impl Abort, job: Job) -> (TilePixels, Scene, u64)
    ensures height { result.1.height ≤ 16 → result.0.h ≡ result.1.height }
{
    let Job { mut work, scene } = job;
    assert!(rt; is_scene_within(&scene));
    let mut claim = work.claims.claim(&mut work.seat).expect(rt, "a tile");
    let tests = render(&work, &mut claim);
    work.claims.give(&mut work.seat, claim);
    assert!(rt; sees_all(&work.claims, &mut work.seat));
    let pixels = work.claims.collect(&mut work.seat, 0);
    (pixels, scene, tests)
}

/// A row has these four bytes at column `x`.
fn has(row: &[u8], x: u32, four: &[u8; 4]) -> bool
    requires { x < 4096 }
{
    let at = 4 * x as usize;
    row.get(at..at + 4) == Some(&four[..])
}

/// What a pixel has to show: its colour, and its object's id.
#[derive(Clone, Copy)]
struct Wanted {
    color: [u8; 4],
    object_id: u32,
}

const RED: Wanted = Wanted {
    color: [255, 0, 0, 255],
    object_id: 11,
};

const NOTHING: Wanted = Wanted {
    color: [0; 4],
    object_id: NO_ID,
};

/// A pixel shows this in the tile, and in all channels what the plain program says.
fn check_pixel(rt: &impl Abort, pixels: &TilePixels, scene: &Scene, x: u32, y: u32, wanted: &Wanted)
    requires scene { IsSceneWithin scene.now }
    requires height { pixels.now.h ≡ scene.now.height }
    requires column { x < scene.now.width }
    requires row { y < scene.now.height }
{
    assert!(rt;
        has(pixels.row(0, y), x, &wanted.color),
        "the colour at ({x}, {y})"
    );
    let id = wanted.object_id.to_le_bytes();
    assert!(rt; has(pixels.row(2, y), x, &id), "the object at ({x}, {y})");
    for channel in 0..4 {
        let plain = pixel(scene, Plane::numbered(channel), x, y);
        assert!(rt;
            has(pixels.row(channel, y), x, &plain),
            "channel {channel} at ({x}, {y})"
        );
    }
}

/// The frame shows these pixels, by rows from the lower left one. Answers the number of hit tests.
fn check(rt: &impl Abort, job: Job, wanted: &[Wanted]) -> u64 {
    let (pixels, scene, tests) = one_tile(rt, job);
    assert!(rt; is_scene_within(&scene) && scene.height <= 16);
    let mut rest = wanted.iter();
    for y in 0..scene.height {
        for x in 0..scene.width {
            check_pixel(rt, &pixels, &scene, x, y, rest.next().expect(rt, "a pixel"));
        }
    }
    assert!(rt; rest.next().is_none());
    tests
}

#[test]
fn a_triangle_hides_what_is_below_its_edge(rt: HostRuntime) -> Result<(), Fail> {
    let alloc = rt.alloc();
    let mut store = triangle(alloc)?;
    let first = prepared(alloc, &store)?;
    let shared = first.share(alloc)?;
    // What is written to the array later does not show.
    let flat = [[0, 0, 0], [131072, -131072, 0], [-131072, 131072, 0]];
    set_positions(alloc, &mut store, &flat)?;
    let wanted = [
        RED, RED, RED, RED, RED, RED, RED, NOTHING, RED, RED, NOTHING, NOTHING, RED, NOTHING,
        NOTHING, NOTHING,
    ];
    let tests = check(
        &rt,
        job_of(&rt, alloc, &store, shared, (4, 4), &BLACK)?,
        &wanted,
    );
    assert!(rt; tests == 16);
    Ok(())
}

fn shown(color: [u8; 4], object_id: u32) -> Wanted {
    Wanted { color, object_id }
}

#[test]
fn worked_scenes_show_their_pixels(rt: HostRuntime) -> Result<(), Fail> {
    let alloc = rt.alloc();
    let one = (1, 1);
    // Nothing before the background.
    let mut store = triangle(alloc)?;
    set_world(alloc, &mut store, &[], &[])?;
    let orange = Surroundings {
        background: [65536, 32768, 0],
        ambient_radiance: 65536,
    };
    let world = prepared(alloc, &store)?;
    let wanted = [shown([255, 128, 0, 0], NO_ID)];
    check(
        &rt,
        job_of(&rt, alloc, &store, world, one, &orange)?,
        &wanted,
    );
    // Of two surfaces over one geometry the lower place counts, and the other shows through it by its opacity.
    set_material(alloc, &mut store, 8, [0, 65536, 0], 65536)?;
    set_surface(alloc, &mut store, 9, 8, 22)?;
    for (opacity, surfaces, wanted) in [
        (65536, [4, 9], RED),
        (65536, [9, 4], shown([0, 255, 0, 255], 22)),
        (32768, [4, 9], shown([128, 128, 0, 255], 11)),
        (32768, [9, 4], shown([0, 255, 0, 255], 22)),
        (32768, [4, 4], shown([191, 0, 0, 191], 11)),
    ] {
        set_material(alloc, &mut store, 3, [65536, 0, 0], opacity)?;
        set_world(alloc, &mut store, &surfaces, &[])?;
        let world = prepared(alloc, &store)?;
        check(
            &rt,
            job_of(&rt, alloc, &store, world, one, &BLACK)?,
            &[wanted],
        );
    }
    Ok(())
}

#[test]
fn lights_and_spheres_show_their_pixels(rt: HostRuntime) -> Result<(), Fail> {
    let alloc = rt.alloc();
    // A point light before the triangle, of two intensities.
    let mut store = triangle(alloc)?;
    set_world(alloc, &mut store, &[4], &[10])?;
    for (intensity, red) in [(131072, 128), (262144, 255)] {
        let mut light = bare(alloc, Kind::LightPoint);
        light.set("intensity", Value::Scalar(intensity))?;
        light.set("position", Value::ScalarVec3([0, 0, 131072]))?;
        store.add(10, light)?;
        let world = prepared(alloc, &store)?;
        let wanted = [shown([red, 0, 0, 255], 11)];
        check(
            &rt,
            job_of(&rt, alloc, &store, world, (1, 1), &DARK)?,
            &wanted,
        );
    }
    // The ray lies in the triangle's plane.
    let upright = [[0, -131072, 0], [0, 131072, 0], [0, 0, 32768]];
    set_positions(alloc, &mut store, &upright)?;
    let world = prepared(alloc, &store)?;
    check(
        &rt,
        job_of(&rt, alloc, &store, world, (1, 1), &BLACK)?,
        &[NOTHING],
    );
    // A camera within a sphere, and one whose rays have no point within it.
    let mut store = spheres(alloc, [0, 0, 0], 65536, [0, 0, 32768], 65536)?;
    store.add(10, bare(alloc, Kind::LightDirectional))?;
    set_world(alloc, &mut store, &[4], &[10])?;
    let world = prepared(alloc, &store)?;
    let wanted = [shown([204, 204, 204, 255], 11)];
    check(
        &rt,
        job_of(&rt, alloc, &store, world, (1, 1), &DARK)?,
        &wanted,
    );
    let store = spheres(alloc, [4, 0, 0], 1, [0, 0, 0], 1048576)?;
    let world = prepared(alloc, &store)?;
    check(
        &rt,
        job_of(&rt, alloc, &store, world, (2, 1), &BLACK)?,
        &[NOTHING, NOTHING],
    );
    Ok(())
}
