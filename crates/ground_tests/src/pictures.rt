ghost use Rattle.std.specs.Prelude.{IfOk};
ghost use Rattle.picture_model.specs.Limits.{IsSceneWithin};

use fx_math::{
    CameraRow, LightList, LightRow, Lighting, NO_ID, Place, Primitive, PrimitiveList, Scene, Shape,
    Vec3,
};
use picture_model::*;
use std::alloc::{AllocError, Global};
use std::process::Abort;

const RED: [i32; 3] = [65536, 0, 0];

const GREEN: [i32; 3] = [0, 65536, 0];

const GREY: [i32; 3] = [52429, 52429, 52429];

const WHITE: [i32; 3] = [65536, 65536, 65536];

const OPAQUE: i32 = 65536;

fn point(x: i64, y: i64, z: i64) -> Vec3 {
    Vec3 { x, y, z }
}

/// A primitive of the world's own surface `surf`, whose id is `object_id`.
fn primitive(surf: u32, shape: Shape, color: [i32; 3], opacity: i32, object_id: u32) -> Primitive {
    Primitive {
        place: Place {
            inst: 0,
            surf,
            prim: 0,
        },
        shape,
        color,
        opacity,
        object_id,
        instance_id: NO_ID,
    }
}

/// A right triangle in the plane of x and y, with its corner at (-2, -2) and legs of four.
fn corner_triangle() -> Shape {
    Shape::Triangle(
        point(-131072, -131072, 0),
        point(131072, -131072, 0),
        point(-131072, 131072, 0),
    )
}

/// Parallel rays from one before the plane, in a window that is four high.
fn parallel() -> CameraRow {
    CameraRow::Orthographic {
        position: point(0, 0, 65536),
        direction: point(0, 0, -65536),
        up: point(0, 65536, 0),
        aspect: 65536,
        height: 262144,
    }
}

fn spread(position: Vec3, tan_half_fovy: i32) -> CameraRow {
    CameraRow::Perspective {
        position,
        direction: point(0, 0, -65536),
        up: point(0, 65536, 0),
        aspect: 65536,
        tan_half_fovy,
    }
}

fn lamp(position: Vec3, intensity: i32) -> LightRow {
    LightRow::Point {
        position,
        color: WHITE,
        intensity,
    }
}

/// A scene of one pixel before black, or of `width` by `height`, with what each test changes.
#[derive(Clone, Copy)]
struct Setup<'a> {
    primitives: &'a [Primitive],
    lights: &'a [LightRow],
    camera: CameraRow,
    background: [i32; 3],
    ambient_radiance: i32,
    width: u32,
    height: u32,
}

fn before_black<'a>(primitives: &'a [Primitive], camera: CameraRow) -> Setup<'a> {
    Setup {
        primitives,
        lights: &[],
        camera,
        background: [0; 3],
        ambient_radiance: 65536,
        width: 1,
        height: 1,
    }
}

/// The scene, which is within the limits.
fn scene(rt: &impl Abort, alloc: Global, setup: &Setup) -> Result<Scene, AllocError>
    ensures { IfOk result IsSceneWithin }
{
    let made = Scene {
        primitives: PrimitiveList::new(Vec::from_slice(alloc, setup.primitives)?),
        camera: setup.camera,
        lighting: Lighting {
            lights: LightList::new(Vec::from_slice(alloc, setup.lights)?),
            background: setup.background,
            ambient_color: WHITE,
            ambient_radiance: setup.ambient_radiance,
        },
        width: setup.width,
        height: setup.height,
    };
    assert!(rt; is_scene_within(&made));
    Ok(made)
}

/// The colours and the object ids of all pixels.
fn planes(rt: &impl Abort, alloc: Global, setup: &Setup) -> Result<(Vec<u8>, Vec<u8>), AllocError> {
    let made = scene(rt, alloc, setup)?;
    Ok((
        picture(alloc, &made, Plane::Color)?,
        picture(alloc, &made, Plane::ObjectId)?,
    ))
}

#[test]
fn a_triangle_is_hit_up_to_its_edges(rt: HostRuntime) -> Result<(), AllocError> {
    let alloc = rt.alloc();
    let red = [primitive(0, corner_triangle(), RED, OPAQUE, NO_ID)];
    let mut four = before_black(&red, parallel());
    four.width = 4;
    four.height = 4;
    let (colors, _) = planes(&rt, alloc, &four)?;
    // By rows from the lower left: the diagonal is the edge, and lies on the middles of its pixels.
    let hit = [1, 1, 1, 1, 1, 1, 1, 0, 1, 1, 0, 0, 1, 0, 0, 0];
    for (i, hit) in hit.iter().enumerate() {
        let want = if *hit == 1 {
            [255, 0, 0, 255]
        } else {
            [0, 0, 0, 0]
        };
        assert!(rt;
            colors.get(4 * i..4 * i + 4) == Some(&want[..]),
            "pixel {i}"
        );
    }
    // A ray in the triangle's own plane misses it.
    let upright = Shape::Triangle(
        point(0, -131072, 0),
        point(0, 131072, 0),
        point(0, 0, 32768),
    );
    let (colors, _) = planes(
        &rt,
        alloc,
        &before_black(&[primitive(0, upright, RED, OPAQUE, NO_ID)], parallel()),
    )?;
    assert_eq!(rt; colors.as_slice(), [0, 0, 0, 0].as_slice());
    Ok(())
}

#[test]
fn an_empty_scene_shows_its_background_and_no_ids(rt: HostRuntime) -> Result<(), AllocError> {
    let alloc = rt.alloc();
    let mut empty = before_black(&[], parallel());
    empty.background = [65536, 32768, 0];
    let made = scene(&rt, alloc, &empty)?;
    assert_eq!(rt;
        picture(alloc, &made, Plane::Color)?.as_slice(),
        [255, 128, 0, 0].as_slice()
    );
    for plane in [Plane::PrimitiveId, Plane::ObjectId, Plane::InstanceId] {
        assert_eq!(rt;
            picture(alloc, &made, plane)?.as_slice(),
            [255, 255, 255, 255].as_slice()
        );
    }
    Ok(())
}

#[test]
fn surfaces_lie_over_each_other_by_place_and_opacity(rt: HostRuntime) -> Result<(), AllocError> {
    let alloc = rt.alloc();
    let half = OPAQUE / 2;
    let s = |surf, opacity| primitive(surf, corner_triangle(), RED, opacity, 11);
    let z = |surf| primitive(surf, corner_triangle(), GREEN, OPAQUE, 22);
    let cases = [
        (
            "of two at one depth the lower place shows",
            [s(0, OPAQUE), z(1)],
            [255, 0, 0, 255],
            11,
        ),
        (
            "whatever their order in the list",
            [z(1), s(0, OPAQUE)],
            [255, 0, 0, 255],
            11,
        ),
        (
            "and the places the other way round",
            [z(0), s(1, OPAQUE)],
            [0, 255, 0, 255],
            22,
        ),
        (
            "half red before green",
            [s(0, half), z(1)],
            [128, 128, 0, 255],
            11,
        ),
        (
            "an opaque surface hides the rest",
            [z(0), s(1, half)],
            [0, 255, 0, 255],
            22,
        ),
        (
            "what lets all through is still the nearest",
            [s(0, 0), z(1)],
            [0, 255, 0, 255],
            11,
        ),
    ];
    for (name, primitives, color, id) in cases {
        let (colors, ids) = planes(&rt, alloc, &before_black(&primitives, parallel()))?;
        assert!(rt; colors.as_slice() == color.as_slice(), "{name}");
        assert!(rt; ids.as_slice() == [id, 0, 0, 0].as_slice(), "{name}");
    }
    let (colors, _) = planes(&rt, alloc, &before_black(&[s(0, half)], parallel()))?;
    assert_eq!(rt; colors.as_slice(), [128, 0, 0, 128].as_slice());
    Ok(())
}

#[test]
fn lights_shine_on_spheres_and_triangles(rt: HostRuntime) -> Result<(), AllocError> {
    let alloc = rt.alloc();
    let ball = Shape::Sphere(point(0, 0, 0), 65536);
    let sun = [LightRow::Directional {
        direction: point(0, 0, -65536),
        color: WHITE,
        irradiance: 65536,
    }];
    // The camera stands inside the ball, so the ray is in it from its origin on.
    let grey = [primitive(0, ball, GREY, OPAQUE, NO_ID)];
    let mut inside = before_black(&grey, spread(point(0, 0, 32768), 37837));
    inside.lights = &sun;
    inside.ambient_radiance = 0;
    let (colors, _) = planes(&rt, alloc, &inside)?;
    assert_eq!(rt; colors.as_slice(), [0xcc, 0xcc, 0xcc, 255].as_slice());
    let red = [primitive(0, corner_triangle(), RED, OPAQUE, NO_ID)];
    for (intensity, byte) in [(131072, 0x80), (262144, 0xff)] {
        let lamps = [lamp(point(0, 0, 131072), intensity)];
        let mut lit = before_black(&red, parallel());
        lit.lights = &lamps;
        lit.ambient_radiance = 0;
        let (colors, _) = planes(&rt, alloc, &lit)?;
        assert_eq!(rt;
            colors.as_slice(),
            [byte, 0, 0, 255].as_slice(),
            "at {intensity}"
        );
    }
    Ok(())
}

#[test]
fn a_sphere_between_two_points_of_the_ray_is_missed(rt: HostRuntime) -> Result<(), AllocError> {
    let alloc = rt.alloc();
    // The right pixel's points are (8 s, 0, -s): the line passes the ball between the first two.
    let small = [primitive(0, Shape::Sphere(point(4, 0, 0), 1), GREY, OPAQUE, NO_ID)];
    let mut wide = before_black(&small, spread(point(0, 0, 0), 1048576));
    wide.width = 2;
    let (colors, _) = planes(&rt, alloc, &wide)?;
    assert_eq!(rt; colors.as_slice(), [0; 8].as_slice());
    Ok(())
}

#[test]
fn all_hits_come_from_front_to_back(rt: HostRuntime) -> Result<(), AllocError> {
    let alloc = rt.alloc();
    let behind = Shape::Triangle(
        point(-131072, -131072, -65536),
        point(131072, -131072, -65536),
        point(-131072, 131072, -65536),
    );
    let listed = PrimitiveList::new(Vec::from_slice(
        alloc,
        &[
            primitive(0, behind, GREEN, OPAQUE, NO_ID),
            primitive(2, corner_triangle(), RED, OPAQUE, NO_ID),
            primitive(1, corner_triangle(), RED, OPAQUE, NO_ID),
        ],
    )?);
    let made = Scene {
        primitives: listed,
        camera: parallel(),
        lighting: Lighting {
            lights: LightList::new(Vec::new(alloc)),
            background: [0; 3],
            ambient_color: WHITE,
            ambient_radiance: 65536,
        },
        width: 1,
        height: 1,
    };
    assert!(rt; is_scene_within(&made));
    assert_eq!(rt; made.primitives.len(), 3);
    assert_eq!(rt; made.primitives.place(1).surf, 2);
    assert!(rt; made.primitives.shape(0) == behind);
    let ray = camera_ray(&made.camera, 1, 1, 0, 0);
    let found = hits(alloc, &ray, made.primitives.as_slice())?;
    let order = [(65536, 1), (65536, 2), (131072, 0)];
    assert_eq!(rt; found.len(), 3);
    for (hit, (depth, surf)) in found.iter().zip(order) {
        assert!(rt; hit.depth == depth && hit.place.surf == surf);
    }
    let shown = picture(alloc, &made, Plane::Color)?;
    let tile = tile_of(1, 1, 0, 0);
    assert!(rt; part(alloc, &made, Plane::Color, tile)?.as_slice() == shown.as_slice());
    Ok(())
}

#[test]
fn tiles_are_cut_at_the_border(rt: HostRuntime) {
    for (w, h, tile, want) in [(17, 1, 1, [16, 0, 1, 1]), (320, 240, 20, [0, 16, 16, 16])] {
        let rect = tile_rect(w, h, tile);
        assert_eq!(rt; [rect.x0, rect.y0, rect.w, rect.h], want);
    }
}
