ghost use Rattle.std.specs.Prelude.{IfOk};
ghost use Rattle.picture_model.specs.Limits.{IsBlendWithin, IsRayWithin, IsSceneWithin};

use fx_math::{
    CameraRow, LightList, LightRow, Lighting, NO_ID, Place, Primitive, PrimitiveList, Ray, Scene,
    Shape, Vec3,
};
use picture_model::is_scene_within;
use shade_core::*;
use std::alloc::{AllocError, Global};
use std::process::Abort;

const WHITE: [i32; 3] = [65536; 3];

const RED: [i32; 3] = [65536, 0, 0];

const GREEN: [i32; 3] = [0, 65536, 0];

const BRIGHT: [i32; 3] = [0x7FFF_FFFF; 3];

fn vec(x: i64, y: i64, z: i64) -> Vec3 {
    Vec3 { x, y, z }
}

/// A primitive of the world's own surface `surf`.
fn primitive(surf: u32, shape: Shape, color: [i32; 3], opacity: i32) -> Primitive {
    Primitive {
        place: Place {
            inst: 0,
            surf,
            prim: 0,
        },
        shape,
        color,
        opacity,
        object_id: NO_ID,
        instance_id: NO_ID,
    }
}

/// A right triangle in the plane of x and y, with its corner at (-2, -2) and legs of four.
fn corner_triangle() -> Shape {
    Shape::Triangle(
        vec(-131072, -131072, 0),
        vec(131072, -131072, 0),
        vec(-131072, 131072, 0),
    )
}

/// Parallel rays from one before the plane, in a window that is four high.
fn parallel() -> CameraRow {
    CameraRow::Orthographic {
        position: vec(0, 0, 65536),
        direction: vec(0, 0, -65536),
        up: vec(0, 65536, 0),
        aspect: 65536,
        height: 262144,
    }
}

fn spread(position: Vec3, tan_half_fovy: i32) -> CameraRow {
    CameraRow::Perspective {
        position,
        direction: vec(0, 0, -65536),
        up: vec(0, 65536, 0),
        aspect: 65536,
        tan_half_fovy,
    }
}

fn sun(direction: Vec3, irradiance: i32) -> LightRow {
    LightRow::Directional {
        direction,
        color: WHITE,
        irradiance,
    }
}

fn lamp(position: Vec3, color: [i32; 3], intensity: i32) -> LightRow {
    LightRow::Point {
        position,
        color,
        intensity,
    }
}

/// What a scene of `width` by `height` is made of, before black.
#[derive(Clone, Copy)]
struct Setup<'a> {
    primitives: &'a [Primitive],
    lights: &'a [LightRow],
    camera: CameraRow,
    ambient_radiance: i32,
    width: u32,
    height: u32,
}

/// The scene, which is within the limits.
fn scene(rt: &impl Abort, alloc: Global, setup: &Setup) -> Result<Scene, AllocError>
    ensures { IfOk result IsSceneWithin }
{
    let made = Scene {
        primitives: PrimitiveList::new(Vec::from_slice(alloc, setup.primitives)?),
        camera: setup.camera,
        lighting: Lighting {
            lights: LightList::new(Vec::from_slice(alloc, setup.lights)?),
            background: [0; 3],
            ambient_color: WHITE,
            ambient_radiance: setup.ambient_radiance,
        },
        width: setup.width,
        height: setup.height,
    };
    assert!(rt; is_scene_within(&made));
    Ok(made)
}

/// The ray of a pixel, on which the prepared camera and the plain program agree.
fn ray_of(rt: &impl Abort, scene: &Scene, x: u32, y: u32) -> Ray
    requires { IsSceneWithin scene.now }
    ensures { IsRayWithin result }
{
    assert!(rt; x < scene.width && y < scene.height);
    let ray = camera_ray(&scene.camera, scene.width, scene.height, x, y);
    let plain = picture_model::camera_ray(&scene.camera, scene.width, scene.height, x, y);
    assert!(rt; ray == plain, "at ({x}, {y})");
    ray
}

/// Adds the hit with primitive `i` at a depth; the plain program agrees.
#[tactic(auto, using(shade_core::proofs::Blends::within_room))]
fn add_hit(rt: &impl Abort, scene: &Scene, ray: &Ray, i: usize, depth: u64, b: &mut Blend)
    requires scene { IsSceneWithin scene.now }
    requires ray { IsRayWithin ray.now }
    requires blend { IsBlendWithin b.old }
    ensures { IsBlendWithin b.new }
{
    let primitives = scene.primitives.as_slice();
    assert!(rt; i < primitives.len() && depth <= 1 << 32);
    let primitive = primitives[i];
    let hit = HitRow {
        depth,
        shape: primitive.shape,
        color: primitive.color,
        opacity: primitive.opacity,
    };
    let mut plain = *b;
    picture_model::blend_hit(&scene.lighting, ray, &hit, &mut plain);
    blend_hit(&scene.lighting, ray, &hit, b);
    assert!(rt; *b == plain, "primitive {i}");
}

/// The bytes of the blend, on which the plain program agrees.
#[tactic(auto, using(shade_core::proofs::Blends::within_shown))]
fn bytes_of(rt: &impl Abort, scene: &Scene, b: &Blend) -> [u8; 4]
    requires scene { IsSceneWithin scene.now }
    requires blend { IsBlendWithin b.now }
{
    let bytes = finish_blend(&scene.lighting, b);
    let plain = picture_model::finish_blend(&scene.lighting, b);
    assert!(rt; bytes == plain);
    bytes
}

/// Nothing is gathered yet.
#[tactic(auto, using(shade_core::proofs::Blends::none_within))]
fn unblended() -> Blend
    ensures { IsBlendWithin result }
{
    Blend {
        sum: [0; 3],
        rest: 65536,
    }
}

/// What the scene's last pixel shows of its first primitive, hit at this depth.
fn one_hit(
    rt: &impl Abort,
    alloc: Global,
    setup: &Setup,
    depth: u64,
) -> Result<[u8; 4], AllocError> {
    let made = scene(rt, alloc, setup)?;
    let ray = ray_of(
        rt,
        &made,
        setup.width.wrapping_sub(1),
        setup.height.wrapping_sub(1),
    );
    let mut b = unblended();
    add_hit(rt, &made, &ray, 0, depth, &mut b);
    Ok(bytes_of(rt, &made, &b))
}

/// What its pixel shows of its two primitives, both hit at one depth.
fn two_hits(
    rt: &impl Abort,
    alloc: Global,
    setup: &Setup,
    depth: u64,
) -> Result<[u8; 4], AllocError> {
    let made = scene(rt, alloc, setup)?;
    let ray = ray_of(rt, &made, 0, 0);
    let mut b = unblended();
    add_hit(rt, &made, &ray, 0, depth, &mut b);
    add_hit(rt, &made, &ray, 1, depth, &mut b);
    Ok(bytes_of(rt, &made, &b))
}

fn before_black<'a>(
    primitives: &'a [Primitive],
    lights: &'a [LightRow],
    camera: CameraRow,
) -> Setup<'a> {
    Setup {
        primitives,
        lights,
        camera,
        ambient_radiance: 0,
        width: 1,
        height: 1,
    }
}

#[test]
fn rays_go_through_the_middles_of_pixels(rt: HostRuntime) -> Result<(), AllocError> {
    let alloc = rt.alloc();
    let mut four = before_black(&[], &[], parallel());
    four.width = 4;
    four.height = 4;
    let made = scene(&rt, alloc, &four)?;
    for (x, y, ox, oy) in [
        (0, 0, -98304, -98304),
        (3, 0, 98304, -98304),
        (1, 2, -32768, 32768),
        (3, 3, 98304, 98304),
    ] {
        let ray = ray_of(&rt, &made, x, y);
        assert!(rt;
            ray.o == vec(ox, oy, 65536) && ray.d == vec(0, 0, -65536),
            "({x}, {y})"
        );
    }
    let mut wide = before_black(&[], &[], spread(vec(0, 0, 0), 1048576));
    wide.width = 2;
    let made = scene(&rt, alloc, &wide)?;
    for (x, dx) in [(0, -524288), (1, 524288)] {
        let ray = ray_of(&rt, &made, x, 0);
        assert!(rt;
            ray.o == vec(0, 0, 0) && ray.d == vec(dx, 0, -65536),
            "({x}, 0)"
        );
    }
    Ok(())
}

#[test]
fn lamps_shine_on_the_side_that_they_are_on(rt: HostRuntime) -> Result<(), AllocError> {
    let alloc = rt.alloc();
    let ball = [primitive(0, Shape::Sphere(vec(0, 0, 0), 65536), [52429; 3], 65536)];
    let down = [sun(vec(0, 0, -65536), 65536)];
    // The camera stands inside the ball, so the ray is in it from its origin on.
    let inside = before_black(&ball, &down, spread(vec(0, 0, 32768), 37837));
    assert_eq!(rt; one_hit(&rt, alloc, &inside, 0)?, [0xcc, 0xcc, 0xcc, 255]);
    let face = [primitive(0, corner_triangle(), RED, 65536)];
    let back = [primitive(
        0,
        Shape::Triangle(
            vec(-131072, -131072, 0),
            vec(-131072, 131072, 0),
            vec(131072, -131072, 0),
        ),
        RED,
        65536,
    )];
    let cases = [
        (lamp(vec(0, 0, 131072), WHITE, 131072), 0x80),
        (lamp(vec(0, 0, 131072), WHITE, 262144), 0xff),
        (lamp(vec(0, 0, -131072), WHITE, 262144), 0),
        (lamp(vec(0, 0, 0), WHITE, 262144), 0),
        (sun(vec(0, 0, -65536), 32768), 0x80),
        (sun(vec(0, 0, 65536), 65536), 0),
        (sun(vec(65536, 0, 0), 65536), 0),
    ];
    for (light, red) in cases {
        let lights = [light];
        for seen in [&face, &back] {
            let lit = before_black(seen, &lights, parallel());
            assert!(rt;
                one_hit(&rt, alloc, &lit, 65536)? == [red, 0, 0, 255],
                "{light:?}"
            );
        }
    }
    Ok(())
}

#[test]
fn hits_lie_over_each_other_by_their_opacity(rt: HostRuntime) -> Result<(), AllocError> {
    let alloc = rt.alloc();
    let red = |opacity| primitive(0, corner_triangle(), RED, opacity);
    let green = |opacity| primitive(1, corner_triangle(), GREEN, opacity);
    let cases = [
        ([red(65536), green(65536)], [255, 0, 0, 255]),
        ([red(32768), green(65536)], [128, 128, 0, 255]),
        ([green(65536), red(32768)], [0, 255, 0, 255]),
        ([red(0), green(32768)], [0, 128, 0, 128]),
        ([red(0), green(0)], [0, 0, 0, 0]),
    ];
    for (primitives, want) in cases {
        let mut lit = before_black(&primitives, &[], parallel());
        lit.ambient_radiance = 65536;
        assert_eq!(rt; two_hits(&rt, alloc, &lit, 65536)?, want);
    }
    Ok(())
}

#[test]
fn a_byte_is_rounded_and_at_most_255(rt: HostRuntime) {
    for (radiance, want) in [
        (0, 0),
        (128, 0),
        (129, 1),
        (32768, 128),
        (52429, 204),
        (65407, 254),
        (65408, 255),
        (65535, 255),
        (65536, 255),
        (i128::MAX, 255),
    ] {
        assert_eq!(rt; to_byte(radiance), want, "at {radiance}");
        assert_eq!(rt; picture_model::to_byte(radiance), want, "at {radiance}");
    }
}

const WIDE: i64 = 1 << 28;

#[test]
fn the_ends_of_all_ranges_agree_with_the_plain_program(rt: HostRuntime) -> Result<(), AllocError> {
    let alloc = rt.alloc();
    let lights = [
        sun(vec(1 << 48, -(1 << 48), 1 << 48), 0x7FFF_FFFF),
        sun(vec(0, 0, 0), 0x7FFF_FFFF),
        lamp(vec(WIDE, WIDE, WIDE), BRIGHT, 0x7FFF_FFFF),
        lamp(vec(-WIDE, -WIDE, -WIDE), BRIGHT, 0),
        lamp(vec(1, 1, 1), BRIGHT, 0x7FFF_FFFF),
    ];
    let high = CameraRow::Orthographic {
        position: vec(-WIDE, WIDE, -WIDE),
        direction: vec(1 << 31, -(1 << 31), 1 << 31),
        up: vec(1 << 31, 1 << 31, 1 << 31),
        aspect: 1 << 20,
        height: 1 << 26,
    };
    let low = CameraRow::Perspective {
        position: vec(WIDE, WIDE, WIDE),
        direction: vec(-1, 1, -1),
        up: vec(1, 0, 0),
        aspect: 1 << 20,
        tan_half_fovy: 1 << 20,
    };
    let least = CameraRow::Perspective {
        position: vec(0, 0, 0),
        direction: vec(0, 0, 1),
        up: vec(0, 0, 1),
        aspect: 1,
        tan_half_fovy: 1,
    };
    let shapes = [
        Shape::Triangle(
            vec(WIDE, -WIDE, WIDE),
            vec(-WIDE, WIDE, WIDE),
            vec(WIDE, WIDE, -WIDE),
        ),
        Shape::Triangle(vec(1, 1, 1), vec(1, 1, 1), vec(1, 1, 1)),
        Shape::Sphere(vec(-WIDE, WIDE, -WIDE), WIDE),
        Shape::Sphere(vec(0, 0, 0), 0),
    ];
    for shape in shapes {
        let primitives = [primitive(0, shape, BRIGHT, 65536)];
        for camera in [high, low, least] {
            let mut far = before_black(&primitives, &lights, camera);
            far.ambient_radiance = 0x7FFF_FFFF;
            far.width = 4096;
            far.height = 4096;
            let near = one_hit(&rt, alloc, &far, 0)?;
            assert!(rt; near[3] == 255);
            let end = one_hit(&rt, alloc, &far, 1 << 32)?;
            assert!(rt; end[3] == 255);
        }
    }
    Ok(())
}
