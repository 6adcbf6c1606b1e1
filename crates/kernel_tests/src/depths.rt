use fx_math::{Ray, Shape, Vec3, reach};
use hit_tests::*;
use picture_model::depth;
use std::process::Abort;

fn vec(x: i64, y: i64, z: i64) -> Vec3 {
    Vec3 { x, y, z }
}

fn ray(o: [i64; 3], d: [i64; 3]) -> Ray {
    Ray {
        o: vec(o[0], o[1], o[2]),
        d: vec(d[0], d[1], d[2]),
    }
}

/// The ray from `o` straight down, to lower z, with a direction of this length.
fn down(x: i64, y: i64, z: i64, length: u32) -> Ray {
    Ray {
        o: vec(x, y, z),
        d: vec(0, 0, -(length as i64)),
    }
}

/// The depth of the ray's hit with the shape, on which the plain program agrees.
fn depth_of(rt: &impl Abort, ray: &Ray, shape: &Shape) -> Option<u64> {
    assert!(rt; reach(ray.o) <= 1 << 30 && reach(ray.d) <= 1 << 25);
    match *shape {
        Shape::Triangle(a, b, c) => {
            assert!(rt; reach(a) <= 1 << 28 && reach(b) <= 1 << 28 && reach(c) <= 1 << 28);
            let plain = depth(ray, &Shape::Triangle(a, b, c));
            let found = triangle(ray, a, b, c);
            assert!(rt; found == plain, "at a triangle");
            found
        }
        Shape::Sphere(centre, radius) => {
            assert!(rt; reach(centre) <= 1 << 28 && 0 <= radius && radius <= 1 << 28);
            let plain = depth(ray, &Shape::Sphere(centre, radius));
            let found = sphere(ray, centre, radius);
            assert!(rt; found == plain, "at a sphere");
            found
        }
    }
}

/// Each ray straight down meets the shape at its depth: x, y and z of its origin, the length of its direction, the depth.
fn all_meet(rt: &impl Abort, shape: &Shape, cases: &[(i64, i64, i64, u32, Option<u64>)]) {
    for (x, y, z, length, want) in cases {
        let found = depth_of(rt, &down(*x, *y, *z, *length), shape);
        assert!(rt; found == *want, "{found:?} from ({x}, {y}, {z})");
    }
}

#[test]
fn a_triangle_is_hit_up_to_its_edges(rt: HostRuntime) {
    let low = vec(-131072, -131072, 0);
    let right = vec(131072, -131072, 0);
    let high = vec(-131072, 131072, 0);
    let inside_and_on_edges = [
        (-98304, -98304, 65536, 65536, Some(65536)),
        (98304, -98304, 65536, 65536, Some(65536)),
        (-32768, 32768, 65536, 65536, Some(65536)),
        (-131072, 0, 65536, 65536, Some(65536)),
        (0, -131072, 65536, 65536, Some(65536)),
        (131072, -131072, 65536, 65536, Some(65536)),
    ];
    all_meet(
        &rt,
        &Shape::Triangle(low, right, high),
        &inside_and_on_edges,
    );
    all_meet(
        &rt,
        &Shape::Triangle(low, high, right),
        &inside_and_on_edges,
    );
    let beside = [
        (-32768, 32769, 65536, 65536, None),
        (-131073, 0, 65536, 65536, None),
        (0, -131073, 65536, 65536, None),
        (98304, 98304, 65536, 65536, None),
    ];
    all_meet(&rt, &Shape::Triangle(low, right, high), &beside);
    all_meet(&rt, &Shape::Triangle(low, high, right), &beside);
    let near_and_far = [
        (0, 0, 0, 65536, Some(0)),
        (0, 0, -1, 65536, None),
        // A third of the way, rounded down.
        (0, 0, 1, 3, Some(21845)),
        (0, 0, 65536, 1, Some(4294967296)),
        (0, 0, 65537, 1, None),
        (0, 0, 65536, 0, None),
    ];
    all_meet(&rt, &Shape::Triangle(low, right, high), &near_and_far);
    // These two have the ray in their plane, or no plane at all.
    let upright = Shape::Triangle(vec(0, -131072, 0), vec(0, 131072, 0), vec(0, 0, 32768));
    all_meet(&rt, &upright, &[(0, 0, 65536, 65536, None)]);
    let line = Shape::Triangle(low, high, low);
    all_meet(&rt, &line, &[(-131072, 0, 65536, 65536, None)]);
}

#[test]
fn a_sphere_is_hit_at_the_first_point_inside(rt: HostRuntime) {
    let one = [
        (0, 0, 32768, 65536, Some(0)),
        (0, 0, 65536, 65536, Some(0)),
        (0, 0, -65536, 65536, Some(0)),
        (0, 0, -65537, 65536, None),
        (0, 0, 131072, 65536, Some(65536)),
        (65536, 0, 131072, 65536, Some(131072)),
        (65537, 0, 131072, 65536, None),
    ];
    all_meet(&rt, &Shape::Sphere(vec(0, 0, 0), 65536), &one);
    let without_a_radius = [
        (0, 0, 65536, 65536, Some(65536)),
        (1, 0, 65536, 65536, None),
        (0, 0, 65536, 1, Some(4294967296)),
        (0, 0, 65537, 1, None),
    ];
    all_meet(&rt, &Shape::Sphere(vec(0, 0, 0), 0), &without_a_radius);
    let two_units = [
        // Eight thirds of the way, rounded up, and nine.
        (0, 0, 10, 3, Some(174763)),
        (0, 0, 11, 3, Some(196608)),
        (0, 0, 1, 0, Some(0)),
        (0, 0, 3, 0, None),
    ];
    all_meet(&rt, &Shape::Sphere(vec(0, 0, 0), 2), &two_units);
    // The points are (8 s, 0, -s): the line passes the ball between the first two.
    let between = ray([0, 0, 0], [524288, 0, -65536]);
    assert!(rt; depth_of(&rt, &between, &Shape::Sphere(vec(4, 0, 0), 1)).is_none());
}

const FAR: i64 = 1 << 30;

const FAST: i64 = 1 << 25;

const WIDE: i64 = 1 << 28;

fn corners(a: [i64; 3], b: [i64; 3], c: [i64; 3]) -> Shape {
    Shape::Triangle(
        vec(a[0], a[1], a[2]),
        vec(b[0], b[1], b[2]),
        vec(c[0], c[1], c[2]),
    )
}

fn ball(centre: [i64; 3], radius: i64) -> Shape {
    Shape::Sphere(vec(centre[0], centre[1], centre[2]), radius)
}

/// Whether any of the rays hits the shape.
fn is_hit(rt: &impl Abort, rays: &[Ray], shape: &Shape) -> bool {
    let mut hit = false;
    for ray in rays {
        hit |= depth_of(rt, ray, shape).is_some();
    }
    hit
}

/// Each shape is hit by some of the rays, or else none is by any.
fn are_hit(rt: &impl Abort, rays: &[Ray], shapes: &[Shape], want: bool) {
    for shape in shapes {
        assert!(rt; is_hit(rt, rays, shape) == want, "{shape:?}");
    }
}

#[test]
fn the_ends_of_all_ranges_agree_with_the_plain_program(rt: HostRuntime) {
    let rays = [
        ray([FAR, FAR, FAR], [-FAST, -FAST, -FAST]),
        ray([-FAR, -FAR, -FAR], [FAST, FAST, FAST]),
        ray([-FAR, FAR, -FAR], [FAST, -FAST, FAST]),
        ray([FAR, 0, 0], [-FAST, 0, 0]),
        ray([0, FAR, 0], [0, -FAST, 1]),
        ray([0, 0, FAR], [0, 0, -FAST]),
        ray([0, 0, FAR], [3, -1, -65536]),
        ray([0, 0, FAR], [0, 0, -16384]),
        ray([0, 0, FAR], [0, 0, -16383]),
        ray([0, 0, FAR], [0, 0, FAST]),
        ray([FAR, FAR, FAR], [-255, -255, -255]),
        ray([WIDE, WIDE, WIDE], [-256, -256, -256]),
        ray([0, 0, 0], [FAST, -FAST, FAST]),
        ray([0, 0, 0], [0, 0, 1]),
        ray([0, 0, 0], [0, 0, 0]),
        ray([1, 2, WIDE], [0, 0, -255]),
        ray([1, 2, WIDE], [0, 0, -256]),
        ray([-WIDE, WIDE, -WIDE], [FAST, -FAST, FAST]),
    ];
    let hit = [
        corners([-WIDE, -WIDE, 0], [WIDE, -WIDE, 0], [0, WIDE, 0]),
        corners([WIDE, -WIDE, -WIDE], [-WIDE, WIDE, -WIDE], [WIDE; 3]),
        corners([WIDE; 3], [-WIDE, -WIDE, WIDE], [-WIDE, WIDE, -WIDE]),
        corners([0, WIDE, -WIDE], [0, -WIDE, -WIDE], [0, 0, WIDE]),
        corners([-1, -1, 0], [1, -1, 0], [0, 1, 0]),
        ball([0, 0, 0], WIDE),
        ball([0, 0, 0], WIDE - 1),
        ball([0, 0, 0], 1),
        ball([0, 0, 0], 0),
        ball([WIDE, WIDE, WIDE], WIDE),
        ball([-WIDE, WIDE, -WIDE], WIDE),
        ball([-WIDE, -WIDE, -WIDE], 0),
    ];
    are_hit(&rt, &rays, &hit, true);
    let missed = [
        corners([-WIDE; 3], [0; 3], [WIDE; 3]),
        corners([WIDE; 3], [WIDE; 3], [WIDE; 3]),
        ball([WIDE, -WIDE, 0], 65536),
        // One ray's line passes this ball, but between two points that lie 512 apart.
        ball([3, -3, 5], 2),
    ];
    are_hit(&rt, &rays, &missed, false);
}
