ghost use Rattle.std.specs.Prelude.{All};
ghost use Rattle.picture_model.specs.Limits.{IsSceneWithin, IsShapeWithin};
ghost use Rattle.picture_model.specs.Shading.{placed};
ghost use Rattle.ray_kernel.specs.Searches.{IsTreeFor};

use box_tests::Box3;
use bvh_build::Tree;
use fx_math::{
    CameraRow, LightList, Lighting, NO_ID, Place, Primitive, PrimitiveList, Ray, Scene, Shape,
    Vec3, reach,
};
use picture_model::{Hit, PrimSource, is_scene_within};
use ray_kernel::*;
use std::alloc::{AllocError, Global};
use std::cell::Cell;
use std::process::Abort;

fn vec(x: i64, y: i64, z: i64) -> Vec3 {
    Vec3 { x, y, z }
}

/// The shape's box reaches from `lo` to `hi`.
fn reaches(rt: &impl Abort, shape: &Shape, lo: Vec3, hi: Vec3) {
    let found = match *shape {
        Shape::Triangle(a, b, c) => {
            assert!(rt; reach(a) <= 1 << 28 && reach(b) <= 1 << 28 && reach(c) <= 1 << 28);
            shape_box(&Shape::Triangle(a, b, c))
        }
        Shape::Sphere(centre, radius) => {
            assert!(rt; reach(centre) <= 1 << 28 && 0 <= radius && radius <= 1 << 28);
            shape_box(&Shape::Sphere(centre, radius))
        }
    };
    assert!(rt; found == Box3 { lo, hi }, "{found:?}");
}

#[test]
fn boxes_reach_round_their_shapes(rt: HostRuntime) {
    let triangle = Shape::Triangle(vec(-3, 5, 7), vec(4, -6, 7), vec(0, 0, 9));
    reaches(&rt, &triangle, vec(-3, -6, 7), vec(4, 5, 9));
    let ball = Shape::Sphere(vec(1, -2, 300), 10);
    reaches(&rt, &ball, vec(-9, -12, 290), vec(11, 8, 310));
    let point = vec(268435456, -268435456, 0);
    reaches(&rt, &Shape::Sphere(point, 0), point, point);
}

fn place(surf: u32, prim: u32) -> Place {
    Place {
        inst: 0,
        surf,
        prim,
    }
}

fn primitive(place: Place, shape: Shape) -> Primitive {
    Primitive {
        place,
        shape,
        color: [0; 3],
        opacity: 65536,
        object_id: NO_ID,
        instance_id: NO_ID,
    }
}

/// The primitives in a scene, which is within the limits.
fn scene(rt: &impl Abort, alloc: Global, primitives: Vec<Primitive>) -> Scene
    ensures within { IsSceneWithin result }
    ensures shapes { All (λ p. IsShapeWithin p.1) (placed result.primitives) }
{
    let made = Scene {
        primitives: PrimitiveList::new(primitives),
        camera: CameraRow::Orthographic {
            position: vec(0, 0, 65536),
            direction: vec(0, 0, -65536),
            up: vec(0, 65536, 0),
            aspect: 65536,
            height: 65536,
        },
        lighting: Lighting {
            lights: LightList::new(Vec::new(alloc)),
            background: [0; 3],
            ambient_color: [0; 3],
            ambient_radiance: 0,
        },
        width: 1,
        height: 1,
    };
    assert!(rt; is_scene_within(&made));
    made
}

fn ray(o: Vec3, d: Vec3) -> Ray {
    Ray { o, d }
}

/// The ray meets these hits, from front to back, and no other ones; the plain program agrees.
fn meets(rt: &impl Abort, scene: &Scene, tree: &Tree, ray: &Ray, want: &[Hit])
    requires scene { IsSceneWithin scene.now }
    requires shapes { All (λ p. IsShapeWithin p.1) (placed scene.now.primitives) }
    requires tree { IsTreeFor tree.now (placed scene.now.primitives) }
{
    assert!(rt; reach(ray.o) <= 1 << 30 && reach(ray.d) <= 1 << 25);
    let plain = scene.primitives.as_slice();
    let mut tests = 0;
    let mut next = nearest(tree, &scene.primitives, ray, &mut tests);
    assert!(rt; next == picture_model::nearest(ray, plain));
    for hit in want {
        assert!(rt; next == Some(*hit), "{next:?}");
        next = hit_after(tree, &scene.primitives, ray, hit, &mut tests);
        assert!(rt; next == picture_model::hit_after(ray, plain, hit));
    }
    assert!(rt; next.is_none(), "{next:?}");
}

/// Each ray meets its hits, where the primitives are listed in this order, or in the reverse one.
fn all_meet(
    rt: &impl Abort,
    alloc: Global,
    primitives: &[Primitive],
    reversed: bool,
    cases: &[(Ray, &[Hit])],
) -> Result<(), AllocError> {
    let mut listed = Vec::from_slice(alloc, primitives)?;
    if reversed {
        listed.reverse();
    }
    let drawn = scene(rt, alloc, listed);
    assert!(rt; drawn.primitives.len() <= 1 << 20);
    let tree = tree_over(alloc, &drawn.primitives).expect(rt, "memory");
    for (ray, want) in cases {
        meets(rt, &drawn, &tree, ray, want);
    }
    Ok(())
}

fn hit(depth: u64, surf: u32, prim: u32) -> Hit {
    Hit {
        depth,
        place: place(surf, prim),
    }
}

/// The ray from one above the plane of x and y, straight down.
fn down(x: i64, y: i64) -> Ray {
    ray(vec(x, y, 65536), vec(0, 0, -65536))
}

/// A right triangle across z, with its corner at (-2, -2) and legs of four.
fn corner_triangle(z: i64) -> Shape {
    Shape::Triangle(
        vec(-131072, -131072, z),
        vec(131072, -131072, z),
        vec(-131072, 131072, z),
    )
}

#[test]
fn no_primitives_have_no_hit(rt: HostRuntime) -> Result<(), AllocError> {
    all_meet(&rt, rt.alloc(), &[], false, &[(down(0, 0), &[])])
}

#[test]
fn ties_go_by_place_in_either_order(rt: HostRuntime) -> Result<(), AllocError> {
    let primitives = [
        primitive(place(2, 0), corner_triangle(0)),
        primitive(place(1, 1), corner_triangle(0)),
        primitive(place(1, 0), corner_triangle(0)),
    ];
    let cases: [(Ray, &[Hit]); 2] = [
        (
            down(-65536, -65536),
            &[hit(65536, 1, 0), hit(65536, 1, 1), hit(65536, 2, 0)],
        ),
        (down(65536, 65536), &[]),
    ];
    all_meet(&rt, rt.alloc(), &primitives, false, &cases)?;
    all_meet(&rt, rt.alloc(), &primitives, true, &cases)
}

#[test]
fn spheres_and_triangles_come_from_front_to_back(rt: HostRuntime) -> Result<(), AllocError> {
    let primitives = [
        primitive(place(0, 0), corner_triangle(0)),
        primitive(place(0, 1), corner_triangle(-65536)),
        primitive(
            place(1, 0),
            Shape::Sphere(vec(-65536, -65536, -32768), 16384),
        ),
        primitive(place(2, 0), Shape::Sphere(vec(65536, 65536, 0), 65536)),
    ];
    let cases: [(Ray, &[Hit]); 6] = [
        (
            down(-65536, -65536),
            &[hit(65536, 0, 0), hit(81920, 1, 0), hit(131072, 0, 1)],
        ),
        (
            ray(vec(-65536, -65536, 65536), vec(0, 0, -131072)),
            &[hit(32768, 0, 0), hit(40960, 1, 0), hit(65536, 0, 1)],
        ),
        (
            ray(vec(-65536, -65536, -131072), vec(0, 0, 65536)),
            &[hit(65536, 0, 1), hit(81920, 1, 0), hit(131072, 0, 0)],
        ),
        (
            ray(vec(-262144, -65536, -32768), vec(65536, 0, 0)),
            &[hit(180224, 1, 0)],
        ),
        (down(65536, 65536), &[hit(0, 2, 0)]),
        (ray(vec(262144, 0, 0), vec(65536, 0, 0)), &[]),
    ];
    all_meet(&rt, rt.alloc(), &primitives, false, &cases)?;
    all_meet(&rt, rt.alloc(), &primitives, true, &cases)
}

#[test]
fn rays_in_a_face_of_two_boxes_meet_both_shapes(rt: HostRuntime) -> Result<(), AllocError> {
    let balls = [
        primitive(place(0, 0), Shape::Sphere(vec(-65536, 0, 0), 65536)),
        primitive(place(0, 1), Shape::Sphere(vec(65536, 0, 0), 65536)),
    ];
    let touching: &[Hit] = &[hit(65536, 0, 0), hit(65536, 0, 1)];
    let cases: [(Ray, &[Hit]); 3] = [
        (down(0, 0), touching),
        (ray(vec(0, -65536, 0), vec(0, 65536, 0)), touching),
        (
            ray(vec(-262144, 0, 0), vec(65536, 0, 0)),
            &[hit(131072, 0, 0), hit(262144, 0, 1)],
        ),
    ];
    all_meet(&rt, rt.alloc(), &balls, false, &cases)?;
    let triangles = [
        primitive(
            place(0, 0),
            Shape::Triangle(vec(0, 0, 0), vec(65536, 0, 0), vec(0, 65536, 0)),
        ),
        primitive(
            place(0, 1),
            Shape::Triangle(vec(65536, 0, 0), vec(131072, 0, 0), vec(65536, 65536, 0)),
        ),
    ];
    let cases: [(Ray, &[Hit]); 2] = [
        (down(65536, 0), touching),
        (down(65536, 32768), &[hit(65536, 0, 1)]),
    ];
    all_meet(&rt, rt.alloc(), &triangles, false, &cases)
}

/// Primitives whose source counts how often it is asked for a shape.
#[derive(Drop)]
struct Counted {
    list: PrimitiveList,
    shapes: Cell<u64>,
}

impl PrimSource for Counted {
    ghost primitives = { λ c. placed c.list };

    fn len(&self) -> u64 {
        self.list.len()
    }

    fn place(&self, i: u64) -> Place {
        self.list.place(i)
    }

    fn shape(&self, i: u64) -> Shape {
        self.shapes.set(self.shapes.get().wrapping_add(1));
        self.list.shape(i)
    }
}

/// Triangle `i` of 1024 along x.
fn along_x(i: u32) -> Primitive {
    let x = 1000 * i.min(1023) as i64;
    primitive(
        place(0, i),
        Shape::Triangle(vec(x, 0, 0), vec(x + 500, 0, 0), vec(x, 500, 0)),
    )
}

#[test]
fn few_of_many_triangles_are_tested(rt: HostRuntime) -> Result<(), AllocError> {
    let alloc = rt.alloc();
    let mut row = Vec::new(alloc);
    for i in 0..1024 {
        row.push(along_x(i))?;
    }
    let made = scene(&rt, alloc, row);
    assert!(rt; made.primitives.len() <= 1 << 20);
    let tree = tree_over(alloc, &made.primitives).expect(&rt, "memory");
    let source = Counted {
        list: made.primitives,
        shapes: Cell::new(0),
    };
    for (x, want) in [(700100, Some(hit(65536, 0, 700))), (700600, None)] {
        source.shapes.set(0);
        let mut tests = 0;
        let ray = down(x, 100);
        assert!(rt; reach(ray.o) <= 1 << 30 && reach(ray.d) <= 1 << 25);
        let found = nearest(&tree, &source, &ray, &mut tests);
        assert_eq!(rt; found, want);
        assert!(rt; source.shapes.get() <= 64 && tests == source.shapes.get());
    }
    Ok(())
}
