use box_tests::{Box3, join};
use bvh_build::*;
use fx_math::Vec3;
use std::process::Abort;

fn cube(x: i32, y: i32, z: i32) -> Box3 {
    let (x, y, z) = (x as i64, y as i64, z as i64);
    Box3 {
        lo: Vec3 { x, y, z },
        hi: Vec3 {
            x: x + 1,
            y: y + 1,
            z: z + 1,
        },
    }
}

fn leaf(bounds: Box3, index: u32) -> Node {
    Node::Leaf(Item { bounds, index })
}

/// The tree has these nodes.
fn is_laid(rt: &impl Abort, tree: &Tree, want: &[Node]) {
    let found = tree.nodes();
    assert!(rt; found == want, "{found:?}");
}

#[test]
fn no_boxes_make_a_tree_without_leaves(rt: HostRuntime) {
    let tree = build(rt.alloc(), &[]).expect(&rt, "memory");
    is_laid(&rt, &tree, &[]);
}

#[test]
fn one_box_is_a_leaf(rt: HostRuntime) {
    let boxes = [cube(3, 4, 5)];
    let tree = build(rt.alloc(), &boxes).expect(&rt, "memory");
    is_laid(&rt, &tree, &[leaf(boxes[0], 0)]);
}

#[test]
fn cuts_go_along_the_widest_axis_of_the_centres(rt: HostRuntime) {
    // Along y they stand in the order 2, 0, 1; there the centres reach farthest, though the boxes are wider along x.
    let mut boxes = [cube(0, 10, 0), cube(2, 20, 0), cube(1, 0, 3)];
    boxes[1].hi.x = 90;
    boxes[2].lo.x = -86;
    let upper = join(&boxes[0], &boxes[1]);
    let all = join(&upper, &boxes[2]);
    let tree = build(rt.alloc(), &boxes).expect(&rt, "memory");
    is_laid(
        &rt,
        &tree,
        &[
            Node::Fork(all, 1),
            leaf(boxes[2], 2),
            Node::Fork(upper, 1),
            leaf(boxes[0], 0),
            leaf(boxes[1], 1),
        ],
    );
}
