use box_tests::*;
use fx_math::{Ray, Vec3};
use std::process::Abort;

fn vec(v: [i64; 3]) -> Vec3 {
    Vec3 {
        x: v[0],
        y: v[1],
        z: v[2],
    }
}

fn boxed(lo: [i64; 3], hi: [i64; 3]) -> Box3 {
    Box3 {
        lo: vec(lo),
        hi: vec(hi),
    }
}

fn ray(o: [i64; 3], d: [i64; 3]) -> Ray {
    Ray {
        o: vec(o),
        d: vec(d),
    }
}

/// Each ray has these bounds in the box. A direction of 65536 for each unit of depth, or of none at all, has exact ones.
fn all_span(rt: &impl Abort, b: &Box3, cases: &[(Ray, Option<(u64, u64)>)]) {
    for (ray, want) in cases {
        let found = span(b, ray);
        assert!(rt; found == *want, "{found:?} of {ray:?}");
    }
}

#[test]
fn a_join_is_the_least_box_round_both(rt: HostRuntime) {
    let left = boxed([-5, 0, 2], [-1, 9, 3]);
    let right = boxed([1, -4, 2], [2, 3, 7]);
    let both = boxed([-5, -4, 2], [2, 9, 7]);
    assert!(&rt; join(&left, &right) == both);
    assert!(&rt; join(&right, &left) == both);
    let point = boxed([0, 0, 5], [0, 0, 5]);
    assert!(&rt; join(&both, &point) == both);
}

#[test]
fn spans_reach_from_face_to_face(rt: HostRuntime) {
    let unit = boxed([-65536; 3], [65536; 3]);
    let cases = [
        // Through the middle, from inside, along a face, and beside one.
        (ray([0, 0, 131072], [0, 0, -65536]), Some((65536, 196608))),
        (ray([0, 0, 0], [0, 0, 65536]), Some((0, 65536))),
        (
            ray([65536, 65536, 131072], [0, 0, -65536]),
            Some((65536, 196608)),
        ),
        (ray([65537, 0, 131072], [0, 0, -65536]), None),
        // Away from it, and from its own face.
        (ray([0, 0, 65537], [0, 0, 65536]), None),
        (ray([0, 0, 65536], [0, 0, 65536]), Some((0, 0))),
        // Across a corner, and past it.
        (
            ray([-131072, 0, 0], [65536, 65536, 0]),
            Some((65536, 65536)),
        ),
        (ray([-131073, 0, 0], [65536, 65536, 0]), None),
        // Without a direction: all the way inside, or never.
        (ray([65536, 0, -65536], [0, 0, 0]), Some((0, 4294967296))),
        (ray([0, 0, 65537], [0, 0, 0]), None),
    ];
    all_span(&rt, &unit, &cases);
}

#[test]
fn boxes_without_width_are_hit(rt: HostRuntime) {
    let point = boxed([7, 8, 9], [7, 8, 9]);
    let cases = [
        (ray([7, 8, 65545], [0, 0, -65536]), Some((65536, 65536))),
        (ray([7, 8, 9], [0, 0, 0]), Some((0, 4294967296))),
        (ray([7, 9, 65545], [0, 0, -65536]), None),
    ];
    all_span(&rt, &point, &cases);
    let plane = boxed([-1000, -1000, 0], [1000, 1000, 0]);
    let cases = [
        (ray([0, 0, 65536], [0, 0, -65536]), Some((65536, 65536))),
        (ray([-2000, 0, 0], [65536, 0, 0]), Some((1000, 3000))),
        (ray([-2000, 0, 1], [65536, 0, 0]), None),
    ];
    all_span(&rt, &plane, &cases);
    let empty = boxed([1, 0, 0], [0, 9, 9]);
    all_span(
        &rt,
        &empty,
        &[
            (ray([0, 4, 4], [0, 0, 0]), None),
            (ray([-5, 4, 4], [65536, 0, 0]), None),
        ],
    );
}

#[test]
fn far_boxes_are_cut_at_the_farthest_depth(rt: HostRuntime) {
    let plane = boxed([-9, -9, 0], [9, 9, 0]);
    assert!(&rt;
        matches!(span(&plane, &ray([0, 0, 65536], [0, 0, -1])), Some((low, 4294967296)) if low <= 4294967296)
    );
    assert!(&rt; span(&plane, &ray([0, 0, 131072], [0, 0, -1])).is_none());
    // A third of the way and two thirds, rounded outward.
    let third = span(&boxed([-9, -9, -2], [9, 9, -1]), &ray([0; 3], [0, 0, -3]));
    assert!(&rt;
        matches!(third, Some((low, high)) if 21844 <= low && low <= 21845 && 43690 <= high && high <= 43691)
    );
    let whole = boxed([i64::MIN; 3], [i64::MAX; 3]);
    assert!(&rt; span(&whole, &ray([i64::MIN; 3], [i64::MAX; 3])).is_some());
    assert!(&rt; span(&whole, &ray([i64::MAX; 3], [i64::MIN; 3])).is_some());
}
