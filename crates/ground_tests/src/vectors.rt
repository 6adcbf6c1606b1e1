#![tactic(auto, unfolding(fx_math::specs::Vec3::reach))]

use fx_math::{
    LightList, LightRow, Mat34, Place, Vec3, cross, dot, isqrt, scaled_down, transform,
    transform_direction, transform_radius, unit,
};
use std::test::Fail;

const ZERO: Vec3 = Vec3 { x: 0, y: 0, z: 0 };

#[test]
fn roots_are_rounded_down(rt: HostRuntime) {
    let below_two_to_64 = 0xffff_ffff_ffff_ffff;
    let rows: [(u128, u128); 10] = [
        (0, 0),
        (1, 1),
        (15, 3),
        (16, 4),
        (0xffff_fffe_0000_0000, 0xffff_fffe),
        (below_two_to_64, 0xffff_ffff),
        (0x1_0000_0000_0000_0000, 0x1_0000_0000),
        (
            0x8000_0000_0000_0000_0000_0000_0000_0000,
            0xb504_f333_f9de_6484,
        ),
        (below_two_to_64 * below_two_to_64 - 1, below_two_to_64 - 1),
        (u128::MAX, below_two_to_64),
    ];
    for (n, root) in rows {
        assert_eq!(rt; isqrt(n), root);
    }
}

#[test]
fn products_fill_their_ranges(rt: HostRuntime) {
    let far = 1 << 62;
    let corner = Vec3 {
        x: far,
        y: far,
        z: -far,
    };
    assert_eq!(rt; dot(corner, corner), 3 << 124);
    let a = Vec3 {
        x: 1 << 30,
        y: 1 << 30,
        z: 1 << 30,
    };
    let b = Vec3 {
        x: 1 << 31,
        y: -(1 << 31),
        z: 1 << 31,
    };
    assert_eq!(rt;
        cross(a, b),
        Vec3 {
            x: 1 << 62,
            y: 0,
            z: -(1 << 62)
        }
    );
}

#[test]
fn unit_vectors_have_the_length_65536(rt: HostRuntime) {
    assert_eq!(rt; unit(ZERO), ZERO);
    let long = Vec3 {
        x: 1 << 32,
        y: 0,
        z: 0,
    };
    assert_eq!(rt;
        unit(long),
        Vec3 {
            x: 65536,
            y: 0,
            z: 0
        }
    );
    let slanted = Vec3 { x: -3, y: 4, z: 0 };
    assert_eq!(rt;
        unit(slanted),
        Vec3 {
            x: -39321,
            y: 52428,
            z: 0
        }
    );
}

#[test]
fn transforms_take_points_directions_and_radii(rt: HostRuntime) {
    let near = Vec3 {
        x: -3,
        y: 5,
        z: 1 << 28,
    };
    assert_eq!(rt; transform(&Mat34::IDENTITY, near), Some(near));
    let far = Vec3 {
        x: 0,
        y: (1 << 28) + 1,
        z: 0,
    };
    assert_eq!(rt; transform(&Mat34::IDENTITY, far), None);
    assert_eq!(rt; transform_direction(&Mat34::IDENTITY, far), far);

    // The first axis goes to (3, 4, 0), the others to halves of themselves, the origin to (7, 8, 9) / 65536.
    let m = Mat34 {
        c: [3 << 16, 4 << 16, 0, 0, 32768, 0, 0, 0, 32768, 7, 8, 9],
    };
    let corner = Vec3 { x: 1, y: -1, z: -2 };
    assert_eq!(rt; transform_direction(&m, corner), Vec3 { x: 3, y: 3, z: -1 });
    assert_eq!(rt; transform(&m, corner), Some(Vec3 { x: 10, y: 11, z: 8 }));
    assert_eq!(rt; transform_radius(&m, 65536), Some(5 * 65536));
    assert_eq!(rt;
        transform_radius(&m, (1 << 28) / 5),
        Some((1 << 28) / 5 * 5)
    );
    assert_eq!(rt; transform_radius(&m, (1 << 28) / 5 + 1), None);
}

#[test]
fn places_are_ordered_by_their_numbers(rt: HostRuntime) {
    let rows = [(0, 0, 0), (0, 0, 7), (0, 1, 0), (1, 0, 0), (1, 0, 2)];
    let mut last = Place {
        inst: 0,
        surf: 0,
        prim: 0,
    };
    for (inst, surf, prim) in rows {
        let place = Place { inst, surf, prim };
        assert!(rt; last <= place);
        last = place;
    }
}

#[test]
fn a_scaled_vector_is_rounded_down(rt: HostRuntime) {
    let v = Vec3 {
        x: 65535,
        y: -1,
        z: -65536,
    };
    assert_eq!(rt; scaled_down(v), Vec3 { x: 0, y: -1, z: -1 });
}

#[test]
fn a_list_of_lights_keeps_their_order(rt: HostRuntime) -> Result<(), Fail> {
    let color = [65536, 0, 0];
    let sun = LightRow::Directional {
        direction: ZERO,
        color,
        irradiance: 1,
    };
    let lamp = LightRow::Point {
        position: ZERO,
        color,
        intensity: 2,
    };
    let list = LightList::new([sun, lamp].to_vec(rt.alloc())?);
    assert_eq!(rt; list.len(), 2);
    assert_eq!(rt; *list.get(0), sun);
    assert_eq!(rt; *list.get(1), lamp);
    assert_eq!(rt; list.into_vec().as_slice(), [sun, lamp].as_slice());
    Ok(())
}
