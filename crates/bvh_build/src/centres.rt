use crate::trees::Item;
use box_tests::Box3;

/// An axis of space.
#[derive(Clone, Copy, Debug)]
pub(crate) enum Axis {
    X,
    Y,
    Z,
}

/// Twice the middle of the box on an axis.
pub(crate) fn centre(bounds: &Box3, axis: Axis) -> i128 {
    let (low, high) = match axis {
        Axis::X => (bounds.lo.x, bounds.hi.x),
        Axis::Y => (bounds.lo.y, bounds.hi.y),
        Axis::Z => (bounds.lo.z, bounds.hi.z),
    };
    low as i128 + high as i128
}

/// How far the centres reach on an axis.
fn extent(items: &[Item], axis: Axis) -> i128 {
    let mut least = i128::MAX;
    let mut greatest = i128::MIN;
    for item in items {
        let middle = centre(&item.bounds, axis);
        least = least.min(middle);
        greatest = greatest.max(middle);
    }
    greatest.saturating_sub(least)
}

/// The axis on which the centres reach farthest.
pub(crate) fn widest_axis(items: &[Item]) -> Axis {
    let x = extent(items, Axis::X);
    let y = extent(items, Axis::Y);
    let z = extent(items, Axis::Z);
    if x >= y && x >= z {
        Axis::X
    } else if y >= z {
        Axis::Y
    } else {
        Axis::Z
    }
}
