ghost use Rattle.std.specs.Prelude.{◌≡◌, ◌^◌, ◌<◌, ◌≤◌, ◌+◌, ◌++◌, All, length};
ghost use Rattle.std.specs.List.Sorted.{IsPermutation};
ghost use Rattle.std.specs.Result.{IfOk, OnOk};
ghost use Rattle.box_tests.specs.Boxes.{IsBoxIn};
ghost use Rattle.bvh_build.specs.Trees.{IsGrowth};

use crate::centres::{centre, widest_axis};
use crate::trees::{Item, Node};
use box_tests::{Box3, join};
use std::alloc::{AllocError, Global};

/// Adds the nodes of the tree of these items, of at most 2^`cuts`.
pub(crate) fn grow(
    alloc: Global,
    cuts: u32,
    items: &[Item],
    nodes: &mut Vec<Node>,
) -> Result<(), AllocError>
    requires some { 0 < length items.now }
    requires few { length items.now ≤ 2 ^ cuts }
    requires room { cuts ≤ 20 }
    ensures { OnOk result (IsGrowth items.now nodes.old.items nodes.new.items (cuts + 1)) }
{
    if items.len() == 1 {
        nodes.push(Node::Leaf(items[0]))?;
        return Ok(());
    }
    let sorted = sorted(alloc, items)?;
    let (first, second) = sorted.as_slice().split_at(items.len() / 2);
    nodes.push(Node::Fork(bounds_of(items), 2 * first.len() as u32 - 1))?;
    grow(alloc, cuts - 1, first, nodes)?;
    grow(alloc, cuts - 1, second, nodes)
}

/// The items in the order of their centres on the axis on which these reach farthest.
fn sorted(alloc: Global, items: &[Item]) -> Result<Vec<Item>, AllocError>
    ensures { IfOk result (λ sorted. IsPermutation items.now sorted.items) }
{
    let axis = widest_axis(items);
    let mut sorted = Vec::new(alloc);
    sorted.extend_from_slice(items)?;
    sorted.sort_unstable_by_key(|item| centre(&item.bounds, axis));
    Ok(sorted)
}

/// The box that holds those of all items.
fn bounds_of(items: &[Item]) -> Box3
    requires some { 0 < length items.now }
    ensures { All (λ item. IsBoxIn item.bounds result) items.now }
{
    let mut bounds = items[0].bounds;
    for item in items {
        bounds = join(&bounds, &item.bounds);
    }
    bounds
}
