ghost use Rattle.std.specs.Prelude.{◌≡◌, ◌^◌, ◌≤◌, length};
ghost use Rattle.std.specs.Result.{IfOk};
ghost use Rattle.bvh_build.specs.Trees.{IsTreeOf, numbered};

use crate::growth::grow;
use box_tests::Box3;
use dev_types::NoMemory;
use std::alloc::{AllocError, Global};
use std::marker::Model;

/// A box with its number among those that a tree is built from.
#[derive(Clone, Copy, Debug, PartialEq, Eq)]
pub struct Item {
    pub bounds: Box3,
    pub index: u32,
}

/// A node of a tree that lies flat: a fork is followed by all nodes of its first child, and then by all those of its second one.
#[derive(Clone, Copy, Debug, PartialEq, Eq)]
pub enum Node {
    Leaf(Item),
    /// A box that holds those of all nodes below it, and how many nodes its first child has.
    Fork(Box3, u32),
}

/// A bounding volume hierarchy, as a flat array of its nodes in the order in which a walk through the whole tree meets them.
///
/// Contracts see the list of nodes.
#[derive(Debug, Drop)]
pub struct Tree {
    nodes: Vec<Node>,
}

impl Model for Tree {
    ghost use Rattle.std.specs.Prelude.{List};
    ghost use Rattle.bvh_build.specs.declared.trees.Node.{Node};

    ghost Value = { List Node };

    ghost view = { λ t. t.nodes.items };
}

impl Tree {
    /// The nodes; none at all in a tree without leaves.
    pub fn nodes(&self) -> &[Node]
        ensures { result.now ≡ self.now }
    {
        self.nodes.as_slice()
    }
}

/// Builds the tree of at most 2^20 boxes by cuts at the median along the widest axis of their centres. Each box is that of exactly one
/// leaf, and lies within the boxes of all forks above it; there are at most 21 levels. Without boxes the tree has no leaves.
pub fn build(alloc: Global, boxes: &[Box3]) -> Result<Tree, NoMemory>
    requires few { length boxes.now ≤ 2 ^ 20 }
    ensures { IfOk result (λ tree. IsTreeOf tree boxes.now) }
{
    let mut nodes = Vec::new(alloc);
    let items = numbered(alloc, boxes)?;
    if !items.is_empty() {
        grow(alloc, 20, items.as_slice(), &mut nodes)?;
    }
    Ok(Tree { nodes })
}

/// The boxes with their numbers.
fn numbered(alloc: Global, boxes: &[Box3]) -> Result<Vec<Item>, AllocError>
    requires few { length boxes.now ≤ 2 ^ 20 }
    ensures { IfOk result (λ items. items.items ≡ numbered 0 boxes.now) }
{
    let mut items = Vec::with_capacity(alloc, boxes.len())?;
    for (index, bounds) in boxes.iter().enumerate() {
        items.push(Item {
            bounds: *bounds,
            index: index as u32,
        })?;
    }
    Ok(items)
}
