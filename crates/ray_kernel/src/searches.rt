ghost use Rattle.std.specs.Prelude.{◌≡◌, ◌+◌, ◌-◌, ◌^◌, ◌<◌, ◌≤◌, length, min};
ghost use Rattle.picture_model.specs.Depths.{depth};
ghost use Rattle.picture_model.specs.Limits.{IsRayWithin, IsShapeWithin};
ghost use Rattle.ray_kernel.specs.Searches.{IsItemOf, IsReached, bounds_of, candidate, wanted};
ghost use Rattle.ray_kernel.specs.Walks.{is_beyond, is_before};

use box_tests::{Box3, PreparedRay};
use bvh_build::{Item, Node};
use fx_math::{Ray, Shape};
use picture_model::{Hit, PrimSource, is_nearer};
use std::marker::Model;

/// A part of the tree that waits to be searched, and a depth below which no hit in it is wanted.
#[derive(Clone, Copy, Debug, Default)]
pub(crate) struct Branch<'a> {
    pub(crate) nodes: &'a [Node],
    pub(crate) entry: u64,
}

/// What is asked of a tree: the nearest hit of the ray with the primitives or, after a hit, the nearest of those behind it.
///
/// Contracts see the query.
#[derive(Drop)]
pub(crate) struct Search<'a, P: PrimSource> {
    prims: &'a P,
    ray: Ray,
    prepared: PreparedRay,
    after: Option<Hit>,
}

impl<'a, P: PrimSource> Model for Search<'a, P> {
    ghost use Rattle.std.specs.Prelude.{◌≡◌};
    ghost use Rattle.ray_kernel.specs.Searches.{Query};

    ghost Value = { Query };

    ghost view = { λ s. record { ray = s.ray; placed = P.primitives s.prims.now; after = s.after } };

    ghost invariant = { λ s. s.prepared ≡ s.ray };
}

impl<'a, P: PrimSource> Search<'a, P> {
    pub(crate) fn new(prims: &'a P, ray: &Ray, after: Option<Hit>) -> Self
        ensures ray { result.ray ≡ ray.now }
        ensures placed { result.placed ≡ P.primitives prims.now }
        ensures after { result.after ≡ after }
    {
        Search {
            prims,
            ray: *ray,
            prepared: PreparedRay::new(ray),
            after,
        }
    }

    /// The hit with the primitive of an item, where it is wanted.
    pub(crate) fn candidate(&self, item: &Item, tests: &mut u64) -> Option<Hit>
        requires ray { IsRayWithin self.now.ray }
        requires item { IsItemOf self.now item.now }
        ensures hit { result ≡ candidate self.now item.now }
        ensures tests { tests.old ≤ tests.new }
        ensures counted { tests.new ≡ min (tests.old + 1) (2 ^ 64 - 1) }
    {
        *tests = tests.saturating_add(1);
        let index = item.index as u64;
        let depth = depth(&self.ray, &self.prims.shape(index))?;
        let place = self.prims.place(index);
        self.wanted(Hit { depth, place })
    }

    /// A hit, where it is behind the one behind which hits are wanted.
    fn wanted(&self, hit: Hit) -> Option<Hit>
        ensures { result ≡ wanted self.now.after (Some hit) }
    {
        match &self.after {
            Some(last) => {
                if is_nearer(last, &hit) {
                    Some(hit)
                } else {
                    None
                }
            }
            None => Some(hit),
        }
    }

    /// The branch of these nodes, unless no hit in it is wanted or it has none that is nearer than the best one.
    pub(crate) fn reach<'n>(&self, nodes: &'n [Node], best: &Option<Hit>) -> Option<Branch<'n>>
        requires { 0 < length nodes.now }
        ensures { IsReached self.now nodes.now best.now result }
    {
        let (entry, exit) = self.prepared.span(bounds_of(&nodes[0]))?;
        if is_beyond(entry, best) || self.is_passed(exit) {
            return None;
        }
        Some(Branch { nodes, entry })
    }

    /// No hit up to this depth is wanted.
    fn is_passed(&self, depth: u64) -> bool
        ensures { result ≡ is_before depth self.now.after }
    {
        match &self.after {
            Some(last) => depth < last.depth,
            None => false,
        }
    }
}

/// Hits from this depth on are not nearer than the best one. At an equal depth one may be, by a lower place.
pub(crate) fn is_beyond(depth: u64, best: &Option<Hit>) -> bool
    ensures { result ≡ is_beyond depth best.now }
{
    match best {
        Some(hit) => hit.depth < depth,
        None => false,
    }
}

/// The box of a node.
fn bounds_of(node: &Node) -> &Box3
    ensures { result.now ≡ bounds_of node.now }
{
    match node {
        Node::Leaf(item) => &item.bounds,
        Node::Fork(bounds, _) => bounds,
    }
}

/// The depth number of the ray's hit with the shape, if it is hit.
fn depth(ray: &Ray, shape: &Shape) -> Option<u64>
    requires ray { IsRayWithin ray.now }
    requires shape { IsShapeWithin shape.now }
    ensures { result ≡ depth ray.now shape.now }
{
    match *shape {
        Shape::Triangle(a, b, c) => hit_tests::triangle(ray, a, b, c),
        Shape::Sphere(centre, radius) => hit_tests::sphere(ray, centre, radius),
    }
}
