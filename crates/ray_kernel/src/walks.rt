ghost use Rattle.std.specs.Prelude.{◌≡◌, ◌+◌, ◌-◌, ◌^◌, ◌<◌, ◌≤◌, ◌⊎◌, [], ◌∷◌, ◌++◌, All, IsSome, length, min};
ghost use Rattle.std.specs.Option.{option_to_list};
ghost use Rattle.arrayvec.specs.ArrayVec.{array_vec_len};
ghost use Rattle.picture_model.specs.Limits.{IsRayWithin, IsShapeWithin};
ghost use Rattle.ray_kernel.specs.Searches.{IsSearch, IsTreeFor, answer};
ghost use Rattle.ray_kernel.specs.Walks.{is_first, leaves_in, nodes_in, pushed};

use crate::searches::{Branch, Search, is_beyond};
use arrayvec::ArrayVec;
use bvh_build::{Node, Tree};
use picture_model::{Hit, PrimSource, nearer};

/// The branches that wait, of which the last is searched first. A tree of at most 21 levels leaves no more than one waiting on each.
type Waiting<'a> = ArrayVec<Branch<'a>, 64>;

/// The answer of a search through the tree.
pub(crate) fn run<P: PrimSource>(search: &Search<P>, tree: &Tree, tests: &mut u64) -> Option<Hit>
    requires tree { IsTreeFor tree.now search.now.placed }
    requires ray { IsRayWithin search.now.ray }
    requires shapes { All (λ p. IsShapeWithin p.1) search.now.placed }
    ensures answer { result ≡ answer search.now }
    ensures tests { tests.old ≤ tests.new }
    ensures once { tests.new ≤ tests.old + length search.now.placed }
    ensures counted { IsSome result → min (tests.old + 1) (2 ^ 64 - 1) ≤ tests.new }
{
    let mut waiting = start(search, tree);
    let mut best = None;
    while let Some(branch) = waiting.pop() {
        best = step(search, &branch, best, &mut waiting, tests);
    }
    best
}

/// The whole tree waits, unless nothing in it is wanted.
fn start<'a, P: PrimSource>(search: &Search<P>, tree: &'a Tree) -> Waiting<'a>
    requires tree { IsTreeFor tree.now search.now.placed }
    requires shapes { All (λ p. IsShapeWithin p.1) search.now.placed }
    ensures search { IsSearch search.now result.items None }
    ensures leaves { leaves_in result.items ≤ length search.now.placed }
{
    let mut waiting = ArrayVec::new();
    let nodes = tree.nodes();
    if nodes.is_empty() {
        return waiting;
    }
    push(&mut waiting, search.reach(nodes, &None));
    waiting
}

/// Searches a leaf, or lets the children of a fork wait, of which the nearer one is the next. A branch behind the best hit is passed
/// over. Returns the best hit so far.
fn step<'a, P: PrimSource>(
    search: &Search<P>,
    branch: &Branch<'a>,
    best: Option<Hit>,
    waiting: &mut Waiting<'a>,
    tests: &mut u64,
) -> Option<Hit>
    requires ray { IsRayWithin search.now.ray }
    requires search { IsSearch search.now (waiting.old.items ++ branch.now ∷ []) best }
    ensures search { IsSearch search.now waiting.new.items result }
    ensures less { nodes_in waiting.new.items < nodes_in (waiting.old.items ++ branch.now ∷ []) }
    ensures tests { tests.old ≤ tests.new }
    ensures once { tests.new + leaves_in waiting.new.items ≤ tests.old + leaves_in (waiting.old.items ++ branch.now ∷ []) }
    ensures counted { (result ≡ best) ⊎ (min (tests.old + 1) (2 ^ 64 - 1) ≤ tests.new) }
{
    if is_beyond(branch.entry, &best) {
        return best;
    }
    match &branch.nodes[0] {
        Node::Leaf(item) => nearer(best, search.candidate(item, tests)),
        Node::Fork(_, count) => {
            let (first, second) = branch.nodes[1..].split_at(*count as usize);
            push_both(
                waiting,
                search.reach(first, &best),
                search.reach(second, &best),
            );
            best
        }
    }
}

/// Two branches wait, if there are two, of which the nearer one is the next.
fn push_both<'a>(waiting: &mut Waiting<'a>, first: Option<Branch<'a>>, second: Option<Branch<'a>>)
    requires { array_vec_len waiting.old ≤ 62 }
    ensures { waiting.new.items ≡ pushed waiting.old.items first.entry second.entry }
{
    if is_first(&first, &second) {
        push(waiting, second);
        push(waiting, first);
    } else {
        push(waiting, first);
        push(waiting, second);
    }
}

/// The first branch is entered no farther than the second, where there are two.
fn is_first(first: &Option<Branch>, second: &Option<Branch>) -> bool
    ensures { result ≡ is_first first.now second.now }
{
    match (first, second) {
        (Some(a), Some(b)) => a.entry <= b.entry,
        _ => true,
    }
}

/// A branch waits, if there is one.
fn push<'a>(waiting: &mut Waiting<'a>, branch: Option<Branch<'a>>)
    requires { array_vec_len waiting.old < 64 }
    ensures { waiting.new.items ≡ waiting.old.items ++ option_to_list branch.entry }
{
    if let Some(branch) = branch {
        waiting.push(branch);
    }
}
