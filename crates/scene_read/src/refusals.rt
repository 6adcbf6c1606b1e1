//! Why a walk is refused, and the walk that is not.
ghost use Rattle.std.specs.Prelude.{◌≡◌, ◌≤◌, ◌^◌, None, IsTrue, IfOk, IfErr, length};
ghost use Rattle.dev_types.specs.Bounded.{is_name};
ghost use Rattle.kind_tables.specs.Ranges.{broken_parameter};
ghost use Rattle.kind_tables.specs.Scenes.{primitives_at};
ghost use Rattle.kind_tables.specs.WalkRefusals.{fault_of, first_incomplete, first_limit, first_mapped, first_out_of_range, is_surface, missing_parameter, too_many, walk_refusal};
ghost use Rattle.kind_tables.specs.Walks.{walk};
ghost use Rattle.scene_read.specs.Counted.{count_at, count_of, most_of};
ghost use Rattle.scene_read.specs.Roots.{IsWalkRefusal, is_scene_root};
ghost use Rattle.scene_read.specs.Starts.{all_seen, seen, starts_of, visited_object};
ghost use Rattle.scene_read.specs.Tested.{lacks};

use crate::geometries::shape_count;
use crate::geometry_ranges::broken_geometry;
use crate::objects::Objects;
use crate::ranges::broken_value;
use crate::readers::{Subject, kind};
use crate::scenes::{light, live};
use crate::visits::{Visit, Visits};
use crate::walks::visits_from;
use dev_types::{Handle, Name, Refused};
use kind_tables::{Kind, parameters_of, row_of};
use std::alloc::Global;

/// Whether a walk may begin at an object: it is a live frame or a live world.
pub fn is_scene_root<O: Objects>(state: &O, h: Handle) -> bool
    ensures { result ≡ is_scene_root (O.objects state.now) h }
{
    matches!(state.kind(h), Some(Kind::FrameDefault | Kind::WorldDefault))
}

/// `ArrayMapped` of the first visited object that is mapped; `None` exactly where none is.
pub fn first_mapped<O: Objects>(state: &O, visits: &Visits) -> Option<Refused>
    ensures { result ≡ first_mapped (all_seen (O.objects state.now) visits.now) }
{
    for visit in visits.as_slice() {
        if state.mapped(visit.handle) {
            return Some(Refused::ArrayMapped(visit.handle));
        }
    }
    None
}

/// Whether an object needs a parameter and lacks it.
fn lacks<O: Objects>(state: &O, h: Handle, kind: Kind, text: &str) -> bool
    requires { IsTrue (is_name text.now) }
    ensures { result ≡ lacks kind (visited_object (O.objects state.now) h) text.now }
{
    let name = Name::of(text);
    match row_of(kind, &name) {
        Some(row) => row.required && state.committed(h, &name).is_none(),
        None => false,
    }
}

/// The first parameter that an object needs and lacks, in the order of the table.
fn missing_parameter<O: Objects>(state: &O, h: Handle) -> Option<Name>
    ensures { result ≡ missing_parameter (visited_object (O.objects state.now) h) }
{
    let kind = kind(state, &Subject::visited(h));
    for text in parameters_of(kind) {
        if lacks(state, h, kind, text) {
            return Some(Name::of(text));
        }
    }
    None
}

/// `Incomplete` of the first visited object that lacks a parameter.
fn first_incomplete<O: Objects>(state: &O, visits: &[Visit]) -> Option<Refused>
    ensures { result ≡ first_incomplete (all_seen (O.objects state.now) visits.now) }
{
    for visit in visits {
        if let Some(name) = missing_parameter(state, visit.handle) {
            return Some(Refused::Incomplete(visit.handle, name));
        }
    }
    None
}

/// What a walk may visit only so much of.
#[derive(Clone, Copy)]
enum Limit {
    Surfaces,
    Lights,
    Primitives,
}

impl Limit {
    /// The most that a walk may visit.
    fn most(self) -> u64
        ensures value { result ≡ most_of self }
        ensures size { result ≤ 2 ^ 20 }
    {
        match self {
            Limit::Surfaces => 65536,
            Limit::Lights => 256,
            Limit::Primitives => 1048576,
        }
    }

    /// How much of it a visit adds.
    fn count<O: Objects>(self, state: &O, visit: &Visit) -> u64
        ensures value { result ≡ count_at self (O.objects state.now) (seen (O.objects state.now) visit.now) }
        ensures size { result ≤ 2 ^ 28 }
    {
        match self {
            Limit::Surfaces => u64::from(is_surface(state, visit)),
            Limit::Lights => u64::from(light(state, visit).is_some()),
            Limit::Primitives => primitive_count(state, visit),
        }
    }
}

/// Whether a surface is visited.
fn is_surface<O: Objects>(state: &O, visit: &Visit) -> bool
    ensures { result ≡ is_surface (visited_object (O.objects state.now) visit.now.1).kind }
{
    matches!(
        kind(state, &Subject::visited(visit.handle)),
        Kind::SurfaceDefault
    )
}

/// How many primitives a visit shows; only surfaces show any.
fn primitive_count<O: Objects>(state: &O, visit: &Visit) -> u64
    ensures value { result ≡ length (primitives_at (O.objects state.now) (seen (O.objects state.now) visit.now)) }
    ensures size { result ≤ 2 ^ 28 }
{
    if !is_surface(state, visit) || live(state, visit.handle, "material").is_none() {
        return 0;
    }
    match live(state, visit.handle, "geometry") {
        Some(geometry) => shape_count(state, geometry),
        None => 0,
    }
}

/// `TooMany` where more is visited than one limit allows.
fn too_many<O: Objects>(state: &O, visits: &[Visit], limit: Limit) -> Option<Refused>
    ensures { result ≡ too_many (most_of limit) (count_of limit (O.objects state.now) (all_seen (O.objects state.now) visits.now)) }
{
    let most = limit.most();
    let mut count = 0;
    for visit in visits {
        count += limit.count(state, visit);
        if count > most {
            return Some(Refused::TooMany(most));
        }
    }
    None
}

/// The first limit that a walk passes.
fn first_limit<O: Objects>(state: &O, visits: &[Visit]) -> Option<Refused>
    ensures { result ≡ first_limit (O.objects state.now) (all_seen (O.objects state.now) visits.now) }
{
    let surfaces = too_many(state, visits, Limit::Surfaces);
    if surfaces.is_some() {
        return surfaces;
    }
    let lights = too_many(state, visits, Limit::Lights);
    if lights.is_some() {
        return lights;
    }
    too_many(state, visits, Limit::Primitives)
}

/// The first parameter of a visited object that is out of range.
fn broken_parameter<O: Objects>(state: &O, visit: &Visit) -> Option<Name>
    ensures { result ≡ broken_parameter (O.objects state.now) (seen (O.objects state.now) visit.now) }
{
    let Visit { spot, handle } = *visit;
    let kind = kind(state, &Subject::visited(handle));
    let broken = broken_value(state, handle, kind, &spot.transform);
    if broken.is_some() {
        return broken;
    }
    broken_geometry(state, handle, kind, &spot.transform)
}

/// `OutOfRange` of the first visited object with a parameter out of range.
fn first_out_of_range<O: Objects>(state: &O, visits: &[Visit]) -> Option<Refused>
    ensures { result ≡ first_out_of_range (O.objects state.now) (all_seen (O.objects state.now) visits.now) }
{
    for visit in visits {
        if let Some(name) = broken_parameter(state, visit) {
            return Some(Refused::OutOfRange(visit.handle, name));
        }
    }
    None
}

/// What is wrong with what is visited, but for mapped arrays.
pub fn fault<O: Objects>(state: &O, visits: &Visits) -> Option<Refused>
    ensures { result ≡ fault_of (O.objects state.now) (all_seen (O.objects state.now) visits.now) }
{
    let visits = visits.as_slice();
    let incomplete = first_incomplete(state, visits);
    if incomplete.is_some() {
        return incomplete;
    }
    let limit = first_limit(state, visits);
    if limit.is_some() {
        return limit;
    }
    first_out_of_range(state, visits)
}

/// The walk from a live frame or world, or the first of its refusals (ANARI 1.0 Specification, World, Group, Instance):
/// `ArrayMapped` where it visits a mapped array, else `Incomplete` where an object lacks a parameter, else `TooMany` past
/// 65536 surfaces, 256 lights or 1048576 primitives, else `OutOfRange` where a parameter is out of its range; `NoMemory`
/// where there is none.
pub fn walk<O: Objects>(alloc: Global, state: &O, root: Handle) -> Result<Visits, Refused>
    requires { IsTrue (is_scene_root (O.objects state.now) root) }
    ensures starts { IfOk result (λ visits. visits ≡ starts_of (walk (O.objects state.now) root)) }
    ensures seen { IfOk result (λ visits. all_seen (O.objects state.now) visits ≡ walk (O.objects state.now) root) }
    ensures sound { IfOk result (λ visits. walk_refusal (O.objects state.now) (walk (O.objects state.now) root) ≡ None) }
    ensures refused { IfErr result (λ refused. IsWalkRefusal (O.objects state.now) root refused) }
{
    let Ok(visits) = visits_from(alloc, state, root) else {
        return Err(Refused::NoMemory);
    };
    if let Some(mapped) = first_mapped(state, &visits) {
        return Err(mapped);
    }
    if let Some(refused) = fault(state, &visits) {
        return Err(refused);
    }
    Ok(visits)
}
