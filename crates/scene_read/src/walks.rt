//! The walk through the objects of a scene, from one object down.
ghost use Rattle.std.specs.Prelude.{◌≡◌, ◌<◌, ◌≤◌, ◌^◌, ◌++◌, Some, IsTrue, IfOk, OnOk};
ghost use Rattle.std.specs.Option.{option_map, option_to_list};
ghost use Rattle.dev_types.specs.Bounded.{is_name};
ghost use Rattle.kind_tables.specs.Rows.{parameters_of};
ghost use Rattle.kind_tables.specs.SceneObjects.{object_at};
ghost use Rattle.kind_tables.specs.Walks.{at_element, at_parameters_of, walk, walk_from};
ghost use Rattle.scene_read.specs.Reading.{content_of};
ghost use Rattle.scene_read.specs.Starts.{all_seen, content_starts, element_start, element_starts, parameter_start, parameter_starts, starts_below, starts_of, visited_object};

use crate::objects::Objects;
use crate::readers::{Subject, id_in, matrix_in, named, value};
use crate::visits::{Spot, Visit, Visits};
use byte_view::Strided;
use dev_types::{DataType, Handle, Name, NoMemory};
use kind_tables::{Kind, object_in, parameters_of};
use std::alloc::{AllocError, Global};

/// Where element `i` of an array stands.
fn at_element(kind: Kind, spot: Spot, i: u32) -> Spot
    requires { i < 2 ^ 28 }
    ensures { result ≡ at_element kind spot i }
{
    match kind {
        Kind::Array(DataType::Surface) => Spot { surf: i, ..spot },
        Kind::Array(DataType::Instance) => Spot {
            inst: i + 1,
            ..spot
        },
        _ => spot,
    }
}

/// Where the walk goes on from element `i` of an array.
fn element_start(kind: Kind, spot: Spot, elements: &Strided<'_>, i: u64) -> Option<Visit>
    requires within { i < elements.now.count }
    requires size { i < 2 ^ 28 }
    ensures { result ≡ element_start kind spot elements.now i }
{
    let handle = object_in(&elements.get(i))?;
    Some(Visit {
        spot: at_element(kind, spot, i as u32),
        handle,
    })
}

/// Adds a place, if there is one.
fn push_some(starts: &mut Vec<Visit>, start: Option<Visit>) -> Result<(), AllocError>
    ensures { OnOk result (starts.new.items ≡ starts.old.items ++ option_to_list start) }
{
    if let Some(start) = start {
        starts.push(start)?;
    }
    Ok(())
}

/// Adds where the walk goes on from the elements of an array.
fn push_elements(
    kind: Kind,
    spot: Spot,
    elements: &Strided<'_>,
    starts: &mut Vec<Visit>,
) -> Result<(), AllocError>
    requires { elements.now.count ≤ 2 ^ 28 }
    ensures { OnOk result (starts.new.items ≡ starts.old.items ++ element_starts kind spot elements.now elements.now.count) }
{
    for i in 0..elements.len() {
        push_some(starts, element_start(kind, spot, elements, i))?;
    }
    Ok(())
}

/// Adds where the walk goes on from an object's elements, if it has any.
fn push_content<O: Objects>(
    state: &O,
    visit: &Visit,
    kind: Kind,
    starts: &mut Vec<Visit>,
) -> Result<(), AllocError>
    ensures { OnOk result (starts.new.items ≡ starts.old.items ++ content_starts kind visit.now.0 (content_of (O.objects state.now) visit.now.1)) }
{
    let Some(elements) = state.content(visit.handle) else {
        return Ok(());
    };
    if !elements.data_type().is_object() {
        return Ok(());
    }
    push_elements(kind, visit.spot, &elements, starts)
}

/// Where the walk goes on from what a parameter names.
fn parameter_start<O: Objects>(state: &O, handle: Handle, spot: Spot, text: &str) -> Option<Visit>
    requires { IsTrue (is_name text.now) }
    ensures { result ≡ parameter_start (O.objects state.now) handle spot text.now }
{
    let handle = named(state, handle, text)?;
    Some(Visit { spot, handle })
}

/// Adds where the walk goes on from what an object's parameters name.
fn push_parameters<O: Objects>(
    state: &O,
    handle: Handle,
    kind: Kind,
    spot: Spot,
    starts: &mut Vec<Visit>,
) -> Result<(), AllocError>
    ensures { OnOk result (starts.new.items ≡ starts.old.items ++ parameter_starts (O.objects state.now) handle spot (parameters_of kind)) }
{
    for text in parameters_of(kind) {
        push_some(starts, parameter_start(state, handle, spot, text))?;
    }
    Ok(())
}

/// Where the parameters of an object stand.
fn at_parameters_of<O: Objects>(state: &O, visit: &Visit, kind: Kind) -> Spot
    ensures { result ≡ at_parameters_of kind (visited_object (O.objects state.now) visit.now.1) visit.now.0 }
{
    let Kind::InstanceTransform = kind else {
        return visit.spot;
    };
    let instance = Subject::visited(visit.handle);
    let transform = value(state, &instance, &Name::of("transform"));
    let id = value(state, &instance, &Name::of("id"));
    Spot {
        transform: matrix_in(transform),
        instance_id: id_in(id),
        ..visit.spot
    }
}

/// Where the walk goes on from an object.
fn below<O: Objects>(
    alloc: Global,
    state: &O,
    visit: &Visit,
    kind: Kind,
) -> Result<Vec<Visit>, AllocError>
    requires { option_map (λ o. o.kind) (object_at (O.objects state.now) visit.now.1) ≡ Some kind }
    ensures { IfOk result (λ starts. starts.items ≡ starts_below (O.objects state.now) visit.now) }
{
    let mut starts = Vec::new(alloc);
    push_content(state, visit, kind, &mut starts)?;
    let spot = at_parameters_of(state, visit, kind);
    push_parameters(state, visit.handle, kind, spot, &mut starts)?;
    Ok(starts)
}

/// Adds the visits of the walk from an object at a spot, at most `depth` objects deep.
fn push_walk<O: Objects>(
    alloc: Global,
    state: &O,
    start: Visit,
    depth: u32,
    visits: &mut Vec<Visit>,
) -> Result<(), AllocError>
    ensures { OnOk result (visits.new.items ≡ visits.old.items ++ starts_of (walk_from depth (O.objects state.now) start)) }
{
    if depth == 0 {
        return Ok(());
    }
    let Some(kind) = state.kind(start.handle) else {
        return Ok(());
    };
    let next = below(alloc, state, &start, kind)?;
    visits.push(start)?;
    for start in &next {
        push_walk(alloc, state, *start, depth - 1, visits)?;
    }
    Ok(())
}

/// The walk from an object; none where there is no such object. The only error is want of memory.
pub fn visits_from<O: Objects>(alloc: Global, state: &O, root: Handle) -> Result<Visits, NoMemory>
    ensures starts { IfOk result (λ visits. visits ≡ starts_of (walk (O.objects state.now) root)) }
    ensures seen { IfOk result (λ visits. all_seen (O.objects state.now) visits ≡ walk (O.objects state.now) root) }
{
    let start = Visit {
        spot: Spot::ORIGIN,
        handle: root,
    };
    let mut visits = Vec::new(alloc);
    push_walk(alloc, state, start, 10, &mut visits)?;
    Ok(Visits::new(visits))
}
