//! The primitives of a world, each by its surface and its number.
ghost use Rattle.std.specs.Prelude.{◌≡◌, ◌++◌, ◌<◌, ◌^◌, ◌↔◌, IsTrue, OnOk, IfOk};
ghost use Rattle.kind_tables.specs.Scenes.{primitives_at, primitives_of as all_primitives, surface_primitives};
ghost use Rattle.picture_model.specs.Limits.{IsBetween, IsPoint, IsShapeWithin};
ghost use Rattle.scene_read.specs.Starts.{all_seen, seen, visited_object};
ghost use Rattle.world_snapshot.specs.Captured.{primitives_of};
ghost use Rattle.world_snapshot.specs.Worlds.{AreShapesWithin};

use crate::geometries::captured_geometry;
use crate::surfaces::{Row, Surface};
use dev_types::{Handle, NoMemory};
use fx_math::{Place, Shape, Vec3, reach};
use kind_tables::Kind;
use picture_model::PrimSource;
use scene_read::scenes::live;
use scene_read::{Objects, Spot, Visit};
use std::alloc::{AllocError, Global};
use std::marker::Model;
use std::sync::Arc;

/// The primitives of a world in the order of its walk.
#[derive(Drop)]
pub(crate) struct Rows {
    rows: Vec<Row>,
}

impl Model for Rows {
    ghost use Rattle.std.specs.Prelude.{List};
    ghost use Rattle.fx_math.specs.declared.scene.Primitive.{Primitive};

    ghost Value = { List Primitive };

    ghost view = { λ r. r.rows.items };
}

impl Rows {
    /// The primitives of all that is visited. The only error is want of memory.
    pub(crate) fn of<O: Objects>(
        alloc: Global,
        state: &O,
        visits: &[Visit],
    ) -> Result<Rows, NoMemory>
        ensures { IfOk result (λ rows. rows ≡ all_primitives (O.objects state.now) (all_seen (O.objects state.now) visits.now)) }
    {
        let mut rows = Vec::new(alloc);
        for visit in visits {
            push_visit(alloc, state, visit, &mut rows)?;
        }
        Ok(Rows { rows })
    }

    pub(crate) fn as_slice(&self) -> &[Row]
        ensures { result.now ≡ self.now }
    {
        self.rows.as_slice()
    }
}

impl PrimSource for Rows {
    ghost use Rattle.picture_model.specs.Shading.{placed};

    ghost primitives = { λ r. placed r };

    fn len(&self) -> u64 {
        self.as_slice().len() as u64
    }

    fn place(&self, i: u64) -> Place {
        self.as_slice()[i as usize].place()
    }

    fn shape(&self, i: u64) -> Shape {
        self.as_slice()[i as usize].shape()
    }
}

/// Adds the primitives of a surface.
fn push_rows(rows: &mut Vec<Row>, surface: &Arc<Surface>) -> Result<(), AllocError>
    ensures { OnOk result (rows.new.items ≡ rows.old.items ++ primitives_of surface.now.value) }
{
    for k in 0..surface.count() {
        rows.push(Row::new(Arc::try_clone(surface)?, k as u32))?;
    }
    Ok(())
}

/// Adds what a surface at a spot shows.
fn push_surface<O: Objects>(
    alloc: Global,
    state: &O,
    spot: &Spot,
    surface: Handle,
    rows: &mut Vec<Row>,
) -> Result<(), NoMemory>
    ensures { OnOk result (rows.new.items ≡ rows.old.items ++ surface_primitives (O.objects state.now) spot.now (visited_object (O.objects state.now) surface)) }
{
    let Some(material) = live(state, surface, "material") else {
        return Ok(());
    };
    let Some(geometry) = live(state, surface, "geometry") else {
        return Ok(());
    };
    let Some(captured) = captured_geometry(alloc, state, geometry)? else {
        return Ok(());
    };
    let surface = Surface::new(state, spot, surface, material, captured);
    let Ok(shared) = Arc::new(alloc, surface) else {
        return Err(NoMemory);
    };
    Ok(push_rows(rows, &shared)?)
}

/// Adds what a visited object shows; only surfaces show anything.
fn push_visit<O: Objects>(
    alloc: Global,
    state: &O,
    visit: &Visit,
    rows: &mut Vec<Row>,
) -> Result<(), NoMemory>
    ensures { OnOk result (rows.new.items ≡ rows.old.items ++ primitives_at (O.objects state.now) (seen (O.objects state.now) visit.now)) }
{
    match state.kind(visit.handle) {
        Some(Kind::SurfaceDefault) => push_surface(alloc, state, &visit.spot, visit.handle, rows),
        _ => Ok(()),
    }
}

fn is_point(point: Vec3) -> bool
    ensures { IsTrue result ↔ IsPoint point }
{
    reach(point) <= 1 << 28
}

fn is_radius(radius: i64) -> bool
    ensures { IsTrue result ↔ IsBetween 0 (2 ^ 28) radius }
{
    0 <= radius && radius <= 1 << 28
}

/// A shape keeps to the limits.
fn is_within(shape: &Shape) -> bool
    ensures { IsTrue result ↔ IsShapeWithin shape.now }
{
    match *shape {
        Shape::Triangle(a, b, c) => is_point(a) && is_point(b) && is_point(c),
        Shape::Sphere(centre, radius) => is_point(centre) && is_radius(radius),
    }
}

/// All shapes keep to the limits.
pub(crate) fn are_within(rows: &[Row]) -> bool
    ensures { IsTrue result ↔ AreShapesWithin rows.now }
{
    for k in 0..rows.len() {
        if !is_within(&rows[k].shape()) {
            return false;
        }
    }
    true
}
