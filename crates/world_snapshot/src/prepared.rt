//! Prepared worlds.
ghost use Rattle.std.specs.Prelude.{ℕ, ◌≡◌, ◌<◌, ◌≤◌, ◌^◌, All, None, Some, IfErr, IfOk, length, slice_get};
ghost use Rattle.std.specs.Option.{option_map};
ghost use Rattle.kind_tables.specs.SceneObjects.{object_at};
ghost use Rattle.kind_tables.specs.Scenes.{lights_of, primitives_of};
ghost use Rattle.kind_tables.specs.Typed.{AreFit};
ghost use Rattle.kind_tables.specs.WalkRefusals.{walk_refusal};
ghost use Rattle.kind_tables.specs.Walks.{walk};
ghost use Rattle.kind_tables.specs.declared.kinds.Kind.TheVariants.{WorldDefault};
ghost use Rattle.picture_model.specs.Shading.{primitive_at};
ghost use Rattle.scene_read.specs.Roots.{IsWalkRefusal};
ghost use Rattle.scene_read.specs.SceneReads.{IsReadLight};
ghost use Rattle.scene_read.specs.Starts.{all_seen, starts_of};
ghost use Rattle.world_snapshot.specs.Worlds.{IsShownBy, IsTreeOver, IsWorldWithin};

use crate::rows::{Rows, are_within};
use crate::searches::{are_rising, first_primitive, primitive_by_rank};
use bvh_build::{Tree, build};
use dev_types::{Handle, NoMemory, Refused};
use fx_math::{LightList, Place, Primitive, Shape};
use picture_model::PrimSource;
use ray_kernel::tree_over;
use scene_read::{Objects, Visits, lights, walk};
use std::alloc::{AllocError, Global};
use std::marker::Model;
use std::sync::Arc;

/// What a prepared world keeps.
#[derive(Drop)]
struct World {
    rows: Rows,
    lights: LightList,
    tree: Tree,
    in_order: bool,
}

impl Model for World {
    ghost use Rattle.std.specs.Prelude.{All};
    ghost use Rattle.scene_read.specs.SceneReads.{IsReadLight};
    ghost use Rattle.world_snapshot.specs.Worlds.{IsIndexed, World as TheWorld};

    ghost Value = { TheWorld };

    ghost view = { λ w. record { primitives = w.rows; lights = w.lights } };

    ghost invariant = { λ w. IsIndexed w.rows w.tree w.in_order × All IsReadLight w.lights };
}

/// The primitives and the lights of a world, as they were when it was prepared, with a tree of boxes over the primitives. It shares
/// the blocks of the arrays that it reads (ANARI 1.0 Specification, World).
///
/// Contracts see the primitives and the lights, both in the order of the world's walk.
#[derive(Drop)]
pub struct Prepared {
    world: Arc<World>,
}

impl Model for Prepared {
    ghost use Rattle.world_snapshot.specs.Worlds.{World as TheWorld};

    ghost Value = { TheWorld };

    ghost view = { λ p. p.world.value };
}

impl World {
    fn new(rows: Rows, lights: LightList, tree: Tree) -> World
        requires tree { IsTreeOver tree rows }
        requires read { All IsReadLight lights }
        ensures primitives { result.primitives ≡ rows }
        ensures lights { result.lights ≡ lights }
    {
        let in_order = are_rising(rows.as_slice());
        World {
            rows,
            lights,
            tree,
            in_order,
        }
    }

    fn tree(&self) -> &Tree
        ensures { IsTreeOver result.now self.now.primitives }
    {
        &self.tree
    }

    fn lights(&self) -> &LightList
        ensures value { result.now ≡ self.now.lights }
        ensures read { All IsReadLight result.now }
    {
        &self.lights
    }

    fn primitive_at(&self, place: &Place) -> Option<Primitive>
        ensures { result ≡ primitive_at self.now.primitives place.now }
    {
        let rows = self.rows.as_slice();
        if self.in_order {
            primitive_by_rank(rows, place)
        } else {
            first_primitive(rows, place)
        }
    }
}

impl Prepared {
    /// One more handle to the same prepared world. The only error is want of memory.
    pub fn share(&self, _alloc: Global) -> Result<Prepared, NoMemory>
        ensures { IfOk result (λ p. p ≡ self.now) }
    {
        Ok(Prepared {
            world: Arc::try_clone(&self.world)?,
        })
    }

    /// The lights, in world space and in the order of the walk; at most 256 where the walk was not refused. Their numbers are as they
    /// were read of the objects.
    pub fn lights(&self) -> &LightList
        ensures value { result.now ≡ self.now.lights }
        ensures read { All IsReadLight result.now }
    {
        self.world.lights()
    }

    /// A copy of the lights. The only error is want of memory.
    pub(crate) fn copied_lights(&self, alloc: Global) -> Result<LightList, NoMemory>
        ensures value { IfOk result (λ lights. lights ≡ self.now.lights) }
        ensures read { All IsReadLight self.now.lights }
    {
        Ok(copied_lights(alloc, self.lights())?)
    }

    /// The tree over boxes of the primitives, of at most 21 levels. Where all shapes keep to their limits (points within 2^28, radii
    /// from 0 to 2^28), as those of a walk through a device's objects do, each box holds the shape of its primitive.
    pub fn tree(&self) -> &Tree
        ensures { IsTreeOver result.now self.now.primitives }
    {
        self.world.tree()
    }

    /// Primitive `i`, counted from 0: its place, its shape in world space, the colour and the opacity of its material, and its ids.
    pub fn primitive(&self, i: u64) -> Primitive
        requires { i < length self.now.primitives }
        ensures { slice_get self.now.primitives i ≡ Some result }
    {
        self.world.rows.as_slice()[i as usize].primitive()
    }

    /// The primitive at a place; `None` exactly where there is none.
    pub fn primitive_at(&self, place: &Place) -> Option<Primitive>
        ensures { result ≡ primitive_at self.now.primitives place.now }
    {
        self.world.primitive_at(place)
    }
}

impl PrimSource for Prepared {
    ghost use Rattle.picture_model.specs.Shading.{placed};

    ghost primitives = { λ p. placed p.primitives };

    fn len(&self) -> u64 {
        self.world.rows.len()
    }

    fn place(&self, i: u64) -> Place {
        self.world.rows.place(i)
    }

    fn shape(&self, i: u64) -> Shape {
        self.world.rows.shape(i)
    }
}

/// The tree over the primitives. Where a shape is outside the limits, which none of a device's walk is, the tree has no leaves.
fn tree_of(alloc: Global, rows: &Rows) -> Result<Tree, NoMemory>
    requires { length rows.now ≤ 2 ^ 20 }
    ensures { IfOk result (λ tree. IsTreeOver tree rows.now) }
{
    if are_within(rows.as_slice()) {
        tree_over(alloc, rows)
    } else {
        build(alloc, &[])
    }
}

/// A copy of some lights. The only error is want of memory.
pub(crate) fn copied_lights(alloc: Global, lights: &LightList) -> Result<LightList, AllocError>
    ensures { IfOk result (λ copy. copy ≡ lights.now) }
{
    let mut copy = Vec::new(alloc);
    for i in 0..lights.len() {
        copy.push(*lights.get(i))?;
    }
    Ok(LightList::new(copy))
}

/// Prepares all that is visited on a walk for rendering (ANARI 1.0 Specification, World, Group, Instance, Surface): its primitives and
/// its lights are those that the objects show now, whatever is committed, mapped or unmapped later; no array's bytes are copied. The
/// only error is want of memory.
///
/// The walk is one that was not refused, from a frame or from a world: a frame shows what its world shows.
pub fn prepare_visited<O: Objects>(
    alloc: Global,
    state: &O,
    visits: &Visits,
) -> Result<Prepared, NoMemory>
    requires { length (primitives_of (O.objects state.now) (all_seen (O.objects state.now) visits.now)) ≤ 2 ^ 20 }
    ensures shown { IfOk result (λ p. IsShownBy (O.objects state.now) (all_seen (O.objects state.now) visits.now) p) }
    ensures within { (root : ℕ)
        → AreFit (O.objects state.now)
        → visits.now ≡ starts_of (walk (O.objects state.now) root)
        → walk_refusal (O.objects state.now) (walk (O.objects state.now) root) ≡ None
        → IfOk result IsWorldWithin }
{
    let visits = visits.as_slice();
    let rows = Rows::of(alloc, state, visits)?;
    let lights = lights(alloc, state, visits)?;
    let tree = tree_of(alloc, &rows)?;
    match Arc::new(alloc, World::new(rows, LightList::new(lights), tree)) {
        Ok(world) => Ok(Prepared { world }),
        Err(_) => Err(NoMemory),
    }
}

/// Prepares a live world for rendering (ANARI 1.0 Specification, World, Group, Instance, Surface). Its primitives and lights are those
/// that the walk from it shows now, whatever is committed, mapped or unmapped later; no array's bytes are copied. What it shows keeps
/// to the limits of pictures.
///
/// # Errors
///
/// The first refusal of the walk from the world: `ArrayMapped` where it visits a mapped array, else `Incomplete` where an object lacks
/// a parameter, else `TooMany` past 65536 surfaces, 256 lights or 1048576 primitives, else `OutOfRange` where a parameter is out of its
/// range; `NoMemory` where there is none.
pub fn prepare<O: Objects>(alloc: Global, state: &O, world: Handle) -> Result<Prepared, Refused>
    requires { option_map (λ o. o.kind) (object_at (O.objects state.now) world) ≡ Some WorldDefault }
    ensures primitives { IfOk result (λ p. p.primitives ≡ primitives_of (O.objects state.now) (walk (O.objects state.now) world)) }
    ensures lights { IfOk result (λ p. p.lights ≡ lights_of (walk (O.objects state.now) world)) }
    ensures within { AreFit (O.objects state.now) → IfOk result IsWorldWithin }
    ensures sound { IfOk result (λ p. walk_refusal (O.objects state.now) (walk (O.objects state.now) world) ≡ None) }
    ensures refused { IfErr result (λ refused. IsWalkRefusal (O.objects state.now) world refused) }
{
    let visits = match walk(alloc, state, world) {
        Ok(visits) => visits,
        Err(refused) => return Err(refused),
    };
    match prepare_visited(alloc, state, &visits) {
        Ok(prepared) => Ok(prepared),
        Err(NoMemory) => Err(Refused::NoMemory),
    }
}
