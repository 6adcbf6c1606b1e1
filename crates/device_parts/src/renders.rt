//! What a render takes along, before it changes anything.
ghost use Rattle.std.specs.Prelude.{◌≡◌, ◌++◌, ◌∷◌, [], ℕ, Some, IfOk, OnErr, OnOk};
ghost use Rattle.kept_worlds.specs.KeptMaps.{kept_at, reach_at, shown_at};
ghost use Rattle.kept_worlds.specs.LastKept.{AreKept, AreShown, is_there};
ghost use Rattle.kind_tables.specs.Scenes.{scene};
ghost use Rattle.kind_tables.specs.Walks.{visited, walk};
ghost use Rattle.past_laws.specs.Worlds.{render_of};
ghost use Rattle.picture_model.specs.Limits.{IsSceneWithin};
ghost use Rattle.seq_model.specs.Histories.{History};
ghost use Rattle.seq_model.specs.Legal.{Legal};
ghost use Rattle.seq_model.specs.State.{scene_objects};
ghost use Rattle.seq_model.specs.Steps.{after};
ghost use Rattle.world_snapshot.specs.Worlds.{IsShownBy};
ghost use Rattle.device_parts.specs.AllParts.{scene_prepared, shown_by};
ghost use Rattle.device_parts.specs.Begins.{without_world, world_of_build};
ghost use Rattle.device_parts.specs.Renders.{
  AreCurrent,
  HasEachOnce,
  IsBuildOf,
  IsGranted,
  IsWanted,
  handles_of,
  world_in,
};

use crate::loads::PreparedScene;
use dev_types::{Handle, NoMemory};
use kept_worlds::KeptWorlds;
use scene_read::readers::named;
use scene_read::{Objects, Visits, visits_from};
use std::alloc::{AllocError, Global};
use world_snapshot::{Prepared, prepare_visited, view_of};

/// A world that was prepared, as it is to be kept.
#[derive(Drop)]
pub struct Build {
    pub world: Handle,
    /// All that the walk from the world visits.
    pub reach: Vec<Handle>,
    pub prepared: Prepared,
}

/// What a render takes along.
#[derive(Drop)]
pub struct NewLoad {
    /// The objects that its scene reached.
    pub reach: Vec<Handle>,
    /// Its scene.
    pub scene: PreparedScene,
    /// The world of the frame, where it was not kept and is to be.
    pub build: Option<Build>,
}

/// The handles of what is visited. The only error is want of memory.
fn handles_of(alloc: Global, visits: &Visits) -> Result<Vec<Handle>, AllocError>
    ensures { IfOk result (λ handles. handles.items ≡ handles_of visits.now) }
{
    visits.as_slice().iter().map(|v| v.handle).collect(alloc)
}

/// Leaves each of some handles once.
fn leave_each_once(handles: &mut Vec<Handle>)
    ensures { HasEachOnce handles.old.items handles.new.items }
{
    handles.sort_unstable();
    handles.dedup();
}

/// What a walk reached, each object once. The only error is want of memory.
fn reach_of(alloc: Global, visits: &Visits) -> Result<Vec<Handle>, AllocError>
    ensures { IfOk result (λ reach. HasEachOnce (handles_of visits.now) reach.items) }
{
    let mut reach = handles_of(alloc, visits)?;
    leave_each_once(&mut reach);
    Ok(reach)
}

/// Prepares the world of a frame, by the visits of the walk from the frame. The only error is want
/// of memory.
fn build_of<O: Objects>(
    alloc: Global,
    state: &O,
    frame: Handle,
    world: Handle,
    visits: &Visits,
) -> Result<Build, NoMemory>
    requires granted { IsGranted (O.objects state.now) frame visits.now }
    requires world { world_in (O.objects state.now) frame ≡ Some world }
    ensures { IfOk result (IsBuildOf (O.objects state.now) frame) }
{
    let prepared = prepare_visited(alloc, state, visits)?;
    let reached = visits_from(alloc, state, world)?;
    let reach = handles_of(alloc, &reached)?;
    Ok(Build {
        world,
        reach,
        prepared,
    })
}

/// What a frame shows, prepared: its world as it is kept, or as it is prepared now. The only error
/// is want of memory.
fn prepared_for<O: Objects>(
    alloc: Global,
    state: &O,
    worlds: &KeptWorlds<Prepared>,
    frame: Handle,
    visits: &Visits,
) -> Result<(Prepared, Option<Build>), NoMemory>
    requires granted { IsGranted (O.objects state.now) frame visits.now }
    requires kept { AreCurrent (O.objects state.now) worlds.now }
    ensures shown { IfOk result (λ p. IsShownBy (O.objects state.now)
        (walk (O.objects state.now) frame) p.0) }
    ensures build { IfOk result (λ p. IsWanted (O.objects state.now) worlds.now frame p.1) }
{
    let Some(world) = named(state, frame, "world") else {
        return Ok((prepare_visited(alloc, state, visits)?, None));
    };
    if let Some(kept) = worlds.get(world) {
        return Ok((kept.share(alloc)?, None));
    }
    let build = build_of(alloc, state, frame, world, visits)?;
    Ok((build.prepared.share(alloc)?, Some(build)))
}

/// What a render of a frame takes along (ANARI 1.0 Specification, rendering frames), before it
/// changes anything: what the walk from the frame reached, each object once, and its scene. Where
/// the world of the frame is kept, it is shared, and nothing is prepared; else it comes along as it
/// is to be kept. The only error is want of memory.
///
/// The walk was not refused, and what is kept of worlds shows what they show now.
pub fn load_of<O: Objects>(
    alloc: Global,
    state: &O,
    worlds: &KeptWorlds<Prepared>,
    frame: Handle,
    visits: &Visits,
) -> Result<NewLoad, NoMemory>
    requires granted { IsGranted (O.objects state.now) frame visits.now }
    requires kept { AreCurrent (O.objects state.now) worlds.now }
    ensures reach { IfOk result (λ n. HasEachOnce (visited (walk (O.objects state.now) frame))
        n.reach.items) }
    ensures scene { IfOk result (λ n. scene_prepared n.scene ≡ scene (O.objects state.now) frame) }
    ensures within { IfOk result (λ n. IsSceneWithin (scene_prepared n.scene)) }
    ensures build { IfOk result (λ n. IsWanted (O.objects state.now) worlds.now frame n.build) }
{
    let reach = reach_of(alloc, visits)?;
    let (prepared, build) = prepared_for(alloc, state, worlds, frame, visits)?;
    let view = view_of(alloc, state, frame, &prepared)?;
    Ok(NewLoad {
        reach,
        scene: PreparedScene { prepared, view },
        build,
    })
}

/// Keeps the world that a render prepared, if it prepared one. The only error is want of memory,
/// and leaves all as it was.
///
/// Over a render that prepares exactly a world that is not kept, what is kept is what the history
/// says, and shows what its world shows.
pub fn keep_build(
    worlds: &mut KeptWorlds<Prepared>,
    alloc: Global,
    build: Option<Build>,
) -> Result<(), NoMemory>
    ensures refused { OnErr result (worlds.new ≡ worlds.old) }
    ensures others { OnOk result ((w : ℕ)
        → without_world (world_of_build build) w (kept_at worlds.new w)
        ≡ without_world (world_of_build build) w (kept_at worlds.old w)) }
    ensures known { OnOk result ((history : History) (actor f : ℕ)
        → Legal history
        → IsWanted (scene_objects (after history).state) worlds.old f build
        → AreKept (is_there history) history (reach_at worlds.old)
        → AreKept (is_there history) (history ++ render_of actor f ∷ []) (reach_at worlds.new)) }
    ensures shown { OnOk result ((history : History) (f : ℕ)
        → IsWanted (scene_objects (after history).state) worlds.old f build
        → AreShown history (shown_at shown_by worlds.old)
        → AreShown history (shown_at shown_by worlds.new)) }
{
    let Some(build) = build else {
        return Ok(());
    };
    worlds.keep(alloc, build.world, build.reach, build.prepared)
}
