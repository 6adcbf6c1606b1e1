//! What a render takes from where the device stands.
ghost use Rattle.std.specs.Prelude.{◌≡◌, ℕ, List, None, IfOk, IsTrue, map, option_copied};
ghost use Rattle.std.specs.Option.{option_and_then, option_map};
ghost use Rattle.dev_types.specs.Bounded.{is_name};
ghost use Rattle.kind_tables.specs.SceneObjects.{value_named};
ghost use Rattle.kind_tables.specs.Scenes.{scene};
ghost use Rattle.kind_tables.specs.Walks.{walk};
ghost use Rattle.picture_model.specs.Limits.{IsSceneWithin};
ghost use Rattle.scene_read.specs.Starts.{starts_of};
ghost use Rattle.seq_model.specs.Refusals.{refusal};
ghost use Rattle.seq_model.specs.State.{object_at, scene_objects};
ghost use Rattle.seq_model.specs.declared.calls.Call.TheVariants.{RenderFrame};
ghost use Rattle.past_laws.specs.Prepared.{AreAsked, asks_for, reach_of, world_reach};
ghost use Rattle.past_laws.specs.Worlds.{world_of};

use crate::record::Record;
use dev_types::{Channel, Handle, Name, NoMemory, Value};
use fx_math::Scene;
use kind_tables::object_in;
use scene_read::{Visit, Visits, scene, visits_from};
use std::alloc::{AllocError, Global};

/// What a render of a frame needs, made before the render is noted.
#[derive(Drop)]
pub struct Prepared {
    /// All that the walk from the frame visits.
    pub reach: Vec<Handle>,
    pub scene: Scene,
    /// Which channels the frame asks for, in the order of `Channel`.
    pub channels: [bool; 4],
    /// The world of the frame, with all that the walk from it visits.
    pub world: Option<(Handle, Vec<Handle>)>,
}

/// The handles of what is visited.
fn handles_of(alloc: Global, visits: &[Visit]) -> Result<Vec<Handle>, AllocError>
    ensures { IfOk result (λ handles. handles.items ≡ map (λ v. v.1) visits.now) }
{
    visits.iter().map(|visit| visit.handle).collect(alloc)
}

impl Record {
    /// The committed value of an object under a name.
    fn committed(&self, h: Handle, text: &str) -> Option<&Value>
        requires { IsTrue (is_name text.now) }
        ensures { option_copied result ≡ option_and_then (λ o. value_named text.now o.committed) (object_at self.now.state h) }
    {
        let name = Name::new(text)?;
        self.get(h)?.committed(&name)
    }

    /// Whether a frame asks for a channel.
    fn asks_for(&self, h: Handle, channel: Channel) -> bool
        ensures { result ≡ asks_for self.now.state h channel }
    {
        self.committed(h, channel.name()).is_some()
    }

    /// Which channels a frame asks for.
    fn asked_channels(&self, h: Handle) -> [bool; 4]
        ensures { AreAsked self.now.state h result }
    {
        [
            self.asks_for(h, Channel::Color),
            self.asks_for(h, Channel::PrimitiveId),
            self.asks_for(h, Channel::ObjectId),
            self.asks_for(h, Channel::InstanceId),
        ]
    }

    /// The world of a frame.
    fn world_of(&self, h: Handle) -> Option<Handle>
        ensures { result ≡ world_of self.now.state h }
    {
        object_in(self.committed(h, "world")?)
    }

    /// All that the walk from an object visits, by its visits. The only error is want of memory.
    fn reached(&self, alloc: Global, h: Handle, visits: &Visits) -> Result<Vec<Handle>, NoMemory>
        requires { visits.now ≡ starts_of (walk (scene_objects self.now.state) h) }
        ensures { IfOk result (λ reach. reach.items ≡ reach_of self.now.state h) }
    {
        Ok(handles_of(alloc, visits.as_slice())?)
    }

    /// All that the walk from an object visits. The only error is want of memory.
    fn reach(&self, alloc: Global, h: Handle) -> Result<Vec<Handle>, NoMemory>
        ensures { IfOk result (λ reach. reach.items ≡ reach_of self.now.state h) }
    {
        let visits = visits_from(alloc, self.stage(), h)?;
        self.reached(alloc, h, &visits)
    }

    /// The world of a frame, with all that the walk from it visits. The only error is want of memory.
    fn world_reach(
        &self,
        alloc: Global,
        h: Handle,
    ) -> Result<Option<(Handle, Vec<Handle>)>, NoMemory>
        ensures { IfOk result (λ reached. option_map (λ w. (w.0, w.1.items)) reached ≡ world_reach self.now.state h) }
    {
        match self.world_of(h) {
            Some(world) => Ok(Some((world, self.reach(alloc, world)?))),
            None => Ok(None),
        }
    }

    /// The scene of a frame that may be rendered, by what its walk visits. The only error is want of memory.
    fn scene(&self, alloc: Global, h: Handle, visits: &Visits) -> Result<Scene, NoMemory>
        requires granted { refusal self.now (RenderFrame h) ≡ None }
        requires walked { visits.now ≡ starts_of (walk (scene_objects self.now.state) h) }
        ensures value { IfOk result (λ made. made ≡ scene (scene_objects self.now.state) h) }
        ensures within { IfOk result IsSceneWithin }
    {
        let stage = &self.stage;
        scene(alloc, stage, h, visits)
    }

    /// What a render of a frame needs. The only error is want of memory.
    pub fn prepared(&self, alloc: Global, h: Handle) -> Result<Prepared, NoMemory>
        requires { refusal self.now (RenderFrame h) ≡ None }
        ensures reach { IfOk result (λ p. p.reach.items ≡ reach_of self.now.state h) }
        ensures scene { IfOk result (λ p. p.scene ≡ scene (scene_objects self.now.state) h) }
        ensures within { IfOk result (λ p. IsSceneWithin p.scene) }
        ensures channels { IfOk result (λ p. AreAsked self.now.state h p.channels) }
        ensures world { IfOk result (λ p. option_map (λ w. (w.0, w.1.items)) p.world ≡ world_reach self.now.state h) }
    {
        let visits = visits_from(alloc, self.stage(), h)?;
        Ok(Prepared {
            reach: self.reached(alloc, h, &visits)?,
            scene: self.scene(alloc, h, &visits)?,
            channels: self.asked_channels(h),
            world: self.world_reach(alloc, h)?,
        })
    }
}
