//! What is kept with a flight, and what its tiles are claimed and rendered with.
ghost use Rattle.std.specs.Prelude.{◌≡◌, IfOk, false};
ghost use Rattle.frame_future.specs.Flights.{IsNew};
ghost use Rattle.frame_future.specs.Pixels.{IsSized};
ghost use Rattle.picture_model.specs.Limits.{IsSceneWithin};
ghost use Rattle.picture_model.specs.Tiles.{tile_count};
ghost use Rattle.tile_claims.specs.Parts.{scene_of};
ghost use Rattle.tile_claims.specs.Seats.{key_of, view};
ghost use Rattle.tile_claims.specs.Views.{no_looks};
ghost use Rattle.world_snapshot.specs.Works.{scene_of_work};
ghost use Rattle.device_parts.specs.AllParts.{scene_prepared};

use dev_types::{Handle, NoMemory};
use picture_model::tile_count;
use std::alloc::Global;
use tile_claims::{Claims, Key, SceneName, Seat};
use world_snapshot::{Prepared, View, Work};

/// What a flight needs until it is over: what its scene reached, which it keeps alive, and what its
/// tiles are rendered from.
#[derive(Drop)]
pub struct Load {
    /// The objects that its scene reached.
    pub reach: Vec<Handle>,
    /// Its scene; none exactly while its claims are lent.
    pub scene: Option<PreparedScene>,
}

/// A scene, as it was prepared for the render of a frame.
#[derive(Drop)]
pub struct PreparedScene {
    /// The world as it was prepared at the render, or at an earlier one that showed the same.
    pub prepared: Prepared,
    /// How the frame shows it.
    pub view: View,
}

impl PreparedScene {
    /// The same scene once more: the prepared world is shared, and of the view the lights are copied.
    /// The only error is want of memory.
    pub fn shared(&self, alloc: Global) -> Result<PreparedScene, NoMemory>
        ensures { IfOk result (λ scene. scene_prepared scene ≡ scene_prepared self.now) }
    {
        let prepared = self.prepared.share(alloc)?;
        let view = self.view.copied(alloc)?;
        Ok(PreparedScene { prepared, view })
    }

    /// What a thread renders the tiles of a flight with, at this seat of its claims.
    pub fn into_work(self, claims: Claims, seat: Seat) -> Work
        ensures scene { scene_of_work result ≡ scene_prepared self }
        ensures claims { result.claims ≡ claims }
        ensures seat { result.seat ≡ seat }
    {
        Work {
            claims,
            seat,
            prepared: self.prepared,
            camera: self.view.camera,
            lighting: self.view.lighting,
            size: self.view.size,
        }
    }

    /// In how many tiles it is rendered.
    pub fn tiles(&self) -> u64
        requires { IsSceneWithin (scene_prepared self.now) }
        ensures { result ≡ tile_count self.now.view.size.0 self.now.view.size.1 }
    {
        let (width, height) = self.view.size;
        u64::from(tile_count(width, height))
    }

    /// The name of its scene, at the size of its frame.
    fn key(&self) -> Key
        ensures size { (result.w ≡ self.now.view.size.0) × (result.h ≡ self.now.view.size.1) }
        ensures scene { scene_of result ≡ scene_prepared self.now }
    {
        Key {
            w: self.view.size.0,
            h: self.view.size.1,
            scene: SceneName::of(self),
        }
    }

    /// The claims of the tiles of its scene, of which none is claimed, with their first seat. The
    /// buffers of all tiles are made here: 16 bytes a pixel. The only error is want of memory.
    pub fn claims(&self, alloc: Global) -> Result<(Claims, Seat), NoMemory>
        requires { IsSceneWithin (scene_prepared self.now) }
        ensures scene { IfOk result (λ c. scene_of (key_of c.0) ≡ scene_prepared self.now) }
        ensures new { IfOk result (λ c. IsNew c.0 c.1) }
        ensures unseen { IfOk result (λ c. (view c.1).claims ≡ no_looks) }
        ensures in_time { IfOk result (λ c. (view c.1).late ≡ false) }
        ensures sized { IfOk result (λ c. IsSized (key_of c.0)) }
    {
        Claims::new(alloc, self.key())
    }
}
