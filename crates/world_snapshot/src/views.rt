//! What a frame adds to a prepared world.
ghost use Rattle.std.specs.Prelude.{◌≡◌, None, Some, IfOk};
ghost use Rattle.std.specs.Option.{option_map};
ghost use Rattle.kind_tables.specs.SceneObjects.{object_at};
ghost use Rattle.kind_tables.specs.Scenes.{camera_of, scene, side_of};
ghost use Rattle.kind_tables.specs.Typed.{AreFit};
ghost use Rattle.kind_tables.specs.WalkRefusals.{walk_refusal};
ghost use Rattle.kind_tables.specs.Walks.{walk};
ghost use Rattle.kind_tables.specs.declared.kinds.Kind.TheVariants.{FrameDefault};
ghost use Rattle.picture_model.specs.Limits.{IsSceneWithin};
ghost use Rattle.scene_read.specs.Shown.{lit};
ghost use Rattle.scene_read.specs.Starts.{visited_object};
ghost use Rattle.world_snapshot.specs.Views.{scene_shown};
ghost use Rattle.world_snapshot.specs.Worlds.{IsShownBy};

use crate::prepared::{Prepared, copied_lights};
use dev_types::{Handle, NoMemory};
use fx_math::{CameraRow, Lighting};
use scene_read::{Objects, camera_of, lit, sides};
use std::alloc::Global;

/// How a frame shows a prepared world: its camera, the world's lights with the colours of its renderer, and its sides.
#[derive(Drop)]
pub struct View {
    pub camera: CameraRow,
    pub lighting: Lighting,
    /// The width and the height of the frame in pixels.
    pub size: (u32, u32),
}

impl View {
    /// The same view once more. The lights are copied. The only error is want of memory.
    pub fn copied(&self, alloc: Global) -> Result<View, NoMemory>
        ensures { IfOk result (λ view. view ≡ self.now) }
    {
        let lighting = Lighting {
            lights: copied_lights(alloc, &self.lighting.lights)?,
            background: self.lighting.background,
            ambient_color: self.lighting.ambient_color,
            ambient_radiance: self.lighting.ambient_radiance,
        };
        Ok(View {
            camera: self.camera,
            lighting,
            size: self.size,
        })
    }
}

/// How a frame shows a prepared world, now (ANARI 1.0 Specification, Camera, Renderer, Frame). The lights are copied, at most 256
/// where the walk was not refused. The only error is want of memory.
///
/// Where the world shows what the walk from the frame shows, whenever it was prepared, both together are the scene of the frame; and
/// where that walk is not refused, they are within the limits of pictures: what is asked where tiles are rendered.
pub fn view_of<O: Objects>(
    alloc: Global,
    state: &O,
    frame: Handle,
    prepared: &Prepared,
) -> Result<View, NoMemory>
    ensures camera { IfOk result (λ view. view.camera ≡ camera_of (O.objects state.now) (visited_object (O.objects state.now) frame)) }
    ensures lighting { IfOk result (λ view. view.lighting ≡ lit (O.objects state.now) frame prepared.now.lights) }
    ensures width { IfOk result (λ view. view.size.0 ≡ side_of (visited_object (O.objects state.now) frame) 0) }
    ensures height { IfOk result (λ view. view.size.1 ≡ side_of (visited_object (O.objects state.now) frame) 1) }
    ensures scene { IsShownBy (O.objects state.now) (walk (O.objects state.now) frame) prepared.now
        → IfOk result (λ view. scene_shown prepared.now view ≡ scene (O.objects state.now) frame) }
    ensures within { AreFit (O.objects state.now)
        → option_map (λ o. o.kind) (object_at (O.objects state.now) frame) ≡ Some FrameDefault
        → walk_refusal (O.objects state.now) (walk (O.objects state.now) frame) ≡ None
        → IsShownBy (O.objects state.now) (walk (O.objects state.now) frame) prepared.now
        → IfOk result (λ view. IsSceneWithin (scene_shown prepared.now view)) }
{
    let lights = prepared.copied_lights(alloc)?;
    Ok(View {
        camera: camera_of(state, frame),
        lighting: lit(state, frame, lights),
        size: sides(state, frame),
    })
}
