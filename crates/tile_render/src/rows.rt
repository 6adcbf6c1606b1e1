//! A row of a tile's pixels.
ghost use Rattle.std.specs.Prelude.{◌≡◌, ◌+◌, ◌++◌, ◌<◌, ◌≤◌, [], length};
ghost use Rattle.picture_model.specs.Limits.{IsSceneWithin};
ghost use Rattle.tile_render.specs.Filled.{AreInRow, IsPixelAt};
ghost use Rattle.world_snapshot.specs.Works.{scene_of_work};

use crate::pixels::{Pixel, pixel_of};
use arrayvec::ArrayVec;
use picture_model::Rect;
use shade_core::PreparedCamera;
use world_snapshot::Work;

/// The bytes of up to 16 pixels in the four channels.
#[derive(Drop)]
pub(crate) struct RowPixels {
    pub(crate) color: ArrayVec<u8, 64>,
    pub(crate) primitive_id: ArrayVec<u8, 64>,
    pub(crate) object_id: ArrayVec<u8, 64>,
    pub(crate) instance_id: ArrayVec<u8, 64>,
}

/// No pixels.
fn no_pixels() -> RowPixels
    ensures color { result.color.items ≡ [] }
    ensures primitive_id { result.primitive_id.items ≡ [] }
    ensures object_id { result.object_id.items ≡ [] }
    ensures instance_id { result.instance_id.items ≡ [] }
{
    RowPixels {
        color: ArrayVec::new(),
        primitive_id: ArrayVec::new(),
        object_id: ArrayVec::new(),
        instance_id: ArrayVec::new(),
    }
}

/// Adds the four bytes of a pixel in one channel.
fn push(bytes: &mut ArrayVec<u8, 64>, four: &[u8; 4])
    requires { length bytes.old.items ≤ 60 }
    ensures { bytes.new.items ≡ bytes.old.items ++ four.now }
{
    if bytes.try_extend_from_slice(four).is_err() {
        unreachable!();
    }
}

/// Adds a pixel in all channels.
fn push_pixel(row: &mut RowPixels, pixel: &Pixel)
    requires color { length row.old.color.items ≤ 60 }
    requires primitive_id { length row.old.primitive_id.items ≤ 60 }
    requires object_id { length row.old.object_id.items ≤ 60 }
    requires instance_id { length row.old.instance_id.items ≤ 60 }
    ensures color { row.new.color.items ≡ row.old.color.items ++ pixel.now.color }
    ensures primitive_id { row.new.primitive_id.items ≡ row.old.primitive_id.items ++ pixel.now.primitive_id }
    ensures object_id { row.new.object_id.items ≡ row.old.object_id.items ++ pixel.now.object_id }
    ensures instance_id { row.new.instance_id.items ≡ row.old.instance_id.items ++ pixel.now.instance_id }
{
    push(&mut row.color, &pixel.color);
    push(&mut row.primitive_id, &pixel.primitive_id);
    push(&mut row.object_id, &pixel.object_id);
    push(&mut row.instance_id, &pixel.instance_id);
}

/// Pixel (`x`, `y`) of the work's frame.
fn pixel_at(work: &Work, camera: &PreparedCamera, x: u32, y: u32, tests: &mut u64) -> Pixel
    requires scene { IsSceneWithin (scene_of_work work.now) }
    requires camera { camera.now.camera ≡ work.now.camera }
    requires width { camera.now.width ≡ work.now.size.0 }
    requires height { camera.now.height ≡ work.now.size.1 }
    requires column { x < work.now.size.0 }
    requires row { y < work.now.size.1 }
    ensures { IsPixelAt (scene_of_work work.now) x y result }
{
    pixel_of(&work.prepared, &work.lighting, &camera.ray(x, y), tests)
}

/// The pixels of row `y` of the work's frame that lie in a rectangle, which is that of a tile.
pub(crate) fn row_of(
    work: &Work,
    camera: &PreparedCamera,
    rect: &Rect,
    y: u32,
    tests: &mut u64,
) -> RowPixels
    requires scene { IsSceneWithin (scene_of_work work.now) }
    requires camera { camera.now.camera ≡ work.now.camera }
    requires width { camera.now.width ≡ work.now.size.0 }
    requires height { camera.now.height ≡ work.now.size.1 }
    requires columns { rect.now.x0 + rect.now.w ≤ work.now.size.0 }
    requires few { rect.now.w ≤ 16 }
    requires row { y < work.now.size.1 }
    ensures { AreInRow (scene_of_work work.now) rect.now.x0 rect.now.w y result }
{
    let mut row = no_pixels();
    for i in 0..rect.w {
        push_pixel(&mut row, &pixel_at(work, camera, rect.x0 + i, y, tests));
    }
    row
}
