//! Tiles, row by row.
ghost use Rattle.std.specs.Prelude.{◌≡◌, ◌+◌, ◌*◌, ◌<◌, ◌≤◌, length};
ghost use Rattle.picture_model.specs.Limits.{IsSceneWithin};
ghost use Rattle.tile_claims.specs.Parts.{rect_of, row_shown, scene_of};
ghost use Rattle.tile_claims.specs.Pixels.{IsWhole};
ghost use Rattle.tile_claims.specs.Seats.{IsClaimOf, IsReady, IsSameClaim, key_of, pixels_of, tile_of, with_row};
ghost use Rattle.tile_render.specs.Filled.{AreFilled};
ghost use Rattle.world_snapshot.specs.Works.{scene_of_work};

use crate::rows::row_of;
use picture_model::{Rect, tile_rect};
use shade_core::PreparedCamera;
use tile_claims::{Claim, Claims};
use world_snapshot::Work;

/// Writes a row of the claim's tile in a channel.
fn write_row(claim: &mut Claim, channel: u32, y: u32, bytes: &[u8])
    requires whole { IsWhole (pixels_of claim.old).w (pixels_of claim.old).h (pixels_of claim.old).bytes }
    requires channel { channel < 4 }
    requires row { y < (pixels_of claim.old).h }
    requires size { length bytes.now ≡ 4 * (pixels_of claim.old).w }
    ensures { claim.new ≡ with_row claim.old channel y bytes.now }
{
    claim.row_mut(channel, y).copy_from_slice(bytes);
}

/// Fills row `y` of the claim's tile in a channel with the bytes of the picture.
fn fill(claims: &Claims, claim: &mut Claim, channel: u32, y: u32, bytes: &[u8])
    requires claim { IsClaimOf claims.now claim.old }
    requires channel { channel < 4 }
    requires row { y < (pixels_of claim.old).h }
    requires shows { bytes.now ≡ row_shown (key_of claims.now) (tile_of claim.old) channel y }
    requires before { AreFilled (key_of claims.now) (tile_of claim.old) (pixels_of claim.old) y channel }
    ensures claim { IsClaimOf claims.now claim.new × IsSameClaim claim.old claim.new }
    ensures after { AreFilled (key_of claims.now) (tile_of claim.new) (pixels_of claim.new) y (channel + 1) }
{
    write_row(claim, channel, y, bytes);
}

/// Fills row `y` of the claim's tile in all channels.
fn fill_row(
    work: &Work,
    camera: &PreparedCamera,
    claim: &mut Claim,
    rect: &Rect,
    y: u32,
    tests: &mut u64,
)
    requires scene { IsSceneWithin (scene_of_work work.now) }
    requires same_scene { scene_of (key_of work.now.claims) ≡ scene_of_work work.now }
    requires camera { camera.now.camera ≡ work.now.camera }
    requires width { camera.now.width ≡ work.now.size.0 }
    requires height { camera.now.height ≡ work.now.size.1 }
    requires claim { IsClaimOf work.now.claims claim.old }
    requires rect { rect.now ≡ rect_of (key_of work.now.claims) (tile_of claim.old) }
    requires columns { rect.now.x0 + rect.now.w ≤ work.now.size.0 }
    requires rows { rect.now.y0 + rect.now.h ≤ work.now.size.1 }
    requires row { y < rect.now.h }
    requires before { AreFilled (key_of work.now.claims) (tile_of claim.old) (pixels_of claim.old) y 0 }
    ensures claim { IsClaimOf work.now.claims claim.new × IsSameClaim claim.old claim.new }
    ensures after { AreFilled (key_of work.now.claims) (tile_of claim.new) (pixels_of claim.new) (y + 1) 0 }
{
    let row = row_of(work, camera, rect, rect.y0 + y, tests);
    fill(&work.claims, claim, 0, y, row.color.as_slice());
    fill(&work.claims, claim, 1, y, row.primitive_id.as_slice());
    fill(&work.claims, claim, 2, y, row.object_id.as_slice());
    fill(&work.claims, claim, 3, y, row.instance_id.as_slice());
}

/// Fills the claimed tile with its parts of the four pictures of the work's scene, by rows from the lowest: each pixel has the colour
/// of the hits of its ray from front to back, and the ids of the nearest (ANARI 1.0 Specification, Frame: channels). Answers the number
/// of hit tests, up to the greatest number. It takes no memory.
///
/// The claim is one of the work's, whose claims are of the work's scene: its prepared world, camera, lighting and size. The scene keeps to
/// its limits, as that of a frame whose render was not refused does.
pub fn render(work: &Work, claim: &mut Claim) -> u64
    requires claim { IsClaimOf work.now.claims claim.old }
    requires key { scene_of (key_of work.now.claims) ≡ scene_of_work work.now }
    requires scene { IsSceneWithin (scene_of_work work.now) }
    ensures claim { IsClaimOf work.now.claims claim.new × IsSameClaim claim.old claim.new }
    ensures filled { IsReady work.now.claims claim.new }
{
    let (width, height) = work.size;
    let camera = PreparedCamera::new(&work.camera, width, height);
    let rect = tile_rect(width, height, claim.tile());
    let mut tests = 0;
    for y in 0..rect.h {
        fill_row(work, &camera, claim, &rect, y, &mut tests);
    }
    tests
}
