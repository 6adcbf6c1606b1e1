//! The phases of frames, and what is mapped of them.
ghost use Rattle.std.specs.Prelude.{◌≡◌, ◌+◌, ◌*◌, ◌<◌, ◌≤◌, None, Some, true, false, [], ◌++◌, take, length, IfOk, IfSome, IsSome};
ghost use Rattle.picture_model.specs.Limits.{IsSceneWithin, IsSide};
ghost use Rattle.picture_model.specs.Pictures.{pixel, row_of, plane};
ghost use Rattle.tile_claims.specs.Parts.{scene_of, rect_of, tiles_of, IsSized, AreRows};
ghost use Rattle.tile_claims.specs.Pixels.{IsWhole};
ghost use Rattle.tile_claims.specs.Seats.{key_of, view, tile_of, pixels_of, IsClaimOf, IsSameClaim, IsReady, IsSameSeat, IsSeatOf, with_row};
ghost use Rattle.tile_claims.specs.Views.{new_view};
ghost use Rattle.frame_future.specs.Flights.{IsNew};
ghost use Rattle.frame_future.specs.Pixels.{IsSized as HasSides};

use dev_types::{Channel, DataType, Handle, NoMemory, Refused};
use frame_future::{Ended, Frames, MappedFrame, Phase};
use fx_math::{
    CameraRow, LightList, Lighting, NO_ID, Place, Primitive, PrimitiveList, Scene, Shape, Vec3,
};
use picture_model::{Plane, Rect, is_scene_within, pixel, tile_count, tile_rect};
use std::alloc::{AllocError, Global};
use std::process::Abort;
use std::test::Fail;
use tile_claims::{Claim, Claims, Key, SceneName, Seat};

fn point(x: i64, y: i64) -> Vec3 {
    Vec3 { x, y, z: 0 }
}

/// A red triangle below the diagonal of a window of four by four, before green: its primitive has the
/// number 3, and its surface the id 7.
pub(crate) fn half_red(
    rt: &impl Abort,
    alloc: Global,
    width: u32,
    height: u32,
) -> Result<Scene, AllocError>
    ensures within { IfOk result IsSceneWithin }
    ensures size { IfOk result (λ s. (s.width ≡ width) × (s.height ≡ height)) }
{
    let red = Primitive {
        place: Place {
            inst: 0,
            surf: 0,
            prim: 3,
        },
        shape: Shape::Triangle(
            point(-131072, -131072),
            point(131072, -131072),
            point(-131072, 131072),
        ),
        color: [65536, 0, 0],
        opacity: 65536,
        object_id: 7,
        instance_id: NO_ID,
    };
    let scene = Scene {
        primitives: PrimitiveList::new(Vec::from_slice(alloc, &[red])?),
        camera: CameraRow::Orthographic {
            position: Vec3 {
                x: 0,
                y: 0,
                z: 65536,
            },
            direction: Vec3 {
                x: 0,
                y: 0,
                z: -65536,
            },
            up: point(0, 65536),
            aspect: 65536,
            height: 262144,
        },
        lighting: Lighting {
            lights: LightList::new(Vec::new(alloc)),
            background: [0, 65536, 0],
            ambient_color: [65536, 65536, 65536],
            ambient_radiance: 65536,
        },
        width,
        height,
    };
    assert!(rt; is_scene_within(&scene));
    Ok(scene)
}

fn put(row: &mut [u8], at: usize, four: &[u8; 4])
    requires within { at + 4 ≤ length row.old }
    ensures same { length row.new ≡ length row.old }
    ensures front { take (at + 4) row.new ≡ take at row.old ++ four.now }
{
    row[at..at + 4].copy_from_slice(four);
}

/// Writes the pixels of row `y` of a rectangle.
fn write_row(row: &mut [u8], scene: &Scene, plane: Plane, rect: &Rect, y: u32)
    requires scene { IsSceneWithin scene.now }
    requires columns { rect.now.x0 + rect.now.w ≤ scene.now.width }
    requires line { y < scene.now.height }
    requires size { length row.old ≡ 4 * rect.now.w }
    ensures { row.new ≡ row_of (pixel scene.now plane) rect.now y }
{
    for i in 0..rect.w {
        put(row, 4 * i as usize, &pixel(scene, plane, rect.x0 + i, y));
    }
}

/// Fills row `y` of the claim's tile in a channel.
fn fill_row(claim: &mut Claim, scene: &Scene, channel: u32, rect: &Rect, y: u32)
    requires scene { IsSceneWithin scene.now }
    requires columns { rect.now.x0 + rect.now.w ≤ scene.now.width }
    requires lines { rect.now.y0 + rect.now.h ≤ scene.now.height }
    requires width { (pixels_of claim.old).w ≡ rect.now.w }
    requires height { (pixels_of claim.old).h ≡ rect.now.h }
    requires whole { IsWhole (pixels_of claim.old).w (pixels_of claim.old).h (pixels_of claim.old).bytes }
    requires channel { channel < 4 }
    requires line { y < rect.now.h }
    ensures { claim.new ≡ with_row claim.old channel y
        (row_of (pixel scene.now (plane channel)) rect.now (rect.now.y0 + y)) }
{
    let row = claim.row_mut(channel, y);
    write_row(row, scene, Plane::numbered(channel), rect, rect.y0 + y);
}

/// Fills a channel of the claim's tile.
fn fill_channel(claims: &Claims, claim: &mut Claim, scene: &Scene, channel: u32, rect: &Rect)
    requires scene { IsSceneWithin scene.now }
    requires same_scene { scene_of (key_of claims.now) ≡ scene.now }
    requires claim { IsClaimOf claims.now claim.old }
    requires rect { rect.now ≡ rect_of (key_of claims.now) (tile_of claim.old) }
    requires columns { rect.now.x0 + rect.now.w ≤ scene.now.width }
    requires lines { rect.now.y0 + rect.now.h ≤ scene.now.height }
    requires channel { channel < 4 }
    requires before { AreRows (key_of claims.now) (tile_of claim.old) (pixels_of claim.old) channel 0 }
    ensures claim { IsClaimOf claims.now claim.new × IsSameClaim claim.old claim.new }
    ensures after { AreRows (key_of claims.now) (tile_of claim.new) (pixels_of claim.new) (channel + 1) 0 }
{
    for y in 0..rect.h {
        fill_row(claim, scene, channel, rect, y);
    }
}

/// Fills the claim's tile.
fn fill(claims: &Claims, claim: &mut Claim, scene: &Scene)
    requires scene { IsSceneWithin scene.now }
    requires same_scene { scene_of (key_of claims.now) ≡ scene.now }
    requires claim { IsClaimOf claims.now claim.old }
    ensures claim { IsClaimOf claims.now claim.new × IsSameClaim claim.old claim.new }
    ensures ready { IsReady claims.now claim.new }
{
    let rect = tile_rect(scene.width, scene.height, claim.tile());
    for channel in 0..4 {
        fill_channel(claims, claim, scene, channel, &rect);
    }
}

/// The key of a scene.
fn naming(scene: &Scene) -> Key
    ensures size { (result.w ≡ scene.now.width) × (result.h ≡ scene.now.height) }
    ensures scene { scene_of result ≡ scene.now }
{
    Key {
        w: scene.width,
        h: scene.height,
        scene: SceneName::of(scene),
    }
}

/// Claims a tile, fills it and gives it, if there is one.
pub(crate) fn give_one(claims: &Claims, seat: &mut Seat, scene: &Scene)
    requires scene { IsSceneWithin scene.now }
    requires same_scene { scene_of (key_of claims.now) ≡ scene.now }
    requires seat { IsSeatOf claims.now seat.old }
    requires idle { (view seat.old).opened ≡ None }
    requires in_time { (view seat.old).late ≡ false }
    ensures seat { IsSeatOf claims.now seat.new × IsSameSeat seat.old seat.new }
    ensures idle { (view seat.new).opened ≡ None }
    ensures first { (view seat.new).first ≡ (view seat.old).first }
    ensures splits { (view seat.new).splits ≡ (view seat.old).splits }
    ensures stop { (view seat.new).stop ≡ (view seat.old).stop }
    ensures collected { (view seat.new).collected ≡ (view seat.old).collected }
    ensures gives { (view seat.new).gives ≡ (view seat.old).gives }
{
    if let Some(mut claim) = claims.claim(seat) {
        fill(claims, &mut claim, scene);
        claims.give(seat, claim);
    }
}

/// The claims of a scene, with their first seat.
pub(crate) fn claims_of(alloc: Global, scene: &Scene) -> Result<(Claims, Seat), NoMemory>
    requires { IsSceneWithin scene.now }
    ensures key { IfOk result (λ t. scene_of (key_of t.0) ≡ scene.now) }
    ensures sized { IfOk result (λ t. HasSides (key_of t.0)) }
    ensures new { IfOk result (λ t. IsNew t.0 t.1) }
    ensures view { IfOk result (λ t. view t.1 ≡ new_view true (key_of t.0)) }
{
    Claims::new(alloc, naming(scene))
}

#[test]
fn nothing_is_shown_at_first(rt: HostRuntime) -> Result<(), Fail> {
    let frame = Handle(9);
    let mut frames = Frames::new(rt.alloc());
    assert_eq!(rt; frames.phase_of(frame), Phase::Empty);
    assert!(rt; !frames.mapped(frame));
    frames.discard(frame);
    frames.forget(frame);
    let mapped = frames.map(rt.alloc(), frame, Channel::Color, 3);
    assert!(rt; matches!(mapped, Err(Refused::NoPicture)));
    assert!(rt; frames.next_ended(0).is_none());
    Ok(())
}

#[test]
fn a_frame_is_in_flight_once_its_flight_begins(rt: HostRuntime) -> Result<(), Fail> {
    let frame = Handle(9);
    let mut frames = Frames::new(rt.alloc());
    let scene = half_red(&rt, rt.alloc(), 17, 1)?;
    let (claims, seat) = claims_of(rt.alloc(), &scene).map_err(|_| "out of memory")?;
    let begun = frames.begin(
        rt.alloc(),
        frame,
        5,
        claims,
        seat,
        [true, false, false, false],
    );
    assert!(rt; begun.is_ok());
    assert_eq!(rt; frames.phase_of(frame), Phase::Flight(5));
    assert!(rt; !frames.mapped(frame));
    Ok(())
}

#[test]
fn a_frame_in_flight_is_not_mapped(rt: HostRuntime) -> Result<(), Fail> {
    let frame = Handle(9);
    let mut frames = Frames::new(rt.alloc());
    let scene = half_red(&rt, rt.alloc(), 17, 1)?;
    let (claims, seat) = claims_of(rt.alloc(), &scene).map_err(|_| "out of memory")?;
    let channels = [true, false, false, false];
    let begun = frames.begin(rt.alloc(), frame, 5, claims, seat, channels);
    assert!(rt; begun.is_ok());
    let (given, of) = frames.last_look(5);
    assert!(rt; given == 0 && of == 2);
    let mapped = frames.map(rt.alloc(), frame, Channel::Color, 8);
    assert!(rt; matches!(mapped, Err(Refused::InFlight { given: 0, of: 2 })));
    Ok(())
}

#[test]
fn a_flight_hands_out_a_seat(rt: HostRuntime) -> Result<(), Fail> {
    let mut frames = Frames::new(rt.alloc());
    let scene = half_red(&rt, rt.alloc(), 17, 1)?;
    let (claims, seat) = claims_of(rt.alloc(), &scene).map_err(|_| "out of memory")?;
    let channels = [true, false, false, false];
    let begun = frames.begin(rt.alloc(), Handle(9), 5, claims, seat, channels);
    assert!(rt; begun.is_ok());
    let out = frames.hand_out(rt.alloc(), 5);
    assert!(rt; matches!(out, Ok(Some(_))));
    Ok(())
}

#[test]
fn a_fresh_flight_has_no_tile_claimed(rt: HostRuntime) -> Result<(), Fail> {
    let mut frames = Frames::new(rt.alloc());
    let scene = half_red(&rt, rt.alloc(), 17, 1)?;
    let (claims, seat) = claims_of(rt.alloc(), &scene).map_err(|_| "out of memory")?;
    let channels = [true, false, false, false];
    let begun = frames.begin(rt.alloc(), Handle(9), 5, claims, seat, channels);
    assert!(rt; begun.is_ok());
    assert_eq!(rt; frames.claimed(5), 0);
    Ok(())
}

#[test]
fn a_flight_that_was_lent_comes_back(rt: HostRuntime) -> Result<(), Fail> {
    let frame = Handle(9);
    let mut frames = Frames::new(rt.alloc());
    let scene = half_red(&rt, rt.alloc(), 17, 1)?;
    let (claims, seat) = claims_of(rt.alloc(), &scene).map_err(|_| "out of memory")?;
    let channels = [true, false, false, false];
    let begun = frames.begin(rt.alloc(), frame, 5, claims, seat, channels);
    assert!(rt; begun.is_ok());
    let (claims, mut seat) = frames.lend(5);
    give_one(&claims, &mut seat, &scene);
    frames.put_back(5, claims, seat);
    assert_eq!(rt; frames.phase_of(frame), Phase::Flight(5));
    Ok(())
}

#[test]
fn a_loan_of_no_picture_ends_nothing(rt: HostRuntime) -> Result<(), Fail> {
    let mut frames = Frames::new(rt.alloc());
    frames.end_loan(Handle(9), Channel::Color);
    assert!(rt; !frames.mapped(Handle(9)));
    Ok(())
}

#[test]
fn a_flight_that_is_discarded_before_any_claim_leaves(rt: HostRuntime) -> Result<(), Fail> {
    let frame = Handle(9);
    let mut frames = Frames::new(rt.alloc());
    let scene = half_red(&rt, rt.alloc(), 17, 1)?;
    let (claims, seat) = claims_of(rt.alloc(), &scene).map_err(|_| "out of memory")?;
    let channels = [true, false, false, false];
    let begun = frames.begin(rt.alloc(), frame, 5, claims, seat, channels);
    assert!(rt; begun.is_ok());
    frames.discard(frame);
    assert_eq!(rt; frames.phase_of(frame), Phase::Empty);
    let left = Some(Ended {
        ticket: 5,
        left: true,
    });
    assert!(rt; frames.next_ended(0) == left);
    Ok(())
}
