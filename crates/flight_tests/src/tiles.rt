//! The rows, and four threads at one frame.
ghost use Rattle.std.specs.Prelude.{◌≡◌, ◌+◌, ◌*◌, ◌<◌, ◌≤◌, None, true, false, [], ◌++◌, take, length, IfOk};
ghost use Rattle.picture_model.specs.Limits.{IsSceneWithin, IsSide};
ghost use Rattle.picture_model.specs.Pictures.{pixel, row_of, plane};
ghost use Rattle.picture_model.specs.Tiles.{tile_count, tile_rect};
ghost use Rattle.tile_claims.specs.Parts.{scene_of, rect_of, tiles_of, IsSized, AreRows};
ghost use Rattle.tile_claims.specs.Pixels.{IsWhole};
ghost use Rattle.tile_claims.specs.Rule.{HasSeenAll};
ghost use Rattle.tile_claims.specs.Seats.{key_of, view, tile_of, pixels_of, IsSeatOf, IsFresh, IsClaimOf, IsSameClaim, IsReady, with_row};

use dev_types::NoMemory;
use fx_math::{
    CameraRow, LightList, Lighting, NO_ID, Place, Primitive, PrimitiveList, Scene, Shape, Vec3,
};
use picture_model::{Plane, Rect, is_scene_within, pixel, tile_count, tile_rect};
use std::alloc::{AllocError, Global};
use std::process::Abort;
use std::test::Fail;
use std::thread::{Threads, join};
use tile_claims::{Claim, Claims, Key, SceneName, Seat, TilePixels};

fn point(x: i64, y: i64) -> Vec3 {
    Vec3 { x, y, z: 0 }
}

/// A red triangle below the diagonal of a window of four by four, before green: its primitive has the
/// number 3, and its surface the id 7.
fn half_red(rt: &impl Abort, alloc: Global, width: u32, height: u32) -> Result<Scene, AllocError>
    ensures within { IfOk result IsSceneWithin }
    ensures size { IfOk result (λ s. (s.width ≡ width) × (s.height ≡ height)) }
{
    let red = Primitive {
        place: Place {
            inst: 0,
            surf: 0,
            prim: 3,
        },
        shape: Shape::Triangle(
            point(-131072, -131072),
            point(131072, -131072),
            point(-131072, 131072),
        ),
        color: [65536, 0, 0],
        opacity: 65536,
        object_id: 7,
        instance_id: NO_ID,
    };
    let scene = Scene {
        primitives: PrimitiveList::new(Vec::from_slice(alloc, &[red])?),
        camera: CameraRow::Orthographic {
            position: Vec3 {
                x: 0,
                y: 0,
                z: 65536,
            },
            direction: Vec3 {
                x: 0,
                y: 0,
                z: -65536,
            },
            up: point(0, 65536),
            aspect: 65536,
            height: 262144,
        },
        lighting: Lighting {
            lights: LightList::new(Vec::new(alloc)),
            background: [0, 65536, 0],
            ambient_color: [65536, 65536, 65536],
            ambient_radiance: 65536,
        },
        width,
        height,
    };
    assert!(rt; is_scene_within(&scene));
    Ok(scene)
}

fn put(row: &mut [u8], at: usize, four: &[u8; 4])
    requires within { at + 4 ≤ length row.old }
    ensures same { length row.new ≡ length row.old }
    ensures front { take (at + 4) row.new ≡ take at row.old ++ four.now }
{
    row[at..at + 4].copy_from_slice(four);
}

/// Writes the pixels of row `y` of a rectangle.
fn write_row(row: &mut [u8], scene: &Scene, plane: Plane, rect: &Rect, y: u32)
    requires scene { IsSceneWithin scene.now }
    requires columns { rect.now.x0 + rect.now.w ≤ scene.now.width }
    requires line { y < scene.now.height }
    requires size { length row.old ≡ 4 * rect.now.w }
    ensures { row.new ≡ row_of (pixel scene.now plane) rect.now y }
{
    for i in 0..rect.w {
        put(row, 4 * i as usize, &pixel(scene, plane, rect.x0 + i, y));
    }
}

/// Fills row `y` of the claim's tile in a channel.
fn fill_row(claim: &mut Claim, scene: &Scene, channel: u32, rect: &Rect, y: u32)
    requires scene { IsSceneWithin scene.now }
    requires columns { rect.now.x0 + rect.now.w ≤ scene.now.width }
    requires lines { rect.now.y0 + rect.now.h ≤ scene.now.height }
    requires width { (pixels_of claim.old).w ≡ rect.now.w }
    requires height { (pixels_of claim.old).h ≡ rect.now.h }
    requires whole { IsWhole (pixels_of claim.old).w (pixels_of claim.old).h (pixels_of claim.old).bytes }
    requires channel { channel < 4 }
    requires line { y < rect.now.h }
    ensures { claim.new ≡ with_row claim.old channel y
        (row_of (pixel scene.now (plane channel)) rect.now (rect.now.y0 + y)) }
{
    let row = claim.row_mut(channel, y);
    write_row(row, scene, Plane::numbered(channel), rect, rect.y0 + y);
}

/// Fills a channel of the claim's tile.
fn fill_channel(claims: &Claims, claim: &mut Claim, scene: &Scene, channel: u32, rect: &Rect)
    requires scene { IsSceneWithin scene.now }
    requires same_scene { scene_of (key_of claims.now) ≡ scene.now }
    requires claim { IsClaimOf claims.now claim.old }
    requires rect { rect.now ≡ rect_of (key_of claims.now) (tile_of claim.old) }
    requires columns { rect.now.x0 + rect.now.w ≤ scene.now.width }
    requires lines { rect.now.y0 + rect.now.h ≤ scene.now.height }
    requires channel { channel < 4 }
    requires before { AreRows (key_of claims.now) (tile_of claim.old) (pixels_of claim.old) channel 0 }
    ensures claim { IsClaimOf claims.now claim.new × IsSameClaim claim.old claim.new }
    ensures after { AreRows (key_of claims.now) (tile_of claim.new) (pixels_of claim.new) (channel + 1) 0 }
{
    for y in 0..rect.h {
        fill_row(claim, scene, channel, rect, y);
    }
}

/// Fills the claim's tile.
fn fill(claims: &Claims, claim: &mut Claim, scene: &Scene)
    requires scene { IsSceneWithin scene.now }
    requires same_scene { scene_of (key_of claims.now) ≡ scene.now }
    requires claim { IsClaimOf claims.now claim.old }
    ensures claim { IsClaimOf claims.now claim.new × IsSameClaim claim.old claim.new }
    ensures ready { IsReady claims.now claim.new }
{
    let rect = tile_rect(scene.width, scene.height, claim.tile());
    for channel in 0..4 {
        fill_channel(claims, claim, scene, channel, &rect);
    }
}

/// Claims, fills and gives tiles until none is left. Answers how many.
fn work(claims: &Claims, seat: &mut Seat, scene: &Scene) -> u32
    requires scene { IsSceneWithin scene.now }
    requires same_scene { scene_of (key_of claims.now) ≡ scene.now }
    requires seat { IsSeatOf claims.now seat.old }
    requires idle { (view seat.old).opened ≡ None }
    requires in_time { (view seat.old).late ≡ false }
    ensures seat { IsSeatOf claims.now seat.new }
    ensures first { (view seat.new).first ≡ (view seat.old).first }
    ensures collected { (view seat.new).collected ≡ (view seat.old).collected }
{
    let mut given = 0;
    for _ in 0..=tile_count(scene.width, scene.height) {
        let Some(mut claim) = claims.claim(seat) else {
            return given;
        };
        fill(claims, &mut claim, scene);
        claims.give(seat, claim);
        given += 1;
    }
    given
}

/// What pixel (`x`, `y`) of a picture of `w` by `h` shows: red where its middle lies below the diagonal.
fn wanted(channel: u32, size: (u32, u32), x: u32, y: u32) -> [u8; 4]
    requires { (size.0 ≤ 64) × (size.1 ≤ 64) × (x < size.0) × (y < size.1) }
{
    let (w, h) = size;
    let is_red = (2 * x + 1) * h + (2 * y + 1) * w <= 2 * w * h;
    match (channel, is_red) {
        (0, true) => [255, 0, 0, 255],
        (0, false) => [0, 255, 0, 0],
        (1, true) => [3, 0, 0, 0],
        (2, true) => [7, 0, 0, 0],
        _ => [255, 255, 255, 255],
    }
}

/// A row of a tile is the picture's.
fn check_row(rt: &impl Abort, row: &[u8], channel: u32, size: (u32, u32), rect: &Rect, y: u32)
    requires small { (size.0 ≤ 64) × (size.1 ≤ 64) }
    requires columns { rect.now.x0 + rect.now.w ≤ size.0 }
    requires line { y < size.1 }
{
    for i in 0..rect.w {
        let at = 4 * i as usize;
        assert!(rt; row.get(at..at + 4) == Some(&wanted(channel, size, rect.x0 + i, y)[..]));
    }
}

fn check_channel(rt: &impl Abort, pixels: &TilePixels, channel: u32, size: (u32, u32), rect: &Rect)
    requires channel { channel < 4 }
    requires small { (size.0 ≤ 64) × (size.1 ≤ 64) }
    requires columns { rect.now.x0 + rect.now.w ≤ size.0 }
    requires lines { rect.now.y0 + rect.now.h ≤ size.1 }
    requires height { pixels.now.h ≡ rect.now.h }
{
    for y in 0..rect.h {
        check_row(rt, pixels.row(channel, y), channel, size, rect, rect.y0 + y);
    }
}

/// All pixels of a tile are the picture's.
fn check_tile(rt: &impl Abort, pixels: &TilePixels, size: (u32, u32), tile: u32)
    requires small { (size.0 ≤ 64) × (size.1 ≤ 64) }
    requires tile { tile < tile_count size.0 size.1 }
    requires height { pixels.now.h ≡ (tile_rect size.0 size.1 tile).h }
{
    let rect = tile_rect(size.0, size.1, tile);
    for channel in 0..4 {
        check_channel(rt, pixels, channel, size, &rect);
    }
}

/// Whether all tiles are given.
fn sees_all(claims: &Claims, seat: &mut Seat) -> bool
    requires seat { IsSeatOf claims.now seat.old }
    requires width { IsSide (key_of claims.now).w }
    requires height { IsSide (key_of claims.now).h }
    ensures seat { IsSeatOf claims.now seat.new }
    ensures seen { result ≡ true → HasSeenAll (view seat.new) }
    ensures first { (view seat.new).first ≡ (view seat.old).first }
    ensures collected { (view seat.new).collected ≡ (view seat.old).collected }
{
    let (w, h) = claims.sides();
    claims.given(seat) == tile_count(w, h) as u64
}

/// Collects all tiles, and checks each pixel.
fn collect_all(rt: &impl Abort, claims: &Claims, seat: &mut Seat)
    requires seat { IsSeatOf claims.now seat.old }
    requires first { (view seat.old).first ≡ true }
    requires there { (view seat.old).collected ≡ [] }
    requires small { ((key_of claims.now).w ≤ 64) × ((key_of claims.now).h ≤ 64) }
    requires width { IsSide (key_of claims.now).w }
    requires height { IsSide (key_of claims.now).h }
{
    assert!(rt; sees_all(claims, seat));
    let size = claims.sides();
    for tile in 0..tile_count(size.0, size.1) {
        let pixels = claims.collect(seat, tile);
        check_tile(rt, &pixels, size, tile);
    }
}

/// The key of a scene.
fn naming(scene: &Scene) -> Key
    ensures size { (result.w ≡ scene.now.width) × (result.h ≡ scene.now.height) }
    ensures scene { scene_of result ≡ scene.now }
{
    Key {
        w: scene.width,
        h: scene.height,
        scene: SceneName::of(scene),
    }
}

#[test]
fn two_seats_claim_two_tiles(rt: HostRuntime) -> Result<(), Fail> {
    let scene = half_red(&rt, rt.alloc(), 17, 1)?;
    let (claims, mut first) = Claims::new(rt.alloc(), naming(&scene)).map_err(|_| "out of memory")?;
    assert_eq!(rt; claims.sides(), (17, 1));
    let mut second = claims.split(&mut first);
    let mut one = claims.claim(&mut first).expect(&rt, "a tile is left");
    let mut other = claims.claim(&mut second).expect(&rt, "a tile is left");
    assert_eq!(rt; (one.tile(), other.tile()), (0, 1));
    assert_eq!(rt; claims.given(&mut first), 0);
    fill(&claims, &mut one, &scene);
    claims.give(&mut first, one);
    let none = claims.claim(&mut first);
    assert!(rt; none.is_none());
    let None = none else { unreachable!() };
    fill(&claims, &mut other, &scene);
    claims.give(&mut second, other);
    assert_eq!(rt; claims.claimed(&mut first), 2);
    assert_eq!(rt; claims.claimed(&mut second), 2);
    assert_eq!(rt; claims.given(&mut first), 2);
    collect_all(&rt, &claims, &mut first);
    Ok(())
}

#[test]
fn a_stop_leaves_nothing_to_claim(rt: HostRuntime) -> Result<(), Fail> {
    let scene = half_red(&rt, rt.alloc(), 17, 1)?;
    let (claims, mut seat) = Claims::new(rt.alloc(), naming(&scene)).map_err(|_| "out of memory")?;
    assert_eq!(rt; claims.claimed(&mut seat), 0);
    assert_eq!(rt; claims.stop(&mut seat), 0);
    let none = claims.claim(&mut seat);
    assert!(rt; none.is_none());
    let None = none else { unreachable!() };
    assert_eq!(rt; claims.given(&mut seat), 0);
    Ok(())
}

#[test]
fn a_stop_counts_what_is_open(rt: HostRuntime) -> Result<(), Fail> {
    let scene = half_red(&rt, rt.alloc(), 17, 1)?;
    let (claims, mut seat) = Claims::new(rt.alloc(), naming(&scene)).map_err(|_| "out of memory")?;
    let mut open = claims.claim(&mut seat).expect(&rt, "a tile is left");
    assert_eq!(rt; claims.stop(&mut seat), 1);
    assert_eq!(rt;
        (claims.claimed(&mut seat), claims.given(&mut seat)),
        (2, 0)
    );
    fill(&claims, &mut open, &scene);
    claims.give(&mut seat, open);
    assert_eq!(rt; claims.given(&mut seat), 1);
    let none = claims.claim(&mut seat);
    assert!(rt; none.is_none());
    let None = none else { unreachable!() };
    Ok(())
}

/// Two threads claim, fill and give tiles until none is left. Answers the first seat, and how many tiles each gave.
fn two_workers<R: Threads + Sync>(
    rt: &R,
    claims: &Claims,
    one: Seat,
    other: Seat,
    scene: &Scene,
) -> (Seat, u32, u32)
    requires scene { IsSceneWithin scene.now }
    requires same_scene { scene_of (key_of claims.now) ≡ scene.now }
    requires one { IsFresh claims.now one }
    requires other { IsFresh claims.now other }
    ensures seat { IsSeatOf claims.now result.0 }
    ensures first { (view result.0).first ≡ (view one).first }
    ensures collected { (view result.0).collected ≡ [] }
{
    let ((seat, first), second) = join(
        rt,
        move || -> (Seat, u32)
            requires { IsSceneWithin scene.now × (scene_of (key_of claims.now) ≡ scene.now) × IsFresh claims.now one }
            ensures { IsSeatOf claims.entry.now result.0 × ((view result.0).first ≡ (view one).first) × ((view result.0).collected ≡ []) }
        {
            let mut seat = one;
            let given = work(claims, &mut seat, scene);
            (seat, given)
        },
        move || -> u32
            requires { IsSceneWithin scene.now × (scene_of (key_of claims.now) ≡ scene.now) × IsFresh claims.now other }
        {
            let mut seat = other;
            work(claims, &mut seat, scene)
        },
    );
    (seat, first, second)
}

/// Four threads fill a frame of 64 by 48, of which each pixel is checked. Two of them have a handle of
/// their own.
fn four_workers<R: Threads + Sync + Abort>(
    rt: &R,
    alloc: Global,
    scene: &Scene,
) -> Result<(), NoMemory>
    requires scene { IsSceneWithin scene.now }
    requires size { (scene.now.width ≡ 64) × (scene.now.height ≡ 48) }
{
    let (claims, mut first) = Claims::new(alloc, naming(scene))?;
    let second = claims.split(&mut first);
    let third = claims.split(&mut first);
    let fourth = claims.split(&mut first);
    let other = claims.share(alloc)?;
    let shared = &claims;
    let (mut seat, _) = join(
        rt,
        move || -> Seat
            requires { IsSceneWithin scene.now × (scene_of (key_of shared.now) ≡ scene.now) × IsFresh shared.now first × IsFresh shared.now second }
            ensures { IsSeatOf shared.entry.now result × ((view result).first ≡ (view first).first) × ((view result).collected ≡ []) }
        { two_workers(rt, shared, first, second, scene).0 },
        move || -> u32
            requires { IsSceneWithin scene.now × (scene_of (key_of other) ≡ scene.now) × IsFresh other third × IsFresh other fourth }
        { two_workers(rt, &other, third, fourth, scene).1 },
    );
    collect_all(rt, &claims, &mut seat);
    Ok(())
}

#[test]
fn four_threads_fill_a_frame(rt: HostRuntime) -> Result<(), Fail> {
    let scene = half_red(&rt, rt.alloc(), 64, 48)?;
    for _ in 0..100 {
        four_workers(&rt, rt.alloc(), &scene).map_err(|_| "out of memory")?;
    }
    Ok(())
}
