ghost use Rattle.std.specs.Prelude.{◌≡◌, ◌+◌, ◌<◌, ◌≤◌, ◌++◌, All, IfOk, OnOk};
ghost use Rattle.std.specs.Option.{ForSome};
ghost use Rattle.picture_model.specs.Limits.{IsBlendWithin, IsHitRowWithin, IsLightingWithin, IsPrimitiveWithin, IsRayWithin, IsSceneWithin};
ghost use Rattle.picture_model.specs.Pictures.{front, id_bytes, part, picture, pixel, pixels_in, row_of};
ghost use Rattle.picture_model.specs.Shading.{blend_any, hit_row, is_same_place, primitive_at, shade};
ghost use Rattle.picture_model.specs.Tiles.{tile_count};

use crate::rays::camera_ray;
use crate::records::{Blend, Hit, HitRow, Plane, Rect};
use crate::search::{hit_after, nearest};
use crate::shading::{blend_hit, finish_blend};
use crate::tiles::tile_rect;
use fx_math::{Lighting, NO_ID, Place, Primitive, Ray, Scene};
use std::alloc::{AllocError, Global};

#[tactic(auto, unfolding(crate::specs::Shading::is_same_place))]
fn is_same_place(a: &Place, b: &Place) -> bool
    ensures { result ≡ is_same_place a.now b.now }
{
    a.inst == b.inst && a.surf == b.surf && a.prim == b.prim
}

/// The primitive at a place.
fn primitive_at(primitives: &[Primitive], place: &Place) -> Option<Primitive>
    ensures { result ≡ primitive_at primitives.now place.now }
{
    for primitive in primitives {
        if is_same_place(&primitive.place, place) {
            return Some(*primitive);
        }
    }
    None
}

/// What shading needs of a hit.
fn hit_row(primitives: &[Primitive], hit: &Hit) -> Option<HitRow>
    ensures { result ≡ hit_row primitives.now hit.now }
{
    let primitive = primitive_at(primitives, &hit.place)?;
    let color = primitive.color;
    Some(HitRow {
        depth: hit.depth,
        shape: primitive.shape,
        color,
        opacity: primitive.opacity,
    })
}

/// The blend with one more hit, where that has anything to show.
fn blend_any(lighting: &Lighting, ray: &Ray, row: Option<HitRow>, blend: &mut Blend)
    requires lighting { IsLightingWithin lighting.now }
    requires ray { IsRayWithin ray.now }
    requires row { ForSome row IsHitRowWithin }
    requires blend { IsBlendWithin blend.old }
    ensures value { blend.new ≡ blend_any lighting.now ray.now blend.old row }
    ensures size { IsBlendWithin blend.new }
{
    if let Some(row) = row {
        blend_hit(lighting, ray, &row, blend);
    }
}

/// The four colour bytes of what a ray shows.
pub fn shade(primitives: &[Primitive], lighting: &Lighting, ray: &Ray) -> [u8; 4]
    requires primitives { All IsPrimitiveWithin primitives.now }
    requires lighting { IsLightingWithin lighting.now }
    requires ray { IsRayWithin ray.now }
    ensures { result ≡ shade primitives.now lighting.now ray.now }
{
    let mut blend = Blend {
        sum: [0; 3],
        rest: 65536,
    };
    let mut next = nearest(ray, primitives);
    for _ in primitives {
        let Some(hit) = next else { break };
        blend_any(lighting, ray, hit_row(primitives, &hit), &mut blend);
        if blend.rest == 0 {
            // Nothing shows behind what lets no light through.
            return finish_blend(lighting, &blend);
        }
        next = hit_after(ray, primitives, &hit);
    }
    finish_blend(lighting, &blend)
}

/// The primitive that the ray meets first.
fn front(primitives: &[Primitive], ray: &Ray) -> Option<Primitive>
    requires primitives { All IsPrimitiveWithin primitives.now }
    requires ray { IsRayWithin ray.now }
    ensures { result ≡ front primitives.now ray.now }
{
    let hit = nearest(ray, primitives)?;
    primitive_at(primitives, &hit.place)
}

/// An id, lowest byte first, where there may be none.
pub fn id_bytes(id: Option<u32>) -> [u8; 4]
    ensures { result ≡ id_bytes id }
{
    id.unwrap_or(NO_ID).to_le_bytes()
}

/// The four bytes of pixel (`x`, `y`), counted from the lower left.
#[tactic(auto, unfolding(crate::specs::Pictures::pixel))]
pub fn pixel(scene: &Scene, plane: Plane, x: u32, y: u32) -> [u8; 4]
    requires scene { IsSceneWithin scene.now }
    requires column { x < scene.now.width }
    requires row { y < scene.now.height }
    ensures { result ≡ pixel scene.now plane x y }
{
    let ray = camera_ray(&scene.camera, scene.width, scene.height, x, y);
    let primitives = scene.primitives.as_slice();
    match plane {
        Plane::Color => shade(primitives, &scene.lighting, &ray),
        Plane::PrimitiveId => id_bytes(front(primitives, &ray).map(|p| p.place.prim)),
        Plane::ObjectId => id_bytes(front(primitives, &ray).map(|p| p.object_id)),
        Plane::InstanceId => id_bytes(front(primitives, &ray).map(|p| p.instance_id)),
    }
}

/// Adds the pixels of row `y` of a rectangle.
fn push_row(
    out: &mut Vec<u8>,
    scene: &Scene,
    plane: Plane,
    rect: &Rect,
    y: u32,
) -> Result<(), AllocError>
    requires scene { IsSceneWithin scene.now }
    requires column { rect.now.x0 + rect.now.w ≤ scene.now.width }
    requires row { y < scene.now.height }
    ensures { OnOk result (out.new.items ≡ out.old.items ++ row_of (pixel scene.now plane) rect.now y) }
{
    for x in rect.x0..rect.x0 + rect.w {
        out.extend_from_slice(&pixel(scene, plane, x, y))?;
    }
    Ok(())
}

/// The pixels of a rectangle of a picture by rows from its lower left one, four bytes each. The only error is want of memory.
fn pixels_in(alloc: Global, scene: &Scene, plane: Plane, rect: &Rect) -> Result<Vec<u8>, AllocError>
    requires scene { IsSceneWithin scene.now }
    requires columns { rect.now.x0 + rect.now.w ≤ scene.now.width }
    requires rows { rect.now.y0 + rect.now.h ≤ scene.now.height }
    ensures { IfOk result (λ bytes. bytes.items ≡ pixels_in (pixel scene.now plane) rect.now) }
{
    let mut out = Vec::new(alloc);
    for y in rect.y0..rect.y0 + rect.h {
        push_row(&mut out, scene, plane, rect, y)?;
    }
    Ok(out)
}

/// One picture of a scene: four bytes a pixel, by rows from the lower left. The only error is want of memory.
#[tactic(auto, unfolding(crate::specs::Pictures::picture))]
pub fn picture(alloc: Global, scene: &Scene, plane: Plane) -> Result<Vec<u8>, AllocError>
    requires { IsSceneWithin scene.now }
    ensures { IfOk result (λ bytes. bytes.items ≡ picture scene.now plane) }
{
    let whole = Rect {
        x0: 0,
        y0: 0,
        w: scene.width,
        h: scene.height,
    };
    pixels_in(alloc, scene, plane, &whole)
}

/// The part of a picture that a tile shows. The only error is want of memory.
#[tactic(auto, unfolding(crate::specs::Pictures::part))]
pub fn part(alloc: Global, scene: &Scene, plane: Plane, tile: u32) -> Result<Vec<u8>, AllocError>
    requires scene { IsSceneWithin scene.now }
    requires tile { tile < tile_count scene.now.width scene.now.height }
    ensures { IfOk result (λ bytes. bytes.items ≡ part scene.now plane tile) }
{
    let rect = tile_rect(scene.width, scene.height, tile);
    pixels_in(alloc, scene, plane, &rect)
}
