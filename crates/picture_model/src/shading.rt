ghost use Rattle.std.specs.Prelude.{◌≡◌, ◌-◌, ◌*◌, ◌^◌, ◌<◌, ◌≤◌, pos, ◌≤ℤ◌, unsigned_abs};
ghost use Rattle.fx_math.specs.Vec3.{reach};
ghost use Rattle.picture_model.specs.Fixed.{product};
ghost use Rattle.picture_model.specs.Limits.{IsBetween, IsBlendWithin, IsColor, IsHitRowWithin, IsLightWithin, IsLightingWithin, IsRayWithin, IsShapeWithin, IsSumWithin};
ghost use Rattle.picture_model.specs.Shading.{blend_hit, blended, color_of, component, cosine, faded, facing, finish_blend, incoming, irradiance_at, normal_of, point_at, radiance, share_of, shown, to_byte, towards, weight};

use crate::records::{Blend, HitRow};
use fx_math::{
    LightRow, Lighting, Ray, Shape, Vec3, add, cross, dot, neg, scaled_down, sub, times, unit,
};

/// The product of two numbers that are not negative and count 1/65536, rounded down.
fn product(a: i128, b: i128) -> i128
    requires first { pos 0 ≤ℤ a }
    requires second { pos 0 ≤ℤ b }
    requires room { unsigned_abs a * unsigned_abs b < 2 ^ 120 }
    ensures value { result ≡ product a b }
    ensures sign { pos 0 ≤ℤ result }
    ensures size { 65536 * unsigned_abs result ≤ unsigned_abs a * unsigned_abs b }
{
    a * b >> 16
}

/// Component `i` of a colour: red, green, blue.
fn component(color: &[i32; 3], i: usize) -> i128
    requires index { i < 3 }
    requires color { IsColor color.now }
    ensures value { result ≡ component color.now i }
    ensures size { IsBetween 0 (2 ^ 31) result }
{
    color[i] as i128
}

/// The point of the ray at a depth number.
pub fn point_at(ray: &Ray, depth: u64) -> Vec3
    requires ray { IsRayWithin ray.now }
    requires near { depth ≤ 2 ^ 32 }
    ensures value { result ≡ point_at ray.now depth }
    ensures size { reach result ≤ 2 ^ 42 }
{
    add(ray.o, scaled_down(times(ray.d, depth as i64)))
}

/// The unit normal of a shape at one of its points, on either of its sides.
pub fn normal_of(shape: &Shape, point: Vec3) -> Vec3
    requires shape { IsShapeWithin shape.now }
    requires point { reach point ≤ 2 ^ 42 }
    ensures value { result ≡ normal_of shape.now point }
    ensures size { reach result ≤ 65536 }
{
    match *shape {
        Shape::Triangle(a, b, c) => unit(cross(sub(b, a), sub(c, a))),
        Shape::Sphere(centre, _) => unit(sub(point, centre)),
    }
}

/// The same normal on the side that the ray comes from.
pub fn facing(ray: &Ray, normal: Vec3) -> Vec3
    requires ray { IsRayWithin ray.now }
    requires normal { reach normal ≤ 65536 }
    ensures value { result ≡ facing ray.now normal }
    ensures size { reach result ≤ 65536 }
{
    if dot(normal, ray.d) > 0 {
        neg(normal)
    } else {
        normal
    }
}

/// The unit direction from a point to a light.
fn towards(light: &LightRow, point: Vec3) -> Vec3
    requires light { IsLightWithin light.now }
    requires point { reach point ≤ 2 ^ 42 }
    ensures value { result ≡ towards light.now point }
    ensures size { reach result ≤ 65536 }
{
    match *light {
        LightRow::Directional { direction, .. } => unit(neg(direction)),
        LightRow::Point { position, .. } => unit(sub(position, point)),
    }
}

/// What a point light of this intensity shines with from this far.
fn faded(intensity: i32, way: Vec3) -> i128
    requires intensity { pos 0 ≤ℤ intensity }
    requires way { reach way ≤ 2 ^ 43 }
    ensures value { result ≡ faded intensity way }
    ensures size { IsBetween 0 (2 ^ 31) result }
{
    let squared = dot(way, way).unsigned_abs();
    if squared == 0 {
        return 0;
    }
    let bright = intensity.unsigned_abs() as u128 * 0x1_0000_0000;
    (bright / squared).min(0x7FFF_FFFF) as i128
}

/// How strongly a light shines at a point.
fn irradiance_at(light: &LightRow, point: Vec3) -> i128
    requires light { IsLightWithin light.now }
    requires point { reach point ≤ 2 ^ 42 }
    ensures value { result ≡ irradiance_at light.now point }
    ensures size { IsBetween 0 (2 ^ 31) result }
{
    match *light {
        LightRow::Directional { irradiance, .. } => irradiance as i128,
        LightRow::Point {
            position,
            intensity,
            ..
        } => faded(intensity, sub(position, point)),
    }
}

/// The colour of a light.
#[tactic(auto, unfolding(crate::specs::Shading::color_of))]
fn color_of(light: &LightRow) -> [i32; 3]
    requires { IsLightWithin light.now }
    ensures value { result ≡ color_of light.now }
    ensures size { IsColor result }
{
    match *light {
        LightRow::Directional { color, .. } => color,
        LightRow::Point { color, .. } => color,
    }
}

/// The cosine of the angle between two unit directions, and 0 where they point apart.
fn cosine(normal: Vec3, direction: Vec3) -> i128
    requires normal { reach normal ≤ 65536 }
    requires direction { reach direction ≤ 65536 }
    ensures value { result ≡ cosine normal direction }
    ensures size { IsBetween 0 (2 ^ 18) result }
{
    let along = dot(normal, direction);
    if along <= 0 { 0 } else { along >> 16 }
}

/// Component `i` of the light of one lamp that a surface with this normal takes in at a point.
fn share_of(i: usize, normal: Vec3, point: Vec3, light: &LightRow) -> i128
    requires index { i < 3 }
    requires normal { reach normal ≤ 65536 }
    requires point { reach point ≤ 2 ^ 42 }
    requires light { IsLightWithin light.now }
    ensures value { result ≡ share_of i normal point light.now }
    ensures size { IsBetween 0 (2 ^ 48) result }
{
    let shining = product(component(&color_of(light), i), irradiance_at(light, point));
    product(shining, cosine(normal, towards(light, point)))
}

/// Component `i` of the light that is everywhere, and of all lamps.
fn incoming(i: usize, lighting: &Lighting, normal: Vec3, point: Vec3) -> i128
    requires index { i < 3 }
    requires lighting { IsLightingWithin lighting.now }
    requires normal { reach normal ≤ 65536 }
    requires point { reach point ≤ 2 ^ 42 }
    ensures value { result ≡ incoming i lighting.now normal point }
    ensures size { IsBetween 0 (2 ^ 57) result }
{
    let mut sum = product(
        component(&lighting.ambient_color, i),
        lighting.ambient_radiance as i128,
    );
    for k in 0..lighting.lights.len() {
        sum += share_of(i, normal, point, lighting.lights.get(k));
    }
    sum
}

/// Component `i` of the light that comes back from a hit.
fn radiance(i: usize, lighting: &Lighting, ray: &Ray, row: &HitRow) -> i128
    requires index { i < 3 }
    requires lighting { IsLightingWithin lighting.now }
    requires ray { IsRayWithin ray.now }
    requires row { IsHitRowWithin row.now }
    ensures value { result ≡ radiance i lighting.now ray.now row.now }
    ensures size { IsBetween 0 (2 ^ 72) result }
{
    let point = point_at(ray, row.depth);
    let normal = facing(ray, normal_of(&row.shape, point));
    product(
        component(&row.color, i),
        incoming(i, lighting, normal, point),
    )
}

/// The share of what still shows that a hit takes for itself.
#[tactic(auto, unfolding(crate::specs::Shading::weight))]
pub fn weight(rest: u32, opacity: i32) -> u32
    requires rest { rest ≤ 65536 }
    requires opacity { IsBetween 0 65536 opacity }
    ensures value { result ≡ weight rest opacity }
    ensures size { result ≤ rest }
{
    (rest as u64 * opacity.unsigned_abs() as u64 >> 16) as u32
}

/// Component `i` of the light gathered with one more hit.
fn blended(i: usize, lighting: &Lighting, ray: &Ray, blend: &Blend, row: &HitRow) -> i128
    requires index { i < 3 }
    requires lighting { IsLightingWithin lighting.now }
    requires ray { IsRayWithin ray.now }
    requires row { IsHitRowWithin row.now }
    requires sum { IsSumWithin (component blend.now.sum i) blend.now.rest }
    requires rest { blend.now.rest ≤ 65536 }
    ensures value { result ≡ blended i lighting.now ray.now blend.now row.now }
    ensures size { IsSumWithin result (blend.now.rest - weight blend.now.rest row.now.opacity) }
{
    let taken = weight(blend.rest, row.opacity);
    blend.sum[i] + product(radiance(i, lighting, ray, row), taken as i128)
}

/// The blend with one more hit behind those that it has.
pub fn blend_hit(lighting: &Lighting, ray: &Ray, row: &HitRow, blend: &mut Blend)
    requires lighting { IsLightingWithin lighting.now }
    requires ray { IsRayWithin ray.now }
    requires row { IsHitRowWithin row.now }
    requires blend { IsBlendWithin blend.old }
    ensures value { blend.new ≡ blend_hit lighting.now ray.now blend.old row.now }
    ensures size { IsBlendWithin blend.new }
{
    blend.sum = [
        blended(0, lighting, ray, blend, row),
        blended(1, lighting, ray, blend, row),
        blended(2, lighting, ray, blend, row),
    ];
    blend.rest -= weight(blend.rest, row.opacity);
}

/// The byte of a colour component that is not negative: 255 from one on.
#[tactic(auto, unfolding(crate::specs::Shading::to_byte))]
pub fn to_byte(radiance: i128) -> u8
    requires { pos 0 ≤ℤ radiance }
    ensures { result ≡ to_byte radiance }
{
    let shown = radiance.unsigned_abs().min(65536);
    ((shown * 255 + 32768) / 65536).min(255) as u8
}

/// Component `i` of what a pixel shows: the light gathered, and the background behind the last hit.
fn shown(i: usize, lighting: &Lighting, blend: &Blend) -> i128
    requires index { i < 3 }
    requires lighting { IsLightingWithin lighting.now }
    requires sum { IsSumWithin (component blend.now.sum i) blend.now.rest }
    requires rest { blend.now.rest ≤ 65536 }
    ensures value { result ≡ shown i lighting.now blend.now }
    ensures sign { pos 0 ≤ℤ result }
{
    blend.sum[i] + product(component(&lighting.background, i), blend.rest as i128)
}

/// Red, green, blue and alpha, with the background behind the last hit.
pub fn finish_blend(lighting: &Lighting, blend: &Blend) -> [u8; 4]
    requires lighting { IsLightingWithin lighting.now }
    requires blend { IsBlendWithin blend.now }
    ensures { result ≡ finish_blend lighting.now blend.now }
{
    [
        to_byte(shown(0, lighting, blend)),
        to_byte(shown(1, lighting, blend)),
        to_byte(shown(2, lighting, blend)),
        to_byte(65536 - blend.rest as i128),
    ]
}
