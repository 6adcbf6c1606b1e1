ghost use Rattle.std.specs.Prelude.{◌≡◌, ◌*◌, ◌/◌, ◌^◌, ◌<◌, ◌≤◌, pos, ◌≤ℤ◌, unsigned_abs};
ghost use Rattle.picture_model.specs.Limits.{IsBetween, IsBlendWithin, IsColor, IsHitRowWithin, IsLightingWithin, IsRayWithin};
ghost use Rattle.picture_model.specs.Shading.{blend_hit, finish_blend, to_byte, weight};
ghost use Rattle.shade_core.specs.Blends.{IsBlendUpTo};

use crate::lights::{component, incoming};
use crate::surfaces::surface_at;
use fx_math::{Lighting, Ray};
use picture_model::{Blend, HitRow, weight};

/// Adds a hit behind those that the blend has: it takes its share, by its opacity, of what still shows, and gives that share of
/// the light that comes back from it (ANARI 1.0 Specification, Light and Material).
///
/// There are at most 256 lights, no number of the lighting or colour of the hit is negative, the opacity is at most 65536. Each
/// sum of the blend is from 0 to 2^100. Blends that begin with nothing gathered stay far below that.
pub fn blend_hit(lighting: &Lighting, ray: &Ray, hit: &HitRow, b: &mut Blend)
    requires lighting { IsLightingWithin lighting.now }
    requires ray { IsRayWithin ray.now }
    requires hit { IsHitRowWithin hit.now }
    requires room { IsBlendUpTo (2 ^ 100) b.old }
    ensures value { b.new ≡ blend_hit lighting.now ray.now b.old hit.now }
    ensures size { IsBlendUpTo (2 ^ 101) b.new }
    ensures within { IsBlendWithin b.old → IsBlendWithin b.new }
{
    let light = incoming(lighting, &surface_at(ray, hit));
    let taken = weight(b.rest, hit.opacity);
    b.sum = [
        b.sum[0] + returned(component(&hit.color, 0), light.red, taken),
        b.sum[1] + returned(component(&hit.color, 1), light.green, taken),
        b.sum[2] + returned(component(&hit.color, 2), light.blue, taken),
    ];
    b.rest -= taken;
}

/// The share `taken` of the light of one colour that comes back from a surface.
fn returned(color: u64, light: u64, taken: u32) -> i128
    requires color { color < 2 ^ 31 }
    requires light { light ≤ 2 ^ 57 }
    requires taken { taken ≤ 65536 }
    ensures value { result ≡ pos (color * light / 65536 * taken / 65536) }
    ensures size { unsigned_abs result * 65536 ≤ 2 ^ 72 * taken }
{
    let radiance = color as u128 * light as u128 >> 16;
    (radiance * taken as u128 >> 16) as i128
}

/// The byte of a colour component that is not negative, 65536 for one: 255 times it, rounded, and 255 from one on.
#[tactic(auto, unfolding(picture_model::specs::Shading::to_byte))]
pub fn to_byte(radiance: i128) -> u8
    requires { pos 0 ≤ℤ radiance }
    ensures { result ≡ to_byte radiance }
{
    if radiance >= 65536 {
        return 255;
    }
    ((radiance as u64 * 255 + 32768) >> 16) as u8
}

/// Red, green, blue and alpha of a pixel, with the background behind the last hit. Each sum of the blend is from 0 to 2^101.
pub fn finish_blend(lighting: &Lighting, b: &Blend) -> [u8; 4]
    requires background { IsColor lighting.now.background }
    requires room { IsBlendUpTo (2 ^ 101) b.now }
    ensures { result ≡ finish_blend lighting.now b.now }
{
    [
        to_byte(b.sum[0] + behind(component(&lighting.background, 0), b.rest)),
        to_byte(b.sum[1] + behind(component(&lighting.background, 1), b.rest)),
        to_byte(b.sum[2] + behind(component(&lighting.background, 2), b.rest)),
        to_byte(65536 - b.rest as i128),
    ]
}

/// What still shows of one colour of the background.
fn behind(color: u64, rest: u32) -> i128
    requires color { color < 2 ^ 31 }
    requires rest { rest ≤ 65536 }
    ensures value { result ≡ pos (color * rest / 65536) }
    ensures size { unsigned_abs result ≤ 2 ^ 31 }
{
    (color * rest as u64 >> 16) as i128
}
