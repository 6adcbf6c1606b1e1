ghost use Rattle.std.specs.Prelude.{◌≡◌, ◌+◌, ◌*◌, ◌/◌, ◌^◌, ◌<◌, ◌≤◌, pos, ◌+ℤ◌, ◌≤ℤ◌};
ghost use Rattle.fx_math.specs.Vec3.{reach};
ghost use Rattle.picture_model.specs.Fixed.{product};
ghost use Rattle.picture_model.specs.Limits.{IsColor, IsLightWithin, IsLightingWithin};
ghost use Rattle.picture_model.specs.Shading.{color_of, component, cosine, faded, incoming, irradiance_at, share_of, towards};
ghost use Rattle.shade_core.specs.Lights.{IsLight, IsLightUpTo};

use crate::surfaces::Surface;
use fx_math::{LightRow, Lighting, Vec3, dot, neg, sub, unit};

/// Red, green and blue of light, each 65536 for one.
#[derive(Clone, Copy)]
pub(crate) struct Light {
    pub(crate) red: u64,
    pub(crate) green: u64,
    pub(crate) blue: u64,
}

/// A lamp as a point sees it: its colour, how strongly it shines there, and the unit direction to it.
#[derive(Clone, Copy)]
struct Lamp {
    color: [i32; 3],
    strength: u64,
    direction: Vec3,
}

/// All light that a surface takes in: what is everywhere, and that of all lamps.
pub(crate) fn incoming(lighting: &Lighting, surface: &Surface) -> Light
    requires lighting { IsLightingWithin lighting.now }
    requires point { reach surface.now.point ≤ 2 ^ 42 }
    requires normal { reach surface.now.normal ≤ 65536 }
    ensures value { IsLight (λ i. incoming i lighting.now surface.now.normal surface.now.point) result }
    ensures size { IsLightUpTo (2 ^ 57) result }
{
    let mut sum = ambient(lighting);
    for k in 0..lighting.lights.len() {
        sum = with_lamp(&sum, lighting.lights.get(k), surface);
    }
    sum
}

/// The light that is everywhere.
fn ambient(lighting: &Lighting) -> Light
    requires { IsLightingWithin lighting.now }
    ensures value { IsLight (λ i. product (component lighting.now.ambient_color i) lighting.now.ambient_radiance) result }
    ensures size { IsLightUpTo (2 ^ 46) result }
{
    let radiance = lighting.ambient_radiance.unsigned_abs() as u64;
    Light {
        red: product(component(&lighting.ambient_color, 0), radiance),
        green: product(component(&lighting.ambient_color, 1), radiance),
        blue: product(component(&lighting.ambient_color, 2), radiance),
    }
}

/// The light `sum` and that of one more lamp.
fn with_lamp(sum: &Light, light: &LightRow, surface: &Surface) -> Light
    requires sum { IsLightUpTo (2 ^ 57) sum.now }
    requires light { IsLightWithin light.now }
    requires point { reach surface.now.point ≤ 2 ^ 42 }
    requires normal { reach surface.now.normal ≤ 65536 }
    ensures red { pos result.red ≡ pos sum.now.red +ℤ share_of 0 surface.now.normal surface.now.point light.now }
    ensures green { pos result.green ≡ pos sum.now.green +ℤ share_of 1 surface.now.normal surface.now.point light.now }
    ensures blue { pos result.blue ≡ pos sum.now.blue +ℤ share_of 2 surface.now.normal surface.now.point light.now }
    ensures red_size { result.red ≤ sum.now.red + 2 ^ 48 }
    ensures green_size { result.green ≤ sum.now.green + 2 ^ 48 }
    ensures blue_size { result.blue ≤ sum.now.blue + 2 ^ 48 }
{
    let lamp = lamp_at(light, surface.point);
    let along = cosine(surface.normal, lamp.direction);
    Light {
        red: sum.red + share(component(&lamp.color, 0), lamp.strength, along),
        green: sum.green + share(component(&lamp.color, 1), lamp.strength, along),
        blue: sum.blue + share(component(&lamp.color, 2), lamp.strength, along),
    }
}

/// What a surface takes in of one colour of a lamp that stands at this cosine.
fn share(color: u64, strength: u64, cosine: u64) -> u64
    requires color { color < 2 ^ 31 }
    requires strength { strength < 2 ^ 31 }
    requires cosine { cosine < 2 ^ 18 }
    ensures value { result ≡ color * strength / 65536 * cosine / 65536 }
    ensures size { result ≤ 2 ^ 48 }
{
    product(product(color, strength), cosine)
}

/// The product of two numbers that count 1/65536, rounded down.
fn product(a: u64, b: u64) -> u64
    requires { a * b < 2 ^ 64 }
    ensures { result ≡ a * b / 65536 }
{
    a * b >> 16
}

/// Component `i` of a colour: red, green, blue.
pub(crate) fn component(color: &[i32; 3], i: usize) -> u64
    requires index { i < 3 }
    requires color { IsColor color.now }
    ensures value { pos result ≡ component color.now i }
    ensures size { result < 2 ^ 31 }
{
    color[i].unsigned_abs() as u64
}

/// The lamp of a light as a point sees it.
fn lamp_at(light: &LightRow, point: Vec3) -> Lamp
    requires light { IsLightWithin light.now }
    requires point { reach point ≤ 2 ^ 42 }
    ensures color { result.color ≡ color_of light.now }
    ensures strength { pos result.strength ≡ irradiance_at light.now point }
    ensures direction { result.direction ≡ towards light.now point }
    ensures color_sign { IsColor result.color }
    ensures strength_size { result.strength < 2 ^ 31 }
    ensures direction_size { reach result.direction ≤ 65536 }
{
    match *light {
        LightRow::Directional {
            direction,
            color,
            irradiance,
        } => Lamp {
            color,
            strength: irradiance.unsigned_abs() as u64,
            direction: unit(neg(direction)),
        },
        LightRow::Point {
            position,
            color,
            intensity,
        } => {
            let way = sub(position, point);
            Lamp {
                color,
                strength: faded(intensity, way),
                direction: unit(way),
            }
        }
    }
}

/// What a point light of this intensity shines with from this far.
fn faded(intensity: i32, way: Vec3) -> u64
    requires intensity { pos 0 ≤ℤ intensity }
    requires way { reach way ≤ 2 ^ 43 }
    ensures value { pos result ≡ faded intensity way }
    ensures size { result < 2 ^ 31 }
{
    let bright = intensity.unsigned_abs() as u64 * 0x1_0000_0000;
    let squared = dot(way, way).unsigned_abs();
    if squared == 0 || squared > bright as u128 {
        return 0;
    }
    (bright / squared as u64).min(0x7FFF_FFFF)
}

/// The cosine of the angle between two unit directions, and 0 where they point apart.
fn cosine(normal: Vec3, direction: Vec3) -> u64
    requires normal { reach normal ≤ 65536 }
    requires direction { reach direction ≤ 65536 }
    ensures value { pos result ≡ cosine normal direction }
    ensures size { result < 2 ^ 18 }
{
    let along = dot(normal, direction);
    if along <= 0 {
        0
    } else {
        along.unsigned_abs() as u64 >> 16
    }
}
