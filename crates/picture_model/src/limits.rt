ghost use Rattle.std.specs.Prelude.{◌≡◌, ◌^◌, ◌≤◌, ◌↔◌, IsTrue, All, ℕ};
ghost use Rattle.fx_math.specs.Vec3.{reach};
ghost use Rattle.picture_model.specs.Limits.{IsBetween, IsCameraWithin, IsColor, IsLampWithin, IsLightWithin, IsLightingWithin, IsPoint, IsPrimitiveWithin, IsSceneWithin, IsShapeWithin, IsSide, IsViewWithin};

use fx_math::{CameraRow, LightRow, Lighting, Primitive, Scene, Shape, Vec3, reach};

/// A whole number lies from `low` to `high`.
fn is_between(low: u32, high: u32, number: i64) -> bool
    ensures { IsTrue result ↔ IsBetween low high number }
{
    low as i64 <= number && number <= high as i64
}

fn is_color(color: &[i32; 3]) -> bool
    ensures { IsTrue result ↔ IsColor color.now }
{
    color.iter().all(|component| *component >= 0)
}

fn is_point(point: Vec3) -> bool
    ensures { IsTrue result ↔ IsPoint point }
{
    reach(point) <= 1 << 28
}

fn is_shape_within(shape: &Shape) -> bool
    ensures { IsTrue result ↔ IsShapeWithin shape.now }
{
    match *shape {
        Shape::Triangle(a, b, c) => is_point(a) && is_point(b) && is_point(c),
        Shape::Sphere(centre, radius) => is_point(centre) && is_between(0, 1 << 28, radius),
    }
}

fn is_primitive_within(primitive: &Primitive) -> bool
    ensures { IsTrue result ↔ IsPrimitiveWithin primitive.now }
{
    is_shape_within(&primitive.shape)
        && is_color(&primitive.color)
        && is_between(0, 65536, primitive.opacity as i64)
}

/// Position, direction, up, aspect and height or tangent of a camera.
fn is_view_within(
    position: Vec3,
    direction: Vec3,
    up: Vec3,
    aspect: i32,
    extent: i32,
    most: u32,
) -> bool
    ensures { IsTrue result ↔ IsViewWithin position direction up aspect extent most }
{
    if !is_point(position) || reach(direction) > 1 << 31 || reach(up) > 1 << 31 {
        return false;
    }
    is_between(1, 1 << 20, aspect as i64) && is_between(1, most, extent as i64)
}

fn is_camera_within(camera: &CameraRow) -> bool
    ensures { IsTrue result ↔ IsCameraWithin camera.now }
{
    match *camera {
        CameraRow::Orthographic {
            position,
            direction,
            up,
            aspect,
            height,
        } => is_view_within(position, direction, up, aspect, height, 1 << 26),
        CameraRow::Perspective {
            position,
            direction,
            up,
            aspect,
            tan_half_fovy,
        } => is_view_within(position, direction, up, aspect, tan_half_fovy, 1 << 20),
    }
}

fn is_lamp_within(origin: Vec3, most: u64, color: &[i32; 3], strength: i32) -> bool
    ensures { IsTrue result ↔ IsLampWithin origin most color.now strength }
{
    reach(origin) <= most && is_color(color) && strength >= 0
}

fn is_light_within(light: &LightRow) -> bool
    ensures { IsTrue result ↔ IsLightWithin light.now }
{
    match *light {
        LightRow::Directional {
            direction,
            color,
            irradiance,
        } => is_lamp_within(direction, 1 << 48, &color, irradiance),
        LightRow::Point {
            position,
            color,
            intensity,
        } => is_lamp_within(position, 1 << 28, &color, intensity),
    }
}

fn are_lights_within(lighting: &Lighting) -> bool
    ensures { IsTrue result ↔ All IsLightWithin lighting.now.lights }
{
    for k in 0..lighting.lights.len() {
        if !is_light_within(lighting.lights.get(k)) {
            return false;
        }
    }
    true
}

fn is_lighting_within(lighting: &Lighting) -> bool
    ensures { IsTrue result ↔ IsLightingWithin lighting.now }
{
    lighting.lights.len() <= 256
        && are_lights_within(lighting)
        && is_color(&lighting.background)
        && is_color(&lighting.ambient_color)
        && lighting.ambient_radiance >= 0
}

fn is_side(n: u32) -> bool
    ensures { IsTrue result ↔ IsSide n }
{
    1 <= n && n <= 4096
}

/// The test of the condition under which pictures are made: coordinates within 2^28, radii from 0 to 2^28, colours and strengths not
/// negative, opacities up to 65536, at most 256 lights, sides from 1 to 4096, and the ranges of the camera.
pub fn is_scene_within(scene: &Scene) -> bool
    ensures { IsTrue result ↔ IsSceneWithin scene.now }
{
    scene.primitives.as_slice().iter().all(is_primitive_within)
        && is_camera_within(&scene.camera)
        && is_lighting_within(&scene.lighting)
        && is_side(scene.width)
        && is_side(scene.height)
}
