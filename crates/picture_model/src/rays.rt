ghost use Rattle.std.specs.Prelude.{◌≡◌, ◌+◌, ◌*◌, ◌/◌, ◌^◌, ◌<◌, ◌≤◌, ◌*ℤ◌, unsigned_abs};
ghost use Rattle.fx_math.specs.Vec3.{reach};
ghost use Rattle.picture_model.specs.Limits.{AreAxesWithin, IsBetween, IsCameraWithin, IsRayWithin, IsSide};
ghost use Rattle.picture_model.specs.Rays.{across, axes_of, camera_ray, in_window, off_middle, offset};

use fx_math::{CameraRow, Ray, Vec3, add, cross, scaled_down, times, unit};

/// The three directions of a camera, at right angles to each other, each 65536 long.
#[derive(Clone, Copy, Debug, PartialEq, Eq)]
pub struct Axes {
    pub forward: Vec3,
    pub right: Vec3,
    pub up: Vec3,
}

/// The axes of a camera that looks along `direction`, with `up` as near to its picture's up as may be.
pub fn axes_of(direction: Vec3, up: Vec3) -> Axes
    requires direction { reach direction ≤ 2 ^ 31 }
    requires up { reach up ≤ 2 ^ 31 }
    ensures value { result ≡ axes_of direction up }
    ensures size { AreAxesWithin result }
{
    let forward = unit(direction);
    let right = unit(cross(forward, up));
    Axes {
        forward,
        right,
        up: unit(cross(right, forward)),
    }
}

/// How far the middle of pixel `i` lies from the middle of a row of `n` pixels, in half pixels.
fn off_middle(n: u32, i: u32) -> i64
    requires row { n ≤ 4096 }
    requires pixel { i < n }
    ensures value { result ≡ off_middle n i }
    ensures size { unsigned_abs result ≤ n }
{
    2 * i as i64 + 1 - n as i64
}

/// A length made wider by the aspect.
fn widened(length: i32, aspect: i32) -> i64
    requires length { unsigned_abs length ≤ 2 ^ 26 }
    requires aspect { unsigned_abs aspect ≤ 2 ^ 20 }
    ensures { result ≡ length *ℤ aspect }
{
    length as i64 * aspect as i64
}

/// The same in a row that reaches `extent / unit` to either side of its middle.
fn offset(extent: i64, unit: u32, n: u32, i: u32) -> i64
    requires extent { unsigned_abs extent ≤ 2 ^ 46 }
    requires unit_least { 1 ≤ unit }
    requires unit_most { unit ≤ 131072 }
    requires row { n ≤ 4096 }
    requires pixel { i < n }
    ensures value { result ≡ offset extent unit n i }
    ensures size { unsigned_abs result ≤ unsigned_abs extent / unit + 1 }
{
    (extent * off_middle(n, i)).div_euclid(unit as i64 * n as i64)
}

/// `sx` to the right and `sy` up in the picture's plane.
pub fn across(axes: &Axes, sx: i64, sy: i64) -> Vec3
    requires axes { AreAxesWithin axes.now }
    requires right { unsigned_abs sx ≤ 2 ^ 31 }
    requires up { unsigned_abs sy ≤ 2 ^ 31 }
    ensures value { result ≡ across axes.now sx sy }
    ensures size { reach result ≤ unsigned_abs sx + unsigned_abs sy }
{
    scaled_down(add(times(axes.right, sx), times(axes.up, sy)))
}

/// The way from the middle of a window to pixel (`x`, `y`): the window reaches `length / unit` up and down, and times the aspect
/// sideways.
fn in_window(
    axes: &Axes,
    length: i32,
    aspect: i32,
    unit: u32,
    w: u32,
    h: u32,
    x: u32,
    y: u32,
) -> Vec3
    requires axes { AreAxesWithin axes.now }
    requires length { IsBetween 1 (2 ^ 26) length }
    requires aspect { IsBetween 1 (2 ^ 20) aspect }
    requires unit_least { 1 ≤ unit }
    requires unit_most { unit ≤ 2 }
    requires width { IsSide w }
    requires height { IsSide h }
    requires column { x < w }
    requires row { y < h }
    ensures value { result ≡ in_window axes.now length aspect unit w h x y }
    ensures size { reach result ≤ 16 * unsigned_abs length / unit + unsigned_abs length / unit + 2 }
{
    let right = offset(widened(length, aspect), 65536 * unit, w, x);
    let up = offset(length as i64, unit, h, y);
    across(axes, right, up)
}

/// The ray of pixel (`x`, `y`) in a frame of `w` by `h` pixels, of which (0, 0) is the lower left one
/// (ANARI 1.0 Specification, Camera).
pub fn camera_ray(camera: &CameraRow, w: u32, h: u32, x: u32, y: u32) -> Ray
    requires camera { IsCameraWithin camera.now }
    requires width { IsSide w }
    requires height { IsSide h }
    requires column { x < w }
    requires row { y < h }
    ensures value { result ≡ camera_ray camera.now w h x y }
    ensures size { IsRayWithin result }
{
    match *camera {
        CameraRow::Orthographic {
            position,
            direction,
            up,
            aspect,
            height,
        } => {
            let axes = axes_of(direction, up);
            Ray {
                o: add(position, in_window(&axes, height, aspect, 2, w, h, x, y)),
                d: axes.forward,
            }
        }
        CameraRow::Perspective {
            position,
            direction,
            up,
            aspect,
            tan_half_fovy,
        } => {
            let axes = axes_of(direction, up);
            Ray {
                o: position,
                d: add(
                    axes.forward,
                    in_window(&axes, tan_half_fovy, aspect, 1, w, h, x, y),
                ),
            }
        }
    }
}
