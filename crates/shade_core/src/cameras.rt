ghost use Rattle.std.specs.Prelude.{◌≡◌, ◌+◌, ◌*◌, ◌^◌, ◌<◌, ◌≤◌, unsigned_abs};
ghost use Rattle.fx_math.specs.Vec3.{reach};
ghost use Rattle.picture_model.specs.Limits.{AreAxesWithin, IsCameraWithin, IsRayWithin, IsSide};
ghost use Rattle.picture_model.specs.Rays.{across, axes_of, camera_ray};
ghost use Rattle.shade_core.specs.Frames.{IsLensWithin, IsSpanWithin, lens_of, offset_in, reach_of, right_span, up_span};

use fx_math::{CameraRow, Ray, Vec3, add};
use picture_model::{Axes, across, axes_of};
use std::marker::Model;

/// The numbers of a camera without its position: the window of its picture reaches `length / unit` up and down, and times the
/// aspect sideways.
#[derive(Clone, Copy, Debug)]
struct Lens {
    direction: Vec3,
    up: Vec3,
    aspect: i32,
    length: i32,
    unit: u32,
}

/// A row of pixels over the window of a picture: the middle of pixel `i` lies `extent * (2 i + 1 - pixels) / divisor` from the
/// middle of the window.
#[derive(Clone, Copy, Debug)]
struct Span {
    extent: i64,
    divisor: u32,
    pixels: u32,
}

/// A camera with all that its rays in a frame have in common.
///
/// Contracts see the camera and the sides of the frame.
#[derive(Debug, Drop)]
pub struct PreparedCamera {
    camera: CameraRow,
    width: u32,
    height: u32,
    axes: Axes,
    right: Span,
    up: Span,
}

impl Model for PreparedCamera {
    ghost use Rattle.shade_core.specs.Frames.{IsPrepared, View};

    ghost Value = { View };

    ghost view = { λ p. record { camera = p.camera; width = p.width; height = p.height } };

    ghost invariant = { λ p. IsPrepared p.camera p.width p.height p.axes p.right p.up };
}

impl PreparedCamera {
    /// Prepares a camera for a frame of `w` by `h` pixels, each side from 1 to 4096.
    pub fn new(camera: &CameraRow, w: u32, h: u32) -> Self
        requires camera { IsCameraWithin camera.now }
        requires width { IsSide w }
        requires height { IsSide h }
        ensures camera { result.camera ≡ camera.now }
        ensures width { result.width ≡ w }
        ensures height { result.height ≡ h }
    {
        let lens = lens_of(camera);
        PreparedCamera {
            camera: *camera,
            width: w,
            height: h,
            axes: axes_of(lens.direction, lens.up),
            right: right_span(&lens, w),
            up: up_span(&lens, h),
        }
    }

    /// The ray of pixel (`x`, `y`), of which (0, 0) is the lower left one (ANARI 1.0 Specification, Camera).
    pub fn ray(&self, x: u32, y: u32) -> Ray
        requires column { x < self.now.width }
        requires row { y < self.now.height }
        ensures value { result ≡ camera_ray self.now.camera self.now.width self.now.height x y }
        ensures size { IsRayWithin result }
    {
        let window = across(
            &self.axes,
            offset_in(&self.right, x),
            offset_in(&self.up, y),
        );
        match self.camera {
            CameraRow::Orthographic { position, .. } => Ray {
                o: add(position, window),
                d: self.axes.forward,
            },
            CameraRow::Perspective { position, .. } => Ray {
                o: position,
                d: add(self.axes.forward, window),
            },
        }
    }
}

/// The numbers of a camera that its rays are made from, but for its position.
#[tactic(auto, unfolding(crate::specs::Frames::lens_of))]
fn lens_of(camera: &CameraRow) -> Lens
    requires { IsCameraWithin camera.now }
    ensures value { result ≡ lens_of camera.now }
    ensures size { IsLensWithin result }
{
    match *camera {
        CameraRow::Orthographic {
            direction,
            up,
            aspect,
            height,
            ..
        } => Lens {
            direction,
            up,
            aspect,
            length: height,
            unit: 2,
        },
        CameraRow::Perspective {
            direction,
            up,
            aspect,
            tan_half_fovy,
            ..
        } => Lens {
            direction,
            up,
            aspect,
            length: tan_half_fovy,
            unit: 1,
        },
    }
}

/// The `w` pixels from the left to the right of the window.
fn right_span(lens: &Lens, w: u32) -> Span
    requires lens { IsLensWithin lens.now }
    requires width { IsSide w }
    ensures value { result ≡ right_span lens.now w }
    ensures within { IsSpanWithin result }
    ensures size { reach_of result * lens.now.unit ≤ 16 * unsigned_abs lens.now.length }
{
    Span {
        extent: lens.length as i64 * lens.aspect as i64,
        divisor: 65536 * lens.unit * w,
        pixels: w,
    }
}

/// The `h` pixels from the bottom to the top of the window.
fn up_span(lens: &Lens, h: u32) -> Span
    requires lens { IsLensWithin lens.now }
    requires height { IsSide h }
    ensures value { result ≡ up_span lens.now h }
    ensures within { IsSpanWithin result }
    ensures size { reach_of result ≤ unsigned_abs lens.now.length }
{
    Span {
        extent: lens.length as i64,
        divisor: lens.unit * h,
        pixels: h,
    }
}

/// How far the middle of pixel `i` lies from the middle of the window.
fn offset_in(span: &Span, i: u32) -> i64
    requires span { IsSpanWithin span.now }
    requires pixel { i < span.now.pixels }
    ensures value { result ≡ offset_in span.now i }
    ensures size { unsigned_abs result ≤ reach_of span.now + 1 }
{
    let half_pixels = 2 * i as i64 + 1 - span.pixels as i64;
    (span.extent * half_pixels).div_euclid(span.divisor as i64)
}

/// The ray of pixel (`x`, `y`) in a frame of `w` by `h` pixels, of which (0, 0) is the lower left one
/// (ANARI 1.0 Specification, Camera). The frame has at most 4096 pixels each way.
pub fn camera_ray(camera: &CameraRow, w: u32, h: u32, x: u32, y: u32) -> Ray
    requires camera { IsCameraWithin camera.now }
    requires column { x < w }
    requires width { w ≤ 4096 }
    requires row { y < h }
    requires height { h ≤ 4096 }
    ensures value { result ≡ camera_ray camera.now w h x y }
    ensures size { IsRayWithin result }
{
    PreparedCamera::new(camera, w, h).ray(x, y)
}
