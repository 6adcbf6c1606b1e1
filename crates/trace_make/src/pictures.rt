//! The callers that render the scene, and the end of it.
ghost use Rattle.std.specs.Prelude.{◌≡◌, ◌<◌, ◌≤◌, ◌*◌, ◌++◌, [], ◌∷◌, map, IfOk, OnOk, string_bytes};
ghost use Rattle.std.specs.List.{range_with_len};
ghost use Rattle.serde_json.specs.View.{view};
ghost use Rattle.trace_make.specs.Calls.{list, release_call, written};
ghost use Rattle.trace_make.specs.Draws.{state_after};
ghost use Rattle.trace_make.specs.Pictures.{opening_calls, camera_position, picture_calls, pictures_calls, closing_calls, camera_label, frame_label, labelled_calls, caller_calls, release_calls};

use crate::calls::Calls;
use crate::draws::Draws;
use crate::shapes::push_three;
use serde_json::Value;
use std::alloc::{AllocError, Global};

/// The calls of so many callers, each with a camera and a frame of its own, which is rendered so often.
pub(crate) fn all_callers(
    alloc: Global,
    draws: &mut Draws,
    callers: u32,
    frames: u32,
) -> Result<Vec<Value>, AllocError>
    requires few { callers ≤ 8 }
    requires short { frames ≤ 64 }
    ensures { IfOk result (λ v. map view v.items ≡ map list (map (caller_calls draws.old.state frames) (range_with_len 0 callers))) }
{
    let mut values = Vec::new(alloc);
    for q in 0..callers {
        let calls = caller(alloc, draws, q, frames)?;
        values.push(calls.into_value())?;
    }
    Ok(values)
}

fn caller(alloc: Global, draws: &mut Draws, q: u32, frames: u32) -> Result<Calls, AllocError>
    ensures calls { IfOk result (λ calls. written calls ≡ labelled_calls (camera_label q) (frame_label q) draws.old.state frames) }
    ensures moved { OnOk result (draws.new.state ≡ state_after draws.old.state frames) }
{
    let camera = format!(in alloc; "c{q}")?;
    let frame = format!(in alloc; "f{q}")?;
    let mut calls = Calls::new(alloc);
    open(&camera, &frame, &mut calls)?;
    render(alloc, &camera, &frame, draws, frames, &mut calls)?;
    calls.release(&camera)?;
    calls.release(&frame)?;
    Ok(calls)
}

fn open(camera: &str, frame: &str, calls: &mut Calls) -> Result<(), AllocError>
    ensures { OnOk result (written calls.new ≡ written calls.old ++ opening_calls camera.now frame.now) }
{
    calls.make_of(camera, "camera", "perspective")?;
    calls.set_numbers(camera, "direction", "SCALAR_VEC3", &[0, -21845, -65536])?;
    calls.set_number(camera, "aspect", "SCALAR", 87381)?;
    calls.make(frame, "frame")?;
    calls.set_word(frame, "world", "WORLD", "w")?;
    calls.set_word(frame, "camera", "CAMERA", camera)?;
    calls.set_word(frame, "renderer", "RENDERER", "r")?;
    calls.set_numbers(frame, "size", "UINT32_VEC2", &[320, 240])?;
    calls.set_word(frame, "channel.color", "DATA_TYPE", "UFIXED8_VEC4")?;
    calls.commit(frame)?;
    Ok(())
}

/// Renders so many pictures, each from a place of its own.
fn render(
    alloc: Global,
    camera: &str,
    frame: &str,
    draws: &mut Draws,
    frames: u32,
    calls: &mut Calls,
) -> Result<(), AllocError>
    ensures calls { OnOk result (written calls.new ≡ written calls.old ++ pictures_calls camera.now frame.now draws.old.state frames) }
    ensures moved { OnOk result (draws.new.state ≡ state_after draws.old.state frames) }
{
    for _picture in 0..frames {
        render_one(alloc, camera, frame, draws.draw(65536), calls)?;
    }
    Ok(())
}

fn render_one(
    alloc: Global,
    camera: &str,
    frame: &str,
    drawn: u32,
    calls: &mut Calls,
) -> Result<(), AllocError>
    ensures { OnOk result (written calls.new ≡ written calls.old ++ picture_calls camera.now frame.now drawn) }
{
    let position = position(alloc, drawn)?;
    calls.set_numbers(camera, "position", "SCALAR_VEC3", &position)?;
    calls.commit(camera)?;
    calls.render(frame)?;
    calls.wait(frame)?;
    calls.look(frame, "channel.color")?;
    Ok(())
}

/// A place before the scene and above it.
fn position(alloc: Global, drawn: u32) -> Result<Vec<i64>, AllocError>
    ensures { IfOk result (λ v. v.items ≡ camera_position drawn) }
{
    let mut numbers = Vec::new(alloc);
    push_three(i64::from(drawn) - 32768, 131072, 393216, &mut numbers)?;
    Ok(numbers)
}

/// The calls that release each object of the scene.
pub(crate) fn releases(alloc: Global) -> Result<Calls, AllocError>
    ensures { IfOk result (λ calls. written calls ≡ release_calls) }
{
    let labels = [
        "p", "t", "g", "b", "k", "m", "n", "s", "u", "a", "h", "i", "j", "v", "d", "o", "e", "w",
        "r",
    ];
    let mut calls = Calls::new(alloc);
    release_each(&labels, &mut calls)?;
    Ok(calls)
}

fn release_each(labels: &[&str], calls: &mut Calls) -> Result<(), AllocError>
    ensures { OnOk result (written calls.new ≡ written calls.old ++ map release_call (map (λ k. k.now) labels.now)) }
{
    for label in labels {
        calls.release(label)?;
    }
    Ok(())
}
