//! Whole traces.
ghost use Rattle.std.specs.Prelude.{◌≡◌, ◌≤◌, [], ◌∷◌, codes, map, IfOk, string_bytes};
ghost use Rattle.serde_json.specs.View.{view};
ghost use Rattle.trace_make.specs.Calls.{fields, list, written};
ghost use Rattle.trace_make.specs.Made.{made, trace, phase, phases};

use crate::calls::Calls;
use crate::draws::Draws;
use crate::pictures::{all_callers, releases};
use crate::scene::scene;
use dev_types::NoMemory;
use serde_json::{Value, json};
use std::alloc::{AllocError, Global};

/// Makes the text of a trace by a seed. One caller makes a scene: a rough surface of 512 triangles and a
/// cloud of 20 spheres, twice beside each other under two lights. Then `callers` callers, 1 to 8, render it
/// at the same time, each `frames` times, 1 to 64, from places of its own, 320 by 240 pixels. Then one
/// caller releases the scene. The text is compact JSON, and ends with a newline.
///
/// # Errors
/// `NoMemory` where there was none for the text.
pub fn make(alloc: Global, seed: u32, callers: u32, frames: u32) -> Result<String, NoMemory>
    requires some_callers { 1 ≤ callers }
    requires few_callers { callers ≤ 8 }
    requires some_frames { 1 ≤ frames }
    requires few_frames { frames ≤ 64 }
    ensures { IfOk result (λ text. string_bytes text ≡ made seed callers frames) }
{
    let value = value(alloc, seed, callers, frames)?;
    let mut text = value.to_string(alloc)?;
    text.push('\n')?;
    Ok(text)
}

fn value(alloc: Global, seed: u32, callers: u32, frames: u32) -> Result<Value, AllocError>
    requires few_callers { callers ≤ 8 }
    requires few_frames { frames ≤ 64 }
    ensures { IfOk result (λ v. view v ≡ trace (phases seed callers frames)) }
{
    let mut draws = Draws::from_seed(seed);
    let made = scene(alloc, &mut draws)?;
    let rendered = all_callers(alloc, &mut draws, callers, frames)?;
    let released = releases(alloc)?;
    let first = phase_of_one(alloc, made)?;
    let second = phase(alloc, rendered)?;
    let third = phase_of_one(alloc, released)?;
    let trace = trace_of(alloc, first, second, third)?;
    Ok(trace)
}

fn trace_of(alloc: Global, first: Value, second: Value, third: Value) -> Result<Value, AllocError>
    ensures { IfOk result (λ v. view v ≡ trace (view first ∷ view second ∷ view third ∷ [])) }
{
    json!(in alloc; {"trace": 1, "phases": [first, second, third]})
}

fn phase_of_one(alloc: Global, calls: Calls) -> Result<Value, AllocError>
    ensures { IfOk result (λ v. view v ≡ phase (written calls ∷ [])) }
{
    json!(in alloc; {"callers": [calls.into_value()]})
}

fn phase(alloc: Global, callers: Vec<Value>) -> Result<Value, AllocError>
    ensures { IfOk result (λ v. view v ≡ fields ((codes "callers", list (map view callers.items)) ∷ [])) }
{
    json!(in alloc; {"callers": callers})
}
