//! Made traces: the law that what is made is a trace, and a made trace as it is read.
ghost use Rattle.std.specs.Prelude.{◌≡◌, ◌≤◌, ℕ, IfOk, Ok};
ghost use Rattle.made_traces.specs.Traces.{IsTrace};
ghost use Rattle.trace_make.specs.Made.{made};
ghost use Rattle.trace_text.specs.Reading.{trace_of};

use dev_types::NoMemory;
use std::alloc::Global;
use trace_make::make;
use trace_text::{Trace, TraceError, read_trace};

/// What is made is a trace, whatever the seed: for 1 to 8 callers and up to 64 frames each the text breaks
/// no rule.
#[tactic(auto, using(crate::proofs::MadeTexts::made_text_is_trace))]
pub fn made_texts_are_traces()
    ensures { (seed callers frames : ℕ) → 1 ≤ callers → callers ≤ 8 → frames ≤ 64
        → IsTrace (made seed callers frames) }
{}

/// Makes a trace by a seed: a scene of two shapes under two lights, and `callers` callers, 1 to 8, who
/// render it at the same time, each `frames` times, 1 to 64. It is the trace that `trace_make::make` writes.
///
/// # Errors
/// `NoMemory` where there was none for the text or the trace.
pub fn make_trace(alloc: Global, seed: u32, callers: u32, frames: u32) -> Result<Trace, NoMemory>
    requires some_callers { 1 ≤ callers }
    requires few_callers { callers ≤ 8 }
    requires some_frames { 1 ≤ frames }
    requires few_frames { frames ≤ 64 }
    ensures { IfOk result (λ trace. trace_of (made seed callers frames) ≡ Ok trace) }
{
    let text = make(alloc, seed, callers, frames)?;
    match read_trace(alloc, text.as_bytes()) {
        Ok(trace) => Ok(trace),
        Err(TraceError::NoMemory) => Err(NoMemory),
        Err(TraceError::Broken(_)) => unreachable!(),
    }
}
