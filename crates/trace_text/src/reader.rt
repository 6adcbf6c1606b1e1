//! From a JSON value to a trace, call by call in the order of the text.
ghost use Rattle.std.specs.Prelude.{◌≡◌, ◌≤◌, ◌++◌, ◌∷◌, [], not, map, option_map, length, IfOk, OnOk, Some, codes};
ghost use Rattle.std.specs.List.{flat_map};
ghost use Rattle.serde_json.specs.View.{view};
ghost use Rattle.trace_text.specs.Json.{field, list_of};
ghost use Rattle.trace_text.specs.Forms.{only};
ghost use Rattle.trace_text.specs.Places.{a_call, op_of, marks, numbered, placed, caller_places, phase_places, most_phases};
ghost use Rattle.trace_text.specs.Reading.{version_of, root_of, rule_number, is_phase, binds_again, bound_by, with_label, checked, calls_of, caller_of, phase_of, trace_of_root, IsAnswer, IsAnswerTo, IsOpAt, IsRead, Reads};
ghost use Rattle.trace_text.specs.declared.fault.TraceError.TheVariants.{Broken};

use crate::before::Before;
use crate::calls::{Caller, Phase, Trace, TraceCall};
use crate::fault::{Rule, TraceError, TraceFault};
use crate::forms::call;
use crate::json::{are_lists, has_only, items, items_at, list_at};
use crate::ops::{Op, Version};
use serde_json::Value;
use sqlite_items::Items;
use std::alloc::{AllocError, Global};

const MOST_BYTES: usize = 67108864;

const MOST_PHASES: usize = 64;

const MOST_CALLERS: usize = 8;

const MOST_LOANS: u32 = 8;

/// Where the calls of a caller stand.
#[derive(Clone, Copy, Debug)]
struct Spot {
    version: Version,
    phase: u32,
    caller: u32,
}

impl Spot {
    fn broken(self, call: u32, rule: Rule) -> TraceError
        ensures { result ≡ Broken (record { rule = rule_number rule; phase = self.phase; caller = self.caller; call = call }) }
    {
        TraceError::Broken(TraceFault {
            rule: rule.number(),
            phase: self.phase,
            caller: self.caller,
            call,
        })
    }
}

/// Reads a trace. The text is JSON: an object with `trace`, which is 1 or 2, and `phases`; `docs/TRACE.md`
/// tells the whole format.
///
/// # Errors
/// `Broken` exactly where the text breaks a rule, with the first one in its order. `NoMemory` where there
/// was none for the value or the trace.
pub fn read_trace(alloc: Global, bytes: &[u8]) -> Result<Trace, TraceError>
    ensures { IsAnswer bytes.now result }
{
    if bytes.len() > MOST_BYTES {
        return Err(TraceError::Broken(Rule::TooLong.at_start()));
    }
    match Value::from_slice(alloc, bytes) {
        Ok(value) => read_root(alloc, &value),
        Err(error) if error.is_memory() => Err(TraceError::NoMemory),
        Err(_) => Err(TraceError::Broken(Rule::NotJson.at_start())),
    }
}

fn read_root(alloc: Global, root: &Value) -> Result<Trace, TraceError>
    ensures { IsAnswerTo (trace_of_root (root_of (view root.now))) result }
{
    let (Some(version), Some(phases)) = (version(root), phases(root)) else {
        return Err(TraceError::Broken(Rule::NotATrace.at_start()));
    };
    read_phases(alloc, version, phases)
}

/// The phases of a root that has its keys.
fn phases(root: &Value) -> Option<&[Value]>
    ensures { option_map (λ values. map view values.now) result ≡ only (codes "trace" ∷ codes "phases" ∷ []) (view root.now) (field list_of (codes "phases") (view root.now)) }
{
    if has_only(root, &["trace", "phases"]) {
        list_at(root, "phases")
    } else {
        None
    }
}

fn version(root: &Value) -> Option<Version>
    ensures { result ≡ field version_of (codes "trace") (view root.now) }
{
    match root.get("trace")?.as_u64()? {
        1 => Some(Version::One),
        2 => Some(Version::Two),
        _ => None,
    }
}

fn read_phases(alloc: Global, version: Version, values: &[Value]) -> Result<Trace, TraceError>
    ensures { IsAnswerTo (trace_of_root (Some (version, map view values.now))) result }
{
    let mut before = Before::new(alloc);
    if values.len() > MOST_PHASES {
        let (within, _) = values.split_at(MOST_PHASES);
        let _phases = read_within(alloc, version, within, &mut before)?;
        let spot = Spot {
            version,
            phase: MOST_PHASES as u32,
            caller: 0,
        };
        return Err(spot.broken(0, Rule::TooManyPhases));
    }
    let phases = read_within(alloc, version, values, &mut before)?;
    Ok(Trace {
        phases: Items::from_vec(phases),
    })
}

fn read_within(
    alloc: Global,
    version: Version,
    values: &[Value],
    before: &mut Before,
) -> Result<Vec<Phase>, TraceError>
    requires { length values.now ≤ most_phases }
    ensures places { Reads (checked version before.old (flat_map (phase_places version) (numbered 0 (map view values.now)))) before.new result }
    ensures phases { IfOk result (λ phases. phases.items ≡ map (phase_of version) (map view values.now)) }
{
    let mut phases = Vec::with_capacity(alloc, values.len())?;
    let mut number = 0;
    for value in values {
        phases.push(read_phase(alloc, version, number, value, before)?)?;
        number += 1;
    }
    Ok(phases)
}

fn read_phase(
    alloc: Global,
    version: Version,
    number: u32,
    value: &Value,
    before: &mut Before,
) -> Result<Phase, TraceError>
    ensures places { Reads (checked version before.old (phase_places version (number, view value.now))) before.new result }
    ensures phase { IfOk result (λ phase. phase ≡ phase_of version (view value.now)) }
{
    if !is_phase(value) {
        let spot = Spot {
            version,
            phase: number,
            caller: 0,
        };
        return Err(spot.broken(0, Rule::NotAPhase));
    }
    let callers = read_callers(alloc, version, number, items_at(value, "callers"), before)?;
    Ok(Phase {
        callers: Items::from_vec(callers),
    })
}

/// Whether this is an object with exactly `callers`, a list of 1 to 8 lists.
fn is_phase(value: &Value) -> bool
    ensures { result ≡ is_phase (view value.now) }
{
    if !has_only(value, &["callers"]) {
        return false;
    }
    let callers = items_at(value, "callers");
    if callers.is_empty() || callers.len() > MOST_CALLERS {
        return false;
    }
    are_lists(callers)
}

fn read_callers(
    alloc: Global,
    version: Version,
    phase: u32,
    values: &[Value],
    before: &mut Before,
) -> Result<Vec<Caller>, TraceError>
    requires { length values.now ≤ 8 }
    ensures places { Reads (checked version before.old (flat_map (caller_places version phase) (numbered 0 (map view values.now)))) before.new result }
    ensures callers { IfOk result (λ callers. callers.items ≡ map (caller_of version) (map view values.now)) }
{
    let mut callers = Vec::with_capacity(alloc, values.len())?;
    let mut caller = 0;
    for value in values {
        let spot = Spot {
            version,
            phase,
            caller,
        };
        callers.push(read_caller(alloc, spot, value, before)?)?;
        caller += 1;
    }
    Ok(callers)
}

fn read_caller(
    alloc: Global,
    spot: Spot,
    value: &Value,
    before: &mut Before,
) -> Result<Caller, TraceError>
    ensures places { Reads (checked spot.version before.old (caller_places spot.version spot.phase (spot.caller, view value.now))) before.new result }
    ensures caller { IfOk result (λ caller. caller ≡ caller_of spot.version (view value.now)) }
{
    before.begin_caller();
    let mut calls = Vec::new(alloc);
    read_calls(alloc, spot, MOST_LOANS, items(value), before, &mut calls)?;
    Ok(Caller {
        calls: Items::from_vec(calls),
    })
}

/// Reads calls in which so many more loans may be opened inside one another.
fn read_calls(
    alloc: Global,
    spot: Spot,
    loans_left: u32,
    values: &[Value],
    before: &mut Before,
    calls: &mut Vec<TraceCall>,
) -> Result<(), TraceError>
    ensures places { Reads (checked spot.version before.old (placed spot.phase spot.caller (marks spot.version loans_left (map view values.now)))) before.new result }
    ensures calls { OnOk result (calls.new.items ≡ calls.old.items ++ calls_of spot.version (marks spot.version loans_left (map view values.now))) }
{
    for value in values {
        let (op, call) = read_call(alloc, spot, loans_left, value, before)?;
        calls.push(call)?;
        if op.is_loan() {
            read_calls(
                alloc,
                spot,
                loans_left - 1,
                items_at(value, "calls"),
                before,
                calls,
            )?;
            calls.push(TraceCall::EndLoan)?;
        }
    }
    Ok(())
}

/// Reads a call without those inside it.
fn read_call(
    alloc: Global,
    spot: Spot,
    loans_left: u32,
    value: &Value,
    before: &mut Before,
) -> Result<(Op, TraceCall), TraceError>
    ensures places { Reads (checked spot.version before.old (placed spot.phase spot.caller (a_call loans_left (view value.now) ∷ []))) before.new result }
    ensures call { IfOk result (λ read. IsRead spot.version loans_left (view value.now) read.0 read.1) }
{
    let number = before.of_caller();
    let op = match op_at(spot.version, loans_left, value, before.calls()) {
        Ok(op) => op,
        Err(rule) => return Err(spot.broken(number, rule)),
    };
    let call = match call(alloc, op, value)? {
        Some(call) => call,
        None => return Err(spot.broken(number, Rule::NotOfItsForm)),
    };
    if !bind(&call, before)? {
        return Err(spot.broken(number, Rule::BoundBefore));
    }
    before.add_call();
    Ok((op, call))
}

/// The op of a call, where its first rules are kept.
fn op_at(version: Version, loans_left: u32, value: &Value, calls: u32) -> Result<Op, Rule>
    ensures { IsOpAt version calls loans_left (view value.now) result }
{
    if calls >= version.most_calls() {
        return Err(Rule::TooManyCalls);
    }
    match op(version, value) {
        Some(op) if loans_left == 0 && op.is_loan() => Err(Rule::TooDeep),
        Some(op) => Ok(op),
        None => Err(Rule::UnknownOp),
    }
}

fn op(version: Version, value: &Value) -> Option<Op>
    ensures { result ≡ op_of version (view value.now) }
{
    Op::named(version, value.get("op")?.as_str()?)
}

/// Binds the label of a call that has one; `false` where it was bound before.
fn bind(call: &TraceCall, before: &mut Before) -> Result<bool, AllocError>
    ensures added { IfOk result (λ added. added ≡ not (binds_again before.old (bound_by call.now))) }
    ensures bound { OnOk result (before.new ≡ record { calls = before.old.calls; of_caller = before.old.of_caller; labels = with_label (bound_by call.now) before.old.labels }) }
{
    match call {
        TraceCall::New { label, .. } | TraceCall::NewArray { label, .. } => before.bind(
            label.copied(),
        ),
        _ => Ok(true),
    }
}
