//! What no clause says: that texts are read as the format's own examples are, and that want of memory does
//! not come where there is memory.
use dev_types::{Channel, DataType, Name, Origin, Value};
use std::alloc::{AllocError, Global};
use std::process::Abort;
use std::test::Fail;
use trace_text::*;

const TRIANGLE: &str = r#"{"trace":1,"phases":[{"callers":[[
{"op":"new_array","label":"p","elem":"SCALAR_VEC3","count":3,"origin":"captured","user":7,"data":[-131072,-131072,0,131072,-131072,0,-131072,131072,0]},
{"op":"new","label":"g","type":"geometry","subtype":"triangle"},
{"op":"set","object":"g","name":"vertex.position","type":"ARRAY1D","value":"p"},
{"op":"commit","object":"g"},
{"op":"new","label":"m","type":"material","subtype":"matte"},
{"op":"set","object":"m","name":"color","type":"SCALAR_VEC3","value":[65536,0,0]},
{"op":"commit","object":"m"},
{"op":"new","label":"s","type":"surface"},
{"op":"set","object":"s","name":"geometry","type":"GEOMETRY","value":"g"},
{"op":"set","object":"s","name":"material","type":"MATERIAL","value":"m"},
{"op":"commit","object":"s"},
{"op":"new_array","label":"l","elem":"SURFACE","count":1,"origin":"captured","user":8,"data":["s"]},
{"op":"new","label":"w","type":"world"},
{"op":"set","object":"w","name":"surface","type":"ARRAY1D","value":"l"},
{"op":"commit","object":"w"},
{"op":"new","label":"c","type":"camera","subtype":"orthographic"},
{"op":"set","object":"c","name":"position","type":"SCALAR_VEC3","value":[0,0,65536]},
{"op":"set","object":"c","name":"height","type":"SCALAR","value":262144},
{"op":"commit","object":"c"},
{"op":"new","label":"r","type":"renderer","subtype":"default"},
{"op":"new","label":"f","type":"frame"},
{"op":"set","object":"f","name":"world","type":"WORLD","value":"w"},
{"op":"set","object":"f","name":"camera","type":"CAMERA","value":"c"},
{"op":"set","object":"f","name":"renderer","type":"RENDERER","value":"r"},
{"op":"set","object":"f","name":"size","type":"UINT32_VEC2","value":[4,4]},
{"op":"set","object":"f","name":"channel.color","type":"DATA_TYPE","value":"UFIXED8_VEC4"},
{"op":"commit","object":"f"},
{"op":"render","frame":"f"},
{"op":"ready","frame":"f","wait":true},
{"op":"with_frame","frame":"f","channel":"channel.color","calls":[]}
]]}]}"#;

/// The rule that the text breaks, with phase, caller and call; rule 0 where it is a trace.
fn broken(alloc: Global, text: &str) -> Result<[u32; 4], AllocError> {
    match read_trace(alloc, text.as_bytes()) {
        Ok(_) => Ok([0; 4]),
        Err(TraceError::Broken(fault)) => Ok([
            fault.rule as u32,
            fault.phase,
            fault.caller,
            fault.call,
        ]),
        Err(TraceError::NoMemory) => Err(AllocError),
    }
}

/// The text of a trace of one caller with these calls.
fn text_of(alloc: Global, version: &str, calls: &str) -> Result<String, AllocError> {
    format!(in alloc; "{{\"trace\":{version},\"phases\":[{{\"callers\":[[{calls}]]}}]}}")
}

fn expect(rt: &impl Abort, alloc: Global, text: &str, fault: [u32; 4]) -> Result<(), Fail> {
    assert!(rt; broken(alloc, text)? == fault, "{text}");
    Ok(())
}

/// The first rule that a trace of one caller with these calls breaks, and the call.
fn expect_calls(
    rt: &impl Abort,
    alloc: Global,
    calls: &str,
    rule: u32,
    call: u32,
) -> Result<(), Fail> {
    let text = text_of(alloc, "2", calls)?;
    expect(rt, alloc, text.as_str(), [rule, 0, 0, call])
}

/// The calls of the one caller of a trace of the second version.
fn calls_of(alloc: Global, calls: &str) -> Result<Items<TraceCall>, Fail> {
    let text = text_of(alloc, "2", calls)?;
    let Ok(mut trace) = read_trace(alloc, text.as_str().as_bytes()) else {
        return Err("a trace".into());
    };
    let mut phase = trace.phases.pop().ok_or("a phase")?;
    let caller = phase.callers.pop().ok_or("a caller")?;
    Ok(caller.calls)
}

fn only_call(alloc: Global, call: &str) -> Result<TraceCall, Fail> {
    let mut calls = calls_of(alloc, call)?;
    let only = calls.pop().ok_or("a call")?;
    if !calls.is_empty() {
        return Err("one call".into());
    }
    Ok(only)
}

/// The call that opens a loan without calls inside.
fn only_loan(alloc: Global, call: &str) -> Result<TraceCall, Fail> {
    let mut calls = calls_of(alloc, call)?;
    match calls.pop() {
        Some(TraceCall::EndLoan) => {}
        _ => return Err("the end of a loan".into()),
    }
    Ok(calls.pop().ok_or("a loan")?)
}

fn is(name: &Name, text: &str) -> bool {
    name.as_str() == text
}

/// Calls but for the ends of loans.
fn count_calls(calls: &[TraceCall]) -> usize {
    calls
        .iter()
        .filter(|call| !matches!(call, TraceCall::EndLoan))
        .count()
}

#[test]
fn the_triangle_has_thirty_calls(rt: HostRuntime) -> Result<(), Fail> {
    let Ok(mut trace) = read_trace(rt.alloc(), TRIANGLE.as_bytes()) else {
        return Err("a trace".into());
    };
    let mut phase = trace.phases.pop().ok_or("a phase")?;
    let caller = phase.callers.pop().ok_or("a caller")?;
    assert!(rt; count_calls(caller.calls.as_slice()) == 30);
    assert!(rt; trace.phases.is_empty() && phase.callers.is_empty());
    Ok(())
}

#[test]
fn whole_texts_break_the_first_rules(rt: HostRuntime) -> Result<(), Fail> {
    let alloc = rt.alloc();
    let none = [0, 0, 0, 0];
    expect(&rt, alloc, "", [2, 0, 0, 0])?;
    expect(
        &rt,
        alloc,
        r#"{"trace": 1, "phases": [{"callers": [[{"op": "#,
        [2, 0, 0, 0],
    )?;
    expect(&rt, alloc, r#"{"trace":1,"phases":[1e999]}"#, [2, 0, 0, 0])?;
    expect(
        &rt,
        alloc,
        r#"{"trace":1,"phases":["\ud800"]}"#,
        [2, 0, 0, 0],
    )?;
    expect(&rt, alloc, "{}", [3, 0, 0, 0])?;
    expect(&rt, alloc, r#"{"trace":1,"phases":0}"#, [3, 0, 0, 0])?;
    expect(&rt, alloc, r#"{"trace":3,"phases":[]}"#, [3, 0, 0, 0])?;
    expect(&rt, alloc, r#"{"trace":1.0,"phases":[]}"#, [3, 0, 0, 0])?;
    expect(&rt, alloc, r#"{"trace":1e0,"phases":[]}"#, [3, 0, 0, 0])?;
    expect(&rt, alloc, r#"{"trace":1,"phases":[],"x":0}"#, [3, 0, 0, 0])?;
    expect(&rt, alloc, r#"{"trace":1,"phases":[]}"#, none)?;
    expect(&rt, alloc, r#"{"phases":[],"trace":2}"#, none)?;
    expect(&rt, alloc, r#"{"trace":7,"trace":2,"phases":[]}"#, none)?;
    Ok(())
}

#[test]
fn phases_are_lists_of_one_to_eight_lists(rt: HostRuntime) -> Result<(), Fail> {
    let alloc = rt.alloc();
    expect(
        &rt,
        alloc,
        r#"{"trace":1,"phases":[{"callers":[]}]}"#,
        [5, 0, 0, 0],
    )?;
    expect(
        &rt,
        alloc,
        r#"{"trace":1,"phases":[{"callers":[[],[],[],[],[],[],[],[],[]]}]}"#,
        [5, 0, 0, 0],
    )?;
    expect(
        &rt,
        alloc,
        r#"{"trace":1,"phases":[{"callers":[[],[],[],[],[],[],[],[]]}]}"#,
        [0, 0, 0, 0],
    )?;
    expect(
        &rt,
        alloc,
        r#"{"trace":1,"phases":[{"callers":[[{"op":"x"}],0]}]}"#,
        [5, 0, 0, 0],
    )?;
    expect(
        &rt,
        alloc,
        r#"{"trace":1,"phases":[{"callers":[[]],"x":0}]}"#,
        [5, 0, 0, 0],
    )?;
    expect(
        &rt,
        alloc,
        r#"{"trace":1,"phases":[{"callers":[[],[{"op":"x"}]]},0]}"#,
        [8, 0, 1, 0],
    )?;
    expect(
        &rt,
        alloc,
        r#"{"trace":1,"phases":[{"callers":[[]]},0]}"#,
        [5, 1, 0, 0],
    )?;
    Ok(())
}

/// A trace of so many phases with one caller each, the last of which has these calls.
fn phases_text(alloc: Global, count: usize, last: &str) -> Result<String, AllocError> {
    let mut text = String::from_str(alloc, r#"{"trace":1,"phases":["#)?;
    for _ in 1..count {
        text.push_str(r#"{"callers":[[]]},"#)?;
    }
    text.push_str(r#"{"callers":[["#)?;
    text.push_str(last)?;
    text.push_str("]]}]}")?;
    Ok(text)
}

#[test]
fn there_are_at_most_64_phases(rt: HostRuntime) -> Result<(), Fail> {
    let alloc = rt.alloc();
    let most = phases_text(alloc, 64, "")?;
    expect(&rt, alloc, most.as_str(), [0, 0, 0, 0])?;
    let many = phases_text(alloc, 65, "")?;
    expect(&rt, alloc, many.as_str(), [4, 64, 0, 0])?;
    let other_rule = phases_text(alloc, 64, r#"{"op":"x"}"#)?;
    expect(&rt, alloc, other_rule.as_str(), [8, 63, 0, 0])?;
    Ok(())
}

#[test]
fn calls_break_rules_at_their_places(rt: HostRuntime) -> Result<(), Fail> {
    let alloc = rt.alloc();
    expect_calls(&rt, alloc, r#"{"op":"paint"}"#, 8, 0)?;
    expect_calls(&rt, alloc, "0", 8, 0)?;
    expect_calls(&rt, alloc, r#"{"op":7}"#, 8, 0)?;
    expect_calls(&rt, alloc, r#"{"op":"commit"}"#, 9, 0)?;
    expect_calls(&rt, alloc, r#"{"op":"commit","object":"g","x":1}"#, 9, 0)?;
    expect_calls(&rt, alloc, r#"{"op":"commit","object":null}"#, 9, 0)?;
    expect_calls(&rt, alloc, r#"{"op":"commit","object":"nobody"}"#, 0, 0)?;
    expect_calls(
        &rt,
        alloc,
        r#"{"object":"g","op":"paint","op":"commit"}"#,
        0,
        0,
    )?;
    expect_calls(
        &rt,
        alloc,
        r#"{"op":"new","label":"g","type":"group"},{"op":"new","label":"g","type":"group"}"#,
        10,
        1,
    )?;
    expect_calls(
        &rt,
        alloc,
        r#"{"op":"new","label":"g","type":"group"},{"op":"new","label":"\u0067","type":"group"}"#,
        10,
        1,
    )?;
    expect_calls(
        &rt,
        alloc,
        r#"{"op":"new","label":"g","type":"group"},{"op":"new","label":"g","type":"array1d"}"#,
        9,
        1,
    )?;
    expect_calls(
        &rt,
        alloc,
        r#"{"op":"new","label":"g h","type":"group"}"#,
        9,
        0,
    )?;
    expect_calls(&rt, alloc, r#"{"op":"query","what":"weather"}"#, 9, 0)?;
    expect_calls(
        &rt,
        alloc,
        r#"{"op":"query","what":"object_info","type":"camera"}"#,
        9,
        0,
    )?;
    Ok(())
}

/// A text as long as `length` within quotes.
fn label_of(alloc: Global, length: usize) -> Result<String, AllocError> {
    let mut label = String::new(alloc);
    for _ in 0..length {
        label.push_str("a")?;
    }
    Ok(label)
}

#[test]
fn a_label_has_at_most_64_bytes(rt: HostRuntime) -> Result<(), Fail> {
    let alloc = rt.alloc();
    let most = label_of(alloc, 64)?;
    let call = format!(in alloc; "{{\"op\":\"retain\",\"object\":\"{most}\"}}")?;
    expect_calls(&rt, alloc, call.as_str(), 0, 0)?;
    let call = format!(in alloc; "{{\"op\":\"retain\",\"object\":\"{most}a\"}}")?;
    expect_calls(&rt, alloc, call.as_str(), 9, 0)
}

const LOAN: &str = r#"{"op":"with_array","array":"p","calls":["#;

/// So many loans inside one another, with these calls in the innermost.
fn loans_text(alloc: Global, count: usize, inner: &str) -> Result<String, AllocError> {
    let mut text = String::new(alloc);
    for _ in 0..count {
        text.push_str(LOAN)?;
    }
    text.push_str(inner)?;
    for _ in 0..count {
        text.push_str("]}")?;
    }
    Ok(text)
}

#[test]
fn loans_are_nested_at_most_8_deep(rt: HostRuntime) -> Result<(), Fail> {
    let alloc = rt.alloc();
    let eight = loans_text(alloc, 8, r#"{"op":"render","frame":"f"}"#)?;
    expect_calls(&rt, alloc, eight.as_str(), 0, 0)?;
    let nine = loans_text(alloc, 9, "")?;
    expect_calls(&rt, alloc, nine.as_str(), 7, 8)?;
    let ninth = loans_text(alloc, 8, r#"{"op":"with_frame"}"#)?;
    expect_calls(&rt, alloc, ninth.as_str(), 7, 8)?;
    let outer_first = r#"{"op":"with_frame","frame":"f","channel":"no","calls":[{"op":"x"}]}"#;
    expect_calls(&rt, alloc, outer_first, 9, 0)?;
    let after =
        r#"{"op":"with_array","array":"p","calls":[{"op":"render","frame":"f"}]},{"op":"x"}"#;
    expect_calls(&rt, alloc, after, 8, 2)?;
    let text = text_of(alloc, "1", r#"{"op":"with_param"}"#)?;
    expect(&rt, alloc, text.as_str(), [8, 0, 0, 0])
}

/// A new world and so many retains of it.
fn retains_text(alloc: Global, version: &str, retains: usize) -> Result<String, AllocError> {
    let mut calls = String::from_str(alloc, r#"{"op":"new","label":"w","type":"world"}"#)?;
    for _ in 0..retains {
        calls.push_str(r#",{"op":"retain","object":"w"}"#)?;
    }
    text_of(alloc, version, calls.as_str())
}

#[test]
fn the_first_version_has_at_most_65536_calls(rt: HostRuntime) -> Result<(), Fail> {
    let alloc = rt.alloc();
    let text = retains_text(alloc, "1", 65537)?;
    expect(&rt, alloc, text.as_str(), [6, 0, 0, 65536])?;
    let text = retains_text(alloc, "2", 65537)?;
    expect(&rt, alloc, text.as_str(), [0, 0, 0, 0])
}

#[test]
fn the_second_version_has_at_most_262144_calls(rt: HostRuntime) -> Result<(), Fail> {
    let alloc = rt.alloc();
    let text = retains_text(alloc, "2", 262143)?;
    expect(&rt, alloc, text.as_str(), [0, 0, 0, 0])?;
    let text = retains_text(alloc, "2", 262144)?;
    expect(&rt, alloc, text.as_str(), [6, 0, 0, 262144])
}

/// Whether the call binds this label to an object of this kind.
fn is_new(call: &TraceCall, name: &str, kind: DataType, sub: &str) -> bool {
    match call {
        TraceCall::New { label, ty, subtype } => is(label, name) && *ty == kind && is(subtype, sub),
        _ => false,
    }
}

#[test]
fn new_is_read_back(rt: HostRuntime) -> Result<(), Fail> {
    let call = only_call(
        rt.alloc(),
        r#"{"op":"new","label":"g","type":"geometry","subtype":"triangle"}"#,
    )?;
    assert!(rt; is_new(&call, "g", DataType::Geometry, "triangle"));
    let call = only_call(rt.alloc(), r#"{"type":"world","label":"w","op":"new"}"#)?;
    assert!(rt; is_new(&call, "w", DataType::World, "default"));
    Ok(())
}

/// Whether the call makes an array of this shape and origin with these bytes.
fn is_array(call: &TraceCall, shape: (DataType, u64, u64), whose: Origin, bytes: &[u8]) -> bool {
    match call {
        TraceCall::NewArray {
            elem,
            count,
            stride,
            origin,
            data: ArrayData::Values(values),
            ..
        } => (*elem, *count, *stride) == shape && *origin == whose && values.as_slice() == bytes,
        _ => false,
    }
}

#[test]
fn new_arrays_are_read_back(rt: HostRuntime) -> Result<(), Fail> {
    let alloc = rt.alloc();
    let call = only_call(
        alloc,
        r#"{"op":"new_array","label":"p","elem":"SCALAR","count":2,"origin":"captured","user":7,"data":[-1,65536]}"#,
    )?;
    assert!(rt;
        is_array(
            &call,
            (DataType::Scalar, 2, 4),
            Origin::Captured(7),
            &[255, 255, 255, 255, 0, 0, 1, 0]
        )
    );
    let call = only_call(
        alloc,
        r#"{"op":"new_array","label":"p","elem":"UINT64","count":1,"stride":16,"origin":"shared","user":18446744073709551615,"data":[18446744073709551615]}"#,
    )?;
    assert!(rt;
        is_array(
            &call,
            (DataType::Uint64, 1, 16),
            Origin::Shared(18446744073709551615),
            &[255; 8]
        )
    );
    let call = only_call(
        alloc,
        r#"{"op":"new_array","label":"p","elem":"UFIXED8_VEC4","count":1,"origin":"captured","user":0,"data":[0,1,254,255]}"#,
    )?;
    assert!(rt;
        is_array(
            &call,
            (DataType::Ufixed8Vec4, 1, 4),
            Origin::Captured(0),
            &[0, 1, 254, 255]
        )
    );
    let call = only_call(
        alloc,
        r#"{"op":"new_array","label":"p","elem":"SCALAR","count":2,"origin":"managed"}"#,
    )?;
    assert!(rt; is_array(&call, (DataType::Scalar, 2, 4), Origin::Managed, &[]));
    let call = only_call(
        alloc,
        r#"{"op":"new_array","label":"p","elem":"STRING","count":9,"origin":"captured","user":1,"data":[null,{}]}"#,
    )?;
    assert!(rt; is_array(&call, (DataType::Str, 9, 0), Origin::Captured(1), &[]));
    Ok(())
}

#[test]
fn arrays_of_objects_are_read_back(rt: HostRuntime) -> Result<(), Fail> {
    let call = only_call(
        rt.alloc(),
        r#"{"op":"new_array","label":"l","elem":"SURFACE","count":2,"origin":"captured","user":8,"data":["s","z"]}"#,
    )?;
    let TraceCall::NewArray {
        data: ArrayData::Objects(labels),
        ..
    } = call
    else {
        return Err("an array of objects".into());
    };
    let [first, second] = labels.as_slice() else {
        return Err("two labels".into());
    };
    assert!(rt; is(first, "s") && is(second, "z"));
    Ok(())
}

#[test]
fn arrays_that_break_their_form(rt: HostRuntime) -> Result<(), Fail> {
    let alloc = rt.alloc();
    expect_calls(
        &rt,
        alloc,
        r#"{"op":"new_array","label":"p","elem":"SCALAR","count":3.0,"origin":"managed"}"#,
        9,
        0,
    )?;
    expect_calls(
        &rt,
        alloc,
        r#"{"op":"new_array","label":"p","elem":"SCALAR","count":-0,"origin":"managed"}"#,
        9,
        0,
    )?;
    expect_calls(
        &rt,
        alloc,
        r#"{"op":"new_array","label":"p","elem":"SCALAR","count":18446744073709551616,"origin":"managed"}"#,
        9,
        0,
    )?;
    expect_calls(
        &rt,
        alloc,
        r#"{"op":"new_array","label":"p","elem":"SCALAR","count":1,"origin":"managed","data":[]}"#,
        9,
        0,
    )?;
    expect_calls(
        &rt,
        alloc,
        r#"{"op":"new_array","label":"p","elem":"SCALAR","count":1,"origin":"captured","data":[0]}"#,
        9,
        0,
    )?;
    expect_calls(
        &rt,
        alloc,
        r#"{"op":"new_array","label":"p","elem":"SCALAR","count":1,"origin":"captured","user":1,"data":[0,0]}"#,
        9,
        0,
    )?;
    expect_calls(
        &rt,
        alloc,
        r#"{"op":"new_array","label":"p","elem":"SCALAR","count":2,"origin":"captured","user":1,"data":[0]}"#,
        9,
        0,
    )?;
    expect_calls(
        &rt,
        alloc,
        r#"{"op":"new_array","label":"p","elem":"SCALAR","count":1,"origin":"captured","user":1,"data":[2147483648]}"#,
        9,
        0,
    )?;
    expect_calls(
        &rt,
        alloc,
        r#"{"op":"new_array","label":"p","elem":"UINT32","count":1,"origin":"captured","user":1,"data":[-1]}"#,
        9,
        0,
    )?;
    expect_calls(
        &rt,
        alloc,
        r#"{"op":"new_array","label":"p","elem":"UINT32","count":1,"origin":"captured","user":1,"data":["a"]}"#,
        9,
        0,
    )?;
    expect_calls(
        &rt,
        alloc,
        r#"{"op":"new_array","label":"p","elem":"LIGHT","count":1,"origin":"captured","user":1,"data":[1]}"#,
        9,
        0,
    )
}

/// Whether the call sets this parameter of `g` to a plain value.
fn sets(call: &TraceCall, parameter: &str, expected: &Value) -> bool {
    match call {
        TraceCall::Set {
            object,
            name,
            value: SetValue::Plain(value),
        } => is(object, "g") && is(name, parameter) && value == expected,
        _ => false,
    }
}

/// Whether the call sets this parameter of `g` to the object of a label.
fn sets_object(call: &TraceCall, parameter: &str, ty: DataType, label: &str) -> bool {
    match call {
        TraceCall::Set {
            object,
            name,
            value: SetValue::Object(kind, named),
        } => is(object, "g") && is(name, parameter) && *kind == ty && is(named, label),
        _ => false,
    }
}

#[test]
fn set_is_read_back(rt: HostRuntime) -> Result<(), Fail> {
    let alloc = rt.alloc();
    let call = only_call(
        alloc,
        r#"{"op":"set","object":"g","name":"radius","type":"SCALAR","value":-65536}"#,
    )?;
    assert!(rt; sets(&call, "radius", &Value::Scalar(-65536)));
    let call = only_call(
        alloc,
        r#"{"op":"set","object":"g","name":"size","type":"UINT32_VEC2","value":[4,4294967295]}"#,
    )?;
    assert!(rt; sets(&call, "size", &Value::Uint32Vec2([4, 4294967295])));
    let call = only_call(
        alloc,
        r#"{"op":"set","object":"g","name":"c","type":"DATA_TYPE","value":"UFIXED8_VEC4"}"#,
    )?;
    assert!(rt; sets(&call, "c", &Value::TypeName(DataType::Ufixed8Vec4)));
    let call = only_call(
        alloc,
        r#"{"op":"set","object":"g","name":"world","type":"WORLD","value":"w"}"#,
    )?;
    assert!(rt; sets_object(&call, "world", DataType::World, "w"));
    expect_calls(
        &rt,
        alloc,
        r#"{"op":"set","object":"g","name":"n","type":"SCALAR","value":[1]}"#,
        9,
        0,
    )?;
    expect_calls(
        &rt,
        alloc,
        r#"{"op":"set","object":"g","name":"n","type":"SCALAR_VEC2","value":[1]}"#,
        9,
        0,
    )?;
    expect_calls(
        &rt,
        alloc,
        r#"{"op":"set","object":"g","name":"n","type":"scalar","value":1}"#,
        9,
        0,
    )
}

/// Whether the call is of this op and of `g` or `f` alone.
fn is_plain(call: &TraceCall, op: &str) -> bool {
    match call {
        TraceCall::Retain { object } => op == "retain" && is(object, "g"),
        TraceCall::Release { object } => op == "release" && is(object, "g"),
        TraceCall::UnsetAll { object } => op == "unset_all" && is(object, "g"),
        TraceCall::Commit { object } => op == "commit" && is(object, "g"),
        TraceCall::Render { frame } => op == "render" && is(frame, "f"),
        TraceCall::Discard { frame } => op == "discard" && is(frame, "f"),
        _ => false,
    }
}

fn expect_plain(
    rt: &impl Abort,
    alloc: Global,
    op: &str,
    key: &str,
    label: &str,
) -> Result<(), Fail> {
    let text = format!(in alloc; "{{\"op\":\"{op}\",\"{key}\":\"{label}\"}}")?;
    let call = only_call(alloc, text.as_str())?;
    assert!(rt; is_plain(&call, op), "{op}");
    Ok(())
}

#[test]
fn calls_of_an_object_or_a_frame_are_read_back(rt: HostRuntime) -> Result<(), Fail> {
    let alloc = rt.alloc();
    expect_plain(&rt, alloc, "retain", "object", "g")?;
    expect_plain(&rt, alloc, "release", "object", "g")?;
    expect_plain(&rt, alloc, "unset_all", "object", "g")?;
    expect_plain(&rt, alloc, "commit", "object", "g")?;
    expect_plain(&rt, alloc, "render", "frame", "f")?;
    expect_plain(&rt, alloc, "discard", "frame", "f")
}

fn is_unset(call: &TraceCall) -> bool {
    match call {
        TraceCall::Unset { object, name } => is(object, "g") && is(name, "radius"),
        _ => false,
    }
}

fn is_ready(call: &TraceCall, waits: bool) -> bool {
    match call {
        TraceCall::Ready { frame, wait } => is(frame, "f") && *wait == waits,
        _ => false,
    }
}

#[test]
fn unset_and_ready_are_read_back(rt: HostRuntime) -> Result<(), Fail> {
    let alloc = rt.alloc();
    let call = only_call(alloc, r#"{"op":"unset","object":"g","name":"radius"}"#)?;
    assert!(rt; is_unset(&call));
    let call = only_call(alloc, r#"{"op":"ready","frame":"f","wait":true}"#)?;
    assert!(rt; is_ready(&call, true));
    let call = only_call(alloc, r#"{"op":"ready","frame":"f"}"#)?;
    assert!(rt; is_ready(&call, false));
    Ok(())
}

/// Whether the pair writes these numbers.
fn writes_numbers(pair: &Write, index: u64, expected: &[i128]) -> bool {
    match &pair.element {
        Components::Numbers(numbers) => pair.index == index && numbers.as_slice() == expected,
        Components::Label(_) => false,
    }
}

fn writes_label(pair: &Write, index: u64, expected: &str) -> bool {
    match &pair.element {
        Components::Numbers(_) => false,
        Components::Label(label) => pair.index == index && is(label, expected),
    }
}

#[test]
fn with_array_is_read_back(rt: HostRuntime) -> Result<(), Fail> {
    let alloc = rt.alloc();
    let call = only_loan(
        alloc,
        r#"{"op":"with_array","array":"p","write":[[0,[-9223372036854775808,18446744073709551615]],[1,["s"]],[2,[]]],"calls":[]}"#,
    )?;
    let TraceCall::WithArray { array, write } = call else {
        return Err("a loan".into());
    };
    assert!(rt; is(&array, "p"));
    let [numbers, label, none] = write.as_slice() else {
        return Err("three pairs".into());
    };
    assert!(rt; writes_numbers(numbers, 0, &[-9223372036854775808, 18446744073709551615]));
    assert!(rt; writes_label(label, 1, "s") && writes_numbers(none, 2, &[]));
    expect_calls(
        &rt,
        alloc,
        r#"{"op":"with_array","array":"p","write":[[0,["a","b"]]],"calls":[]}"#,
        9,
        0,
    )?;
    expect_calls(
        &rt,
        alloc,
        r#"{"op":"with_array","array":"p","write":[[0,["a",1]]],"calls":[]}"#,
        9,
        0,
    )?;
    expect_calls(
        &rt,
        alloc,
        r#"{"op":"with_array","array":"p","write":[[0,[0.5]]],"calls":[]}"#,
        9,
        0,
    )?;
    expect_calls(
        &rt,
        alloc,
        r#"{"op":"with_array","array":"p","write":[[-1,[0]]],"calls":[]}"#,
        9,
        0,
    )
}

#[test]
fn with_param_and_with_frame_are_read_back(rt: HostRuntime) -> Result<(), Fail> {
    let alloc = rt.alloc();
    let call = only_loan(
        alloc,
        r#"{"op":"with_param","object":"g","name":"vertex.position","elem":"SCALAR_VEC3","count":3,"calls":[]}"#,
    )?;
    let TraceCall::WithParam {
        object,
        name,
        elem,
        count,
        write,
    } = call
    else {
        return Err("a loan".into());
    };
    assert!(rt; is(&object, "g") && is(&name, "vertex.position"));
    assert!(rt; elem == DataType::ScalarVec3 && count == 3 && write.is_empty());
    let call = only_loan(
        alloc,
        r#"{"op":"with_frame","frame":"f","channel":"channel.objectId","calls":[]}"#,
    )?;
    let TraceCall::WithFrame { frame, channel } = call else {
        return Err("a loan".into());
    };
    assert!(rt; is(&frame, "f") && channel == Channel::ObjectId);
    Ok(())
}

/// Whether the call asks for `name` of an object, or of the device.
fn asks_property(call: &TraceCall, of: Option<&str>, property: &str) -> bool {
    match (call, of) {
        (
            TraceCall::Query(
                Query::Property {
                    object: Some(object),
                    name,
                },
            ),
            Some(of),
        ) => { is(object, of) && is(name, property) }
        (TraceCall::Query(Query::Property { object: None, name }), None) => is(name, property),
        _ => false,
    }
}

/// Whether the call asks for what stands for `kinds` of cameras.
fn asks_camera(call: &TraceCall, what: &str) -> bool {
    match call {
        TraceCall::Query(Query::Subtypes { ty }) => what == "subtypes" && *ty == DataType::Camera,
        TraceCall::Query(Query::ObjectInfo { ty, subtype }) => {
            what == "object_info" && *ty == DataType::Camera && is(subtype, "perspective")
        }
        TraceCall::Query(Query::ParameterInfo { ty, subtype, name }) => {
            what == "parameter_info"
                && *ty == DataType::Camera
                && is(subtype, "perspective")
                && is(name, "up")
        }
        _ => false,
    }
}

#[test]
fn queries_are_read_back(rt: HostRuntime) -> Result<(), Fail> {
    let alloc = rt.alloc();
    let call = only_call(
        alloc,
        r#"{"op":"query","what":"property","object":"w","name":"bounds"}"#,
    )?;
    assert!(rt; asks_property(&call, Some("w"), "bounds"));
    let call = only_call(
        alloc,
        r#"{"op":"query","what":"property","name":"version"}"#,
    )?;
    assert!(rt; asks_property(&call, None, "version"));
    let call = only_call(alloc, r#"{"op":"query","what":"subtypes","type":"camera"}"#)?;
    assert!(rt; asks_camera(&call, "subtypes"));
    let call = only_call(
        alloc,
        r#"{"op":"query","what":"object_info","type":"camera","subtype":"perspective"}"#,
    )?;
    assert!(rt; asks_camera(&call, "object_info"));
    let call = only_call(
        alloc,
        r#"{"op":"query","what":"parameter_info","type":"camera","subtype":"perspective","name":"up"}"#,
    )?;
    assert!(rt; asks_camera(&call, "parameter_info"));
    Ok(())
}

#[test]
fn components_make_values(rt: HostRuntime) -> Result<(), Fail> {
    let alloc = rt.alloc();
    let made = value_of_numbers(alloc, DataType::ScalarVec2, &[1, -2]);
    assert!(rt; made == Ok(Some(Value::ScalarVec2([1, -2]))));
    let made = value_of_numbers(alloc, DataType::ScalarVec2, &[1]);
    assert!(rt; made == Ok(None));
    let made = value_of_numbers(alloc, DataType::Instance, &[]);
    assert!(rt; made == Ok(None));
    Ok(())
}
