//! What is told of properties, kinds and parameters, by the rows of the documents.
use crate::bench::{Bench, expect};
use crate::calls::{object_info, parameter_info, property};
use dev_types::{DataType, Names, TypeList, Value};
use seq_model::{Call, Reply};
use std::alloc::Global;
use std::test::Fail;

/// The property that the device tells.
fn expect_value(
    bench: &mut Bench,
    alloc: Global,
    h: u64,
    text: &str,
    wanted: &Value,
) -> Result<(), Fail> {
    bench.call(alloc, property(h, text)?)?;
    match bench.device.reply() {
        Some(Reply::Val(value)) => expect(value == wanted, "another value"),
        _ => Err("a value")?,
    }
}

/// Whether these are the names, and nothing else.
fn are_named(names: &Names, wanted: &[&str]) -> bool {
    if names.len() != wanted.len() as u64 {
        return false;
    }
    for (i, text) in wanted.iter().enumerate() {
        if names.get(i as u64).as_str() != *text {
            return false;
        }
    }
    true
}

/// Whether the one type is that of scalars.
fn are_scalars(types: &TypeList) -> bool {
    types.len() == 1 && *types.get(0) == DataType::Scalar
}

fn expect_names(bench: &mut Bench, alloc: Global, call: Call, wanted: &[&str]) -> Result<(), Fail> {
    bench.call(alloc, call)?;
    match bench.device.reply() {
        Some(Reply::Listed(names)) => expect(are_named(names, wanted), "other names"),
        _ => Err("names")?,
    }
}

fn ask_properties(bench: &mut Bench, alloc: Global) -> Result<(), Fail> {
    let triangle = Value::ScalarBox3([-131072, -131072, 0, 131072, 131072, 0]);
    expect_value(bench, alloc, 6, "bounds", &triangle)?;
    bench.create(alloc, DataType::World, "default")?;
    let (high, low) = (2147483647, -2147483648);
    let nothing = Value::ScalarBox3([high, high, high, low, low, low]);
    expect_value(bench, alloc, 10, "bounds", &nothing)?;
    expect_value(bench, alloc, 9, "renderProgress", &Value::Scalar(0))?;
    expect_value(bench, alloc, 0, "version", &Value::Int32(1))
}

fn ask_kinds(bench: &mut Bench, alloc: Global) -> Result<(), Fail> {
    let ty = DataType::Camera;
    let cameras = Call::Subtypes { ty };
    expect_names(bench, alloc, cameras, &["orthographic", "perspective"])?;
    let surface = object_info(DataType::Surface, "default")?;
    expect_names(bench, alloc, surface, &["geometry", "material", "id"])?;
    let matte = object_info(DataType::Material, "matte")?;
    expect_names(bench, alloc, matte, &["color", "opacity"])?;
    bench.call(alloc, parameter_info(ty, "orthographic", "height")?)?;
    match bench.device.reply() {
        Some(Reply::Info(info)) => {
            expect(are_scalars(&info.types), "a scalar")?;
            expect(!info.required, "not required")?;
            expect(info.default == Some(Value::Scalar(65536)), "its default")
        }
        _ => Err("what is known")?,
    }
}

fn ask(bench: &mut Bench, alloc: Global) -> Result<(), Fail> {
    bench.render(alloc)?;
    ask_properties(bench, alloc)?;
    bench.finish_flight()?;
    expect_value(bench, alloc, 9, "renderProgress", &Value::Scalar(65536))?;
    ask_kinds(bench, alloc)
}

#[test]
fn what_a_device_tells_about_itself(rt: HostRuntime) -> Result<(), Fail> {
    let mut bench = Bench::new(rt.alloc())?;
    let told = ask(&mut bench, rt.alloc());
    bench.finish();
    told
}
