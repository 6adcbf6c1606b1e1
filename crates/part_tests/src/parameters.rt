//! What no clause says: that calls succeed with ample memory, and the worked ones.
use dev_types::{DataType, Handle, Name, NoMemory, Value};
use param_stage::*;
use std::alloc::Global;
use std::process::Abort;
use std::test::Fail;

fn name(text: &str) -> Result<Name, Fail> {
    Ok(Name::new(text).ok_or("a name")?)
}

fn geometry(handle: u64) -> Value {
    Value::Object(DataType::Geometry, Handle(handle))
}

/// The handles are these numbers, in this order.
fn expect_handles(rt: &impl Abort, handles: &HandleList, numbers: &[u64]) {
    assert_eq!(rt; handles.len(), numbers.len() as u64);
    assert_eq!(rt; handles.is_empty(), numbers.is_empty());
    for (i, number) in numbers.iter().enumerate() {
        let i = i as u64;
        assert!(rt; i < handles.len() && handles.get(i).0 == *number, "at {i}");
    }
}

/// The call was done, and told that these were added and these are gone.
fn expect_told(
    rt: &impl Abort,
    told: Result<Named, NoMemory>,
    added: &[u64],
    gone: &[u64],
) -> Result<(), Fail> {
    let told = told.map_err(|_| "out of memory")?;
    expect_handles(rt, &told.added, added);
    expect_handles(rt, &told.gone, gone);
    Ok(())
}

/// The entries name these objects, staged ones first.
fn expect_named(rt: &impl Abort, params: &Params, numbers: &[u64]) {
    assert_eq!(rt; params.named_len(), numbers.len() as u64);
    for (i, number) in numbers.iter().enumerate() {
        let i = i as u64;
        assert!(rt;
            i < params.named_len() && params.named_at(i).0 == *number,
            "at {i}"
        );
    }
}

#[test]
fn a_geometry_is_set_committed_and_taken_away(rt: HostRuntime) -> Result<(), Fail> {
    let alloc = rt.alloc();
    let mut params = Params::new(alloc);
    let geometry_name = name("geometry")?;
    assert!(rt; params.staged(&geometry_name).is_none());
    expect_told(
        &rt,
        params.set(alloc, &geometry_name, &geometry(2)),
        &[2],
        &[],
    )?;
    assert!(rt; params.committed(&geometry_name).is_none());
    expect_told(&rt, params.commit(alloc), &[2], &[])?;
    assert!(rt; params.committed(&geometry_name) == Some(&geometry(2)));
    expect_named(&rt, &params, &[2, 2]);
    expect_told(&rt, params.unset(alloc, &geometry_name), &[], &[2])?;
    assert!(rt; params.staged(&geometry_name).is_none());
    assert!(rt; params.committed(&geometry_name) == Some(&geometry(2)));
    expect_told(&rt, params.unset_all(alloc), &[], &[])?;
    expect_told(&rt, params.commit(alloc), &[], &[2])?;
    assert!(rt; params.committed(&geometry_name).is_none());
    expect_named(&rt, &params, &[]);
    Ok(())
}

/// `light` names 7, `surface` names 5, and `id` names nothing.
fn two_objects(alloc: Global) -> Result<Params, Fail> {
    let mut params = Params::new(alloc);
    let out_of_memory = "out of memory";
    params
        .set(alloc, &name("surface")?, &geometry(5))
        .map_err(|_| out_of_memory)?;
    params
        .set(alloc, &name("light")?, &geometry(7))
        .map_err(|_| out_of_memory)?;
    params
        .set(alloc, &name("id")?, &Value::Uint32(9))
        .map_err(|_| out_of_memory)?;
    Ok(params)
}

#[test]
fn objects_are_told_by_name_and_once_for_each_entry(rt: HostRuntime) -> Result<(), Fail> {
    let alloc = rt.alloc();
    let mut params = two_objects(alloc)?;
    expect_named(&rt, &params, &[7, 5]);
    expect_told(
        &rt,
        params.set(alloc, &name("instance")?, &geometry(5)),
        &[5],
        &[],
    )?;
    expect_told(&rt, params.commit(alloc), &[5, 7, 5], &[])?;
    expect_named(&rt, &params, &[5, 7, 5, 5, 7, 5]);
    expect_told(
        &rt,
        params.set(alloc, &name("light")?, &geometry(8)),
        &[8],
        &[7],
    )?;
    expect_told(
        &rt,
        params.set(alloc, &name("surface")?, &Value::Uint32(1)),
        &[],
        &[5],
    )?;
    expect_told(&rt, params.unset(alloc, &name("id")?), &[], &[])?;
    expect_told(&rt, params.commit(alloc), &[5, 8], &[5, 7, 5])?;
    expect_told(&rt, params.unset_all(alloc), &[], &[5, 8])?;
    expect_named(&rt, &params, &[5, 8]);
    Ok(())
}

#[test]
fn a_list_gives_its_handles_back(rt: HostRuntime) -> Result<(), Fail> {
    let list = HandleList::of(vec![in rt.alloc(); Handle(3), Handle(1)]?);
    expect_handles(&rt, &list, &[3, 1]);
    assert_eq!(rt;
        list.into_vec().as_slice(),
        [Handle(3), Handle(1)].as_slice()
    );
    Ok(())
}
