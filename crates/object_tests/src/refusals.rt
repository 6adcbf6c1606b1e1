//! Refusals of calls on objects, with the status that each gives.
use crate::desk::Desk;
use crate::releases::build_world;
use dev_types::{DataType, Handle, Origin, Refused, Value};
use std::alloc::Global;
use std::test::Fail;

/// Creations that are refused.
fn refuse_creations(desk: &mut Desk, alloc: Global) -> Result<(), Fail> {
    desk.create(alloc, DataType::Camera, "omnidirectional")?;
    desk.expect_refused(&Refused::BadSubtype, 0)?;
    let corner = Value::ScalarVec3([0; 3]);
    desk.create_array(
        alloc,
        DataType::ScalarVec3,
        11,
        Origin::Captured(1),
        &[corner],
    )?;
    desk.expect_refused(&Refused::BadShape, 0)?;
    desk.create_list(alloc, DataType::Surface, 1, &[4, 2, 99])?;
    desk.expect_refused(&Refused::BadHandle(Handle(99)), 0)?;
    desk.create_list(alloc, DataType::Surface, 1, &[4, 2])?;
    desk.expect_refused(&Refused::WrongKind(Handle(2)), 0)
}

/// Parameters that are refused.
fn refuse_parameters(desk: &mut Desk, alloc: Global) -> Result<(), Fail> {
    desk.set(alloc, 7, "height", Value::Uint32(65536))?;
    desk.expect_refused(&Refused::BadType, 7)?;
    desk.put(alloc, 6, "volume", DataType::Array1D, 5)?;
    desk.expect_refused(&Refused::UnknownObjectParameter, 6)?;
    desk.put(alloc, 4, "geometry", DataType::Geometry, 3)?;
    desk.expect_refused(&Refused::WrongKind(Handle(3)), 4)?;
    desk.put(alloc, 99, "geometry", DataType::Geometry, 98)?;
    desk.expect_refused(&Refused::BadHandle(Handle(99)), 99)?;
    desk.put(alloc, 4, "geometry", DataType::Geometry, 98)?;
    desk.expect_refused(&Refused::BadHandle(Handle(98)), 4)?;
    desk.unset(alloc, 99, "geometry")?;
    desk.expect_refused(&Refused::BadHandle(Handle(99)), 99)?;
    desk.unset_all(alloc, 99)?;
    desk.expect_refused(&Refused::BadHandle(Handle(99)), 99)?;
    desk.commit(alloc, 99)?;
    desk.expect_refused(&Refused::BadHandle(Handle(99)), 99)
}

/// References that are refused.
fn refuse_references(desk: &mut Desk, alloc: Global) -> Result<(), Fail> {
    desk.release(alloc, 1)?;
    desk.expect_done()?;
    desk.release(alloc, 1)?;
    desk.expect_refused(&Refused::NotHeld(Handle(1)), 1)?;
    desk.put(alloc, 2, "vertex.position", DataType::Array1D, 1)?;
    desk.expect_refused(&Refused::NotHeld(Handle(1)), 2)?;
    desk.release(alloc, 0)?;
    desk.expect_refused(&Refused::BadHandle(Handle(0)), 0)
}

/// Arrays for parameters that are refused.
fn refuse_loans(desk: &mut Desk, alloc: Global) -> Result<(), Fail> {
    desk.map(alloc, 2)?.give_up();
    desk.expect_refused(&Refused::WrongKind(Handle(2)), 2)?;
    desk.map_parameter(alloc, 4, "geometry", DataType::Scalar, 1)?
        .give_up();
    desk.expect_refused(&Refused::BadType, 4)?;
    desk.map_parameter(alloc, 7, "foo", DataType::Scalar, 1)?
        .give_up();
    desk.expect_refused(&Refused::UnknownObjectParameter, 7)?;
    desk.map_parameter(alloc, 2, "vertex.position", DataType::ScalarVec3, 33554432)?
        .give_up();
    desk.expect_refused(&Refused::BadShape, 2)
}

#[test]
fn calls_are_refused_by_the_first_cause_and_told_so(rt: HostRuntime) -> Result<(), Fail> {
    let mut desk = Desk::new(rt.alloc());
    build_world(&mut desk, rt.alloc())?;
    refuse_creations(&mut desk, rt.alloc())?;
    refuse_parameters(&mut desk, rt.alloc())?;
    refuse_references(&mut desk, rt.alloc())?;
    refuse_loans(&mut desk, rt.alloc())?;
    assert_eq!(rt; desk.heard().len(), 19);
    Ok(())
}
