//! Releases, and what dies with them.
use crate::desk::Desk;
use dev_types::{DataType, Handle, Notice, Origin, Refused, Value};
use std::alloc::Global;
use std::test::Fail;

/// Whether these are the ends of captured arrays with these handles and words, and nothing else.
fn are_ends(heard: &[Notice], ends: &[(u64, u64)]) -> bool {
    heard.len() == ends.len()
        && heard
            .iter()
            .zip(ends)
            .all(|(notice, end)| is_end(notice, *end))
}

/// Whether this is the end of the captured array with this handle, whose deleter has this word.
fn is_end(notice: &Notice, end: (u64, u64)) -> bool {
    match notice {
        Notice::Deleted { source, user, .. } => source.0 == end.0 && *user == end.1,
        _ => false,
    }
}

/// Whether the last notice is the end of this captured array.
fn is_last(heard: &[Notice], end: (u64, u64)) -> bool {
    match heard.last() {
        Some(notice) => is_end(notice, end),
        None => false,
    }
}

/// Surface 4, of triangle 2 over the vertices 1 with material 3, alone in world 6 by list 5.
pub fn build_world(desk: &mut Desk, alloc: Global) -> Result<(), Fail> {
    let corners = [
        Value::ScalarVec3([-131072, -131072, 0]),
        Value::ScalarVec3([131072, -131072, 0]),
        Value::ScalarVec3([-131072, 131072, 0]),
    ];
    desk.create_array(
        alloc,
        DataType::ScalarVec3,
        12,
        Origin::Captured(7),
        &corners,
    )?;
    desk.create(alloc, DataType::Geometry, "triangle")?;
    desk.put(alloc, 2, "vertex.position", DataType::Array1D, 1)?;
    desk.commit(alloc, 2)?;
    desk.create(alloc, DataType::Material, "matte")?;
    desk.create(alloc, DataType::Surface, "default")?;
    desk.put(alloc, 4, "geometry", DataType::Geometry, 2)?;
    desk.put(alloc, 4, "material", DataType::Material, 3)?;
    desk.commit(alloc, 4)?;
    desk.create_list(alloc, DataType::Surface, 8, &[4])?;
    desk.create(alloc, DataType::World, "default")?;
    desk.put(alloc, 6, "surface", DataType::Array1D, 5)?;
    desk.commit(alloc, 6)?;
    desk.create(alloc, DataType::Camera, "orthographic")?;
    desk.expect_made(7)
}

/// Releases each of these objects.
fn release_all(desk: &mut Desk, alloc: Global, handles: &[u64]) -> Result<(), Fail> {
    for h in handles {
        desk.release(alloc, *h)?;
        desk.expect_done()?;
    }
    Ok(())
}

#[test]
fn arrays_end_with_the_last_that_names_them(rt: HostRuntime) -> Result<(), Fail> {
    let mut desk = Desk::new(rt.alloc());
    build_world(&mut desk, rt.alloc())?;
    release_all(&mut desk, rt.alloc(), &[2, 1, 3, 4, 5, 7])?;
    assert_eq!(rt; desk.heard().len(), 0);
    release_all(&mut desk, rt.alloc(), &[6])?;
    assert!(rt; are_ends(desk.heard(), &[(1, 7), (5, 8)]));
    desk.retain(rt.alloc(), 6)?;
    desk.expect_refused(&Refused::BadHandle(Handle(6)), 6)
}

#[test]
fn what_two_objects_name_ends_with_the_second(rt: HostRuntime) -> Result<(), Fail> {
    let mut desk = Desk::new(rt.alloc());
    desk.create_array(
        rt.alloc(),
        DataType::ScalarVec3,
        12,
        Origin::Captured(7),
        &[],
    )?;
    for h in [2, 3] {
        desk.create(rt.alloc(), DataType::Geometry, "sphere")?;
        desk.put(rt.alloc(), h, "vertex.position", DataType::Array1D, 1)?;
    }
    release_all(&mut desk, rt.alloc(), &[1, 3])?;
    assert_eq!(rt; desk.heard().len(), 0);
    desk.retain(rt.alloc(), 1)?;
    desk.expect_refused(&Refused::NotHeld(Handle(1)), 1)?;
    release_all(&mut desk, rt.alloc(), &[2])?;
    assert!(rt; is_last(desk.heard(), (1, 7)));
    assert_eq!(rt; desk.heard().len(), 2);
    Ok(())
}

/// A frame that holds a world, with an instance in a list, of a group with a surface in a list, of a
/// geometry over an array: nine objects, each named by the next, and held by nobody else.
fn build_chain(desk: &mut Desk, alloc: Global) -> Result<(), Fail> {
    desk.create_array(alloc, DataType::ScalarVec3, 12, Origin::Captured(10), &[])?;
    desk.create(alloc, DataType::Geometry, "triangle")?;
    desk.put(alloc, 2, "vertex.position", DataType::Array1D, 1)?;
    desk.create(alloc, DataType::Surface, "default")?;
    desk.put(alloc, 3, "geometry", DataType::Geometry, 2)?;
    desk.create_list(alloc, DataType::Surface, 40, &[3])?;
    desk.create(alloc, DataType::Group, "default")?;
    desk.put(alloc, 5, "surface", DataType::Array1D, 4)?;
    desk.create(alloc, DataType::Instance, "transform")?;
    desk.put(alloc, 6, "group", DataType::Group, 5)?;
    desk.create_list(alloc, DataType::Instance, 70, &[6])?;
    desk.create(alloc, DataType::World, "default")?;
    desk.put(alloc, 8, "instance", DataType::Array1D, 7)?;
    desk.create(alloc, DataType::Frame, "default")?;
    desk.put(alloc, 9, "world", DataType::World, 8)?;
    release_all(desk, alloc, &[1, 2, 3, 4, 5, 6, 7, 8])
}

#[test]
fn a_chain_of_nine_dies_with_one_release(rt: HostRuntime) -> Result<(), Fail> {
    let mut desk = Desk::new(rt.alloc());
    build_chain(&mut desk, rt.alloc())?;
    assert_eq!(rt; desk.heard().len(), 0);
    assert_eq!(rt; desk.references_to(1), Some(0));
    release_all(&mut desk, rt.alloc(), &[9])?;
    assert!(rt; are_ends(desk.heard(), &[(1, 10), (4, 40), (7, 70)]));
    for h in 1..=9 {
        assert_eq!(rt; desk.references_to(h), None);
    }
    Ok(())
}
