//! Loans of arrays, and of new arrays for parameters.
use crate::desk::{Desk, expect};
use dev_types::{DataType, Handle, Notice, Origin, Refused};
use object_steps::ArrayLoan;
use std::alloc::Global;
use std::test::Fail;

/// A loan that comes back from one desk, as it was, and is out at another.
fn give_back_elsewhere(
    other: &mut Desk,
    desk: &mut Desk,
    alloc: Global,
    loan: ArrayLoan,
) -> Result<(), Fail> {
    match other.give_back(alloc, loan) {
        Ok(loan) => expect(desk.end_loan(alloc, loan), "memory")?,
        Err(_) => Err("memory")?,
    }
    other.expect_refused(&Refused::NotMapped, 1)
}

#[test]
fn a_loan_of_another_device_comes_back(rt: HostRuntime) -> Result<(), Fail> {
    let mut desk = Desk::new(rt.alloc());
    let mut other = Desk::new(rt.alloc());
    desk.create(rt.alloc(), DataType::Geometry, "sphere")?;
    let loan = desk.map_parameter(rt.alloc(), 1, "vertex.position", DataType::ScalarVec3, 3)?;
    give_back_elsewhere(&mut other, &mut desk, rt.alloc(), loan)?;
    desk.expect_made(2)?;
    assert_eq!(rt;
        desk.bytes_of(2).map(|bytes| bytes.as_slice().len()),
        Some(36)
    );
    assert_eq!(rt; desk.references_to(2), Some(0));
    Ok(())
}

/// A call on the object that a loan is of, while it is out.
fn release_within(desk: &mut Desk, alloc: Global, h: u64) -> Result<(), Fail> {
    desk.release(alloc, h)?;
    desk.expect_done()?;
    expect(desk.references_to(h) == Some(0), "the loan holds it")
}

#[test]
fn an_object_released_within_a_loan_dies_as_it_comes_back(rt: HostRuntime) -> Result<(), Fail> {
    let mut desk = Desk::new(rt.alloc());
    desk.create(rt.alloc(), DataType::Geometry, "sphere")?;
    let loan = desk.map_parameter(rt.alloc(), 1, "vertex.position", DataType::ScalarVec3, 3)?;
    let released = release_within(&mut desk, rt.alloc(), 1);
    let ended = desk.end_loan(rt.alloc(), loan);
    released?;
    assert!(rt; ended);
    desk.expect_made(2)?;
    assert_eq!(rt; desk.references_to(2), None);
    desk.commit(rt.alloc(), 1)?;
    desk.expect_refused(&Refused::BadHandle(Handle(1)), 1)
}

/// Whether this is the end of a shared array with this handle, which has this word.
fn is_let_go(notice: Option<&Notice>, h: u64, word: u64) -> bool {
    match notice {
        Some(Notice::LetGo { source, user }) => source.0 == h && *user == word,
        _ => false,
    }
}

/// The array of surfaces is mapped, so it is not mapped again, and a surface that it names dies.
fn release_the_surface(desk: &mut Desk, alloc: Global) -> Result<(), Fail> {
    desk.map(alloc, 2)?.give_up();
    desk.expect_refused(&Refused::ArrayMapped(Handle(2)), 2)?;
    desk.release(alloc, 2)?;
    desk.expect_done()?;
    expect(desk.references_to(2) == Some(0), "the loan holds it")
}

#[test]
fn a_mapped_array_ends_with_its_loan(rt: HostRuntime) -> Result<(), Fail> {
    let mut desk = Desk::new(rt.alloc());
    desk.create(rt.alloc(), DataType::Surface, "default")?;
    desk.create_array(rt.alloc(), DataType::Surface, 8, Origin::Shared(5), &[])?;
    let loan = desk.map(rt.alloc(), 2)?;
    let released = release_the_surface(&mut desk, rt.alloc());
    let ends = desk.heard().len();
    let ended = desk.end_loan(rt.alloc(), loan);
    released?;
    assert!(rt; ended);
    assert_eq!(rt; ends, 1);
    assert_eq!(rt; desk.heard().len(), 2);
    assert!(rt; is_let_go(desk.heard().last(), 2, 5));
    Ok(())
}
