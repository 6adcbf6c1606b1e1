// What the proofs cannot see: that memory is found where it is ample, and rows from outside.
use array_objects::*;
use byte_view::fits_block;
use dev_types::{Bytes, DataType, Handle, Origin, Refused, Value};
use std::alloc::Global;
use std::process::Abort;
use std::test::Fail;

const VECTOR: DataType = DataType::ScalarVec3;

const ARRAY: Handle = Handle(1);

/// A block of these bytes, copied.
fn copied(alloc: Global, bytes: &[u8]) -> Result<Bytes, Fail> {
    let Ok(copy) = Vec::from_slice(alloc, bytes) else {
        return Err("out of memory".into());
    };
    match Bytes::of(alloc, copy) {
        Ok(block) => Ok(block),
        Err(_) => Err("out of memory".into()),
    }
}

/// Keeps a managed array of vectors in these bytes.
fn add_vectors(
    rt: &impl Abort,
    alloc: Global,
    store: &mut ArrayStore,
    bytes: &[u8],
) -> Result<(), Fail> {
    let block = Block {
        ty: VECTOR,
        count: (bytes.len() / 12) as u64,
        stride: 12,
        origin: Origin::Managed,
        bytes: copied(alloc, bytes)?,
    };
    assert!(rt; fits_block(VECTOR, 12, block.count, block.bytes.as_slice().len()));
    assert!(rt; store.block(ARRAY).is_none());
    match store.add(alloc, ARRAY, block) {
        Ok(()) => Ok(()),
        Err(_) => Err("out of memory".into()),
    }
}

/// Lends the array under the number.
fn lent(rt: &impl Abort, alloc: Global, store: &mut ArrayStore, number: u64) -> Result<Lent, Fail> {
    assert!(rt; store.block(ARRAY).is_some());
    match store.map(alloc, ARRAY, number) {
        Ok(lent) => Ok(lent),
        Err(_) => Err("not lent".into()),
    }
}

/// Gives the loan back with its own bytes for the content. The loan comes back where it was refused.
fn given_back(
    rt: &impl Abort,
    alloc: Global,
    store: &mut ArrayStore,
    lent: Lent,
) -> Result<Option<Lent>, Fail> {
    let content = match copied(alloc, lent.bytes()) {
        Ok(content) => content,
        Err(failed) => {
            lent.give_up();
            return Err(failed);
        }
    };
    assert!(rt; content.as_slice().len() == lent.bytes().len());
    match store.unmap(lent, content) {
        Ok(_old) => Ok(None),
        Err((refused, lent)) => {
            assert!(rt; refused == Refused::NotMapped);
            Ok(Some(lent))
        }
    }
}

#[test]
fn a_loan_comes_back_to_its_own_store(rt: HostRuntime) -> Result<(), Fail> {
    let mut first = ArrayStore::new(rt.alloc());
    let mut second = ArrayStore::new(rt.alloc());
    add_vectors(&rt, rt.alloc(), &mut first, &[0; 36])?;
    add_vectors(&rt, rt.alloc(), &mut second, &[0; 36])?;
    let loan = lent(&rt, rt.alloc(), &mut first, 5)?;
    let Some(loan) = given_back(&rt, rt.alloc(), &mut second, loan)? else {
        return Err("another store took the loan".into());
    };
    assert!(rt; loan.array() == ARRAY && loan.number() == 5 && loan.bytes() == [0; 36].as_slice());
    assert!(rt; first.loan(ARRAY) == Some(5) && second.loan(ARRAY).is_none());
    if let Some(loan) = given_back(&rt, rt.alloc(), &mut first, loan)? {
        loan.give_up();
        return Err("its own store refused the loan".into());
    }
    assert!(rt; first.loan(ARRAY).is_none());
    Ok(())
}

#[test]
fn the_content_is_the_old_one_while_a_loan_is_out(rt: HostRuntime) -> Result<(), Fail> {
    let mut store = ArrayStore::new(rt.alloc());
    add_vectors(&rt, rt.alloc(), &mut store, &[0; 36])?;
    let mut loan = lent(&rt, rt.alloc(), &mut store, 9)?;
    assert!(rt; loan.view().len() == 3 && loan.view().data_type() == VECTOR);
    loan.view_mut().set(1, &Value::ScalarVec3([1, 2, 3]));
    assert!(rt;
        store.view(ARRAY).is_some_and(|view| view.len() == 3
            && view.get(1) == Value::ScalarVec3([0; 3]))
    );
    assert!(rt; store.block(ARRAY).is_some());
    let again = match store.map(rt.alloc(), ARRAY, 10) {
        Ok(other) => {
            other.give_up();
            Refused::NoMemory
        }
        Err(refused) => refused,
    };
    assert!(rt; again == Refused::ArrayMapped(ARRAY) && store.loan(ARRAY) == Some(9));
    if let Some(loan) = given_back(&rt, rt.alloc(), &mut store, loan)? {
        loan.give_up();
        return Err("the store refused its loan".into());
    }
    for (i, vector) in [[0; 3], [1, 2, 3], [0; 3]].into_iter().enumerate() {
        let Some(view) = store.view(ARRAY) else {
            return Err("no array".into());
        };
        assert!(rt;
            view.len() == 3 && view.get(i as u64) == Value::ScalarVec3(vector),
            "{i}"
        );
    }
    Ok(())
}

/// Lends 36 bytes under the number 5 in a store of its own, and sees that another store refuses them.
fn expect_refused(rt: &impl Abort, alloc: Global, other: &mut ArrayStore) -> Result<(), Fail> {
    let mut own = ArrayStore::new(alloc);
    add_vectors(rt, alloc, &mut own, &[0; 36])?;
    let loan = lent(rt, alloc, &mut own, 5)?;
    match given_back(rt, alloc, other, loan)? {
        Some(loan) => {
            let bytes = loan.give_up();
            assert!(rt; bytes.as_slice() == [0; 36].as_slice());
            Ok(())
        }
        None => Err("a loan that is not out was taken".into()),
    }
}

/// A store whose array is mapped under the number.
fn mapped_store(
    rt: &impl Abort,
    alloc: Global,
    bytes: &[u8],
    number: u64,
) -> Result<ArrayStore, Fail> {
    let mut store = ArrayStore::new(alloc);
    add_vectors(rt, alloc, &mut store, bytes)?;
    lent(rt, alloc, &mut store, number)?.give_up();
    Ok(store)
}

#[test]
fn a_loan_of_another_number_or_length_is_refused(rt: HostRuntime) -> Result<(), Fail> {
    for (number, len) in [(6, 36), (5, 24)] {
        let bytes = [1; 36];
        let mut store = mapped_store(&rt, rt.alloc(), &bytes[..len], number)?;
        expect_refused(&rt, rt.alloc(), &mut store)?;
        assert!(rt; store.loan(ARRAY) == Some(number), "{number} {len}");
    }
    Ok(())
}

#[test]
fn a_loan_of_an_array_that_was_taken_out_is_refused(rt: HostRuntime) -> Result<(), Fail> {
    let mut store = mapped_store(&rt, rt.alloc(), &[1; 36], 5)?;
    let Some(block) = store.remove(ARRAY) else {
        return Err("a mapped array was not taken out".into());
    };
    assert!(rt; block.bytes.as_slice() == [1; 36].as_slice() && store.loan(ARRAY).is_none());
    expect_refused(&rt, rt.alloc(), &mut store)?;
    assert!(rt; store.view(ARRAY).is_none() && store.remove(ARRAY).is_none());
    Ok(())
}

#[test]
fn all_bytes_of_a_loan_can_be_written(rt: HostRuntime) -> Result<(), Fail> {
    let mut store = ArrayStore::new(rt.alloc());
    add_vectors(&rt, rt.alloc(), &mut store, &[0; 30])?;
    let mut loan = lent(&rt, rt.alloc(), &mut store, 1)?;
    loan.bytes_mut().fill(0xff);
    assert!(rt; loan.view().len() == 2 && loan.view().data_type() == VECTOR);
    loan.set(1, &Value::ScalarVec3([1, 2, 3]));
    let expected = [
        0xff, 0xff, 0xff, 0xff, 0xff, 0xff, 0xff, 0xff, 0xff, 0xff, 0xff, 0xff, 1, 0, 0, 0, 2, 0,
        0, 0, 3, 0, 0, 0, 0xff, 0xff, 0xff, 0xff, 0xff, 0xff,
    ];
    let bytes = loan.give_up();
    assert!(rt; bytes.as_slice() == expected.as_slice());
    Ok(())
}
