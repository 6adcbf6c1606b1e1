// Rows from outside, and two threads that write the halves of a block. What a block holds after a write
// through a view, or through both halves of one, is a contract here: that of `write_one` and `write_apart`.
ghost use Rattle.std.specs.Prelude.{◌≡◌, ◌<◌, ◌≤◌, IsTrue, length};
ghost use Rattle.dev_types.specs.Blocks.{FitsBlock, with_part};
ghost use Rattle.dev_types.specs.ValueBytes.{type_of, bytes_of, is_well_typed};

use byte_view::*;
use dev_types::{DataType, Value};
use std::test::Fail;
use std::thread;

const VECTOR: DataType = DataType::ScalarVec3;

#[test]
fn a_loan_is_made_where_its_elements_fit(rt: HostRuntime) {
    let block = [0; 36];
    let rows: [(DataType, u64, u64, bool); 9] = [
        (VECTOR, 11, 3, false),
        (VECTOR, 12, 3, true),
        (VECTOR, 24, 2, true),
        (VECTOR, 13, 3, false),
        (VECTOR, 12, 0, true),
        (VECTOR, 12, 4, false),
        (VECTOR, u64::MAX, 1, true),
        (VECTOR, u64::MAX, 3, false),
        (DataType::Camera, 8, 1, false),
    ];
    for (ty, stride, count, fits) in rows {
        let mut bytes = [0; 36];
        assert!(rt;
            Strided::new(&block, ty, stride, count).is_some() == fits,
            "{ty:?} {stride} {count}"
        );
        assert!(rt;
            StridedMut::new(&mut bytes, ty, stride, count).is_some() == fits,
            "{ty:?} {stride} {count}"
        );
    }
}

#[test]
fn elements_are_read_with_their_stride(rt: HostRuntime) -> Result<(), Fail> {
    let block = [
        1, 0, 0, 0, 0xee, 0xee, 2, 1, 0, 0, 0xee, 0xee, 0xff, 0xff, 0xff, 0xff,
    ];
    let view = Strided::new(&block, DataType::Scalar, 6, 3).ok_or("no loan")?;
    assert!(rt; view.len() == 3 && view.stride() == 6 && !view.is_empty());
    assert!(rt; view.data_type() == DataType::Scalar);
    assert!(rt; view.get(0) == Value::Scalar(1));
    assert!(rt; view.get(1) == Value::Scalar(258));
    assert!(rt; view.get(2) == Value::Scalar(-1));
    assert!(rt; view.part(1) == [2, 1, 0, 0].as_slice());
    let last_two = view.range(1, 3);
    assert!(rt; last_two.len() == 2 && last_two.get(1) == Value::Scalar(-1));
    assert!(rt; view.range(3, 3).is_empty());
    Ok(())
}

#[test]
fn a_write_changes_the_elements_own_bytes(rt: HostRuntime) -> Result<(), Fail> {
    let mut block = [0xee; 16];
    let mut view = StridedMut::new(&mut block, DataType::Scalar, 6, 3).ok_or("no loan")?;
    assert!(rt; view.len() == 3 && view.stride() == 6 && !view.is_empty());
    assert!(rt; view.data_type() == DataType::Scalar);
    view.set(1, &Value::Scalar(131072));
    let expected = [
        0xee, 0xee, 0xee, 0xee, 0xee, 0xee, 0, 0, 2, 0, 0xee, 0xee, 0xee, 0xee, 0xee, 0xee,
    ];
    assert!(rt; block.as_slice() == expected.as_slice());
    Ok(())
}

// Element `i`, where such elements lie in the bytes, which else stay as they were.
fn write_one(bytes: &mut [u8], ty: DataType, stride: u64, count: u64, i: u64, v: &Value)
    requires within { i < count }
    requires value { (type_of v.now ≡ ty) × IsTrue (is_well_typed v.now) }
    ensures written { FitsBlock ty stride count (length bytes.old) → bytes.new ≡ with_part ty stride bytes.old i (bytes_of v.now) }
    ensures kept { ¬ FitsBlock ty stride count (length bytes.old) → bytes.new ≡ bytes.old }
{
    if let Some(loan) = StridedMut::new(bytes, ty, stride, count) {
        loan.put(i, v);
    }
}

#[test]
fn a_block_is_written_where_its_elements_fit(rt: HostRuntime) {
    let mut block = [0xee; 10];
    write_one(&mut block, DataType::Scalar, 6, 3, 1, &Value::Scalar(1));
    assert!(rt; block.as_slice() == [0xee; 10].as_slice());
    write_one(&mut block, DataType::Scalar, 6, 2, 1, &Value::Scalar(1));
    let expected = [0xee, 0xee, 0xee, 0xee, 0xee, 0xee, 1, 0, 0, 0];
    assert!(rt; block.as_slice() == expected.as_slice());
}

// Element `j` written through the loan of the elements before `i`, and element `k` through that of the others.
fn write_apart(
    bytes: &mut [u8],
    ty: DataType,
    stride: u64,
    count: u64,
    i: u64,
    j: u64,
    k: u64,
    v: &Value,
    w: &Value,
)
    requires fits { FitsBlock ty stride count (length bytes.old) }
    requires front { j < i }
    requires back { i ≤ k }
    requires within { k < count }
    requires first { (type_of v.now ≡ ty) × IsTrue (is_well_typed v.now) }
    requires second { (type_of w.now ≡ ty) × IsTrue (is_well_typed w.now) }
    ensures { bytes.new ≡ with_part ty stride (with_part ty stride bytes.old j (bytes_of v.now)) k (bytes_of w.now) }
{
    let (front, back) = StridedMut::over(bytes, ty, stride, count).split_at_mut(i);
    front.put(j, v);
    back.put(k - i, w);
}

#[test]
fn both_halves_stand_in_the_block(rt: HostRuntime) {
    let mut block = [0xee; 16];
    write_apart(
        &mut block,
        DataType::Scalar,
        6,
        3,
        1,
        0,
        2,
        &Value::Scalar(1),
        &Value::Scalar(131072),
    );
    let expected = [
        1, 0, 0, 0, 0xee, 0xee, 0xee, 0xee, 0xee, 0xee, 0xee, 0xee, 0, 0, 2, 0,
    ];
    assert!(rt; block.as_slice() == expected.as_slice());
}

#[test]
fn two_threads_write_the_halves(rt: HostRuntime) -> Result<(), Fail> {
    let mut block = [0xee; 22];
    let view = StridedMut::new(&mut block, DataType::Scalar, 6, 4).ok_or("no loan")?;
    let (mut front, mut back) = view.split_at_mut(1);
    assert!(rt; front.len() == 1 && back.len() == 3);
    thread::join(
        &rt,
        || front.set(0, &Value::Scalar(1)),
        || {
            back.set(0, &Value::Scalar(2));
            back.set(2, &Value::Scalar(3));
        },
    );
    let expected = [
        1, 0, 0, 0, 0xee, 0xee, 2, 0, 0, 0, 0xee, 0xee, 0xee, 0xee, 0xee, 0xee, 0xee, 0xee, 3, 0,
        0, 0,
    ];
    assert!(rt; block.as_slice() == expected.as_slice());
    Ok(())
}
