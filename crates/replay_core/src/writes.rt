//! What is written into loans.
ghost use Rattle.std.specs.Prelude.{◌≡◌, ◌*◌, ◌<◌, ◌≤◌, ◌^◌, IfOk, OnOk, IsTrue, IfSome, fold, length};
ghost use Rattle.dev_types.specs.Blocks.{FitsBlock, with_part};
ghost use Rattle.dev_types.specs.DataTypes.{byte_size, is_element_type};
ghost use Rattle.dev_types.specs.ValueBytes.{bytes_of, is_well_typed, type_of};
ghost use Rattle.call_answers.specs.Named.{block_of};
ghost use Rattle.replay_core.specs.Held.{holding};
ghost use Rattle.replay_core.specs.Loans.{new_content, with_element, with_write, written, written_value};
ghost use Rattle.replay_core.specs.Views.{meaning_of};

use crate::bindings::Labels;
use array_objects::Lent;
use byte_view::StridedMut;
use dev_types::{Bytes, DataType, NoMemory, Value, size_of};
use std::alloc::Global;
use std::marker::Model;
use trace_text::{Components, Write, value_of_numbers};

/// A block of elements that is written before it is handed in.
#[derive(Drop)]
pub struct Draft {
    elem: DataType,
    count: u64,
    stride: u64,
    bytes: Vec<u8>,
    ghost fits: { FitsBlock elem stride count (length bytes.items) },
}

impl Model for Draft {
    ghost use Rattle.kind_tables.specs.SceneObjects.{Block};

    ghost Value = { Block };

    ghost view = { λ d. record { elem = d.elem; count = d.count; stride = d.stride; bytes = d.bytes.items } };
}

impl Draft {
    /// The elements of a new array, without gaps and all zero.
    pub fn new(alloc: Global, elem: DataType, count: u64) -> Result<Draft, NoMemory>
        requires element { IsTrue (is_element_type elem) }
        requires within { count * byte_size elem ≤ 2 ^ 28 }
        ensures { IfOk result (λ d. d ≡ new_content elem count) }
    {
        let stride = u64::from(size_of(elem));
        let bytes = vec![in alloc; 0; (count * stride) as usize]?;
        Ok(Draft {
            elem,
            count,
            stride,
            bytes,
        })
    }

    /// Writes element `i`.
    fn put(&mut self, i: u64, value: &Value)
        requires within { i < self.old.count }
        requires typed { type_of value.now ≡ self.old.elem }
        requires well_typed { IsTrue (is_well_typed value.now) }
        ensures value { self.new ≡ with_element i self.old value.now }
        ensures length { length self.new.bytes ≡ length self.old.bytes }
    {
        put(
            &mut self.bytes,
            self.elem,
            self.stride,
            self.count,
            i,
            value,
        );
    }

    /// Writes an element; left out where it has no place, or does not fit the type of the elements.
    fn write(&mut self, alloc: Global, labels: &Labels<'_>, write: &Write) -> Result<(), NoMemory>
        ensures value { OnOk result (self.new
            ≡ with_write (meaning_of labels.now) self.old write.now) }
        ensures length { length self.new.bytes ≡ length self.old.bytes }
    {
        if write.index >= self.count {
            return Ok(());
        }
        let Some(value) = written_value(alloc, labels, self.elem, &write.element)? else {
            return Ok(());
        };
        self.put(write.index, &value);
        Ok(())
    }

    /// Writes elements, in order.
    pub fn write_all(
        &mut self,
        alloc: Global,
        labels: &Labels<'_>,
        writes: &[Write],
    ) -> Result<(), NoMemory>
        ensures value { OnOk result (self.new
            ≡ written (meaning_of labels.now) writes.now self.old) }
        ensures length { length self.new.bytes ≡ length self.old.bytes }
    {
        for write in writes {
            self.write(alloc, labels, write)?;
        }
        Ok(())
    }

    /// The bytes of the block.
    pub fn into_bytes(self, alloc: Global) -> Result<Bytes, NoMemory>
        ensures { IfOk result (λ bytes. bytes ≡ self.bytes) }
    {
        match Bytes::of(alloc, self.bytes) {
            Ok(bytes) => Ok(bytes),
            Err((NoMemory, _)) => Err(NoMemory),
        }
    }
}

/// Writes an element into a loan; left out where it has no place, or does not fit the type of the
/// elements.
fn write_lent(
    alloc: Global,
    labels: &Labels<'_>,
    lent: &mut Lent,
    write: &Write,
) -> Result<(), NoMemory>
    ensures { OnOk result (lent.new ≡ holding
        (with_write (meaning_of labels.now) (block_of lent.old.elements) write.now) lent.old) }
{
    if write.index >= lent.view().len() {
        return Ok(());
    }
    let elem = lent.view().data_type();
    let Some(value) = written_value(alloc, labels, elem, &write.element)? else {
        return Ok(());
    };
    lent.set(write.index, &value);
    Ok(())
}

/// Writes elements into a loan, in order.
pub fn write_all_lent(
    alloc: Global,
    labels: &Labels<'_>,
    lent: &mut Lent,
    writes: &[Write],
) -> Result<(), NoMemory>
    ensures { OnOk result (lent.new ≡ holding
        (written (meaning_of labels.now) writes.now (block_of lent.old.elements)) lent.old) }
{
    for write in writes {
        write_lent(alloc, labels, lent, write)?;
    }
    Ok(())
}

/// A copy of all bytes of a loan.
pub fn bytes_of_lent(alloc: Global, lent: &Lent) -> Result<Bytes, NoMemory>
    ensures { IfOk result (λ bytes. bytes ≡ lent.now.elements.bytes) }
{
    let bytes = Vec::from_slice(alloc, lent.bytes())?;
    match Bytes::of(alloc, bytes) {
        Ok(bytes) => Ok(bytes),
        Err((NoMemory, _)) => Err(NoMemory),
    }
}

fn put(bytes: &mut [u8], elem: DataType, stride: u64, count: u64, i: u64, value: &Value)
    requires fits { FitsBlock elem stride count (length bytes.old) }
    requires within { i < count }
    requires typed { type_of value.now ≡ elem }
    requires well_typed { IsTrue (is_well_typed value.now) }
    ensures { bytes.new ≡ with_part elem stride bytes.old i (bytes_of value.now) }
{
    let mut elements = StridedMut::over(bytes, elem, stride, count);
    elements.set(i, value);
}

/// The element that is written, where what is written fits the type.
fn written_value(
    alloc: Global,
    labels: &Labels<'_>,
    elem: DataType,
    element: &Components,
) -> Result<Option<Value>, NoMemory>
    ensures value { IfOk result (λ found. found ≡ written_value (meaning_of labels.now) elem element.now) }
    ensures fits { IfOk result (λ found. IfSome found (λ v. (type_of v ≡ elem) × IsTrue (is_well_typed v))) }
{
    match element {
        Components::Numbers(numbers) => value_of_numbers(alloc, elem, numbers.as_slice()),
        Components::Label(label) => {
            if !elem.is_object() {
                return Ok(None);
            }
            Ok(Some(Value::Object(elem, labels.handle(label))))
        }
    }
}
