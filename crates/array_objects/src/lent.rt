ghost use Rattle.std.specs.Prelude.{◌≡◌, ◌<◌, IsTrue, length};
ghost use Rattle.std.specs.Borrow.{sem, Array as Row, Lends, follows, u8 as byte};
ghost use Rattle.dev_types.specs.Blocks.{FitsBlock, with_part};
ghost use Rattle.dev_types.specs.ValueBytes.{type_of, bytes_of, is_well_typed};
ghost use Rattle.byte_view.specs.Elements.{with_element};
ghost use Rattle.byte_view.specs.Halves.{elements, borrow_of};
ghost use Rattle.array_objects.specs.Loans.{with_bytes};

use crate::arrays::Block;
use byte_view::{Strided, StridedMut};
use dev_types::{DataType, Handle, Value};
use std::marker::Model;

/// A loan of an array's memory, to be written and then given back (ANARI 1.0 Specification, mapping
/// arrays). Its bytes are its own: until it is given back, the array's content stays as it was. It has to
/// be spent, by `ArrayStore::unmap` or `give_up`.
pub struct Lent {
    array: Handle,
    number: u64,
    ty: DataType,
    stride: u64,
    count: u64,
    bytes: Vec<u8>,
}

impl Model for Lent {
    ghost use Rattle.std.specs.Prelude.{length};
    ghost use Rattle.dev_types.specs.Blocks.{FitsBlock};
    ghost use Rattle.array_objects.specs.Loans.{Loan};

    ghost Value = { Loan };

    ghost view = { λ l. record {
      array = l.array;
      number = l.number;
      elements = record { ty = l.ty; stride = l.stride; count = l.count; bytes = l.bytes.items };
    } };

    ghost invariant = { λ l. FitsBlock l.ty l.stride l.count (length l.bytes.items) };
}

impl Lent {
    ghost use Rattle.array_objects.specs.Stores.{Fits, elements_of};
    ghost use Rattle.array_objects.specs.contracts.lent.Lent.{the_row};

    /// A loan of the elements in these bytes.
    pub(crate) fn new(array: Handle, number: u64, block: &Block, bytes: Vec<u8>) -> Lent
        requires fits { Fits block.now }
        requires copied { bytes.items ≡ block.now.bytes }
        ensures { result ≡ record { array = array; number = number; elements = elements_of block.now } }
    {
        Lent {
            array,
            number,
            ty: block.ty,
            stride: block.stride,
            count: block.count,
            bytes,
        }
    }

    /// The array that is lent.
    pub fn array(&self) -> Handle
        ensures { result ≡ self.now.array }
    {
        self.array
    }

    /// The number of the loan: the place of the journal entry that lent it.
    pub fn number(&self) -> u64
        ensures { result ≡ self.now.number }
    {
        self.number
    }

    /// The elements, as they stand in the loan.
    pub fn view(&self) -> Strided<'_>
        ensures { result ≡ self.now.elements }
    {
        Strided::over(&self.bytes, self.ty, self.stride, self.count)
    }

    /// The elements, to be written. What is written stands in the loan afterwards.
    pub fn view_mut(&mut self) -> StridedMut<'_>
        ensures* writes_back { sem 𝓛 (follows the_row (Row byte 0) self.entry.ghost_name (borrow_of result) (with_bytes self.old)) }
        ensures value { elements result ≡ self.old.elements }
    {
        StridedMut::over(&mut self.bytes, self.ty, self.stride, self.count)
    }

    /// Writes element `i`: its own bytes, and no other byte of the loan.
    pub fn set(&mut self, i: u64, v: &Value)
        requires within { i < self.old.elements.count }
        requires typed { type_of v.now ≡ self.old.elements.ty }
        requires well_typed { IsTrue (is_well_typed v.now) }
        ensures { self.new ≡ record self.old { elements = with_element self.old.elements i (bytes_of v.now) } }
    {
        let (ty, stride, count) = (self.ty, self.stride, self.count);
        write_element(&mut self.bytes, ty, stride, count, i, v);
    }

    /// All bytes of the loan, also those between the elements and behind the last.
    pub fn bytes(&self) -> &[u8]
        ensures { result.now ≡ self.now.elements.bytes }
    {
        &self.bytes
    }

    /// All bytes of the loan, to be written. What is written stands in the loan afterwards.
    pub fn bytes_mut(&mut self) -> &mut [u8]
        ensures* writes_back { sem 𝓛 (Lends the_row (Row byte 0) self.entry result (with_bytes self.old)) }
        ensures value { result.now ≡ self.old.elements.bytes }
    {
        &mut self.bytes
    }

    /// Gives the loan's bytes up. The array stays mapped.
    pub fn give_up(self) -> Vec<u8>
        ensures { result.items ≡ self.elements.bytes }
    {
        let Lent {
            array: _,
            number: _,
            ty: _,
            stride: _,
            count: _,
            bytes,
        } = self;
        bytes
    }
}

fn write_element(bytes: &mut [u8], ty: DataType, stride: u64, count: u64, i: u64, v: &Value)
    requires fits { FitsBlock ty stride count (length bytes.old) }
    requires within { i < count }
    requires typed { type_of v.now ≡ ty }
    requires well_typed { IsTrue (is_well_typed v.now) }
    ensures { bytes.new ≡ with_part ty stride bytes.old i (bytes_of v.now) }
{
    StridedMut::over(bytes, ty, stride, count).set(i, v);
}
