ghost use Rattle.std.specs.Prelude.{◌≡◌, ◌↔◌, length, IsTrue, Some, option_map};
ghost use Rattle.array_objects.specs.Stores.{block_at, mapped, unmapped, changed_at, IsOut};

use crate::lent::Lent;
use dev_types::{Bytes, DataType, Handle, Origin};
use std::collections::BTreeMap;
use std::mem;

/// The memory of an array (ANARI 1.0 Specification, array memory): `count` elements of type `ty`, each
/// `stride` bytes behind the one before, from the front of the bytes on.
#[derive(Drop)]
pub struct Block {
    pub ty: DataType,
    pub count: u64,
    pub stride: u64,
    pub origin: Origin,
    pub bytes: Bytes,
}

/// What a store keeps of an array: its block, and the number of the loan that is out, if one is.
#[derive(Drop)]
pub struct Array {
    pub block: Block,
    pub loan: Option<u64>,
}

impl Array {
    /// Whether the loan of the array that is out has this loan's number and length.
    pub fn is_out(&self, lent: &Lent) -> bool
        ensures { IsTrue result ↔ IsOut (Some self.now) lent.now.number (length lent.now.elements.bytes) }
    {
        self.loan == Some(lent.number()) && self.block.bytes.as_slice().len() == lent.bytes().len()
    }

    fn note_loan(&mut self, number: u64)
        ensures { self.new ≡ mapped number self.old }
    {
        self.loan = Some(number);
    }

    // The content that it had comes back.
    fn take_back(&mut self, content: Bytes) -> Bytes
        ensures array { self.new ≡ unmapped content self.old }
        ensures old { result ≡ self.old.block.bytes }
    {
        self.loan = None;
        mem::replace(&mut self.block.bytes, content)
    }
}

/// Notes that the array at the handle is lent under this number.
pub fn note_loan(arrays: &mut BTreeMap<Handle, Array>, h: Handle, number: u64)
    ensures { arrays.new.entries ≡ changed_at arrays.old.entries h (mapped number) }
{
    if let Some(array) = arrays.get_mut(&h) {
        array.note_loan(number);
    }
}

/// Gives the array at the handle this content, and notes that it is lent no more. The content that it had comes back.
pub fn take_back(arrays: &mut BTreeMap<Handle, Array>, h: Handle, content: Bytes) -> Option<Bytes>
    ensures arrays { arrays.new.entries ≡ changed_at arrays.old.entries h (unmapped content) }
    ensures old { result ≡ option_map (λ b. b.bytes) (block_at arrays.old.entries h) }
{
    match arrays.get_mut(&h) {
        Some(array) => Some(array.take_back(content)),
        None => None,
    }
}
