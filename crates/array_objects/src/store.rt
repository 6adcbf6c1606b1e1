ghost use Rattle.std.specs.Prelude.{◌≡◌, ◌↔◌, [], length, IsSome, IsTrue, IsOk, IfOk, IfErr, OnOk, OnErr, IfSome, Some, None, Err, option_copied, option_map};
ghost use Rattle.std.specs.BTreeMap.{is_at, insert_entry};
ghost use Rattle.std.specs.Map.{remove_entry};
ghost use Rattle.std.specs.Ordering.{nat_cmp};
ghost use Rattle.dev_types.specs.declared.refusals.Refused.TheVariants.{ArrayMapped, NotMapped};

use crate::arrays::{Array, Block, note_loan, take_back};
use crate::lent::Lent;
use byte_view::Strided;
use dev_types::{Bytes, Handle, NoMemory, Refused};
use std::alloc::Global;
use std::collections::BTreeMap;
use std::marker::Model;

/// The arrays of a device, by handle. All elements of an array lie in its block.
#[derive(Drop)]
pub struct ArrayStore {
    arrays: BTreeMap<Handle, Array>,
}

impl Model for ArrayStore {
    ghost use Rattle.array_objects.specs.Stores.{Arrays, AllFit};

    ghost Value = { Arrays };

    ghost view = { λ s. s.arrays.entries };

    ghost invariant = { λ s. AllFit s.arrays.entries };
}

impl ArrayStore {
    ghost use Rattle.array_objects.specs.Stores.{array_at, block_at, loan_at, elements_of, Fits, mapped, unmapped, changed_at, IsOut, IsMapRefusal, ChangesAt};

    /// A store without arrays, which takes no memory.
    pub fn new(alloc: Global) -> ArrayStore
        ensures { result ≡ [] }
    {
        ArrayStore {
            arrays: BTreeMap::new(alloc),
        }
    }

    /// Keeps a block for an array that has none yet. Its elements must lie in its bytes, as
    /// `Strided::new` tells. Where there is no memory, the block comes back and the store is as it was.
    pub fn add(&mut self, _alloc: Global, h: Handle, block: Block) -> Result<(), (NoMemory, Block)>
        requires free { block_at self.old h ≡ None }
        requires fits { Fits block }
        ensures added { OnOk result (self.new ≡ insert_entry nat_cmp self.old h (record { block = block; loan = None })) }
        ensures changes { OnOk result (ChangesAt self.old self.new h (Some (record { block = block; loan = None }))) }
        ensures refused { OnErr result (self.new ≡ self.old) }
        ensures returned { IfErr result (λ e. e.1 ≡ block) }
    {
        let array = Array { block, loan: None };
        match self.arrays.insert(h, array) {
            Ok(_) => Ok(()),
            Err(failed) => Err((NoMemory, failed.value.1.block)),
        }
    }

    /// Lends an array's memory under this number. The loan has a copy of the content, which itself stays
    /// what it was.
    ///
    /// # Errors
    ///
    /// `ArrayMapped(h)` exactly where a loan of the array is out, else `NoMemory` where there is none for
    /// the copy; the store is as it was.
    pub fn map(&mut self, alloc: Global, h: Handle, number: u64) -> Result<Lent, Refused>
        requires { IsSome (block_at self.old h) }
        ensures loan { IfOk result (λ l. (l.array ≡ h) × (l.number ≡ number)) }
        ensures content { IfOk result (λ l. Some l.elements ≡ option_map elements_of (block_at self.old h)) }
        ensures mapped { OnOk result (self.new ≡ changed_at self.old h (mapped number)) }
        ensures changes { OnOk result (ChangesAt self.old self.new h (option_map (mapped number) (array_at self.old h))) }
        ensures same_content { block_at self.new h ≡ block_at self.old h }
        ensures refused_mapped { IsSome (loan_at self.old h) → result ≡ Err (ArrayMapped h) }
        ensures causes { IfErr result (IsMapRefusal self.old h) }
        ensures refused { OnErr result (self.new ≡ self.old) }
    {
        let lent = self.lend(alloc, h, number)?;
        note_loan(&mut self.arrays, h, number);
        Ok(lent)
    }

    /// Ends a loan. The array's content is then `content`, which has as many bytes as the loan; the
    /// content that it had comes back. This takes no memory.
    ///
    /// # Errors
    ///
    /// `NotMapped` exactly where no loan of this array, number and length is out in this store. The loan
    /// comes back, and the store is as it was.
    pub fn unmap(&mut self, lent: Lent, content: Bytes) -> Result<Bytes, (Refused, Lent)>
        requires { length content ≡ length lent.elements.bytes }
        ensures out { IsOk result ↔ IsOut (array_at self.old lent.array) lent.number (length lent.elements.bytes) }
        ensures unmapped { OnOk result (self.new ≡ changed_at self.old lent.array (unmapped content)) }
        ensures changes { OnOk result (ChangesAt self.old self.new lent.array (option_map (unmapped content) (array_at self.old lent.array))) }
        ensures old { IfOk result (λ old. Some old ≡ option_map (λ b. b.bytes) (block_at self.old lent.array)) }
        ensures cause { IfErr result (λ e. e.0 ≡ NotMapped) }
        ensures returned { IfErr result (λ e. e.1 ≡ lent) }
        ensures refused { OnErr result (self.new ≡ self.old) }
    {
        if !self.is_out(&lent) {
            return Err((Refused::NotMapped, lent));
        }
        let Some(old) = take_back(&mut self.arrays, lent.array(), content) else {
            unreachable!();
        };
        lent.give_up();
        Ok(old)
    }

    // A loan of the array, which is not noted yet.
    fn lend(&self, alloc: Global, h: Handle, number: u64) -> Result<Lent, Refused>
        requires { IsSome (block_at self.now h) }
        ensures loan { IfOk result (λ l. (l.array ≡ h) × (l.number ≡ number)) }
        ensures content { IfOk result (λ l. Some l.elements ≡ option_map elements_of (block_at self.now h)) }
        ensures refused_mapped { IsSome (loan_at self.now h) → result ≡ Err (ArrayMapped h) }
        ensures causes { IfErr result (IsMapRefusal self.now h) }
    {
        if self.loan(h).is_some() {
            return Err(Refused::ArrayMapped(h));
        }
        let Some(block) = self.block(h) else {
            unreachable!();
        };
        match Vec::from_slice(alloc, block.bytes.as_slice()) {
            Ok(bytes) => Ok(Lent::new(h, number, block, bytes)),
            Err(_) => Err(Refused::NoMemory),
        }
    }

    // Whether a loan of the same array, number and length is out.
    fn is_out(&self, lent: &Lent) -> bool
        ensures { IsTrue result ↔ IsOut (array_at self.now lent.now.array) lent.now.number (length lent.now.elements.bytes) }
    {
        match self.arrays.get(&lent.array()) {
            Some(array) => array.is_out(lent),
            None => false,
        }
    }

    /// The elements of an array; `None` exactly where there is no such array. While a loan is out, they
    /// are the old ones.
    pub fn view(&self, h: Handle) -> Option<Strided<'_>>
        ensures { result ≡ option_map elements_of (block_at self.now h) }
    {
        let block = self.block(h)?;
        Some(Strided::over(block.bytes.as_slice(), block.ty, block.stride, block.count))
    }

    /// The block of an array, in which its elements lie; `None` exactly where there is no such array.
    pub fn block(&self, h: Handle) -> Option<&Block>
        ensures block { option_copied result ≡ block_at self.now h }
        ensures fits { IfSome result (λ b. Fits b.now) }
    {
        let arrays = &self.arrays;
        Some(&arrays.get(&h)?.block)
    }

    /// The number of the loan of an array that is out; `None` exactly where the array is not mapped.
    pub fn loan(&self, h: Handle) -> Option<u64>
        ensures { result ≡ loan_at self.now h }
    {
        self.arrays.get(&h)?.loan
    }

    /// Takes an array out, also one that is mapped: its loan is out no more. `None` exactly where there is
    /// no such array.
    pub fn remove(&mut self, h: Handle) -> Option<Block>
        ensures value { result ≡ block_at self.old h }
        ensures fits { IfSome result Fits }
        ensures removed { self.new ≡ remove_entry (is_at (nat_cmp h)) self.old }
        ensures changes { ChangesAt self.old self.new h None }
    {
        Some(self.arrays.remove(&h)?.block)
    }
}
