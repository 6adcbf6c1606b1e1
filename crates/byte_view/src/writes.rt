ghost use Rattle.std.specs.Prelude.{◌≡◌, ◌-◌, ◌<◌, ◌≤◌, ◌↔◌, IsTrue, IsSome, IfSome, length, take, drop, ◌++◌};
ghost use Rattle.std.specs.Borrow.{sem, Array, LendsBoth, RestsIfNone, follows_both, u8 as byte};
ghost use Rattle.byte_view.specs.Elements.{cut_before};
ghost use Rattle.dev_types.specs.Blocks.{FitsBlock, with_part};
ghost use Rattle.dev_types.specs.ValueBytes.{type_of, bytes_of, is_well_typed};

use crate::reads::fits_block;
use dev_types::{DataType, Value, size_of, write_value};

/// The elements of an array, lent from the block that holds them, to be written in place (ANARI 1.0
/// Specification, arrays). Element i is the value of the `size_of(ty)` bytes from `i * stride`.
#[derive(Drop)]
pub struct StridedMut<'a> {
    bytes: &'a mut [u8],
    ty: DataType,
    stride: u64,
    count: u64,
    pub ghost fits: { FitsBlock ty stride count (length bytes.now) },
}

impl<'a> StridedMut<'a> {
    ghost use Rattle.byte_view.specs.Elements.{Elements, element, with_element, start_of};
    ghost use Rattle.byte_view.specs.Halves.{elements, borrow_of};

    /// `None` exactly where arrays have no elements of this type, where the stride is below the
    /// element's size, or where the last element does not end within the bytes. The bytes then stay as they
    /// were; what is written through the loan stands in them afterwards.
    pub fn new(bytes: &'a mut [u8], ty: DataType, stride: u64, count: u64) -> Option<StridedMut<'a>>
        ensures valid { IsSome result ↔ FitsBlock ty stride count (length bytes.old) }
        ensures value { IfSome result (λ s. elements s ≡ record { ty = ty; stride = stride; count = count; bytes = bytes.old }) }
        ensures same_borrow { IfSome result (λ s. borrow_of s ≡ bytes.entry.ghost_name) }
        ensures* writes_back { sem 𝓛 (RestsIfNone (Array byte 0) bytes.entry borrow_of result (λ last. last ≡ bytes.old)) }
    {
        if fits_block(ty, stride, count, bytes.len()) {
            Some(StridedMut::over(bytes, ty, stride, count))
        } else {
            None
        }
    }

    /// The loan of elements that are known to lie in the bytes; `fits_block` is the test. What is written
    /// through it stands in the bytes afterwards.
    pub fn over(bytes: &'a mut [u8], ty: DataType, stride: u64, count: u64) -> StridedMut<'a>
        requires { FitsBlock ty stride count (length bytes.old) }
        ensures value { elements result ≡ record { ty = ty; stride = stride; count = count; bytes = bytes.old } }
        ensures same_borrow { borrow_of result ≡ bytes.entry.ghost_name }
    {
        StridedMut {
            bytes,
            ty,
            stride,
            count,
        }
    }

    pub fn data_type(&self) -> DataType
        ensures { result ≡ (elements self.now).ty }
    {
        self.ty
    }

    /// The number of elements.
    pub fn len(&self) -> u64
        ensures { result ≡ (elements self.now).count }
    {
        self.count
    }

    pub fn is_empty(&self) -> bool
        ensures { IsTrue result ↔ ((elements self.now).count ≡ 0) }
    {
        self.count == 0
    }

    /// From each element to the next so many bytes.
    pub fn stride(&self) -> u64
        ensures { result ≡ (elements self.now).stride }
    {
        self.stride
    }

    /// Writes element `i`: its own bytes, and no other byte of the block.
    pub fn set(&mut self, i: u64, v: &Value)
        requires within { i < (elements self.old).count }
        requires typed { type_of v.now ≡ (elements self.old).ty }
        requires well_typed { IsTrue (is_well_typed v.now) }
        ensures value { elements self.new ≡ with_element (elements self.old) i (bytes_of v.now) }
        ensures back { element (elements self.new) i ≡ v.now }
        ensures same_borrow { borrow_of self.new ≡ borrow_of self.old }
    {
        let start = (i * self.stride) as usize;
        let size = size_of(self.ty) as usize;
        write_value(v, &mut self.bytes[start..start + size]);
    }

    /// Writes element `i`: its own bytes, and no other byte of the block. The loan ends with it.
    pub fn put(self, i: u64, v: &Value)
        requires within { i < (elements self).count }
        requires typed { type_of v.now ≡ (elements self).ty }
        requires well_typed { IsTrue (is_well_typed v.now) }
        ensures { self.exit.0.now ≡ (with_element (elements self.entry) i (bytes_of v.now)).bytes }
    {
        let StridedMut {
            bytes,
            ty,
            stride,
            count,
        } = self;
        write_element(bytes, ty, stride, count, i, v);
    }

    /// The elements before `i` and those from `i` on, to be written independently of each other. The
    /// bytes are cut as by `split_block`, and in the end they are those of the first half and then those of
    /// the second, as each was left.
    pub fn split_at_mut(self, i: u64) -> (StridedMut<'a>, StridedMut<'a>)
        requires { i ≤ (elements self).count }
        ensures front { let e = elements self.entry in elements result.0 ≡ record e { count = i; bytes = take (start_of e i) e.bytes } }
        ensures back { let e = elements self.entry in elements result.1 ≡ record e { count = e.count - i; bytes = drop (start_of e i) e.bytes } }
        ensures* writes_back { sem 𝓛 (follows_both (Array byte 0) (Array byte 0) (Array byte 0) (borrow_of self.entry) (borrow_of result.0) (borrow_of result.1) ◌++◌) }
    {
        let StridedMut {
            bytes,
            ty,
            stride,
            count,
        } = self;
        let (front, back) = split_block(bytes, ty, stride, count, i);
        (
            StridedMut {
                bytes: front,
                ty,
                stride,
                count: i,
            },
            StridedMut {
                bytes: back,
                ty,
                stride,
                count: count - i,
            },
        )
    }
}

fn write_element(bytes: &mut [u8], ty: DataType, stride: u64, count: u64, i: u64, v: &Value)
    requires fits { FitsBlock ty stride count (length bytes.old) }
    requires within { i < count }
    requires typed { type_of v.now ≡ ty }
    requires well_typed { IsTrue (is_well_typed v.now) }
    ensures { bytes.new ≡ with_part ty stride bytes.old i (bytes_of v.now) }
{
    StridedMut::over(bytes, ty, stride, count).set(i, v);
}

/// Cuts a block of elements before element `i`. Both parts are blocks of their elements, which
/// `StridedMut::over` lends, and what is written to either stands in the whole block afterwards.
pub fn split_block(
    bytes: &mut [u8],
    ty: DataType,
    stride: u64,
    count: u64,
    i: u64,
) -> (&mut [u8], &mut [u8])
    requires fits { FitsBlock ty stride count (length bytes.old) }
    requires within { i ≤ count }
    ensures front { result.0.now ≡ take (cut_before stride count (length bytes.old) i) bytes.old }
    ensures back { result.1.now ≡ drop (cut_before stride count (length bytes.old) i) bytes.old }
    ensures front_fits { FitsBlock ty stride i (length result.0.now) }
    ensures back_fits { FitsBlock ty stride (count - i) (length result.1.now) }
    ensures* writes_back { sem 𝓛 (LendsBoth (Array byte 0) (Array byte 0) (Array byte 0) bytes.entry result ◌++◌) }
{
    if i < count {
        bytes.split_at_mut((i * stride) as usize)
    } else {
        let end = bytes.len();
        bytes.split_at_mut(end)
    }
}
