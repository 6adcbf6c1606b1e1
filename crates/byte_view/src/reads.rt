ghost use Rattle.std.specs.Prelude.{◌≡◌, ◌-◌, ◌<◌, ◌≤◌, ◌↔◌, IsTrue, IsSome, IfSome, length, drop};
ghost use Rattle.dev_types.specs.Blocks.{FitsBlock, end_of};
ghost use Rattle.dev_types.specs.DataTypes.{byte_size};
ghost use Rattle.byte_view.specs.Elements.{part, element, start_of};

use dev_types::{
    DataType, Value, read_signed, read_signed_all, read_unsigned_all, read_value, size_of,
};
use std::marker::Model;

/// The elements of an array, lent from the block that holds them (ANARI 1.0 Specification, arrays).
/// Element i is the value of the `size_of(ty)` bytes from `i * stride`.
#[derive(Drop)]
pub struct Strided<'a> {
    bytes: &'a [u8],
    ty: DataType,
    stride: u64,
    count: u64,
}

impl<'a> Model for Strided<'a> {
    ghost use Rattle.std.specs.Prelude.{length};
    ghost use Rattle.dev_types.specs.Blocks.{FitsBlock};
    ghost use Rattle.byte_view.specs.Elements.{Elements};

    ghost Value = { Elements };

    ghost view = { λ s. record { ty = s.ty; stride = s.stride; count = s.count; bytes = s.bytes.now } };

    ghost invariant = { λ s. FitsBlock s.ty s.stride s.count (length s.bytes.now) };
}

impl<'a> Strided<'a> {
    /// `None` exactly where arrays have no elements of this type, where the stride is below the
    /// element's size, or where the last element does not end within the bytes.
    pub fn new(bytes: &'a [u8], ty: DataType, stride: u64, count: u64) -> Option<Strided<'a>>
        ensures valid { IsSome result ↔ FitsBlock ty stride count (length bytes.now) }
        ensures value { IfSome result (λ s. s ≡ record { ty = ty; stride = stride; count = count; bytes = bytes.now }) }
    {
        if fits_block(ty, stride, count, bytes.len()) {
            Some(Strided::over(bytes, ty, stride, count))
        } else {
            None
        }
    }

    /// The loan of elements that are known to lie in the bytes; `fits_block` is the test.
    pub fn over(bytes: &'a [u8], ty: DataType, stride: u64, count: u64) -> Strided<'a>
        requires { FitsBlock ty stride count (length bytes.now) }
        ensures { result ≡ record { ty = ty; stride = stride; count = count; bytes = bytes.now } }
    {
        Strided {
            bytes,
            ty,
            stride,
            count,
        }
    }

    pub fn data_type(&self) -> DataType
        ensures { result ≡ self.now.ty }
    {
        self.ty
    }

    /// The number of elements.
    pub fn len(&self) -> u64
        ensures { result ≡ self.now.count }
    {
        self.count
    }

    pub fn is_empty(&self) -> bool
        ensures { IsTrue result ↔ (self.now.count ≡ 0) }
    {
        self.count == 0
    }

    /// From each element to the next so many bytes.
    pub fn stride(&self) -> u64
        ensures { result ≡ self.now.stride }
    {
        self.stride
    }

    /// The own bytes of element `i`, lent from the block itself.
    pub fn part(&self, i: u64) -> &'a [u8]
        requires { i < self.now.count }
        ensures value { result.now ≡ part self.now i }
        ensures size { length result.now ≡ byte_size self.now.ty }
    {
        let start = (i * self.stride) as usize;
        let size = size_of(self.ty) as usize;
        &self.bytes[start..start + size]
    }

    /// Element `i`.
    pub fn get(&self, i: u64) -> Value
        requires { i < self.now.count }
        ensures { result ≡ element self.now i }
    {
        read_value(self.ty, self.part(i))
    }

    /// Element `i` of an array of scalars, in units of 1/65536, read from its bytes.
    pub fn scalar(&self, i: u64) -> i32
        requires typed { self.now.ty ≡ DataType.Scalar }
        requires within { i < self.now.count }
        ensures { element self.now i ≡ Value.Scalar result }
    {
        read_signed(self.part(i))
    }

    /// Element `i` of an array of three scalars each, as positions are, in units of 1/65536, read from its bytes.
    pub fn scalars(&self, i: u64) -> [i32; 3]
        requires typed { self.now.ty ≡ DataType.ScalarVec3 }
        requires within { i < self.now.count }
        ensures { element self.now i ≡ Value.ScalarVec3 result }
    {
        read_signed_all(self.part(i))
    }

    /// Element `i` of an array of three indices each, read from its bytes.
    pub fn indices(&self, i: u64) -> [u32; 3]
        requires typed { self.now.ty ≡ DataType.Uint32Vec3 }
        requires within { i < self.now.count }
        ensures { element self.now i ≡ Value.Uint32Vec3 result }
    {
        read_unsigned_all(self.part(i))
    }

    /// Element `i` of an array of four components of a byte each, read from its bytes.
    pub fn components(&self, i: u64) -> [u8; 4]
        requires typed { self.now.ty ≡ DataType.Ufixed8Vec4 }
        requires within { i < self.now.count }
        ensures { element self.now i ≡ Value.Ufixed8Vec4 result }
    {
        let part = self.part(i);
        [part[0], part[1], part[2], part[3]]
    }

    /// The elements `i` to `j - 1`.
    pub fn range(&self, i: u64, j: u64) -> Strided<'a>
        requires ordered { i ≤ j }
        requires within { j ≤ self.now.count }
        ensures { result ≡ record self.now { count = j - i; bytes = drop (start_of self.now i) self.now.bytes } }
    {
        let bytes = self.bytes_from(i);
        Strided {
            bytes,
            ty: self.ty,
            stride: self.stride,
            count: j - i,
        }
    }

    // The bytes from element i on, and none behind the last element.
    fn bytes_from(&self, i: u64) -> &'a [u8]
        requires { i ≤ self.now.count }
        ensures value { result.now ≡ drop (start_of self.now i) self.now.bytes }
    {
        if i < self.count {
            &self.bytes[(i * self.stride) as usize..]
        } else {
            &self.bytes[self.bytes.len()..]
        }
    }
}

/// Whether arrays may have elements of this type, and so many of them, each `stride` bytes behind the one
/// before and none over another, lie in a block of `len` bytes.
pub fn fits_block(ty: DataType, stride: u64, count: u64, len: usize) -> bool
    ensures { IsTrue result ↔ FitsBlock ty stride count len }
{
    let size = u64::from(size_of(ty));
    ty.is_element() && size <= stride && ends_within(size, stride, count, len as u64)
}

fn ends_within(size: u64, stride: u64, count: u64, len: u64) -> bool
    ensures { IsTrue result ↔ (end_of size stride count ≤ len) }
{
    match count.checked_sub(1) {
        None => true,
        Some(last) => match last.checked_mul(stride) {
            Some(start) => start <= len && size <= len - start,
            None => false,
        },
    }
}
