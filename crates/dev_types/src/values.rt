ghost use Rattle.std.specs.Prelude.{◌≡◌, ◌*◌, ◌↔◌, Some, IsTrue, IsSome, IfSome, IfOk, length};
ghost use Rattle.std.specs.Int.{w64, to_le_bytes, from_le_bytes};
ghost use Rattle.std.specs.List.{flat_map};
ghost use Rattle.dev_types.specs.DataTypes.{byte_size};
ghost use Rattle.dev_types.specs.ValueBytes.{type_of, bytes_of, value_size, is_well_typed, unsigned_bytes, signed_bytes, unsigned_number, signed_number, unsigned_numbers, signed_numbers, has_any_bytes, are_bytes_of, value_of, decoded};

use crate::data_types::{DataType, size_of};
use crate::handles::{Handle, NoMemory};
use crate::texts::Text;
use std::alloc::Global;
use std::str;

/// A value of a parameter, an element or a property. Scalars are signed, in units of 1/65536.
#[derive(Clone, Debug, PartialEq, Eq, Drop)]
pub enum Value {
    Int32(i32),
    Uint32(u32),
    Uint32Vec2([u32; 2]),
    Uint32Vec3([u32; 3]),
    Uint64(u64),
    Scalar(i32),
    ScalarVec2([i32; 2]),
    ScalarVec3([i32; 3]),
    /// Four columns of three scalars.
    ScalarMat34([i32; 12]),
    /// Three lower scalars, then three upper ones.
    ScalarBox3([i32; 6]),
    Ufixed8Vec4([u8; 4]),
    Str(Text),
    TypeName(DataType),
    /// An object and the type that it is taken for, which a device tests.
    Object(DataType, Handle),
}

impl Value {
    /// The data type of this value.
    pub fn data_type(&self) -> DataType
        ensures { result ≡ type_of self.now }
    {
        match self {
            Value::Int32(_) => DataType::Int32,
            Value::Uint32(_) => DataType::Uint32,
            Value::Uint32Vec2(_) => DataType::Uint32Vec2,
            Value::Uint32Vec3(_) => DataType::Uint32Vec3,
            Value::Uint64(_) => DataType::Uint64,
            Value::Scalar(_) => DataType::Scalar,
            Value::ScalarVec2(_) => DataType::ScalarVec2,
            Value::ScalarVec3(_) => DataType::ScalarVec3,
            Value::ScalarMat34(_) => DataType::ScalarMat34,
            Value::ScalarBox3(_) => DataType::ScalarBox3,
            Value::Ufixed8Vec4(_) => DataType::Ufixed8Vec4,
            Value::Str(_) => DataType::Str,
            Value::TypeName(_) => DataType::TypeName,
            Value::Object(ty, _) => *ty,
        }
    }

    /// The same value once more; it takes no memory.
    pub fn copied(&self) -> Value
        ensures { result ≡ self.now }
    {
        match self.clone() {
            Ok(value) => value,
            Err(_) => unreachable!(),
        }
    }

    /// How many bytes this value has.
    pub fn encoded_len(&self) -> usize
        ensures { result ≡ value_size self.now }
    {
        match self {
            Value::Str(text) => text.as_str().len(),
            Value::Object(..) => 8,
            _ => size_of(self.data_type()) as usize,
        }
    }
}

/// Writes the value's bytes over all of `into`: little-endian, components in order, an object as the 8
/// bytes of its handle.
#[tactic(auto, using(crate::proofs::ValueFacts::number_of_bytes))]
pub fn write_value(value: &Value, into: &mut [u8])
    requires { length into.old ≡ value_size value.now }
    ensures value { into.new ≡ bytes_of value.now }

    // The value can be read from its bytes again, but for an object of no object type.
    ensures back { IsTrue (is_well_typed value.now) → decoded (type_of value.now) into.new ≡ Some value.now }
{
    match value {
        Value::Int32(number) => into.copy_from_slice(&number.to_le_bytes()),
        Value::Uint32(number) => into.copy_from_slice(&number.to_le_bytes()),
        Value::Uint32Vec2(numbers) => write_unsigned(numbers, into),
        Value::Uint32Vec3(numbers) => write_unsigned(numbers, into),
        Value::Uint64(number) => into.copy_from_slice(&number.to_le_bytes()),
        Value::Scalar(number) => into.copy_from_slice(&number.to_le_bytes()),
        Value::ScalarVec2(numbers) => write_signed(numbers, into),
        Value::ScalarVec3(numbers) => write_signed(numbers, into),
        Value::ScalarMat34(numbers) => write_signed(numbers, into),
        Value::ScalarBox3(numbers) => write_signed(numbers, into),
        Value::Ufixed8Vec4(bytes) => into.copy_from_slice(bytes),
        Value::Str(text) => into.copy_from_slice(text.as_str().as_bytes()),
        Value::TypeName(ty) => into.copy_from_slice(&ty.number().to_le_bytes()),
        Value::Object(_, handle) => into.copy_from_slice(&handle.0.to_le_bytes()),
    }
}

fn write_unsigned<const N: usize>(numbers: &[u32; N], into: &mut [u8])
    requires { length into.old ≡ 4 * N }
    ensures value { into.new ≡ flat_map unsigned_bytes numbers.now }
    ensures back { unsigned_numbers N into.new ≡ numbers.now }
{
    for (i, &number) in numbers.iter().enumerate() {
        into[4 * i..4 * i + 4].copy_from_slice(&number.to_le_bytes());
    }
}

fn write_signed<const N: usize>(numbers: &[i32; N], into: &mut [u8])
    requires { length into.old ≡ 4 * N }
    ensures value { into.new ≡ flat_map signed_bytes numbers.now }
    ensures back { signed_numbers N into.new ≡ numbers.now }
{
    for (i, &number) in numbers.iter().enumerate() {
        into[4 * i..4 * i + 4].copy_from_slice(&number.to_le_bytes());
    }
}

/// The value's bytes in a vector of their own: little-endian, components in order, an object as the 8
/// bytes of its handle.
pub fn encode_value(alloc: Global, v: &Value) -> Result<Vec<u8>, NoMemory>
    ensures value { IfOk result (λ bytes. bytes.items ≡ bytes_of v.now) }

    // The value can be read from its bytes again, but for an object of no object type.
    ensures back { IfOk result (λ bytes. IsTrue (is_well_typed v.now) → decoded (type_of v.now) bytes.items ≡ Some v.now) }
{
    let mut bytes = vec![in alloc; 0; v.encoded_len()]?;
    write_value(v, &mut bytes);
    Ok(bytes)
}

/// The value of type `ty` with these bytes. `None` exactly where the number of bytes is not that of the
/// type, where a string is longer than 256 bytes or not UTF-8, or where there is no type with the
/// number.
pub fn decode_value(ty: DataType, bytes: &[u8]) -> Option<Value>
    ensures value { result ≡ decoded ty bytes.now }
    ensures known { IsSome result ↔ IsTrue (are_bytes_of ty bytes.now) }
    ensures bytes { IfSome result (λ v. (type_of v ≡ ty) × (bytes_of v ≡ bytes.now)) }
{
    match ty {
        DataType::Str => decode_text(bytes),
        DataType::TypeName => decode_type(bytes),
        _ if bytes.len() == size_of(ty) as usize => Some(read_value(ty, bytes)),
        _ => None,
    }
}

#[tactic(auto, using(crate::proofs::TextFacts::not_text))]
fn decode_text(bytes: &[u8]) -> Option<Value>
    ensures value { result ≡ decoded DataType.Str bytes.now }
    ensures bytes { IfSome result (λ v. v ≡ Value.Str bytes.now) }
{
    let text = Text::new(str::from_utf8(bytes).ok()?)?;
    Some(Value::Str(text))
}

fn decode_type(bytes: &[u8]) -> Option<Value>
    ensures value { result ≡ decoded DataType.TypeName bytes.now }
    ensures bytes { IfSome result (λ v. bytes_of v ≡ bytes.now) }
{
    if bytes.len() != 4 {
        return None;
    }
    let ty = DataType::from_number(read_unsigned(bytes))?;
    Some(Value::TypeName(ty))
}

/// The value of type `ty` with these bytes, for the types whose values may have any bytes of the right
/// number: all but strings and names of types.
pub fn read_value(ty: DataType, bytes: &[u8]) -> Value
    requires open { IsTrue (has_any_bytes ty) }
    requires sized { length bytes.now ≡ byte_size ty }
    ensures value { result ≡ value_of ty bytes.now }
    ensures bytes { (type_of result ≡ ty) × (bytes_of result ≡ bytes.now) }
{
    match ty {
        DataType::Int32 => Value::Int32(read_signed(bytes)),
        DataType::Uint32 => Value::Uint32(read_unsigned(bytes)),
        DataType::Uint32Vec2 => Value::Uint32Vec2(read_unsigned_all(bytes)),
        DataType::Uint32Vec3 => Value::Uint32Vec3(read_unsigned_all(bytes)),
        DataType::Uint64 => Value::Uint64(read_long(bytes)),
        DataType::Scalar => Value::Scalar(read_signed(bytes)),
        DataType::ScalarVec2 => Value::ScalarVec2(read_signed_all(bytes)),
        DataType::ScalarVec3 => Value::ScalarVec3(read_signed_all(bytes)),
        DataType::ScalarMat34 => Value::ScalarMat34(read_signed_all(bytes)),
        DataType::ScalarBox3 => Value::ScalarBox3(read_signed_all(bytes)),
        DataType::Ufixed8Vec4 => Value::Ufixed8Vec4([bytes[0], bytes[1], bytes[2], bytes[3]]),
        _ => Value::Object(ty, Handle(read_long(bytes))),
    }
}

fn read_unsigned(bytes: &[u8]) -> u32
    requires { length bytes.now ≡ 4 }
    ensures value { result ≡ unsigned_number bytes.now }
    ensures bytes { unsigned_bytes result ≡ bytes.now }
{
    u32::from_le_bytes([bytes[0], bytes[1], bytes[2], bytes[3]])
}

/// The signed number in four bytes, lowest byte first.
pub fn read_signed(bytes: &[u8]) -> i32
    requires { length bytes.now ≡ 4 }
    ensures value { result ≡ signed_number bytes.now }
    ensures bytes { signed_bytes result ≡ bytes.now }
{
    i32::from_le_bytes([bytes[0], bytes[1], bytes[2], bytes[3]])
}

fn read_long(bytes: &[u8]) -> u64
    requires { length bytes.now ≡ 8 }
    ensures value { result ≡ from_le_bytes w64 bytes.now }
    ensures bytes { to_le_bytes w64 result ≡ bytes.now }
{
    u64::from_le_bytes([
        bytes[0], bytes[1], bytes[2], bytes[3], bytes[4], bytes[5], bytes[6], bytes[7],
    ])
}

/// The unsigned numbers in groups of four bytes, each with its lowest byte first.
pub fn read_unsigned_all<const N: usize>(bytes: &[u8]) -> [u32; N]
    requires { length bytes.now ≡ 4 * N }
    ensures value { result ≡ unsigned_numbers N bytes.now }
    ensures bytes { flat_map unsigned_bytes result ≡ bytes.now }
{
    let mut numbers = [0; N];
    for i in 0..N {
        numbers[i] = read_unsigned(&bytes[4 * i..4 * i + 4]);
    }
    numbers
}

/// The signed numbers in groups of four bytes, each with its lowest byte first.
pub fn read_signed_all<const N: usize>(bytes: &[u8]) -> [i32; N]
    requires { length bytes.now ≡ 4 * N }
    ensures value { result ≡ signed_numbers N bytes.now }
    ensures bytes { flat_map signed_bytes result ≡ bytes.now }
{
    let mut numbers = [0; N];
    for i in 0..N {
        numbers[i] = read_signed(&bytes[4 * i..4 * i + 4]);
    }
    numbers
}
