// The core types of the rendering device: handles, names, data types, values and their bytes, shared
// blocks, refusals and statuses, and the client that is told of them. Every layer above speaks in
// these types, and contracts see each of them as plain mathematics: a handle is its number, a name, a
// text or a block is the list of its bytes, and an enum is itself.
#![tactic(auto)]

pub mod answers;
pub mod blocks;
pub mod data_types;
pub mod handles;
pub mod notices;
pub mod refusals;
pub mod texts;
pub mod values;
pub mod words;

pub use answers::{Names, ParamInfo, Ready, TypeList};
pub use blocks::Bytes;
pub use data_types::{DataType, size_of};
pub use handles::{Channel, Handle, NoMemory, Origin};
pub use notices::{Client, Notice};
pub use refusals::{Code, Refused, Severity, Status, code_of, severity_of};
pub use texts::{Name, Text};
pub use values::{
    Value, decode_value, encode_value, read_signed, read_signed_all, read_unsigned_all, read_value,
    write_value,
};
