//! What the values of parameters name, and the types of what channels show.
ghost use Rattle.std.specs.Prelude.{◌≡◌};
ghost use Rattle.kind_tables.specs.Ranges.{type_of_channel};
ghost use Rattle.kind_tables.specs.SceneObjects.{object_in};

use dev_types::{Channel, DataType, Handle, Value};

/// The object that a value names; handle 0 is none.
pub fn object_in(value: &Value) -> Option<Handle>
    ensures { result ≡ object_in value.now }
{
    match value {
        Value::Object(_, handle) if handle.0 > 0 => Some(*handle),
        _ => None,
    }
}

/// The type of the pixels of a channel (ANARI 1.0 Specification, Frame: channels).
pub fn type_of_channel(channel: Channel) -> DataType
    ensures { result ≡ type_of_channel channel }
{
    match channel {
        Channel::Color => DataType::Ufixed8Vec4,
        _ => DataType::Uint32,
    }
}
