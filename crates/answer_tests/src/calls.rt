//! Calls and refusals, in short.
use dev_types::{Bytes, Channel, DataType, Handle, Name, Origin, Refused, Value, encode_value};
use seq_model::Call;
use std::alloc::Global;
use std::test::Fail;

pub fn name(text: &str) -> Result<Name, Fail> {
    Ok(Name::new(text).ok_or("a name")?)
}

pub fn object(ty: DataType, h: u64) -> Value {
    Value::Object(ty, Handle(h))
}

/// An array of these values, so many bytes apart.
pub fn array_of(
    alloc: Global,
    elem: DataType,
    stride: u64,
    origin: Origin,
    values: &[Value],
) -> Result<Call, Fail> {
    let mut bytes = Vec::new(alloc);
    for value in values {
        bytes.extend_from_slice(&encode_value(alloc, value)?)?;
    }
    let bytes = Bytes::of(alloc, bytes).map_err(|_| "a block")?;
    Ok(Call::NewArray {
        elem,
        count: values.len() as u64,
        stride,
        origin,
        bytes,
    })
}

/// An array of surfaces.
pub fn surfaces(alloc: Global, handles: &[u64]) -> Result<Call, Fail> {
    let mut values = Vec::new(alloc);
    for h in handles {
        values.push(object(DataType::Surface, *h))?;
    }
    array_of(alloc, DataType::Surface, 8, Origin::Captured(1), &values)
}

pub fn set(h: u64, text: &str, value: Value) -> Result<Call, Fail> {
    Ok(Call::SetParameter {
        h: Handle(h),
        name: name(text)?,
        value,
    })
}

pub fn unset(h: u64, text: &str) -> Result<Call, Fail> {
    Ok(Call::UnsetParameter {
        h: Handle(h),
        name: name(text)?,
    })
}

pub fn map_parameter(h: u64, text: &str, elem: DataType, count: u64) -> Result<Call, Fail> {
    Ok(Call::MapParameterArray {
        h: Handle(h),
        name: name(text)?,
        elem,
        count,
    })
}

pub fn map_array(h: u64) -> Call {
    Call::MapArray { h: Handle(h) }
}

pub fn render(h: u64) -> Call {
    Call::RenderFrame { h: Handle(h) }
}

pub fn ready(h: u64) -> Call {
    Call::FrameReady {
        h: Handle(h),
        wait: false,
    }
}

pub fn discard(h: u64) -> Call {
    Call::DiscardFrame { h: Handle(h) }
}

pub fn map_frame(h: u64, channel: Channel) -> Call {
    Call::MapFrame {
        h: Handle(h),
        channel,
    }
}

pub fn property(h: u64, text: &str) -> Result<Call, Fail> {
    Ok(Call::GetProperty {
        h: Handle(h),
        name: name(text)?,
    })
}

pub fn parameter_info(ty: DataType, subtype: &str, text: &str) -> Result<Call, Fail> {
    Ok(Call::ParameterInfo {
        ty,
        subtype: name(subtype)?,
        name: name(text)?,
    })
}

pub fn object_info(ty: DataType, subtype: &str) -> Result<Call, Fail> {
    Ok(Call::ObjectInfo {
        ty,
        subtype: name(subtype)?,
    })
}

pub fn dead(h: u64) -> Refused {
    Refused::BadHandle(Handle(h))
}

pub fn not_held(h: u64) -> Refused {
    Refused::NotHeld(Handle(h))
}

pub fn wrong_kind(h: u64) -> Refused {
    Refused::WrongKind(Handle(h))
}
