//! Entries of a journal as they are printed.
use dev_types::{Bytes, Channel, DataType, Handle, Name, Names, Origin, ParamInfo, Refused, Value};

/// An entry: who called, the call, and what it answered.
#[derive(Drop)]
pub struct EntryText {
    /// The caller's number; `None` for the notes of frames in flight and for the close.
    pub actor: Option<u32>,
    pub call: CallText,
    pub reply: ReplyText,
}

/// A call on a device with all that was handed in (ANARI 1.0 Specification, the application's calls), or
/// what a device notes by itself.
#[derive(Drop)]
pub enum CallText {
    NewObject {
        ty: DataType,
        subtype: Name,
    },
    /// `stride` is the number of bytes from one element to the next.
    NewArray {
        elem: DataType,
        count: u64,
        stride: u64,
        origin: Origin,
        /// The bytes that were handed in, none for a managed array.
        bytes: Bytes,
    },
    Retain {
        h: Handle,
    },
    Release {
        h: Handle,
    },
    SetParameter {
        h: Handle,
        name: Name,
        value: Value,
    },
    UnsetParameter {
        h: Handle,
        name: Name,
    },
    UnsetAll {
        h: Handle,
    },
    Commit {
        h: Handle,
    },
    MapArray {
        h: Handle,
    },
    /// `number` is the loan's: the place of the entry that granted it.
    UnmapArray {
        h: Handle,
        number: u64,
        /// The array's new bytes.
        bytes: Bytes,
    },
    MapParameterArray {
        h: Handle,
        name: Name,
        elem: DataType,
        count: u64,
    },
    /// `number` is the loan's: the place of the entry that granted it.
    UnmapParameterArray {
        h: Handle,
        name: Name,
        number: u64,
        /// The new array's bytes.
        bytes: Bytes,
    },
    RenderFrame {
        h: Handle,
    },
    FrameReady {
        h: Handle,
        wait: bool,
    },
    DiscardFrame {
        h: Handle,
    },
    MapFrame {
        h: Handle,
        channel: Channel,
    },
    /// `number` is the loan's: the place of the entry that granted it.
    UnmapFrame {
        h: Handle,
        number: u64,
    },
    GetProperty {
        h: Handle,
        name: Name,
    },
    Subtypes {
        ty: DataType,
    },
    ObjectInfo {
        ty: DataType,
        subtype: Name,
    },
    ParameterInfo {
        ty: DataType,
        subtype: Name,
        name: Name,
    },
    /// The frame that was rendered at this place has its picture.
    Finished(u64),
    /// The frame that was rendered at this place was left without its picture.
    Left(u64),
    /// The device was closed.
    Close,
}

/// What a call answered.
#[derive(Drop)]
pub enum ReplyText {
    Done,
    /// The object that was made.
    Made(Handle),
    /// The number of the loan: the place of its own entry.
    Lent(u64),
    /// A mapped channel of a frame, four bytes a pixel and rows from the lowest up.
    Mapped {
        width: u32,
        height: u32,
        ty: DataType,
        rows: Bytes,
    },
    /// The frame has its picture.
    Ready,
    /// The frame is in flight: `given` of its `of` tiles were seen finished.
    NotReady {
        given: u64,
        of: u64,
    },
    /// The value of a property.
    Val(Value),
    /// Names of subtypes or of parameters.
    Listed(Names),
    /// What is known of a parameter.
    Info(ParamInfo),
    /// The call was refused, and changed nothing.
    Denied(Refused),
    /// A note or the close, which nobody called.
    Noted,
}
