//! Calls, their replies, and the entries of a journal.
ghost use Rattle.std.specs.Prelude.{◌≡◌, IfOk};

use dev_types::{
    Bytes, Channel, DataType, Handle, Name, Names, NoMemory, Origin, ParamInfo, Refused, Value,
};
use std::alloc::Global;

/// A call of the device. An unmap brings the bytes of its loan.
#[derive(Drop)]
pub enum Call {
    NewObject {
        ty: DataType,
        subtype: Name,
    },
    NewArray {
        elem: DataType,
        count: u64,
        /// Bytes from one element to the next.
        stride: u64,
        origin: Origin,
        bytes: Bytes,
    },
    Retain {
        h: Handle,
    },
    Release {
        h: Handle,
    },
    SetParameter {
        h: Handle,
        name: Name,
        value: Value,
    },
    UnsetParameter {
        h: Handle,
        name: Name,
    },
    UnsetAll {
        h: Handle,
    },
    Commit {
        h: Handle,
    },
    MapArray {
        h: Handle,
    },
    /// `number` is the place of the entry that lent the array.
    UnmapArray {
        h: Handle,
        number: u64,
        bytes: Bytes,
    },
    MapParameterArray {
        h: Handle,
        name: Name,
        elem: DataType,
        count: u64,
    },
    UnmapParameterArray {
        h: Handle,
        name: Name,
        number: u64,
        bytes: Bytes,
    },
    RenderFrame {
        h: Handle,
    },
    FrameReady {
        h: Handle,
        wait: bool,
    },
    DiscardFrame {
        h: Handle,
    },
    MapFrame {
        h: Handle,
        channel: Channel,
    },
    /// `number` is the place of the entry that lent the channel.
    UnmapFrame {
        h: Handle,
        number: u64,
    },
    /// Of handle 0 the device itself is asked.
    GetProperty {
        h: Handle,
        name: Name,
    },
    Subtypes {
        ty: DataType,
    },
    ObjectInfo {
        ty: DataType,
        subtype: Name,
    },
    ParameterInfo {
        ty: DataType,
        subtype: Name,
        name: Name,
    },
}

/// What a call was answered.
#[derive(Drop)]
pub enum Reply {
    Done,
    /// The handle of the object that was made.
    Made(Handle),
    /// The number of a loan: the place of its entry.
    Lent(u64),
    /// A channel of a frame, four bytes a pixel, by rows from the lowest up.
    Mapped {
        width: u32,
        height: u32,
        ty: DataType,
        rows: Bytes,
    },
    Ready,
    /// So many of the frame's tiles were seen finished.
    NotReady {
        given: u64,
        of: u64,
    },
    Val(Value),
    Listed(Names),
    Info(ParamInfo),
    Denied(Refused),
}

impl Reply {
    /// The same reply once more. The bytes of a picture are shared and not copied; the only error is want of memory.
    pub fn share(&self, alloc: Global) -> Result<Reply, NoMemory>
        ensures { IfOk result (λ reply. reply ≡ self.now) }
    {
        Ok(match self {
            Reply::Done => Reply::Done,
            Reply::Made(h) => Reply::Made(*h),
            Reply::Lent(number) => Reply::Lent(*number),
            Reply::Mapped {
                width,
                height,
                ty,
                rows,
            } => Reply::Mapped {
                width: *width,
                height: *height,
                ty: *ty,
                rows: rows.share(alloc)?,
            },
            Reply::Ready => Reply::Ready,
            Reply::NotReady { given, of } => Reply::NotReady {
                given: *given,
                of: *of,
            },
            Reply::Val(value) => Reply::Val(value.copied()),
            Reply::Listed(names) => Reply::Listed(names.copied(alloc)?),
            Reply::Info(info) => Reply::Info(info.copied(alloc)?),
            Reply::Denied(refused) => Reply::Denied(refused.copied()),
        })
    }
}

/// An entry of the journal: a call with its reply, or a note of the device.
#[derive(Drop)]
pub enum Entry {
    Called {
        actor: u32,
        call: Call,
        reply: Reply,
    },
    /// All tiles of the flight with this ticket are done: its frame has its picture.
    Finished(u64),
    /// The flight with this ticket was stopped, and no tile of it is worked on any more.
    Left(u64),
    /// The device was closed. This is the last entry.
    Closed,
}
