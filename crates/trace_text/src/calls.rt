//! What a trace says.

use dev_types::{Channel, DataType, Name, Origin, Value};
use sqlite_items::Items;

/// A whole trace: phases that come one after the other.
#[derive(Debug, Drop)]
pub struct Trace {
    pub phases: Items<Phase>,
}

/// Callers that run at the same time. Caller i of a phase is actor i.
#[derive(Debug, Drop)]
pub struct Phase {
    /// 1 to 8 callers.
    pub callers: Items<Caller>,
}

/// What one caller does in a phase, in its order. The calls inside a loan stand between the call that
/// opens it and its `EndLoan`; loans are nested at most 8 deep.
#[derive(Debug, Drop)]
pub struct Caller {
    pub calls: Items<TraceCall>,
}

/// A call of a caller. Objects go by labels: each is bound by one creation of the whole trace, and
/// stands for what that creation made. One that nothing has bound yet stands for handle 0.
#[derive(Debug, Drop)]
pub enum TraceCall {
    /// Makes an object of a type that is no array.
    New {
        label: Name,
        ty: DataType,
        subtype: Name,
    },
    /// Makes an array of `count` elements, each `stride` bytes after the one before.
    NewArray {
        label: Name,
        elem: DataType,
        count: u64,
        stride: u64,
        origin: Origin,
        data: ArrayData,
    },
    Retain {
        object: Name,
    },
    Release {
        object: Name,
    },
    Set {
        object: Name,
        name: Name,
        value: SetValue,
    },
    Unset {
        object: Name,
        name: Name,
    },
    UnsetAll {
        object: Name,
    },
    Commit {
        object: Name,
    },
    /// Maps an array, and writes elements. What follows up to the matching `EndLoan` is done whether or
    /// not the loan was granted.
    WithArray {
        array: Name,
        write: Items<Write>,
    },
    /// Maps a new array for a parameter, and writes elements; else like `WithArray`.
    WithParam {
        object: Name,
        name: Name,
        elem: DataType,
        count: u64,
        write: Items<Write>,
    },
    /// Maps a channel of a frame; else like `WithArray`.
    WithFrame {
        frame: Name,
        channel: Channel,
    },
    /// Ends the innermost loan that is open, by unmapping it where it was granted.
    EndLoan,
    Render {
        frame: Name,
    },
    Discard {
        frame: Name,
    },
    Ready {
        frame: Name,
        wait: bool,
    },
    Query(Query),
}

/// What is asked of a device.
#[derive(Debug, Drop)]
pub enum Query {
    /// A property of an object, or of the device where there is none.
    Property {
        object: Option<Name>,
        name: Name,
    },
    Subtypes {
        ty: DataType,
    },
    ObjectInfo {
        ty: DataType,
        subtype: Name,
    },
    ParameterInfo {
        ty: DataType,
        subtype: Name,
        name: Name,
    },
}

/// The value of a parameter.
#[derive(Debug, Drop)]
pub enum SetValue {
    /// A value of a type that is no object type.
    Plain(Value),
    /// What a label stands for, taken for an object of this type.
    Object(DataType, Name),
}

/// The elements of a new array, one after the other without gaps.
#[derive(Debug, Drop)]
pub enum ArrayData {
    /// The bytes of the elements: those of `count` elements where the array has data and its element
    /// type is one of numbers, else none.
    Values(Items<u8>),
    /// The labels of `count` objects, where the element type is an object type.
    Objects(Items<Name>),
}

/// One element that is written into a loan. It is left out where `index` is not below the number of
/// elements, and where `element` does not fit the element type.
#[derive(Debug, Drop)]
pub struct Write {
    pub index: u64,
    pub element: Components,
}

/// What one element is made of.
#[derive(Debug, Drop)]
pub enum Components {
    /// Numbers from -2^63 to 2^64 - 1.
    Numbers(Items<i128>),
    Label(Name),
}
