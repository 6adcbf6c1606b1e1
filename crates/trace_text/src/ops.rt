//! What a call of a trace can be.
ghost use Rattle.std.specs.Prelude.{◌≡◌};
ghost use Rattle.trace_text.specs.Ops.{op_named, is_loan, query_named, most_calls};

/// The versions of the format.
#[derive(Clone, Copy, Debug, PartialEq, Eq)]
pub(crate) enum Version {
    One,
    Two,
}

impl Version {
    /// The most calls that a trace has.
    pub(crate) fn most_calls(self) -> u32
        ensures { result ≡ most_calls self }
    {
        match self {
            Version::One => 65536,
            Version::Two => 262144,
        }
    }
}

/// The words of `op`.
#[derive(Clone, Copy, Debug, PartialEq, Eq)]
pub(crate) enum Op {
    New,
    NewArray,
    Retain,
    Release,
    Set,
    Unset,
    UnsetAll,
    Commit,
    WithArray,
    WithParam,
    WithFrame,
    Render,
    Discard,
    Ready,
    Query,
}

impl Op {
    pub(crate) fn named(version: Version, word: &str) -> Option<Op>
        ensures { result ≡ op_named version word.now }
    {
        match word {
            "new" => Some(Op::New),
            "new_array" => Some(Op::NewArray),
            "retain" => Some(Op::Retain),
            "release" => Some(Op::Release),
            "set" => Some(Op::Set),
            "unset" => Some(Op::Unset),
            "unset_all" => Some(Op::UnsetAll),
            "commit" => Some(Op::Commit),
            "with_array" => Some(Op::WithArray),
            "with_param" if version == Version::Two => Some(Op::WithParam),
            "with_frame" => Some(Op::WithFrame),
            "render" => Some(Op::Render),
            "discard" => Some(Op::Discard),
            "ready" => Some(Op::Ready),
            "query" => Some(Op::Query),
            _ => None,
        }
    }

    /// Whether calls stand inside it.
    pub(crate) fn is_loan(self) -> bool
        ensures { result ≡ is_loan self }
    {
        matches!(self, Op::WithArray | Op::WithParam | Op::WithFrame)
    }
}

/// The words of `what`.
#[derive(Clone, Copy, Debug, PartialEq, Eq)]
pub(crate) enum Asked {
    Property,
    Subtypes,
    ObjectInfo,
    ParameterInfo,
}

impl Asked {
    pub(crate) fn named(word: &str) -> Option<Asked>
        ensures { result ≡ query_named word.now }
    {
        match word {
            "property" => Some(Asked::Property),
            "subtypes" => Some(Asked::Subtypes),
            "object_info" => Some(Asked::ObjectInfo),
            "parameter_info" => Some(Asked::ParameterInfo),
            _ => None,
        }
    }
}
