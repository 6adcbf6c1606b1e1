ghost use Rattle.std.specs.Prelude.{◌≡◌};
ghost use Rattle.dev_types.specs.Refusals.{refusal_number, severity_by_number, code_by_number, status_of};

use crate::handles::Handle;
use crate::texts::Name;

/// How grave a status is (ANARI 1.0 Specification, status callbacks).
#[derive(Clone, Copy, Debug, PartialEq, Eq)]
pub enum Severity {
    Fatal,
    Error,
    Warning,
    Performance,
    Info,
    Debug,
}

/// What kind of fault a status reports (ANARI 1.0 Specification, status callbacks).
#[derive(Clone, Copy, Debug, PartialEq, Eq)]
pub enum Code {
    NoError,
    Unknown,
    InvalidArgument,
    InvalidOperation,
    OutOfMemory,
    UnsupportedDevice,
    VersionMismatch,
}

/// What the client is told of a refused call: how grave it is, its kind, the object that the call was
/// made on (handle 0 where there is none), and the number of the refusal.
#[derive(Clone, Copy, Debug, PartialEq, Eq)]
pub struct Status {
    pub severity: Severity,
    pub code: Code,
    pub source: Handle,
    pub refusal: u8,
}

/// Why a call was refused, in the order of the refusals' numbers, 1 to 19. A call that several of these
/// apply to answers the first.
#[derive(Clone, Debug, PartialEq, Eq, Drop)]
pub enum Refused {
    /// The journal has no place left for what the call owes; the limit is given.
    JournalFull(u32),
    /// The object is not live.
    BadHandle(Handle),
    /// The object is live, and the application holds no reference to it.
    NotHeld(Handle),
    /// The object has another type than the call or the value's type wants.
    WrongKind(Handle),
    /// There is no such subtype of this object type.
    BadSubtype,
    /// The parameter does not take values of this type, or an array no such elements.
    BadType,
    /// The value is an object, and the parameter is none that this object knows.
    UnknownObjectParameter,
    /// An array's stride, length or number of bytes does not fit.
    BadShape,
    /// The array is mapped.
    ArrayMapped(Handle),
    /// No such loan is out.
    NotMapped,
    /// The frame is in flight: `given` of its `of` tiles were seen finished.
    InFlight { given: u64, of: u64 },
    /// The frame is neither in flight nor done.
    NoPicture,
    /// A channel of the frame is mapped.
    ChannelMapped,
    /// The frame was rendered without this channel.
    NoChannel,
    /// A visited object lacks a parameter that it needs.
    Incomplete(Handle, Name),
    /// There are more than this limit.
    TooMany(u64),
    /// A parameter of a visited object is outside its range.
    OutOfRange(Handle, Name),
    /// There is no such property, type or parameter.
    NoSuchName,
    /// There was no memory.
    NoMemory,
}

impl Refused {
    /// The number of this refusal, 1 to 19.
    pub fn number(&self) -> u8
        ensures { result ≡ refusal_number self.now }
    {
        match self {
            Refused::JournalFull(_) => 1,
            Refused::BadHandle(_) => 2,
            Refused::NotHeld(_) => 3,
            Refused::WrongKind(_) => 4,
            Refused::BadSubtype => 5,
            Refused::BadType => 6,
            Refused::UnknownObjectParameter => 7,
            Refused::BadShape => 8,
            Refused::ArrayMapped(_) => 9,
            Refused::NotMapped => 10,
            Refused::InFlight { .. } => 11,
            Refused::NoPicture => 12,
            Refused::ChannelMapped => 13,
            Refused::NoChannel => 14,
            Refused::Incomplete(..) => 15,
            Refused::TooMany(_) => 16,
            Refused::OutOfRange(..) => 17,
            Refused::NoSuchName => 18,
            Refused::NoMemory => 19,
        }
    }

    /// The same refusal once more; it takes no memory.
    pub fn copied(&self) -> Refused
        ensures { result ≡ self.now }
    {
        match self.clone() {
            Ok(refused) => refused,
            Err(_) => unreachable!(),
        }
    }

    /// What the client is told of this refusal of a call on `source`: `None` exactly for a full journal
    /// and for want of memory, which make no entry and are not told.
    pub fn status(&self, source: Handle) -> Option<Status>
        ensures { result ≡ status_of self.now source }
    {
        let refusal = self.number();
        Some(Status {
            severity: severity_of(refusal)?,
            code: code_of(refusal)?,
            source,
            refusal,
        })
    }
}

/// How grave the status of the refusal with this number is; `None` exactly where it gives no status.
pub fn severity_of(refusal: u8) -> Option<Severity>
    ensures { result ≡ severity_by_number refusal }
{
    match refusal {
        2..=18 => Some(Severity::Error),
        _ => None,
    }
}

/// The code of the status of the refusal with this number; `None` exactly where it gives no status.
pub fn code_of(refusal: u8) -> Option<Code>
    ensures { result ≡ code_by_number refusal }
{
    match refusal {
        2 | 4..=8 | 17 | 18 => Some(Code::InvalidArgument),
        3 | 9..=16 => Some(Code::InvalidOperation),
        _ => None,
    }
}
