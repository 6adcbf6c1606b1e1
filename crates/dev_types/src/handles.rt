ghost use Rattle.std.specs.Prelude.{◌≡◌, ◌<◌, ℕ};
ghost use Rattle.dev_types.specs.Channels.{number_of_channel};

use std::alloc::AllocError;
use std::marker::Model;

/// Names an object of a device: 1, 2, .. in the order of successful creations, never used again.
/// Handle 0 is no object; in a property query it stands for the device.
#[derive(Clone, Copy, Debug, PartialEq, Eq, PartialOrd, Ord)]
pub struct Handle(pub u64);

impl Model for Handle {
    ghost Value = { ℕ };

    ghost view = { λ h. h.0 };

    ghost inverse = { λ n. record { 0 = n } };
}

/// The one answer of a call that found no memory.
#[derive(Clone, Copy, Debug, PartialEq, Eq)]
pub struct NoMemory;

impl From<AllocError> for NoMemory {
    fn from(_: AllocError) -> NoMemory {
        NoMemory
    }
}

/// Who owns the memory of an array. The number is the application's word, which comes back to it where
/// the array's memory is given back (ANARI 1.0 Specification, array memory).
#[derive(Clone, Copy, Debug, PartialEq, Eq)]
pub enum Origin {
    /// The device took the bytes over, and hands them to the deleter of this word.
    Captured(u64),
    /// The application keeps the bytes, and hears under this word when the device lets go of them.
    Shared(u64),
    /// The device made the bytes itself, all zero, and tells nobody of their end.
    Managed,
}

/// What a mapped channel of a frame holds (ANARI 1.0 Specification, frame).
#[derive(Clone, Copy, Debug, PartialEq, Eq)]
pub enum Channel {
    /// Red, green, blue and alpha, a byte each.
    Color,
    /// The number of the primitive within its geometry.
    PrimitiveId,
    /// The `id` of the surface.
    ObjectId,
    /// The `id` of the instance.
    InstanceId,
}

impl Channel {
    /// Its number among the four, in their order from 0.
    pub fn number(self) -> u32
        ensures value { result ≡ number_of_channel self }
        ensures range { result < 4 }
    {
        match self {
            Channel::Color => 0,
            Channel::PrimitiveId => 1,
            Channel::ObjectId => 2,
            Channel::InstanceId => 3,
        }
    }
}
