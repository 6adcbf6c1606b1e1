//! What frames have to show.

/// What a frame has to show (ANARI 1.0 Specification, Frame): nothing, or what the render with this ticket makes or has made.
#[derive(Clone, Copy, Debug, PartialEq, Eq)]
pub enum Phase {
    Empty,
    Flight(u64),
    Done(u64),
}

/// The end of a flight.
#[derive(Clone, Copy, Debug, PartialEq, Eq)]
pub struct Ended {
    pub ticket: u64,
    /// It was stopped, and left no picture.
    pub left: bool,
}
