//! What frames have to show.

/// What a frame has to show (ANARI 1.0 Specification, Frame), with the ticket of the render.
#[derive(Clone, Copy, Debug, PartialEq, Eq)]
pub enum Shown {
    Nothing,
    /// A picture that is being rendered, in so many tiles.
    Flight { ticket: u64, tiles: u64 },
    /// A picture, and which channels the frame asked for when it was rendered, in the order of
    /// `Channel`.
    Picture { ticket: u64, asked: [bool; 4] },
}
