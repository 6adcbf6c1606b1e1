//! What a thread renders with.
use crate::prepared::Prepared;
use fx_math::{CameraRow, Lighting};
use tile_claims::{Claims, Seat};

/// One flight's work at a seat: its tiles to be claimed, and all that their pixels are made from. Contracts see the scene that it
/// stands for (`scene_of_work`).
#[derive(Drop)]
pub struct Work {
    pub claims: Claims,
    pub seat: Seat,
    pub prepared: Prepared,
    pub camera: CameraRow,
    /// The lights of the world with the colours of the renderer.
    pub lighting: Lighting,
    /// The width and the height of the frame in pixels, 1 to 4096 each.
    pub size: (u32, u32),
}
