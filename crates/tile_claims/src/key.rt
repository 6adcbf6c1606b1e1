//! What a frame's claims are of.
use crate::scene_name::SceneName;

/// The picture that is divided into claims. Contracts see beside its size the scene that its maker
/// names (`scene_of`).
#[derive(Drop)]
pub struct Key {
    /// The width in pixels, 1 to 4096.
    pub w: u32,
    /// The height in pixels, 1 to 4096.
    pub h: u32,
    pub scene: SceneName,
}
