//! What is kept of each render.
use fx_math::Scene;

/// A render: its ticket, the scene that it shows, and which channels its frame asked for, in the order of `Channel`.
#[derive(Drop)]
pub struct Render {
    pub ticket: u64,
    pub scene: Scene,
    pub channels: [bool; 4],
}
