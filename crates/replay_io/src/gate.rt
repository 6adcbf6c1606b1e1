//! Points at which a thread that renders can be held up.

/// Called by each thread that renders: at point `2 * k` before it claims a tile, and at `2 * k + 1` after it gave one.
/// Workers have `k` from 0 on; a caller that helps has its own number behind all workers.
pub trait Gate {
    fn at(&self, point: u32);
}

/// A gate that holds nobody up.
#[derive(Clone, Copy, Debug)]
pub struct OpenGate;

impl Gate for OpenGate {
    fn at(&self, _point: u32) {}
}
