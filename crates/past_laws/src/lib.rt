//! What every device that keeps a past knows of it, over the definitions alone: which scenes of
//! renders are within the limits, which flights and worlds there are, what a call and its reply
//! make of each other, and which objects live.
#![tactic(auto)]

pub mod call_laws;
pub mod scene_laws;
