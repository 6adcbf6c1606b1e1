//! The ray of a pixel and the colour of what it meets, equal to the rules of the picture. A camera is prepared once a frame; a
//! pixel's colour is gathered hit by hit from front to back.
#![tactic(auto)]

mod cameras;
mod laws;
mod lights;
mod shading;
mod surfaces;

pub use cameras::{PreparedCamera, camera_ray};
pub use laws::blended_hits_are_the_shade;
pub use picture_model::{Blend, HitRow};
pub use shading::{blend_hit, finish_blend, to_byte};
