// The walk through the objects of a scene, and the scene that it finds, read from committed parameters and the contents
// of arrays. The objects are those of any device that implements `Objects`.
#![tactic(auto)]

pub mod geometries;
mod geometry_ranges;
pub mod objects;
mod ranges;
pub mod readers;
pub mod refusals;
pub mod scenes;
pub mod visits;
pub mod walks;

pub use geometries::shapes;
pub use objects::Objects;
pub use readers::Subject;
pub use refusals::{fault, first_mapped, is_scene_root, walk};
pub use scenes::{camera, camera_of, light, lights, lit, scene, sides};
pub use visits::{Spot, Visit, Visits};
pub use walks::visits_from;
