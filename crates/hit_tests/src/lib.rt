//! Where a ray meets a triangle or a sphere, exactly: the depth number of the hit, or none. The ranges of a ray and of shapes
//! keep vector products within 64 bits and scalar products within 128.
#![tactic(auto)]

mod quotients;
mod spheres;
mod triangles;

pub use spheres::sphere;
pub use triangles::triangle;
