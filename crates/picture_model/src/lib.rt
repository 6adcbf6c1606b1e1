//! The rules of the picture, and the plain program that follows them: slow functions over a small scene whose contracts are the
//! definitions in `specs/`. Every faster body above is measured against the same definitions.
#![tactic(auto)]

mod depths;
mod laws;
mod limits;
mod pictures;
mod rays;
mod records;
mod search;
mod shading;
mod source;
mod tiles;

pub use depths::{Crossing, depth};
pub use laws::{
    depth_is_exact, hidden_hits_do_not_matter, misses_do_not_matter, nearest_of_groups,
    rows_are_those_of_tiles,
};
pub use limits::is_scene_within;
pub use pictures::{id_bytes, part, picture, pixel, shade};
pub use rays::{Axes, across, axes_of, camera_ray};
pub use records::{Blend, Hit, HitRow, Plane, Rect};
pub use search::{hit_after, hits, is_nearer, nearer, nearest};
pub use shading::{blend_hit, facing, finish_blend, normal_of, point_at, to_byte, weight};
pub use source::PrimSource;
pub use tiles::{tile_count, tile_of, tile_rect};
