//! One frame's picture, divided into tiles that any number of threads claim, fill and give.
//!
//! [`Claims`] are made for a [`Key`], a size and a scene, with the buffers of all tiles. Each thread has a
//! [`Seat`], and with it claims the next tile, which it has in hand as a [`Claim`]. It fills the tile's
//! rows, gives it, and claims again until none is left. A claim and a give are one atomic addition each,
//! and the handle of the tile's buffers is moved; no call waits, and only [`Claims::new`] and
//! [`Claims::share`] take memory.
//!
//! Each tile is claimed once at most. A give takes only a tile that is filled with its parts of the
//! key's pictures, so that a count of given tiles that is full shows the whole picture
//! ([`full_counts_show_all`]), of whose tiles the first seat then collects each once. The first seat may
//! stop the claims, which end as None from then on. When as many tiles are given as were claimed, or as
//! there are, no tile is open at any seat ([`no_tile_is_open`]).
//!
//! No clause says that a tile which is open is given some day.
#![tactic(auto)]

mod calls;
mod frame;
mod key;
mod laws;
mod pixels;
mod rule;
mod scene_name;
mod seats;
mod steps;
mod view;

pub use key::Key;
pub use laws::{
    full_counts_show_all, no_tile_is_open, rows_fill_a_tile, rows_of_a_filled_tile,
    tiles_are_claimed_once,
};
pub use pixels::TilePixels;
pub use scene_name::SceneName;
pub use seats::{Claim, Claims, Seat};
