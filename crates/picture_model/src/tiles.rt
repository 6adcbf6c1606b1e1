ghost use Rattle.std.specs.Prelude.{◌≡◌, ℕ, ◌+◌, ◌<◌, ◌≤◌};
ghost use Rattle.picture_model.specs.Limits.{IsSide};
ghost use Rattle.picture_model.specs.Tiles.{tiles_over, tile_count, tile_rect, IsIn};

use crate::records::Rect;

/// The sides of a tile in pixels.
const SIDE: u32 = 16;

/// How many tiles stand side by side over `n` pixels.
fn tiles_over(n: u32) -> u32
    ensures { result ≡ tiles_over n }
{
    n.div_ceil(SIDE)
}

/// The number of tiles of a frame of `w` by `h`.
pub fn tile_count(w: u32, h: u32) -> u32
    requires width { IsSide w }
    requires height { IsSide h }
    ensures { result ≡ tile_count w h }
{
    tiles_over(w) * tiles_over(h)
}

/// The pixels of a tile of a frame of `w` by `h`: 16 by 16, cut at the right and the upper border. Tiles are numbered by rows from
/// the lower left, and `tile` is below their number.
#[tactic(auto, unfolding(crate::specs::Tiles::tile_rect))]
pub fn tile_rect(w: u32, h: u32, tile: u32) -> Rect
    requires { tile < tile_count w h }
    ensures value { result ≡ tile_rect w h tile }
    ensures columns { result.x0 + result.w ≤ w }
    ensures rows { result.y0 + result.h ≤ h }
{
    let across = tiles_over(w);
    let x0 = SIDE * (tile % across);
    let y0 = SIDE * (tile / across);
    Rect {
        x0,
        y0,
        w: SIDE.min(w - x0),
        h: SIDE.min(h - y0),
    }
}

/// The tile of pixel (`x`, `y`): each pixel lies in exactly one.
pub fn tile_of(w: u32, h: u32, x: u32, y: u32) -> u32
    requires width { IsSide w }
    requires height { IsSide h }
    requires column { x < w }
    requires row { y < h }
    ensures counted { result < tile_count w h }
    ensures inside { IsIn (tile_rect w h result) x y }
    ensures alone { (tile : ℕ) → tile < tile_count w h → IsIn (tile_rect w h tile) x y → tile ≡ result }
{
    y / SIDE * tiles_over(w) + x / SIDE
}
