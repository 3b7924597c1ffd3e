ghost use Rattle.std.specs.Prelude.{◌≡◌, ◌<◌, ◌*◌};
ghost use Rattle.tile_map.specs.Rects.{IsInMap, cell_count, place_in};

use tile_map::{Rect, Tiling};

/// The place in the map of a rectangle's cell, which is told by its number in the rectangle, row by row.
#[tactic(auto, unfolding(tile_map::specs::Rects::place_in))]
pub fn place(tiling: &Tiling, rect: Rect, number: u32) -> u32
    requires rect { IsInMap tiling.now.rows tiling.now.cols rect }
    requires number { number < cell_count rect }
    ensures value { result ≡ place_in tiling.now.cols rect number }
    ensures below { result < tiling.now.rows * tiling.now.cols }
{
    (rect.top + number / rect.cols) * tiling.cols + (rect.left + number % rect.cols)
}
