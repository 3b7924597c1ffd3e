//! The tiles that a rectangle meets, by their numbers.

ghost use Rattle.std.specs.Prelude.{◌≡◌, ◌<◌, ℕ, length, map};
ghost use Rattle.std.specs.Arc.{arc_value};
ghost use Rattle.tile_map.specs.Rects.{HasCells, HoldsPlace, IsInMap, number_in};
ghost use Rattle.tile_map.specs.Tiles.{across};
ghost use Rattle.tile_map.specs.inside.Met.{tiles_met};
ghost use Rattle.tile_tasks.specs.inside.Tiles.{part_cells, tile_handed};

use cell_values::Cell;
use std::sync::Arc;
use task_tiles::Tile;
use tile_map::{Rect, TileSource, Tiling};

/// The tiles that a rectangle meets, in ascending order, as a rectangle in the grid of tiles.
#[derive(Drop)]
pub struct Handed<'a> {
    across: u32,
    met: Rect,
    tiles: &'a [Arc<Tile>],
}

impl<'a> Handed<'a> {
    /// These tiles, which are those that a rectangle meets.
    #[tactic(auto, unfolding(tile_map::specs::inside::Met::tiles_met, tile_map::specs::Tiles::across))]
    pub fn around(tiling: &Tiling, rect: Rect, tiles: &'a [Arc<Tile>]) -> Handed<'a>
        requires rect { IsInMap tiling.now.rows tiling.now.cols rect }
        requires some { HasCells rect }
        ensures across { result.across ≡ across tiling.now }
        ensures met { result.met ≡ tiles_met tiling.now rect }
        ensures tiles { result.tiles.now ≡ tiles.now }
    {
        let top = rect.top / tiling.tile_rows;
        let left = rect.left / tiling.tile_cols;
        Handed {
            across: tiling.cols.div_ceil(tiling.tile_cols),
            met: Rect {
                top,
                left,
                rows: (rect.top + rect.rows).div_ceil(tiling.tile_rows) - top,
                cols: (rect.left + rect.cols).div_ceil(tiling.tile_cols) - left,
            },
            tiles,
        }
    }
}

impl TileSource for Handed<'_> {
    ghost tiles = { λ s tile. part_cells (tile_handed (map arc_value s.tiles.now) (number_in s.across s.met tile)) };

    ghost has = { λ s tile. (0 < s.across) × HoldsPlace s.across s.met tile × (number_in s.across s.met tile < length s.tiles.now) };

    #[tactic(auto, unfolding(tile_map::specs::Rects::number_in))]
    fn tile(&self, tile: u32) -> &[Cell] {
        let row = (tile / self.across - self.met.top) as usize;
        let col = (tile % self.across - self.met.left) as usize;
        match &*self.tiles[row * self.met.cols as usize + col] {
            Tile::Part(part) => part.cells.as_slice(),
            Tile::Partial(_) => &[],
        }
    }
}
