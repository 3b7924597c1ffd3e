ghost use Rattle.std.specs.Prelude.{◌+◌, ◌-◌, ◌≡◌, ◌≤◌, ◌<◌, ◌*◌, ◌/◌, ◌%◌, ◌++◌, ℕ, length, map, slice_range, IfOk, OnOk};
ghost use Rattle.std.specs.List.{range_with_len};
ghost use Rattle.text_base.specs.Limits.{most_cells};
ghost use Rattle.tile_map.specs.Rects.{HasCells, HoldsPlace, IsInMap, cell_count, grown, place_in};
ghost use Rattle.tile_map.specs.Sides.{AreSides};

use crate::rect::Rect;
use crate::source::TileSource;
use cell_values::Cell;
use std::alloc::{AllocError, Global};

/// A map's size and the size of its tiles, in cells. Tiles are numbered in row-major order; those of the last row and of
/// the last column of tiles may be smaller.
#[derive(Clone, Copy, Debug, PartialEq, Eq)]
pub struct Tiling {
    /// How many rows the map has.
    pub rows: u32,
    /// How many columns the map has.
    pub cols: u32,
    /// How many rows a tile has.
    pub tile_rows: u32,
    /// How many columns a tile has.
    pub tile_cols: u32,
    pub ghost sides: { AreSides rows cols tile_rows tile_cols },
}

impl Tiling {
    ghost use Rattle.tile_map.specs.Cuts.{cut_of, gathered, gathered_cell};
    ghost use Rattle.tile_map.specs.Pastes.{IsPasted};
    ghost use Rattle.tile_map.specs.Tiles.{EachMet, across, down, rect_at, rect_of, tile_at, tile_count};
    ghost use Rattle.tile_map.specs.inside.Met.{tiles_met, tiles_of};

    /// The tiling of a map of this size into tiles of this size.
    pub fn new(rows: u32, cols: u32, tile_rows: u32, tile_cols: u32) -> Tiling
        requires { AreSides rows cols tile_rows tile_cols }
        ensures rows { result.rows ≡ rows }
        ensures cols { result.cols ≡ cols }
        ensures tile_rows { result.tile_rows ≡ tile_rows }
        ensures tile_cols { result.tile_cols ≡ tile_cols }
    {
        Tiling {
            rows,
            cols,
            tile_rows,
            tile_cols,
        }
    }

    // How many rows of tiles there are.
    #[tactic(auto, unfolding(crate::specs::Tiles::down))]
    fn down(&self) -> u32
        ensures { result ≡ down self.now }
    {
        self.rows.div_ceil(self.tile_rows)
    }

    // How many tiles stand side by side.
    #[tactic(auto, unfolding(crate::specs::Tiles::across))]
    fn across(&self) -> u32
        ensures { result ≡ across self.now }
    {
        self.cols.div_ceil(self.tile_cols)
    }

    /// How many tiles there are.
    pub fn count(&self) -> u32
        ensures { result ≡ tile_count self.now }
    {
        self.down() * self.across()
    }

    /// The rectangle of a tile.
    #[tactic(auto, unfolding(crate::specs::Tiles::rect_of))]
    pub fn rect(&self, tile: u32) -> Rect
        requires { tile < tile_count self.now }
        ensures value { result ≡ rect_of self.now tile }
        ensures inside { IsInMap self.now.rows self.now.cols result }
        ensures some { HasCells result }
    {
        let across = self.across();
        let top = tile / across * self.tile_rows;
        let left = tile % across * self.tile_cols;
        Rect {
            top,
            left,
            rows: self.tile_rows.min(self.rows - top),
            cols: self.tile_cols.min(self.cols - left),
        }
    }

    /// The tile of a place: the only one that holds it.
    #[tactic(auto, unfolding(crate::specs::Tiles::tile_at))]
    pub fn tile_of(&self, place: u32) -> u32
        requires { place < self.now.rows * self.now.cols }
        ensures value { result ≡ tile_at self.now place }
        ensures below { result < tile_count self.now }
        ensures holds { HoldsPlace self.now.cols (rect_of self.now result) place }
        ensures only { (tile : ℕ) → HoldsPlace self.now.cols (rect_of self.now tile) place → tile ≡ result }
    {
        place / self.cols / self.tile_rows * self.across() + place % self.cols / self.tile_cols
    }

    /// The rectangle of a tile, grown by `k` on each side and cut at the map's border.
    #[tactic(auto, unfolding(crate::specs::Rects::grown))]
    pub fn halo(&self, tile: u32, k: u32) -> Rect
        requires { tile < tile_count self.now }
        ensures value { result ≡ grown self.now.rows self.now.cols k (rect_of self.now tile) }
        ensures inside { IsInMap self.now.rows self.now.cols result }
        ensures some { HasCells result }
    {
        let rect = self.rect(tile);
        let top = rect.top.saturating_sub(k);
        let left = rect.left.saturating_sub(k);
        Rect {
            top,
            left,
            rows: self.rows.min((rect.top + rect.rows).saturating_add(k)) - top,
            cols: self.cols.min((rect.left + rect.cols).saturating_add(k)) - left,
        }
    }

    // How many cells a rectangle has.
    fn size(&self, rect: Rect) -> usize
        requires { IsInMap self.now.rows self.now.cols rect }
        ensures value { result ≡ cell_count rect }
        ensures few { result ≤ most_cells }
    {
        (rect.rows * rect.cols) as usize
    }

    // The place at which a rectangle's row begins.
    fn row_start(&self, rect: Rect, row: u32) -> usize
        requires rect { IsInMap self.now.rows self.now.cols rect }
        requires row { row < rect.rows }
        ensures value { result ≡ (rect.top + row) * self.now.cols + rect.left }
        ensures ends { result + rect.cols ≤ self.now.rows * self.now.cols }
    {
        ((rect.top + row) * self.cols + rect.left) as usize
    }

    /// The map's cells in a rectangle, row by row.
    pub fn cut(&self, alloc: Global, cells: &[Cell], rect: Rect) -> Result<Vec<Cell>, AllocError>
        requires rect { IsInMap self.now.rows self.now.cols rect }
        requires cells { length cells.now ≡ self.now.rows * self.now.cols }
        ensures { IfOk result (λ got. got.items ≡ cut_of self.now.cols cells.now rect) }
    {
        let mut got = Vec::with_capacity(alloc, self.size(rect))?;
        for row in 0..rect.rows {
            let start = self.row_start(rect, row);
            got.extend_from_slice(&cells[start..start + rect.cols as usize])?;
        }
        Ok(got)
    }

    /// The cells of a rectangle, row by row, from the tiles that it meets. No other tile is asked for.
    pub fn gather<T: TileSource>(
        &self,
        alloc: Global,
        source: &T,
        rect: Rect,
    ) -> Result<Vec<Cell>, AllocError>
        requires rect { IsInMap self.now.rows self.now.cols rect }
        requires has { EachMet self.now rect (T.has source.now) }
        requires cells { EachMet self.now rect (λ tile. length (T.tiles source.now tile) ≡ cell_count (rect_of self.now tile)) }
        ensures { IfOk result (λ got. got.items ≡ gathered self.now (T.tiles source.now) rect) }
    {
        let mut got = Vec::with_capacity(alloc, self.size(rect))?;
        for row in 0..rect.rows {
            self.gather_row(source, rect, row, &mut got)?;
        }
        Ok(got)
    }

    // Appends the cells of a rectangle's row, tile by tile.
    fn gather_row<T: TileSource>(
        &self,
        source: &T,
        rect: Rect,
        row: u32,
        into: &mut Vec<Cell>,
    ) -> Result<(), AllocError>
        requires rect { IsInMap self.now.rows self.now.cols rect }
        requires row { row < rect.rows }
        requires has { EachMet self.now rect (T.has source.now) }
        requires cells { EachMet self.now rect (λ tile. length (T.tiles source.now tile) ≡ cell_count (rect_of self.now tile)) }
        ensures { OnOk result (into.new.items ≡ into.old.items ++ map (gathered_cell self.now (T.tiles source.now)) (range_with_len ((rect.top + row) * self.now.cols + rect.left) rect.cols)) }
    {
        let map_row = rect.top + row;
        let first_tile = map_row / self.tile_rows * self.across();
        let right = rect.left + rect.cols;
        let mut col = rect.left;
        let mut tile_col = col / self.tile_cols;
        while col < right {
            let end = right.min((tile_col + 1) * self.tile_cols);
            let cells = source.tile(first_tile + tile_col);
            into.extend_from_slice(self.stretch(cells, map_row, tile_col, col, end))?;
            col = end;
            tile_col += 1;
        }
        Ok(())
    }

    // The cells of a map's row from one column up to another, where a tile has them: of those of the tile, in that column of tiles.
    fn stretch<'a>(
        &self,
        cells: &'a [Cell],
        row: u32,
        tile_col: u32,
        from: u32,
        to: u32,
    ) -> &'a [Cell]
        requires row { row < self.now.rows }
        requires from { tile_col * self.now.tile_cols ≤ from }
        requires some { from < to }
        requires to { to ≤ (tile_col + 1) * self.now.tile_cols }
        requires in_map { to ≤ self.now.cols }
        requires cells { length cells.now ≡ cell_count (rect_at self.now (row / self.now.tile_rows) tile_col) }
        ensures { result.now ≡ slice_range cells.now (row % self.now.tile_rows * (rect_at self.now (row / self.now.tile_rows) tile_col).cols + (from - tile_col * self.now.tile_cols)) (row % self.now.tile_rows * (rect_at self.now (row / self.now.tile_rows) tile_col).cols + (to - tile_col * self.now.tile_cols)) }
    {
        let left = tile_col * self.tile_cols;
        let start = row % self.tile_rows * self.tile_cols.min(self.cols - left);
        &cells[(start + (from - left)) as usize..(start + (to - left)) as usize]
    }

    // The tiles that a rectangle meets, as a rectangle of tiles.
    #[tactic(auto, unfolding(crate::specs::inside::Met::tiles_met))]
    fn met(&self, rect: Rect) -> Rect
        requires rect { IsInMap self.now.rows self.now.cols rect }
        requires some { HasCells rect }
        ensures value { result ≡ tiles_met self.now rect }
        ensures inside { IsInMap (down self.now) (across self.now) result }
        ensures few { cell_count result ≤ most_cells }
    {
        let top = rect.top / self.tile_rows;
        let left = rect.left / self.tile_cols;
        Rect {
            top,
            left,
            rows: (rect.top + rect.rows).div_ceil(self.tile_rows) - top,
            cols: (rect.left + rect.cols).div_ceil(self.tile_cols) - left,
        }
    }

    // The tile of this number in a rectangle of tiles.
    #[tactic(auto, unfolding(crate::specs::Rects::place_in))]
    fn tile_in(&self, met: Rect, number: u32) -> u32
        requires met { IsInMap (down self.now) (across self.now) met }
        requires number { number < cell_count met }
        ensures { result ≡ place_in (across self.now) met number }
    {
        (met.top + number / met.cols) * self.across() + (met.left + number % met.cols)
    }

    /// The tiles that have a place in common with a rectangle, in ascending order.
    pub fn tiles(&self, alloc: Global, rect: Rect) -> Result<Vec<u32>, AllocError>
        requires rect { IsInMap self.now.rows self.now.cols rect }
        requires some { HasCells rect }
        ensures { IfOk result (λ tiles. tiles.items ≡ tiles_of self.now rect) }
    {
        let met = self.met(rect);
        let count = met.rows * met.cols;
        let mut tiles = Vec::with_capacity(alloc, count as usize)?;
        for number in 0..count {
            tiles.push(self.tile_in(met, number))?;
        }
        Ok(tiles)
    }

    /// Puts a tile's cells, row by row, in the place of the map's.
    pub fn paste(&self, into: &mut [Cell], tile: u32, part: &[Cell])
        requires tile { tile < tile_count self.now }
        requires into { length into.old ≡ self.now.rows * self.now.cols }
        requires part { length part.now ≡ cell_count (rect_of self.now tile) }
        ensures { IsPasted self.now.cols (rect_of self.now tile) part.now into.old into.new }
    {
        let rect = self.rect(tile);
        let cols = rect.cols as usize;
        for row in 0..rect.rows {
            let start = self.row_start(rect, row);
            let from = row as usize * cols;
            into[start..start + cols].copy_from_slice(&part[from..from + cols]);
        }
    }
}
