//! How far a window reaches, and the rows of a map.

ghost use Rattle.std.specs.Prelude.{◌≡◌, ◌<◌, ◌≤◌, ◌*◌, ◌+◌, ◌-◌, ◌^◌, ℕ, length, min};
ghost use Rattle.text_base.specs.Limits.{most_cells};
ghost use Rattle.tile_map.specs.Cuts.{cell_at};
ghost use Rattle.region_meaning.specs.Windows.{longest_reach};

use cell_values::Cell;

/// The first row or column of a window round one, and the one behind its last, of so many.
pub fn reach(at: usize, size: usize, k: usize) -> (usize, usize)
    requires within { at < size }
    requires few { size < 2 ^ 32 }
    requires reach { k ≤ longest_reach }
    ensures { result ≡ (at - k, min size (at + 1 + k)) }
{
    (at.saturating_sub(k), size.min(at + 1 + k))
}

/// The cells of a map's row.
pub fn row_of(cells: &[Cell], cols: usize, row: usize) -> &[Cell]
    requires few { length cells.now ≤ most_cells }
    requires within { (row + 1) * cols ≤ length cells.now }
    ensures size { length result.now ≡ cols }
    ensures each { (col : ℕ) → col < cols → cell_at result.now col ≡ cell_at cells.now (row * cols + col) }
{
    let start = row * cols;
    &cells[start..start + cols]
}
