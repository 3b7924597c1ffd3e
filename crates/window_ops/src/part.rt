ghost use Rattle.std.specs.Prelude.{◌≡◌, ◌≤◌, ◌*◌, ℕ, List, length, IfOk};
ghost use Rattle.text_base.specs.Limits.{most_cells};
ghost use Rattle.cell_values.specs.declared.cell.Cell.{Cell as TheCell};
ghost use Rattle.tile_map.specs.Parts.{part_of};
ghost use Rattle.tile_map.specs.Rects.{IsInMap, cell_count, place_in};
ghost use Rattle.region_meaning.specs.Windows.{longest_reach, window_outcome};
ghost use Rattle.window_ops.specs.Surroundings.{AreAround, IsInside};

use crate::classes::{Classed, class_part};
use crate::extremes::{Extreme, extreme_part};
use crate::sum::Summed;
use crate::sums::sum_part;
use cell_values::Cell;
use region_meaning::WindowOp;
use std::alloc::{AllocError, Global};
use tile_map::{Part, Rect};

/// What an operation gives of the windows round the places of `inner`, row by row. A window reaches `k` rows and `k` columns
/// in each direction, as far as the map goes. `cells` are a map's cells of the rectangle `around`, row by row, which holds
/// `inner`, and what the windows reach.
pub fn window_part(
    alloc: Global,
    op: WindowOp,
    k: u32,
    cells: &[Cell],
    around: Rect,
    inner: Rect,
) -> Result<Part, AllocError>
    requires reach { k ≤ longest_reach }
    requires few { cell_count around ≤ most_cells }
    requires cells { length cells.now ≡ cell_count around }
    requires inside { IsInside inner around }
    ensures { IfOk result (λ part. (rows cols : ℕ) (map : List TheCell) → AreAround rows cols k map cells.now inner around → part ≡ part_of (λ i. window_outcome op rows cols k map (place_in cols inner i)) (cell_count inner)) }
{
    let here = Rect {
        top: inner.top - around.top,
        left: inner.left - around.left,
        rows: inner.rows,
        cols: inner.cols,
    };
    let part = local_part(alloc, op, k as usize, cells, around.rows, around.cols, here)?;
    Ok(part)
}

// The same, of cells that are a whole map.
fn local_part(
    alloc: Global,
    op: WindowOp,
    k: usize,
    cells: &[Cell],
    rows: u32,
    cols: u32,
    inner: Rect,
) -> Result<Part, AllocError>
    requires few { length cells.now ≤ most_cells }
    requires reach { k ≤ longest_reach }
    requires cells { length cells.now ≡ rows * cols }
    requires inner { IsInMap rows cols inner }
    ensures { IfOk result (λ part. part ≡ part_of (λ i. window_outcome op rows cols k cells.now (place_in cols inner i)) (cell_count inner)) }
{
    match op {
        WindowOp::Total => sum_part(alloc, Summed::All, k, cells, rows, cols, inner),
        WindowOp::Average => sum_part(alloc, Summed::Mean, k, cells, rows, cols, inner),
        WindowOp::Minimum => extreme_part(alloc, Extreme::Least, k, cells, rows, cols, inner),
        WindowOp::Maximum => extreme_part(alloc, Extreme::Greatest, k, cells, rows, cols, inner),
        WindowOp::Diversity => class_part(alloc, Classed::Different, k, cells, rows, cols, inner),
        WindowOp::Majority => class_part(alloc, Classed::MostFrequent, k, cells, rows, cols, inner),
    }
}
