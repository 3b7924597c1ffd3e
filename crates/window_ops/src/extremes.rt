//! The least and the greatest values of windows.

ghost use Rattle.std.specs.Prelude.{◌≡◌, ◌<◌, ◌≤◌, ◌*◌, ◌+◌, ◌-◌, ◌^◌, ℕ, length, fold, min, slice_range, IfOk, OnOk};
ghost use Rattle.text_base.specs.Limits.{most_cells};
ghost use Rattle.cell_values.specs.declared.cell.Cell.TheVariants.{Mv};
ghost use Rattle.tile_map.specs.Cuts.{cell_at};
ghost use Rattle.tile_map.specs.Parts.{part_of};
ghost use Rattle.tile_map.specs.Rects.{IsInMap, cell_count, place_in};
ghost use Rattle.region_meaning.specs.Windows.{longest_reach, window_outcome};
ghost use Rattle.window_ops.specs.inside.Extremes.{extreme_op};

use crate::outcomes::Outcomes;
use crate::reach::{reach, row_of};
use cell_values::Cell;
use std::alloc::{AllocError, Global};
use tile_map::{Part, Rect};

/// Which one of two values counts.
#[derive(Clone, Copy)]
pub enum Extreme {
    Least,
    Greatest,
}

impl Extreme {
    ghost use Rattle.window_ops.specs.inside.Extremes.{extreme_cell};
    ghost use Rattle.tile_map.specs.Parts.{Outcome};
    ghost use Rattle.window_ops.specs.inside.Outcomes.{AreOutcomes, over};

    // The extreme one of two cells; a missing one does not count.
    fn of(self, a: Cell, b: Cell) -> Cell
        ensures { result ≡ extreme_cell self a b }
    {
        match (a, b) {
            (Cell::Mv, _) => b,
            (_, Cell::Mv) => a,
            (Cell::Val(x), Cell::Val(y)) => Cell::Val(match self {
                Extreme::Least => x.min(y),
                Extreme::Greatest => x.max(y),
            }),
        }
    }

    // The extreme one of some cells.
    fn of_all(self, cells: &[Cell]) -> Cell
        ensures { result ≡ fold (extreme_cell self) Mv cells.now }
    {
        let mut found = Cell::Mv;
        for cell in cells {
            found = self.of(found, *cell);
        }
        found
    }

    // Takes a row's cells into the extremes of the columns.
    fn take_row(self, columns: &mut [Cell], row: &[Cell])
        requires { length columns.old ≡ length row.now }
        ensures { (col : ℕ) → col < length row.now → cell_at columns.new col ≡ extreme_cell self (cell_at columns.old col) (cell_at row.now col) }
    {
        for col in 0..columns.len() {
            columns[col] = self.of(columns[col], row[col]);
        }
    }

    // Takes the cells of some rows into the extremes of the columns: from a row on to before another one.
    fn take_rows(self, columns: &mut [Cell], cells: &[Cell], top: usize, bottom: usize)
        requires few { length cells.now ≤ most_cells }
        requires rows { top ≤ bottom }
        requires within { bottom * length columns.old ≤ length cells.now }
        requires clear { (col : ℕ) → cell_at columns.old col ≡ Mv }
        ensures { (col : ℕ) → col < length columns.old → cell_at columns.new col ≡ over (extreme_cell self) Mv (λ row. cell_at cells.now (row * length columns.old + col)) top (bottom - top) }
    {
        for row in top..bottom {
            let row_cells = row_of(cells, columns.len(), row);
            self.take_row(columns, row_cells);
        }
    }

    // The extremes of each column, from a row on to before another one, of a map of so many columns.
    fn of_columns(
        self,
        alloc: Global,
        cells: &[Cell],
        cols: usize,
        top: usize,
        bottom: usize,
    ) -> Result<Vec<Cell>, AllocError>
        requires few { length cells.now ≤ most_cells }
        requires rows { top ≤ bottom }
        requires within { bottom * cols ≤ length cells.now }
        ensures size { IfOk result (λ columns. length columns.items ≡ cols) }
        ensures each { IfOk result (λ columns. (col : ℕ) → col < cols → cell_at columns.items col ≡ over (extreme_cell self) Mv (λ row. cell_at cells.now (row * cols + col)) top (bottom - top)) }
    {
        let mut columns = vec![in alloc; Cell::Mv; cols]?;
        self.take_rows(&mut columns, cells, top, bottom);
        Ok(columns)
    }

    // The outcomes of a row's windows, from a column on, by the extremes of the columns.
    fn push_row(
        self,
        columns: &[Cell],
        k: usize,
        left: usize,
        width: usize,
        out: &mut Outcomes,
    ) -> Result<(), AllocError>
        requires few { length columns.now < 2 ^ 32 }
        requires reach { k ≤ longest_reach }
        requires within { left + width ≤ length columns.now }
        requires room { length out.old.cells.items + width ≤ most_cells }
        ensures size { OnOk result (length out.new.cells.items ≡ length out.old.cells.items + width) }
        ensures each { OnOk result ((f : ℕ → Outcome) (places : ℕ) → AreOutcomes f places out.old.cells.items out.old.over → ((i : ℕ) → i < width → f (places + i) ≡ Ok (fold (extreme_cell self) Mv (slice_range columns.now (left + i - k) (min (length columns.now) (left + i + 1 + k))))) → AreOutcomes f (places + width) out.new.cells.items out.new.over) }
    {
        for col in left..left + width {
            let (from, to) = reach(col, columns.len(), k);
            out.push(Ok(self.of_all(&columns[from..to])))?;
        }
        Ok(())
    }
}

/// The part of the least or the greatest values of the windows round the places of a rectangle.
pub fn extreme_part(
    alloc: Global,
    extreme: Extreme,
    k: usize,
    cells: &[Cell],
    rows: u32,
    cols: u32,
    inner: Rect,
) -> Result<Part, AllocError>
    requires few { length cells.now ≤ most_cells }
    requires reach { k ≤ longest_reach }
    requires cells { length cells.now ≡ rows * cols }
    requires inner { IsInMap rows cols inner }
    ensures { IfOk result (λ part. part ≡ part_of (λ i. window_outcome (extreme_op extreme) rows cols k cells.now (place_in cols inner i)) (cell_count inner)) }
{
    let width = inner.cols as usize;
    let left = inner.left as usize;
    let mut out = Outcomes::with_room(alloc, inner.rows as usize * width)?;
    for row in 0..inner.rows as usize {
        let (top, bottom) = reach(inner.top as usize + row, rows as usize, k);
        let columns = extreme.of_columns(alloc, cells, cols as usize, top, bottom)?;
        extreme.push_row(&columns, k, left, width, &mut out)?;
    }
    Ok(out.into_part())
}
