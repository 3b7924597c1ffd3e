//! Sums of the columns of a map, over rows that run down it.

ghost use Rattle.std.specs.Prelude.{◌≡◌, ◌<◌, ◌≤◌, ◌*◌, ℕ, List, length, IfOk};
ghost use Rattle.text_base.specs.Limits.{most_cells};
ghost use Rattle.cell_values.specs.declared.cell.Cell.{Cell as TheCell};
ghost use Rattle.tile_map.specs.Cuts.{cell_at};
ghost use Rattle.window_ops.specs.inside.Sums.{AreColumnSums, IsSmall, sum_at, sum_join, sum_of_cell};

use crate::reach::row_of;
use crate::sum::Sum;
use cell_values::Cell;
use std::alloc::{AllocError, Global};

// Adds a row's cells to the sums of the columns.
fn take_row(columns: &mut [Sum], row: &[Cell])
    requires size { length columns.old ≡ length row.now }
    requires small { (col : ℕ) → col < length row.now → IsSmall most_cells (sum_at columns.old col) }
    ensures each { (col : ℕ) → col < length row.now → sum_at columns.new col ≡ sum_join (sum_at columns.old col) (sum_of_cell (cell_at row.now col)) }
    ensures small { (col : ℕ) → col < length row.now → IsSmall 1 (sum_of_cell (cell_at row.now col)) }
{
    for col in 0..columns.len() {
        columns[col] = columns[col].join(Sum::of(row[col]));
    }
}

// Takes a row's cells out of the sums of the columns, which have them.
fn leave_row(columns: &mut [Sum], row: &[Cell])
    requires size { length columns.old ≡ length row.now }
    requires small { (col : ℕ) → col < length row.now → IsSmall most_cells (sum_at columns.old col) }
    requires part { (col : ℕ) → col < length row.now → (sum_of_cell (cell_at row.now col)).count ≤ (sum_at columns.old col).count }
    ensures { (col : ℕ) → col < length row.now → (rest : Sum) → sum_at columns.old col ≡ sum_join (sum_of_cell (cell_at row.now col)) rest → sum_at columns.new col ≡ rest }
{
    for col in 0..columns.len() {
        columns[col] = columns[col].without(Sum::of(row[col]));
    }
}

/// The sum of each column of a map over the rows from `top` on to before `bottom`.
#[derive(Drop)]
pub struct Columns {
    pub sums: Vec<Sum>,
    pub top: usize,
    pub bottom: usize,
}

impl Columns {
    /// The sums over no rows, before a row.
    pub fn before(alloc: Global, cols: usize, row: usize) -> Result<Columns, AllocError>
        ensures top { IfOk result (λ columns. columns.top ≡ row) }
        ensures bottom { IfOk result (λ columns. columns.bottom ≡ row) }
        ensures sums { IfOk result (λ columns. (cells : List TheCell) → AreColumnSums cells cols row row columns.sums.items) }
    {
        let sums = vec![in alloc; Sum::none(); cols]?;
        Ok(Columns {
            sums,
            top: row,
            bottom: row,
        })
    }

    /// Takes in the rows up to before another one, of a map of so many columns.
    pub fn take_to(&mut self, cells: &[Cell], cols: usize, bottom: usize)
        requires few { length cells.now ≤ most_cells }
        requires within { bottom * cols ≤ length cells.now }
        requires down { self.old.bottom ≤ bottom }
        requires order { self.old.top ≤ self.old.bottom }
        requires sums { AreColumnSums cells.now cols self.old.top self.old.bottom self.old.sums.items }
        ensures top { self.new.top ≡ self.old.top }
        ensures bottom { self.new.bottom ≡ bottom }
        ensures sums { AreColumnSums cells.now cols self.old.top bottom self.new.sums.items }
    {
        for row in self.bottom..bottom {
            take_row(&mut self.sums, row_of(cells, cols, row));
        }
        self.bottom = bottom;
    }

    /// Leaves out the rows before another one, of a map of so many columns.
    pub fn leave_to(&mut self, cells: &[Cell], cols: usize, top: usize)
        requires few { length cells.now ≤ most_cells }
        requires within { self.old.bottom * cols ≤ length cells.now }
        requires down { self.old.top ≤ top }
        requires order { top ≤ self.old.bottom }
        requires sums { AreColumnSums cells.now cols self.old.top self.old.bottom self.old.sums.items }
        ensures top { self.new.top ≡ top }
        ensures bottom { self.new.bottom ≡ self.old.bottom }
        ensures sums { AreColumnSums cells.now cols top self.old.bottom self.new.sums.items }
    {
        for row in self.top..top {
            leave_row(&mut self.sums, row_of(cells, cols, row));
        }
        self.top = top;
    }
}
