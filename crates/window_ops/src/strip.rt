//! The columns of a window that slides along its rows.

ghost use Rattle.std.specs.Prelude.{◌≡◌, ◌<◌, ◌≤◌, ◌*◌, ◌+◌, ℕ, ℤ, List, length, IfOk, OnOk};
ghost use Rattle.text_base.specs.Limits.{most_cells};
ghost use Rattle.cell_values.specs.declared.cell.Cell.{Cell as TheCell};
ghost use Rattle.window_ops.specs.inside.Classes.{AreSome, IsStrip, class_in_column, class_count};
ghost use Rattle.window_ops.specs.inside.Outcomes.{longest_window};
ghost use Rattle.window_ops.specs.inside.Sums.{most_summed};

use crate::counts::{Counts, leave_cell, take_cell};
use cell_values::Cell;
use std::alloc::{AllocError, Global};
use std::collections::HashMap;

/// How often each class stands in the columns from `from` on to before `to`, in the rows from `top` on to before `bottom`.
#[derive(Drop)]
pub struct Strip {
    pub counts: Counts,
    pub top: usize,
    pub bottom: usize,
    pub from: usize,
    pub to: usize,
}

// Counts the cells of a column in some rows.
fn take_column(
    counts: &mut Counts,
    cells: &[Cell],
    cols: usize,
    col: usize,
    top: usize,
    bottom: usize,
) -> Result<(), AllocError>
    requires few { length cells.now ≤ most_cells }
    requires rows { top ≤ bottom }
    requires within { bottom * cols ≤ length cells.now }
    requires col { col < cols }
    requires some { AreSome counts.old }
    requires room { (class : ℤ) → class_count counts.old class + longest_window ≤ most_summed }
    requires reach { bottom ≤ top + longest_window }
    ensures counts { OnOk result ((class : ℤ) → class_count counts.new class ≡ class_count counts.old class + class_in_column cols cells.now class top bottom col) }
    ensures some { OnOk result (AreSome counts.new) }
{
    for row in top..bottom {
        take_cell(counts, cells[row * cols + col])?;
    }
    Ok(())
}

// Counts the cells of a column in some rows no more.
fn leave_column(
    counts: &mut Counts,
    cells: &[Cell],
    cols: usize,
    col: usize,
    top: usize,
    bottom: usize,
)
    requires few { length cells.now ≤ most_cells }
    requires rows { top ≤ bottom }
    requires within { bottom * cols ≤ length cells.now }
    requires col { col < cols }
    requires some { AreSome counts.old }
    requires there { (class : ℤ) → class_in_column cols cells.now class top bottom col ≤ class_count counts.old class }
    ensures counts { (class : ℤ) → class_count counts.new class + class_in_column cols cells.now class top bottom col ≡ class_count counts.old class }
    ensures some { AreSome counts.new }
{
    for row in top..bottom {
        leave_cell(counts, cells[row * cols + col]);
    }
}

impl Strip {
    /// No rows and no columns.
    pub fn none(alloc: Global) -> Strip {
        Strip {
            counts: HashMap::new(alloc),
            top: 0,
            bottom: 0,
            from: 0,
            to: 0,
        }
    }

    /// Begins again with other rows, before a column.
    pub fn start(&mut self, top: usize, bottom: usize, col: usize)
        ensures top { self.new.top ≡ top }
        ensures bottom { self.new.bottom ≡ bottom }
        ensures from { self.new.from ≡ col }
        ensures to { self.new.to ≡ col }
        ensures counts { (cells : List TheCell) (cols : ℕ) → IsStrip cells cols self.new }
    {
        self.counts.clear();
        self.top = top;
        self.bottom = bottom;
        self.from = col;
        self.to = col;
    }

    /// Takes in the columns up to before another one, of a map of so many columns.
    pub fn take_to(&mut self, cells: &[Cell], cols: usize, to: usize) -> Result<(), AllocError>
        requires few { length cells.now ≤ most_cells }
        requires rows { self.old.top ≤ self.old.bottom }
        requires reach { self.old.bottom ≤ self.old.top + longest_window }
        requires within { self.old.bottom * cols ≤ length cells.now }
        requires cols { to ≤ cols }
        requires few_cols { cols ≤ most_cells }
        requires order { self.old.from ≤ self.old.to }
        requires along { self.old.to ≤ to }
        requires counts { IsStrip cells.now cols self.old }
        ensures top { OnOk result (self.new.top ≡ self.old.top) }
        ensures bottom { OnOk result (self.new.bottom ≡ self.old.bottom) }
        ensures from { OnOk result (self.new.from ≡ self.old.from) }
        ensures to { OnOk result (self.new.to ≡ to) }
        ensures counts { OnOk result (IsStrip cells.now cols self.new) }
    {
        for col in self.to..to {
            take_column(&mut self.counts, cells, cols, col, self.top, self.bottom)?;
        }
        self.to = to;
        Ok(())
    }

    /// Leaves out the columns before another one, of a map of so many columns.
    pub fn leave_to(&mut self, cells: &[Cell], cols: usize, from: usize)
        requires few { length cells.now ≤ most_cells }
        requires rows { self.old.top ≤ self.old.bottom }
        requires within { self.old.bottom * cols ≤ length cells.now }
        requires cols { self.old.to ≤ cols }
        requires along { self.old.from ≤ from }
        requires order { from ≤ self.old.to }
        requires counts { IsStrip cells.now cols self.old }
        ensures top { self.new.top ≡ self.old.top }
        ensures bottom { self.new.bottom ≡ self.old.bottom }
        ensures from { self.new.from ≡ from }
        ensures to { self.new.to ≡ self.old.to }
        ensures counts { IsStrip cells.now cols self.new }
    {
        for col in self.from..from {
            leave_column(&mut self.counts, cells, cols, col, self.top, self.bottom);
        }
        self.from = from;
    }
}
