//! The sums and the means of windows.

ghost use Rattle.std.specs.Prelude.{◌≡◌, ◌<◌, ◌≤◌, ◌*◌, ◌+◌, ◌-◌, ℕ, length, min, IfOk, OnOk};
ghost use Rattle.text_base.specs.Limits.{most_cells};
ghost use Rattle.tile_map.specs.Parts.{Outcome, part_of};
ghost use Rattle.tile_map.specs.Rects.{IsInMap, cell_count, place_in};
ghost use Rattle.region_meaning.specs.Windows.{longest_reach, window_outcome};
ghost use Rattle.window_ops.specs.inside.Outcomes.{AreOutcomes, longest_window, over};
ghost use Rattle.window_ops.specs.inside.Sums.{IsSmall, no_sum, outcome_of_sum, sum_at, sum_join, sum_op_of};

use crate::columns::Columns;
use crate::outcomes::Outcomes;
use crate::reach::reach;
use crate::sum::{Sum, Summed};
use cell_values::Cell;
use std::alloc::{AllocError, Global};
use tile_map::{Part, Rect};

// The sums of the first columns: of none, of one, and so on, up to all.
fn add_up(columns: &[Sum], into: &mut Vec<Sum>) -> Result<(), AllocError>
    requires few { length columns.now ≤ most_cells }
    requires small { (col : ℕ) → col < length columns.now → IsSmall longest_window (sum_at columns.now col) }
    ensures size { OnOk result (length into.new.items ≡ length columns.now + 1) }
    ensures each { OnOk result ((col : ℕ) → col < length columns.now + 1 → sum_at into.new.items col ≡ over sum_join no_sum (sum_at columns.now) 0 col) }
{
    into.clear();
    let mut sum = Sum::none();
    into.push(sum)?;
    for column in columns {
        sum = sum.join(*column);
        into.push(sum)?;
    }
    Ok(())
}

// The outcomes of a row's windows, from a column on, by the sums of the columns. `front` is room for the sums of the
// first columns.
fn push_row(
    summed: Summed,
    columns: &[Sum],
    front: &mut Vec<Sum>,
    k: usize,
    left: usize,
    width: usize,
    out: &mut Outcomes,
) -> Result<(), AllocError>
    requires few { length columns.now ≤ most_cells }
    requires reach { k ≤ longest_reach }
    requires within { left + width ≤ length columns.now }
    requires room { length out.old.cells.items + width ≤ most_cells }
    requires small { (col : ℕ) → col < length columns.now → IsSmall longest_window (sum_at columns.now col) }
    ensures size { OnOk result (length out.new.cells.items ≡ length out.old.cells.items + width) }
    ensures each { OnOk result ((f : ℕ → Outcome) (places : ℕ) → AreOutcomes f places out.old.cells.items out.old.over → ((i : ℕ) → i < width → f (places + i) ≡ outcome_of_sum summed (over sum_join no_sum (sum_at columns.now) (left + i - k) (min (length columns.now) (left + i + 1 + k) - (left + i - k)))) → AreOutcomes f (places + width) out.new.cells.items out.new.over) }
{
    add_up(columns, front)?;
    for col in left..left + width {
        let (from, to) = reach(col, columns.len(), k);
        let window = front[to].without(front[from]);
        out.push(window.outcome(summed))?;
    }
    Ok(())
}

/// The part of the sums or the means of the windows round the places of a rectangle. The sums of the columns run down the
/// rows, and those of the first columns are made for each row, so the time for a place does not depend on the length of
/// the windows.
pub fn sum_part(
    alloc: Global,
    summed: Summed,
    k: usize,
    cells: &[Cell],
    rows: u32,
    cols: u32,
    inner: Rect,
) -> Result<Part, AllocError>
    requires few { length cells.now ≤ most_cells }
    requires reach { k ≤ longest_reach }
    requires cells { length cells.now ≡ rows * cols }
    requires inner { IsInMap rows cols inner }
    ensures { IfOk result (λ part. part ≡ part_of (λ i. window_outcome (sum_op_of summed) rows cols k cells.now (place_in cols inner i)) (cell_count inner)) }
{
    let width = inner.cols as usize;
    let left = inner.left as usize;
    let first = (inner.top as usize).saturating_sub(k);
    let mut out = Outcomes::with_room(alloc, inner.rows as usize * width)?;
    let mut columns = Columns::before(alloc, cols as usize, first)?;
    let mut front = Vec::new(alloc);
    for row in 0..inner.rows as usize {
        let (top, bottom) = reach(inner.top as usize + row, rows as usize, k);
        columns.take_to(cells, cols as usize, bottom);
        columns.leave_to(cells, cols as usize, top);
        push_row(summed, &columns.sums, &mut front, k, left, width, &mut out)?;
    }
    Ok(out.into_part())
}
