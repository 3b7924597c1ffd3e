//! The diversity and the majority of windows.

ghost use Rattle.std.specs.Prelude.{◌≡◌, ◌<◌, ◌≤◌, ◌*◌, ◌+◌, ℕ, ℤ, List, length, IfOk, OnOk};
ghost use Rattle.text_base.specs.Limits.{most_cells};
ghost use Rattle.tile_map.specs.Parts.{part_of};
ghost use Rattle.tile_map.specs.Rects.{IsInMap, cell_count, place_in};
ghost use Rattle.region_meaning.specs.Numbers.{occurrences};
ghost use Rattle.region_meaning.specs.WindowResults.{window_result};
ghost use Rattle.region_meaning.specs.Windows.{longest_reach, window_outcome};
ghost use Rattle.window_ops.specs.inside.Classes.{AreSome, class_op_of, class_count};
ghost use Rattle.window_ops.specs.inside.Outcomes.{AreOutcomes};

use crate::counts::{Counts, leader};
use crate::outcomes::Outcomes;
use crate::reach::reach;
use crate::strip::Strip;
use cell_values::{Cell, Kind, Over, to_cell};
use std::alloc::{AllocError, Global};
use tile_map::{Part, Rect};

/// How many millionths make one.
const MILLION: i128 = 1_000_000;

/// What is asked of the classes in a window.
#[derive(Clone, Copy)]
pub enum Classed {
    /// How many there are.
    Different,
    /// The one that most cells have.
    MostFrequent,
}

// What is asked of the classes that were counted; a missing value where there is none.
fn outcome(classed: Classed, counts: &Counts) -> Result<Cell, Over>
    requires { AreSome counts.now }
    ensures { (values : List ℤ) → ((class : ℤ) → class_count counts.now class ≡ occurrences values class) → result ≡ window_result (class_op_of classed) values }
{
    if counts.is_empty() {
        return Ok(Cell::Mv);
    }
    match classed {
        Classed::Different => to_cell(Kind::Scalar, counts.len() as i128 * MILLION),
        Classed::MostFrequent => Ok(Cell::Val(leader(counts))),
    }
}

// The outcomes of the windows round the places of a rectangle's row. The window slides along the row: a column comes in, and
// one is left out.
fn push_row(
    classed: Classed,
    k: usize,
    cells: &[Cell],
    rows: u32,
    cols: u32,
    inner: Rect,
    row: usize,
    strip: &mut Strip,
    out: &mut Outcomes,
) -> Result<(), AllocError>
    requires few { length cells.now ≤ most_cells }
    requires reach { k ≤ longest_reach }
    requires cells { length cells.now ≡ rows * cols }
    requires inner { IsInMap rows cols inner }
    requires row { row < inner.rows }
    requires before { AreOutcomes (λ (i : ℕ). window_outcome (class_op_of classed) rows cols k cells.now (place_in cols inner i)) (row * inner.cols) out.old.cells.items out.old.over }
    ensures { OnOk result (AreOutcomes (λ (i : ℕ). window_outcome (class_op_of classed) rows cols k cells.now (place_in cols inner i)) (row * inner.cols + inner.cols) out.new.cells.items out.new.over) }
{
    let left = inner.left as usize;
    let (top, bottom) = reach(inner.top as usize + row, rows as usize, k);
    strip.start(top, bottom, left.saturating_sub(k));
    for col in left..left + inner.cols as usize {
        let (from, to) = reach(col, cols as usize, k);
        strip.take_to(cells, cols as usize, to)?;
        strip.leave_to(cells, cols as usize, from);
        out.push(outcome(classed, &strip.counts))?;
    }
    Ok(())
}

/// The part of the diversity or the majority of the windows round the places of a rectangle.
pub fn class_part(
    alloc: Global,
    classed: Classed,
    k: usize,
    cells: &[Cell],
    rows: u32,
    cols: u32,
    inner: Rect,
) -> Result<Part, AllocError>
    requires few { length cells.now ≤ most_cells }
    requires reach { k ≤ longest_reach }
    requires cells { length cells.now ≡ rows * cols }
    requires inner { IsInMap rows cols inner }
    ensures { IfOk result (λ part. part ≡ part_of (λ i. window_outcome (class_op_of classed) rows cols k cells.now (place_in cols inner i)) (cell_count inner)) }
{
    let mut out = Outcomes::with_room(alloc, inner.rows as usize * inner.cols as usize)?;
    let mut strip = Strip::none(alloc);
    for row in 0..inner.rows as usize {
        push_row(
            classed, k, cells, rows, cols, inner, row, &mut strip, &mut out,
        )?;
    }
    Ok(out.into_part())
}
