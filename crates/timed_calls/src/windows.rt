//! Operations over windows of a whole map.

use crate::best::Best;
use crate::cells::drawn;
use cell_values::Cell;
use region_meaning::WindowOp;
use std::alloc::{AllocError, Global};
use std::rt::Clock;
use std::test::Fail;
use std::time::Instant;
use tile_map::Rect;
use window_ops::window_part;

/// A map of 2,048 by 2,048 cells.
const WHOLE: Rect = Rect {
    top: 0,
    left: 0,
    rows: 2048,
    cols: 2048,
};

// How many cells the operation gives.
fn computed(alloc: Global, op: WindowOp, k: u32, cells: &[Cell]) -> Result<u64, AllocError> {
    if cells.len() != 4_194_304 || 15 < k {
        return Ok(0);
    }
    let part = window_part(alloc, op, k, cells, WHOLE, WHOLE)?;
    Ok(part.cells.as_slice().len() as u64)
}

// A round of an operation: how many cells it gives.
fn round<R: Clock + AllocGlobal>(
    rt: &R,
    best: &mut Best,
    op: WindowOp,
    k: u32,
    cells: &[Cell],
) -> Result<u64, Fail> {
    let start = Instant::now(rt)?;
    let count = computed(rt.alloc(), op, k, cells)?;
    best.note(rt, start)?;
    Ok(count)
}

// Times so many rounds of an operation, and prints the best one.
fn time_op<R: Clock + Print + AllocGlobal>(
    rt: &R,
    rounds: u32,
    name: &str,
    op: WindowOp,
    k: u32,
    cells: &[Cell],
) -> Result<(), Fail> {
    let mut best = Best::none();
    let mut sum = 0u64;
    for _ in 0..rounds {
        sum = sum.wrapping_add(round(rt, &mut best, op, k, cells)?);
    }
    best.print_with(rt, name, sum)
}

// Times the operations that compute with numbers.
fn time_numbers<R: Clock + Print + AllocGlobal>(rt: &R, cells: &[Cell]) -> Result<(), Fail> {
    time_op(rt, 5, "total_near", WindowOp::Total, 1, cells)?;
    time_op(rt, 5, "total_wide", WindowOp::Total, 15, cells)?;
    time_op(rt, 5, "average_near", WindowOp::Average, 1, cells)?;
    time_op(rt, 5, "average_wide", WindowOp::Average, 15, cells)?;
    time_op(rt, 5, "minimum_near", WindowOp::Minimum, 1, cells)?;
    time_op(rt, 2, "minimum_wide", WindowOp::Minimum, 15, cells)
}

// Times the operations that count classes.
fn time_classes<R: Clock + Print + AllocGlobal>(rt: &R, cells: &[Cell]) -> Result<(), Fail> {
    time_op(rt, 2, "diversity_near", WindowOp::Diversity, 1, cells)?;
    time_op(rt, 1, "diversity_wide", WindowOp::Diversity, 15, cells)?;
    time_op(rt, 2, "majority_near", WindowOp::Majority, 1, cells)?;
    time_op(rt, 1, "majority_wide", WindowOp::Majority, 15, cells)
}

/// Times operations over windows of 3 by 3 cells (`near`) and of 31 by 31 (`wide`), and prints the best round of each in
/// nanoseconds.
pub fn time_windows<R: Clock + Print + AllocGlobal>(rt: &R) -> Result<(), Fail> {
    let cells = drawn(rt.alloc(), 2048 * 2048, 1442695040888963407, 33)?;
    let classes = drawn(rt.alloc(), 2048 * 2048, 1442695040888963407, 60)?;
    time_numbers(rt, cells.as_slice())?;
    time_classes(rt, classes.as_slice())
}
