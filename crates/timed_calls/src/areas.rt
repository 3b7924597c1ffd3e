//! Operations over the areas of a whole map.

use crate::best::Best;
use crate::cells::drawn;
use area_ops::Partial;
use cell_values::Cell;
use region_meaning::AreaOp;
use std::alloc::{AllocError, Global};
use std::rt::Clock;
use std::test::Fail;
use std::time::Instant;
use tile_map::Arg;

// How many cells the operation gives.
fn computed(
    alloc: Global,
    op: AreaOp,
    cells: &[Cell],
    classes: &[Cell],
) -> Result<u64, AllocError> {
    let len = cells.len();
    if len > 4_194_304 || classes.len() != len {
        return Ok(0);
    }
    let partial = Partial::of(alloc, op, Arg::Cells(cells), Arg::Cells(classes), len)?;
    let part = partial.spread(alloc, Arg::Cells(classes), len)?;
    Ok(part.cells.as_slice().len() as u64)
}

// A round of an operation: how many cells it gives.
fn round<R: Clock + AllocGlobal>(
    rt: &R,
    best: &mut Best,
    op: AreaOp,
    cells: &[Cell],
    classes: &[Cell],
) -> Result<u64, Fail> {
    let start = Instant::now(rt)?;
    let count = computed(rt.alloc(), op, cells, classes)?;
    best.note(rt, start)?;
    Ok(count)
}

// Times so many rounds of an operation, and prints the best one.
fn time_op<R: Clock + Print + AllocGlobal>(
    rt: &R,
    rounds: u32,
    name: &str,
    op: AreaOp,
    cells: &[Cell],
    classes: &[Cell],
) -> Result<(), Fail> {
    let mut best = Best::none();
    let mut sum = 0u64;
    for _ in 0..rounds {
        sum = sum.wrapping_add(round(rt, &mut best, op, cells, classes)?);
    }
    best.print_with(rt, name, sum)
}

// Times the operations over so drawn areas.
fn time_ops<R: Clock + Print + AllocGlobal>(
    rt: &R,
    cells: &[Cell],
    few: &[Cell],
    many: &[Cell],
) -> Result<(), Fail> {
    time_op(rt, 5, "average_few", AreaOp::Average, cells, few)?;
    time_op(rt, 5, "average_many", AreaOp::Average, cells, many)
}

/// Times the average of areas: of 16 classes (`average_few`), and of 1,024 (`average_many`). Prints the best round of each
/// in nanoseconds.
pub fn time_areas<R: Clock + Print + AllocGlobal>(rt: &R) -> Result<(), Fail> {
    let cells = drawn(rt.alloc(), 2048 * 2048, 1442695040888963407, 33)?;
    let few = drawn(rt.alloc(), 2048 * 2048, 987654321, 60)?;
    let many = drawn(rt.alloc(), 2048 * 2048, 987654321, 54)?;
    time_ops(rt, cells.as_slice(), few.as_slice(), many.as_slice())
}
