//! What tasks on tiles do: a tile is added to one sum after the other, and the shares of all tiles in areas are merged.

use crate::best::Best;
use crate::cells::drawn;
use area_ops::Partial;
use cell_ops::{CellWork, cell_part};
use cell_values::Cell::Val;
use cell_values::{Cell, Cells};
use map_meaning::Op;
use region_meaning::AreaOp;
use std::alloc::{AllocError, Global};
use std::rt::Clock;
use std::test::Fail;
use std::time::Instant;
use tile_map::{Arg, Part};

// The sum of two tiles; no cells where they are not of one size.
fn added(alloc: Global, a: &[Cell], b: &[Cell]) -> Result<Part, AllocError> {
    let len = a.len();
    if len > 4_194_304 || b.len() != len {
        return Ok(Part {
            cells: Cells::from_vec(Vec::new(alloc)),
            over: None,
        });
    }
    cell_part(
        alloc,
        CellWork::Plain(Op::Add),
        len,
        Arg::Cells(a),
        Arg::Cells(b),
        Arg::Unused,
        Arg::Unused,
    )
}

// A hundred sums, each with the same tile: how many cells the last one has.
fn chained(alloc: Global, a: &[Cell], b: &[Cell]) -> Result<u64, AllocError> {
    let mut sum = added(alloc, a, b)?;
    for _ in 0..99 {
        sum = added(alloc, sum.cells.as_slice(), b)?;
    }
    Ok(sum.cells.as_slice().len() as u64)
}

// Times rounds of chained sums, and prints the best one.
fn time_chain<R: Clock + Print + AllocGlobal>(rt: &R, a: &[Cell], b: &[Cell]) -> Result<(), Fail> {
    let mut best = Best::none();
    let mut sum = 0u64;
    for _ in 0..200 {
        let start = Instant::now(rt)?;
        sum = sum.wrapping_add(chained(rt.alloc(), a, b)?);
        best.note(rt, start)?;
    }
    best.print_with(rt, "sums", sum)
}

// Merges the shares of 1,024 tiles of 4,096 cells, and notes how long merging alone takes: how many cells get the total.
fn merge_round<R: Clock + AllocGlobal>(
    rt: &R,
    best: &mut Best,
    cells: &[Cell],
    classes: &[Cell],
) -> Result<u64, Fail> {
    if cells.len() != 4_194_304 || classes.len() != 4_194_304 {
        return Ok(0);
    }
    let op = AreaOp::Average;
    let mut took = 0u128;
    let mut total = Partial::of(rt.alloc(), op, Arg::One(Val(0)), Arg::One(Val(1)), 0)?;
    for tile in 0..1024usize {
        let values = Arg::Cells(&cells[tile * 4096..tile * 4096 + 4096]);
        let areas = Arg::Cells(&classes[tile * 4096..tile * 4096 + 4096]);
        let share = Partial::of(rt.alloc(), op, values, areas, 4096)?;
        let start = Instant::now(rt)?;
        total = total.with(&share)?;
        took = took.wrapping_add(start.elapsed(rt)?.as_nanos());
    }
    best.note_time(took);
    let part = total.spread(rt.alloc(), Arg::Cells(&classes[0..4096]), 4096)?;
    Ok(part.cells.as_slice().len() as u64)
}

// Times rounds of merging, and prints the best one.
fn time_merge<R: Clock + Print + AllocGlobal>(
    rt: &R,
    name: &str,
    cells: &[Cell],
    classes: &[Cell],
) -> Result<(), Fail> {
    let mut best = Best::none();
    let mut sum = 0u64;
    for _ in 0..3 {
        sum = sum.wrapping_add(merge_round(rt, &mut best, cells, classes)?);
    }
    best.print_with(rt, name, sum)
}

// So many cells, 64 of each class after the other.
fn rowed(alloc: Global, places: u32) -> Result<Vec<Cell>, AllocError> {
    let mut cells = Vec::new(alloc);
    for place in 0..places {
        cells.push(Val((place / 64) as i64))?;
    }
    Ok(cells)
}

/// Times a hundred sums of a tile of 64 by 64 cells, each with the same tile, and prints the best round in nanoseconds.
pub fn time_sums<R: Clock + Print + AllocGlobal>(rt: &R) -> Result<(), Fail> {
    let a = drawn(rt.alloc(), 4096, 1442695040888963407, 33)?;
    let b = drawn(rt.alloc(), 4096, 987654321, 33)?;
    time_chain(rt, a.as_slice(), b.as_slice())
}

/// Times the merging of the shares of 1,024 tiles of 64 by 64 cells in the averages of 65,536 areas: each area in one tile
/// alone (`merge_apart`), and drawn for each cell (`merge_drawn`). Prints the best round of each in nanoseconds.
pub fn time_merges<R: Clock + Print + AllocGlobal>(rt: &R) -> Result<(), Fail> {
    let cells = drawn(rt.alloc(), 2048 * 2048, 1442695040888963407, 33)?;
    let apart = rowed(rt.alloc(), 2048 * 2048)?;
    let mixed = drawn(rt.alloc(), 2048 * 2048, 987654321, 48)?;
    time_merge(rt, "merge_apart", cells.as_slice(), apart.as_slice())?;
    time_merge(rt, "merge_drawn", cells.as_slice(), mixed.as_slice())
}
