//! One river over all cells of a map of 64 by 64, which winds inward.

use crate::maps::{accumulated, sound};
use cell_values::Cell;
use cell_values::Cell::Val;
use drain_meaning::Drain;
use std::alloc::{AllocError, Global};
use std::test::Fail;

/// The number of the last row and column.
const LAST: u32 = 63;

// The code of a cell of the river.
fn river_code(row: u32, col: u32) -> i64 {
    let south = LAST.saturating_sub(row);
    let east = LAST.saturating_sub(col);
    let ring = row.min(col).min(south).min(east);
    if row == ring && col < LAST.saturating_sub(ring) {
        6
    } else if east == ring && row < LAST.saturating_sub(ring) {
        2
    } else if south == ring && col > ring {
        4
    } else if row > ring.saturating_add(1) {
        8
    } else if ring < 31 {
        6
    } else {
        5
    }
}

// The codes of the river.
fn river_codes(alloc: Global) -> Result<Vec<Cell>, AllocError> {
    let mut cells = Vec::with_capacity(alloc, 4096)?;
    for place in 0..4096u32 {
        cells.push(Val(river_code(place / 64, place % 64)))?;
    }
    Ok(cells)
}

// The river's drain map, which is sound.
fn river(alloc: Global) -> Result<Drain, Fail> {
    let codes = river_codes(alloc)?;
    sound(alloc, 64, 64, codes.as_slice())
}

// The values at the pits.
fn at_pits(alloc: Global, codes: &[Cell], cells: &[Cell]) -> Result<Vec<Cell>, AllocError> {
    let mut found = Vec::new(alloc);
    for (code, cell) in codes.iter().zip(cells) {
        if *code == Val(5) {
            found.push(*cell)?;
        }
    }
    Ok(found)
}

// The sum of the cells.
fn sum(cells: &[Cell]) -> i64 {
    let mut sum = 0i64;
    for cell in cells {
        if let Val(number) = cell {
            sum = sum.wrapping_add(*number);
        }
    }
    sum
}

// What comes together along the river: the values at its pits, and the sum of all cells.
fn come_together(alloc: Global) -> Result<(Vec<Cell>, i64), Fail> {
    let river = river(alloc)?;
    let part = accumulated(alloc, &river)?;
    let cells = part.cells.as_slice();
    let pits = at_pits(alloc, river.cells(), cells)?;
    Ok((pits, sum(cells)))
}

#[test]
fn all_cells_come_to_the_last(rt: HostRuntime) -> Result<(), Fail> {
    let (pits, sum) = come_together(rt.alloc())?;
    // The river grows by one at each cell: 1 + 2 + .. + 4,096.
    assert_eq!(rt; (pits.as_slice(), sum), ([Val(4096)].as_slice(), 8_390_656));
    Ok(())
}
