//! The check of drain maps of 2,048 by 2,048 cells, and `accuflux` over them: a made map of short rivers, and one river that
//! winds inward over all cells.

ghost use Rattle.std.specs.Prelude.{◌≡◌, ◌<◌, IfOk, ℕ, length};
ghost use Rattle.cell_values.specs.Kinds.{IsCell};
ghost use Rattle.cell_values.specs.declared.kind.Kind.TheVariants.{Ldd};
ghost use Rattle.tile_map.specs.Cuts.{cell_at};

use crate::best::Best;
use cell_values::{Cell, Kind};
use drain_check::check_drain;
use drain_meaning::{AccuRule, Drain};
use drain_ops::flow_whole;
use std::alloc::{AllocError, Global};
use std::rt::Clock;
use std::test::Fail;
use std::time::Instant;
use tile_map::{Arg, Part};

/// How many rows and columns the maps have.
const SIDE: u32 = 2048;

/// The number of the last row and column.
const LAST: u32 = 2047;

/// How many rounds are timed.
const ROUNDS: u32 = 5;

/// The maps.
#[derive(Clone, Copy)]
pub enum Shape {
    /// Each cell drains south or east, as a row of drawn numbers says.
    Made,
    /// One river over all cells.
    Spiral,
}

// The code of a cell that drains as a drawn number says, and is a pit where that would lead out of the map.
fn made_code(row: u32, col: u32, drawn: u64) -> Cell
    ensures { IsCell Ldd result }
{
    let code = match drawn % 4 {
        0 if row < LAST && 0 < col => 1,
        1 if row < LAST => 2,
        2 if row < LAST && col < LAST => 3,
        3 if col < LAST => 6,
        _ => 5,
    };
    Cell::Val(code)
}

// The code of a cell of the river that winds inward.
fn spiral_code(row: u32, col: u32) -> Cell
    requires row { row < SIDE }
    requires col { col < SIDE }
    ensures { IsCell Ldd result }
{
    let ring = row.min(col).min(LAST - row).min(LAST - col);
    let last = LAST - ring;
    let code = if row == ring && col < last {
        6
    } else if col == last && row < last {
        2
    } else if row == last && col > ring {
        4
    } else if row > ring + 1 {
        8
    } else if ring + 1 < SIDE / 2 {
        6
    } else {
        5
    };
    Cell::Val(code)
}

// The code at a place of a map.
fn code_at(shape: Shape, place: u32, drawn: u64) -> Cell
    requires { place < 4194304 }
    ensures { IsCell Ldd result }
{
    let (row, col) = (place / SIDE, place % SIDE);
    match shape {
        Shape::Made => made_code(row, col, drawn),
        Shape::Spiral => spiral_code(row, col),
    }
}

// The codes of a map.
fn codes(alloc: Global, shape: Shape) -> Result<Vec<Cell>, AllocError>
    ensures many { IfOk result (λ cells. length cells.items ≡ 4194304) }
    ensures codes { IfOk result (λ cells. (place : ℕ) → IsCell Ldd (cell_at cells.items place)) }
{
    let mut cells = Vec::with_capacity(alloc, 4_194_304)?;
    let mut number = 7u64;
    for place in 0..4_194_304u32 {
        number = number
            .wrapping_mul(6364136223846793005)
            .wrapping_add(1442695040888963407);
        cells.push(code_at(shape, place, number >> 32))?;
    }
    Ok(cells)
}

// The drain map of these codes, where they are sound.
fn drain_of(alloc: Global, codes: Vec<Cell>) -> Option<Drain>
    requires many { length codes.items ≡ 4194304 }
    requires codes { (place : ℕ) → IsCell Ldd (cell_at codes.items place) }
{
    check_drain(alloc, SIDE, SIDE, codes).ok()
}

// What `accuflux` gives where each cell has one unit of material.
fn accumulated(alloc: Global, drain: &Drain) -> Result<Part, AllocError> {
    let one = Arg::One(Cell::Val(1));
    flow_whole(alloc, &AccuRule, Kind::Scalar, drain, one, Arg::Unused)
}

// The sum of the cells, so far as it fits.
fn sum_of(cells: &[Cell]) -> u64 {
    let mut sum = 0i64;
    for cell in cells {
        if let Cell::Val(value) = cell {
            sum = sum.wrapping_add(*value);
        }
    }
    sum.unsigned_abs()
}

// A round of the check of a map: the map, where it is sound.
fn check_round<R: Clock + AllocGlobal>(
    rt: &R,
    best: &mut Best,
    shape: Shape,
) -> Result<Option<Drain>, Fail> {
    let codes = codes(rt.alloc(), shape)?;
    let start = Instant::now(rt)?;
    let drain = drain_of(rt.alloc(), codes);
    best.note(rt, start)?;
    Ok(drain)
}

// A round of `accuflux` over a map: the sum of its cells.
fn flow_round<R: Clock + AllocGlobal>(rt: &R, best: &mut Best, drain: &Drain) -> Result<u64, Fail> {
    let start = Instant::now(rt)?;
    let part = accumulated(rt.alloc(), drain)?;
    let sum = sum_of(part.cells.as_slice());
    best.note(rt, start)?;
    Ok(sum)
}

// A round of both: the sum of the cells of `accuflux`, where the map is sound.
fn map_round<R: Clock + AllocGlobal>(
    rt: &R,
    check: &mut Best,
    flow: &mut Best,
    shape: Shape,
) -> Result<Option<u64>, Fail> {
    match check_round(rt, check, shape)? {
        Some(drain) => Ok(Some(flow_round(rt, flow, &drain)?)),
        None => Ok(None),
    }
}

// Prints the best rounds of a map.
fn print_map<R: Print>(rt: &R, name: &str, check: Best, flow: Best, sum: u64) -> Result<(), Fail> {
    let (check, flow) = (check.nanoseconds(), flow.nanoseconds());
    println!(rt; "{name}_check {check} {sum}")?;
    println!(rt; "{name}_accuflux {flow} {sum}")?;
    Ok(())
}

// Says that a map is not sound.
fn say_refused<R: Print>(rt: &R, name: &str) -> Result<(), Fail> {
    println!(rt; "{name} refused")?;
    Ok(())
}

// Times the check of a map and `accuflux` over it, and prints the best round of each.
fn time_map<R: Clock + Print + AllocGlobal>(rt: &R, name: &str, shape: Shape) -> Result<(), Fail> {
    let mut check = Best::none();
    let mut flow = Best::none();
    let mut sum = 0u64;
    for _ in 0..ROUNDS {
        match map_round(rt, &mut check, &mut flow, shape)? {
            Some(found) => sum = found,
            None => return say_refused(rt, name),
        }
    }
    print_map(rt, name, check, flow, sum)
}

/// Times the check of drain maps and `accuflux` over them, and prints the best round of each in nanoseconds.
pub fn time_drains<R: Clock + Print + AllocGlobal>(rt: &R) -> Result<(), Fail> {
    time_map(rt, "made", Shape::Made)?;
    time_map(rt, "spiral", Shape::Spiral)
}
