//! Operations on cells over lists of places.

ghost use Rattle.std.specs.Prelude.{◌<◌};
ghost use Rattle.cell_ops.specs.Work.{IsWork};

use crate::best::Best;
use cell_ops::{CellWork, cell_part};
use cell_values::Cell::{Mv, Val};
use cell_values::{Cell, Kind};
use map_meaning::Op;
use std::alloc::{AllocError, Global};
use std::rt::Clock;
use std::test::Fail;
use std::time::Instant;
use tile_map::Arg;

// So many cells of a row of drawn numbers, of which one in eleven is missing: the highest bits of each, so many as are left
// behind the shift.
pub(crate) fn drawn(
    alloc: Global,
    places: u32,
    step: u64,
    shift: u32,
) -> Result<Vec<Cell>, AllocError>
    requires { shift < 64 }
{
    let mut cells = Vec::new(alloc);
    let mut number = 12345u64;
    for _ in 0..places {
        number = number.wrapping_mul(6364136223846793005).wrapping_add(step);
        let cell = if number % 11 == 3 {
            Mv
        } else {
            Val(((number >> shift) % 2_147_483_648) as i64)
        };
        cells.push(cell)?;
    }
    Ok(cells)
}

// How many cells the operation gives.
fn computed(
    alloc: Global,
    work: CellWork<'_>,
    a: &[Cell],
    b: &[Cell],
    c: &[Cell],
) -> Result<u64, AllocError>
    requires { IsWork work }
{
    let len = a.len();
    if len > 4_194_304 || b.len() != len || c.len() != len {
        return Ok(0);
    }
    let part = cell_part(
        alloc,
        work,
        len,
        Arg::Cells(a),
        Arg::Cells(b),
        Arg::Cells(c),
        Arg::Unused,
    )?;
    Ok(part.cells.as_slice().len() as u64)
}

// A round of an operation: how many cells it gives.
fn round<R: Clock + AllocGlobal>(
    rt: &R,
    best: &mut Best,
    work: CellWork<'_>,
    a: &[Cell],
    b: &[Cell],
    c: &[Cell],
) -> Result<u64, Fail>
    requires { IsWork work }
{
    let start = Instant::now(rt)?;
    let count = computed(rt.alloc(), work, a, b, c)?;
    best.note(rt, start)?;
    Ok(count)
}

// Times so many rounds of an operation, and prints the best one.
fn time_work<R: Clock + Print + AllocGlobal>(
    rt: &R,
    rounds: u32,
    name: &str,
    work: CellWork<'_>,
    a: &[Cell],
    b: &[Cell],
    c: &[Cell],
) -> Result<(), Fail>
    requires { IsWork work }
{
    let mut best = Best::none();
    let mut sum = 0u64;
    for _ in 0..rounds {
        sum = sum.wrapping_add(round(rt, &mut best, work, a, b, c)?);
    }
    best.print_with(rt, name, sum)
}

// Times the operations over these cells.
fn time_works<R: Clock + Print + AllocGlobal>(
    rt: &R,
    rounds: u32,
    a: &[Cell],
    b: &[Cell],
    truth: &[Cell],
) -> Result<(), Fail> {
    time_work(rt, rounds, "add", CellWork::Plain(Op::Add), a, b, b)?;
    time_work(rt, rounds, "min", CellWork::Plain(Op::Min), a, b, b)?;
    time_work(rt, rounds, "less", CellWork::Plain(Op::Less), a, b, b)?;
    time_work(rt, rounds, "if", CellWork::Plain(Op::IfElse), truth, a, b)?;
    let to_scalar = CellWork::Convert {
        from: Kind::Nominal,
        to: Kind::Scalar,
    };
    time_work(rt, rounds, "scalar", to_scalar, a, b, b)
}

/// Times so many rounds of some operations on cells over so many places, and prints the best round of each in nanoseconds.
pub fn time_cells<R: Clock + Print + AllocGlobal>(
    rt: &R,
    places: u32,
    rounds: u32,
) -> Result<(), Fail> {
    let a = drawn(rt.alloc(), places, 1442695040888963407, 33)?;
    let b = drawn(rt.alloc(), places, 987654321, 33)?;
    let truth = drawn(rt.alloc(), places, 1442695040888963407, 63)?;
    let (a, b, truth) = (a.as_slice(), b.as_slice(), truth.as_slice());
    time_works(rt, rounds, a, b, truth)
}
