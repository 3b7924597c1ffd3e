//! The operations on cells, one row a place.

ghost use Rattle.std.specs.Prelude.{IfSome};
ghost use Rattle.tile_map.specs.Args.{SpansPlaces};
ghost use Rattle.cell_ops.specs.Work.{IsWork};

use cell_ops::{CellWork, cell_part};
use cell_values::Cell::{Mv, Val};
use cell_values::Kind::{Boolean, Directional, Ldd, Nominal, Ordinal, Scalar};
use cell_values::{Cell, Kind, Over};
use map_meaning::{Arg, Op, Part};
use std::alloc::{AllocError, Global};
use std::process::Abort;
use std::test::Fail;

/// What is wanted at a place.
type Want = Result<Cell, Over>;

/// One.
const ONE: i64 = 1_000_000;

/// The greatest scalar; the least is its negative.
const MOST: i64 = 9_000_000_000_000_000_000;

/// Operations on two cells: the operation, its operands and what is wanted.
static TWO: [(Op, Cell, Cell, Want); 110] = [
    (Op::Add, Val(7 * ONE), Val(2 * ONE), Ok(Val(9 * ONE))),
    (Op::Add, Val(-ONE), Val(3 * ONE), Ok(Val(2 * ONE))),
    (Op::Add, Mv, Val(ONE), Ok(Mv)),
    (Op::Add, Val(ONE), Mv, Ok(Mv)),
    (Op::Add, Val(MOST), Val(0), Ok(Val(MOST))),
    (Op::Add, Val(MOST), Val(1), Err(Over)),
    (Op::Add, Val(-MOST), Val(-1), Err(Over)),
    (Op::Sub, Val(7 * ONE), Val(2 * ONE), Ok(Val(5 * ONE))),
    (Op::Sub, Val(-ONE), Val(3 * ONE), Ok(Val(-4 * ONE))),
    (Op::Sub, Mv, Val(ONE), Ok(Mv)),
    (Op::Sub, Val(ONE), Mv, Ok(Mv)),
    (Op::Sub, Val(-MOST), Val(1), Err(Over)),
    (Op::Mul, Val(7 * ONE), Val(2 * ONE), Ok(Val(14 * ONE))),
    (Op::Mul, Val(1), Val(500_000), Ok(Val(1))),
    (Op::Mul, Val(-1), Val(499_999), Ok(Val(0))),
    (Op::Mul, Val(ONE), Mv, Ok(Mv)),
    (Op::Mul, Val(MOST), Val(MOST), Err(Over)),
    (Op::Div, Val(7 * ONE), Val(2 * ONE), Ok(Val(3_500_000))),
    (Op::Div, Val(-ONE), Val(3 * ONE), Ok(Val(-333_333))),
    (Op::Div, Val(ONE), Val(0), Ok(Mv)),
    (Op::Div, Mv, Val(ONE), Ok(Mv)),
    (Op::Div, Val(MOST), Val(500_000), Err(Over)),
    (Op::IntDiv, Val(7 * ONE), Val(2 * ONE), Ok(Val(3 * ONE))),
    (Op::IntDiv, Val(-7 * ONE), Val(2 * ONE), Ok(Val(-3 * ONE))),
    (Op::IntDiv, Val(5), Val(0), Ok(Mv)),
    (Op::IntDiv, Mv, Val(5), Ok(Mv)),
    (Op::IntDiv, Val(MOST), Val(1), Err(Over)),
    (Op::IntMod, Val(7 * ONE), Val(2 * ONE), Ok(Val(ONE))),
    (Op::IntMod, Val(-7 * ONE), Val(2 * ONE), Ok(Val(-ONE))),
    (Op::IntMod, Val(5_500_000), Val(400_000), Ok(Val(300_000))),
    (Op::IntMod, Val(5), Val(0), Ok(Mv)),
    (Op::IntMod, Val(5), Mv, Ok(Mv)),
    (Op::Min, Val(1), Val(2), Ok(Val(1))),
    (Op::Min, Val(2), Val(1), Ok(Val(1))),
    (Op::Min, Val(-5), Val(-5), Ok(Val(-5))),
    (Op::Min, Mv, Val(1), Ok(Mv)),
    (Op::Min, Val(1), Mv, Ok(Mv)),
    (Op::Max, Val(1), Val(2), Ok(Val(2))),
    (Op::Max, Val(2), Val(1), Ok(Val(2))),
    (Op::Max, Val(-5), Val(-5), Ok(Val(-5))),
    (Op::Max, Mv, Val(1), Ok(Mv)),
    (Op::Max, Val(1), Mv, Ok(Mv)),
    (Op::Equal, Val(1), Val(2), Ok(Val(0))),
    (Op::Equal, Val(2), Val(2), Ok(Val(1))),
    (Op::Equal, Val(2), Val(-2), Ok(Val(0))),
    (Op::Equal, Val(-MOST), Val(MOST), Ok(Val(0))),
    (Op::Equal, Mv, Val(2), Ok(Mv)),
    (Op::Equal, Val(2), Mv, Ok(Mv)),
    (Op::NotEqual, Val(1), Val(2), Ok(Val(1))),
    (Op::NotEqual, Val(2), Val(2), Ok(Val(0))),
    (Op::NotEqual, Val(2), Val(-2), Ok(Val(1))),
    (Op::NotEqual, Val(-MOST), Val(MOST), Ok(Val(1))),
    (Op::NotEqual, Mv, Val(2), Ok(Mv)),
    (Op::NotEqual, Val(2), Mv, Ok(Mv)),
    (Op::Less, Val(1), Val(2), Ok(Val(1))),
    (Op::Less, Val(2), Val(2), Ok(Val(0))),
    (Op::Less, Val(2), Val(-2), Ok(Val(0))),
    (Op::Less, Val(-MOST), Val(MOST), Ok(Val(1))),
    (Op::Less, Mv, Val(2), Ok(Mv)),
    (Op::Less, Val(2), Mv, Ok(Mv)),
    (Op::LessEqual, Val(1), Val(2), Ok(Val(1))),
    (Op::LessEqual, Val(2), Val(2), Ok(Val(1))),
    (Op::LessEqual, Val(2), Val(-2), Ok(Val(0))),
    (Op::LessEqual, Val(-MOST), Val(MOST), Ok(Val(1))),
    (Op::LessEqual, Mv, Val(2), Ok(Mv)),
    (Op::LessEqual, Val(2), Mv, Ok(Mv)),
    (Op::Greater, Val(1), Val(2), Ok(Val(0))),
    (Op::Greater, Val(2), Val(2), Ok(Val(0))),
    (Op::Greater, Val(2), Val(-2), Ok(Val(1))),
    (Op::Greater, Val(-MOST), Val(MOST), Ok(Val(0))),
    (Op::Greater, Mv, Val(2), Ok(Mv)),
    (Op::Greater, Val(2), Mv, Ok(Mv)),
    (Op::GreaterEqual, Val(1), Val(2), Ok(Val(0))),
    (Op::GreaterEqual, Val(2), Val(2), Ok(Val(1))),
    (Op::GreaterEqual, Val(2), Val(-2), Ok(Val(1))),
    (Op::GreaterEqual, Val(-MOST), Val(MOST), Ok(Val(0))),
    (Op::GreaterEqual, Mv, Val(2), Ok(Mv)),
    (Op::GreaterEqual, Val(2), Mv, Ok(Mv)),
    (Op::And, Val(0), Val(0), Ok(Val(0))),
    (Op::And, Val(0), Val(1), Ok(Val(0))),
    (Op::And, Val(1), Val(0), Ok(Val(0))),
    (Op::And, Val(1), Val(1), Ok(Val(1))),
    (Op::And, Val(0), Mv, Ok(Mv)),
    (Op::And, Mv, Val(0), Ok(Mv)),
    (Op::And, Val(1), Mv, Ok(Mv)),
    (Op::And, Mv, Val(1), Ok(Mv)),
    (Op::Or, Val(0), Val(0), Ok(Val(0))),
    (Op::Or, Val(0), Val(1), Ok(Val(1))),
    (Op::Or, Val(1), Val(0), Ok(Val(1))),
    (Op::Or, Val(1), Val(1), Ok(Val(1))),
    (Op::Or, Val(0), Mv, Ok(Mv)),
    (Op::Or, Mv, Val(0), Ok(Mv)),
    (Op::Or, Val(1), Mv, Ok(Mv)),
    (Op::Or, Mv, Val(1), Ok(Mv)),
    (Op::Xor, Val(0), Val(0), Ok(Val(0))),
    (Op::Xor, Val(0), Val(1), Ok(Val(1))),
    (Op::Xor, Val(1), Val(0), Ok(Val(1))),
    (Op::Xor, Val(1), Val(1), Ok(Val(0))),
    (Op::Xor, Val(0), Mv, Ok(Mv)),
    (Op::Xor, Mv, Val(0), Ok(Mv)),
    (Op::Xor, Val(1), Mv, Ok(Mv)),
    (Op::Xor, Mv, Val(1), Ok(Mv)),
    (Op::IfThen, Val(1), Val(10), Ok(Val(10))),
    (Op::IfThen, Val(0), Val(3), Ok(Mv)),
    (Op::IfThen, Val(1), Mv, Ok(Mv)),
    (Op::IfThen, Mv, Val(3), Ok(Mv)),
    (Op::Cover, Val(1), Mv, Ok(Val(1))),
    (Op::Cover, Mv, Val(5), Ok(Val(5))),
    (Op::Cover, Val(3), Val(6), Ok(Val(3))),
    (Op::Cover, Mv, Mv, Ok(Mv)),
];

/// Operations on one cell.
static ONE_CELL: [(Op, Cell, Cell, Want); 35] = [
    (Op::Neg, Val(2_500_000), Mv, Ok(Val(-2_500_000))),
    (Op::Neg, Val(-MOST), Mv, Ok(Val(MOST))),
    (Op::Neg, Mv, Mv, Ok(Mv)),
    (Op::Abs, Val(2_500_000), Mv, Ok(Val(2_500_000))),
    (Op::Abs, Val(-2_500_000), Mv, Ok(Val(2_500_000))),
    (Op::Abs, Val(-MOST), Mv, Ok(Val(MOST))),
    (Op::Abs, Mv, Mv, Ok(Mv)),
    (Op::RoundDown, Val(2_500_000), Mv, Ok(Val(2 * ONE))),
    (Op::RoundDown, Val(-2_500_000), Mv, Ok(Val(-3 * ONE))),
    (Op::RoundDown, Val(-1), Mv, Ok(Val(-ONE))),
    (Op::RoundDown, Val(499_999), Mv, Ok(Val(0))),
    (Op::RoundDown, Val(-7 * ONE), Mv, Ok(Val(-7 * ONE))),
    (Op::RoundDown, Val(-MOST), Mv, Ok(Val(-MOST))),
    (Op::RoundDown, Mv, Mv, Ok(Mv)),
    (Op::RoundUp, Val(2_500_000), Mv, Ok(Val(3 * ONE))),
    (Op::RoundUp, Val(-2_500_000), Mv, Ok(Val(-2 * ONE))),
    (Op::RoundUp, Val(-1), Mv, Ok(Val(0))),
    (Op::RoundUp, Val(499_999), Mv, Ok(Val(ONE))),
    (Op::RoundUp, Val(-7 * ONE), Mv, Ok(Val(-7 * ONE))),
    (Op::RoundUp, Val(MOST), Mv, Ok(Val(MOST))),
    (Op::RoundUp, Mv, Mv, Ok(Mv)),
    (Op::RoundOff, Val(2_500_000), Mv, Ok(Val(3 * ONE))),
    (Op::RoundOff, Val(-2_500_000), Mv, Ok(Val(-3 * ONE))),
    (Op::RoundOff, Val(-499_999), Mv, Ok(Val(0))),
    (Op::RoundOff, Val(499_999), Mv, Ok(Val(0))),
    (Op::RoundOff, Val(-7 * ONE), Mv, Ok(Val(-7 * ONE))),
    (Op::RoundOff, Mv, Mv, Ok(Mv)),
    (Op::Not, Val(0), Mv, Ok(Val(1))),
    (Op::Not, Val(1), Mv, Ok(Val(0))),
    (Op::Not, Mv, Mv, Ok(Mv)),
    (Op::Defined, Val(1), Mv, Ok(Val(1))),
    (Op::Defined, Mv, Mv, Ok(Val(0))),
    (Op::Defined, Val(0), Mv, Ok(Val(1))),
    (Op::CopyOf, Val(-7), Mv, Ok(Val(-7))),
    (Op::CopyOf, Mv, Mv, Ok(Mv)),
];

/// A condition and two cells, with `if(c then a else b)`.
static CHOICES: [(Cell, Cell, Cell, Want); 6] = [
    (Val(1), Val(10), Mv, Ok(Val(10))),
    (Val(0), Mv, Val(5), Ok(Val(5))),
    (Mv, Val(3), Val(6), Ok(Mv)),
    (Val(1), Mv, Val(6), Ok(Mv)),
    (Val(0), Val(3), Mv, Ok(Mv)),
    (Val(0), Val(3), Val(6), Ok(Val(6))),
];

/// Conversions: the kinds, a cell and what is wanted.
static CONVERSIONS: [(Kind, Kind, Cell, Want); 56] = [
    (Boolean, Boolean, Val(1), Ok(Val(1))),
    (Boolean, Boolean, Mv, Ok(Mv)),
    (Boolean, Nominal, Val(1), Ok(Val(1))),
    (Boolean, Nominal, Mv, Ok(Mv)),
    (Boolean, Ordinal, Val(1), Ok(Val(1))),
    (Boolean, Ordinal, Mv, Ok(Mv)),
    (Nominal, Boolean, Val(0), Ok(Val(0))),
    (Nominal, Boolean, Val(7), Ok(Val(1))),
    (Nominal, Boolean, Val(-1), Ok(Val(1))),
    (Nominal, Boolean, Mv, Ok(Mv)),
    (Ordinal, Boolean, Val(0), Ok(Val(0))),
    (Ordinal, Boolean, Val(7), Ok(Val(1))),
    (Ordinal, Boolean, Val(-1), Ok(Val(1))),
    (Ordinal, Boolean, Mv, Ok(Mv)),
    (Scalar, Boolean, Val(0), Ok(Val(0))),
    (Scalar, Boolean, Val(7), Ok(Val(1))),
    (Scalar, Boolean, Val(-1), Ok(Val(1))),
    (Scalar, Boolean, Mv, Ok(Mv)),
    (Scalar, Nominal, Val(-2_900_000), Ok(Val(-2))),
    (
        Scalar,
        Nominal,
        Val(2_147_483_647_999_999),
        Ok(Val(2_147_483_647)),
    ),
    (Scalar, Nominal, Val(2_147_483_648_000_000), Err(Over)),
    (Scalar, Nominal, Mv, Ok(Mv)),
    (Scalar, Ordinal, Val(-2_900_000), Ok(Val(-2))),
    (
        Scalar,
        Ordinal,
        Val(2_147_483_647_999_999),
        Ok(Val(2_147_483_647)),
    ),
    (Scalar, Ordinal, Val(2_147_483_648_000_000), Err(Over)),
    (Scalar, Ordinal, Mv, Ok(Mv)),
    (Nominal, Nominal, Val(1), Ok(Val(1))),
    (Nominal, Nominal, Mv, Ok(Mv)),
    (Nominal, Ordinal, Val(1), Ok(Val(1))),
    (Nominal, Ordinal, Mv, Ok(Mv)),
    (Ordinal, Nominal, Val(1), Ok(Val(1))),
    (Ordinal, Nominal, Mv, Ok(Mv)),
    (Ordinal, Ordinal, Val(1), Ok(Val(1))),
    (Ordinal, Ordinal, Mv, Ok(Mv)),
    (Ldd, Nominal, Val(1), Ok(Val(1))),
    (Ldd, Nominal, Mv, Ok(Mv)),
    (Ldd, Ordinal, Val(1), Ok(Val(1))),
    (Ldd, Ordinal, Mv, Ok(Mv)),
    (Boolean, Scalar, Val(1), Ok(Val(ONE))),
    (Boolean, Scalar, Mv, Ok(Mv)),
    (Nominal, Scalar, Val(1), Ok(Val(ONE))),
    (Nominal, Scalar, Mv, Ok(Mv)),
    (Ordinal, Scalar, Val(1), Ok(Val(ONE))),
    (Ordinal, Scalar, Mv, Ok(Mv)),
    (Ldd, Scalar, Val(1), Ok(Val(ONE))),
    (Ldd, Scalar, Mv, Ok(Mv)),
    (Scalar, Scalar, Val(1), Ok(Val(1))),
    (Scalar, Scalar, Mv, Ok(Mv)),
    (Directional, Scalar, Val(1), Ok(Val(1))),
    (Directional, Scalar, Mv, Ok(Mv)),
    (Scalar, Directional, Val(725_500_000), Ok(Val(5_500_000))),
    (Scalar, Directional, Val(-1), Ok(Val(359_999_999))),
    (Scalar, Directional, Val(360_000_000), Ok(Val(0))),
    (Scalar, Directional, Mv, Ok(Mv)),
    (Directional, Directional, Val(1), Ok(Val(1))),
    (Directional, Directional, Mv, Ok(Mv)),
];

// The work of a plain operation.
fn plain(op: Op) -> Option<CellWork<'static>>
    ensures { IfSome result IsWork }
{
    match op {
        Op::ToBoolean
        | Op::ToNominal
        | Op::ToOrdinal
        | Op::ToScalar
        | Op::ToDirectional
        | Op::LookupBoolean
        | Op::LookupNominal
        | Op::LookupOrdinal
        | Op::LookupScalar
        | Op::LookupDirectional
        | Op::TimeInputBoolean
        | Op::TimeInputNominal
        | Op::TimeInputOrdinal
        | Op::TimeInputScalar
        | Op::TimeInputDirectional
        | Op::WindowTotal
        | Op::WindowAverage
        | Op::WindowMinimum
        | Op::WindowMaximum
        | Op::WindowDiversity
        | Op::WindowMajority
        | Op::AreaTotal
        | Op::AreaAverage
        | Op::AreaMinimum
        | Op::AreaMaximum
        | Op::AreaDiversity
        | Op::AreaMajority
        | Op::AreaArea
        | Op::MapTotal
        | Op::MapMinimum
        | Op::MapMaximum
        | Op::Near(_)
        | Op::Flow(_) => None,
        _ => Some(CellWork::Plain(op)),
    }
}

// The work of a conversion, where there is one.
fn conversion(from: Kind, to: Kind) -> Option<CellWork<'static>>
    ensures { IfSome result IsWork }
{
    match (from, to) {
        (_, Kind::Ldd)
        | (Kind::Directional | Kind::Ldd, Kind::Boolean)
        | (Kind::Directional, Kind::Nominal | Kind::Ordinal)
        | (Kind::Boolean | Kind::Nominal | Kind::Ordinal | Kind::Ldd, Kind::Directional) => None,
        _ => Some(CellWork::Convert { from, to }),
    }
}

// What a work gives at one place.
fn at_one_place(
    alloc: Global,
    work: CellWork<'_>,
    a: Cell,
    b: Cell,
    c: Cell,
) -> Result<Part, AllocError>
    requires { IsWork work }
{
    cell_part(
        alloc,
        work,
        1,
        Arg::One(a),
        Arg::One(b),
        Arg::One(c),
        Arg::Unused,
    )
}

// Compares what came out at one place with what is wanted.
fn compare(rt: &impl Abort, row: usize, part: &Part, want: Want) {
    assert_eq!(rt;
        part.cells.as_slice(),
        [want.unwrap_or(Mv)].as_slice(),
        "row {row}"
    );
    assert_eq!(rt; part.over.is_some(), want.is_err(), "row {row}");
}

// Computes a row and compares.
fn check(
    rt: &impl Abort,
    alloc: Global,
    row: usize,
    work: Option<CellWork<'_>>,
    operands: (Cell, Cell, Cell),
    want: Want,
) -> Result<(), Fail>
    requires { IfSome work IsWork }
{
    let Some(work) = work else {
        return Err(Fail::from("no such work"));
    };
    let part = at_one_place(alloc, work, operands.0, operands.1, operands.2)?;
    compare(rt, row, &part, want);
    Ok(())
}

#[test]
fn computes_on_one_and_two_cells(rt: HostRuntime) -> Result<(), Fail> {
    for (row, (op, a, b, want)) in TWO.iter().enumerate() {
        check(&rt, rt.alloc(), row, plain(*op), (*a, *b, Mv), *want)?;
    }
    for (row, (op, a, b, want)) in ONE_CELL.iter().enumerate() {
        check(&rt, rt.alloc(), row, plain(*op), (*a, *b, Mv), *want)?;
    }
    Ok(())
}

#[test]
fn chooses(rt: HostRuntime) -> Result<(), Fail> {
    for (row, (c, a, b, want)) in CHOICES.iter().enumerate() {
        check(&rt, rt.alloc(), row, plain(Op::IfElse), (*c, *a, *b), *want)?;
    }
    Ok(())
}

#[test]
fn converts(rt: HostRuntime) -> Result<(), Fail> {
    for (row, (from, to, cell, want)) in CONVERSIONS.iter().enumerate() {
        check(
            &rt,
            rt.alloc(),
            row,
            conversion(*from, *to),
            (*cell, Mv, Mv),
            *want,
        )?;
    }
    Ok(())
}

// A plain operation over two places.
fn over_two(alloc: Global, op: Op, a: Arg<'_>, b: Arg<'_>, c: Arg<'_>) -> Result<Part, AllocError>
    requires work { IsWork (CellWork.Plain op) }
    requires a { SpansPlaces a 2 }
    requires b { SpansPlaces b 2 }
    requires c { SpansPlaces c 2 }
{
    cell_part(alloc, CellWork::Plain(op), 2, a, b, c, Arg::Unused)
}

// Compares two places, and the first Over among them.
fn compare_two(rt: &impl Abort, part: &Part, cells: [Cell; 2], over: Option<u32>) {
    assert_eq!(rt; part.cells.as_slice(), cells.as_slice());
    assert_eq!(rt; part.over, over);
}

#[test]
fn takes_maps_and_numbers(rt: HostRuntime) -> Result<(), Fail> {
    let alloc = rt.alloc();
    let (cells, five) = ([Val(1), Val(MOST)], Arg::One(Val(5)));
    let map = Arg::Cells(cells.as_slice());
    let sum = over_two(alloc, Op::Add, map, five, Arg::Unused)?;
    compare_two(&rt, &sum, [Val(6), Mv], Some(1));
    let difference = over_two(alloc, Op::Sub, five, map, Arg::Unused)?;
    compare_two(&rt, &difference, [Val(4), Val(5 - MOST)], None);
    let unused = over_two(alloc, Op::Add, map, Arg::Unused, Arg::Unused)?;
    compare_two(&rt, &unused, [Mv, Mv], None);
    let chosen = over_two(alloc, Op::IfElse, Arg::One(Val(1)), five, map)?;
    compare_two(&rt, &chosen, [Val(5), Val(5)], None);
    Ok(())
}

#[test]
fn tells_the_first_over(rt: HostRuntime) -> Result<(), Fail> {
    let cells = [Val(MOST), Val(MOST)];
    let map = Arg::Cells(cells.as_slice());
    let sum = over_two(rt.alloc(), Op::Add, map, map, Arg::Unused)?;
    compare_two(&rt, &sum, [Mv, Mv], Some(0));
    Ok(())
}
