//! Transports over whole maps by the kit of the first ones, a row a transport.

ghost use Rattle.std.specs.Prelude.{length};
ghost use Rattle.drain_ops.specs.Operands.{AreInRange, flow_operand};
ghost use Rattle.tile_map.specs.Args.{SpansPlaces};

use crate::maps::{Drawn, ONE, drain_of, expect_part, scalars};
use cell_values::Cell::{Mv, Val};
use cell_values::Kind::{Nominal, Scalar};
use cell_values::{Cell, Kind};
use drain_meaning::{Drain, FlowOp};
use flow_task::{BaseKit, FlowKit};
use std::alloc::Global;
use std::test::Fail;
use tile_map::{Arg, Part};

/// The second operand of a transport.
#[derive(Clone, Copy, Debug)]
enum Second {
    /// The transport has none.
    Unused,
    /// One at each cell.
    One,
    /// These cells.
    Cells(&'static [Cell]),
}

/// A transport: its operation, the kind of its results, the drain map, its operands, its results, and the first place that is
/// out of range.
type Row = (
    FlowOp,
    Kind,
    Drawn,
    &'static [Cell],
    Second,
    &'static [Cell],
    Option<u32>,
);

/// The greatest scalar.
const MOST: i64 = 9_000_000_000_000_000_000;

/// Four cells that drain to the east.
const EAST: Drawn = (1, 4, b"6665");

/// Three cells that drain to the east.
const SHORT: Drawn = (1, 3, b"665");

/// What soils of two infiltrations take up.
const SOILS: Second = Second::Cells(&[Val(500_000), Val(2_000_000), Val(500_000)]);

static ROWS: [Row; 15] = [
    (
        FlowOp::Accuflux,
        Scalar,
        EAST,
        &[Val(ONE), Val(ONE), Val(ONE), Val(ONE)],
        Second::Unused,
        &[Val(ONE), Val(2 * ONE), Val(3 * ONE), Val(4 * ONE)],
        None,
    ),
    // The sum is judged at each cell.
    (
        FlowOp::Accuflux,
        Scalar,
        SHORT,
        &[Val(MOST), Val(MOST), Val(-MOST)],
        Second::Unused,
        &[Val(MOST), Mv, Val(MOST)],
        Some(1),
    ),
    (
        FlowOp::Accuflux,
        Scalar,
        EAST,
        &[Val(ONE), Mv, Val(ONE), Val(ONE)],
        Second::Unused,
        &[Val(ONE), Mv, Mv, Mv],
        None,
    ),
    (
        FlowOp::ThresholdFlux,
        Scalar,
        EAST,
        &[Val(3 * ONE), Val(0), Val(0), Val(0)],
        Second::One,
        &[Val(2 * ONE), Val(ONE), Val(0), Val(0)],
        None,
    ),
    (
        FlowOp::ThresholdState,
        Scalar,
        EAST,
        &[Val(3 * ONE), Val(0), Val(0), Val(0)],
        Second::One,
        &[Val(ONE), Val(ONE), Val(ONE), Val(0)],
        None,
    ),
    (
        FlowOp::Accuflux,
        Scalar,
        (2, 4, b"66245444"),
        &[
            Val(1),
            Val(1),
            Val(1),
            Val(1),
            Val(1),
            Val(1),
            Val(1),
            Val(1),
        ],
        Second::Unused,
        &[
            Val(1),
            Val(2),
            Val(4),
            Val(1),
            Val(8),
            Val(7),
            Val(6),
            Val(1),
        ],
        None,
    ),
    (
        FlowOp::Catchment,
        Nominal,
        EAST,
        &[Val(1), Val(3), Val(0), Val(0)],
        Second::Unused,
        &[Val(3), Val(3), Val(0), Val(0)],
        None,
    ),
    // A missing point counts where the path holds it.
    (
        FlowOp::Catchment,
        Nominal,
        EAST,
        &[Val(1), Mv, Val(2), Val(0)],
        Second::Unused,
        &[Mv, Mv, Val(2), Val(0)],
        None,
    ),
    // Runoff of rain over the soils.
    (
        FlowOp::ThresholdFlux,
        Scalar,
        SHORT,
        &[Val(2 * ONE), Val(2 * ONE), Val(2 * ONE)],
        SOILS,
        &[Val(1_500_000), Val(1_500_000), Val(3_000_000)],
        None,
    ),
    (
        FlowOp::ThresholdFlux,
        Scalar,
        SHORT,
        &[Val(ONE), Val(ONE), Val(ONE)],
        SOILS,
        &[Val(500_000), Val(0), Val(500_000)],
        None,
    ),
    (
        FlowOp::ThresholdState,
        Scalar,
        SHORT,
        &[Val(ONE), Val(ONE), Val(ONE)],
        SOILS,
        &[Val(500_000), Val(1_500_000), Val(500_000)],
        None,
    ),
    // A missing threshold.
    (
        FlowOp::ThresholdState,
        Scalar,
        SHORT,
        &[Val(ONE), Val(ONE), Val(ONE)],
        Second::Cells(&[Val(0), Mv, Val(0)]),
        &[Val(0), Mv, Mv],
        None,
    ),
    // No direction, no result.
    (
        FlowOp::Accuflux,
        Scalar,
        (1, 3, b"65."),
        &[Val(1), Val(2), Val(4)],
        Second::Unused,
        &[Val(1), Val(3), Mv],
        None,
    ),
    (
        FlowOp::Catchment,
        Nominal,
        (1, 3, b"65."),
        &[Val(1), Val(2), Val(4)],
        Second::Unused,
        &[Val(2), Val(2), Mv],
        None,
    ),
    // What flows on may be out of range where what stays is not.
    (
        FlowOp::ThresholdState,
        Scalar,
        SHORT,
        &[Val(MOST), Val(MOST), Val(MOST)],
        Second::One,
        &[Val(ONE), Val(ONE), Val(ONE)],
        None,
    ),
];

// The transport by the kit where its second operand is one number for all places, or none.
fn by_number(
    alloc: Global,
    op: FlowOp,
    kind: Kind,
    drain: &Drain,
    given: &[Cell],
    number: Arg<'_>,
) -> Result<Part, Fail>
    requires spans { SpansPlaces number (length drain.now.codes) }
    requires range { AreInRange (flow_operand number) }
{
    let a = scalars(alloc, given)?;
    if !BaseKit.knows(op) || a.len() != drain.cells().len() {
        Err("the kit does not know the transport, or the map has another size")?
    }
    let cells = Arg::Cells(a.as_slice());
    Ok(BaseKit.whole(alloc, op, kind, drain, cells, number)?)
}

// The transport by the kit where each of its operands has a cell for each place.
fn by_cells(
    alloc: Global,
    op: FlowOp,
    kind: Kind,
    drain: &Drain,
    given: &[Cell],
    other: &[Cell],
) -> Result<Part, Fail> {
    let a = scalars(alloc, given)?;
    let b = scalars(alloc, other)?;
    let count = drain.cells().len();
    if !BaseKit.knows(op) || a.len() != count || b.len() != count {
        Err("the kit does not know the transport, or the map has another size")?
    }
    let (a, b) = (Arg::Cells(a.as_slice()), Arg::Cells(b.as_slice()));
    Ok(BaseKit.whole(alloc, op, kind, drain, a, b)?)
}

// The transport by the kit.
fn by_kit(
    alloc: Global,
    op: FlowOp,
    kind: Kind,
    drain: &Drain,
    given: &[Cell],
    second: Second,
) -> Result<Part, Fail> {
    match second {
        Second::Unused => by_number(alloc, op, kind, drain, given, Arg::Unused),
        Second::One => by_number(alloc, op, kind, drain, given, Arg::One(Val(ONE))),
        Second::Cells(other) => by_cells(alloc, op, kind, drain, given, other),
    }
}

// The part of a row.
fn part_of_row(alloc: Global, (op, kind, map, given, second, _, _): Row) -> Result<Part, Fail> {
    let drain = drain_of(alloc, map)?;
    by_kit(alloc, op, kind, &drain, given, second)
}

#[test]
fn transports_come_out(rt: HostRuntime) -> Result<(), Fail> {
    for (number, row) in ROWS.iter().enumerate() {
        let part = part_of_row(rt.alloc(), *row)?;
        expect_part(&rt, number, &part, row.5, row.6);
    }
    Ok(())
}
