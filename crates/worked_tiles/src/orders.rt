//! A transport over one tile, with its messages in every order.

use crate::maps::{Drawn, drain_of, drawn_cells, tiling_of};
use crate::run::Run;
use border_channel::Message;
use cell_values::Cell::{Mv, Val};
use cell_values::Kind::{Nominal, Scalar};
use cell_values::{Cell, Kind};
use drain_meaning::Flow::{Mv as Missing, Num};
use drain_meaning::{Flow, FlowOp};
use std::alloc::Global;
use std::process::Abort;
use std::test::Fail;

/// A transport over a tile: its operation and kind, the drain map, the sides of its tiles and the tile.
type Over = (FlowOp, Kind, Drawn, (u32, u32), u32);

/// The messages that come and those that go, by their edges.
type Flows = &'static [(u32, Flow)];

/// A transport over a tile, its operands there by their signs, the messages that come, its results, the first that is out of range, and the
/// messages that go.
type Row = (
    Over,
    &'static [u8],
    &'static [u8],
    Flows,
    &'static [Cell],
    Option<u32>,
    Flows,
);

/// More messages than go out of any of the tiles.
const MORE_THAN_GO: u32 = 8;

/// Five neighbours drain into the middle; each cell is a tile.
const FIVE: Drawn = (3, 3, b"321654555");

/// Three rows that drain into a river in the middle column, and out of it to the east; each column is a tile.
const RIVER: Drawn = (3, 3, b"625625665");

/// Five rows that drain to the east; each column is a tile.
const ROWS_EAST: Drawn = (5, 2, b"6565656565");

static ROWS: [Row; 9] = [
    // Flows of 0 among them, and the cell's own material.
    (
        (FlowOp::Accuflux, Scalar, FIVE, (1, 1), 4),
        b"8",
        b"0",
        &[
            (0, Num(1)),
            (1, Num(0)),
            (2, Num(2)),
            (3, Num(4)),
            (4, Num(0)),
        ],
        &[Val(15)],
        None,
        &[],
    ),
    // A missing flow.
    (
        (FlowOp::Accuflux, Scalar, FIVE, (1, 1), 4),
        b"8",
        b"0",
        &[
            (0, Num(1)),
            (1, Num(0)),
            (2, Missing),
            (3, Num(4)),
            (4, Num(0)),
        ],
        &[Mv],
        None,
        &[],
    ),
    // A river through the tile.
    (
        (FlowOp::Accuflux, Scalar, RIVER, (3, 1), 1),
        b"124",
        b"000",
        &[(0, Num(10)), (1, Num(0)), (2, Num(30))],
        &[Val(11), Val(13), Val(47)],
        None,
        &[(3, Num(47))],
    ),
    // A missing flow goes on from where it comes.
    (
        (FlowOp::Accuflux, Scalar, RIVER, (3, 1), 1),
        b"124",
        b"000",
        &[(0, Num(10)), (1, Missing), (2, Num(30))],
        &[Val(11), Mv, Mv],
        None,
        &[(3, Missing)],
    ),
    // Two results are out of range, of which the first is told; the number flows on, and comes back into the range.
    (
        (FlowOp::Accuflux, Scalar, RIVER, (3, 1), 1),
        b"M0m",
        b"000",
        &[(0, Num(1)), (1, Num(0)), (2, Num(0))],
        &[Mv, Mv, Val(1)],
        Some(0),
        &[(3, Num(1))],
    ),
    // What is above the threshold flows on, and what the threshold keeps stays.
    (
        (FlowOp::ThresholdFlux, Scalar, RIVER, (3, 1), 1),
        b"124",
        b"590",
        &[(0, Num(10)), (1, Num(0)), (2, Num(30))],
        &[Val(6), Val(0), Val(34)],
        None,
        &[(3, Num(34))],
    ),
    (
        (FlowOp::ThresholdState, Scalar, RIVER, (3, 1), 1),
        b"124",
        b"590",
        &[(0, Num(10)), (1, Num(0)), (2, Num(30))],
        &[Val(5), Val(8), Val(0)],
        None,
        &[(3, Num(34))],
    ),
    // Up stream: the point farthest down, one of the tile where none comes from below, and a missing one.
    (
        (FlowOp::Catchment, Nominal, ROWS_EAST, (5, 1), 0),
        b"12300",
        b"00000",
        &[
            (0, Num(7)),
            (1, Num(0)),
            (2, Missing),
            (3, Num(3)),
            (4, Num(0)),
        ],
        &[Val(7), Val(2), Mv, Val(3), Val(0)],
        None,
        &[],
    ),
    // Up stream through the tile, and out of it at three cells.
    (
        (FlowOp::Catchment, Nominal, RIVER, (3, 1), 1),
        b"120",
        b"000",
        &[(3, Num(0))],
        &[Val(2), Val(2), Val(0)],
        None,
        &[(0, Num(2)), (1, Num(2)), (2, Num(0))],
    ),
];

// How many orders so many messages have.
fn orders(count: usize) -> usize {
    match count {
        0 | 1 => 1,
        2 => 2,
        3 => 6,
        4 => 24,
        _ => 120,
    }
}

// One of the orders of so many messages: those that are left, of which the number tells the next.
fn order_of(alloc: Global, count: usize, number: usize) -> Result<Vec<usize>, Fail> {
    let mut left = Vec::new(alloc);
    for at in 0..count {
        left.push(at)?;
    }
    let mut order = Vec::new(alloc);
    let mut rest = number;
    for _ in 0..count {
        if left.is_empty() {
            Err("nothing is left")?
        }
        let many = left.len();
        order.push(left.remove(rest % many))?;
        rest /= many;
    }
    Ok(order)
}

// Sends what can be sent, of edges that ascend.
fn send_all(run: &mut Run, sent: &mut Vec<Message>) -> Result<(), Fail> {
    let mut least = 0;
    for _ in 0..MORE_THAN_GO {
        if let Some((message, _)) = run.send() {
            if message.edge < least {
                Err("a lesser edge is sent later")?
            }
            least = message.edge;
            sent.push(message)?;
        }
    }
    Ok(())
}

// Begins a row's transport.
fn begin(
    alloc: Global,
    (op, kind, map, sides, tile): Over,
    a: &[u8],
    b: &[u8],
) -> Result<Run, Fail> {
    let a = drawn_cells(alloc, a)?;
    let b = drawn_cells(alloc, b)?;
    let drain = drain_of(alloc, map)?;
    let tiling = tiling_of(&drain, sides)?;
    Run::begin(alloc, op, kind, &drain, &tiling, tile, &a, &b)
}

// A row's messages come in one of their orders, and what can be sent goes after each; the messages that went.
fn come_and_go(
    alloc: Global,
    run: &mut Run,
    flows: Flows,
    number: usize,
) -> Result<Vec<Message>, Fail> {
    let mut sent = Vec::new(alloc);
    send_all(run, &mut sent)?;
    for at in order_of(alloc, flows.len(), number)?.iter() {
        match flows.get(*at) {
            Some((edge, flow)) => run.accept(Message {
                edge: *edge,
                flow: *flow,
            })?,
            None => Err("there is no such message")?,
        }
        send_all(run, &mut sent)?;
    }
    Ok(sent)
}

// Just the messages that are wanted went.
fn expect_sent(rt: &impl Abort, sent: &[Message], wanted: Flows, row: usize, order: usize) {
    assert_eq!(rt; sent.len(), wanted.len(), "row {row}, order {order}");
    for (edge, flow) in wanted.iter() {
        let message = Message {
            edge: *edge,
            flow: *flow,
        };
        assert!(rt;
            sent.contains(&message),
            "row {row}, order {order}: edge {edge}"
        );
    }
}

// A row in one order of its messages. A tile that has ended gives its results as often as it is asked.
fn expect_row(
    rt: &impl Abort,
    alloc: Global,
    (over, a, b, flows, cells, first, wanted): Row,
    row: usize,
    order: usize,
) -> Result<(), Fail> {
    let mut run = begin(alloc, over, a, b)?;
    let sent = come_and_go(alloc, &mut run, flows, order)?;
    expect_sent(rt, &sent, wanted, row, order);
    assert_eq!(rt; run.ends(), (true, true), "row {row}, order {order}");
    for _ in 0..2 {
        let part = run.finish(alloc)?;
        assert_eq!(rt;
            (part.cells.as_slice(), part.over),
            (cells, first),
            "row {row}, order {order}"
        );
    }
    Ok(())
}

#[test]
fn messages_may_come_in_any_order(rt: HostRuntime) -> Result<(), Fail> {
    for (number, row) in ROWS.iter().enumerate() {
        for order in 0..orders(row.3.len()) {
            expect_row(&rt, rt.alloc(), *row, number, order)?;
        }
    }
    Ok(())
}
