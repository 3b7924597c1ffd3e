//! Transports by tiles beside transports over whole maps.

ghost use Rattle.std.specs.Prelude.{◌≡◌, ◌<◌, ◌*◌, length};
ghost use Rattle.border_channel.specs.Edges.{HasSizeOf};
ghost use Rattle.tile_map.specs.Tiles.{tile_count};

use crate::maps::{Drawn, drain_of, drawn_cells, scalars, tiling_of};
use crate::run::Run;
use border_channel::Message;
use cell_values::Cell::Val;
use cell_values::Kind::{Nominal, Scalar};
use cell_values::{Cell, Kind};
use drain_meaning::{Drain, FlowOp};
use flow_task::{BaseKit, FlowKit};
use std::alloc::Global;
use std::process::Abort;
use std::test::Fail;
use tile_map::{Arg, Part, Tiling};

/// A drain map and two operands over it, by their signs.
type Row = (Drawn, &'static [u8], &'static [u8]);

/// The sides of tiles by which each map is gone over; the last are longer than those of the maps.
const SIDES: [(u32, u32); 8] = [
    (1, 1),
    (1, 2),
    (2, 1),
    (2, 2),
    (3, 2),
    (1, 4),
    (4, 1),
    (8, 8),
];

/// The transports of the first kit.
const OPS: [(FlowOp, Kind); 4] = [
    (FlowOp::Accuflux, Scalar),
    (FlowOp::ThresholdFlux, Scalar),
    (FlowOp::ThresholdState, Scalar),
    (FlowOp::Catchment, Nominal),
];

static ROWS: [Row; 6] = [
    // One row.
    ((1, 5, b"66665"), b"10480", b"02093"),
    // One column, with missing operands.
    ((5, 1, b"22258"), b"10.89", b"0.023"),
    // Missing codes.
    ((2, 4, b"5.245.54"), b"12481248", b"00209090"),
    // Eight neighbours drain into the middle.
    ((3, 3, b"321654987"), b"124812481", b"111191111"),
    // A river that winds into the middle, and so crosses each border more than once.
    (
        (4, 4, b"6662662285428444"),
        b"1034567891234567",
        b"0500900100203004",
    ),
    // The same, with results out of range at places whose order the tiles change.
    (
        (4, 4, b"6662662285428444"),
        b"10M45m78910m34M6",
        b"0500900100203004",
    ),
];

// The works over all tiles of a map begin.
fn begin_all(
    alloc: Global,
    transport: (FlowOp, Kind),
    drain: &Drain,
    tiling: &Tiling,
    a: &[Cell],
    b: &[Cell],
) -> Result<Vec<Run>, Fail>
    requires size { HasSizeOf drain.now tiling.now }
    requires a { length a.now ≡ tiling.now.rows * tiling.now.cols }
    requires b { length b.now ≡ tiling.now.rows * tiling.now.cols }
{
    let (op, kind) = transport;
    let mut runs = Vec::new(alloc);
    for tile in 0..tiling.count() {
        let rect = tiling.rect(tile);
        let a = tiling.cut(alloc, a, rect)?;
        let b = tiling.cut(alloc, b, rect)?;
        runs.push(Run::begin(alloc, op, kind, drain, tiling, tile, &a, &b)?)?;
    }
    Ok(runs)
}

// A message comes to the tile of its edge's target.
fn deliver(
    runs: &mut Vec<Run>,
    tiling: &Tiling,
    target: u32,
    message: Message,
) -> Result<(), Fail> {
    if u64::from(target) >= u64::from(tiling.rows) * u64::from(tiling.cols) {
        Err("an edge leaves the map")?
    }
    match runs.get_mut(tiling.tile_of(target) as usize) {
        Some(run) => run.accept(message),
        None => Err("there is no such tile")?,
    }
}

// Each tile sends a message, if it has one, the last tile first where that is asked for.
fn send_round(runs: &mut Vec<Run>, tiling: &Tiling, last_first: bool) -> Result<(), Fail> {
    let count = runs.len();
    for at in 0..count {
        let tile = if last_first { count - 1 - at } else { at };
        let sent = match runs.get_mut(tile) {
            Some(run) => run.send(),
            None => None,
        };
        if let Some((message, target)) = sent {
            deliver(runs, tiling, target, message)?;
        }
    }
    Ok(())
}

// Puts a tile's part into the map, and tells the least place that is out of range.
fn put(
    tiling: &Tiling,
    whole: &mut [Cell],
    tile: u32,
    part: &Part,
    over: Option<u32>,
) -> Result<Option<u32>, Fail>
    requires whole { length whole.old ≡ tiling.now.rows * tiling.now.cols }
    requires tile { tile < tile_count tiling.now }
    ensures { length whole.new ≡ length whole.old }
{
    let rect = tiling.rect(tile);
    let cells = part.cells.as_slice();
    if cells.len() as u64 != u64::from(rect.rows) * u64::from(rect.cols) {
        Err("the part has another size")?
    }
    tiling.paste(whole, tile, cells);
    match part.over {
        Some(number) => {
            let row = u64::from(rect.top) + u64::from(number / rect.cols);
            let place = row * u64::from(tiling.cols) + u64::from(rect.left + number % rect.cols);
            let place = u32::try_from(place).unwrap_or(u32::MAX);
            Ok(Some(over.unwrap_or(place).min(place)))
        }
        None => Ok(over),
    }
}

// A transport by tiles: its cells, and the first place that is out of range.
fn by_tiles(
    alloc: Global,
    op: (FlowOp, Kind),
    (map, a, b): Row,
    sides: (u32, u32),
    last_first: bool,
) -> Result<(Vec<Cell>, Option<u32>), Fail> {
    let a = drawn_cells(alloc, a)?;
    let b = drawn_cells(alloc, b)?;
    let drain = drain_of(alloc, map)?;
    let tiling = tiling_of(&drain, sides)?;
    let count = drain.cells().len();
    if a.len() != count || b.len() != count {
        Err("an operand has another size")?
    }
    let mut runs = begin_all(alloc, op, &drain, &tiling, &a, &b)?;
    for _ in 0..count {
        send_round(&mut runs, &tiling, last_first)?;
    }
    let mut whole = vec![in alloc; Val(-1); count]?;
    let mut over = None;
    for tile in 0..tiling.count() {
        let part = match runs.get(tile as usize) {
            Some(run) => run.finish(alloc)?,
            None => Err("there is no such tile")?,
        };
        over = put(&tiling, &mut whole, tile, &part, over)?;
    }
    Ok((whole, over))
}

// A transport over a whole map.
fn in_one(alloc: Global, (op, kind): (FlowOp, Kind), (map, a, b): Row) -> Result<Part, Fail> {
    let drain = drain_of(alloc, map)?;
    let a = scalars(alloc, &drawn_cells(alloc, a)?)?;
    let b = scalars(alloc, &drawn_cells(alloc, b)?)?;
    let count = drain.cells().len();
    if !BaseKit.knows(op) || a.len() != count || b.len() != count {
        Err("the kit does not know the transport, or an operand has another size")?
    }
    let (a, b) = (Arg::Cells(a.as_slice()), Arg::Cells(b.as_slice()));
    Ok(BaseKit.whole(alloc, op, kind, &drain, a, b)?)
}

// A transport over a map comes out the same by tiles of each size, whichever tile sends first.
fn expect_same(
    rt: &impl Abort,
    alloc: Global,
    op: (FlowOp, Kind),
    row: Row,
    number: usize,
) -> Result<(), Fail> {
    let whole = in_one(alloc, op, row)?;
    for sides in SIDES.iter() {
        for last_first in [false, true].iter() {
            let (cells, over) = by_tiles(alloc, op, row, *sides, *last_first)?;
            assert_eq!(rt;
                (cells.as_slice(), over),
                (whole.cells.as_slice(), whole.over),
                "row {number}, {op:?}, {sides:?}, last first: {last_first}"
            );
        }
    }
    Ok(())
}

#[test]
fn tiles_give_the_whole_map(rt: HostRuntime) -> Result<(), Fail> {
    for (number, row) in ROWS.iter().enumerate() {
        for op in OPS.iter() {
            expect_same(&rt, rt.alloc(), *op, *row, number)?;
        }
    }
    Ok(())
}
