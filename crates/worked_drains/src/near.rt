//! One step up and down stream, over whole maps and over the tiles of them.

ghost use Rattle.std.specs.Prelude.{◌≡◌, ◌<◌, ◌*◌, ℕ, IfOk, length};
ghost use Rattle.cell_values.specs.Kinds.{IsCell};
ghost use Rattle.cell_values.specs.declared.kind.Kind.TheVariants.{Scalar};
ghost use Rattle.tile_map.specs.Cuts.{cell_at};
ghost use Rattle.tile_map.specs.Tiles.{tile_count};

use crate::maps::{Drawn, drain_of, expect_part, scalars};
use cell_values::Cell;
use cell_values::Cell::{Mv, Val};
use drain_meaning::{Drain, NearOp};
use drain_ops::near_part;
use std::alloc::{AllocError, Global};
use std::process::Abort;
use std::test::Fail;
use tile_map::{Part, Tiling};

/// The greatest scalar.
const MOST: i64 = 9_000_000_000_000_000_000;

/// A drain map, values over it, what `upstream` and `downstream` give.
type Row = (Drawn, &'static [Cell], &'static [Cell], &'static [Cell]);

/// The sides of tiles by which each map is gone over; the last are longer than those of the maps.
const SIDES: [(u32, u32); 5] = [(1, 1), (1, 2), (2, 1), (2, 2), (8, 8)];

static ROWS: [Row; 5] = [
    (
        (1, 4, b"6665"),
        &[Val(1), Val(2), Val(3), Val(4)],
        &[Val(0), Val(1), Val(2), Val(3)],
        &[Val(2), Val(3), Val(4), Val(4)],
    ),
    // Missing values, and cells without a direction.
    (
        (1, 5, b"65.65"),
        &[Val(1), Val(2), Mv, Mv, Val(16)],
        &[Val(0), Val(1), Mv, Val(0), Mv],
        &[Val(2), Val(2), Mv, Val(16), Val(16)],
    ),
    // A cell's own value does not count downstream, nor upstream.
    (
        (1, 3, b"665"),
        &[Val(1), Mv, Val(3)],
        &[Val(0), Val(1), Mv],
        &[Mv, Val(3), Val(3)],
    ),
    // Eight neighbours drain into the middle.
    (
        (3, 3, b"321654987"),
        &[
            Val(1),
            Val(2),
            Val(4),
            Val(8),
            Val(16),
            Val(32),
            Val(64),
            Val(128),
            Val(256),
        ],
        &[
            Val(0),
            Val(0),
            Val(0),
            Val(0),
            Val(495),
            Val(0),
            Val(0),
            Val(0),
            Val(0),
        ],
        &[
            Val(16),
            Val(16),
            Val(16),
            Val(16),
            Val(16),
            Val(16),
            Val(16),
            Val(16),
            Val(16),
        ],
    ),
    // Two rows: the end of one is not the begin of the next.
    (
        (2, 4, b"66245444"),
        &[
            Val(1),
            Val(2),
            Val(4),
            Val(8),
            Val(16),
            Val(32),
            Val(64),
            Val(128),
        ],
        &[
            Val(0),
            Val(1),
            Val(10),
            Val(0),
            Val(32),
            Val(64),
            Val(132),
            Val(0),
        ],
        &[
            Val(2),
            Val(4),
            Val(64),
            Val(4),
            Val(16),
            Val(16),
            Val(32),
            Val(64),
        ],
    ),
];

// The tiling of a map into tiles of this size.
fn tiling_of(drain: &Drain, tile_rows: u32, tile_cols: u32) -> Result<Tiling, Fail>
    ensures rows { IfOk result (λ tiling. tiling.rows ≡ drain.now.rows) }
    ensures cols { IfOk result (λ tiling. tiling.cols ≡ drain.now.cols) }
{
    let (rows, cols) = (drain.rows(), drain.cols());
    let are_sides = 0 < rows
        && 0 < cols
        && u64::from(rows) * u64::from(cols) <= 4_194_304
        && 0 < tile_rows
        && tile_rows <= 4096
        && 0 < tile_cols
        && tile_cols <= 4096;
    if are_sides {
        Ok(Tiling::new(rows, cols, tile_rows, tile_cols))
    } else {
        Err("the map or its tiles have no such sides")?
    }
}

// One step over a tile.
fn near_tile(
    alloc: Global,
    op: NearOp,
    drain: &Drain,
    values: &[Cell],
    tiling: &Tiling,
    tile: u32,
) -> Result<Part, AllocError>
    requires rows { tiling.now.rows ≡ drain.now.rows }
    requires cols { tiling.now.cols ≡ drain.now.cols }
    requires many { length values.now ≡ drain.now.rows * drain.now.cols }
    requires scalars { (place : ℕ) → IsCell Scalar (cell_at values.now place) }
    requires tile { tile < tile_count tiling.now }
{
    let around = tiling.halo(tile, 1);
    let codes = tiling.cut(alloc, drain.cells(), around)?;
    let cells = tiling.cut(alloc, values, around)?;
    near_part(alloc, op, &codes, &cells, around, tiling.rect(tile))
}

// Puts the cells of a tile's part into the map.
fn put(tiling: &Tiling, whole: &mut [Cell], tile: u32, part: &Part) -> Result<(), Fail>
    requires whole { length whole.old ≡ tiling.now.rows * tiling.now.cols }
    requires tile { tile < tile_count tiling.now }
{
    let rect = tiling.rect(tile);
    let cells = part.cells.as_slice();
    if cells.len() as u64 != u64::from(rect.rows) * u64::from(rect.cols) {
        Err("the part has another size")?
    }
    tiling.paste(whole, tile, cells);
    Ok(())
}

// One step over all tiles.
fn near_tiles(
    alloc: Global,
    op: NearOp,
    drain: &Drain,
    values: &[Cell],
    tiling: &Tiling,
    whole: &mut [Cell],
) -> Result<(), Fail>
    requires rows { tiling.now.rows ≡ drain.now.rows }
    requires cols { tiling.now.cols ≡ drain.now.cols }
    requires many { length values.now ≡ drain.now.rows * drain.now.cols }
    requires scalars { (place : ℕ) → IsCell Scalar (cell_at values.now place) }
    requires whole { length whole.old ≡ drain.now.rows * drain.now.cols }
{
    for tile in 0..tiling.count() {
        let part = near_tile(alloc, op, drain, values, tiling, tile)?;
        put(tiling, whole, tile, &part)?;
    }
    Ok(())
}

// One step over all tiles, into a map of its own.
fn step_over(
    alloc: Global,
    op: NearOp,
    drain: &Drain,
    values: &[Cell],
    tiling: &Tiling,
) -> Result<Vec<Cell>, Fail>
    requires rows { tiling.now.rows ≡ drain.now.rows }
    requires cols { tiling.now.cols ≡ drain.now.cols }
    requires scalars { (place : ℕ) → IsCell Scalar (cell_at values.now place) }
{
    let count = drain.cells().len();
    if values.len() != count {
        Err("the map has another size")?
    }
    let mut whole = vec![in alloc; Val(-1); count]?;
    near_tiles(alloc, op, drain, values, tiling, &mut whole)?;
    Ok(whole)
}

// One step over a map, by tiles of this size.
fn by_tiles(
    alloc: Global,
    op: NearOp,
    map: Drawn,
    values: &[Cell],
    (tile_rows, tile_cols): (u32, u32),
) -> Result<Vec<Cell>, Fail> {
    let drain = drain_of(alloc, map)?;
    let values = scalars(alloc, values)?;
    let tiling = tiling_of(&drain, tile_rows, tile_cols)?;
    step_over(alloc, op, &drain, &values, &tiling)
}

// One step over a map in one piece.
fn in_one(alloc: Global, op: NearOp, map: Drawn, values: &[Cell]) -> Result<Part, Fail> {
    let drain = drain_of(alloc, map)?;
    let values = scalars(alloc, values)?;
    let tiling = tiling_of(&drain, 4096, 4096)?;
    if values.len() != drain.cells().len() || tiling.count() == 0 {
        Err("the map has another size")?
    }
    Ok(near_tile(alloc, op, &drain, &values, &tiling, 0)?)
}

// One step over a map gives these cells, by tiles of each size.
fn expect_steps(
    rt: &impl Abort,
    alloc: Global,
    op: NearOp,
    map: Drawn,
    values: &[Cell],
    wanted: &[Cell],
) -> Result<(), Fail> {
    for sides in SIDES.iter() {
        let got = by_tiles(alloc, op, map, values, *sides)?;
        assert_eq!(rt; got.as_slice(), wanted, "{map:?} {sides:?}");
    }
    Ok(())
}

#[test]
fn steps_come_out(rt: HostRuntime) -> Result<(), Fail> {
    for (map, values, up, down) in ROWS.iter() {
        expect_steps(&rt, rt.alloc(), NearOp::Upstream, *map, values, up)?;
        expect_steps(&rt, rt.alloc(), NearOp::Downstream, *map, values, down)?;
    }
    Ok(())
}

#[test]
fn sums_are_judged_at_each_cell(rt: HostRuntime) -> Result<(), Fail> {
    let values = [Val(MOST), Val(0), Val(1)];
    let got = in_one(rt.alloc(), NearOp::Upstream, (1, 3, b"654"), &values)?;
    expect_part(&rt, 0, &got, &[Val(0), Mv, Val(0)], Some(1));
    Ok(())
}
