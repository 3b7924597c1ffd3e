//! Windows of small maps that were drawn by hand, tile by tile.

use crate::tiles::{Sides, is_in_map, paste, tiling};
use cell_values::Cell;
use cell_values::Cell::{Mv, Val};
use region_meaning::WindowOp;
use region_meaning::WindowOp::{Average, Diversity, Majority, Maximum, Minimum, Total};
use std::alloc::Global;
use std::process::Abort;
use std::test::Fail;
use tile_map::{Part, Rect, Tiling};
use window_ops::window_part;

/// One.
const ONE: i64 = 1_000_000;

/// The greatest scalar.
const MOST: i64 = 9_000_000_000_000_000_000;

/// An operation, how far a window reaches, a map with its tiles, and what is wanted.
type Row = (WindowOp, u32, Sides, &'static [Cell], &'static [Cell]);

/// A map of one row.
const FOUR: &[Cell] = &[Val(1), Val(2), Val(3), Val(4)];

/// A map of two rows, or of three.
const SIX: &[Cell] = &[Val(1), Val(2), Val(3), Val(4), Val(5), Val(6)];

/// A map with missing values.
const HOLES: &[Cell] = &[Val(1), Mv, Val(3), Mv, Mv, Mv, Val(7), Mv, Val(9)];

/// Classes, of which one is missing.
const CLASSES: &[Cell] = &[
    Val(3),
    Val(3),
    Val(1),
    Val(2),
    Val(2),
    Val(1),
    Mv,
    Val(3),
    Val(2),
];

/// Negative numbers, of which one is missing.
const BELOW: &[Cell] = &[Val(-1), Val(-2), Val(-4), Mv];

/// A map without values.
const NONE: &[Cell] = &[Mv, Mv, Mv];

static WINDOWS: [Row; 22] = [
    (
        Total,
        1,
        (1, 4, 1, 2),
        FOUR,
        &[Val(3), Val(6), Val(9), Val(7)],
    ),
    (
        Total,
        0,
        (1, 4, 1, 3),
        FOUR,
        &[Val(1), Val(2), Val(3), Val(4)],
    ),
    (
        Total,
        15,
        (1, 4, 1, 1),
        FOUR,
        &[Val(10), Val(10), Val(10), Val(10)],
    ),
    (
        Total,
        1,
        (2, 3, 1, 1),
        SIX,
        &[Val(12), Val(21), Val(16), Val(12), Val(21), Val(16)],
    ),
    (
        Total,
        1,
        (3, 2, 3, 2),
        SIX,
        &[Val(10), Val(10), Val(21), Val(21), Val(18), Val(18)],
    ),
    (
        Total,
        1,
        (3, 3, 2, 2),
        HOLES,
        &[
            Val(1),
            Val(4),
            Val(3),
            Val(8),
            Val(20),
            Val(12),
            Val(7),
            Val(16),
            Val(9),
        ],
    ),
    (Total, 1, (1, 3, 1, 1), NONE, &[Mv, Mv, Mv]),
    (
        Average,
        1,
        (2, 3, 2, 2),
        SIX,
        &[Val(3), Val(4), Val(4), Val(3), Val(4), Val(4)],
    ),
    (
        Average,
        1,
        (1, 4, 1, 3),
        BELOW,
        &[Val(-2), Val(-2), Val(-3), Val(-4)],
    ),
    (
        Average,
        1,
        (3, 3, 1, 3),
        HOLES,
        &[
            Val(1),
            Val(2),
            Val(3),
            Val(4),
            Val(5),
            Val(6),
            Val(7),
            Val(8),
            Val(9),
        ],
    ),
    (
        Minimum,
        1,
        (1, 4, 1, 2),
        BELOW,
        &[Val(-2), Val(-4), Val(-4), Val(-4)],
    ),
    (
        Minimum,
        1,
        (3, 3, 2, 1),
        HOLES,
        &[
            Val(1),
            Val(1),
            Val(3),
            Val(1),
            Val(1),
            Val(3),
            Val(7),
            Val(7),
            Val(9),
        ],
    ),
    (
        Maximum,
        1,
        (1, 4, 1, 2),
        BELOW,
        &[Val(-1), Val(-1), Val(-2), Val(-4)],
    ),
    (
        Maximum,
        1,
        (3, 3, 1, 1),
        HOLES,
        &[
            Val(1),
            Val(3),
            Val(3),
            Val(7),
            Val(9),
            Val(9),
            Val(7),
            Val(9),
            Val(9),
        ],
    ),
    (
        Diversity,
        1,
        (1, 4, 1, 4),
        BELOW,
        &[Val(2 * ONE), Val(3 * ONE), Val(2 * ONE), Val(ONE)],
    ),
    (
        Diversity,
        0,
        (1, 4, 1, 4),
        BELOW,
        &[Val(ONE), Val(ONE), Val(ONE), Mv],
    ),
    (
        Diversity,
        1,
        (3, 3, 2, 2),
        CLASSES,
        &[
            Val(2 * ONE),
            Val(3 * ONE),
            Val(3 * ONE),
            Val(2 * ONE),
            Val(3 * ONE),
            Val(3 * ONE),
            Val(2 * ONE),
            Val(3 * ONE),
            Val(3 * ONE),
        ],
    ),
    (Diversity, 1, (1, 3, 1, 2), NONE, &[Mv, Mv, Mv]),
    (
        Majority,
        1,
        (1, 4, 1, 2),
        &[Val(2), Val(1), Val(2), Val(1)],
        &[Val(1), Val(2), Val(1), Val(1)],
    ),
    (
        Majority,
        1,
        (3, 3, 2, 2),
        CLASSES,
        &[
            Val(2),
            Val(1),
            Val(1),
            Val(3),
            Val(2),
            Val(1),
            Val(2),
            Val(2),
            Val(2),
        ],
    ),
    (
        Majority,
        15,
        (3, 3, 1, 1),
        CLASSES,
        &[
            Val(2),
            Val(2),
            Val(2),
            Val(2),
            Val(2),
            Val(2),
            Val(2),
            Val(2),
            Val(2),
        ],
    ),
    (Majority, 1, (1, 3, 1, 3), NONE, &[Mv, Mv, Mv]),
];

/// An operation over the windows of a map of one row, and its first place out of range.
static OVERS: [(WindowOp, &'static [Cell], Option<u32>); 4] = [
    (Total, &[Val(1), Val(MOST), Val(1), Val(-MOST)], Some(0)),
    (
        Total,
        &[Val(-3), Val(MOST), Val(-5), Val(MOST), Val(4)],
        Some(2),
    ),
    (Total, &[Val(MOST), Mv, Mv, Val(MOST)], None),
    (Average, &[Val(MOST), Val(MOST), Val(MOST)], None),
];

// A window operation over a rectangle of a map, by the cells around it.
fn windows(
    alloc: Global,
    op: WindowOp,
    k: u32,
    cells: &[Cell],
    around: Rect,
    inner: Rect,
) -> Result<Part, Fail> {
    let size = around.rows as usize * around.cols as usize;
    let is_inside = around.top <= inner.top
        && around.left <= inner.left
        && inner.top as u64 + inner.rows as u64 <= around.top as u64 + around.rows as u64
        && inner.left as u64 + inner.cols as u64 <= around.left as u64 + around.cols as u64;
    if 15 < k || 4_194_304 < size || cells.len() != size || !is_inside {
        Err("the rectangle does not lie within, or the cells are not its own")?
    }
    Ok(window_part(alloc, op, k, cells, around, inner)?)
}

// The cells of a rectangle of a map.
fn held(alloc: Global, tiling: &Tiling, cells: &[Cell], rect: Rect) -> Result<Vec<Cell>, Fail> {
    if cells.len() != tiling.rows as usize * tiling.cols as usize || !is_in_map(tiling, rect) {
        Err("the rectangle leaves the map")?
    }
    Ok(tiling.cut(alloc, cells, rect)?)
}

// What an operation gives of all windows of a map, tile by tile.
fn by_tiles(
    alloc: Global,
    op: WindowOp,
    k: u32,
    sides: Sides,
    cells: &[Cell],
) -> Result<Vec<Cell>, Fail> {
    let tiling = tiling(sides).ok_or("these are no sides")?;
    let mut whole = Vec::from_slice(alloc, cells)?;
    for tile in 0..tiling.count() {
        let around = tiling.halo(tile, k);
        let near = held(alloc, &tiling, cells, around)?;
        let part = windows(alloc, op, k, near.as_slice(), around, tiling.rect(tile))?;
        paste(&tiling, whole.as_mut_slice(), tile, part.cells.as_slice())?;
    }
    Ok(whole)
}

// The first place of a map of one row whose outcome is out of range.
fn first_over(alloc: Global, op: WindowOp, cells: &[Cell]) -> Result<Option<u32>, Fail> {
    let whole = Rect {
        top: 0,
        left: 0,
        rows: 1,
        cols: u32::try_from(cells.len())?,
    };
    Ok(windows(alloc, op, 1, cells, whole, whole)?.over)
}

// The windows of each row's map come out so.
fn expect_windows(rt: &impl Abort, alloc: Global, rows: &[Row]) -> Result<(), Fail> {
    for (op, k, sides, cells, want) in rows {
        let got = by_tiles(alloc, *op, *k, *sides, cells)?;
        assert_eq!(rt; got.as_slice(), *want, "{op:?} {k} {sides:?}");
    }
    Ok(())
}

#[test]
fn windows_come_out(rt: HostRuntime) -> Result<(), Fail> {
    expect_windows(&rt, rt.alloc(), &WINDOWS)
}

// The first place out of range is that of each row.
fn expect_overs(
    rt: &impl Abort,
    alloc: Global,
    rows: &[(WindowOp, &[Cell], Option<u32>)],
) -> Result<(), Fail> {
    for (op, cells, want) in rows {
        let over = first_over(alloc, *op, cells)?;
        assert_eq!(rt; over, *want, "{op:?} {cells:?}");
    }
    Ok(())
}

#[test]
fn the_first_over_is_told(rt: HostRuntime) -> Result<(), Fail> {
    expect_overs(&rt, rt.alloc(), &OVERS)
}
