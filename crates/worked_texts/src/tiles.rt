//! Rectangles, tiles, cuts and pastes on small maps that were drawn by hand, and at the limits.

ghost use Rattle.std.specs.Prelude.{◌≡◌, ◌<◌, ◌*◌, ◌↔◌, ℕ, [], length, get_or, IsTrue};
ghost use Rattle.tile_map.specs.Rects.{IsInMap, cell_count};
ghost use Rattle.tile_map.specs.Tiles.{rect_of, tile_count};

use cell_values::Cell::{Mv, Val};
use cell_values::{Cell, Cells};
use std::alloc::{AllocError, Global};
use std::test::Fail;
use tile_map::{Arg, Rect, TileSource, Tiling};

/// The rows and columns of a map and of its tiles.
pub type Sides = (u32, u32, u32, u32);

/// A rectangle: its first row and column, and how many rows and columns it has.
type Four = (u32, u32, u32, u32);

/// How many tiles there are.
static COUNTS: [(Sides, u32); 10] = [
    ((5, 7, 2, 3), 9),
    ((1, 5, 2, 2), 3),
    ((5, 1, 2, 2), 3),
    ((1, 1, 4096, 4096), 1),
    ((1, 1, 1, 1), 1),
    ((3, 4, 10, 10), 1),
    ((6, 6, 2, 3), 6),
    ((2048, 2048, 64, 64), 1024),
    ((2048, 2048, 1, 1), 4_194_304),
    ((1, 4_194_304, 1, 4096), 1024),
];

/// A tile's rectangle.
static RECTS: [(Sides, u32, Four); 18] = [
    ((5, 7, 2, 3), 0, (0, 0, 2, 3)),
    ((5, 7, 2, 3), 1, (0, 3, 2, 3)),
    ((5, 7, 2, 3), 2, (0, 6, 2, 1)),
    ((5, 7, 2, 3), 3, (2, 0, 2, 3)),
    ((5, 7, 2, 3), 6, (4, 0, 1, 3)),
    ((5, 7, 2, 3), 8, (4, 6, 1, 1)),
    ((1, 5, 2, 2), 1, (0, 2, 1, 2)),
    ((1, 5, 2, 2), 2, (0, 4, 1, 1)),
    ((5, 1, 2, 2), 1, (2, 0, 2, 1)),
    ((5, 1, 2, 2), 2, (4, 0, 1, 1)),
    ((1, 1, 4096, 4096), 0, (0, 0, 1, 1)),
    ((3, 4, 10, 10), 0, (0, 0, 3, 4)),
    ((2048, 2048, 64, 64), 33, (64, 64, 64, 64)),
    ((2048, 2048, 64, 64), 1023, (1984, 1984, 64, 64)),
    ((2048, 2048, 4096, 1), 2047, (0, 2047, 2048, 1)),
    ((2048, 2048, 1, 1), 4_194_303, (2047, 2047, 1, 1)),
    ((1, 4_194_304, 1, 4096), 1023, (0, 4_190_208, 1, 4096)),
    ((4_194_304, 1, 4095, 1), 1024, (4_193_280, 0, 1024, 1)),
];

/// The tile of each place of a map of 5 rows and 7 columns in tiles of 2 by 3.
static TILES_OF_PLACES: [u32; 35] = [
    0, 0, 0, 1, 1, 1, 2, //
    0, 0, 0, 1, 1, 1, 2, //
    3, 3, 3, 4, 4, 4, 5, //
    3, 3, 3, 4, 4, 4, 5, //
    6, 6, 6, 7, 7, 7, 8,
];

/// A tile's rectangle, grown by so many cells.
static HALOS: [(Sides, u32, u32, Four); 12] = [
    ((5, 7, 2, 3), 4, 0, (2, 3, 2, 3)),
    ((5, 7, 2, 3), 4, 1, (1, 2, 4, 5)),
    ((5, 7, 2, 3), 4, 2, (0, 1, 5, 6)),
    ((5, 7, 2, 3), 0, 1, (0, 0, 3, 4)),
    ((5, 7, 2, 3), 8, 1, (3, 5, 2, 2)),
    ((5, 7, 2, 3), 8, 15, (0, 0, 5, 7)),
    ((2048, 2048, 64, 64), 0, 15, (0, 0, 79, 79)),
    ((2048, 2048, 64, 64), 33, 15, (49, 49, 94, 94)),
    ((2048, 2048, 64, 64), 1023, 15, (1969, 1969, 79, 79)),
    ((1, 9, 1, 3), 1, 2, (0, 1, 1, 7)),
    ((1, 1, 1, 1), 0, 15, (0, 0, 1, 1)),
    (
        (2048, 2048, 64, 64),
        1023,
        4_294_967_295,
        (0, 0, 2048, 2048),
    ),
];

/// The tiles that a rectangle of a map of 5 rows and 7 columns in tiles of 2 by 3 meets.
static MET: [(Four, &[u32]); 6] = [
    ((0, 0, 1, 1), &[0]),
    ((1, 2, 2, 2), &[0, 1, 3, 4]),
    ((2, 3, 2, 3), &[4]),
    ((4, 6, 1, 1), &[8]),
    ((0, 2, 5, 2), &[0, 1, 3, 4, 6, 7]),
    ((0, 0, 5, 7), &[0, 1, 2, 3, 4, 5, 6, 7, 8]),
];

/// The cells in a rectangle of a map of 5 rows and 7 columns whose cells count from 0, row by row.
static CUTS: [(Four, &[i64]); 7] = [
    ((0, 0, 1, 1), &[0]),
    ((4, 6, 1, 1), &[34]),
    ((1, 2, 3, 2), &[9, 10, 16, 17, 23, 24]),
    ((3, 0, 1, 7), &[21, 22, 23, 24, 25, 26, 27]),
    ((0, 6, 5, 1), &[6, 13, 20, 27, 34]),
    ((2, 4, 0, 2), &[]),
    ((5, 7, 0, 0), &[]),
];

/// The same map with a tile's cells taken away.
static PASTED: [(u32, &[i64]); 3] = [
    (
        4,
        &[
            0, 1, 2, 3, 4, 5, 6, //
            7, 8, 9, 10, 11, 12, 13, //
            14, 15, 16, -1, -2, -3, 20, //
            21, 22, 23, -4, -5, -6, 27, //
            28, 29, 30, 31, 32, 33, 34,
        ],
    ),
    (
        2,
        &[
            0, 1, 2, 3, 4, 5, -1, //
            7, 8, 9, 10, 11, 12, -2, //
            14, 15, 16, 17, 18, 19, 20, //
            21, 22, 23, 24, 25, 26, 27, //
            28, 29, 30, 31, 32, 33, 34,
        ],
    ),
    (
        7,
        &[
            0, 1, 2, 3, 4, 5, 6, //
            7, 8, 9, 10, 11, 12, 13, //
            14, 15, 16, 17, 18, 19, 20, //
            21, 22, 23, 24, 25, 26, 27, //
            28, 29, 30, -1, -2, -3, 34,
        ],
    ),
];

/// The tiles of a map, each with its cells.
#[derive(Drop)]
struct Tiled {
    tiling: Tiling,
    tiles: Vec<Cells>,
    ghost all: { length tiles.items ≡ tile_count tiling },
    ghost whole: { (tile : ℕ) → tile < tile_count tiling → length (get_or tiles.items tile []) ≡ cell_count (rect_of tiling tile) },
}

impl TileSource for Tiled {
    ghost tiles = { λ s tile. get_or s.tiles.items tile [] };

    ghost has = { λ s tile. tile < length s.tiles.items };

    fn tile(&self, tile: u32) -> &[Cell] {
        self.tiles[tile as usize].as_slice()
    }
}

pub(crate) fn tiling((rows, cols, tile_rows, tile_cols): Sides) -> Option<Tiling> {
    let are_sides = 0 < rows
        && 0 < cols
        && rows as u64 * cols as u64 <= 4_194_304
        && 0 < tile_rows
        && tile_rows <= 4096
        && 0 < tile_cols
        && tile_cols <= 4096;
    if are_sides {
        Some(Tiling::new(rows, cols, tile_rows, tile_cols))
    } else {
        None
    }
}

fn rect((top, left, rows, cols): Four) -> Rect {
    Rect {
        top,
        left,
        rows,
        cols,
    }
}

fn count(sides: Sides) -> Option<u32> {
    Some(tiling(sides)?.count())
}

fn rect_of_tile(sides: Sides, tile: u32) -> Option<Rect> {
    let tiling = tiling(sides)?;
    if tile < tiling.count() {
        Some(tiling.rect(tile))
    } else {
        None
    }
}

fn halo(sides: Sides, tile: u32, k: u32) -> Option<Rect> {
    let tiling = tiling(sides)?;
    if tile < tiling.count() {
        Some(tiling.halo(tile, k))
    } else {
        None
    }
}

fn tile_of(sides: Sides, place: u32) -> Option<u32> {
    let tiling = tiling(sides)?;
    if (place as u64) < tiling.rows as u64 * tiling.cols as u64 {
        Some(tiling.tile_of(place))
    } else {
        None
    }
}

#[test]
fn counts_tiles(rt: HostRuntime) {
    for (sides, want) in COUNTS.iter() {
        assert_eq!(rt; count(*sides), Some(*want), "{sides:?}");
    }
}

#[test]
fn tiles_are_rectangles(rt: HostRuntime) {
    for (sides, tile, want) in RECTS.iter() {
        assert_eq!(rt;
            rect_of_tile(*sides, *tile),
            Some(rect(*want)),
            "{sides:?} {tile}"
        );
    }
}

#[test]
fn places_lie_in_tiles(rt: HostRuntime) {
    for (place, want) in TILES_OF_PLACES.iter().enumerate() {
        assert_eq!(rt; tile_of((5, 7, 2, 3), place as u32), Some(*want), "{place}");
    }
    assert_eq!(rt; tile_of((2048, 2048, 64, 64), 4_194_303), Some(1023));
    assert_eq!(rt; tile_of((1, 1, 4096, 4096), 0), Some(0));
}

#[test]
fn halos_end_at_the_border(rt: HostRuntime) {
    for (sides, tile, k, want) in HALOS.iter() {
        assert_eq!(rt;
            halo(*sides, *tile, *k),
            Some(rect(*want)),
            "{sides:?} {tile} {k}"
        );
    }
}

/// The map whose cells count from 0, row by row, and its tiling.
#[derive(Drop)]
struct NumberedMap {
    tiling: Tiling,
    cells: Vec<Cell>,
    ghost full: { length cells.items ≡ tiling.rows * tiling.cols },
}

// The tiling of a map of 5 rows and 7 columns into tiles of 2 by 3.
fn five_by_seven() -> Tiling
    ensures { (result.rows ≡ 5) × (result.cols ≡ 7) }
{
    Tiling::new(5, 7, 2, 3)
}

fn numbered_map(alloc: Global) -> Result<NumberedMap, AllocError> {
    let tiling = five_by_seven();
    let mut cells = vec![in alloc; Mv; 35]?;
    for place in 0..cells.len() {
        cells[place] = Val(place as i64);
    }
    Ok(NumberedMap { tiling, cells })
}

pub(crate) fn is_in_map(tiling: &Tiling, rect: Rect) -> bool
    ensures { IsTrue result ↔ IsInMap tiling.now.rows tiling.now.cols rect }
{
    rect.top as u64 + rect.rows as u64 <= tiling.rows as u64
        && rect.left as u64 + rect.cols as u64 <= tiling.cols as u64
}

fn cut(alloc: Global, map: &NumberedMap, rect: Rect) -> Result<Cells, Fail> {
    if is_in_map(&map.tiling, rect) {
        let cells = map.tiling.cut(alloc, map.cells.as_slice(), rect)?;
        Ok(Cells::from_vec(cells))
    } else {
        Err("the rectangle leaves the map")?
    }
}

fn tiles_met(alloc: Global, tiling: &Tiling, rect: Rect) -> Result<Vec<u32>, Fail> {
    if 0 < rect.rows && 0 < rect.cols && is_in_map(tiling, rect) {
        Ok(tiling.tiles(alloc, rect)?)
    } else {
        Err("the rectangle leaves the map, or has no cells")?
    }
}

// All tiles of a map, cut from it.
fn all_tiles(alloc: Global, map: &NumberedMap) -> Result<Tiled, AllocError> {
    let tiling = map.tiling;
    let mut tiles = Vec::new(alloc);
    for tile in 0..tiling.count() {
        let cells = tiling.cut(alloc, map.cells.as_slice(), tiling.rect(tile))?;
        tiles.push(Cells::from_vec(cells))?;
    }
    Ok(Tiled { tiling, tiles })
}

fn gather(alloc: Global, source: &Tiled, rect: Rect) -> Result<Cells, Fail> {
    if is_in_map(&source.tiling, rect) {
        let cells = source.tiling.gather(alloc, source, rect)?;
        Ok(Cells::from_vec(cells))
    } else {
        Err("the rectangle leaves the map")?
    }
}

pub(crate) fn paste(
    tiling: &Tiling,
    into: &mut [Cell],
    tile: u32,
    part: &[Cell],
) -> Result<(), Fail> {
    if tile >= tiling.count() || into.len() != tiling.rows as usize * tiling.cols as usize {
        Err("there is no such tile, or the map has another size")?
    }
    let rect = tiling.rect(tile);
    if part.len() != rect.rows as usize * rect.cols as usize {
        Err("the tile has another number of cells")?
    }
    tiling.paste(into, tile, part);
    Ok(())
}

fn has_values(cells: &[Cell], values: &[i64]) -> bool {
    cells.len() == values.len()
        && cells
            .iter()
            .zip(values)
            .all(|(cell, value)| *cell == Val(*value))
}

#[test]
fn rectangles_meet_tiles(rt: HostRuntime) -> Result<(), Fail> {
    for (four, want) in MET.iter() {
        let tiles = tiles_met(rt.alloc(), &five_by_seven(), rect(*four))?;
        assert_eq!(rt; tiles.as_slice(), *want, "{four:?}");
    }
    Ok(())
}

#[test]
fn cuts_go_row_by_row(rt: HostRuntime) -> Result<(), Fail> {
    let map = numbered_map(rt.alloc())?;
    for (four, want) in CUTS.iter() {
        let cells = cut(rt.alloc(), &map, rect(*four))?;
        assert!(rt; has_values(cells.as_slice(), want), "{four:?}: {cells:?}");
    }
    Ok(())
}

#[test]
fn tiles_are_gathered(rt: HostRuntime) -> Result<(), Fail> {
    let tiles = all_tiles(rt.alloc(), &numbered_map(rt.alloc())?)?;
    for (four, want) in CUTS.iter() {
        let cells = gather(rt.alloc(), &tiles, rect(*four))?;
        assert!(rt; has_values(cells.as_slice(), want), "{four:?}: {cells:?}");
    }
    Ok(())
}

#[test]
fn tiles_are_pasted(rt: HostRuntime) -> Result<(), Fail> {
    let part = [Val(-1), Val(-2), Val(-3), Val(-4), Val(-5), Val(-6)];
    for (tile, want) in PASTED {
        let mut map = numbered_map(rt.alloc())?.cells;
        let size = want.iter().filter(|value| **value < 0).count();
        if let Some((front, _)) = part.split_at_checked(size) {
            paste(&five_by_seven(), map.as_mut_slice(), tile, front)?;
        }
        assert!(rt; has_values(map.as_slice(), want), "{tile}: {map:?}");
    }
    Ok(())
}

// The map that these tiles make, pasted from the last to the first.
fn pasted(alloc: Global, source: &Tiled) -> Result<Cells, Fail> {
    let mut cells = vec![in alloc; Mv; 35]?;
    for (tile, part) in source.tiles.iter().enumerate().rev() {
        let tile = u32::try_from(tile)?;
        paste(&source.tiling, cells.as_mut_slice(), tile, part.as_slice())?;
    }
    Ok(Cells::from_vec(cells))
}

#[test]
fn pasted_tiles_make_the_map(rt: HostRuntime) -> Result<(), Fail> {
    let map = numbered_map(rt.alloc())?;
    let cells = pasted(rt.alloc(), &all_tiles(rt.alloc(), &map)?)?;
    assert_eq!(rt; cells.as_slice(), map.cells.as_slice());
    Ok(())
}

#[test]
fn operands_have_a_cell_at_each_place(rt: HostRuntime) {
    assert_eq!(rt; Arg::Unused.at(3), Mv);
    assert_eq!(rt; Arg::One(Val(5)).at(3), Val(5));
    assert_eq!(rt; Arg::Cells(&[Val(5), Mv, Val(7)]).at(2), Val(7));
}
