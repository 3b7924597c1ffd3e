//! Tiles of a map: cut, gathered with a halo, and pasted.

ghost use Rattle.std.specs.Prelude.{◌≡◌, ◌<◌, ◌≤◌, ◌*◌, ℕ, [], length, get_or};
ghost use Rattle.tile_map.specs.Rects.{cell_count};
ghost use Rattle.tile_map.specs.Tiles.{rect_of, tile_count};

use crate::best::Best;
use cell_values::Cell::Val;
use cell_values::{Cell, Cells};
use std::alloc::{AllocError, Global};
use std::rt::Clock;
use std::test::Fail;
use std::time::Instant;
use tile_map::{TileSource, Tiling};

/// How many rounds are timed.
const ROUNDS: u32 = 20;

#[derive(Drop)]
struct Tiled {
    tiling: Tiling,
    tiles: Vec<Cells>,
    ghost all: { length tiles.items ≡ tile_count tiling },
    ghost whole: { (tile : ℕ) → tile < tile_count tiling → length (get_or tiles.items tile []) ≡ cell_count (rect_of tiling tile) },
}

impl TileSource for Tiled {
    ghost tiles = { λ s tile. get_or s.tiles.items tile [] };

    ghost has = { λ s tile. tile < length s.tiles.items };

    fn tile(&self, tile: u32) -> &[Cell] {
        self.tiles[tile as usize].as_slice()
    }
}

#[derive(Drop)]
struct WholeMap {
    tiling: Tiling,
    cells: Vec<Cell>,
    ghost full: { length cells.items ≡ tiling.rows * tiling.cols },
}

fn all_tiles(alloc: Global, map: &WholeMap) -> Result<Tiled, AllocError> {
    let tiling = map.tiling;
    let mut tiles = Vec::new(alloc);
    for tile in 0..tiling.count() {
        let cells = tiling.cut(alloc, map.cells.as_slice(), tiling.rect(tile))?;
        tiles.push(Cells::from_vec(cells))?;
    }
    Ok(Tiled { tiling, tiles })
}

fn gather_all(alloc: Global, tiles: &Tiled, k: u32) -> Result<usize, AllocError> {
    let mut sum = 0usize;
    for tile in 0..tiles.tiling.count() {
        let cells = tiles
            .tiling
            .gather(alloc, tiles, tiles.tiling.halo(tile, k))?;
        sum = sum.wrapping_add(cells.len());
    }
    Ok(sum)
}

fn paste_all(tiles: &Tiled, into: &mut [Cell]) -> usize {
    let tiling = tiles.tiling;
    let mut done = 0usize;
    if into.len() == tiling.rows as usize * tiling.cols as usize {
        for tile in 0..tiling.count() {
            let part = tiles.tiles[tile as usize].as_slice();
            tiling.paste(into, tile, part);
            done = done.wrapping_add(part.len());
        }
    }
    done
}

fn filled_map(alloc: Global, tiling: Tiling) -> Result<WholeMap, AllocError> {
    let cells = vec![in alloc; Val(7); tiling.rows as usize * tiling.cols as usize]?;
    Ok(WholeMap { tiling, cells })
}

/// The best round of each call, and how many cells all rounds gave.
#[derive(Clone, Copy)]
struct Rounds {
    cut: Best,
    near: Best,
    wide: Best,
    paste: Best,
    sum: usize,
}

// A round of cutting: the tiles.
fn cut_round<R: Clock + AllocGlobal>(
    rt: &R,
    best: &mut Best,
    map: &WholeMap,
) -> Result<Tiled, Fail> {
    let start = Instant::now(rt)?;
    let tiles = all_tiles(rt.alloc(), map)?;
    best.note(rt, start)?;
    Ok(tiles)
}

// A round of gathering: how many cells it gives.
fn gather_round<R: Clock + AllocGlobal>(
    rt: &R,
    best: &mut Best,
    tiles: &Tiled,
    k: u32,
) -> Result<usize, Fail> {
    let start = Instant::now(rt)?;
    let count = gather_all(rt.alloc(), tiles, k)?;
    best.note(rt, start)?;
    Ok(count)
}

// A round of pasting: how many cells it puts.
fn paste_round<R: Clock>(
    rt: &R,
    best: &mut Best,
    tiles: &Tiled,
    into: &mut [Cell],
) -> Result<usize, Fail> {
    let start = Instant::now(rt)?;
    let count = paste_all(tiles, into);
    best.note(rt, start)?;
    Ok(count)
}

// A round of each call.
fn time_round<R: Clock + AllocGlobal>(
    rt: &R,
    rounds: &mut Rounds,
    map: &WholeMap,
    into: &mut [Cell],
) -> Result<(), Fail> {
    let tiles = cut_round(rt, &mut rounds.cut, map)?;
    let near = gather_round(rt, &mut rounds.near, &tiles, 1)?;
    let wide = gather_round(rt, &mut rounds.wide, &tiles, 15)?;
    let pasted = paste_round(rt, &mut rounds.paste, &tiles, into)?;
    let count = near.wrapping_add(wide).wrapping_add(pasted);
    rounds.sum = rounds.sum.wrapping_add(count);
    Ok(())
}

// Times rounds of all calls.
fn time_rounds<R: Clock + AllocGlobal>(
    rt: &R,
    map: &WholeMap,
    into: &mut [Cell],
) -> Result<Rounds, Fail> {
    let mut rounds = Rounds {
        cut: Best::none(),
        near: Best::none(),
        wide: Best::none(),
        paste: Best::none(),
        sum: 0,
    };
    for _ in 0..ROUNDS {
        time_round(rt, &mut rounds, map, into)?;
    }
    Ok(rounds)
}

// Prints the best rounds.
fn print_rounds<R: Print>(rt: &R, rounds: &Rounds) -> Result<(), Fail> {
    rounds.cut.print(rt, "cut")?;
    rounds.near.print(rt, "near")?;
    rounds.wide.print(rt, "wide")?;
    rounds.paste.print(rt, "paste")?;
    let sum = rounds.sum;
    println!(rt; "sum {sum}")?;
    Ok(())
}

/// Times tiles of 64 by 64 cells over a map of 2,048 by 2,048, and prints the best round of each call in nanoseconds.
pub fn time_tiles<R: Clock + Print + AllocGlobal>(rt: &R) -> Result<(), Fail> {
    let tiling = Tiling::new(2048, 2048, 64, 64);
    let map = filled_map(rt.alloc(), tiling)?;
    let mut into = filled_map(rt.alloc(), tiling)?.cells;
    let rounds = time_rounds(rt, &map, into.as_mut_slice())?;
    print_rounds(rt, &rounds)
}
