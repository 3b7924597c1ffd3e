//! The cells of operands at a tile's places.

ghost use Rattle.std.specs.Prelude.{◌≡◌, ◌<◌, ◌≤◌, ℕ, length, map, IfOk};
ghost use Rattle.std.specs.Arc.{arc_value};
ghost use Rattle.tile_map.specs.Args.{SpansPlaces, arg_cell};
ghost use Rattle.tile_map.specs.Tiles.{tile_count};
ghost use Rattle.span_operands.specs.Made.{IsKnown, span_start};
ghost use Rattle.tile_tasks.specs.inside.Tiles.{tile_handed};
ghost use Rattle.tile_tasks.specs.inside.Own.{IsOwnOf, IsShownFor, own_cell};
ghost use Rattle.tile_tasks.specs.declared.own.Own.TheVariants.{Handed};

use cell_values::{Cell, Cells};
use map_meaning::{Known, Operand, Program, Span};
use span_operands::{is_made, known_arg};
use std::alloc::{AllocError, Global};
use std::sync::Arc;
use task_tiles::Tile;
use tile_map::{Arg, Tiling};

/// The cells of an operand at a tile's places.
#[derive(Drop)]
pub enum Own {
    /// There is no such operand.
    Unused,
    /// One cell for all places.
    One(Cell),
    /// They were cut from a whole map.
    Cut(Cells),
    /// A tile that is handed in has them.
    Handed,
}

/// The cells of an operation's operands at a tile's places.
#[derive(Drop)]
pub struct Operands {
    pub a: Own,
    pub b: Own,
    pub c: Own,
    pub d: Own,
}

/// The cells of an operand at a tile's places, cut from its map where the span does not make it.
pub fn own_cells(
    alloc: Global,
    operand: Operand,
    program: &Program,
    span: Span,
    step: u32,
    known: &Known,
    tiling: &Tiling,
    tile: u32,
) -> Result<Own, AllocError>
    requires known { IsKnown program.now span known.now step operand }
    requires order { span_start span ≤ step }
    requires rows { tiling.now.rows ≡ known.now.rows }
    requires cols { tiling.now.cols ≡ known.now.cols }
    requires tile { tile < tile_count tiling.now }
    ensures { IfOk result (IsOwnOf program.now span known.now tiling.now step tile operand) }
{
    if is_made(span, step, operand) {
        return Ok(Own::Handed);
    }
    match known_arg(operand, program, span, step, known) {
        Arg::Unused => Ok(Own::Unused),
        Arg::One(cell) => Ok(Own::One(cell)),
        Arg::Cells(cells) => Ok(Own::Cut(Cells::from_vec(tiling.cut(
            alloc,
            cells,
            tiling.rect(tile),
        )?))),
    }
}

// The cells of a tile that is handed in.
fn handed<'a>(tiles: &'a [Arc<Tile>], index: usize, _size: usize) -> Arg<'a>
    requires { IsShownFor Handed (map arc_value tiles.now) index _size }
    ensures cell { arg_cell result ≡ own_cell Handed (tile_handed (map arc_value tiles.now) index) }
    ensures spans { SpansPlaces result _size }
{
    match &*tiles[index] {
        Tile::Part(part) => Arg::Cells(part.cells.as_slice()),
        Tile::Partial(_) => unreachable!(),
    }
}

/// The cells of an operand over so many places; those of one that is handed in stand at an index.
pub fn shown<'a>(own: &'a Own, tiles: &'a [Arc<Tile>], index: usize, _size: usize) -> Arg<'a>
    requires { IsShownFor own.now (map arc_value tiles.now) index _size }
    ensures cell { arg_cell result ≡ own_cell own.now (tile_handed (map arc_value tiles.now) index) }
    ensures spans { SpansPlaces result _size }
{
    match own {
        Own::Unused => Arg::Unused,
        Own::One(cell) => Arg::One(*cell),
        Own::Cut(cells) => Arg::Cells(cells.as_slice()),
        Own::Handed => handed(tiles, index, _size),
    }
}
