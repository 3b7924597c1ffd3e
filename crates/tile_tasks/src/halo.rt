//! Tiles of operations that look at what is near.

ghost use Rattle.std.specs.Prelude.{◌≡◌, ◌<◌, ◌≤◌, ◌+◌, ◌-◌, ◌*◌, ◌/◌, ◌%◌, ℕ, true, length, map, IfOk};
ghost use Rattle.std.specs.Arc.{arc_value};
ghost use Rattle.tile_map.specs.Rects.{HasCells, HoldsPlace, IsInMap, cell_count, grown, number_in};
ghost use Rattle.tile_map.specs.Tiles.{across, down, rect_of, tile_count};
ghost use Rattle.tile_map.specs.inside.Met.{tiles_met, tiles_of};
ghost use Rattle.map_meaning.specs.Evaluation.{Done, operand_cell};
ghost use Rattle.map_meaning.specs.Rules.{reach_of};
ghost use Rattle.map_meaning.specs.Spans.{scene_of};
ghost use Rattle.map_meaning.specs.Table.{is_window_length};
ghost use Rattle.span_operands.specs.Made.{AgreesWith, IsKnown, span_start};
ghost use Rattle.span_operands.specs.declared.scope.Scope.TheVariants.{Focal, Near};
ghost use Rattle.span_operands.specs.inside.Held.{HasDrainMap};
ghost use Rattle.span_operands.specs.inside.Scopes.{IsScopeOf};
ghost use Rattle.tile_tasks.specs.inside.Tasks.{AreHandedIn, IsTaskAt, ReadsAround, ReadsScalars, SomeDone};
ghost use Rattle.task_tiles.specs.TaskTiles.{tile_part};
ghost use Rattle.tile_tasks.specs.inside.Tiles.{SomeMap, StandFrom, cells_in};
ghost use Rattle.map_meaning.specs.Maps.{CellAt};
ghost use Rattle.tile_map.specs.Args.{SpansPlaces, arg_cell};

use crate::handed::Handed;
use cell_values::Cell;
use drain_meaning::NearOp;
use drain_ops::near_part;
use map_meaning::{Arg, Known, Operand, Operation, Part, Program, Span};
use region_meaning::WindowOp;
use span_operands::{drain_map, is_made, known_arg, made};
use std::alloc::{AllocError, Global};
use std::sync::Arc;
use task_tiles::Tile;
use tile_map::{Rect, Tiling};
use window_ops::window_part;

// How many cells a rectangle has.
fn rect_size(tiling: &Tiling, rect: Rect) -> usize
    requires { IsInMap tiling.now.rows tiling.now.cols rect }
    ensures value { result ≡ cell_count rect }
    ensures few { result ≤ tiling.now.rows * tiling.now.cols }
{
    let _map = tiling.rows as usize * tiling.cols as usize;
    rect.rows as usize * rect.cols as usize
}

// The cells of a rectangle, from the tiles that it meets.
fn handed_cells(
    alloc: Global,
    tiling: &Tiling,
    rect: Rect,
    tiles: &[Arc<Tile>],
) -> Result<Vec<Cell>, AllocError>
    requires rect { IsInMap tiling.now.rows tiling.now.cols rect }
    requires some { HasCells rect }
    requires handed { SomeMap (λ f. StandFrom tiling.now f (tiles_of tiling.now rect) 0 (map arc_value tiles.now)) }
    ensures size { IfOk result (λ got. length got.items ≡ cell_count rect) }
    ensures cells { IfOk result (λ got. (f : CellAt) → StandFrom tiling.now f (tiles_of tiling.now rect) 0 (map arc_value tiles.now) → got.items ≡ cells_in tiling.now.cols rect f) }
{
    let handed = Handed::around(tiling, rect, tiles);
    let got = tiling.gather(alloc, &handed, rect)?;
    Ok(got)
}

// The cells of a rectangle, from a whole map.
fn known_cells(
    alloc: Global,
    whole: Arg<'_>,
    tiling: &Tiling,
    rect: Rect,
) -> Result<Vec<Cell>, AllocError>
    requires rect { IsInMap tiling.now.rows tiling.now.cols rect }
    requires spans { SpansPlaces whole (tiling.now.rows * tiling.now.cols) }
    ensures size { IfOk result (λ got. length got.items ≡ cell_count rect) }
    ensures cells { IfOk result (λ got. got.items ≡ cells_in tiling.now.cols rect (arg_cell whole.entry)) }
{
    let size = rect_size(tiling, rect);
    match whole {
        Arg::Cells(cells) => {
            let cut = tiling.cut(alloc, cells, rect)?;
            Ok(cut)
        }
        Arg::One(cell) => {
            let one = made(alloc, Arg::One(cell), size)?;
            Ok(one)
        }
        Arg::Unused => {
            let none = made(alloc, Arg::Unused, size)?;
            Ok(none)
        }
    }
}

// The cells of an operand in a rectangle, from its map where it is known, or from the tiles that the rectangle meets.
fn halo_cells(
    alloc: Global,
    operand: Operand,
    program: &Program,
    span: Span,
    step: u32,
    known: &Known,
    tiling: &Tiling,
    rect: Rect,
    tiles: &[Arc<Tile>],
) -> Result<Vec<Cell>, AllocError>
    requires known { IsKnown program.now span known.now step operand }
    requires order { span_start span ≤ step }
    requires rows { tiling.now.rows ≡ known.now.rows }
    requires cols { tiling.now.cols ≡ known.now.cols }
    requires rect { IsInMap tiling.now.rows tiling.now.cols rect }
    requires some { HasCells rect }
    requires reads { SomeDone (ReadsAround program.now span known.now tiling.now step (tiles_of tiling.now rect) operand (map arc_value tiles.now)) }
    ensures size { IfOk result (λ got. length got.items ≡ cell_count rect) }
    ensures cells { IfOk result (λ got. (done : Done) → ReadsAround program.now span known.now tiling.now step (tiles_of tiling.now rect) operand (map arc_value tiles.now) done → got.items ≡ cells_in tiling.now.cols rect (operand_cell (scene_of program.now.inputs known.now step) done operand)) }
{
    if is_made(span, step, operand) {
        let handed = handed_cells(alloc, tiling, rect, tiles)?;
        return Ok(handed);
    }
    let whole = known_arg(operand, program, span, step, known);
    let cells = known_cells(alloc, whole, tiling, rect)?;
    Ok(cells)
}

/// A tile of the map of an operation over windows, from the tiles of its operand that the tile's halo meets.
pub fn window_tile(
    alloc: Global,
    op: WindowOp,
    program: &Program,
    operation: Operation,
    span: Span,
    step: u32,
    known: &Known,
    tiling: &Tiling,
    tile: u32,
    tiles: &[Arc<Tile>],
) -> Result<Part, AllocError>
    requires scope { IsScopeOf (Focal op) operation.op }
    requires window { is_window_length operation.window ≡ true }
    requires task { IsTaskAt program.now span known.now tiling.now step tile operation }
    requires reads { SomeDone (ReadsAround program.now span known.now tiling.now step (tiles_of tiling.now (grown tiling.now.rows tiling.now.cols (reach_of operation.window) (rect_of tiling.now tile))) operation.a (map arc_value tiles.now)) }
    ensures { IfOk result (λ part. (done : Done) → ReadsAround program.now span known.now tiling.now step (tiles_of tiling.now (grown tiling.now.rows tiling.now.cols (reach_of operation.window) (rect_of tiling.now tile))) operation.a (map arc_value tiles.now) done → part ≡ tile_part program.now known.now step done operation (rect_of tiling.now tile)) }
{
    let k = (operation.window - 1) / 2;
    let around = tiling.halo(tile, k);
    let inner = tiling.rect(tile);
    let cells = halo_cells(
        alloc,
        operation.a,
        program,
        span,
        step,
        known,
        tiling,
        around,
        tiles,
    )?;
    let part = window_part(alloc, op, k, cells.as_slice(), around, inner)?;
    Ok(part)
}

/// A tile of the map of one step up or down stream, from the tiles of its operand that the tile's halo of one cell meets.
pub fn near_tile(
    alloc: Global,
    op: NearOp,
    program: &Program,
    operation: Operation,
    span: Span,
    step: u32,
    known: &Known,
    tiling: &Tiling,
    tile: u32,
    tiles: &[Arc<Tile>],
) -> Result<Part, AllocError>
    requires scope { IsScopeOf (Near op) operation.op }
    requires drain { HasDrainMap known.now operation.drain }
    requires task { IsTaskAt program.now span known.now tiling.now step tile operation }
    requires reads { SomeDone (ReadsScalars program.now span known.now tiling.now step (tiles_of tiling.now (grown tiling.now.rows tiling.now.cols 1 (rect_of tiling.now tile))) operation.a (map arc_value tiles.now)) }
    ensures { IfOk result (λ part. (done : Done) → ReadsScalars program.now span known.now tiling.now step (tiles_of tiling.now (grown tiling.now.rows tiling.now.cols 1 (rect_of tiling.now tile))) operation.a (map arc_value tiles.now) done → part ≡ tile_part program.now known.now step done operation (rect_of tiling.now tile)) }
{
    let around = tiling.halo(tile, 1);
    let inner = tiling.rect(tile);
    let drain = drain_map(known, operation.drain);
    let codes = tiling.cut(alloc, drain.cells(), around)?;
    let cells = halo_cells(
        alloc,
        operation.a,
        program,
        span,
        step,
        known,
        tiling,
        around,
        tiles,
    )?;
    let part = near_part(alloc, op, codes.as_slice(), cells.as_slice(), around, inner)?;
    Ok(part)
}
