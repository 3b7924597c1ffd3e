//! Tiles of operations that look at their operands' cells at the place alone.

ghost use Rattle.std.specs.Prelude.{◌≡◌, ◌≤◌, ◌<◌, [], ◌∷◌, map, IfOk};
ghost use Rattle.std.specs.Arc.{arc_value};
ghost use Rattle.text_base.specs.Limits.{most_cells};
ghost use Rattle.tile_map.specs.Rects.{cell_count};
ghost use Rattle.tile_map.specs.Tiles.{rect_of, tile_count};
ghost use Rattle.map_meaning.specs.Evaluation.{Done};
ghost use Rattle.span_operands.specs.declared.scope.Scope.TheVariants.{Local};
ghost use Rattle.span_operands.specs.inside.Scopes.{IsScopeOf};
ghost use Rattle.cell_ops.specs.Work.{IsWork, work_outcome};
ghost use Rattle.tile_map.specs.Parts.{part_of};
ghost use Rattle.tile_tasks.specs.inside.Own.{AreOwnOf, AreShown, cells_a, cells_b, cells_c, cells_d};
ghost use Rattle.tile_tasks.specs.inside.Tasks.{IsTaskAt, ReadsEach, SomeDone, many_for};
ghost use Rattle.task_tiles.specs.TaskTiles.{tile_part};

use crate::own::{Operands, own_cells, shown};
use cell_ops::{CellWork, cell_part};
use map_meaning::{Known, Operand, Operation, Part, Program, Span};
use span_operands::{is_made, work};
use std::alloc::{AllocError, Global};
use std::sync::Arc;
use task_tiles::Tile;
use tile_map::Tiling;

/// How many cells a tile has.
#[tactic(auto, using(crate::proofs::OwnLemmas::tile_few))]
pub fn tile_size(tiling: &Tiling, tile: u32) -> usize
    requires { tile < tile_count tiling.now }
    ensures value { result ≡ cell_count (rect_of tiling.now tile) }
    ensures few { result ≤ most_cells }
{
    let rect = tiling.rect(tile);
    rect.rows as usize * rect.cols as usize
}

// How many tiles are handed in for an operand, where one is for each that the span makes.
pub(crate) fn many(span: Span, step: u32, operand: Operand) -> usize
    ensures value { result ≡ many_for span step 1 operand }
    ensures few { result ≤ 1 }
{
    if is_made(span, step, operand) { 1 } else { 0 }
}

// The cells of an operation's operands at a tile's places.
fn own_operands(
    alloc: Global,
    program: &Program,
    operation: Operation,
    span: Span,
    step: u32,
    known: &Known,
    tiling: &Tiling,
    tile: u32,
) -> Result<Operands, AllocError>
    requires { IsTaskAt program.now span known.now tiling.now step tile operation }
    ensures { IfOk result (AreOwnOf program.now span known.now tiling.now step tile operation) }
{
    let a = own_cells(alloc, operation.a, program, span, step, known, tiling, tile)?;
    let b = own_cells(alloc, operation.b, program, span, step, known, tiling, tile)?;
    let c = own_cells(alloc, operation.c, program, span, step, known, tiling, tile)?;
    let d = own_cells(alloc, operation.d, program, span, step, known, tiling, tile)?;
    Ok(Operands { a, b, c, d })
}

// What a work gives of the cells of operands.
fn computed(
    alloc: Global,
    work: CellWork<'_>,
    size: usize,
    operation: Operation,
    span: Span,
    step: u32,
    operands: &Operands,
    tiles: &[Arc<Tile>],
) -> Result<Part, AllocError>
    requires work { IsWork work }
    requires few { size ≤ most_cells }
    requires shown { AreShown span step operation operands.now (map arc_value tiles.now) size }
    ensures { IfOk result (λ part. part ≡ part_of (λ i. work_outcome work.entry (cells_a operands.now (map arc_value tiles.now) i) (cells_b span step operation operands.now (map arc_value tiles.now) i) (cells_c span step operation operands.now (map arc_value tiles.now) i) (cells_d span step operation operands.now (map arc_value tiles.now) i)) size) }
{
    let at_b = many(span, step, operation.a);
    let at_c = at_b + many(span, step, operation.b);
    let at_d = at_c + many(span, step, operation.c);
    cell_part(
        alloc,
        work,
        size,
        shown(&operands.a, tiles, 0, size),
        shown(&operands.b, tiles, at_b, size),
        shown(&operands.c, tiles, at_c, size),
        shown(&operands.d, tiles, at_d, size),
    )
}

/// A tile of the map of a local operation, from the tiles of its operands.
pub fn local_tile(
    alloc: Global,
    program: &Program,
    operation: Operation,
    span: Span,
    step: u32,
    known: &Known,
    tiling: &Tiling,
    tile: u32,
    tiles: &[Arc<Tile>],
) -> Result<Part, AllocError>
    requires scope { IsScopeOf Local operation.op }
    requires task { IsTaskAt program.now span known.now tiling.now step tile operation }
    requires reads { SomeDone (ReadsEach program.now span known.now tiling.now step (tile ∷ []) operation (map arc_value tiles.now)) }
    ensures { IfOk result (λ part. (done : Done) → ReadsEach program.now span known.now tiling.now step (tile ∷ []) operation (map arc_value tiles.now) done → part ≡ tile_part program.now known.now step done operation (rect_of tiling.now tile)) }
{
    let operands = own_operands(alloc, program, operation, span, step, known, tiling, tile)?;
    let work = work(program, operation, step, known);
    let size = tile_size(tiling, tile);
    let part = computed(alloc, work, size, operation, span, step, &operands, tiles)?;
    Ok(part)
}
