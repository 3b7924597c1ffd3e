//! What tiles note of results that are out of range.

ghost use Rattle.std.specs.Prelude.{◌≡◌, ◌<◌, MatchBool};
ghost use Rattle.tile_map.specs.Rects.{cell_count, place_in};
ghost use Rattle.tile_map.specs.Tiles.{rect_of, tile_count};
ghost use Rattle.task_tiles.specs.TaskTiles.{IsPlanned, IsTaskTile, span_section};
ghost use Rattle.task_board.specs.inside.Noted.{IsBefore, IsEarlierOf, place_note, tile_note};

use map_meaning::{Known, Operation, OverAt, Program, Span};
use plan_graph::PlanGraph;
use task_tiles::Tile;
use tile_cuts::place;
use tile_map::Tiling;

// Whether the first note comes before the second, by step, statement, operation and place.
fn is_before(x: OverAt, y: OverAt) -> bool
    ensures { MatchBool result (IsBefore x y) (IsBefore x y → ⊥) }
{
    if x.step != y.step {
        return x.step < y.step;
    }
    if x.statement != y.statement {
        return x.statement < y.statement;
    }
    if x.operation != y.operation {
        return x.operation < y.operation;
    }
    if x.row != y.row {
        return x.row < y.row;
    }
    x.col < y.col
}

/// Of a note that was taken and another the earlier one.
pub fn earlier(over: Option<OverAt>, note: Option<OverAt>) -> Option<OverAt>
    ensures { IsEarlierOf over note result }
{
    match note {
        None => over,
        Some(note) => match over {
            None => Some(note),
            Some(at) => {
                if is_before(note, at) {
                    Some(note)
                } else {
                    Some(at)
                }
            }
        },
    }
}

// The operations of the section that a span is of.
fn section(program: &Program, span: Span) -> &[Operation]
    ensures { result.now ≡ span_section program.now span }
{
    match span {
        Span::Initial { .. } => program.initial.as_slice(),
        Span::Steps { .. } => program.dynamic.as_slice(),
    }
}

// The note of a tile's cell, which is told by its number in the tile.
fn cell_note(tiling: &Tiling, step: u32, operation: Operation, tile: u32, number: u32) -> OverAt
    requires tile { tile < tile_count tiling.now }
    requires number { number < cell_count (rect_of tiling.now tile) }
    ensures { result ≡ place_note tiling.now.cols step operation (place_in tiling.now.cols (rect_of tiling.now tile) number) }
{
    let place = place(tiling, tiling.rect(tile), number);
    OverAt {
        step,
        statement: operation.statement,
        operation: operation.number,
        row: place / tiling.cols + 1,
        col: place % tiling.cols + 1,
    }
}

/// What the tile of a task notes: the place of the map that it has first out of range.
pub fn noted(
    plan: &PlanGraph,
    program: &Program,
    _known: &Known,
    task: u32,
    tile: &Tile,
) -> Option<OverAt>
    requires planned { IsPlanned plan.now.plan plan.now.span program.now _known.now }
    requires task { task < plan.now.tasks }
    requires tile { IsTaskTile plan.now.plan plan.now.span program.now _known.now task tile.now }
    ensures { result ≡ tile_note plan.now program.now task tile.now }
{
    let _tasks = plan.tasks();
    match tile {
        Tile::Partial(_) => None,
        Tile::Part(part) => match part.over {
            None => None,
            Some(number) => {
                let at = plan.plan().task(task);
                let operation = section(program, plan.span())[at.operation as usize];
                Some(cell_note(plan.plan().tiling(), at.step, operation, at.tile, number))
            }
        },
    }
}
