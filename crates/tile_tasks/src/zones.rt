//! Tasks of operations over areas, and over the whole map.

ghost use Rattle.std.specs.Prelude.{◌≡◌, ◌<◌, ◌≤◌, [], ◌∷◌, ℕ, length, map, IfOk};
ghost use Rattle.std.specs.Arc.{arc_value};
ghost use Rattle.tile_map.specs.Tiles.{rect_of, tile_count};
ghost use Rattle.area_ops.specs.Partials.{StandsFor};
ghost use Rattle.map_meaning.specs.Evaluation.{Done, operand_cell};
ghost use Rattle.map_meaning.specs.Spans.{scene_of};
ghost use Rattle.span_operands.specs.Made.{IsKnown, span_start};
ghost use Rattle.span_operands.specs.inside.Scopes.{IsScopeOf};
ghost use Rattle.task_laws.specs.Zones.{tile_zones, zones_in};
ghost use Rattle.tile_tasks.specs.inside.Areas.{IsPartial, IsPartialOf, IsZone, ReadsTotal, ReadsZones, class_operand, value_operand, zone_op};
ghost use Rattle.tile_tasks.specs.inside.Tasks.{IsTaskAt, SomeDone};
ghost use Rattle.task_tiles.specs.TaskTiles.{classes_at, tile_part, values_at};
ghost use Rattle.tile_tasks.specs.inside.Tiles.{tile_handed};

use crate::areas::{tile_partial, tile_spread};
use crate::local::{many, tile_size};
use crate::own::{Own, own_cells, shown};
use area_ops::Partial;
use cell_values::{Cell, Kind};
use map_meaning::{Known, Operand, Operation, Part, Program, Span};
use region_meaning::AreaOp;
use span_operands::Scope;
use std::alloc::{AllocError, Global};
use std::sync::Arc;
use task_laws::areas_look_at_all_tiles;
use task_tiles::Tile;
use tile_map::Tiling;

/// What is done with the numbers of each class.
pub fn zone_op(scope: Scope) -> AreaOp
    ensures { result ≡ zone_op scope }
{
    match scope {
        Scope::Zonal(op) => op,
        Scope::Global(op) => op,
        _ => AreaOp::Area,
    }
}

/// The operand that has the values; 0 where the operation takes none.
pub fn value_operand(scope: Scope, operation: Operation) -> Operand
    ensures { result ≡ value_operand scope operation }
{
    match scope {
        Scope::Zonal(_) => operation.a,
        Scope::Global(_) => operation.a,
        _ => Operand::Literal(Kind::Scalar, Cell::Val(0)),
    }
}

/// The operand that has the classes; 1 where the whole map is one area.
pub fn class_operand(scope: Scope, operation: Operation) -> Operand
    ensures { result ≡ class_operand scope operation }
{
    match scope {
        Scope::Zonal(_) => operation.b,
        Scope::ZoneSize => operation.a,
        _ => Operand::Literal(Kind::Nominal, Cell::Val(1)),
    }
}

// The partial of a tile, by the operands that have its values and its classes.
fn partial_by(
    alloc: Global,
    op: AreaOp,
    values: Operand,
    classes: Operand,
    program: &Program,
    span: Span,
    step: u32,
    known: &Known,
    tiling: &Tiling,
    tile: u32,
    tiles: &[Arc<Tile>],
) -> Result<Partial, AllocError>
    requires rows { tiling.now.rows ≡ known.now.rows }
    requires cols { tiling.now.cols ≡ known.now.cols }
    requires tile { tile < tile_count tiling.now }
    requires order { span_start span ≤ step }
    requires values { IsKnown program.now span known.now step values }
    requires classes { IsKnown program.now span known.now step classes }
    requires reads { SomeDone (ReadsZones program.now span known.now tiling.now step tile values classes (map arc_value tiles.now)) }
    ensures op { IfOk result (λ partial. partial.op ≡ op) }
    ensures stands { IfOk result (λ partial. (done : Done) → ReadsZones program.now span known.now tiling.now step tile values classes (map arc_value tiles.now) done → StandsFor partial (zones_in tiling.now.cols (rect_of tiling.now tile) (operand_cell (scene_of program.now.inputs known.now step) done values) (operand_cell (scene_of program.now.inputs known.now step) done classes))) }
{
    let own_values = own_cells(alloc, values, program, span, step, known, tiling, tile)?;
    let own_classes = own_cells(alloc, classes, program, span, step, known, tiling, tile)?;
    let size = tile_size(tiling, tile);
    let index = many(span, step, values);
    let value_cells = shown(&own_values, tiles, 0, size);
    let class_cells = shown(&own_classes, tiles, index, size);
    let partial = tile_partial(alloc, op, value_cells, class_cells, tiling, tile)?;
    Ok(partial)
}

/// The partial of a tile of an operation over areas or over the whole map, from the tiles of its operands.
pub fn partial_task(
    alloc: Global,
    scope: Scope,
    program: &Program,
    operation: Operation,
    span: Span,
    step: u32,
    known: &Known,
    tiling: &Tiling,
    tile: u32,
    tiles: &[Arc<Tile>],
) -> Result<Partial, AllocError>
    requires zone { IsZone scope }
    requires scope { IsScopeOf scope operation.op }
    requires task { IsTaskAt program.now span known.now tiling.now step tile operation }
    requires reads { SomeDone (ReadsZones program.now span known.now tiling.now step tile (value_operand scope operation) (class_operand scope operation) (map arc_value tiles.now)) }
    ensures op { IfOk result (λ partial. partial.op ≡ zone_op scope) }
    ensures stands { IfOk result (λ partial. (done : Done) → ReadsZones program.now span known.now tiling.now step tile (value_operand scope operation) (class_operand scope operation) (map arc_value tiles.now) done → StandsFor partial (zones_in tiling.now.cols (rect_of tiling.now tile) (values_at program.now known.now step done operation) (classes_at program.now known.now step done operation))) }
{
    let op = zone_op(scope);
    let values = value_operand(scope, operation);
    let classes = class_operand(scope, operation);
    let partial = partial_by(
        alloc, op, values, classes, program, span, step, known, tiling, tile, tiles,
    )?;
    Ok(partial)
}

// The partial that is handed in first.
fn handed_total(tiles: &[Arc<Tile>]) -> &Partial
    requires some { 0 < length tiles.now }
    requires partial { IsPartial (tile_handed (map arc_value tiles.now) 0) }
    ensures { IsPartialOf (tile_handed (map arc_value tiles.now) 0) result.now }
{
    match &*tiles[0] {
        Tile::Partial(partial) => partial,
        Tile::Part(_) => unreachable!(),
    }
}

/// A tile of the map of an operation over areas or over the whole map, from the partial of the whole map and the tile of its
/// classes.
pub fn spread_task(
    alloc: Global,
    scope: Scope,
    program: &Program,
    operation: Operation,
    span: Span,
    step: u32,
    known: &Known,
    tiling: &Tiling,
    tile: u32,
    tiles: &[Arc<Tile>],
) -> Result<Part, AllocError>
    requires zone { IsZone scope }
    requires scope { IsScopeOf scope operation.op }
    requires task { IsTaskAt program.now span known.now tiling.now step tile operation }
    requires reads { SomeDone (ReadsTotal program.now span known.now tiling.now step tile (zone_op scope) operation (class_operand scope operation) (map arc_value tiles.now)) }
    ensures { IfOk result (λ part. (done : Done) → ReadsTotal program.now span known.now tiling.now step tile (zone_op scope) operation (class_operand scope operation) (map arc_value tiles.now) done → part ≡ tile_part program.now known.now step done operation (rect_of tiling.now tile)) }
{
    areas_look_at_all_tiles();
    let classes = class_operand(scope, operation);
    let own = own_cells(alloc, classes, program, span, step, known, tiling, tile)?;
    let size = tile_size(tiling, tile);
    let total = handed_total(tiles);
    let class_cells = shown(&own, tiles, 1, size);
    let part = tile_spread(alloc, total, class_cells, tiling, tile)?;
    Ok(part)
}
