//! Partials of tiles, their merge, and what a tile gets of it.

ghost use Rattle.std.specs.Prelude.{◌≡◌, ◌<◌, ◌≤◌, ◌+◌, ◌++◌, ℕ, List, map, IfOk};
ghost use Rattle.std.specs.Arc.{arc_value};
ghost use Rattle.text_base.specs.Limits.{most_cells};
ghost use Rattle.tile_map.specs.Args.{SpansPlaces, arg_cell};
ghost use Rattle.tile_map.specs.Rects.{cell_count};
ghost use Rattle.tile_map.specs.Tiles.{rect_of, tile_count};
ghost use Rattle.region_meaning.specs.AreaResults.{area_outcome};
ghost use Rattle.region_meaning.specs.Areas.{AreaPlace};
ghost use Rattle.area_ops.specs.Partials.{StandsFor};
ghost use Rattle.map_meaning.specs.Maps.{CellAt};
ghost use Rattle.task_laws.specs.Zones.{tile_zones, zones_in};
ghost use Rattle.tile_cuts.specs.TileParts.{part_in};
ghost use Rattle.tile_tasks.specs.inside.Areas.{ArePartials, HasOp, ShowsTile, SomeMaps, many_in};
ghost use Rattle.tile_tasks.specs.inside.Tiles.{IsPartialFor};

use crate::local::tile_size;
use area_ops::Partial;
use cell_values::Cell;
use map_meaning::Part;
use region_meaning::AreaOp;
use std::alloc::{AllocError, Global};
use std::sync::Arc;
use task_tiles::Tile;
use tile_map::{Arg, Tiling};

/// The partial of a tile, by the cells of its values and those of its classes.
pub fn tile_partial(
    alloc: Global,
    op: AreaOp,
    values: Arg<'_>,
    classes: Arg<'_>,
    tiling: &Tiling,
    tile: u32,
) -> Result<Partial, AllocError>
    requires tile { tile < tile_count tiling.now }
    requires values { SpansPlaces values (cell_count (rect_of tiling.now tile)) }
    requires classes { SpansPlaces classes (cell_count (rect_of tiling.now tile)) }
    ensures op { IfOk result (λ partial. partial.op ≡ op) }
    ensures stands { IfOk result (λ partial. (f h : CellAt) → ShowsTile tiling.now.cols (rect_of tiling.now tile) f values.entry → ShowsTile tiling.now.cols (rect_of tiling.now tile) h classes.entry → StandsFor partial (zones_in tiling.now.cols (rect_of tiling.now tile) f h)) }
{
    let size = tile_size(tiling, tile);
    let partial = Partial::of(alloc, op, values, classes, size)?;
    Ok(partial)
}

// A total with the partial of one more tile.
fn take_in(total: Partial, tile: &Tile) -> Result<Partial, AllocError>
    requires op { HasOp total.op tile.now }
    requires few { total.cells + many_in tile.now ≤ most_cells }
    ensures stands { IfOk result (λ both. (xs ys : List AreaPlace) → StandsFor total xs → IsPartialFor total.op ys tile.now → StandsFor both (xs ++ ys)) }
    ensures op { IfOk result (λ both. both.op ≡ total.op) }
{
    match tile {
        Tile::Partial(partial) => total.with(partial),
        Tile::Part(_) => unreachable!(),
    }
}

/// The partial of a whole map, from those of its tiles, in their order.
pub fn merged(
    alloc: Global,
    op: AreaOp,
    tiling: &Tiling,
    tiles: &[Arc<Tile>],
) -> Result<Partial, AllocError>
    requires { SomeMaps (ArePartials op tiling.now (map arc_value tiles.now)) }
    ensures op { IfOk result (λ partial. partial.op ≡ op) }
    ensures stands { IfOk result (λ partial. (f h : CellAt) → ArePartials op tiling.now (map arc_value tiles.now) f h → StandsFor partial (tile_zones tiling.now f h (tile_count tiling.now))) }
{
    let _cols = tiling.cols;
    let mut total = Partial::of(alloc, op, Arg::One(Cell::Val(0)), Arg::One(Cell::Val(1)), 0)?;
    for tile in tiles {
        total = take_in(total, tile)?;
    }
    Ok(total)
}

/// What a tile gets of the partial of the whole map, by the classes of its places.
pub fn tile_spread(
    alloc: Global,
    total: &Partial,
    classes: Arg<'_>,
    tiling: &Tiling,
    tile: u32,
) -> Result<Part, AllocError>
    requires tile { tile < tile_count tiling.now }
    requires classes { SpansPlaces classes (cell_count (rect_of tiling.now tile)) }
    ensures { IfOk result (λ part. (f h : CellAt) → StandsFor total.now (tile_zones tiling.now f h (tile_count tiling.now)) → ShowsTile tiling.now.cols (rect_of tiling.now tile) h classes.entry → part ≡ part_in tiling.now.cols (rect_of tiling.now tile) (λ place. area_outcome total.now.op (tile_zones tiling.now f h (tile_count tiling.now)) (h place))) }
{
    let size = tile_size(tiling, tile);
    let part = total.spread(alloc, classes, size)?;
    Ok(part)
}
