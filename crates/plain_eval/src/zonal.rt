//! Operations over areas, and over the whole map as one area.

ghost use Rattle.std.specs.Prelude.{◌≡◌, ◌≤◌, ◌*◌, IfOk};
ghost use Rattle.region_meaning.specs.Areas.{area_places};
ghost use Rattle.region_meaning.specs.AreaResults.{area_outcome};
ghost use Rattle.tile_map.specs.Args.{SpansPlaces, arg_cell};
ghost use Rattle.tile_map.specs.Parts.{part_of};
ghost use Rattle.map_meaning.specs.Evaluation.{operation_part};
ghost use Rattle.plain_eval.specs.inside.Held.{AreThere, done_of};
ghost use Rattle.span_operands.specs.inside.Held.{HasSoundOperands};
ghost use Rattle.span_operands.specs.inside.Scopes.{IsScopeOf};
ghost use Rattle.plain_eval.specs.inside.Sections.{scene_in};
ghost use Rattle.text_base.specs.Limits.{most_cells};
ghost use Rattle.span_operands.specs.declared.scope.Scope.TheVariants.{Zonal, ZoneSize, Global as TheGlobal};

use crate::arg::arg;
use area_ops::Partial;
use cell_values::Cell;
use map_meaning::{Arg, Known, Map, Operation, Part, Program, Span};
use region_meaning::AreaOp;
use std::alloc::{AllocError, Global};

// What an operation gives of the areas of a whole map.
fn areas(
    alloc: Global,
    op: AreaOp,
    values: Arg<'_>,
    classes: Arg<'_>,
    places: usize,
) -> Result<Part, AllocError>
    requires few { places ≤ most_cells }
    requires values { SpansPlaces values places }
    requires classes { SpansPlaces classes places }
    ensures { IfOk result (λ part. part ≡ part_of (λ place. area_outcome op (area_places values.entry classes.entry places) (arg_cell classes.entry place)) places) }
{
    let partial = Partial::of(alloc, op, values, classes, places)?;
    partial.spread(alloc, classes, places)
}

/// The map of an operation over areas with its first Over.
pub fn zonal(
    alloc: Global,
    op: AreaOp,
    program: &Program,
    operation: Operation,
    span: Span,
    known: &Known,
    held: &[Option<Map>],
) -> Result<Part, AllocError>
    requires scope { IsScopeOf (Zonal op) operation.op }
    requires few { known.now.rows * known.now.cols ≤ most_cells }
    requires operands { AreThere program.now span known.now held.now operation }
    requires sound { HasSoundOperands program.now (scene_in program.now span known.now) (done_of program.now span known.now held.now) operation }
    ensures { IfOk result (λ part. part ≡ operation_part program.now (scene_in program.now span known.now) (done_of program.now span known.now held.now) operation) }
{
    areas(
        alloc,
        op,
        arg(operation.a, program, span, known, held),
        arg(operation.b, program, span, known, held),
        known.rows as usize * known.cols as usize,
    )
}

/// The map of the sizes of areas with its first Over. Each cell counts, whatever its value.
pub fn zone_size(
    alloc: Global,
    program: &Program,
    operation: Operation,
    span: Span,
    known: &Known,
    held: &[Option<Map>],
) -> Result<Part, AllocError>
    requires scope { IsScopeOf ZoneSize operation.op }
    requires few { known.now.rows * known.now.cols ≤ most_cells }
    requires operands { AreThere program.now span known.now held.now operation }
    requires sound { HasSoundOperands program.now (scene_in program.now span known.now) (done_of program.now span known.now held.now) operation }
    ensures { IfOk result (λ part. part ≡ operation_part program.now (scene_in program.now span known.now) (done_of program.now span known.now held.now) operation) }
{
    areas(
        alloc,
        AreaOp::Area,
        Arg::One(Cell::Val(0)),
        arg(operation.a, program, span, known, held),
        known.rows as usize * known.cols as usize,
    )
}

/// The map of an operation over the whole map, as one area, with its first Over.
pub fn global(
    alloc: Global,
    op: AreaOp,
    program: &Program,
    operation: Operation,
    span: Span,
    known: &Known,
    held: &[Option<Map>],
) -> Result<Part, AllocError>
    requires scope { IsScopeOf (TheGlobal op) operation.op }
    requires few { known.now.rows * known.now.cols ≤ most_cells }
    requires operands { AreThere program.now span known.now held.now operation }
    requires sound { HasSoundOperands program.now (scene_in program.now span known.now) (done_of program.now span known.now held.now) operation }
    ensures { IfOk result (λ part. part ≡ operation_part program.now (scene_in program.now span known.now) (done_of program.now span known.now held.now) operation) }
{
    areas(
        alloc,
        op,
        arg(operation.a, program, span, known, held),
        Arg::One(Cell::Val(1)),
        known.rows as usize * known.cols as usize,
    )
}
