//! Operations along drain directions.

ghost use Rattle.std.specs.Prelude.{◌≡◌, ◌<◌, ◌≤◌, ◌*◌, ℕ, length, IfOk};
ghost use Rattle.cell_values.specs.declared.kind.Kind.TheVariants.{Scalar};
ghost use Rattle.cell_values.specs.Kinds.{IsCell};
ghost use Rattle.drain_meaning.specs.Near.{near_outcome};
ghost use Rattle.flow_task.specs.Kits.{KnowsAll};
ghost use Rattle.map_meaning.specs.Table.{is_transport};
ghost use Rattle.drain_ops.specs.Operands.{flow_operand};
ghost use Rattle.tile_map.specs.Args.{SpansPlaces, arg_cell};
ghost use Rattle.tile_map.specs.Cuts.{cell_at};
ghost use Rattle.tile_map.specs.Parts.{part_of};
ghost use Rattle.map_meaning.specs.Evaluation.{operation_part};
ghost use Rattle.plain_eval.specs.inside.Held.{AreThere, done_of};
ghost use Rattle.span_operands.specs.inside.Held.{IsOneOf, HasSoundOperands};
ghost use Rattle.span_operands.specs.inside.Scopes.{IsScopeOf};
ghost use Rattle.plain_eval.specs.inside.Sections.{scene_in};
ghost use Rattle.text_base.specs.Limits.{most_cells};
ghost use Rattle.span_operands.specs.declared.scope.Scope.TheVariants.{Near, Transport};

use crate::arg::arg;
use cell_values::Cell;
use drain_meaning::{Drain, FlowOp, NearOp};
use drain_ops::near_part;
use flow_task::FlowKit;
use map_meaning::{Arg, Known, Map, Operation, Part, Program, Span};
use span_operands::{drain_map, kind_or_scalar, made, sheet};
use std::alloc::{AllocError, Global};
use tile_map::Rect;

// What an operation gives of the cells one step up or down stream in a whole map, as one rectangle.
fn whole_near(alloc: Global, op: NearOp, drain: &Drain, cells: &[Cell]) -> Result<Part, AllocError>
    requires some { 0 < drain.now.cols }
    requires cells { length cells.now ≡ drain.now.rows * drain.now.cols }
    requires scalars { (place : ℕ) → IsCell Scalar (cell_at cells.now place) }
    ensures { IfOk result (λ part. part ≡ part_of (near_outcome op drain.now (cell_at cells.now)) (drain.now.rows * drain.now.cols)) }
{
    let whole = Rect {
        top: 0,
        left: 0,
        rows: drain.rows(),
        cols: drain.cols(),
    };
    let part = near_part(alloc, op, drain.cells(), cells, whole, whole)?;
    Ok(part)
}

/// The map of an operation that looks one step up or down stream with its first Over.
pub fn near(
    alloc: Global,
    op: NearOp,
    program: &Program,
    operation: Operation,
    span: Span,
    known: &Known,
    held: &[Option<Map>],
) -> Result<Part, AllocError>
    requires scope { IsScopeOf (Near op) operation.op }
    requires some { 0 < known.now.cols }
    requires few { known.now.rows * known.now.cols ≤ most_cells }
    requires operands { AreThere program.now span known.now held.now operation }
    requires sound { HasSoundOperands program.now (scene_in program.now span known.now) (done_of program.now span known.now held.now) operation }
    ensures { IfOk result (λ part. part ≡ operation_part program.now (scene_in program.now span known.now) (done_of program.now span known.now held.now) operation) }
{
    let places = known.rows as usize * known.cols as usize;
    let values = arg(operation.a, program, span, known, held);
    let made = made(alloc, values, places)?;
    whole_near(
        alloc,
        op,
        drain_map(known, operation.drain),
        sheet(values, made.as_slice(), places),
    )
}

// An operand as a transport takes it: one that is not there is missing everywhere.
fn given<'a>(operand: Arg<'a>, _places: usize) -> Arg<'a>
    requires { SpansPlaces operand _places }
    ensures cell { flow_operand result ≡ arg_cell operand.entry }
    ensures spans { SpansPlaces result _places }
{
    match operand {
        Arg::Unused => Arg::One(Cell::Mv),
        Arg::One(cell) => Arg::One(cell),
        Arg::Cells(cells) => Arg::Cells(cells),
    }
}

/// The map of a transport with its first Over.
pub fn transport<K: FlowKit>(
    alloc: Global,
    kit: K,
    op: FlowOp,
    program: &Program,
    operation: Operation,
    span: Span,
    known: &Known,
    held: &[Option<Map>],
) -> Result<Part, AllocError>
    requires scope { IsScopeOf (Transport op) operation.op }
    requires kit { KnowsAll is_transport (K.known kit) }
    requires some { 0 < known.now.rows * known.now.cols }
    requires few { known.now.rows * known.now.cols ≤ most_cells }
    requires operation { IsOneOf program.now known.now operation }
    requires operands { AreThere program.now span known.now held.now operation }
    requires sound { HasSoundOperands program.now (scene_in program.now span known.now) (done_of program.now span known.now held.now) operation }
    ensures { IfOk result (λ part. part ≡ operation_part program.now (scene_in program.now span known.now) (done_of program.now span known.now held.now) operation) }
{
    let places = known.rows as usize * known.cols as usize;
    let a = given(arg(operation.a, program, span, known, held), places);
    let b = given(arg(operation.b, program, span, known, held), places);
    let drain = drain_map(known, operation.drain);
    let part = kit.whole(alloc, op, kind_or_scalar(program, operation.a), drain, a, b)?;
    Ok(part)
}
