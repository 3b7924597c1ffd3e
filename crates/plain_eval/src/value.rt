ghost use Rattle.std.specs.Prelude.{◌≡◌, ◌<◌, ◌≤◌, ◌*◌, ℕ, IfOk};
ghost use Rattle.map_meaning.specs.Evaluation.{operation_value};
ghost use Rattle.flow_task.specs.Kits.{KnowsAll};
ghost use Rattle.map_meaning.specs.Overs.{over_at as five_numbers};
ghost use Rattle.map_meaning.specs.Table.{is_transport};
ghost use Rattle.map_meaning.specs.declared.program.Program.{Program as TheProgram};
ghost use Rattle.plain_eval.specs.inside.Held.{AreThere, done_of};
ghost use Rattle.span_operands.specs.inside.Held.{IsOneOf, HasSoundOperands};
ghost use Rattle.plain_eval.specs.inside.Sections.{scene_in};
ghost use Rattle.text_base.specs.Limits.{most_cells};

use crate::part::part;
use flow_task::FlowKit;
use map_meaning::{Known, Map, Operation, OverAt, Part, Program, Span};
use span_operands::span_start;
use std::alloc::{AllocError, Global};

// The five numbers of an Over at this place.
fn over_at(span: Span, known: &Known, operation: Operation, place: u32) -> OverAt
    requires some { 0 < known.now.cols }
    requires few { place < most_cells }
    ensures { (program : TheProgram) → result ≡ five_numbers (scene_in program span known.now) operation.statement operation.number place }
{
    OverAt {
        step: span_start(span),
        statement: operation.statement,
        operation: operation.number,
        row: place / known.cols + 1,
        col: place % known.cols + 1,
    }
}

/// The map of an operation, or its first Over.
pub fn value<K: FlowKit>(
    alloc: Global,
    kit: K,
    program: &Program,
    operation: Operation,
    span: Span,
    known: &Known,
    held: &[Option<Map>],
) -> Result<Result<Map, OverAt>, AllocError>
    requires kit { KnowsAll is_transport (K.known kit) }
    requires some_rows { 0 < known.now.rows }
    requires some_cols { 0 < known.now.cols }
    requires few { known.now.rows * known.now.cols ≤ most_cells }
    requires operation { IsOneOf program.now known.now operation }
    requires operands { AreThere program.now span known.now held.now operation }
    requires sound { HasSoundOperands program.now (scene_in program.now span known.now) (done_of program.now span known.now held.now) operation }
    ensures { IfOk result (λ value. value ≡ operation_value program.now (scene_in program.now span known.now) (done_of program.now span known.now held.now) operation) }
{
    let Part { cells, over } = part(alloc, kit, program, operation, span, known, held)?;
    match over {
        Some(place) => Ok(Err(over_at(span, known, operation, place))),
        None => Ok(Ok(Map::new(alloc, cells)?)),
    }
}
