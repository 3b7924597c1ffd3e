//! Operations that look at their operands' cells at the place alone.

ghost use Rattle.std.specs.Prelude.{◌≡◌, ◌≤◌, ◌*◌, IfOk};
ghost use Rattle.map_meaning.specs.Evaluation.{operation_part};
ghost use Rattle.plain_eval.specs.inside.Held.{AreThere, done_of};
ghost use Rattle.span_operands.specs.inside.Held.{IsOneOf, HasSoundOperands};
ghost use Rattle.span_operands.specs.inside.Scopes.{IsScopeOf};
ghost use Rattle.plain_eval.specs.inside.Sections.{scene_in};
ghost use Rattle.text_base.specs.Limits.{most_cells};
ghost use Rattle.span_operands.specs.declared.scope.Scope.TheVariants.{Local};

use crate::arg::arg;
use cell_ops::cell_part;
use map_meaning::{Known, Map, Operation, Part, Program, Span};
use span_operands::{span_start, work};
use std::alloc::{AllocError, Global};

/// The map of a local operation with its first Over.
pub fn local(
    alloc: Global,
    program: &Program,
    operation: Operation,
    span: Span,
    known: &Known,
    held: &[Option<Map>],
) -> Result<Part, AllocError>
    requires scope { IsScopeOf Local operation.op }
    requires few { known.now.rows * known.now.cols ≤ most_cells }
    requires operation { IsOneOf program.now known.now operation }
    requires operands { AreThere program.now span known.now held.now operation }
    requires sound { HasSoundOperands program.now (scene_in program.now span known.now) (done_of program.now span known.now held.now) operation }
    ensures { IfOk result (λ part. part ≡ operation_part program.now (scene_in program.now span known.now) (done_of program.now span known.now held.now) operation) }
{
    let places = known.rows as usize * known.cols as usize;
    cell_part(
        alloc,
        work(program, operation, span_start(span), known),
        places,
        arg(operation.a, program, span, known, held),
        arg(operation.b, program, span, known, held),
        arg(operation.c, program, span, known, held),
        arg(operation.d, program, span, known, held),
    )
}
