//! The map of an operation, by what it looks at.

ghost use Rattle.std.specs.Prelude.{◌≡◌, ◌<◌, ◌≤◌, ◌*◌, IfOk};
ghost use Rattle.flow_task.specs.Kits.{KnowsAll};
ghost use Rattle.map_meaning.specs.Evaluation.{operation_part};
ghost use Rattle.map_meaning.specs.Table.{is_transport};
ghost use Rattle.plain_eval.specs.inside.Held.{AreThere, done_of};
ghost use Rattle.span_operands.specs.inside.Held.{IsOneOf, HasSoundOperands};
ghost use Rattle.plain_eval.specs.inside.Sections.{scene_in};
ghost use Rattle.text_base.specs.Limits.{most_cells};

use crate::along::{near, transport};
use crate::focal::focal;
use crate::local::local;
use crate::zonal::{global, zonal, zone_size};
use flow_task::FlowKit;
use map_meaning::{Known, Map, Operation, Part, Program, Span};
use span_operands::{Scope, scope_of};
use std::alloc::{AllocError, Global};

/// The map of an operation with its first Over.
pub fn part<K: FlowKit>(
    alloc: Global,
    kit: K,
    program: &Program,
    operation: Operation,
    span: Span,
    known: &Known,
    held: &[Option<Map>],
) -> Result<Part, AllocError>
    requires kit { KnowsAll is_transport (K.known kit) }
    requires some_rows { 0 < known.now.rows }
    requires some_cols { 0 < known.now.cols }
    requires few { known.now.rows * known.now.cols ≤ most_cells }
    requires operation { IsOneOf program.now known.now operation }
    requires operands { AreThere program.now span known.now held.now operation }
    requires sound { HasSoundOperands program.now (scene_in program.now span known.now) (done_of program.now span known.now held.now) operation }
    ensures { IfOk result (λ part. part ≡ operation_part program.now (scene_in program.now span known.now) (done_of program.now span known.now held.now) operation) }
{
    match scope_of(operation.op) {
        Scope::Local => local(alloc, program, operation, span, known, held),
        Scope::Focal(op) => focal(alloc, op, program, operation, span, known, held),
        Scope::Zonal(op) => zonal(alloc, op, program, operation, span, known, held),
        Scope::ZoneSize => zone_size(alloc, program, operation, span, known, held),
        Scope::Global(op) => global(alloc, op, program, operation, span, known, held),
        Scope::Near(op) => near(alloc, op, program, operation, span, known, held),
        Scope::Transport(op) => transport(alloc, kit, op, program, operation, span, known, held),
    }
}
