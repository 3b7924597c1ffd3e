//! Operations over windows.

ghost use Rattle.std.specs.Prelude.{◌≡◌, ◌<◌, ◌≤◌, ◌*◌, length, IfOk};
ghost use Rattle.region_meaning.specs.Windows.{longest_reach, window_outcome};
ghost use Rattle.tile_map.specs.Parts.{part_of};
ghost use Rattle.map_meaning.specs.Evaluation.{operation_part};
ghost use Rattle.plain_eval.specs.inside.Held.{AreThere, done_of};
ghost use Rattle.span_operands.specs.inside.Held.{HasSoundOperands};
ghost use Rattle.span_operands.specs.inside.Scopes.{IsScopeOf};
ghost use Rattle.plain_eval.specs.inside.Sections.{scene_in};
ghost use Rattle.text_base.specs.Limits.{most_cells};
ghost use Rattle.span_operands.specs.declared.scope.Scope.TheVariants.{Focal};

use crate::arg::arg;
use cell_values::Cell;
use map_meaning::{Known, Map, Operation, Part, Program, Span};
use region_meaning::WindowOp;
use span_operands::{made, sheet};
use std::alloc::{AllocError, Global};
use tile_map::Rect;
use window_ops::window_part;

// What an operation gives of the windows of a whole map, as one rectangle.
fn whole_windows(
    alloc: Global,
    op: WindowOp,
    k: u32,
    cells: &[Cell],
    rows: u32,
    cols: u32,
) -> Result<Part, AllocError>
    requires reach { k ≤ longest_reach }
    requires some { 0 < cols }
    requires few { rows * cols ≤ most_cells }
    requires cells { length cells.now ≡ rows * cols }
    ensures { IfOk result (λ part. part ≡ part_of (window_outcome op rows cols k cells.now) (rows * cols)) }
{
    let whole = Rect {
        top: 0,
        left: 0,
        rows,
        cols,
    };
    let part = window_part(alloc, op, k, cells, whole, whole)?;
    Ok(part)
}

/// The map of an operation over windows with its first Over.
pub fn focal(
    alloc: Global,
    op: WindowOp,
    program: &Program,
    operation: Operation,
    span: Span,
    known: &Known,
    held: &[Option<Map>],
) -> Result<Part, AllocError>
    requires scope { IsScopeOf (Focal op) operation.op }
    requires some { 0 < known.now.cols }
    requires few { known.now.rows * known.now.cols ≤ most_cells }
    requires operands { AreThere program.now span known.now held.now operation }
    requires sound { HasSoundOperands program.now (scene_in program.now span known.now) (done_of program.now span known.now held.now) operation }
    ensures { IfOk result (λ part. part ≡ operation_part program.now (scene_in program.now span known.now) (done_of program.now span known.now held.now) operation) }
{
    let places = known.rows as usize * known.cols as usize;
    let values = arg(operation.a, program, span, known, held);
    let made = made(alloc, values, places)?;
    whole_windows(
        alloc,
        op,
        (operation.window - 1) / 2,
        sheet(values, made.as_slice(), places),
        known.rows,
        known.cols,
    )
}
