//! The operands of an operation that are known before the span.

ghost use Rattle.std.specs.Prelude.{◌≡◌, ◌<◌, ◌≤◌, ◌*◌, ℕ, length, false, ◌==◌, if◌then◌else◌, []};
ghost use Rattle.tile_map.specs.Args.{SpansPlaces, arg_cell};
ghost use Rattle.tile_map.specs.Cuts.{cell_at};
ghost use Rattle.map_meaning.specs.Evaluation.{Done, operand_cell};
ghost use Rattle.map_meaning.specs.Maps.{nth, step_cell};
ghost use Rattle.map_meaning.specs.Programs.{is_grid_role};
ghost use Rattle.map_meaning.specs.Spans.{at_inputs, kept_map, known_codes, scene_of};
ghost use Rattle.span_operands.specs.Made.{AgreesWith, IsKnown, IsKnownAtStep, IsKnownInitially, span_start, is_made};
ghost use Rattle.span_operands.specs.inside.Held.{HasDrainMap, HasGrid, HasKept, HasLast};
ghost use Rattle.map_meaning.specs.declared.known.Span.TheVariants as span;

use crate::drains::drain_map;
use crate::inputs::{kept_cells, place_among, stack_cells};
use cell_values::Cell;
use map_meaning::{Arg, Known, Operand, Program, Role, Span, StepMap};

/// The first step of a span; 0 for the section `initial`.
pub fn span_start(span: Span) -> u32
    ensures { result ≡ span_start span }
{
    match span {
        Span::Initial { .. } => 0,
        Span::Steps { first, .. } => first,
    }
}

/// Whether the map of an operand at a step is one that the span makes.
pub fn is_made(span: Span, step: u32, operand: Operand) -> bool
    ensures { result ≡ is_made span step operand }
{
    match span {
        Span::Initial { first, .. } => match operand {
            Operand::Initial(n) => first <= n,
            _ => false,
        },
        Span::Steps { first, .. } => match operand {
            Operand::Now(_) => true,
            Operand::Last { .. } => first < step,
            _ => false,
        },
    }
}

// The kept map of one of so many operations, over so many places.
fn kept_arg<'a>(kept: &'a [StepMap], n: u32, _count: usize, _places: usize) -> Arg<'a>
    requires { HasKept _places kept.now _count n }
    ensures cell { arg_cell result ≡ cell_at (kept_map kept.now n) }
    ensures spans { SpansPlaces result _places }
{
    Arg::Cells(kept_cells(kept, n))
}

// The number of a step as a cell.
fn step_number(step: u32) -> Cell
    ensures { result ≡ step_cell step }
{
    Cell::Val(step as i64 * 1_000_000)
}

// The grid of an input, over all places.
fn grid<'a>(program: &Program, known: &'a Known, n: u32) -> Arg<'a>
    requires { HasGrid program.now known.now n }
    ensures cell { arg_cell result ≡ cell_at (nth (at_inputs is_grid_role [] program.now.inputs known.now.maps) n) }
    ensures spans { SpansPlaces result (known.now.rows * known.now.cols) }
{
    let place = place_among(program.inputs.as_slice(), Role::Grid, n);
    Arg::Cells(known.maps.as_slice()[place].cells())
}

// What a name has at the end of the step before the span's first one, over all places: at step 1 the map of `initial`.
fn last_arg<'a>(
    program: &Program,
    known: &'a Known,
    step: u32,
    dynamic: u32,
    initial: u32,
) -> Arg<'a>
    requires { HasLast program.now step known.now dynamic initial }
    ensures cell { arg_cell result ≡ cell_at (if step == 1 then kept_map known.now.initial initial else kept_map known.now.last dynamic) }
    ensures spans { SpansPlaces result (known.now.rows * known.now.cols) }
{
    let places = known.rows as usize * known.cols as usize;
    if step == 1 {
        return kept_arg(
            known.initial.as_slice(),
            initial,
            program.initial.len(),
            places,
        );
    }
    kept_arg(
        known.last.as_slice(),
        dynamic,
        program.dynamic.len(),
        places,
    )
}

// The codes of a drain map, over all places.
fn codes<'a>(known: &'a Known, n: u32) -> Arg<'a>
    requires { HasDrainMap known.now n }
    ensures cell { arg_cell result ≡ cell_at (nth (known_codes known.now) n) }
    ensures spans { SpansPlaces result (known.now.rows * known.now.cols) }
{
    Arg::Cells(drain_map(known, n).cells())
}

// An operand of an operation of `initial` that a stage which begins at `first` does not make, over all places.
fn initial_known<'a>(
    operand: Operand,
    program: &Program,
    first: u32,
    _end: u32,
    known: &'a Known,
) -> Arg<'a>
    requires known { IsKnownInitially program.now first known.now operand }
    requires made { is_made (span.Initial first _end) 0 operand ≡ false }
    ensures cell { (done : Done) → AgreesWith program.now (span.Initial first _end) known.now 0 done → arg_cell result ≡ operand_cell (scene_of program.now.inputs known.now 0) done operand }
    ensures spans { SpansPlaces result (known.now.rows * known.now.cols) }
{
    let places = known.rows as usize * known.cols as usize;
    match operand {
        Operand::Unused => Arg::Unused,
        Operand::Literal(_, cell) => Arg::One(cell),
        Operand::Input(n) => grid(program, known, n),
        Operand::Initial(n) => kept_arg(known.initial.as_slice(), n, first as usize, places),
        Operand::Drain(n) => codes(known, n),
        Operand::Time | Operand::Stack(_) | Operand::Now(_) | Operand::Last { .. } => {
            unreachable!()
        }
    }
}

// An operand of an operation of `dynamic` at a step that the steps from `first` on do not make, over all places.
fn step_known<'a>(
    operand: Operand,
    program: &Program,
    first: u32,
    _last: u32,
    step: u32,
    known: &'a Known,
) -> Arg<'a>
    requires known { IsKnownAtStep program.now first known.now step operand }
    requires order { first ≤ step }
    requires made { is_made (span.Steps first _last) step operand ≡ false }
    ensures cell { (done : Done) → AgreesWith program.now (span.Steps first _last) known.now step done → arg_cell result ≡ operand_cell (scene_of program.now.inputs known.now step) done operand }
    ensures spans { SpansPlaces result (known.now.rows * known.now.cols) }
{
    let places = known.rows as usize * known.cols as usize;
    match operand {
        Operand::Unused => Arg::Unused,
        Operand::Literal(_, cell) => Arg::One(cell),
        Operand::Time => Arg::One(step_number(step)),
        Operand::Input(n) => grid(program, known, n),
        Operand::Stack(n) => Arg::Cells(stack_cells(known.stacks.as_slice(), step, n)),
        Operand::Initial(n) => kept_arg(known.initial.as_slice(), n, program.initial.len(), places),
        Operand::Now(_) => unreachable!(),
        Operand::Last { dynamic, initial } => last_arg(program, known, step, dynamic, initial),
        Operand::Drain(n) => codes(known, n),
    }
}

/// An operand of an operation at a step of a span that the span does not make, over all places.
pub fn known_arg<'a>(
    operand: Operand,
    program: &Program,
    span: Span,
    step: u32,
    known: &'a Known,
) -> Arg<'a>
    requires known { IsKnown program.now span known.now step operand }
    requires order { span_start span ≤ step }
    requires made { is_made span step operand ≡ false }
    ensures cell { (done : Done) → AgreesWith program.now span known.now step done → arg_cell result ≡ operand_cell (scene_of program.now.inputs known.now step) done operand }
    ensures spans { SpansPlaces result (known.now.rows * known.now.cols) }
{
    match span {
        Span::Initial { first, end } => initial_known(operand, program, first, end, known),
        Span::Steps { first, last } => step_known(operand, program, first, last, step, known),
    }
}
