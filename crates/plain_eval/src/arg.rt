//! The operands of an operation of a span.

ghost use Rattle.std.specs.Prelude.{◌≡◌, ◌<◌, ◌*◌, length, map, true, Some, IsSome};
ghost use Rattle.map_meaning.specs.Evaluation.{operand_cell};
ghost use Rattle.map_meaning.specs.Maps.{nth};
ghost use Rattle.map_meaning.specs.declared.program.Program.{Program as TheProgram};
ghost use Rattle.plain_eval.specs.inside.Held.{HasHeld, IsHeldFor, IsThere, done_of, held_at, or_empty};
ghost use Rattle.plain_eval.specs.inside.Sections.{scene_in};
ghost use Rattle.span_operands.specs.Made.{span_start, is_made};
ghost use Rattle.tile_map.specs.Args.{SpansPlaces, arg_cell};
ghost use Rattle.tile_map.specs.Cuts.{cell_at};

use map_meaning::{Arg, Known, Map, Operand, Program, Span};
use span_operands::{is_made, known_arg, span_start};

// The map of an operation of the span that is held.
fn held_map<'a>(held: &'a [Option<Map>], n: u32) -> &'a Map
    requires below { n < length held.now }
    requires held { IsSome (held_at held.now n) }
    ensures { held_at held.now n ≡ Some result.now }
{
    match &held[n as usize] {
        Some(map) => map,
        None => unreachable!(),
    }
}

// The map of an operation of the span that is held, over so many places.
fn held_arg<'a>(held: &'a [Option<Map>], n: u32, _places: usize) -> Arg<'a>
    requires { HasHeld _places held.now n }
    ensures cell { arg_cell result ≡ cell_at (nth (map or_empty held.now) n) }
    ensures spans { SpansPlaces result _places }
{
    Arg::Cells(held_map(held, n).cells())
}

// An operand that the span makes, over all places: its map is held.
fn made_arg<'a>(operand: Operand, span: Span, known: &Known, held: &'a [Option<Map>]) -> Arg<'a>
    requires made { is_made span (span_start span) operand ≡ true }
    requires held { IsHeldFor span known.now held.now operand }
    ensures cell { (program : TheProgram) → arg_cell result ≡ operand_cell (scene_in program span known.now) (done_of program span known.now held.now) operand }
    ensures spans { SpansPlaces result (known.now.rows * known.now.cols) }
{
    let places = known.rows as usize * known.cols as usize;
    match span {
        Span::Initial { first, .. } => match operand {
            Operand::Initial(n) => held_arg(held, n - first, places),
            _ => unreachable!(),
        },
        Span::Steps { .. } => match operand {
            Operand::Now(n) => held_arg(held, n, places),
            _ => unreachable!(),
        },
    }
}

/// An operand of an operation, over all places.
pub fn arg<'a>(
    operand: Operand,
    program: &Program,
    span: Span,
    known: &'a Known,
    held: &'a [Option<Map>],
) -> Arg<'a>
    requires { IsThere program.now span known.now held.now operand }
    ensures cell { arg_cell result ≡ operand_cell (scene_in program.now span known.now) (done_of program.now span known.now held.now) operand }
    ensures spans { SpansPlaces result (known.now.rows * known.now.cols) }
{
    let step = span_start(span);
    if is_made(span, step, operand) {
        return made_arg(operand, span, known, held);
    }
    known_arg(operand, program, span, step, known)
}
