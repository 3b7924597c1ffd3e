//! The section that a span evaluates.

ghost use Rattle.std.specs.Prelude.{◌≡◌};
ghost use Rattle.map_meaning.specs.Spans.{IsSpan, first_operation, span_operations};
ghost use Rattle.plain_eval.specs.inside.Sections.{initial_number, now_number, number_from, own_number};

use map_meaning::{Operand, Operation, Program, Span};

/// The number of a span's first operation.
pub fn first_operation(span: Span) -> u32
    ensures { result ≡ first_operation span }
{
    match span {
        Span::Initial { first, .. } => first,
        Span::Steps { .. } => 0,
    }
}

// The number that the operation k has in a stage which begins at `first`, if it does not stand before it.
fn number_from(first: u32, k: u32) -> Option<u32>
    ensures { result ≡ number_from first k }
{
    if first <= k { Some(k - first) } else { None }
}

// The number, counted from the begin of a stage, of the operation of `initial` whose map an operand may be, if it is one.
fn initial_number(first: u32, operand: Operand) -> Option<u32>
    ensures { result ≡ initial_number first operand }
{
    match operand {
        Operand::Initial(k) => number_from(first, k),
        Operand::Last { initial, .. } => number_from(first, initial),
        Operand::Unused
        | Operand::Literal(_, _)
        | Operand::Time
        | Operand::Input(_)
        | Operand::Stack(_)
        | Operand::Now(_)
        | Operand::Drain(_) => None,
    }
}

// The number of the operation of `dynamic` whose map at the same step an operand is, if it is one.
fn now_number(operand: Operand) -> Option<u32>
    ensures { result ≡ now_number operand }
{
    match operand {
        Operand::Now(k) => Some(k),
        Operand::Unused
        | Operand::Literal(_, _)
        | Operand::Time
        | Operand::Input(_)
        | Operand::Stack(_)
        | Operand::Initial(_)
        | Operand::Last { .. }
        | Operand::Drain(_) => None,
    }
}

/// The number, counted from the span's first operation, of the operation of the span whose map an operand may be, if it is one.
pub fn own_number(span: Span, operand: Operand) -> Option<u32>
    ensures { result ≡ own_number span operand }
{
    match span {
        Span::Initial { first, .. } => initial_number(first, operand),
        Span::Steps { .. } => now_number(operand),
    }
}

/// The operations of a span.
pub fn span_operations(program: &Program, span: Span) -> &[Operation]
    requires { IsSpan program.now span 1 }
    ensures { result.now ≡ span_operations program.now span }
{
    match span {
        Span::Initial { first, end } => &program.initial.as_slice()[first as usize..end as usize],
        Span::Steps { .. } => program.dynamic.as_slice(),
    }
}
