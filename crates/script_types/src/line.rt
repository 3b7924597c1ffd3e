ghost use Rattle.std.specs.Prelude.{◌≡◌, ◌+◌, ◌≤◌, IfOk, if◌then◌else◌};
ghost use Rattle.std.specs.Option.{option_copied};
ghost use Rattle.map_meaning.specs.Limits.{most_operations, most_stacks};
ghost use Rattle.script_types.specs.Names.{is_bound_to_number};
ghost use Rattle.script_types.specs.Statements.{asked_kind, bound_kind, differs, free_side, is_call, is_dynamic, is_stack_report, line_of_side, line_read, operations_of, right_side, sampled_value, whole_side, with_operation, writes_stack};
ghost use Rattle.script_types.specs.Typing.{input_in};
ghost use Rattle.script_types.specs.inside.Answers.{CountsUpTo, GivesLine};
ghost use Rattle.script_types.specs.inside.Scopes.{GivesKind, scope_of};

use crate::end::KindEnd;
use crate::fault::MeaningKind;
use crate::same::is_kind;
use crate::scope::{Scope, file_by, is_bad_prefix, number_as};
use crate::typed::{Line, Section, Side, Typed, UsedAs, Value};
use crate::typing::typed_as;
use cell_values::Kind;
use map_meaning::{Op, Tree};
use script_syntax::{Binding, Statement, Target};
use sqlite_items::Items;
use std::alloc::{AllocError, Global};

/// The most operations of a section.
const MOST_OPERATIONS: usize = 8192;

/// The most stacks that are read, and the most that are written.
const MOST_STACKS: u32 = 64;

/// A settled statement, how many operations its section has with it, and how many stacks are written with it.
#[derive(Drop)]
pub struct Counted {
    pub line: Line,
    pub count: usize,
    pub stacks: u32,
}

/// Whether the name is bound to a number.
pub fn is_bound_to_number(bound: Option<&Binding>) -> bool
    ensures { result ≡ is_bound_to_number (option_copied bound.entry) }
{
    match bound {
        Some(binding) => matches!(&binding.target, Target::Number(_)),
        None => false,
    }
}

// The kind that a binding gives.
fn bound_kind(bound: Option<&Binding>) -> Option<Kind>
    ensures { result ≡ bound_kind (option_copied bound.entry) }
{
    match bound {
        Some(binding) => binding.kind,
        None => None,
    }
}

// The kind that a free right side takes.
fn asked_kind(earlier: Option<Kind>, bound: Option<Kind>) -> Kind
    ensures { result ≡ asked_kind earlier bound }
{
    match earlier {
        Some(kind) => kind,
        None => bound.unwrap_or(Kind::Scalar),
    }
}

// Whether there is a kind, and it is another.
fn differs(other: Option<Kind>, kind: Kind) -> bool
    ensures { result ≡ differs other kind }
{
    match other {
        Some(other) => !is_kind(other, kind),
        None => false,
    }
}

// A free right side whose target has this kind.
fn free_side(kind: Kind, text: &[u8]) -> Result<Value, KindEnd>
    ensures { GivesKind result (free_side kind text.now) }
{
    if is_kind(Kind::Ldd, kind) {
        return Err(KindEnd::Meaning(MeaningKind::DrainPlace));
    }
    number_as(kind, text)
}

// A right side that is not sampled.
fn whole_side(value: Value) -> Side
    ensures { result ≡ whole_side value }
{
    Side {
        value,
        sample: None,
    }
}

// The number of the input that the map is.
fn input_in(tree: &Tree) -> u32
    ensures { result ≡ input_in tree.now }
{
    match tree {
        Tree::Input { input, .. } => *input,
        _ => 0,
    }
}

// What a time series samples at the places of ids.
fn sampled_value(alloc: Global, mean: bool, ids: Value, value: Value) -> Result<Value, KindEnd>
    ensures { GivesKind result (sampled_value mean ids value) }
{
    if !mean {
        return Ok(value);
    }
    if !is_kind(Kind::Scalar, value.kind) {
        return Err(KindEnd::Meaning(MeaningKind::KindMismatch));
    }
    let mut operands = Items::new(alloc);
    operands.push(value.tree)?;
    operands.push(ids.tree)?;
    Ok(Value {
        kind: Kind::Scalar,
        tree: Tree::Call {
            kind: Kind::Scalar,
            op: Op::AreaAverage,
            operands,
        },
    })
}

// A right side whose target has this kind.
fn right_side(alloc: Global, mean: bool, asked: Kind, typed: Typed) -> Result<Side, KindEnd>
    ensures { GivesKind result (right_side mean asked typed) }
{
    match typed {
        Typed::Literal(text) => Ok(whole_side(free_side(asked, text.bytes())?)),
        Typed::Constant(text) => Ok(whole_side(free_side(asked, text.bytes())?)),
        Typed::Map(value) => Ok(whole_side(value)),
        Typed::Sample { ids, value } => {
            let input = input_in(&ids.tree);
            Ok(Side {
                value: sampled_value(alloc, mean, ids, value)?,
                sample: Some(input),
            })
        }
        Typed::Table { .. } => Err(KindEnd::Meaning(MeaningKind::KindMismatch)),
        Typed::Series { .. } => Err(KindEnd::Meaning(MeaningKind::KindMismatch)),
        Typed::Stack { .. } => Err(KindEnd::Meaning(MeaningKind::KindMismatch)),
    }
}

// Whether the section is `dynamic`.
fn is_dynamic(section: Section) -> bool
    ensures { result ≡ is_dynamic section }
{
    matches!(section, Section::Dynamic)
}

// Whether the expression is an operation.
fn is_call(tree: &Tree) -> bool
    ensures { result ≡ is_call tree.now }
{
    matches!(tree, Tree::Call { .. } | Tree::CallWith { .. })
}

// A right side without an operation has one, a copy; a drain map has none, and neither has what a time series samples.
fn with_operation(
    alloc: Global,
    is_sampled: bool,
    kind: Kind,
    tree: Tree,
) -> Result<Tree, AllocError>
    ensures { IfOk result (λ t. t ≡ with_operation is_sampled kind tree) }
{
    if is_call(&tree) || is_kind(Kind::Ldd, kind) || is_sampled {
        return Ok(tree);
    }
    let mut operands = Items::new(alloc);
    operands.push(tree)?;
    Ok(Tree::Call {
        kind,
        op: Op::CopyOf,
        operands,
    })
}

/// How many operations there are with those of a tree, unless they are too many.
#[tactic(auto, using(crate::proofs::TreeCounts::none))]
pub fn count_with(tree: &Tree, above: usize) -> Option<usize>
    requires { above ≤ 8192 }
    ensures { CountsUpTo most_operations result (above + operations_of tree.now) }
{
    match tree {
        Tree::Number { .. } => Some(above),
        Tree::Time => Some(above),
        Tree::Input { .. } => Some(above),
        Tree::Stack { .. } => Some(above),
        Tree::Name { .. } => Some(above),
        Tree::Call { operands, .. } | Tree::CallWith { operands, .. } | Tree::Mask { operands } => {
            let mut count = above;
            for operand in operands.as_slice() {
                match count_with(operand, count) {
                    Some(more) => count = more,
                    None => return None,
                }
            }
            if !is_call(tree) {
                return Some(count);
            }
            if count < MOST_OPERATIONS {
                Some(count + 1)
            } else {
                None
            }
        }
    }
}

// How many stacks are written with this report, unless they are too many.
fn stacks_with(is_stack: bool, written: u32) -> Option<u32>
    requires { written ≤ 64 }
    ensures { CountsUpTo most_stacks result (written + (if is_stack then 1 else 0)) }
{
    if !is_stack {
        return Some(written);
    }
    if written < MOST_STACKS {
        Some(written + 1)
    } else {
        None
    }
}

// Whether a report of this section writes a stack.
fn is_stack_report(section: Section, report: bool, is_sampled: bool) -> bool
    ensures { result ≡ is_stack_report section report is_sampled }
{
    is_dynamic(section) && report && !is_sampled
}

/// Whether the statement writes a stack.
pub fn writes_stack(line: &Line) -> bool
    ensures { result ≡ writes_stack line.now }
{
    is_stack_report(line.section, line.report, line.sample.is_some())
}

// The statement with this right side below so many operations, or the first fault of its target.
fn line_of_side(
    alloc: Global,
    scope: &Scope<'_>,
    above: usize,
    statement: &Statement,
    side: Side,
) -> Result<Counted, KindEnd>
    requires above { above ≤ 8192 }
    requires stacks { scope.now.stacks_written ≤ 64 }
    ensures { GivesLine result scope.now above (line_of_side (scope_of scope.now) above statement.now side) }
{
    let Side { value, sample } = side;
    let Value { kind, tree } = value;
    if is_dynamic(scope.section) && is_kind(Kind::Ldd, kind) {
        return Err(KindEnd::Meaning(MeaningKind::DrainPlace));
    }
    let tree = with_operation(alloc, sample.is_some(), kind, tree)?;
    let name = statement.name.bytes();
    let bound = scope.binding(name);
    if is_bound_to_number(bound) {
        return Err(KindEnd::Meaning(MeaningKind::NameClash));
    }
    if differs(scope.above.get(name), kind) || differs(bound_kind(bound), kind) {
        return Err(KindEnd::Meaning(MeaningKind::KindMismatch));
    }
    let is_stack = is_stack_report(scope.section, statement.report, sample.is_some());
    if is_stack && is_bad_prefix(file_by(bound, name), scope.steps) {
        return Err(KindEnd::Meaning(MeaningKind::BadStackName));
    }
    let Some(count) = count_with(&tree, above) else {
        return Err(KindEnd::Meaning(MeaningKind::TooMany));
    };
    let Some(stacks) = stacks_with(is_stack, scope.stacks_written) else {
        return Err(KindEnd::Meaning(MeaningKind::TooMany));
    };
    if scope.stacks_read > MOST_STACKS {
        return Err(KindEnd::Meaning(MeaningKind::TooMany));
    }
    let target = statement.name.twin(alloc)?;
    Ok(Counted {
        line: Line {
            section: scope.section,
            report: statement.report,
            kind,
            sample,
            statement: map_meaning::Statement {
                target,
                value: tree,
            },
        },
        count,
        stacks,
    })
}

/// A statement below so many operations of its section, or its first fault.
#[tactic(auto, unfolding(crate::specs::Statements::line_read))]
pub fn line_at(
    alloc: Global,
    scope: &Scope<'_>,
    above: usize,
    statement: &Statement,
) -> Result<Counted, KindEnd>
    requires above { above ≤ 8192 }
    requires stacks { scope.now.stacks_written ≤ 64 }
    ensures { GivesLine result scope.now above (line_read (scope_of scope.now) above statement.now) }
{
    let typed = typed_as(alloc, scope, &statement.expr, true, UsedAs::Grid)?;
    let name = statement.name.bytes();
    let asked = asked_kind(scope.above.get(name), bound_kind(scope.binding(name)));
    let side = right_side(alloc, scope.mean, asked, typed)?;
    line_of_side(alloc, scope, above, statement, side)
}
