ghost use Rattle.std.specs.Prelude.{◌≡◌, map, IfOk};
ghost use Rattle.std.specs.Vec.Iter.{into_iter_items};
ghost use Rattle.map_meaning.specs.Table.{allows, given_kind, is_file};
ghost use Rattle.cell_values.specs.declared.kind.Kind.TheVariants.{Nominal};
ghost use Rattle.cell_values.specs.inside.Reading.{cell_read};
ghost use Rattle.script_types.specs.Typing.{agreed_kind, length_among, whole_number, argument_at, argument_kind, arguments_at, call_tree, deciding, bound_file_at, file_of, free_at, kind_of_free, typed_map, maps_of, meant_value, nested_on, number_map, operation_tree, row_value, sample_of};
ghost use Rattle.script_types.specs.inside.Samples.{map_in};
ghost use Rattle.script_types.specs.inside.Scopes.{GivesKind, GivesList};

use crate::end::KindEnd;
use crate::fault::MeaningKind;
use crate::same::{has_kind, is_kind};
use crate::scope::number_as;
use crate::table::{ask_at, is_length, op_of};
use crate::typed::{Argument, Typed, Value};
use cell_values::{Cell, Kind, read_cell};
use map_meaning::{Ask, Given, Kinds, MANY_OPERANDS, Meant, Op, Row, Tree};
use sqlite_items::{Items, at as at_place};
use std::alloc::{AllocError, Global};
use std::vec::IntoIter;

// The kind that decides where operands must agree.
fn deciding(asked: Ask, operand: &Typed) -> Option<Kind>
    ensures { result ≡ deciding asked operand.now }
{
    match (asked, operand) {
        (Ask::Alike(_), Typed::Map(value)) => Some(value.kind),
        _ => None,
    }
}

/// The kind in which operands agree.
pub fn agreed_kind(row: &Row, operands: &[Typed]) -> Kind
    ensures { result ≡ agreed_kind row.now operands.now }
{
    for at in 0..operands.len() {
        if let Some(kind) = deciding(ask_at(row, at), &operands[at]) {
            return kind;
        }
    }
    Kind::Scalar
}

// The kind of a free number where several may stand.
fn kind_of_free(kinds: Kinds) -> Kind
    ensures { result ≡ kind_of_free kinds }
{
    if kinds.scalar {
        Kind::Scalar
    } else {
        Kind::Nominal
    }
}

// A number as a map.
fn number_map(kind: Kind, text: &[u8]) -> Result<Argument, KindEnd>
    ensures { GivesKind result (number_map kind text.now) }
{
    Ok(Argument::Map(number_as(kind, text)?))
}

/// The whole number that a text gives; 0 where it gives none.
pub fn length_of(text: &[u8]) -> u32
    ensures { result ≡ whole_number (cell_read Nominal text.now) }
{
    match read_cell(Kind::Nominal, text) {
        Ok(Cell::Val(number)) if number >= 0 => number as u32,
        _ => 0,
    }
}

// A free number at its place.
fn free_at(agreed: Kind, asked: Ask, text: &[u8]) -> Result<Argument, KindEnd>
    ensures { GivesKind result (free_at agreed asked text.now) }
{
    match asked {
        Ask::Only(kind) => number_map(kind, text),
        Ask::One(kinds) => number_map(kind_of_free(kinds), text),
        Ask::Alike(_) => number_map(agreed, text),
        Ask::Length => Ok(Argument::Length(length_of(text))),
        Ask::Table(_) => Err(KindEnd::Meaning(MeaningKind::KindMismatch)),
        Ask::Series(_) => Err(KindEnd::Meaning(MeaningKind::KindMismatch)),
        Ask::Stack => Err(KindEnd::Meaning(MeaningKind::KindMismatch)),
    }
}

// Whether a map of this kind may stand at the place.
fn allows(agreed: Kind, asked: Ask, kind: Kind) -> bool
    ensures { result ≡ allows agreed asked kind }
{
    match asked {
        Ask::Only(only) => is_kind(only, kind),
        Ask::One(kinds) => has_kind(kinds, kind),
        Ask::Alike(kinds) => has_kind(kinds, kind) && is_kind(agreed, kind),
        Ask::Table(_) => false,
        Ask::Series(_) => false,
        Ask::Stack => false,
        Ask::Length => false,
    }
}

// A table, a series or a stack at its place.
fn file_at(asked: Ask, operand: &Typed) -> Result<Argument, KindEnd>
    ensures { GivesKind result (bound_file_at asked operand.now) }
{
    match (asked, operand) {
        (Ask::Table(_), Typed::Table { kind, input }) => Ok(Argument::File {
            kind: *kind,
            input: *input,
        }),
        (Ask::Series(_), Typed::Series { kind, input }) => Ok(Argument::File {
            kind: *kind,
            input: *input,
        }),
        (Ask::Stack, Typed::Stack { kind, input }) => Ok(Argument::File {
            kind: *kind,
            input: *input,
        }),
        _ => Err(KindEnd::Meaning(MeaningKind::KindMismatch)),
    }
}

// An operand at its place.
fn argument_at(agreed: Kind, asked: Ask, operand: Typed) -> Result<Argument, KindEnd>
    ensures { GivesKind result (argument_at agreed asked operand) }
{
    match operand {
        Typed::Literal(text) => free_at(agreed, asked, text.bytes()),
        Typed::Constant(text) => free_at(agreed, asked, text.bytes()),
        Typed::Map(value) => {
            if allows(agreed, asked, value.kind) {
                Ok(Argument::Map(value))
            } else {
                Err(KindEnd::Meaning(MeaningKind::KindMismatch))
            }
        }
        other => file_at(asked, &other),
    }
}

// The operands, each at its place.
fn arguments_at(
    alloc: Global,
    row: &Row,
    agreed: Kind,
    operands: Vec<Typed>,
) -> Result<Vec<Argument>, KindEnd>
    ensures { GivesList result (arguments_at row.now agreed 0 operands.items) }
{
    let mut arguments = Vec::new(alloc);
    let mut at = 0;
    for operand in operands {
        let argument = argument_at(agreed, ask_at(row, at), operand)?;
        arguments.push(argument)?;
        at += 1;
    }
    Ok(arguments)
}

// The kind of an operand at its place.
fn argument_kind(argument: &Argument) -> Kind
    ensures { result ≡ argument_kind argument.now }
{
    match argument {
        Argument::Map(value) => value.kind,
        Argument::File { kind, .. } => *kind,
        Argument::Length(_) => Kind::Nominal,
    }
}

// The kind of an operation on these operands.
fn given_kind(given: Given, agreed: Kind, arguments: &[Argument]) -> Kind
    ensures { result ≡ given_kind given agreed (map argument_kind arguments.now) }
{
    match given {
        Given::Always(kind) => kind,
        Given::Common => agreed,
        Given::Same(at) => match at_place(arguments, at) {
            Some(argument) => argument_kind(argument),
            None => Kind::Scalar,
        },
    }
}

// The operands that are maps.
fn maps_of(alloc: Global, arguments: Vec<Argument>) -> Result<Vec<Tree>, AllocError>
    ensures { IfOk result (λ maps. maps.items ≡ maps_of arguments.items) }
{
    let mut maps = Vec::new(alloc);
    for argument in arguments {
        if let Argument::Map(value) = argument {
            maps.push(value.tree)?;
        }
    }
    Ok(maps)
}

// Operations of two operands, nested from the left.
fn nested_on(
    alloc: Global,
    op: Op,
    kind: Kind,
    first: Tree,
    rest: IntoIter<Tree>,
) -> Result<Tree, AllocError>
    ensures { IfOk result (λ tree. tree ≡ nested_on op kind first (into_iter_items rest)) }
{
    let mut left = first;
    for tree in rest {
        let mut operands = Items::new(alloc);
        operands.push(left)?;
        operands.push(tree)?;
        left = Tree::Call { kind, op, operands };
    }
    Ok(left)
}

// An operation on its operands.
fn call_tree(alloc: Global, row: &Row, kind: Kind, maps: Vec<Tree>) -> Result<Tree, AllocError>
    ensures { IfOk result (λ tree. tree ≡ call_tree row.now kind maps.items) }
{
    let op = op_of(row.meant);
    if row.most < MANY_OPERANDS {
        return Ok(Tree::Call {
            kind,
            op,
            operands: Items::from_vec(maps),
        });
    }
    let mut maps = maps.into_iter();
    match maps.next() {
        Some(first) => nested_on(alloc, op, kind, first, maps),
        None => Ok(Tree::Call {
            kind,
            op,
            operands: Items::new(alloc),
        }),
    }
}

// The number of the input that the first operand is.
fn file_of(arguments: &[Argument]) -> u32
    ensures { result ≡ file_of arguments.now }
{
    match arguments {
        [Argument::File { input, .. }, ..] => *input,
        _ => 0,
    }
}

// The length of a window that is among the operands.
fn length_among(arguments: &[Argument]) -> u32
    ensures { result ≡ length_among arguments.now }
{
    for argument in arguments {
        if let Argument::Length(length) = argument {
            return *length;
        }
    }
    0
}

// Whether the place asks a table or a series.
fn is_file(asked: Ask) -> bool
    ensures { result ≡ is_file asked }
{
    match asked {
        Ask::Table(_) => true,
        Ask::Series(_) => true,
        Ask::Only(_) => false,
        Ask::One(_) => false,
        Ask::Alike(_) => false,
        Ask::Stack => false,
        Ask::Length => false,
    }
}

// An operation on operands that stand at their places.
fn operation_tree(
    alloc: Global,
    row: &Row,
    kind: Kind,
    arguments: Vec<Argument>,
) -> Result<Tree, AllocError>
    ensures { IfOk result (λ tree. tree ≡ operation_tree row.now kind arguments.items) }
{
    let file = file_of(arguments.as_slice());
    let window = length_among(arguments.as_slice());
    let maps = maps_of(alloc, arguments)?;
    if is_file(row.first) {
        return Ok(Tree::CallWith {
            kind,
            op: op_of(row.meant),
            file,
            window: 0,
            operands: Items::from_vec(maps),
        });
    }
    if is_length(row.second) {
        return Ok(Tree::CallWith {
            kind,
            op: op_of(row.meant),
            file: 0,
            window,
            operands: Items::from_vec(maps),
        });
    }
    call_tree(alloc, row, kind, maps)
}

// The map that an operand is, if it is one.
fn map_in(argument: Option<Argument>) -> Option<Value>
    ensures { result ≡ map_in argument }
{
    match argument {
        Some(Argument::Map(value)) => Some(value),
        Some(Argument::File { .. }) => None,
        Some(Argument::Length(_)) => None,
        None => None,
    }
}

// A map that is sampled at the ids of another.
fn sample_of(arguments: Vec<Argument>) -> Result<Typed, KindEnd>
    ensures { GivesKind result (sample_of arguments.items) }
{
    let mut arguments = arguments.into_iter();
    let Some(ids) = map_in(arguments.next()) else {
        return Err(KindEnd::Meaning(MeaningKind::KindMismatch));
    };
    let Some(value) = map_in(arguments.next()) else {
        return Err(KindEnd::Meaning(MeaningKind::KindMismatch));
    };
    match arguments.next() {
        Some(_) => Err(KindEnd::Meaning(MeaningKind::KindMismatch)),
        None => Ok(Typed::Sample { ids, value }),
    }
}

// What a row stands for, on operands that stand at their places.
fn meant_value(
    alloc: Global,
    row: &Row,
    kind: Kind,
    arguments: Vec<Argument>,
) -> Result<Typed, KindEnd>
    ensures { GivesKind result (meant_value row.now.meant row.now kind arguments.items) }
{
    let tree = match row.meant {
        Meant::Step => Tree::Time,
        Meant::Stack => Tree::Stack {
            kind,
            input: file_of(arguments.as_slice()),
        },
        Meant::Sample => return sample_of(arguments),
        Meant::Mask => Tree::Mask {
            operands: Items::from_vec(maps_of(alloc, arguments)?),
        },
        Meant::Op(_) => operation_tree(alloc, row, kind, arguments)?,
    };
    Ok(Typed::Map(Value { kind, tree }))
}

/// An operation on these operands, by its row of the table.
pub fn row_value(
    alloc: Global,
    row: &Row,
    agreed: Kind,
    operands: Vec<Typed>,
) -> Result<Typed, KindEnd>
    ensures { GivesKind result (row_value row.now agreed operands.items) }
{
    let arguments = arguments_at(alloc, row, agreed, operands)?;
    let kind = given_kind(row.gives, agreed, arguments.as_slice());
    meant_value(alloc, row, kind, arguments)
}
