ghost use Rattle.std.specs.Prelude.{◌≡◌, ◌+◌, ◌-◌, ◌<◌, ◌≤◌, IfOk, OnOk, length, map, true, slice_index_or};
ghost use Rattle.std.specs.List.{list_all};
ghost use Rattle.map_meaning.specs.Table.{goes_along_drains};
ghost use Rattle.map_meaning.specs.Trees.{meaning_of, operations_in};
ghost use Rattle.script_types.specs.Statements.{operations_of};
ghost use Rattle.script_types.specs.inside.Drains.{drain_named, drain_numbers};
ghost use Rattle.script_types.specs.inside.Fits.{Ground, fits};
ghost use Rattle.script_types.specs.inside.Nodes.{IsNode, first_map_place, held_in, input_operand};
ghost use Rattle.script_types.specs.inside.Sections.{own_operand};
ghost use Rattle.script_types.specs.inside.Values.{Emits, EmitsAll, HasOperands};
ghost use Rattle.script_types.specs.inside.Written.{IsOperationOn, ListsTree, ListsTrees};

use crate::names::Names;
use crate::same::is_kind;
use crate::typed::Section;
use cell_values::Kind;
use map_meaning::{Op, Operand, Operation, Tree};
use sqlite_items::Items;
use std::alloc::{AllocError, Global};

/// Where the operations of a statement are written.
#[derive(Clone, Copy)]
pub struct At {
    pub section: Section,
    /// The statement, counted from 1.
    pub statement: u32,
    /// How many operations of the section stand before those of the statement.
    pub first: usize,
}

/// An expression at its root.
#[derive(Clone, Copy)]
pub enum Node<'a> {
    /// An operand that there is.
    There(Operand),
    /// An operation that is to be written.
    Operation {
        kind: Kind,
        op: Op,
        /// The number of the input that is its table or its series.
        file: u32,
        /// The length of its window.
        window: u32,
        operands: &'a [Tree],
    },
    /// A drain map and its mask, which are no operation.
    Mask {
        operands: &'a [Tree],
    },
}

/// The operand that has the map of a section's operation.
pub fn own_operand(section: Section, number: u32) -> Operand
    ensures { result ≡ own_operand section number }
{
    match section {
        Section::Initial => Operand::Initial(number),
        Section::Dynamic => Operand::Now(number),
    }
}

/// The operand that has the map of a name.
pub fn held(holders: &Names<Operand>, name: &[u8]) -> Operand
    ensures { result ≡ held_in holders.now name.now }
{
    holders.get(name).unwrap_or(Operand::Unused)
}

/// The number of the drain map that an operand is.
pub fn drain_named(operand: Operand) -> u32
    ensures { result ≡ drain_named operand }
{
    match operand {
        Operand::Drain(number) => number,
        _ => 0,
    }
}

// The operand that has the grid of an input of this kind, where these are the numbers of the inputs among drain maps.
fn input_operand(numbers: &[u32], kind: Kind, input: u32) -> Operand
    ensures { result ≡ input_operand numbers.now kind input }
{
    if !is_kind(Kind::Ldd, kind) {
        return Operand::Input(input);
    }
    match numbers.get(input as usize) {
        Some(number) => Operand::Drain(*number),
        None => Operand::Drain(0),
    }
}

// What an expression is at its root.
fn root_of<'a>(numbers: &[u32], holders: &Names<Operand>, tree: &'a Tree) -> Node<'a>
    ensures { IsNode result numbers.now (held_in holders.now) tree.now }
{
    match tree {
        Tree::Number { kind, cell } => Node::There(Operand::Literal(*kind, *cell)),
        Tree::Time => Node::There(Operand::Time),
        Tree::Input { kind, input } => Node::There(input_operand(numbers, *kind, *input)),
        Tree::Stack { input, .. } => Node::There(Operand::Stack(*input)),
        Tree::Name { name, .. } => Node::There(held(holders, name.bytes())),
        Tree::Call { kind, op, operands } => Node::Operation {
            kind: *kind,
            op: *op,
            file: 0,
            window: 0,
            operands: operands.as_slice(),
        },
        Tree::CallWith {
            kind,
            op,
            file,
            window,
            operands,
        } => Node::Operation {
            kind: *kind,
            op: *op,
            file: *file,
            window: *window,
            operands: operands.as_slice(),
        },
        Tree::Mask { operands } => Node::Mask {
            operands: operands.as_slice(),
        },
    }
}

/// The operand at a place, if there is one.
pub fn operand_at(operands: &[Operand], at: usize) -> Operand
    ensures { result ≡ slice_index_or operands.now at Operand.Unused }
{
    match operands.get(at) {
        Some(operand) => *operand,
        None => Operand::Unused,
    }
}

// Whether an operation goes along drain directions: its first operand is a drain map.
fn goes_along_drains(op: Op) -> bool
    ensures { result ≡ goes_along_drains op }
{
    matches!(op, Op::Near(_) | Op::Flow(_))
}

// The place of the first operand that is no drain map.
fn first_map_place(op: Op) -> usize
    ensures { result ≡ first_map_place op }
{
    if goes_along_drains(op) { 1 } else { 0 }
}

// The operation on these operands, below so many others. What is kept is told when all is written.
fn operation_on(
    op: Op,
    kind: Kind,
    file: u32,
    window: u32,
    operands: &[Operand],
    at: At,
    below: usize,
) -> Operation
    requires first { at.first ≤ below }
    requires few { below < 8192 }
    ensures operation { IsOperationOn result op kind at below }
    ensures operands { HasOperands result file window operands.now }
{
    let place = first_map_place(op);
    Operation {
        op,
        kind,
        a: operand_at(operands, place),
        b: operand_at(operands, place + 1),
        c: operand_at(operands, place + 2),
        d: operand_at(operands, place + 3),
        drain: drain_named(operand_at(operands, 0)),
        file,
        window,
        statement: at.statement,
        number: (below - at.first) as u32 + 1,
        kept: false,
    }
}

/// Writes the operations of some expressions from the left, and gives the operands that have their maps. These are the numbers of
/// the inputs among drain maps.
#[cycle(emit)]
pub fn emit_all(
    alloc: Global,
    ops: &mut Items<Operation>,
    numbers: &[u32],
    holders: &Names<Operand>,
    at: At,
    trees: &[Tree],
) -> Result<Vec<Operand>, AllocError>
    requires first { at.first ≤ length ops.old }
    requires room { length ops.old + operations_in (map meaning_of trees.now) ≤ 8192 }
    ensures listed { OnOk result (ListsTrees ops.old ops.new at.statement at.first trees.now) }
    ensures emits { IfOk result (λ found. (g : Ground) → numbers.now ≡ drain_numbers 0 g.inputs → list_all (fits g) trees.now ≡ true →
        EmitsAll at.section g (held_in holders.now) ops.old ops.new at.statement at.first trees.now found.items) }
{
    let mut found = Vec::new(alloc);
    for tree in trees {
        let operand = emit(alloc, ops, numbers, holders, at, tree)?;
        found.push(operand)?;
    }
    Ok(found)
}

/// Writes the operations of an expression in post-order, and gives the operand that has its map; a mask has none of its own. These
/// are the numbers of the inputs among drain maps.
#[cycle(emit)]
pub fn emit(
    alloc: Global,
    ops: &mut Items<Operation>,
    numbers: &[u32],
    holders: &Names<Operand>,
    at: At,
    tree: &Tree,
) -> Result<Operand, AllocError>
    requires first { at.first ≤ length ops.old }
    requires room { length ops.old + operations_of tree.now ≤ 8192 }
    ensures listed { OnOk result (ListsTree ops.old ops.new at.statement at.first tree.now) }
    ensures emits { IfOk result (λ operand. (g : Ground) → numbers.now ≡ drain_numbers 0 g.inputs → fits g tree.now ≡ true →
        Emits at.section g (held_in holders.now) ops.old ops.new at.statement at.first tree.now operand) }
{
    match root_of(numbers, holders, tree) {
        Node::There(operand) => Ok(operand),
        Node::Operation {
            kind,
            op,
            file,
            window,
            operands,
        } => {
            let found = emit_all(alloc, ops, numbers, holders, at, operands)?;
            let number = ops.len();
            ops.push(operation_on(op, kind, file, window, found.as_slice(), at, number))?;
            Ok(own_operand(at.section, number as u32))
        }
        Node::Mask { operands } => {
            emit_all(alloc, ops, numbers, holders, at, operands)?;
            Ok(Operand::Unused)
        }
    }
}
