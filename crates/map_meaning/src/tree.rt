use crate::op::Op;
use cell_values::{Cell, Kind, Word};
use sqlite_items::Items;

/// An expression whose names, numbers and kinds are settled. Each form has the kind of its value.
#[derive(Drop)]
pub enum Tree {
    /// A number.
    Number {
        /// The kind that it takes.
        kind: Kind,
        /// Its value.
        cell: Cell,
    },
    /// The number of the step, as a scalar.
    Time,
    /// The grid of the input with this number, which counts the program's inputs from 0.
    Input {
        /// The kind of the grid.
        kind: Kind,
        /// The number.
        input: u32,
    },
    /// The grid of the stack that is the input with this number, at the step.
    Stack {
        /// The kind of the grid.
        kind: Kind,
        /// The number.
        input: u32,
    },
    /// The map that a name has where the expression stands.
    Name {
        /// The kind of the map.
        kind: Kind,
        /// The name.
        name: Word,
    },
    /// An operation. One that is written with more operands than it takes stands as nested calls, from the left.
    Call {
        /// The kind of the result.
        kind: Kind,
        /// What is computed.
        op: Op,
        /// The operands, from the left.
        operands: Items<Tree>,
    },
    /// An operation that is told more than its operands: where it looks its results up, or the length of its window.
    CallWith {
        /// The kind of the result.
        kind: Kind,
        /// What is computed.
        op: Op,
        /// The number of the input that is the table or the series; it counts for lookups and series alone.
        file: u32,
        /// The length of the window; it counts for operations over windows alone.
        window: u32,
        /// The operands that are maps, from the left.
        operands: Items<Tree>,
    },
    /// The part of a drain map that a mask keeps: a drain map again, and no operation.
    Mask {
        /// The drain map, and the mask.
        operands: Items<Tree>,
    },
}

/// A name for the value of an expression. A statement's number is its place in the script, counted from 1.
#[derive(Drop)]
pub struct Statement {
    /// The name that is assigned.
    pub target: Word,
    /// The right side.
    pub value: Tree,
}
