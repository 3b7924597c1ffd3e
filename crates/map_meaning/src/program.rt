use crate::op::Op;
use cell_values::{Cell, Kind, Word};
use sqlite_items::Items;

/// Where an operation's operand comes from.
#[derive(Clone, Copy, Debug, PartialEq, Eq)]
pub enum Operand {
    /// The operation has no such operand.
    Unused,
    /// One cell of this kind at all places.
    Literal(Kind, Cell),
    /// The number of the step, as a scalar.
    Time,
    /// The grid of the input with this number.
    Input(u32),
    /// The grid of the stack that is the input with this number, at the step.
    Stack(u32),
    /// The map of the operation of `initial` with this number.
    Initial(u32),
    /// The map of the operation of `dynamic` with this number, at the same step.
    Now(u32),
    /// What a name has at the end of the step before.
    Last {
        /// The number of the operation of `dynamic` whose map it is behind step 1.
        dynamic: u32,
        /// The number of the operation of `initial` whose map it is at step 1.
        initial: u32,
    },
    /// The drain map with this number.
    Drain(u32),
}

/// One operation over whole maps. Its number is its place in the list of its section, counted from 0.
#[derive(Clone, Copy, Debug, PartialEq, Eq)]
pub struct Operation {
    /// What it computes.
    pub op: Op,
    /// The kind of its map.
    pub kind: Kind,
    /// The first operand.
    pub a: Operand,
    /// The second operand.
    pub b: Operand,
    /// The third operand.
    pub c: Operand,
    /// The fourth operand.
    pub d: Operand,
    /// The number of the drain map that it goes along; it counts for operations along drain directions alone.
    pub drain: u32,
    /// The number of the input that is its table or its series; it counts for lookups and series alone.
    pub file: u32,
    /// The length of its window, in cells; it counts for operations over windows alone.
    pub window: u32,
    /// The statement that it belongs to, counted from 1.
    pub statement: u32,
    /// Its number among the operations of that statement, counted from 1 in post-order.
    pub number: u32,
    /// Its map is handed out.
    pub kept: bool,
}

/// What an input is used as.
#[derive(Clone, Copy, Debug, PartialEq, Eq)]
pub enum Role {
    /// A map that is read once.
    Grid,
    /// A map for each step; its file is the prefix of their names.
    Stack,
    /// A lookup table.
    Table {
        /// How many keys it has.
        keys: u32,
    },
    /// A time series.
    Series,
}

/// An input of a program.
#[derive(Drop)]
pub struct InputUse {
    /// The file that it is read from.
    pub file: Word,
    /// What it is used as.
    pub role: Role,
    /// The kind of its cells.
    pub kind: Kind,
}

/// Where a drain map comes from.
#[derive(Clone, Copy, Debug, PartialEq, Eq)]
pub enum DrainFrom {
    /// It is the grid of the input with this number.
    Input(u32),
    /// It is the drain map with this number, under another name.
    Same(u32),
    /// It is the part of a drain map that a mask keeps.
    Mask {
        /// The number of the drain map.
        of: u32,
        /// The mask, a boolean.
        by: Operand,
    },
}

/// A drain map of a program. Its number is its place in the list of drain maps, counted from 0.
#[derive(Clone, Copy, Debug, PartialEq, Eq)]
pub struct DrainUse {
    /// Where it comes from.
    pub from: DrainFrom,
    /// How many operations of `initial` stand before it; 0 for an input.
    pub after: u32,
}

/// What an output is written as.
#[derive(Clone, Copy, Debug, PartialEq, Eq)]
pub enum OutputKind {
    /// One grid, after the section `initial`.
    InitialGrid,
    /// A grid at each step; its file is the prefix of their names.
    StackGrid,
    /// A time series with a row for each step.
    Sample {
        /// The number of the input that is the map of the columns' ids.
        ids: u32,
    },
}

/// An output of a program.
#[derive(Drop)]
pub struct OutputUse {
    /// The file that it is put as.
    pub file: Word,
    /// What it is written as.
    pub kind: OutputKind,
    /// The map that is written.
    pub value: Operand,
    /// The kind of that map.
    pub cell_kind: Kind,
    /// The statement that reports it, counted from 1.
    pub statement: u32,
}

/// The operations of a script, with its inputs and its outputs.
#[derive(Drop)]
pub struct Program {
    /// The inputs: the area map where it is a file alone, then those of the section `binding`, in its order.
    pub inputs: Items<InputUse>,
    /// The operations of the section `initial`, in the order of their evaluation.
    pub initial: Items<Operation>,
    /// The operations of the section `dynamic`, in the order of their evaluation at each step.
    pub dynamic: Items<Operation>,
    /// The drain maps: those that are inputs, in the order of the inputs, and then those of statements, in the order of the
    /// statements.
    pub drains: Items<DrainUse>,
    /// The outputs, in the order of their statements.
    pub outputs: Items<OutputUse>,
    /// The number of the input that is the area map.
    pub area: u32,
    /// The last step; 0 where the script has no timer.
    pub steps: u32,
}
