use crate::op::Op;
use cell_values::Kind;

/// Some of the kinds.
#[derive(Clone, Copy)]
pub struct Kinds {
    /// Booleans are among them.
    pub boolean: bool,
    /// Nominal classes are.
    pub nominal: bool,
    /// Ordinal classes are.
    pub ordinal: bool,
    /// Scalars are.
    pub scalar: bool,
    /// Directions are.
    pub directional: bool,
    /// Drain directions are.
    pub ldd: bool,
}

/// What the place of an operand asks.
#[derive(Clone, Copy)]
pub enum Ask {
    /// An operand of this kind.
    Only(Kind),
    /// An operand of one of these kinds.
    One(Kinds),
    /// An operand of one of these kinds, and of the same kind as all others that are asked so.
    Alike(Kinds),
    /// The name of a table with results of this kind.
    Table(Kind),
    /// The name of a series of this kind.
    Series(Kind),
    /// The name of a stack.
    Stack,
    /// A number literal that is odd, whole and from 1 to 31.
    Length,
}

/// The kind of a result.
#[derive(Clone, Copy)]
pub enum Given {
    /// This kind.
    Always(Kind),
    /// The kind in which the operands agree.
    Common,
    /// The kind of the operand at this place, counted from 0.
    Same(usize),
}

/// Where an operation may stand.
#[derive(Clone, Copy)]
pub enum Stands {
    /// In both sections, as any part of a right side.
    Anywhere,
    /// In `dynamic` alone.
    Dynamic,
    /// In `dynamic`, as the whole right side, with the name of an input grid as its first operand.
    Sample,
    /// In `initial`, as the whole right side.
    Mask,
}

/// What a word of the table stands for.
#[derive(Clone, Copy)]
pub enum Meant {
    /// An operation over maps.
    Op(Op),
    /// The number of the step.
    Step,
    /// The grid of a stack at the step.
    Stack,
    /// A time series that is written.
    Sample,
    /// The part of a drain map that a mask keeps.
    Mask,
}

/// One line of the table of operations.
#[derive(Clone, Copy)]
pub struct Row {
    /// How it is written, with blanks behind.
    pub word: [u8; 20],
    /// What it stands for.
    pub meant: Meant,
    /// What its first operand is asked.
    pub first: Ask,
    /// What its second operand is asked.
    pub second: Ask,
    /// What each further operand is asked.
    pub further: Ask,
    /// How many operands there are at least.
    pub least: usize,
    /// How many operands there are at most. With `MANY_OPERANDS` more than the least are nested calls, from the left.
    pub most: usize,
    /// The kind of its result.
    pub gives: Given,
    /// Where it may stand.
    pub stands: Stands,
}
