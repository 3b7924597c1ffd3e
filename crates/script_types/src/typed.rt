use cell_values::{Kind, Word};
use map_meaning::{Statement, Tree};

/// What an input is used as.
#[derive(Clone, Copy)]
pub enum UsedAs {
    /// A map that is read once.
    Grid,
    /// A map for each step.
    Stack,
    /// A table with this number of keys and results of this kind.
    Table { keys: usize, kind: Kind },
    /// A time series of this kind.
    Series { kind: Kind },
}

/// A section of a script.
#[derive(Clone, Copy)]
pub enum Section {
    Initial,
    Dynamic,
}

/// A map: its kind, and the settled expression that gives it.
#[derive(Drop)]
pub struct Value {
    pub kind: Kind,
    pub tree: Tree,
}

/// An expression before the place that it stands at is looked at.
#[derive(Drop)]
pub enum Typed {
    /// A number without a kind, by a literal.
    Literal(Word),
    /// A number without a kind, by a name.
    Constant(Word),
    /// A map.
    Map(Value),
    /// The name of a table with results of this kind, which is the input with this number.
    Table { kind: Kind, input: u32 },
    /// The name of a series of this kind, which is the input with this number.
    Series { kind: Kind, input: u32 },
    /// The name of a stack of this kind, which is the input with this number.
    Stack { kind: Kind, input: u32 },
    /// A time series that is written: the map of its ids, which is an input, and the map that is sampled.
    Sample { ids: Value, value: Value },
}

/// An operand at its place.
#[derive(Drop)]
pub enum Argument {
    /// A map.
    Map(Value),
    /// A table, a series or a stack of this kind, which is the input with this number.
    File { kind: Kind, input: u32 },
    /// The length of a window.
    Length(u32),
}

/// A right side at its target.
#[derive(Drop)]
pub struct Side {
    pub value: Value,
    /// The number of the input that is the map of ids, where the value is sampled for a time series.
    pub sample: Option<u32>,
}

/// A statement whose names, numbers and kinds are settled.
#[derive(Drop)]
pub struct Line {
    pub section: Section,
    /// Whether the value is written.
    pub report: bool,
    /// The kind of the value.
    pub kind: Kind,
    /// The number of the input that is the map of ids, where the value is sampled for a time series.
    pub sample: Option<u32>,
    /// The name that is assigned, and the value.
    pub statement: Statement,
}
