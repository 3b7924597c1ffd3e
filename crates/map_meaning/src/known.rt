use crate::map::Map;
use crate::shared::{SharedDrain, SharedSeries, SharedTable};
use sqlite_items::Items;

/// The operations that are evaluated together.
#[derive(Clone, Copy, Debug, PartialEq, Eq)]
pub enum Span {
    /// The operations of `initial` from the number `first` up to, and without, the number `end`.
    Initial {
        /// The number of the first operation.
        first: u32,
        /// The number behind that of the last one.
        end: u32,
    },
    /// The operations of `dynamic` at each step from `first` to `last`.
    Steps {
        /// The first step.
        first: u32,
        /// The last step.
        last: u32,
    },
}

/// The map of an operation at a step.
#[derive(Drop)]
pub struct StepMap {
    /// The step; 0 for the section `initial`.
    pub step: u32,
    /// The number of the operation.
    pub operation: u32,
    /// Its map.
    pub cells: Map,
}

/// What a span reads from outside itself.
#[derive(Drop)]
pub struct Known {
    /// How many rows each map has.
    pub rows: u32,
    /// How many columns each map has.
    pub cols: u32,
    /// The maps of the inputs that are grids, in the order of the inputs.
    pub maps: Items<Map>,
    /// The inputs that are tables, in the order of the inputs.
    pub tables: Items<SharedTable>,
    /// The inputs that are series, in the order of the inputs.
    pub series: Items<SharedSeries>,
    /// The drain maps that are computed before the span, by their numbers from 0 on.
    pub drains: Items<SharedDrain>,
    /// The grids of the inputs that are stacks, at the steps of the span; their operation is the number of the input.
    pub stacks: Items<StepMap>,
    /// The kept maps of the stages of `initial` before the span, by ascending numbers of operations.
    pub initial: Items<StepMap>,
    /// The kept maps of `dynamic` of the step before the span, by ascending numbers of operations.
    pub last: Items<StepMap>,
}

/// The first result that is out of the range of its kind.
#[derive(Clone, Copy, Debug, PartialEq, Eq)]
pub struct OverAt {
    /// The step; 0 for the section `initial`.
    pub step: u32,
    /// The statement, counted from 1.
    pub statement: u32,
    /// The operation of the statement, counted from 1 in post-order.
    pub operation: u32,
    /// The row, counted from 1.
    pub row: u32,
    /// The column, counted from 1.
    pub col: u32,
}

/// What comes out of a span.
#[derive(Drop)]
pub struct StageEnd {
    /// The kept maps of the steps before that of the first Over, by steps and operations.
    pub maps: Items<StepMap>,
    /// The first Over.
    pub over: Option<OverAt>,
}
