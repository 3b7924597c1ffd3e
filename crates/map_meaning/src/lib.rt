//! What a model means: the operations of the language, the value of a script over whole maps, and what a runner of
//! its operations promises.
//!
//! A map is the list of its cells in row-major order. An expression whose names and kinds are settled is a `Tree`, and
//! its value is a whole map, or the first place that is out of range. A `Program` lists the operations of a script one by
//! one; whatever evaluates it is a `BlockRunner`. `OPERATIONS` is the one table of what operations ask and give.
#![tactic(auto)]

mod known;
mod laws;
mod map;
mod op;
mod program;
mod row;
mod runner;
mod shared;
mod stack;
mod table;
mod tree;

pub use known::{Known, OverAt, Span, StageEnd, StepMap};
pub use laws::{
    few_operations_leave_their_range, first_over_is_the_least_noted, missing_operands_spread,
    operations_have_one_row, results_lie_in_their_kind, sections_go_on, spans_give_whole_maps,
    statements_change_their_target, whole_numbers_are_near, worked_examples_come_out,
};
pub use map::Map;
pub use op::Op;
pub use program::{
    DrainFrom, DrainUse, InputUse, Operand, Operation, OutputKind, OutputUse, Program, Role,
};
pub use row::{Ask, Given, Kinds, Meant, Row, Stands};
pub use runner::BlockRunner;
pub use shared::{SharedDrain, SharedSeries, SharedTable};
pub use stack::stack_file;
pub use table::{COPY, MANY_OPERANDS, NO_ROW, OPERATIONS, rows};
pub use tile_map::{Arg, Part};
pub use tree::{Statement, Tree};
