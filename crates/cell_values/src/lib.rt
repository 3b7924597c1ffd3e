//! Cells, kinds and words: the values that every layer above shares.
//!
//! A cell is a missing value or a whole number in the range of its kind. Scalars and directions count
//! millionths. A word is a list of bytes.
#![tactic(auto)]

mod arithmetic;
mod cell;
mod cells;
mod convert;
mod decimal;
mod digit_row;
mod kind;
mod print;
mod range;
mod read;
mod rounding;
mod same;
mod short;
mod unit;
mod word;

pub use arithmetic::{add, div, int_div, int_mod, mul, sub};
pub use cell::{Cell, NumberFault, Over};
pub use cells::Cells;
pub use convert::to_kind;
pub use decimal::{is_decimal, one_decimal};
pub use kind::Kind;
pub use print::{print_cell, written_texts_are_unique};
pub use range::{fits, to_cell};
pub use read::{one_cell, printed_reads_back, read_cell};
pub use rounding::{one_nearest, round_div};
pub use same::same_decimal;
pub use short::short_cell;
pub use word::Word;
