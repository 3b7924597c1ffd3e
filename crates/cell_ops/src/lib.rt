//! The operations on cells, over any number of places: each looks at its operands' cells at one place alone.
//!
//! `cell_part` chooses the operation and the shapes of its operands (a map, one cell for all places, none) before its loop;
//! the loop goes over the places once and takes memory for its result alone.
#![tactic(auto)]

mod choice;
mod comparison;
mod conversion;
mod extreme;
mod laws;
mod logic;
mod lookup;
mod part;
mod places;
mod rule;
mod scalar;
mod shape;
mod work;

pub use laws::works_give_what_operations_mean;
pub use part::cell_part;
pub use work::CellWork;
