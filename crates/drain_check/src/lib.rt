//! The check of drain maps: sound, or the first place whose path fails; and drain order, in which each cell comes after
//! the one that it drains into.
//!
//! Both come of one walk, which goes down from each place as far as cells that are not done yet, and back up. Each cell is
//! put on the way once and taken off it once, so the walk takes time in proportion to the cells, and nothing recurs along
//! a path.
#![tactic(auto)]

mod check;
mod codes;
mod order;
mod walk;

pub use check::{CheckEnd, check_drain};
pub use order::drain_order;
