//! The steps of a run at which a report writes: points, items of a list of them, and the steps that a list has.
#![tactic(auto)]

mod item;
mod stretch;
mod times;

pub use item::{Item, Point};
pub use times::Times;
