//! What operations over regions mean: over the window of a place, over the area of a class, and over a whole map.
//!
//! A region is told by the list of its cells in row-major order, without the missing ones, and what an operation gives is
//! told of that list.
#![tactic(auto)]

mod area;
mod laws;
mod window;

pub use area::AreaOp;
pub use laws::{a_majority_is_the_most_frequent, regions_without_values_are_missing};
pub use window::WindowOp;
