//! Operations over windows: the total, the average, the least, the greatest, how many different values there are and the most
//! frequent one of the cells round each place.
//!
//! The places are those of a rectangle of a map, which comes with the cells around it: so a map may be taken tile by tile,
//! and a window is cut at the map's border alone.
#![tactic(auto)]

mod classes;
mod columns;
mod counts;
mod extremes;
mod laws;
mod outcomes;
mod part;
mod reach;
mod strip;
mod sum;
mod sums;

pub use laws::{a_window_of_one_cell_is_the_cell, windows_hold_what_is_near};
pub use part::window_part;
