//! What tiles tell of a whole map: the part of a rectangle's outcomes is the cut of the map's part, the tiles' first Overs tell
//! the map's, and the tiles hold each place once.
#![tactic(auto)]

mod laws;
mod rects;

pub use laws::{
    parts_of_rectangles_are_cuts, the_least_over_of_tiles_is_the_first, tiles_hold_each_place_once,
};
pub use rects::place;
