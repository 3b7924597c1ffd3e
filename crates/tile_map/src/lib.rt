//! Maps seen through rectangles: tiles that cover a map once, the cells of a rectangle, cut out of a map, gathered from
//! tiles and pasted back; the operands and results of operations over some places.
//!
//! Rows, columns, places and tiles are counted from 0. A place counts the cells of a map in row-major order, and a tile's
//! number counts the tiles of a tiling so.
#![tactic(auto)]

mod arg;
mod laws;
mod part;
mod rect;
mod source;
mod tiling;

pub use arg::Arg;
pub use laws::{
    gathered_cuts_are_cuts, grown_rectangles_hold_what_is_near, listed_tiles_are_those_met,
    parts_mark_their_overs, pasted_cuts_are_the_map, rectangles_list_their_places,
};
pub use part::Part;
pub use rect::Rect;
pub use source::TileSource;
pub use tiling::Tiling;
