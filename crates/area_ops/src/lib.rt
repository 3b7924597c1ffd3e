//! Operations over areas: the total, the average, the least and the greatest value of the cells of a class, how many
//! different values they have, which one is the most frequent, and how many cells there are, for each cell of the class. A map total is such an operation with one class everywhere.
//!
//! The cells of a map may be taken in parts: partials of the parts, merged in any order, are the partial of the map.
#![tactic(auto)]

mod counts;
mod laws;
mod leader;
mod partial;
mod results;
mod runs;
mod tally;

pub use laws::{a_map_is_one_area, the_order_of_places_does_not_matter};
pub use partial::Partial;
