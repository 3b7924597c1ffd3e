//! A large model on demand: a drain map, zones, soils and a series of rain, with a script that runs over them.
//!
//! All that varies is drawn from a number, so the files of one number are the same everywhere. A map has 512 rows and
//! 512 columns, and its places are counted from 0, in row-major order.
#![tactic(auto)]

mod cells;
mod draws;
mod files;
mod laws;
mod rain;
mod script;

pub use files::{DrawnModel, Made, make_model};
pub use laws::made_drain_maps_are_sound;
