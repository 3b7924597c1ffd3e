//! What a task publishes, and the tile that a task is to publish.
#![tactic(auto)]

mod tile;

pub use tile::Tile;
