use border_channel::Message;
use cell_values::Kind;
use drain_meaning::Drain;
use std::snapshot::Snapshot;
use tile_map::Tiling;

/// What a transport over a tile was begun with, and what has happened since.
#[derive(Drop)]
pub(crate) struct About {
    pub kind: Kind,
    pub drain: Snapshot<Drain>,
    pub tiling: Tiling,
    pub tile: u32,
    pub taken: Vec<Message>,
}
