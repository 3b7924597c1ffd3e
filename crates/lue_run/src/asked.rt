ghost use Rattle.std.specs.Prelude.{◌<◌, ◌≤◌};
ghost use Rattle.tile_map.specs.Limits.{longest_tile_side};

use cell_values::Word;

/// Tiles of a size, in cells, and how many workers compute them.
#[derive(Clone, Copy)]
pub struct Tiles {
    pub rows: u32,
    pub cols: u32,
    pub workers: u32,
    ghost some_workers: { 0 < workers },
    ghost few_workers: { workers ≤ 64 },
    ghost some_rows: { 0 < rows },
    ghost some_cols: { 0 < cols },
    ghost few_rows: { rows ≤ longest_tile_side },
    ghost few_cols: { cols ≤ longest_tile_side },
}

/// What the words of a call over whole maps ask for.
pub enum Asked<'a> {
    /// To run the script of this name over whole maps.
    Plain(&'a Word),
    /// To make the model of this number.
    Make(u32),
}

/// A run of a script by tiles, as words ask for it.
#[derive(Clone, Copy)]
pub struct AskedTiles<'a> {
    /// The name of the script.
    pub script: &'a Word,
    pub tiles: Tiles,
}
