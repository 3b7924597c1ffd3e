ghost use Rattle.std.specs.Prelude.{◌≡◌, ◌<◌, length};
ghost use Rattle.drain_meaning.specs.Drains.{IsDrainMap};

use cell_values::Cell;
use drain_meaning::{Next, next_cell};

/// A drain map of which it is not known whether it is sound.
#[derive(Clone, Copy, Debug)]
pub(crate) struct Codes<'a> {
    pub rows: u32,
    pub cols: u32,
    pub cells: &'a [Cell],
}

impl<'a> Codes<'a> {
    ghost use Rattle.drain_check.specs.inside.Walks.{map_of};
    ghost use Rattle.drain_meaning.specs.Drains.{next_at};

    /// How many cells there are.
    pub fn count(self) -> u32
        requires { IsDrainMap (map_of self) }
        ensures { result ≡ length self.entry.cells.now }
    {
        self.cells.len() as u32
    }

    /// Where the cell at a place drains to.
    #[tactic(auto, unfolding(drain_meaning::specs::Drains::next_at))]
    pub fn next(self, place: u32) -> Next
        requires map { IsDrainMap (map_of self) }
        requires place { place < length self.cells.now }
        ensures { result ≡ next_at (map_of self.entry) place }
    {
        next_cell(self.rows, self.cols, place, self.cells[place as usize])
    }
}
