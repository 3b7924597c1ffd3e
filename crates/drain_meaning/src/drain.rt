ghost use Rattle.std.specs.Prelude.{◌≡◌, ◌<◌, length};
ghost use Rattle.drain_meaning.specs.Sound.{IsDrain};

use crate::next::{Next, next_cell};
use cell_values::{Cell, Cells};
use std::marker::Model;

/// A drain map that is sound: from each cell with a direction a path leads to a pit, within the map and over cells with a
/// direction alone.
#[derive(Debug, Drop)]
pub struct Drain {
    rows: u32,
    cols: u32,
    codes: Cells,
}

impl Model for Drain {
    ghost use Rattle.drain_meaning.specs.Drains.{DrainMap};
    ghost use Rattle.drain_meaning.specs.Sound.{IsDrain};

    ghost Value = { DrainMap };

    ghost view = { λ d. record { rows = d.rows; cols = d.cols; codes = d.codes } };

    ghost invariant = { λ d. IsDrain (record { rows = d.rows; cols = d.cols; codes = d.codes }) };
}

impl Drain {
    ghost use Rattle.drain_meaning.specs.Drains.{next_at};
    ghost use Rattle.tile_map.specs.Cuts.{cell_at};

    /// The drain map of these codes, in row-major order. Takes no memory.
    pub fn of_sound(rows: u32, cols: u32, cells: Vec<Cell>) -> Drain
        requires { IsDrain (record { rows = rows; cols = cols; codes = cells.items }) }
        ensures { result ≡ record { rows = rows; cols = cols; codes = cells.items } }
    {
        Drain {
            rows,
            cols,
            codes: Cells::from_vec(cells),
        }
    }

    /// How many rows there are.
    pub fn rows(&self) -> u32
        ensures { result ≡ self.now.rows }
    {
        self.rows
    }

    /// How many columns there are.
    pub fn cols(&self) -> u32
        ensures { result ≡ self.now.cols }
    {
        self.cols
    }

    /// The codes in row-major order.
    pub fn cells(&self) -> &[Cell]
        ensures value { result.now ≡ self.now.codes }
        ensures sound { IsDrain self.now }
    {
        self.codes.as_slice()
    }

    /// The code at a place.
    pub fn code(&self, place: u32) -> Cell
        requires { place < length self.now.codes }
        ensures { result ≡ cell_at self.now.codes place }
    {
        self.codes.as_slice()[place as usize]
    }

    /// Where the cell at a place drains to.
    #[tactic(auto, unfolding(crate::specs::Drains::next_at))]
    pub fn next(&self, place: u32) -> Next
        requires { place < length self.now.codes }
        ensures { result ≡ next_at self.now place }
    {
        next_cell(self.rows, self.cols, place, self.code(place))
    }
}
