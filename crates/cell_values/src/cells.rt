ghost use Rattle.std.specs.Prelude.{◌≡◌, length};

use crate::cell::Cell;
use std::marker::Model;

/// The cells of a map or of a part of one, in row-major order. Contracts see the list of the cells.
#[derive(Debug, Drop)]
pub struct Cells {
    items: Vec<Cell>,
}

impl Model for Cells {
    ghost use Rattle.std.specs.Prelude.{List};
    ghost use Rattle.cell_values.specs.declared.cell.Cell.{Cell};

    ghost Value = { List Cell };

    ghost view = { λ c. c.items.items };
}

impl Cells {
    /// These cells; takes no memory.
    pub fn from_vec(items: Vec<Cell>) -> Cells
        ensures { result ≡ items.items }
    {
        Cells { items }
    }

    /// The cells as a `Vec`; takes no memory.
    pub fn into_vec(self) -> Vec<Cell>
        ensures { result.items ≡ self }
    {
        let Cells { items } = self;
        items
    }

    /// The cells in row-major order.
    pub fn as_slice(&self) -> &[Cell]
        ensures { result.now ≡ self.now }
    {
        self.items.as_slice()
    }

    /// How many cells there are.
    pub fn len(&self) -> usize
        ensures { result ≡ length self.now }
    {
        self.items.len()
    }
}
