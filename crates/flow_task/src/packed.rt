//! Cells in less memory.

ghost use Rattle.std.specs.Prelude.{◌≡◌, ℕ, ◌<◌, IfOk, length};
ghost use Rattle.cell_values.specs.Kinds.{IsCell};
ghost use Rattle.cell_values.specs.declared.kind.Kind.TheVariants.{Scalar};
ghost use Rattle.flow_task.specs.inside.Packed.{packed_number, unpacked_cell};
ghost use Rattle.tile_map.specs.Cuts.{cell_at};

use cell_values::Cell;
use std::alloc::{AllocError, Global};
use std::marker::Model;

/// Cells within the range of scalars in eight bytes each in place of sixteen: a number below that range stands for a missing
/// one. Contracts see the list of cells.
#[derive(Drop)]
pub(crate) struct PackedCells {
    numbers: Vec<i64>,
}

impl Model for PackedCells {
    ghost use Rattle.std.specs.Prelude.{List, map};
    ghost use Rattle.cell_values.specs.declared.cell.Cell.{Cell as TheCell};
    ghost use Rattle.flow_task.specs.inside.Packed.{unpacked_cell};

    ghost Value = { List TheCell };

    ghost view = { λ p. map unpacked_cell p.numbers.items };
}

// The number that is kept of a cell.
fn packed_number(cell: Cell) -> i64
    ensures { result ≡ packed_number cell }
{
    match cell {
        Cell::Mv => i64::MIN,
        Cell::Val(number) => number,
    }
}

// The cell of which a number is kept.
fn unpacked_cell(number: i64) -> Cell
    ensures { result ≡ unpacked_cell number }
{
    if number == i64::MIN {
        Cell::Mv
    } else {
        Cell::Val(number)
    }
}

impl PackedCells {
    /// These cells.
    pub fn pack(alloc: Global, cells: &[Cell]) -> Result<PackedCells, AllocError>
        requires { (i : ℕ) → IsCell Scalar (cell_at cells.now i) }
        ensures { IfOk result (λ packed. packed ≡ cells.now) }
    {
        let mut numbers = Vec::with_capacity(alloc, cells.len())?;
        for cell in cells {
            numbers.push(packed_number(*cell))?;
        }
        Ok(PackedCells { numbers })
    }

    /// The cell at a place of the list.
    pub fn at(&self, place: usize) -> Cell
        requires { place < length self.now }
        ensures { result ≡ cell_at self.now place }
    {
        unpacked_cell(self.numbers[place])
    }
}
