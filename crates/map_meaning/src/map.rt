ghost use Rattle.std.specs.Prelude.{◌≡◌, IfOk};

use cell_values::{Cell, Cells};
use std::alloc::{AllocError, Global};
use std::marker::Model;
use std::sync::Arc;

/// A whole map that several may hold. Contracts see the list of its cells in row-major order.
#[derive(Drop)]
pub struct Map {
    shared: Arc<Cells>,
}

impl Model for Map {
    ghost use Rattle.std.specs.Prelude.{List};
    ghost use Rattle.cell_values.specs.declared.cell.Cell.{Cell};

    ghost Value = { List Cell };

    ghost view = { λ m. m.shared.value };
}

impl Map {
    /// The map of these cells.
    pub fn new(alloc: Global, cells: Cells) -> Result<Map, AllocError>
        ensures { IfOk result (λ map. map ≡ cells) }
    {
        Ok(Map {
            shared: Arc::new(alloc, cells)?,
        })
    }

    /// The same map, held once more; no cell is copied.
    pub fn share(&self) -> Result<Map, AllocError>
        ensures { IfOk result (λ map. map ≡ self.now) }
    {
        Ok(Map {
            shared: Arc::try_clone(&self.shared)?,
        })
    }

    /// The cells in row-major order.
    pub fn cells(&self) -> &[Cell]
        ensures { result.now ≡ self.now }
    {
        self.shared.as_slice()
    }
}
