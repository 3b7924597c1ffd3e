ghost use Rattle.std.specs.Prelude.{◌≡◌, IfErr, IfOk};
ghost use Rattle.drain_meaning.specs.Drains.{IsDrainMap};
ghost use Rattle.drain_meaning.specs.Paths.{IsSound};
ghost use Rattle.drain_check.specs.Checks.{IsRefused};

use crate::codes::Codes;
use crate::walk::order_of;
use cell_values::Cell;
use drain_meaning::Drain;
use std::alloc::{AllocError, AllocFailed, Global};

/// Why a drain map was not taken.
#[derive(Clone, Copy, Debug, PartialEq, Eq)]
pub enum CheckEnd {
    /// The map is not sound: this is the first place in row-major order whose path fails.
    Unsound {
        /// The place, counted from 0.
        place: u32,
    },
    /// No memory was left.
    Memory,
}

impl From<AllocError> for CheckEnd {
    ghost use Rattle.drain_check.specs.declared.check.CheckEnd.TheVariants.{Memory};

    ghost from_gives = { λ _ end. end ≡ Memory };

    fn from(_error: AllocError) -> CheckEnd {
        CheckEnd::Memory
    }
}

impl<T: Drop> From<AllocFailed<T>> for CheckEnd {
    ghost use Rattle.drain_check.specs.declared.check.CheckEnd.TheVariants.{Memory};

    ghost from_gives = { λ _ end. end ≡ Memory };

    fn from(_error: AllocFailed<T>) -> CheckEnd {
        CheckEnd::Memory
    }
}

/// The drain map of these codes, in row-major order, where it is sound. `Unsound` comes exactly where it is not.
pub fn check_drain(alloc: Global, rows: u32, cols: u32, cells: Vec<Cell>) -> Result<Drain, CheckEnd>
    requires { IsDrainMap (record { rows = rows; cols = cols; codes = cells.items }) }
    ensures value { IfOk result (λ drain. drain ≡ record { rows = rows; cols = cols; codes = cells.items }) }
    ensures sound { IfOk result (λ drain. IsSound drain) }
    ensures refused { IfErr result (IsRefused (record { rows = rows; cols = cols; codes = cells.items })) }
{
    let codes = Codes {
        rows,
        cols,
        cells: cells.as_slice(),
    };
    order_of(alloc, codes)?;
    Ok(Drain::of_sound(rows, cols, cells))
}
