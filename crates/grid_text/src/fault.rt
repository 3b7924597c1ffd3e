ghost use Rattle.std.specs.Prelude.{◌≡◌};
ghost use Rattle.grid_text.specs.declared.fault.ReadGrid.TheVariants.{Fault, Memory};

use std::alloc::{AllocError, AllocFailed};
use thiserror::Error;

/// What is wrong with a grid text.
#[derive(Clone, Copy, Debug, PartialEq, Eq, Error)]
pub enum GridKind {
    /// A key word stands twice, has no value or none that it may have, or lacks.
    #[error("the head is at fault")]
    Head,
    /// A token of a cell is no decimal and stands for no missing cell.
    #[error("the cell is no number")]
    BadNumber,
    /// A cell is a decimal without a value of the kind.
    #[error("the cell is out of range")]
    Range,
    /// There are too many cells or too few.
    #[error("the number of cells is wrong")]
    Count,
}

/// The first fault of a grid text, and its byte place from 0.
#[derive(Clone, Copy, Debug, PartialEq, Eq, Error)]
#[error("{kind} at byte {at}")]
pub struct GridFault {
    pub kind: GridKind,
    /// The first byte of the token that is at fault, or the text's length where a token is missing.
    pub at: u64,
}

/// Why a text was not read as a grid.
#[derive(Clone, Copy, Debug, PartialEq, Eq, Error)]
pub enum ReadGrid {
    /// The text is no grid of the kind.
    #[error(transparent)]
    Fault(GridFault),
    /// The memory did not suffice.
    #[error("out of memory")]
    Memory,
}

impl From<GridFault> for ReadGrid {
    ghost from_gives = { λ fault e. e ≡ Fault fault };

    fn from(fault: GridFault) -> ReadGrid {
        ReadGrid::Fault(fault)
    }
}

impl From<AllocError> for ReadGrid {
    ghost from_gives = { λ _ e. e ≡ Memory };

    fn from(_e: AllocError) -> ReadGrid {
        ReadGrid::Memory
    }
}

impl<T: Drop> From<AllocFailed<T>> for ReadGrid {
    ghost from_gives = { λ _ e. e ≡ Memory };

    fn from(_e: AllocFailed<T>) -> ReadGrid {
        ReadGrid::Memory
    }
}
