ghost use Rattle.std.specs.Prelude.{◌≡◌};
ghost use Rattle.lookup_table.specs.declared.fault.ReadTable.TheVariants.{Fault, Memory};

use std::alloc::{AllocError, AllocFailed};
use thiserror::Error;

/// What is wrong with a line of a table.
#[derive(Clone, Copy, Debug, PartialEq, Eq, Error)]
pub enum TableKind {
    /// There are more or fewer columns than keys and a result.
    #[error("the number of columns is wrong")]
    Columns,
    /// A column is no number.
    #[error("the column is no number")]
    BadNumber,
    /// An interval is not closed in its line, or has not the form of one.
    #[error("the interval is malformed")]
    BadInterval,
    /// A number has no value: of scalars in a key, of the table's kind in a result.
    #[error("the number is out of range")]
    Range,
}

/// The first fault of a table's text, and the number of its line, from 1.
#[derive(Clone, Copy, Debug, PartialEq, Eq, Error)]
#[error("{kind} in line {line}")]
pub struct TableFault {
    pub kind: TableKind,
    /// Counted over all lines, those of blanks alone too.
    pub line: u32,
}

/// Why a text was not read as a table.
#[derive(Clone, Copy, Debug, PartialEq, Eq, Error)]
pub enum ReadTable {
    /// The text is no table of so many keys and of this kind.
    #[error(transparent)]
    Fault(TableFault),
    /// The memory did not suffice.
    #[error("out of memory")]
    Memory,
}

impl From<TableFault> for ReadTable {
    ghost from_gives = { λ fault e. e ≡ Fault fault };

    fn from(fault: TableFault) -> ReadTable {
        ReadTable::Fault(fault)
    }
}

impl From<AllocError> for ReadTable {
    ghost from_gives = { λ _ e. e ≡ Memory };

    fn from(_e: AllocError) -> ReadTable {
        ReadTable::Memory
    }
}

impl<T: Drop> From<AllocFailed<T>> for ReadTable {
    ghost from_gives = { λ _ e. e ≡ Memory };

    fn from(_e: AllocFailed<T>) -> ReadTable {
        ReadTable::Memory
    }
}
