ghost use Rattle.std.specs.Prelude.{◌≡◌};
ghost use Rattle.time_series.specs.declared.fault.ReadSeries.TheVariants.{Fault, Memory};

use std::alloc::{AllocError, AllocFailed};
use thiserror::Error;

/// What is wrong with a series' text.
#[derive(Clone, Copy, Debug, PartialEq, Eq, Error)]
pub enum SeriesKind {
    /// There is no line, no number of columns behind the title, or fewer names than columns.
    #[error("the head is at fault")]
    Title,
    /// A row has more or fewer columns than the head or the first row says.
    #[error("the number of columns is wrong")]
    Columns,
    /// A word of a row is no number.
    #[error("the word is no number")]
    BadNumber,
    /// A step is not whole or not from 1 to 2,147,483,647, or a value is none of the kind.
    #[error("the number is out of range")]
    Range,
    /// A step is not above that of the row before.
    #[error("the step is out of order")]
    Order,
}

/// The first fault of a series' text, and the number of its line, from 1.
#[derive(Clone, Copy, Debug, PartialEq, Eq, Error)]
#[error("{kind} in line {line}")]
pub struct SeriesFault {
    pub kind: SeriesKind,
    /// Counted over all lines, those of blanks alone too.
    pub line: u32,
}

/// Why a text was not read as a series.
#[derive(Clone, Copy, Debug, PartialEq, Eq, Error)]
pub enum ReadSeries {
    /// The text is no series of the kind.
    #[error(transparent)]
    Fault(SeriesFault),
    /// The memory did not suffice.
    #[error("out of memory")]
    Memory,
}

impl From<SeriesFault> for ReadSeries {
    ghost from_gives = { λ fault e. e ≡ Fault fault };

    fn from(fault: SeriesFault) -> ReadSeries {
        ReadSeries::Fault(fault)
    }
}

impl From<AllocError> for ReadSeries {
    ghost from_gives = { λ _ e. e ≡ Memory };

    fn from(_e: AllocError) -> ReadSeries {
        ReadSeries::Memory
    }
}

impl<T: Drop> From<AllocFailed<T>> for ReadSeries {
    ghost from_gives = { λ _ e. e ≡ Memory };

    fn from(_e: AllocFailed<T>) -> ReadSeries {
        ReadSeries::Memory
    }
}
