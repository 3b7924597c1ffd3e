ghost use Rattle.std.specs.Prelude.{◌≡◌};
ghost use Rattle.run_session.specs.declared.ends.Halt.TheVariants as halt;
ghost use Rattle.run_session.specs.declared.ends.Stop.TheVariants as stop;

use cell_values::Word;
use grid_text::GridFault;
use lookup_table::TableFault;
use map_meaning::OverAt;
use script_syntax::SyntaxFault;
use script_types::MeaningFault;
use std::alloc::{AllocError, AllocFailed};
use time_series::SeriesFault;

/// What is wrong with an input.
#[derive(Clone, Copy, Debug, PartialEq, Eq)]
pub enum InputKind {
    /// The text is no grid: its first fault.
    Grid(GridFault),
    /// The text is no lookup table: its first fault.
    Table(TableFault),
    /// The text is no time series: its first fault.
    Series(SeriesFault),
    /// The grid has other numbers of rows and columns than the area map.
    Size { rows: u32, cols: u32 },
    /// The grid is a drain map that is not sound: the row and the column of its first place whose path fails, counted from 1.
    Unsound { row: u32, col: u32 },
}

/// What is wrong with a script.
#[derive(Clone, Copy, Debug, PartialEq, Eq)]
pub enum ScriptFault {
    /// The text is no script: its first fault.
    Syntax(SyntaxFault),
    /// The first fault of what the text means.
    Meaning(MeaningFault),
}

/// How the run of a script ended.
#[derive(Debug, Drop)]
pub enum SessionEnd {
    /// The script was run to its end: the number of files put, and that of the last step.
    Done { files: u64, steps: u32 },
    /// There is no file of this name.
    Missing(Word),
    /// The file is longer than a file of its sort may be.
    TooLong(Word),
    /// The script has a fault.
    Script(ScriptFault),
    /// The file of this name is no input as it is to be.
    Input { name: Word, kind: InputKind },
    /// The program is too large for the runner: the number that shows it.
    TooManyTasks(u64),
    /// A cell's result is out of range.
    Overflow(OverAt),
    /// The file could not be read.
    FolderReadFault(Word),
    /// The file could not be put.
    FolderWriteFault(Word),
    /// No memory was left.
    Memory,
}

/// Why the run of a script stopped before its end.
#[derive(Drop)]
pub enum Stop {
    /// There is no file of this name.
    Missing(Word),
    /// The file is longer than a file of its sort may be.
    TooLong(Word),
    /// The script has a fault.
    Script(ScriptFault),
    /// The file of this name is no input as it is to be.
    Input { name: Word, kind: InputKind },
    /// A cell's result is out of range.
    Overflow(OverAt),
    /// The file could not be read.
    FolderReadFault(Word),
    /// The file could not be put.
    FolderWriteFault(Word),
    /// No memory was left.
    Memory,
}

impl From<AllocError> for Stop {
    ghost from_gives = { λ _ e. e ≡ stop.Memory };

    fn from(_: AllocError) -> Stop {
        Stop::Memory
    }
}

impl<T: Drop> From<AllocFailed<T>> for Stop {
    ghost from_gives = { λ _ e. e ≡ stop.Memory };

    fn from(_: AllocFailed<T>) -> Stop {
        Stop::Memory
    }
}

/// Why a script was not run to its end.
#[derive(Drop)]
pub enum Halt {
    /// The program is too large for the runner: the number that shows it.
    TooManyTasks(u64),
    /// A part of the run stopped.
    Stopped(Stop),
}

impl From<Stop> for Halt {
    ghost from_gives = { λ at e. e ≡ halt.Stopped at };

    fn from(at: Stop) -> Halt {
        Halt::Stopped(at)
    }
}

impl From<AllocError> for Halt {
    ghost from_gives = { λ _ e. e ≡ halt.Stopped stop.Memory };

    fn from(_: AllocError) -> Halt {
        Halt::Stopped(Stop::Memory)
    }
}

/// What a run that came to its end has done: the number of files put, and that of the last step.
#[derive(Clone, Copy)]
pub struct Tally {
    pub files: u64,
    pub steps: u32,
}
