use cell_values::Word;
use map_meaning::OverAt;
use run_session::{InputKind, ScriptFault};

/// How a call of the program ended.
#[derive(Debug, Drop)]
pub enum Ended {
    /// The script was run to its end: the number of files put, and that of the last step.
    Done { files: u64, steps: u32 },
    /// A model was made: the number of files put.
    Made { files: u64 },
    /// The words are no command.
    Usage,
    /// There is no file of this name.
    Missing(Word),
    /// The file is longer than a file of its sort may be.
    TooLong(Word),
    /// The script has a fault.
    Script(ScriptFault),
    /// The file of this name is no input as it is to be.
    Input { name: Word, kind: InputKind },
    /// The script has too many tasks for the runner: the number that shows it.
    TooManyTasks(u64),
    /// A cell's result is out of range.
    Overflow(OverAt),
    /// The file could not be read.
    FolderReadFault(Word),
    /// The file could not be put.
    FolderWriteFault(Word),
    /// The line of the call's end could not be written; the status of that end.
    OutFault { instead: u8 },
    /// No memory was left.
    Memory,
}
