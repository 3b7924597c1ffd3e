ghost use Rattle.std.specs.Prelude.{◌≡◌};
ghost use Rattle.lue_run.specs.Lines.{status_of};

use crate::ended::Ended;

/// The exit status of an answer.
pub fn status(end: &Ended) -> u8
    ensures { result ≡ status_of end.now }
{
    match end {
        Ended::Done { .. } | Ended::Made { .. } => 0,
        Ended::Usage => 2,
        Ended::Script(_) => 3,
        Ended::Missing(_) | Ended::TooLong(_) | Ended::Input { .. } => 4,
        Ended::Overflow(_) => 5,
        Ended::TooManyTasks(_) => 6,
        Ended::FolderReadFault(_) => 7,
        Ended::FolderWriteFault(_) => 8,
        Ended::OutFault { .. } => 9,
        Ended::Memory => 10,
    }
}
