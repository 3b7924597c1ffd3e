ghost use Rattle.std.specs.Prelude.{◌≤◌, length, IfErr, IfOk};
ghost use Rattle.outside_io.specs.Runs.{putting, reading};
ghost use Rattle.outside_io.specs.inside.Parts.{seen_by};
ghost use Rattle.run_session.specs.Ends.{Missing, TooLong};
ghost use Rattle.run_session.specs.inside.Parts.{CutsOff, Makes};

use crate::ends::Stop;
use cell_values::Word;
use outside_io::{Folder, PutEnd, ReadEnd};
use std::alloc::Global;

/// The bytes of a file, at most `limit` of them, or the end of the run that has none.
pub fn fetch<F: Folder>(
    alloc: Global,
    folder: &mut F,
    name: &[u8],
    limit: u64,
) -> Result<Vec<u8>, Stop>
    ensures meets { Makes (reading Missing TooLong name.now limit)
        (F.state folder.old) (F.state folder.new) (seen_by (λ bytes. bytes.items) result) }
    ensures short { IfOk result (λ bytes. length bytes.items ≤ limit) }
{
    let Ok(word) = Word::new(alloc, name) else {
        return Err(Stop::Memory);
    };
    match folder.read(alloc, name, limit) {
        Ok(bytes) => Ok(bytes),
        Err(end) => {
            match end {
                ReadEnd::Absent => return Err(Stop::Missing(word)),
                ReadEnd::TooLong => return Err(Stop::TooLong(word)),
                ReadEnd::Failed => return Err(Stop::FolderReadFault(word)),
                ReadEnd::Memory => return Err(Stop::Memory),
            }
        }
    }
}

/// Puts a file, or the end of the run that could not.
pub fn store<F: Folder>(
    alloc: Global,
    folder: &mut F,
    name: &[u8],
    bytes: &[u8],
) -> Result<(), Stop>
    ensures meets { Makes (putting name.now bytes.now) (F.state folder.old) (F.state folder.new) result }
    ensures apart { IfErr result CutsOff }
{
    let Ok(word) = Word::new(alloc, name) else {
        return Err(Stop::Memory);
    };
    match folder.put(alloc, name, bytes) {
        Ok(()) => Ok(()),
        Err(end) => {
            match end {
                PutEnd::Failed => return Err(Stop::FolderWriteFault(word)),
                PutEnd::Memory => return Err(Stop::Memory),
            }
        }
    }
}
