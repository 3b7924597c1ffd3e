ghost use Rattle.std.specs.Prelude.{◌≡◌};
ghost use Rattle.outside_io.specs.Causes.{outcome_by, why_by};
ghost use Rattle.outside_io.specs.Counts.{counts_of};
ghost use Rattle.outside_io.specs.Met.{Meets};
ghost use Rattle.outside_io.specs.Puts.{after_puts, file_run, files_run, no_error, outcome_of_put};

use crate::{Folder, PutEnd};
use std::alloc::Global;

/// A file to be put: its name and its bytes.
#[derive(Drop)]
pub struct NewFile {
    pub name: Vec<u8>,
    pub bytes: Vec<u8>,
}

/// Why not all of the files were put.
#[derive(Clone, Copy)]
pub enum NotAllPut<'a> {
    /// The system could not write this one. It may then hold anything.
    Failed(&'a NewFile),
    /// No memory was left.
    Memory,
}

// Puts one file.
fn put_one<'a, F: Folder>(
    alloc: Global,
    folder: &mut F,
    file: &'a NewFile,
) -> Result<(), NotAllPut<'a>>
    ensures meets { Meets (why_by no_error) (file_run tt file.now) (F.state folder.old) (F.state folder.new) (outcome_by outcome_of_put result) }
    ensures counts { counts_of (F.state folder.new) ≡ after_puts (counts_of (F.state folder.old)) result }
{
    match folder.put(alloc, file.name.as_slice(), file.bytes.as_slice()) {
        Ok(()) => Ok(()),
        Err(PutEnd::Failed) => Err(NotAllPut::Failed(file)),
        Err(PutEnd::Memory) => Err(NotAllPut::Memory),
    }
}

/// Puts files, in order, and stops at the first that is not put. None whose put failed is tried again.
pub fn put_in_turn<'a, F: Folder>(
    alloc: Global,
    folder: &mut F,
    files: &'a [NewFile],
) -> Result<(), NotAllPut<'a>>
    ensures meets { Meets (why_by no_error) (files_run files.now) (F.state folder.old) (F.state folder.new) (outcome_by outcome_of_put result) }
    ensures counts { counts_of (F.state folder.new) ≡ after_puts (counts_of (F.state folder.old)) result }
{
    for file in files {
        put_one(alloc, folder, file)?;
    }
    Ok(())
}
