//! A folder that finds no memory at one of its calls.

ghost use Rattle.std.specs.Prelude.{◌≡◌};
ghost use Rattle.outside_io.specs.MemFolder.{mem_folder_state};

use outside_io::{Folder, MemFolder, PutEnd, ReadEnd};
use std::alloc::Global;

/// A folder in memory that answers want of memory at one of its calls, counted from 1 over reads and puts.
#[derive(Drop)]
pub struct ScantFolder {
    pub folder: MemFolder,
    pub calls: u64,
    pub scant: u64,
}

impl ScantFolder {
    /// That folder, where the call of this number finds no memory; none where the number is 0.
    pub(crate) fn new(folder: MemFolder, scant: u64) -> ScantFolder {
        ScantFolder {
            folder,
            calls: 0,
            scant,
        }
    }

    // Counts a call, and answers whether it is to find no memory.
    fn is_scant(&mut self) -> bool
        ensures { self.new.folder ≡ self.old.folder }
    {
        self.calls = self.calls.saturating_add(1);
        self.calls == self.scant
    }
}

impl Folder for ScantFolder {
    ghost state = { λ scant. mem_folder_state scant.folder };

    fn read(&mut self, alloc: Global, name: &[u8], limit: u64) -> Result<Vec<u8>, ReadEnd> {
        if self.is_scant() {
            return Err(ReadEnd::Memory);
        }
        self.folder.read(alloc, name, limit)
    }

    fn put(&mut self, alloc: Global, name: &[u8], bytes: &[u8]) -> Result<(), PutEnd> {
        if self.is_scant() {
            return Err(PutEnd::Memory);
        }
        self.folder.put(alloc, name, bytes)
    }
}
