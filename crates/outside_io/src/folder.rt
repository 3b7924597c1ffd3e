ghost use Rattle.std.specs.Prelude.{◌≡◌, MatchResult};
ghost use Rattle.outside_io.specs.State.{FolderState, IsFound, ReadKeeps, IsPut, PutKeeps};
ghost use Rattle.outside_io.specs.Refusals.{ReadRefused, PutRefused};
ghost use Rattle.outside_io.specs.Counts.{counts_of, after_read, after_put};
ghost use Rattle.outside_io.specs.declared.folder.ReadEnd.TheVariants as reads;
ghost use Rattle.outside_io.specs.declared.folder.PutEnd.TheVariants as puts;

use std::alloc::{AllocError, AllocFailed, Global};

/// Why a read gave no bytes.
#[derive(Clone, Copy, Debug, PartialEq, Eq)]
pub enum ReadEnd {
    /// The folder holds no file of that name.
    Absent,
    /// The file is longer than the limit.
    TooLong,
    /// The system could not read it.
    Failed,
    /// No memory was left.
    Memory,
}

/// Why a put did not succeed. That one name may then hold anything.
#[derive(Clone, Copy, Debug, PartialEq, Eq)]
pub enum PutEnd {
    /// The system could not write it.
    Failed,
    /// No memory was left.
    Memory,
}

impl From<AllocError> for ReadEnd {
    ghost from_gives = { λ _ end. end ≡ reads.Memory };

    fn from(_: AllocError) -> ReadEnd {
        ReadEnd::Memory
    }
}

impl From<AllocError> for PutEnd {
    ghost from_gives = { λ _ end. end ≡ puts.Memory };

    fn from(_: AllocError) -> PutEnd {
        PutEnd::Memory
    }
}

impl<T: Drop> From<AllocFailed<T>> for PutEnd {
    ghost from_gives = { λ _ end. end ≡ puts.Memory };

    fn from(_: AllocFailed<T>) -> PutEnd {
        PutEnd::Memory
    }
}

/// Files under names that are lists of bytes: all that a run reads and writes, but for its one line.
///
/// Every failure raises a count: absent files, files beyond the limit, faults of reads and faults of puts.
/// A call raises the count of its answer by one, and no other; each stands still at its last value, 2^64 - 1.
pub trait Folder {
    /// What it tells: the files that it holds and the puts that succeeded, where it knows them, and its counts.
    ghost state: { Self → FolderState };

    /// The bytes of the file of that name, at most `limit` of them. A read changes no file.
    fn read(&mut self, alloc: Global, name: &[u8], limit: u64) -> Result<Vec<u8>, ReadEnd>
        ensures answer { MatchResult result
            (λ bytes. IsFound (state self.old) name.now limit bytes.items)
            (ReadRefused (state self.old) (state self.new) name.now limit) }
        ensures keeps { ReadKeeps (state self.old) (state self.new) }
        ensures counts { counts_of (state self.new) ≡ after_read (counts_of (state self.old)) result };

    /// Sets the bytes of the file of that name, whether it was there or not.
    fn put(&mut self, alloc: Global, name: &[u8], bytes: &[u8]) -> Result<(), PutEnd>
        ensures answer { MatchResult result
            (λ _. IsPut (state self.old) (state self.new) name.now bytes.now)
            (PutRefused (state self.old) (state self.new) name.now) }
        ensures keeps { PutKeeps (state self.old) (state self.new) }
        ensures counts { counts_of (state self.new) ≡ after_put (counts_of (state self.old)) result };
}
