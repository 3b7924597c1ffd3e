ghost use Rattle.std.specs.Prelude.{◌≡◌, ◌<◌, ◌≤◌, length, take, Ok, Some, IfOk, IfSome, IsSomeAnd, MatchOption, MatchResult, OnOk};
ghost use Rattle.std.specs.declared.option.Option.{Option as TheOption};
ghost use Rattle.std.specs.FinMap.{get};
ghost use Rattle.std.specs.Io.KnownBytes.{Consumes, IsAtEnd, Keeps};
ghost use Rattle.std.specs.Prelude.{List, ℕ, None};
ghost use Rattle.outside_io.specs.declared.disk.DiskEnd.TheVariants as ends;
ghost use Rattle.outside_io.specs.Disk.{DiskState, PartOfFile, after_call, IsFileBegun, HoldsNoOther, HasMoreBytes, IsSeen, KeepsOthers, LiesThere, SameBut, put_end_of, read_end_of};

use crate::{PutEnd, ReadEnd};
use std::alloc::AllocError;

/// What stands under a name.
#[derive(Clone, Copy, Debug, PartialEq, Eq)]
pub enum Look {
    /// Nothing.
    Nothing,
    /// An ordinary file of so many bytes.
    File(u64),
    /// Something else, as a folder, a pipe or a device.
    Other,
}

/// Why a call did not succeed.
#[derive(Clone, Copy, Debug, PartialEq, Eq)]
pub enum DiskEnd {
    /// The system could not do it.
    Failed,
    /// No memory was left.
    Memory,
}

impl From<AllocError> for DiskEnd {
    ghost from_gives = { λ _ end. end ≡ ends.Memory };

    fn from(_: AllocError) -> DiskEnd {
        DiskEnd::Memory
    }
}

impl From<DiskEnd> for ReadEnd {
    ghost from_gives = { λ end read_end. read_end ≡ read_end_of end };

    fn from(end: DiskEnd) -> ReadEnd {
        match end {
            DiskEnd::Failed => ReadEnd::Failed,
            DiskEnd::Memory => ReadEnd::Memory,
        }
    }
}

impl From<DiskEnd> for PutEnd {
    ghost from_gives = { λ end put_end. put_end ≡ put_end_of end };

    fn from(end: DiskEnd) -> PutEnd {
        match end {
            DiskEnd::Failed => PutEnd::Failed,
            DiskEnd::Memory => PutEnd::Memory,
        }
    }
}

/// The disk under a folder: one call of the system each. A call that fails raises the count of faults by one, and no other
/// moves it; it stands still at its last value, 2^64 - 1.
pub trait Disk {
    /// A file that is read.
    type Reader: Drop;

    /// A file that is written.
    type Writer: Drop;

    /// What it tells: what it holds, where it knows that, and its count of faults.
    ghost state: { Self → DiskState };

    /// The bytes that a file has left, where they are told.
    ghost left: { Self.Reader → TheOption (List ℕ) };

    /// The name of a file that is written and the bytes that it was given, where they are told.
    ghost part: { Self.Writer → TheOption PartOfFile };

    /// Looks what stands under a name.
    fn look(&mut self, name: &str) -> Result<Look, DiskEnd>
        ensures answer { IfOk result (λ look. IfSome (state self.old).holds (λ held. IsSeen held name.now look)) }
        ensures keeps { (state self.new).holds ≡ (state self.old).holds }
        ensures counts { (state self.new).faults ≡ after_call (state self.old).faults result };

    /// Opens a file to be read, or tells that there is none.
    fn open(&mut self, name: &str) -> Result<Option<Self::Reader>, DiskEnd>
        requires { HoldsNoOther (state self.old).holds name.now }
        ensures answer { IfOk result (λ found. IfSome (state self.old).holds (λ held. MatchOption found
            (get held.files name.now ≡ None)
            (λ file. IsSomeAnd (get held.files name.now) (λ bytes. left file ≡ Some bytes)))) }
        ensures keeps { (state self.new).holds ≡ (state self.old).holds }
        ensures counts { (state self.new).faults ≡ after_call (state self.old).faults result };

    /// Reads what comes next into the front of the room, and tells how many bytes came. None come only at the end.
    fn read(&mut self, file: &mut Self::Reader, room: &mut [u8]) -> Result<usize, DiskEnd>
        requires { 0 < length room.old }
        ensures count { IfOk result (λ count. count ≤ length room.new) }
        ensures bytes { MatchResult result
            (λ count. Consumes (left file.old) (left file.new) (take count room.new))
            (λ _. Keeps (left file.old) (left file.new)) }
        ensures end { result ≡ Ok 0 → IsAtEnd (left file.new) }
        ensures keeps { (state self.new).holds ≡ (state self.old).holds }
        ensures counts { (state self.new).faults ≡ after_call (state self.old).faults result };

    /// Begins a file under a name, whether there was one or not. Until it is closed the name may hold anything.
    fn create(&mut self, name: &str) -> Result<Self::Writer, DiskEnd>
        requires { HoldsNoOther (state self.old).holds name.now }
        ensures answer { IfOk result (λ file. IsFileBegun (state self.old).holds name.now (part file)) }
        ensures keeps { SameBut name.now (state self.old).holds (state self.new).holds }
        ensures counts { (state self.new).faults ≡ after_call (state self.old).faults result };

    /// Writes all of these bytes behind those that were written. Where it fails, any of them may have been.
    fn write(&mut self, file: &mut Self::Writer, bytes: &[u8]) -> Result<(), DiskEnd>
        ensures answer { OnOk result (HasMoreBytes (part file.old) (part file.new) bytes.now) }
        ensures keeps { KeepsOthers (part file.old) (state self.old).holds (state self.new).holds }
        ensures counts { (state self.new).faults ≡ after_call (state self.old).faults result };

    /// Closes a file that was written. Only where that succeeds, all bytes went out.
    fn close(&mut self, file: Self::Writer) -> Result<(), DiskEnd>
        ensures answer { OnOk result (LiesThere (part file) (state self.old).holds (state self.new).holds) }
        ensures keeps { KeepsOthers (part file) (state self.old).holds (state self.new).holds }
        ensures counts { (state self.new).faults ≡ after_call (state self.old).faults result };
}
