ghost use Rattle.std.specs.Prelude.{◌≡◌, ◌<◌, ◌≤◌, [], length, take, Err, None, Ok, Some, IfOk, IfSome, IsSomeAnd, MatchOption, MatchResult, OnErr, OnOk};
ghost use Rattle.std.specs.FinMap.{get};
ghost use Rattle.std.specs.Io.KnownBytes.{Consumes, IsAtEnd, Keeps};
ghost use Rattle.outside_io.specs.Disk.{IsFileBegun, HasMoreBytes, IsSeen, KeepsOthers, LiesThere, SameBut, after_call, with_file};
ghost use Rattle.outside_io.specs.FailingCalls.{calls_made, failing_numbers};
ghost use Rattle.outside_io.specs.MemDisk.{CallFails, disk_calls, is_that, empty_disk, has_left, mem_disk_state, with_other, written_part};

use crate::failing_calls::FailingCalls;
use crate::mem_reader::MemReader;
use crate::{CalmFolder, Disk, DiskEnd, Look};
use std::alloc::{AllocError, Global};

/// A file that is written to a disk in memory.
#[derive(Drop)]
pub struct MemWriter {
    name: Vec<u8>,
    bytes: Vec<u8>,
}

/// A disk in memory, whose calls fail on demand. It tells what it holds. It is made for small disks.
#[derive(Drop)]
pub struct MemDisk {
    alloc: Global,
    files: CalmFolder,
    other: Option<Vec<u8>>,
    failing: FailingCalls,
    faults: u64,
}

impl MemDisk {
    /// A disk without files, none of whose calls is to fail.
    pub fn new(alloc: Global) -> MemDisk
        ensures state { mem_disk_state result ≡ empty_disk }
        ensures made { calls_made (disk_calls result) ≡ 0 }
        ensures numbers { failing_numbers (disk_calls result) ≡ [] }
    {
        MemDisk {
            alloc,
            files: CalmFolder::new(alloc),
            other: None,
            failing: FailingCalls::new(),
            faults: 0,
        }
    }

    /// Sets the bytes of a file, which is no call.
    pub fn hold(&mut self, name: &[u8], bytes: &[u8]) -> Result<(), AllocError>
        ensures ok { OnOk result ((mem_disk_state self.new).holds ≡ with_file (mem_disk_state self.old).holds name.now bytes.now) }
        ensures err { OnErr result ((mem_disk_state self.new).holds ≡ (mem_disk_state self.old).holds) }
        ensures faults { (mem_disk_state self.new).faults ≡ (mem_disk_state self.old).faults }
        ensures calls { disk_calls self.new ≡ disk_calls self.old }
    {
        self.files.hold(self.alloc, name, bytes)
    }

    /// From now on something else than a file stands under this name, and under no other.
    pub fn block(&mut self, name: Vec<u8>)
        ensures state { mem_disk_state self.new ≡ with_other (mem_disk_state self.old) name.items }
        ensures calls { disk_calls self.new ≡ disk_calls self.old }
    {
        self.other = Some(name);
    }

    /// From now on these calls are to fail, and no others. Calls are counted from 1, from the making of the disk on.
    pub fn fail_on(&mut self, calls: Vec<u64>)
        ensures state { mem_disk_state self.new ≡ mem_disk_state self.old }
        ensures made { calls_made (disk_calls self.new) ≡ calls_made (disk_calls self.old) }
        ensures numbers { failing_numbers (disk_calls self.new) ≡ calls.items }
    {
        self.failing.set(calls);
    }

    // Counts a call, and fails where it is to fail.
    fn call(&mut self) -> Result<(), DiskEnd>
        ensures holds { (mem_disk_state self.new).holds ≡ (mem_disk_state self.old).holds }
        ensures files { self.new.files ≡ self.old.files }
        ensures other { self.new.other ≡ self.old.other }
        ensures counts { (mem_disk_state self.new).faults ≡ after_call (mem_disk_state self.old).faults result }
        ensures calls { CallFails (disk_calls self.old) (disk_calls self.new) result }
        ensures memory { result ≡ Err DiskEnd.Memory → ⊥ }
    {
        if self.failing.fails_next() {
            self.faults = self.faults.saturating_add(1);
            return Err(DiskEnd::Failed);
        }
        Ok(())
    }
}

impl Disk for MemDisk {
    type Reader = MemReader;

    type Writer = MemWriter;

    ghost state = { mem_disk_state };

    ghost left = { has_left };

    ghost part = { written_part };

    fn look(&mut self, name: &str) -> Result<Look, DiskEnd>
        ensures answer { IfOk result (λ look. IfSome (mem_disk_state self.old).holds (λ held. IsSeen held name.now look)) }
        ensures keeps { (mem_disk_state self.new).holds ≡ (mem_disk_state self.old).holds }
        ensures counts { (mem_disk_state self.new).faults ≡ after_call (mem_disk_state self.old).faults result }
        ensures calls { CallFails (disk_calls self.old) (disk_calls self.new) result }
    {
        self.call()?;
        if is_name(&self.other, name.as_bytes()) {
            return Ok(Look::Other);
        }
        match self.files.held(name.as_bytes()) {
            Some(bytes) => Ok(Look::File(bytes.len() as u64)),
            None => Ok(Look::Nothing),
        }
    }

    fn open(&mut self, name: &str) -> Result<Option<MemReader>, DiskEnd>
        ensures answer { IfOk result (λ found. IfSome (mem_disk_state self.old).holds (λ held. MatchOption found
            (get held.files name.now ≡ None)
            (λ file. IsSomeAnd (get held.files name.now) (λ bytes. has_left file ≡ Some bytes)))) }
        ensures keeps { (mem_disk_state self.new).holds ≡ (mem_disk_state self.old).holds }
        ensures counts { (mem_disk_state self.new).faults ≡ after_call (mem_disk_state self.old).faults result }
        ensures calls { CallFails (disk_calls self.old) (disk_calls self.new) result }
    {
        self.call()?;
        match self.files.held(name.as_bytes()) {
            Some(bytes) => {
                let bytes = Vec::from_slice(self.alloc, bytes)?;
                Ok(Some(MemReader::new(bytes)))
            }
            None => Ok(None),
        }
    }

    fn read(&mut self, file: &mut MemReader, room: &mut [u8]) -> Result<usize, DiskEnd>
        requires { 0 < length room.old }
        ensures count { IfOk result (λ count. count ≤ length room.new) }
        ensures bytes { MatchResult result
            (λ count. Consumes (has_left file.old) (has_left file.new) (take count room.new))
            (λ _. Keeps (has_left file.old) (has_left file.new)) }
        ensures end { result ≡ Ok 0 → IsAtEnd (has_left file.new) }
        ensures keeps { (mem_disk_state self.new).holds ≡ (mem_disk_state self.old).holds }
        ensures counts { (mem_disk_state self.new).faults ≡ after_call (mem_disk_state self.old).faults result }
        ensures calls { CallFails (disk_calls self.old) (disk_calls self.new) result }
    {
        self.call()?;
        Ok(file.next(room))
    }

    fn create(&mut self, name: &str) -> Result<MemWriter, DiskEnd>
        ensures answer { IfOk result (λ file. IsFileBegun (mem_disk_state self.old).holds name.now (written_part file)) }
        ensures keeps { SameBut name.now (mem_disk_state self.old).holds (mem_disk_state self.new).holds }
        ensures counts { (mem_disk_state self.new).faults ≡ after_call (mem_disk_state self.old).faults result }
        ensures calls { CallFails (disk_calls self.old) (disk_calls self.new) result }
    {
        self.call()?;
        let file = MemWriter {
            name: Vec::from_slice(self.alloc, name.as_bytes())?,
            bytes: Vec::new(self.alloc),
        };
        self.hold(name.as_bytes(), &[])?;
        Ok(file)
    }

    fn write(&mut self, file: &mut MemWriter, bytes: &[u8]) -> Result<(), DiskEnd>
        ensures answer { OnOk result (HasMoreBytes (written_part file.old) (written_part file.new) bytes.now) }
        ensures keeps { KeepsOthers (written_part file.old) (mem_disk_state self.old).holds (mem_disk_state self.new).holds }
        ensures counts { (mem_disk_state self.new).faults ≡ after_call (mem_disk_state self.old).faults result }
        ensures calls { CallFails (disk_calls self.old) (disk_calls self.new) result }
    {
        self.call()?;
        Ok(file.bytes.extend_from_slice(bytes)?)
    }

    fn close(&mut self, file: MemWriter) -> Result<(), DiskEnd>
        ensures answer { OnOk result (LiesThere (written_part file) (mem_disk_state self.old).holds (mem_disk_state self.new).holds) }
        ensures keeps { KeepsOthers (written_part file) (mem_disk_state self.old).holds (mem_disk_state self.new).holds }
        ensures counts { (mem_disk_state self.new).faults ≡ after_call (mem_disk_state self.old).faults result }
        ensures calls { CallFails (disk_calls self.old) (disk_calls self.new) result }
    {
        self.call()?;
        Ok(self.hold(file.name.as_slice(), file.bytes.as_slice())?)
    }
}

// Whether the name is there and is this one.
fn is_name(name: &Option<Vec<u8>>, other: &[u8]) -> bool
    ensures { result ≡ is_that name.now other.now }
{
    match name {
        Some(name) => name.as_slice() == other,
        None => false,
    }
}
