ghost use Rattle.std.specs.Prelude.{◌≡◌, ◌<◌, ◌↔◌, [], length, slice_get, IsSomeAnd, IsTrue, OnOk, OnErr, IsErrOf, MatchResult};
ghost use Rattle.outside_io.specs.State.{IsFound, ReadKeeps, IsPut, PutKeeps};
ghost use Rattle.outside_io.specs.Refusals.{ReadRefused, PutRefused};
ghost use Rattle.outside_io.specs.Counts.{counts_of, after_read, after_put};
ghost use Rattle.outside_io.specs.CalmFolder.{untouched, holding};
ghost use Rattle.outside_io.specs.MemFolder.{mem_folder_state, mem_puts, folder_calls, after_failed_read, after_failed_put};
ghost use Rattle.outside_io.specs.FailingCalls.{calls_made, failing_numbers, is_next_failing, CallMade};

use crate::failing_calls::FailingCalls;
use crate::{CalmFolder, Folder, PutEnd, ReadEnd};
use std::alloc::{AllocError, Global};

/// A folder in memory whose calls fail on demand. It tells all: its files, the puts that succeeded, and its counts.
///
/// A call that is to fail does nothing but raise its count.
#[derive(Drop)]
pub struct MemFolder {
    calm: CalmFolder,
    failing: FailingCalls,
    read_faults: u64,
    put_faults: u64,
}

impl MemFolder {
    /// A folder without files, none of whose calls is to fail.
    pub fn new(alloc: Global) -> MemFolder
        ensures state { mem_folder_state result ≡ untouched }
        ensures made { calls_made (folder_calls result) ≡ 0 }
        ensures numbers { failing_numbers (folder_calls result) ≡ [] }
    {
        MemFolder {
            calm: CalmFolder::new(alloc),
            failing: FailingCalls::new(),
            read_faults: 0,
            put_faults: 0,
        }
    }

    /// Sets the bytes of a file, which is no put and no call. Where there is no memory the folder is as before.
    pub fn hold(&mut self, alloc: Global, name: &[u8], bytes: &[u8]) -> Result<(), AllocError>
        ensures ok { OnOk result (mem_folder_state self.new ≡ holding (mem_folder_state self.old) name.now bytes.now) }
        ensures err { OnErr result (mem_folder_state self.new ≡ mem_folder_state self.old) }
        ensures made { calls_made (folder_calls self.new) ≡ calls_made (folder_calls self.old) }
        ensures numbers { failing_numbers (folder_calls self.new) ≡ failing_numbers (folder_calls self.old) }
    {
        self.calm.hold(alloc, name, bytes)
    }

    /// From now on these calls are to fail, and no others. Calls are counted from 1 over reads and puts together, from
    /// the making of the folder on.
    pub fn fail_on(&mut self, calls: Vec<u64>)
        ensures state { mem_folder_state self.new ≡ mem_folder_state self.old }
        ensures made { calls_made (folder_calls self.new) ≡ calls_made (folder_calls self.old) }
        ensures numbers { failing_numbers (folder_calls self.new) ≡ calls.items }
    {
        self.failing.set(calls);
    }

    /// How many puts succeeded.
    pub fn put_count(&self) -> u64
        ensures { result ≡ length (mem_puts self.now) }
    {
        self.calm.puts().len() as u64
    }

    /// The name of a put that succeeded, counted from 0.
    pub fn put_name(&self, i: u64) -> &[u8]
        requires { i < length (mem_puts self.now) }
        ensures { IsSomeAnd (slice_get (mem_puts self.now) i) (λ put. put.0 ≡ result.now) }
    {
        self.calm.puts()[i as usize].name()
    }

    /// The bytes of a put that succeeded, counted from 0.
    pub fn put_bytes(&self, i: u64) -> &[u8]
        requires { i < length (mem_puts self.now) }
        ensures { IsSomeAnd (slice_get (mem_puts self.now) i) (λ put. put.1 ≡ result.now) }
    {
        self.calm.puts()[i as usize].bytes()
    }
}

impl Folder for MemFolder {
    ghost state = { mem_folder_state };

    fn read(&mut self, alloc: Global, name: &[u8], limit: u64) -> Result<Vec<u8>, ReadEnd>
        ensures answer { MatchResult result
            (λ bytes. IsFound (mem_folder_state self.old) name.now limit bytes.items)
            (ReadRefused (mem_folder_state self.old) (mem_folder_state self.new) name.now limit) }
        ensures keeps { ReadKeeps (mem_folder_state self.old) (mem_folder_state self.new) }
        ensures counts { counts_of (mem_folder_state self.new) ≡ after_read (counts_of (mem_folder_state self.old)) result }
        ensures fails { IsErrOf result ReadEnd.Failed ↔ IsTrue (is_next_failing (folder_calls self.old)) }
        ensures failed { IsErrOf result ReadEnd.Failed → mem_folder_state self.new ≡ after_failed_read (mem_folder_state self.old) }
        ensures counted { CallMade (folder_calls self.old) (folder_calls self.new) }
    {
        if self.failing.fails_next() {
            self.read_faults = self.read_faults.saturating_add(1);
            return Err(ReadEnd::Failed);
        }
        self.calm.read(alloc, name, limit)
    }

    fn put(&mut self, alloc: Global, name: &[u8], bytes: &[u8]) -> Result<(), PutEnd>
        ensures answer { MatchResult result
            (λ _. IsPut (mem_folder_state self.old) (mem_folder_state self.new) name.now bytes.now)
            (PutRefused (mem_folder_state self.old) (mem_folder_state self.new) name.now) }
        ensures keeps { PutKeeps (mem_folder_state self.old) (mem_folder_state self.new) }
        ensures counts { counts_of (mem_folder_state self.new) ≡ after_put (counts_of (mem_folder_state self.old)) result }
        ensures fails { IsErrOf result PutEnd.Failed ↔ IsTrue (is_next_failing (folder_calls self.old)) }
        ensures failed { IsErrOf result PutEnd.Failed → mem_folder_state self.new ≡ after_failed_put (mem_folder_state self.old) }
        ensures counted { CallMade (folder_calls self.old) (folder_calls self.new) }
    {
        if self.failing.fails_next() {
            self.put_faults = self.put_faults.saturating_add(1);
            return Err(PutEnd::Failed);
        }
        self.calm.put(alloc, name, bytes)
    }
}
