ghost use Rattle.std.specs.Prelude.{◌≡◌, ◌⊎◌, ◌↔◌, ◌+◌, ◌<◌, ◌≤◌, length, take, Err, IfErr, IfOk, IfSome, Ok, IsErrOf, MatchOption, MatchResult};
ghost use Rattle.std.specs.Io.KnownBytes.{Consumes, IsAtEnd, Keeps};
ghost use Rattle.outside_io.specs.State.{IsFound, ReadKeeps, IsPut, PutKeeps};
ghost use Rattle.outside_io.specs.Refusals.{ReadRefused, PutRefused};
ghost use Rattle.outside_io.specs.Counts.{counts_of, after_read, after_put, no_counts};
ghost use Rattle.outside_io.specs.Disk.{HoldsNoOther, SameBut};
ghost use Rattle.outside_io.specs.FileFolder.{FailedFor, NamesNoFile, disk_under, file_folder_state, nothing_happened};
ghost use Rattle.outside_io.specs.SystemDisk.{system_disk_state};
ghost use Rattle.outside_io.specs.inside.Calls.{HasPut, HasRead, IsLongerThan, NotRead, WhyNotPut, WhyNotWritten, after_reads};
ghost use Rattle.outside_io.specs.inside.Reading.{TakesAtMost};

use crate::{Disk, DiskEnd, Folder, Look, PutEnd, ReadEnd, SystemDisk};
use std::alloc::{AllocError, Global};
use std::rt::Files;

/// How many bytes of a file are read at a time.
const CHUNK: usize = 65_536;

/// The files of a disk. It tells its counts, and the files that the disk holds where this tells them.
///
/// A name that is no text, or has a slash in it, names no file here: it counts as a fault. So does a folder, a pipe
/// or a device under the name: it is neither read nor written.
#[derive(Drop)]
pub struct FileFolder<D: Drop> {
    disk: D,
    read_faults: u64,
    put_faults: u64,
    absents: u64,
    overlongs: u64,
}

impl<R: Files + Drop> FileFolder<SystemDisk<R>> {
    /// The current folder of the system.
    pub fn here(rt: R) -> FileFolder<SystemDisk<R>>
        ensures { file_folder_state system_disk_state result ≡ nothing_happened }
    {
        FileFolder::new(SystemDisk::here(rt))
    }
}

impl<D: Disk + Drop> FileFolder<D> {
    /// The files of this disk.
    pub fn new(disk: D) -> FileFolder<D>
        ensures disk { disk_under D.state result ≡ D.state disk }
        ensures counts { counts_of (file_folder_state D.state result) ≡ no_counts }
    {
        FileFolder {
            disk,
            read_faults: 0,
            put_faults: 0,
            absents: 0,
            overlongs: 0,
        }
    }
}

impl<D: Disk + Drop> Folder for FileFolder<D> {
    ghost state = { file_folder_state D.state };

    fn read(&mut self, alloc: Global, name: &[u8], limit: u64) -> Result<Vec<u8>, ReadEnd>
        ensures answer { MatchResult result
            (λ bytes. IsFound (file_folder_state D.state self.old) name.now limit bytes.items)
            (ReadRefused (file_folder_state D.state self.old) (file_folder_state D.state self.new) name.now limit) }
        ensures keeps { ReadKeeps (file_folder_state D.state self.old) (file_folder_state D.state self.new) }
        ensures counts { counts_of (file_folder_state D.state self.new) ≡ after_read (counts_of (file_folder_state D.state self.old)) result }
        ensures nameless { NamesNoFile name.now → IsErrOf result ReadEnd.Failed }
        ensures failed { IsErrOf result ReadEnd.Failed → FailedFor (disk_under D.state self.old) (disk_under D.state self.new) name.now }
        ensures told { (IsErrOf result ReadEnd.Failed → ⊥) → (disk_under D.state self.new).faults ≡ (disk_under D.state self.old).faults }
    {
        match read_file(&mut self.disk, alloc, name, limit) {
            Ok(bytes) => Ok(bytes),
            Err(ReadEnd::Absent) => {
                self.absents = self.absents.saturating_add(1);
                Err(ReadEnd::Absent)
            }
            Err(ReadEnd::TooLong) => {
                self.overlongs = self.overlongs.saturating_add(1);
                Err(ReadEnd::TooLong)
            }
            Err(ReadEnd::Failed) => {
                self.read_faults = self.read_faults.saturating_add(1);
                Err(ReadEnd::Failed)
            }
            Err(ReadEnd::Memory) => Err(ReadEnd::Memory),
        }
    }

    fn put(&mut self, _alloc: Global, name: &[u8], bytes: &[u8]) -> Result<(), PutEnd>
        ensures answer { MatchResult result
            (λ _. IsPut (file_folder_state D.state self.old) (file_folder_state D.state self.new) name.now bytes.now)
            (PutRefused (file_folder_state D.state self.old) (file_folder_state D.state self.new) name.now) }
        ensures keeps { PutKeeps (file_folder_state D.state self.old) (file_folder_state D.state self.new) }
        ensures counts { counts_of (file_folder_state D.state self.new) ≡ after_put (counts_of (file_folder_state D.state self.old)) result }
        ensures nameless { NamesNoFile name.now → IsErrOf result PutEnd.Failed }
        ensures failed { IsErrOf result PutEnd.Failed → FailedFor (disk_under D.state self.old) (disk_under D.state self.new) name.now }
        ensures told { (IsErrOf result PutEnd.Failed → ⊥) → (disk_under D.state self.new).faults ≡ (disk_under D.state self.old).faults }
    {
        match put_file(&mut self.disk, name, bytes) {
            Ok(()) => Ok(()),
            Err(PutEnd::Failed) => {
                self.put_faults = self.put_faults.saturating_add(1);
                Err(PutEnd::Failed)
            }
            Err(PutEnd::Memory) => Err(PutEnd::Memory),
        }
    }
}

// The path of a name in the current folder.
fn path_of(name: &[u8]) -> Option<&str>
    ensures { MatchOption result (NamesNoFile name.now) (λ path. (path.now ≡ name.now) × (NamesNoFile name.now → ⊥)) }
{
    if name.contains(&b'/') {
        return None;
    }
    match str::from_utf8(name) {
        Ok(path) => Some(path),
        Err(_) => None,
    }
}

// How long a file is that is to be read, at most `limit`.
fn size_within(found: Look, limit: u64) -> Result<u64, ReadEnd>
    ensures file { IfOk result (λ size. (found ≡ Look.File size) × (size ≤ limit)) }
    ensures long { IsErrOf result ReadEnd.TooLong → IsLongerThan limit found }
    ensures none { IsErrOf result ReadEnd.Absent → found ≡ Look.Nothing }
    ensures other { IsErrOf result ReadEnd.Failed → found ≡ Look.Other }
    ensures memory { IsErrOf result ReadEnd.Memory → ⊥ }
{
    match found {
        Look::Nothing => Err(ReadEnd::Absent),
        Look::Other => Err(ReadEnd::Failed),
        Look::File(size) if size > limit => Err(ReadEnd::TooLong),
        Look::File(size) => Ok(size),
    }
}

// All bytes of a file, at most `limit` of them. Opening a pipe could wait forever, so what stands there is asked for first.
fn read_file<D: Disk>(
    disk: &mut D,
    alloc: Global,
    name: &[u8],
    limit: u64,
) -> Result<Vec<u8>, ReadEnd>
    ensures answer { MatchResult result
        (λ bytes. HasRead (D.state disk.old) (D.state disk.new) name.now limit bytes.items)
        (NotRead (D.state disk.old) (D.state disk.new) name.now limit) }
    ensures keeps { (D.state disk.new).holds ≡ (D.state disk.old).holds }
    ensures nameless { NamesNoFile name.now → result ≡ Err ReadEnd.Failed }
{
    let Some(path) = path_of(name) else {
        return Err(ReadEnd::Failed);
    };
    let found = disk.look(path)?;
    let size = size_within(found, limit)?;
    match disk.open(path)? {
        Some(mut file) => read_all(disk, alloc, &mut file, size, limit),
        None => Err(ReadEnd::Absent),
    }
}

// So many bytes, to be read into.
fn room_for(alloc: Global, count: usize) -> Result<Vec<u8>, AllocError>
    ensures { IfOk result (λ room. length room.items ≡ count) }
{
    vec![in alloc; 0; count]
}

// Reads what comes next into the front of the room, at most so many bytes, and tells how many came. None come only at
// the end.
fn read_front<D: Disk>(
    disk: &mut D,
    file: &mut D::Reader,
    room: &mut [u8],
    most: u64,
) -> Result<usize, ReadEnd>
    requires most { 0 < most }
    requires room { 0 < length room.old }
    ensures count { IfOk result (λ count. (count ≤ length room.new) × (count ≤ most)) }
    ensures bytes { MatchResult result
        (λ count. Consumes (D.left file.old) (D.left file.new) (take count room.new))
        (λ _. Keeps (D.left file.old) (D.left file.new)) }
    ensures end { result ≡ Ok 0 → IsAtEnd (D.left file.new) }
    ensures err { IfErr result (λ end. (end ≡ ReadEnd.Memory) ⊎ (end ≡ ReadEnd.Failed)) }
    ensures keeps { (D.state disk.new).holds ≡ (D.state disk.old).holds }
    ensures counts { (D.state disk.new).faults ≡ after_reads (D.state disk.old).faults result }
{
    let want = most.min(room.len() as u64) as usize;
    Ok(disk.read(file, &mut room[..want])?)
}

// All bytes that a file has left, at most `limit` of them. There is room for `size` of them from the start, and a read
// that fails is not tried again. Whatever comes, at most one byte beyond the limit is taken from the file, and none
// where a fault is told. One that tells its bytes shows that none is lost.
fn read_all<D: Disk>(
    disk: &mut D,
    alloc: Global,
    file: &mut D::Reader,
    size: u64,
    limit: u64,
) -> Result<Vec<u8>, ReadEnd>
    ensures short { IfOk result (λ bytes. length bytes.items ≤ limit) }
    ensures whole { IfSome (D.left file.old) (λ rest. IfOk result (λ bytes. bytes.items ≡ rest)) }
    ensures long { IfSome (D.left file.old) (λ rest. IsErrOf result ReadEnd.TooLong → limit < length rest) }
    ensures there { IsErrOf result ReadEnd.Absent → ⊥ }
    ensures taken { TakesAtMost (D.left file.old) (D.left file.new) (limit + 1) }
    ensures fault { IsErrOf result ReadEnd.Failed → TakesAtMost (D.left file.old) (D.left file.new) limit }
    ensures keeps { (D.state disk.new).holds ≡ (D.state disk.old).holds }
    ensures counts { (D.state disk.new).faults ≡ after_reads (D.state disk.old).faults result }
{
    let most = limit.saturating_add(1);
    let mut room = room_for(alloc, CHUNK)?;
    let mut bytes = Vec::with_capacity(alloc, size.min(most) as usize)?;
    while (bytes.len() as u64) < most {
        let left = most - bytes.len() as u64;
        let count = read_front(disk, file, &mut room, left)?;
        if count == 0 {
            return Ok(bytes);
        }
        bytes.extend_from_slice(&room[..count])?;
    }
    Err(ReadEnd::TooLong)
}

// Sets the bytes of a file. What is no ordinary file is left alone.
fn put_file<D: Disk>(disk: &mut D, name: &[u8], bytes: &[u8]) -> Result<(), PutEnd>
    ensures answer { MatchResult result
        (λ _. HasPut (D.state disk.old) (D.state disk.new) name.now bytes.now)
        (WhyNotPut (D.state disk.old) (D.state disk.new) name.now) }
    ensures keeps { SameBut name.now (D.state disk.old).holds (D.state disk.new).holds }
    ensures nameless { NamesNoFile name.now → result ≡ Err PutEnd.Failed }
{
    let Some(path) = path_of(name) else {
        return Err(PutEnd::Failed);
    };
    match disk.look(path)? {
        Look::Other => Err(PutEnd::Failed),
        Look::Nothing | Look::File(_) => write_file(disk, path, bytes),
    }
}

// Writes a file from its beginning, and closes it.
fn write_file<D: Disk>(disk: &mut D, path: &str, bytes: &[u8]) -> Result<(), PutEnd>
    requires { HoldsNoOther (D.state disk.old).holds path.now }
    ensures answer { MatchResult result
        (λ _. HasPut (D.state disk.old) (D.state disk.new) path.now bytes.now)
        (WhyNotWritten (D.state disk.old) (D.state disk.new)) }
    ensures keeps { SameBut path.now (D.state disk.old).holds (D.state disk.new).holds }
{
    let mut file = disk.create(path)?;
    disk.write(&mut file, bytes)?;
    disk.close(file)?;
    Ok(())
}
