ghost use Rattle.std.specs.Prelude.{◌≡◌, Ok, None, IfOk};
ghost use Rattle.outside_io.specs.Disk.{after_call};
ghost use Rattle.outside_io.specs.SystemDisk.{system_disk_state};

use crate::{Disk, DiskEnd, Look};
use std::fs::OpenFile;
use std::io::{ErrorKind, Read, Write};
use std::os::unix::fs::MetadataExt;
use std::rt::Files;
use std::{fs, io};

/// The bits of a device's number that are 0 where no device of this machine is under a file system.
const DEVICE: u64 = 0xf_ff00;

/// The current folder of the system, call by call. It tells its count of faults and no contents, so no clause says that a call
/// does what its name says: that is to be read here.
#[derive(Drop)]
pub struct SystemDisk<R: Drop> {
    rt: R,
    faults: u64,
}

impl<R: Files + Drop> SystemDisk<R> {
    /// The current folder, none of whose calls failed.
    pub fn here(rt: R) -> SystemDisk<R>
        ensures { (system_disk_state result).faults ≡ 0 }
    {
        SystemDisk { rt, faults: 0 }
    }

    // What the system answered, with its faults counted.
    fn told<T>(&mut self, answer: io::Result<T>) -> Result<T, DiskEnd>
        ensures value { IfOk result (λ value. answer ≡ Ok value) }
        ensures counts { (system_disk_state self.new).faults ≡ after_call (system_disk_state self.old).faults result }
    {
        match answer {
            Ok(value) => Ok(value),
            Err(error) if error.kind() == ErrorKind::OutOfMemory => Err(DiskEnd::Memory),
            Err(_) => {
                self.faults = self.faults.saturating_add(1);
                Err(DiskEnd::Failed)
            }
        }
    }
}

// Whether the system may tell only at the close of a file that bytes were lost. A file system over a network, or of a
// program, does; it has no device of this machine. On a disk the write itself tells of room and quotas.
fn tells_at_close(found: &fs::Metadata) -> bool {
    found.dev() & DEVICE == 0
}

// Sends out what is left of a file that was written, where its close could tell that it is lost: that of a dropped
// file tells nothing.
fn sent_out<F: OpenFile>(file: &F) -> io::Result<()> {
    if tells_at_close(&file.metadata()?) {
        file.sync_data()?;
    }
    Ok(())
}

impl<R: Files + Drop> Disk for SystemDisk<R> {
    type Reader = R::File;

    type Writer = R::File;

    ghost state = { system_disk_state };

    ghost left = { λ _. None };

    ghost part = { λ _. None };

    fn look(&mut self, name: &str) -> Result<Look, DiskEnd> {
        match fs::metadata(&self.rt, name) {
            Ok(found) if found.is_file() => Ok(Look::File(found.len())),
            Ok(_) => Ok(Look::Other),
            Err(error) if error.kind() == ErrorKind::NotFound => Ok(Look::Nothing),
            Err(error) => self.told(Err(error)),
        }
    }

    fn open(&mut self, name: &str) -> Result<Option<R::File>, DiskEnd> {
        match fs::open(&self.rt, name) {
            Ok(file) => Ok(Some(file)),
            Err(error) if error.kind() == ErrorKind::NotFound => Ok(None),
            Err(error) => self.told(Err(error)),
        }
    }

    fn read(&mut self, file: &mut R::File, room: &mut [u8]) -> Result<usize, DiskEnd> {
        self.told(file.read(room))
    }

    fn create(&mut self, name: &str) -> Result<R::File, DiskEnd> {
        let file = fs::create(&self.rt, name);
        self.told(file)
    }

    fn write(&mut self, file: &mut R::File, bytes: &[u8]) -> Result<(), DiskEnd> {
        self.told(file.write_all(bytes))
    }

    fn close(&mut self, file: R::File) -> Result<(), DiskEnd> {
        self.told(sent_out(&file))
    }
}
