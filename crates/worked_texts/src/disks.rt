//! The folder over a disk: one in memory whose calls fail in turn, and that of a system which tells only when it is asked that
//! bytes were lost.

use crate::outside::{expect_reads, put};
use outside_io::{FileFolder, MemDisk, PutEnd};
use std::alloc::{AllocError, Allocator, Global};
use std::fs::{Metadata, OpenFile, OpenOptions};
use std::io::{self, ErrorKind, Read, Seek, SeekFrom, Write};
use std::rt::Files;
use std::test::Fail;

// A folder over a disk that holds a file and has a pipe, and whose call of this number fails.
fn folder_over(alloc: Global, failing: u64) -> Result<FileFolder<MemDisk>, AllocError> {
    let mut disk = MemDisk::new(alloc);
    disk.hold(b"rain", b"12345")?;
    disk.block(Vec::from_slice(alloc, b"pipe")?);
    disk.fail_on(vec![in alloc; failing]?);
    Ok(FileFolder::new(disk))
}

#[test]
fn a_folder_gives_and_puts_what_its_disk_holds(rt: HostRuntime) -> Result<(), Fail> {
    let alloc = rt.alloc();
    let mut folder = folder_over(alloc, 0)?;
    put(alloc, &mut folder, "flow", "7")?;
    assert_eq!(rt; put(alloc, &mut folder, "pipe", ""), Err(PutEnd::Failed));
    let cases = [
        ("rain", 5, "12345"),
        ("rain", 4, "too long"),
        ("flow", 1, "7"),
        ("drain", 9, "absent"),
        ("pipe", 9, "failed"),
        ("./rain", 9, "failed"),
    ];
    expect_reads(&rt, alloc, &mut folder, cases.as_slice());
    Ok(())
}

#[test]
fn a_call_of_a_disk_that_fails_is_a_fault_of_the_read(rt: HostRuntime) -> Result<(), Fail> {
    let alloc = rt.alloc();
    for (failing, want) in [
        (1, "failed"),
        (2, "failed"),
        (3, "failed"),
        (4, "failed"),
        (5, "12345"),
    ] {
        let mut folder = folder_over(alloc, failing)?;
        expect_reads(&rt, alloc, &mut folder, [("rain", 9, want)].as_slice());
    }
    Ok(())
}

#[test]
fn a_call_of_a_disk_that_fails_is_a_fault_of_the_put(rt: HostRuntime) -> Result<(), Fail> {
    let alloc = rt.alloc();
    for (failing, want) in [
        (1, Err(PutEnd::Failed)),
        (2, Err(PutEnd::Failed)),
        (3, Err(PutEnd::Failed)),
        (4, Err(PutEnd::Failed)),
        (5, Ok(())),
    ] {
        let mut folder = folder_over(alloc, failing)?;
        let found = put(alloc, &mut folder, "flow", "7");
        assert_eq!(rt; found, want, "where call {failing} fails");
    }
    Ok(())
}

/// A system over a network, without room: it takes each byte, and tells that they are lost only when they are to go out.
#[derive(Drop)]
struct FarSystem;

/// A file of it.
#[derive(Drop)]
struct FarFile;

// What is not asked of it.
fn unasked<T>() -> io::Result<T> {
    Err(io::Error::from(ErrorKind::Unsupported))
}

// No room was left for what was written.
fn no_room() -> io::Result<()> {
    Err(io::Error::from(ErrorKind::StorageFull))
}

impl Read for FarFile {
    fn read(&mut self, _buf: &mut [u8]) -> io::Result<usize> {
        Ok(0)
    }
}

impl Write for FarFile {
    fn write(&mut self, buf: &[u8]) -> io::Result<usize> {
        Ok(buf.len())
    }

    fn flush(&mut self) -> io::Result<()> {
        Ok(())
    }
}

impl Seek for FarFile {
    fn seek(&mut self, _to: SeekFrom) -> io::Result<u64> {
        unasked()
    }
}

impl OpenFile for FarFile {
    fn metadata(&self) -> io::Result<Metadata> {
        Ok(Metadata::of_file(0))
    }

    fn set_len(&self, _size: u64) -> io::Result<()> {
        unasked()
    }

    fn sync_all(&self) -> io::Result<()> {
        no_room()
    }

    fn sync_data(&self) -> io::Result<()> {
        no_room()
    }
}

impl Files for FarSystem {
    type File = FarFile;

    type Dir = FarFile;

    fn open_file(&self, _how: &OpenOptions, _path: &str) -> io::Result<FarFile> {
        Ok(FarFile)
    }

    fn open_dir(&self, _path: &str) -> io::Result<FarFile> {
        unasked()
    }

    fn metadata(&self, _path: &str) -> io::Result<Metadata> {
        Err(io::Error::from(ErrorKind::NotFound))
    }

    fn symlink_metadata(&self, _path: &str) -> io::Result<Metadata> {
        unasked()
    }

    fn copy(&self, _from: &str, _to: &str) -> io::Result<u64> {
        unasked()
    }

    fn rename(&self, _from: &str, _to: &str) -> io::Result<()> {
        unasked()
    }

    fn remove_file(&self, _path: &str) -> io::Result<()> {
        unasked()
    }

    fn create_dir(&self, _path: &str) -> io::Result<()> {
        unasked()
    }

    fn remove_dir(&self, _path: &str) -> io::Result<()> {
        unasked()
    }

    fn remove_dir_all<B: Allocator>(&self, _alloc: B, _path: &str) -> io::Result<()> {
        unasked()
    }
}

#[test]
fn bytes_that_are_lost_when_a_file_is_closed_are_a_fault(rt: HostRuntime) -> Result<(), Fail> {
    let mut folder = FileFolder::here(FarSystem);
    let found = put(rt.alloc(), &mut folder, "flow", "7");
    assert_eq!(rt; found, Err(PutEnd::Failed));
    Ok(())
}
