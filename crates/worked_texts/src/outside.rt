//! Folders and sinks, those in memory and those of the system.

use outside_io::{
    CalmFolder, CalmSink, FileFolder, Folder, MemFolder, MemSink, NewFile, NotAllPut, PutEnd,
    ReadEnd, Sink, SinkFailed, StdSink, put_in_turn,
};
use std::alloc::{AllocError, Global};
use std::cell::RefCell;
use std::fmt::Display;
use std::io::ErrorKind;
use std::process::Abort;
use std::test::Fail;
use std::{fs, io};

// The bytes of a read, or the word for its end.
fn outcome(read: &Result<Vec<u8>, ReadEnd>) -> &[u8] {
    match read {
        Ok(bytes) => bytes.as_slice(),
        Err(ReadEnd::Absent) => b"absent",
        Err(ReadEnd::TooLong) => b"too long",
        Err(ReadEnd::Failed) => b"failed",
        Err(ReadEnd::Memory) => b"no memory",
    }
}

// Reads each of these names, at most so many bytes of it.
pub(crate) fn expect_reads<F: Folder>(
    rt: &impl Abort,
    alloc: Global,
    folder: &mut F,
    cases: &[(&str, u64, &str)],
) {
    for (name, limit, want) in cases {
        let read = folder.read(alloc, name.as_bytes(), *limit);
        assert_eq!(rt; outcome(&read), want.as_bytes(), "{name} up to {limit}");
    }
}

// Puts a file.
pub(crate) fn put<F: Folder>(
    alloc: Global,
    folder: &mut F,
    name: &str,
    bytes: &str,
) -> Result<(), PutEnd> {
    folder.put(alloc, name.as_bytes(), bytes.as_bytes())
}

// Writes bytes.
fn write<S: Sink>(sink: &mut S, bytes: &[u8]) -> Result<(), SinkFailed> {
    sink.write_all(bytes)
}

// A folder that holds a file, and whose calls of these numbers fail.
fn failing_folder(alloc: Global, calls: Vec<u64>) -> Result<MemFolder, AllocError> {
    let mut folder = MemFolder::new(alloc);
    folder.hold(alloc, b"rain", b"12345")?;
    folder.fail_on(calls);
    Ok(folder)
}

// The name and the bytes of a put, where there is one.
fn put_at(folder: &MemFolder, i: u64) -> Option<(&[u8], &[u8])> {
    if i < folder.put_count() {
        Some((folder.put_name(i), folder.put_bytes(i)))
    } else {
        None
    }
}

#[test]
fn a_folder_in_memory_fails_on_demand(rt: HostRuntime) -> Result<(), Fail> {
    let alloc = rt.alloc();
    let mut folder = failing_folder(alloc, vec![in alloc; 4, 7]?)?;
    let before = [
        ("rain", 5, "12345"),
        ("rain", 4, "too long"),
        ("drain", 9, "absent"),
        ("rain", 5, "failed"),
    ];
    expect_reads(&rt, alloc, &mut folder, before.as_slice());
    put(alloc, &mut folder, "flow", "7")?;
    put(alloc, &mut folder, "rain", "")?;
    let failed = put(alloc, &mut folder, "flow", "8");
    assert_eq!(rt; failed, Err(PutEnd::Failed));
    let behind = [("flow", 1, "7"), ("rain", 0, "")];
    expect_reads(&rt, alloc, &mut folder, behind.as_slice());
    assert_eq!(rt;
        [put_at(&folder, 0), put_at(&folder, 1), put_at(&folder, 2)],
        [
            Some((b"flow".as_slice(), b"7".as_slice())),
            Some((b"rain".as_slice(), b"".as_slice())),
            None
        ]
    );
    Ok(())
}

// A folder that takes all, and holds a file.
fn calm_folder(alloc: Global) -> Result<CalmFolder, AllocError> {
    let mut folder = CalmFolder::new(alloc);
    folder.hold(alloc, b"rain", b"12345")?;
    Ok(folder)
}

#[test]
fn a_calm_folder_takes_all(rt: HostRuntime) -> Result<(), Fail> {
    let alloc = rt.alloc();
    let mut folder = calm_folder(alloc)?;
    put(alloc, &mut folder, "rain", "6")?;
    let cases = [
        ("rain", 1, "6"),
        ("rain", 0, "too long"),
        ("rai", 9, "absent"),
    ];
    expect_reads(&rt, alloc, &mut folder, cases.as_slice());
    Ok(())
}

#[test]
fn a_calm_sink_takes_all(rt: HostRuntime) -> Result<(), Fail> {
    let mut sink = CalmSink::new();
    write(&mut sink, [0; 5000].as_slice())?;
    write(&mut sink, b"a line")?;
    assert_eq!(rt; sink.count(), 5006);
    Ok(())
}

/// How many bytes are written, the answer, and how many stand in the sink then.
static WRITES: [(usize, Result<(), SinkFailed>, usize); 4] = [
    (4000, Ok(()), 4000),
    (10, Err(SinkFailed), 4000),
    (90, Ok(()), 4090),
    (0, Ok(()), 4090),
];

#[test]
fn a_sink_in_memory_cuts_what_does_not_fit(rt: HostRuntime) -> Result<(), Fail> {
    let mut sink = MemSink::new();
    sink.fail_on(vec![in rt.alloc(); 2]?);
    for (count, answer, written) in WRITES.iter() {
        let piece = vec![in rt.alloc(); b'x'; *count]?;
        let found = write(&mut sink, piece.as_slice());
        assert_eq!(rt;
            (found, sink.bytes().len()),
            (*answer, *written),
            "{count} bytes"
        );
    }
    assert_eq!(rt; write(&mut sink, b"0123456789"), Err(SinkFailed));
    assert!(rt; sink.bytes().ends_with(b"xx012345"));
    Ok(())
}

// Puts a long file and reads it again, with no byte to spare.
fn long_comes_back<F: Folder>(alloc: Global, folder: &mut F) -> Result<bool, Fail> {
    let long = vec![in alloc; b'7'; 300_000]?;
    folder.put(alloc, b"test.flow", &long)?;
    let back = folder.read(alloc, b"test.flow", 300_000)?;
    Ok(back == long)
}

#[test]
fn files_are_read_and_put(rt: HostRuntime) -> Result<(), Fail> {
    let alloc = rt.alloc();
    let mut folder = FileFolder::here(&rt);
    put(alloc, &mut folder, "test.flow", "a longer file")?;
    put(alloc, &mut folder, "test.flow", "12345")?;
    let cases = [
        ("test.flow", 5, "12345"),
        ("test.flow", 4, "too long"),
        ("test.none", 9, "absent"),
        (".", 9, "failed"),
        ("./test.flow", 9, "failed"),
    ];
    expect_reads(&rt, alloc, &mut folder, cases.as_slice());
    assert_eq!(rt; put(alloc, &mut folder, ".", ""), Err(PutEnd::Failed));
    let is_back = long_comes_back(alloc, &mut folder)?;
    assert!(rt; is_back);
    fs::remove_file(&rt, "test.flow")?;
    Ok(())
}

/// A standard output that keeps what it is given, and refuses a piece that it has no room for.
#[derive(Drop)]
struct Screen {
    shown: RefCell<Vec<u8>>,
    room: usize,
}

impl Print for Screen {
    fn print<D: Display + Drop>(&self, _value: D) -> io::Result<()> {
        Err(io::Error::from(ErrorKind::Unsupported))
    }

    fn println<D: Display + Drop>(&self, _value: D) -> io::Result<()> {
        Err(io::Error::from(ErrorKind::Unsupported))
    }

    fn write_all(&self, bytes: &[u8]) -> io::Result<()> {
        let Ok(mut shown) = self.shown.try_borrow_mut() else {
            return Err(io::Error::from(ErrorKind::Other));
        };
        if bytes.len() > self.room.saturating_sub(shown.len()) {
            return Err(io::Error::from(ErrorKind::StorageFull));
        }
        Ok(shown.extend_from_slice(bytes)?)
    }
}

#[test]
fn standard_output_takes_each_byte(rt: HostRuntime) -> Result<(), Fail> {
    let screen = Screen {
        shown: RefCell::new(Vec::new(rt.alloc())),
        room: 30,
    };
    let mut sink = StdSink::new(&screen);
    write(&mut sink, b"done files=1 steps=0\n")?;
    assert_eq!(rt; write(&mut sink, b"a line without room\n"), Err(SinkFailed));
    write(&mut sink, b"usage\n")?;
    drop(sink);
    let shown = screen.shown.try_borrow()?;
    assert_eq!(rt;
        shown.as_slice(),
        b"done files=1 steps=0\nusage\n".as_slice()
    );
    Ok(())
}

// A file to be put.
fn new_file(alloc: Global, name: &str, bytes: &str) -> Result<NewFile, Fail> {
    Ok(NewFile {
        name: Vec::from_slice(alloc, name.as_bytes())?,
        bytes: Vec::from_slice(alloc, bytes.as_bytes())?,
    })
}

// The name of the file that was not put, or a word for another end.
fn stopped_at<'a>(end: &Result<(), NotAllPut<'a>>) -> &'a [u8] {
    match end {
        Ok(()) => b"all put",
        Err(NotAllPut::Failed(file)) => file.name.as_slice(),
        Err(NotAllPut::Memory) => b"no memory",
    }
}

// The three files.
fn new_files(alloc: Global) -> Result<Vec<NewFile>, Fail> {
    let mut files = Vec::new(alloc);
    files.push(new_file(alloc, "rain", "1")?)?;
    files.push(new_file(alloc, "flow", "2")?)?;
    files.push(new_file(alloc, "stage", "3")?)?;
    Ok(files)
}

// Where the files are put and this call fails: the file that was not put, or a word for another end, and how many were.
fn put_until<'a>(
    alloc: Global,
    files: &'a [NewFile],
    failing: u64,
) -> Result<(&'a [u8], u64), Fail> {
    let mut folder = failing_folder(alloc, vec![in alloc; failing]?)?;
    let put = put_in_turn(alloc, &mut folder, files);
    Ok((stopped_at(&put), folder.put_count()))
}

#[test]
fn files_are_put_in_turn(rt: HostRuntime) -> Result<(), Fail> {
    let files = new_files(rt.alloc())?;
    for (failing, end, count) in [
        (0, "all put", 3),
        (1, "rain", 0),
        (2, "flow", 1),
        (3, "stage", 2),
    ] {
        let found = put_until(rt.alloc(), files.as_slice(), failing)?;
        assert_eq!(rt;
            found,
            (end.as_bytes(), count),
            "where call {failing} fails"
        );
    }
    Ok(())
}
