//! Made models: their files in order, byte by byte, each put that fails in turn, and the numbers that are taken.

use crate::runs::expect_end;
use outside_io::MemFolder;
use std::alloc::Global;
use std::process::Abort;
use std::sync::Wait;
use std::test::Fail;
use std::thread::Threads;

/// A file: its name, its length, and a sum of its bytes, each of which counts 31 times as much as the one behind it, in 32
/// bits. Both are those of the files that `bench/made_model.py` makes.
type Sum = (&'static str, u64, u32);

static OF_SEVEN: [Sum; 5] = [
    ("made.mod", 414, 1_553_291_122),
    ("made_ldd.asc", 524_361, 3_419_284_466),
    ("made_zone.asc", 524_361, 1_953_265_042),
    ("made_soil.asc", 1_279_542, 3_720_952_397),
    ("made_rain.tss", 77, 3_535_602_449),
];

static OF_THE_LAST: [Sum; 5] = [
    ("made.mod", 414, 1_553_291_122),
    ("made_ldd.asc", 524_361, 1_736_755_585),
    ("made_zone.asc", 524_361, 1_953_265_042),
    ("made_soil.asc", 1_279_406, 835_602_973),
    ("made_rain.tss", 77, 216_090_247),
];

// The sum of bytes.
fn sum_of(bytes: &[u8]) -> u32 {
    let mut sum: u32 = 0;
    for byte in bytes {
        sum = sum.wrapping_mul(31).wrapping_add(*byte as u32);
    }
    sum
}

// The put of this number is that of this file.
fn expect_put(
    rt: &(impl Abort + Threads + Wait + Sync),
    folder: &MemFolder,
    number: u64,
    file: &Sum,
) -> Result<(), Fail> {
    let (name, length, sum) = *file;
    assert!(rt; number < folder.put_count(), "no put {number}");
    assert_eq!(rt;
        folder.put_name(number),
        name.as_bytes(),
        "the name of put {number}"
    );
    let bytes = folder.put_bytes(number);
    assert_eq!(rt; bytes.len() as u64, length, "the length of {name}");
    assert_eq!(rt; sum_of(bytes), sum, "the bytes of {name}");
    Ok(())
}

// The words make these files, and no others.
fn expect_model(
    rt: &(impl Abort + Threads + Wait + Sync),
    alloc: Global,
    text: &str,
    files: &[Sum],
) -> Result<(), Fail> {
    let mut folder = MemFolder::new(alloc);
    expect_end(rt, alloc, text, &mut folder, 0, "made files=5\n")?;
    assert_eq!(rt; folder.put_count(), files.len() as u64, "puts of {text}");
    for (i, file) in files.iter().enumerate() {
        expect_put(rt, &folder, i as u64, file)?;
    }
    Ok(())
}

#[test]
fn makes_the_files_of_a_number(rt: HostRuntime) -> Result<(), Fail> {
    expect_model(&rt, rt.alloc(), "make 7", &OF_SEVEN)?;
    expect_model(&rt, rt.alloc(), "make 4294967295", &OF_THE_LAST)
}

/// The line of each put that fails, in turn.
static FAULTS: [&str; 5] = [
    "write fault made.mod\n",
    "write fault made_ldd.asc\n",
    "write fault made_zone.asc\n",
    "write fault made_soil.asc\n",
    "write fault made_rain.tss\n",
];

// The put behind so many fails: that is told, and nothing more is put.
fn expect_fault(
    rt: &(impl Abort + Threads + Wait + Sync),
    alloc: Global,
    before: u64,
    line: &str,
) -> Result<(), Fail> {
    let mut folder = MemFolder::new(alloc);
    folder.fail_on(vec![in alloc; before.saturating_add(1)]?);
    expect_end(rt, alloc, "make 0", &mut folder, 8, line)?;
    assert_eq!(rt; folder.put_count(), before, "puts before {line}");
    Ok(())
}

#[test]
fn stops_where_a_put_fails(rt: HostRuntime) -> Result<(), Fail> {
    for (i, line) in FAULTS.iter().enumerate() {
        expect_fault(&rt, rt.alloc(), i as u64, line)?;
    }
    Ok(())
}
