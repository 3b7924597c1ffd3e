//! Scripts by tiles of several sizes: what they put, their ends and lines, which are those over whole maps, and too many tasks.
//! The cells were worked out by hand from the rules of the operations.

use crate::files::{File, INPUTS, PUT, RUNOFF, RUNOFF_FILES, RUNOFF_PUTS, THREE, folder_with};
use crate::runs::{Case, end_of, expect_case_by, expect_end, expect_puts, words_of};
use lue_run::{Ended, lue_main, lue_plain, status};
use outside_io::{MemFolder, MemSink, OpenGate};
use std::alloc::Global;
use std::process::Abort;
use std::sync::Wait;
use std::test::Fail;
use std::thread::Threads;

/// The words by which each script is run: over whole maps, by the smallest tiles, by tiles that are cut at the map's border,
/// by columns, and by one tile that is larger than the map.
const WORDS: [&str; 5] = [
    "plain m.mod",
    "run m.mod 1 1 1",
    "run m.mod 1 2 2",
    "run m.mod 2 1 3",
    "run m.mod 4096 4096 64",
];

/// Scripts that end so by each of these words.
static CASES: [Case; 21] = [
    // operations that look at one place
    (
        "binding A = a.asc; B = b.asc; areamap A; initial report C = (A + B) * A; report D = 1 / 0;",
        &[("a.asc", "1 2 -9999"), ("b.asc", "3 4 5")],
        0,
        "done files=2 steps=0\n",
        &[("C", "4 12 1e31"), ("D", "1e31 1e31 1e31")],
    ),
    (
        "binding C = c.asc : boolean; A = a.asc; B = b.asc; areamap A; initial report R = if(C then A else B);",
        &[
            ("c.asc", "1 0 -9999"),
            ("a.asc", "1 -9999 3"),
            ("b.asc", "-9999 5 6"),
        ],
        0,
        "done files=1 steps=0\n",
        &[("R", "1 5 1e31")],
    ),
    // windows reach into the tiles beside
    (
        "binding A = a.asc; areamap A; initial report W = windowtotal(A, 3);",
        &[("a.asc", "1 2 3 4")],
        0,
        "done files=1 steps=0\n",
        &[("W", "3 6 9 7")],
    ),
    (
        "binding N = n.asc : nominal; areamap N; initial report W = windowmajority(N, 3);",
        &[("n.asc", "2 1 2 1")],
        0,
        "done files=1 steps=0\n",
        &[("W", "1 2 1 1")],
    ),
    // areas and the whole map
    (
        "binding Z = z.asc : nominal; A = a.asc; areamap Z; initial report W = areaaverage(A, Z); report M = maptotal(A);",
        &[("z.asc", "1 2 1"), ("a.asc", "1 5 4")],
        0,
        "done files=2 steps=0\n",
        &[("W", "2.5 5 2.5"), ("M", "10 10 10")],
    ),
    (
        "binding Z = z.asc : nominal; A = a.asc; areamap Z; \
            initial report T = areatotal(A, Z); report R = areaarea(Z); report M = maptotal(A);",
        &[("z.asc", "1 1 -9999"), ("a.asc", "-9999 -9999 3")],
        0,
        "done files=3 steps=0\n",
        &[("T", "1e31 1e31 1e31"), ("R", "2 2 1e31"), ("M", "3 3 3")],
    ),
    // along drains
    (
        "binding L = l.asc : ldd; M = m.asc; areamap L; initial report Q = accuflux(L, M);",
        &[
            (
                "l.asc",
                "ncols 4\nnrows 2\nxllcorner 0\nyllcorner 0\ncellsize 1\n6 6 2 4\n5 4 4 4\n",
            ),
            (
                "m.asc",
                "ncols 4\nnrows 2\nxllcorner 0\nyllcorner 0\ncellsize 1\n1 1 1 1\n1 1 1 1\n",
            ),
        ],
        0,
        "done files=1 steps=0\n",
        &[(
            "Q",
            "ncols 4\nnrows 2\nxllcorner 0\nyllcorner 0\ncellsize 1\nNODATA_value 1e31\n1 2 4 1\n8 7 6 1\n",
        )],
    ),
    (
        "binding L = l.asc : ldd; M = m.asc; areamap L; initial report Q = accuflux(L, M);",
        &[("l.asc", "6 6 6 5"), ("m.asc", "1 -9999 1 1")],
        0,
        "done files=1 steps=0\n",
        &[("Q", "1 1e31 1e31 1e31")],
    ),
    (
        "binding L = l.asc : ldd; M = m.asc; areamap L; \
            initial report F = accuthresholdflux(L, M, 1); report S = accuthresholdstate(L, M, 1);",
        &[("l.asc", "6 6 6 5"), ("m.asc", "3 0 0 0")],
        0,
        "done files=2 steps=0\n",
        &[("F", "2 1 0 0"), ("S", "1 1 1 0")],
    ),
    (
        "binding L = l.asc : ldd; P = p.asc : nominal; A = a.asc; areamap L; \
            initial report C = catchment(L, P); report U = upstream(L, A); report D = downstream(L, A);",
        &[
            ("l.asc", "6 6 6 5"),
            ("p.asc", "1 3 0 0"),
            ("a.asc", "1 2 3 4"),
        ],
        0,
        "done files=3 steps=0\n",
        &[("C", "3 3 0 0"), ("U", "0 1 2 3"), ("D", "2 3 4 4")],
    ),
    (
        "binding L = l.asc : ldd; B = b.asc : boolean; areamap L; initial report K = lddmask(L, B); report Q = accuflux(K, 1);",
        &[("l.asc", "6 6 6 5"), ("b.asc", "1 1 0 1")],
        0,
        "done files=2 steps=0\n",
        &[("K", "6 5 1e31 5"), ("Q", "1 2 1e31 1")],
    ),
    // steps: a series, names of the step before, and samples
    (
        "binding R = r.tss; Id = id.asc : nominal; areamap Id; timer 1 3 1; \
            initial S = 0; dynamic report S = S + timeinputscalar(R, Id);",
        &[("id.asc", "1 1"), ("r.tss", "1 1\n2 2\n3 4\n")],
        0,
        "done files=3 steps=3\n",
        &[
            ("S0000000.001", "1 1"),
            ("S0000000.002", "3 3"),
            ("S0000000.003", "7 7"),
        ],
    ),
    (
        "areamap a.asc; timer 1 3 1; initial A = 1; B = 1; dynamic report X = B; B = A; A = A + B;",
        &[("a.asc", "9 9")],
        0,
        "done files=3 steps=3\n",
        &[
            ("X0000000.001", "1 1"),
            ("X0000000.002", "1 1"),
            ("X0000000.003", "2 2"),
        ],
    ),
    (
        "binding Id = id.asc : nominal; A = a.asc; areamap Id; timer 1 2 1; dynamic report T = timeoutput(Id, A);",
        &[("id.asc", "2 1 2"), ("a.asc", "10 20 30")],
        0,
        "done files=1 steps=2\n",
        &[(
            "T",
            "timeseries scalar\n3\ntimestep\n1\n2\n1 20 10\n2 20 10\n",
        )],
    ),
    (
        RUNOFF,
        RUNOFF_FILES,
        0,
        "done files=3 steps=2\n",
        RUNOFF_PUTS,
    ),
    // a drain map that is not sound
    (
        "binding L = l.asc : ldd; M = m.asc; areamap L; initial report Q = accuflux(L, M);",
        &[("l.asc", "6 4"), ("m.asc", "1 1")],
        4,
        "input l.asc unsound 1 1\n",
        &[],
    ),
    // a grid of a stack that is not there, behind the first step
    (
        "binding P = rain; Id = id.asc : nominal; areamap Id; timer 1 4 1; dynamic report O = timeinput(P);",
        &[("id.asc", "1 1"), ("rain0000.001", "5 6")],
        4,
        "missing rain0000.002\n",
        &[("O0000000.001", "5 6")],
    ),
    // the first result out of range: of the first statement that has one, though a tile before it has one of the second
    (
        "binding A = a.asc; B = b.asc; areamap A; initial report C = A + A; report D = B + B;",
        &[("a.asc", "1 9000000000000"), ("b.asc", "9000000000000 1")],
        5,
        "overflow step 0 statement 1 operation 1 row \
            1 col 2\n",
        &[],
    ),
    // by rows and not by tiles: of columns the first one has a later place
    (
        "binding A = a.asc; areamap A; initial report C = A + A;",
        &[(
            "a.asc",
            "ncols 2\nnrows 2\nxllcorner 0\nyllcorner 0\ncellsize 1\n1 9000000000000\n9000000000000 1\n",
        )],
        5,
        "overflow step 0 statement 1 operation 1 row \
            1 col 2\n",
        &[],
    ),
    // along a drain
    (
        "binding L = l.asc : ldd; M = m.asc; areamap L; initial report Q = accuflux(L, M);",
        &[
            ("l.asc", "6 6 5"),
            ("m.asc", "9000000000000 9000000000000 -9000000000000"),
        ],
        5,
        "overflow step 0 statement 1 operation 1 row \
            1 col 2\n",
        &[],
    ),
    // of the first step that has one, with the time series of the steps before it
    (
        "binding R = r.tss; Id = id.asc : nominal; areamap Id; timer 1 2 1; initial S = 1; \
            dynamic report S = S + timeinputscalar(R, Id); report T = timeoutput(Id, S);",
        &[("id.asc", "1"), ("r.tss", "1 9000000000000\n2 1\n")],
        5,
        "overflow step 1 statement 2 operation 2 row \
            1 col 1\n",
        &[("T", "timeseries scalar\n2\ntimestep\n1\n")],
    ),
];

// Each script ends so by these words.
fn expect_cases_by(
    rt: &(impl Abort + Threads + Wait + Sync),
    alloc: Global,
    words: &str,
    cases: &[Case],
) -> Result<(), Fail> {
    for case in cases {
        expect_case_by(rt, alloc, words, PUT, case)?;
    }
    Ok(())
}

#[test]
fn ends_as_over_whole_maps(rt: HostRuntime) -> Result<(), Fail> {
    for words in WORDS {
        expect_cases_by(&rt, rt.alloc(), words, &CASES)?;
    }
    Ok(())
}

// The words are no command of the other top call, and touch nothing.
fn expect_other(
    rt: &(impl Abort + Threads + Wait + Sync),
    alloc: Global,
    text: &str,
    by_tiles: bool,
) -> Result<(), Fail> {
    let words = words_of(alloc, text)?;
    let mut folder = folder_with(alloc, THREE, INPUTS, 1)?;
    let mut out = MemSink::new();
    let end = if by_tiles {
        lue_main(rt, alloc, &words, &mut folder, &mut out, &OpenGate)
    } else {
        lue_plain(alloc, &words, &mut folder, &mut out)
    };
    assert!(rt; matches!(end, Ended::Usage), "the end of {text}");
    assert_eq!(rt; out.bytes(), b"usage\n".as_slice(), "the line of {text}");
    expect_puts(rt, alloc, &folder, PUT, &[], text)
}

#[test]
fn takes_no_words_of_the_other_top_call(rt: HostRuntime) -> Result<(), Fail> {
    expect_other(&rt, rt.alloc(), "run m.mod 1 1 1", false)?;
    expect_other(&rt, rt.alloc(), "plain m.mod", true)?;
    expect_other(&rt, rt.alloc(), "make 7", true)
}

/// The rows and columns of a map with too many tasks by tiles of one cell, with two operations.
const MANY_ROWS: u32 = 513;

const MANY_COLS: u32 = 1024;

/// A script of two operations, whose second input is read behind the area map.
const MANY: &str =
    "binding A = a.asc; B = b.asc; areamap A; initial report C = A + B; report D = A - B;";

// A row of ones.
fn row_of_ones(alloc: Global) -> Result<String, Fail> {
    let mut row = String::new(alloc);
    for _ in 0..MANY_COLS {
        row.push_str("1 ")?;
    }
    row.push_str("\n")?;
    Ok(row)
}

// A grid of ones.
fn ones(alloc: Global) -> Result<String, Fail> {
    let row = row_of_ones(alloc)?;
    let mut text = format!(in alloc;
        "ncols {MANY_COLS}\nnrows {MANY_ROWS}\nxllcorner 0\nyllcorner 0\ncellsize 1\n"
    )?;
    for _ in 0..MANY_ROWS {
        text.push_str(row.as_str())?;
    }
    Ok(text)
}

// A folder with the script of two operations and its first input, and with the second one where that is wanted; one of its
// calls fails, none where the number is 0.
fn folder_of_many(alloc: Global, ones: &str, both: bool, call: u64) -> Result<MemFolder, Fail> {
    let mut folder = MemFolder::new(alloc);
    folder.hold(alloc, b"m.mod", MANY.as_bytes())?;
    folder.hold(alloc, b"a.asc", ones.as_bytes())?;
    if both {
        folder.hold(alloc, b"b.asc", ones.as_bytes())?;
    }
    folder.fail_on(vec![in alloc; call]?);
    Ok(folder)
}

/// Whether the second input is there, the call that fails, the status and the line.
type ManyEnd = (bool, u64, u8, &'static str);

/// Too many tasks are told once all inputs were read, and before anything is put.
static MANY_ENDS: [ManyEnd; 5] = [
    (false, 0, 4, "missing b.asc\n"),
    (true, 2, 7, "read fault a.asc\n"),
    (true, 3, 7, "read fault b.asc\n"),
    (true, 4, 6, "tasks 1050624\n"),
    (true, 0, 6, "tasks 1050624\n"),
];

// By tiles of one cell the script ends so, and puts nothing.
fn expect_many(
    rt: &(impl Abort + Threads + Wait + Sync),
    alloc: Global,
    ones: &str,
    row: &ManyEnd,
) -> Result<(), Fail> {
    let (both, call, answer, line) = *row;
    let mut folder = folder_of_many(alloc, ones, both, call)?;
    expect_end(rt, alloc, "run m.mod 1 1 1", &mut folder, answer, line)?;
    expect_puts(rt, alloc, &folder, PUT, &[], line)
}

#[test]
fn too_many_tasks_are_told_once_all_is_read(rt: HostRuntime) -> Result<(), Fail> {
    let ones = ones(rt.alloc())?;
    for row in &MANY_ENDS {
        expect_many(&rt, rt.alloc(), ones.as_str(), row)?;
    }
    Ok(())
}

#[test]
fn the_status_of_too_many_tasks_stands_in_for_their_line(rt: HostRuntime) -> Result<(), Fail> {
    let alloc = rt.alloc();
    let ones = ones(alloc)?;
    let mut folder = folder_of_many(alloc, ones.as_str(), true, 0)?;
    let mut out = MemSink::new();
    out.fail_on(vec![in alloc; 1]?);
    let end = end_of(&rt, alloc, "run m.mod 1 1 1", &mut folder, &mut out)?;
    assert!(rt; matches!(end, Ended::OutFault { instead: 6 }));
    assert_eq!(rt; status(&end), 9);
    Ok(())
}

#[test]
fn fewer_tasks_by_larger_tiles_are_done(rt: HostRuntime) -> Result<(), Fail> {
    let alloc = rt.alloc();
    let ones = ones(alloc)?;
    let mut folder = folder_of_many(alloc, ones.as_str(), true, 0)?;
    let words = "run m.mod 64 64 4";
    expect_end(&rt, alloc, words, &mut folder, 0, "done files=2 steps=0\n")?;
    assert_eq!(rt; folder.put_count(), 2);
    Ok(())
}
