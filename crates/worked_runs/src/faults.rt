//! Runs in which the folder, the sink or the memory fails, at each call in turn, over whole maps and by tiles: over a script
//! with three inputs and three outputs, over two steps, with a table, a series, a stack and time series, over rainfall and
//! runoff, and over stages and a step, with a drain map, windows and areas.

use crate::files::{
    File, INPUTS, PUT, PUT_ELSEWHERE, RUNOFF, RUNOFF_FILES, RUNOFF_PUTS, THREE, THREE_PUTS,
    folder_with,
};
use crate::runs::{end_of, expect_end, expect_puts};
use crate::scant::ScantFolder;
use lue_run::{Ended, status};
use outside_io::MemSink;
use std::alloc::Global;
use std::process::Abort;
use std::sync::Wait;
use std::test::Fail;
use std::thread::Threads;

/// The stack is used twice, and read once in a step.
pub const SCRIPT: &str =
    "binding P = rain; Tab = t.tbl; R = r.tss; Id = id.asc : nominal; areamap Id; timer 1 2 1; \
    initial report B = lookupscalar(Tab, Id); \
    dynamic Wet = timeinputscalar(R, Id) + timeinput(P); report S = Wet + B; report T = timeoutput(Id, S); \
    report W = cover(Wet, timeinput(P)); report U = timeoutput(Id, B);";

/// The files of the script.
pub const FILES: &[File] = &[
    ("id.asc", "1 2"),
    ("t.tbl", "1 10\n2 20\n"),
    ("r.tss", "1 1 2\n2 3 4\n"),
    ("rain0000.001", "0.5 0.25"),
    ("rain0000.002", "0 -1"),
];

/// What is put, in order.
const PUTS: &[File] = &[
    ("B", "10 20"),
    ("S0000000.001", "11.5 22.25"),
    ("W0000000.001", "1.5 2.25"),
    ("S0000000.002", "13 23"),
    ("W0000000.002", "3 3"),
    (
        "T",
        "timeseries scalar\n3\ntimestep\n1\n2\n1 11.5 22.25\n2 13 23\n",
    ),
    (
        "U",
        "timeseries scalar\n3\ntimestep\n1\n2\n1 10 20\n2 10 20\n",
    ),
];

/// A call of the folder that fails: its number, how many files are put before it, the status and the line.
type Call = (u64, usize, u8, &'static str);

/// A script, its files, what is put and below which head, and its calls with the one past the last.
type Model = (
    &'static str,
    &'static [File],
    &'static str,
    &'static [File],
    &'static [Call],
);

/// The calls of the script with three inputs and three outputs.
const THREE_CALLS: &[Call] = &[
    (1, 0, 7, "read fault m.mod\n"),
    (2, 0, 7, "read fault r.asc\n"),
    (3, 0, 7, "read fault n.asc\n"),
    (4, 0, 7, "read fault a.asc\n"),
    (5, 0, 8, "write fault wet.asc\n"),
    (6, 1, 8, "write fault Class\n"),
    (7, 2, 8, "write fault Twice\n"),
    (8, 3, 0, "done files=3 steps=0\n"),
];

/// The calls of the script over steps.
const CALLS: &[Call] = &[
    (1, 0, 7, "read fault m.mod\n"),
    (2, 0, 7, "read fault id.asc\n"),
    (3, 0, 7, "read fault t.tbl\n"),
    (4, 0, 7, "read fault r.tss\n"),
    (5, 0, 8, "write fault B\n"),
    (6, 1, 7, "read fault rain0000.001\n"),
    (7, 1, 8, "write fault S0000000.001\n"),
    (8, 2, 8, "write fault W0000000.001\n"),
    (9, 3, 7, "read fault rain0000.002\n"),
    (10, 3, 8, "write fault S0000000.002\n"),
    (11, 4, 8, "write fault W0000000.002\n"),
    (12, 5, 8, "write fault T\n"),
    (13, 6, 8, "write fault U\n"),
    (14, 7, 0, "done files=7 steps=2\n"),
];

/// The calls of rainfall and runoff.
const RUNOFF_CALLS: &[Call] = &[
    (1, 0, 7, "read fault m.mod\n"),
    (2, 0, 7, "read fault ldd.asc\n"),
    (3, 0, 7, "read fault rain.tss\n"),
    (4, 0, 7, "read fault zone.asc\n"),
    (5, 0, 7, "read fault soil.asc\n"),
    (6, 0, 7, "read fault infil.tbl\n"),
    (7, 0, 8, "write fault q0000000.001\n"),
    (8, 1, 8, "write fault q0000000.002\n"),
    (9, 2, 8, "write fault out.tss\n"),
    (10, 3, 0, "done files=3 steps=2\n"),
];

static MODELS: [Model; 4] = [
    // three inputs and three outputs of `initial`
    (THREE, INPUTS, PUT_ELSEWHERE, THREE_PUTS, THREE_CALLS),
    (SCRIPT, FILES, PUT, PUTS, CALLS),
    (RUNOFF, RUNOFF_FILES, PUT, RUNOFF_PUTS, RUNOFF_CALLS),
    // a drain map among the inputs, and one that is computed and put
    (
        "binding A = a.asc; L = l.asc : ldd; B = b.asc; areamap A; timer 1 1 1; initial W = windowtotal(B, 3); \
            report K = lddmask(L, W >= 3); report C = areaarea(boolean(B)); dynamic report Q = accuflux(K, A);",
        &[("a.asc", "1 1 1"), ("l.asc", "6 6 5"), ("b.asc", "1 0 3")],
        PUT,
        &[
            ("K", "1e31 6 5"),
            ("C", "2 1 2"),
            ("Q0000000.001", "1e31 1 2"),
        ],
        &[
            (1, 0, 7, "read fault m.mod\n"),
            (2, 0, 7, "read fault a.asc\n"),
            (3, 0, 7, "read fault l.asc\n"),
            (4, 0, 7, "read fault b.asc\n"),
            (5, 0, 8, "write fault K\n"),
            (6, 1, 8, "write fault C\n"),
            (7, 2, 8, "write fault Q0000000.001\n"),
            (8, 3, 0, "done files=3 steps=1\n"),
        ],
    ),
];

// What is put before that many files are.
fn puts_before(model: &Model, puts: usize) -> &'static [File] {
    let (before, _) = model.3.split_at(puts.min(model.3.len()));
    before
}

// A run in which this call of the folder fails ends so.
fn expect_fault(
    rt: &(impl Abort + Threads + Wait + Sync),
    alloc: Global,
    words: &str,
    model: &Model,
    row: &Call,
) -> Result<(), Fail> {
    let (call, puts, answer, line) = *row;
    let mut folder = folder_with(alloc, model.0, model.1, call)?;
    expect_end(rt, alloc, words, &mut folder, answer, line)?;
    expect_puts(rt, alloc, &folder, model.2, puts_before(model, puts), line)
}

// A run in which this call of the folder fails, and the write of the line too, tells the status that stood there.
fn expect_unwritten(
    rt: &(impl Abort + Threads + Wait + Sync),
    alloc: Global,
    words: &str,
    model: &Model,
    row: &Call,
) -> Result<(), Fail> {
    let (call, puts, stood, line) = *row;
    let mut folder = folder_with(alloc, model.0, model.1, call)?;
    let mut out = MemSink::new();
    out.fail_on(vec![in alloc; 1]?);
    let end = end_of(rt, alloc, words, &mut folder, &mut out)?;
    assert_eq!(rt; instead_of(&end), Some(stood), "no line at {line}");
    assert_eq!(rt;
        (status(&end), out.bytes().len()),
        (9, 0),
        "no line at {line}"
    );
    expect_puts(rt, alloc, &folder, model.2, puts_before(model, puts), line)
}

// The status in place of which a run tells that its line is not written.
fn instead_of(end: &Ended) -> Option<u8> {
    match end {
        Ended::OutFault { instead } => Some(*instead),
        _ => None,
    }
}

// A run in which this call finds no memory ends so and writes nothing, whether the sink works or not; the call past the last
// is not made.
fn expect_no_memory(
    rt: &(impl Abort + Threads + Wait + Sync),
    alloc: Global,
    words: &str,
    model: &Model,
    row: &Call,
) -> Result<(), Fail> {
    let (call, puts, stands, line) = *row;
    let (answer, written, made, sink_fails): (u8, &str, u64, u64) = if stands == 0 {
        (0, line, call.saturating_sub(1), 0)
    } else {
        (10, "", call, call % 2)
    };
    let mut folder = ScantFolder::new(folder_with(alloc, model.0, model.1, 0)?, call);
    let mut out = MemSink::new();
    out.fail_on(vec![in alloc; sink_fails]?);
    let end = end_of(rt, alloc, words, &mut folder, &mut out)?;
    assert_eq!(rt; out.bytes(), written.as_bytes(), "no memory at {line}");
    assert_eq!(rt;
        (status(&end), folder.calls),
        (answer, made),
        "no memory at {line}"
    );
    expect_puts(
        rt,
        alloc,
        &folder.folder,
        model.2,
        puts_before(model, puts),
        line,
    )
}

// Each call of a script fails in turn.
fn expect_model(
    rt: &(impl Abort + Threads + Wait + Sync),
    alloc: Global,
    words: &str,
    model: &Model,
) -> Result<(), Fail> {
    for row in model.4 {
        expect_fault(rt, alloc, words, model, row)?;
        expect_unwritten(rt, alloc, words, model, row)?;
        expect_no_memory(rt, alloc, words, model, row)?;
    }
    Ok(())
}

// Each call of each script fails in turn.
fn expect_models(
    rt: &(impl Abort + Threads + Wait + Sync),
    alloc: Global,
    words: &str,
) -> Result<(), Fail> {
    for model in &MODELS {
        expect_model(rt, alloc, words, model)?;
    }
    Ok(())
}

#[test]
fn each_call_fails_in_turn(rt: HostRuntime) -> Result<(), Fail> {
    expect_models(&rt, rt.alloc(), "plain m.mod")
}

#[test]
fn each_call_fails_in_turn_by_tiles(rt: HostRuntime) -> Result<(), Fail> {
    expect_models(&rt, rt.alloc(), "run m.mod 1 2 2")
}
