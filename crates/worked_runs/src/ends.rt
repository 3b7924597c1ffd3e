//! Runs whose words and files alone decide that nothing is put: a row for each end, with its line and its status.

use crate::files::{File, INPUTS, PUT, THREE, folder_with};
use crate::runs::{end_of, expect_case, expect_end, expect_puts};
use lue_run::Ended;
use outside_io::{CalmFolder, CalmSink};
use std::alloc::Global;
use std::process::Abort;
use std::sync::Wait;
use std::test::Fail;
use std::thread::Threads;

/// A script, the status and the line.
type Row = (&'static str, u8, &'static str);

/// A name of 65 letters.
const LONG_NAME: &str = "areamap r.asc; initial \
    AAAAAAAAAABBBBBBBBBBCCCCCCCCCCDDDDDDDDDDEEEEEEEEEEFFFFFFFFFFGGGGG = 1;";

static SCRIPTS: [Row; 24] = [
    // the first fault of the text
    ("", 3, "script 1:1 end\n"),
    ("areamap r.asc; initial C = 1 $ 2;", 3, "script 1:30 byte\n"),
    ("areamap r.asc;\ninitial\nC 1;", 3, "script 3:3 token\n"),
    ("areamap r.asc;\ninitial C = 1", 3, "script 2:14 end\n"),
    (LONG_NAME, 3, "script 1:24 long\n"),
    (
        "areamap r.asc; timer 2 4 1; dynamic C = 1;",
        3,
        "script 1:22 number\n",
    ),
    (
        "areamap r.asc; initial C = windowtotal(r, 3) +;",
        3,
        "script 1:47 token\n",
    ),
    // the first fault of meaning
    (
        "binding A = a.asc; A = b.asc; areamap Z; initial C = Y;",
        3,
        "script binding 2 name-clash\n",
    ),
    (
        "binding K = 3.5 : nominal; areamap r.asc; initial C = K;",
        3,
        "script binding 1 kind-mismatch\n",
    ),
    (
        "binding K = 3; areamap K; initial C = Y;",
        3,
        "script areamap kind-mismatch\n",
    ),
    (
        "binding A = r.asc; areamap A; initial A = 1;",
        3,
        "script areamap name-clash\n",
    ),
    (
        "areamap r.asc; initial X = 1; C = X + Z;",
        3,
        "script statement 2 unknown-name\n",
    ),
    (
        "areamap r.asc; initial C = D; D = 1;",
        3,
        "script statement 1 not-assigned\n",
    ),
    (
        "binding N = n.asc : nominal; areamap r.asc; initial X = 1; Y = 1; C = X + N;",
        3,
        "script statement 3 kind-mismatch\n",
    ),
    (
        "areamap r.asc; initial C = windowtotal(1, 2);",
        3,
        "script statement 1 bad-window\n",
    ),
    (
        "areamap r.asc; initial X = 1; C = accuflux(5, X);",
        3,
        "script statement 2 drain-place\n",
    ),
    (
        "binding L = n.asc : ldd; areamap r.asc; timer 1 1 1; dynamic K = L;",
        3,
        "script statement 1 drain-place\n",
    ),
    (
        "areamap r.asc; initial report C = 1; report C = 2;",
        3,
        "script statement 2 name-clash\n",
    ),
    // inputs: the area map first, then each other one that is used, in the order of `binding`
    (
        "binding A = u.asc; B = v.asc; areamap B; initial C = A;",
        4,
        "missing v.asc\n",
    ),
    (
        "binding B = v.asc; A = u.asc; areamap r.asc; initial C = A + B;",
        4,
        "missing v.asc\n",
    ),
    (
        "binding Q = r.asc : boolean; areamap q.asc; initial C = Q;",
        4,
        "input r.asc grid range 53\n",
    ),
    (
        "binding S = short.asc; areamap r.asc; initial C = S;",
        4,
        "input short.asc grid count 53\n",
    ),
    (
        "binding W = wide.asc; A = a.asc; areamap r.asc; initial C = W + A;",
        4,
        "input wide.asc size 1 4\n",
    ),
    // the first result that is out of range, though its statement reports nothing
    (
        "binding A = a.asc; areamap r.asc; initial X = A + 1; report C = X * X; Y = nominal(X * 1000 * 1000000);",
        5,
        "overflow step 0 statement 3 operation 3 row \
            1 col 2\n",
    ),
];

/// What these scripts put.
const NOTHING: &[File] = &[];

// Each script ends so, and puts nothing.
fn expect_refused(
    rt: &(impl Abort + Threads + Wait + Sync),
    alloc: Global,
    rows: &[Row],
) -> Result<(), Fail> {
    for (script, answer, line) in rows {
        let case = (*script, INPUTS, *answer, *line, NOTHING);
        expect_case(rt, alloc, PUT, &case)?;
    }
    Ok(())
}

#[test]
fn refuses_by_name_and_place(rt: HostRuntime) -> Result<(), Fail> {
    expect_refused(&rt, rt.alloc(), &SCRIPTS)
}

/// Words that are no command.
static OTHER_WORDS: [&str; 28] = [
    "",
    "plain",
    "plain a/b",
    "plain .mod",
    "plain m.mod 1",
    "make",
    "make 7 7",
    "make m.mod",
    "make -1",
    "make +7",
    "make 007",
    "make 7.0",
    "make 4294967296",
    "run",
    "run m.mod",
    "run m.mod 1 1",
    "run m.mod 0 1 1",
    "run m.mod 1 0 1",
    "run m.mod 1 1 0",
    "run m.mod 01 1 1",
    "run m.mod 4097 1 1",
    "run m.mod 1 4097 1",
    "run m.mod 1 1 65",
    "run m.mod 1 -1 1",
    "run m.mod 1 1 1 1",
    "run a/b 1 1 1",
    "run 1 1 1",
    "--help",
];

// The texts give no command: nothing is read, and nothing is put.
fn expect_usage(
    rt: &(impl Abort + Threads + Wait + Sync),
    alloc: Global,
    texts: &[&str],
) -> Result<(), Fail> {
    for text in texts {
        let mut folder = folder_with(alloc, THREE, INPUTS, 1)?;
        expect_end(rt, alloc, text, &mut folder, 2, "usage\n")?;
        expect_puts(rt, alloc, &folder, PUT, &[], text)?;
    }
    Ok(())
}

#[test]
fn takes_no_other_words(rt: HostRuntime) -> Result<(), Fail> {
    expect_usage(&rt, rt.alloc(), &OTHER_WORDS)
}

// A folder that holds more than a script may have.
fn hold_long(alloc: Global, folder: &mut CalmFolder) -> Result<(), Fail> {
    let long = vec![in alloc; b' '; 1_048_577]?;
    folder.hold(alloc, b"m.mod", &long)?;
    Ok(())
}

#[test]
fn tells_a_script_that_is_not_there_or_too_long(rt: HostRuntime) -> Result<(), Fail> {
    let alloc = rt.alloc();
    let mut folder = CalmFolder::new(alloc);
    expect_end(&rt, alloc, "plain m.mod", &mut folder, 4, "missing m.mod\n")?;
    hold_long(alloc, &mut folder)?;
    let mut out = CalmSink::new();
    let Ended::TooLong(name) = end_of(&rt, alloc, "plain m.mod", &mut folder, &mut out)? else {
        return Err(Fail::new("another answer"));
    };
    assert_eq!(rt; name.bytes(), b"m.mod".as_slice());
    Ok(())
}
