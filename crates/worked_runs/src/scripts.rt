//! Scripts that come to their end, and what they put. The cells were worked out by hand from the rules of the operations.

use crate::files::{File, INPUTS, PUT_ELSEWHERE};
use crate::runs::expect_case;
use std::alloc::Global;
use std::process::Abort;
use std::sync::Wait;
use std::test::Fail;
use std::thread::Threads;

/// A script, the line of its end, and the maps that it puts, in order.
type Script = (&'static str, &'static str, &'static [File]);

static SCRIPTS: [Script; 6] = [
    // a name has the value that the last statement above gave it
    (
        "binding Rain = r.asc; B = b.asc; areamap Rain; \
            initial X = Rain; X = X + B; report C = X - Rain; X = 2; report E = X * Rain;",
        "done files=2 steps=0\n",
        &[("C", "4 3 1"), ("E", "4 1 20")],
    ),
    // a report goes to the file of its target, and operands stand in their order
    (
        "binding Q = q.asc : boolean; B = b.asc; Rain = r.asc; Out = out-1.asc; areamap Rain; \
            initial report Out = if(Q then Rain - B else B - Rain); report D = Rain / B;",
        "done files=2 steps=0\n",
        &[("out-1.asc", "-2 2.5 9"), ("D", "0.5 0.166667 10")],
    ),
    // numbers take the kind of their place; missing cells stay so, but for `cover`
    (
        "binding Rain = r.asc; A = a.asc; N = n.asc : nominal; K = 2; areamap Rain; \
            initial report C = min(A, K, 0.5); report E = N == K; report G = if(E then N); \
            report H = cover(G, 7); report I = nominal(Rain) eq N;",
        "done files=5 steps=0\n",
        &[
            ("C", "0.5 0.5 1e31"),
            ("E", "0 1 0"),
            ("G", "1e31 2 1e31"),
            ("H", "7 2 7"),
            ("I", "0 0 0"),
        ],
    ),
    // the area map is a file, and no statement reads it
    (
        "areamap r.asc; initial C = 3; report D = -C;",
        "done files=1 steps=0\n",
        &[("D", "-3 -3 -3")],
    ),
    // an input is reported as it is, with the head of the area map and in the writing of its kind
    (
        "binding A = a.asc; areamap r.asc; initial report C = A;",
        "done files=1 steps=0\n",
        &[("C", "1 5 1e31")],
    ),
    // nothing is reported
    (
        "binding A = a.asc; areamap A; initial C = A + 1;",
        "done files=0 steps=0\n",
        &[],
    ),
];

// The scripts come to their ends so.
fn expect_scripts(
    rt: &(impl Abort + Threads + Wait + Sync),
    alloc: Global,
    rows: &[Script],
) -> Result<(), Fail> {
    for (script, line, puts) in rows {
        let case = (*script, INPUTS, 0u8, *line, *puts);
        expect_case(rt, alloc, PUT_ELSEWHERE, &case)?;
    }
    Ok(())
}

#[test]
fn puts_what_the_statements_report(rt: HostRuntime) -> Result<(), Fail> {
    expect_scripts(&rt, rt.alloc(), &SCRIPTS)
}
