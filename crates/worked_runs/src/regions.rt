//! Runs with windows, areas and map totals. The files were worked out by hand from the rules of the operations.

use crate::files::PUT;
use crate::runs::{Case, expect_cases};
use std::test::Fail;

/// A map of three rows.
const NINE: &str = "ncols 3\nnrows 3\nxllcorner 0\nyllcorner 0\ncellsize 1\n1 2 3\n4 5 6\n7 8 9\n";

/// Windows, areas and map totals in `initial`.
static VALUES: [Case; 7] = [
    (
        "binding A = a.asc; areamap A; initial report W = windowtotal(A, 3);",
        &[("a.asc", "1 2 3 4")],
        0,
        "done files=1 steps=0\n",
        &[("W", "3 6 9 7")],
    ),
    // a window over rows and columns, and one that is larger than the map
    (
        "binding A = a.asc; areamap A; initial report W = windowtotal(A, 3); report X = windowmaximum(A, 31);",
        &[("a.asc", NINE)],
        0,
        "done files=2 steps=0\n",
        &[
            (
                "W",
                "ncols 3\nnrows 3\nxllcorner 0\nyllcorner 0\ncellsize 1\nNODATA_value 1e31\n12 21 16\n27 45 33\n24 39 28\n",
            ),
            (
                "X",
                "ncols 3\nnrows 3\nxllcorner 0\nyllcorner 0\ncellsize 1\nNODATA_value 1e31\n9 9 9\n9 9 9\n9 9 9\n",
            ),
        ],
    ),
    // the most frequent value, the least of several; a cell's own missing value does not matter
    (
        "binding N = n.asc : nominal; M = m.asc : nominal; areamap N; initial report W = windowmajority(N, 3); \
            report D = windowdiversity(M, 3); report A = windowaverage(scalar(M), 3);",
        &[("n.asc", "2 1 2 1"), ("m.asc", "4 -9999 7 -9999")],
        0,
        "done files=3 steps=0\n",
        &[("W", "1 2 1 1"), ("D", "1 2 1 1"), ("A", "4 5.5 7 7")],
    ),
    (
        "binding Z = z.asc : nominal; A = a.asc; areamap Z; initial report W = areaaverage(A, Z);",
        &[("z.asc", "1 2 1"), ("a.asc", "1 5 4")],
        0,
        "done files=1 steps=0\n",
        &[("W", "2.5 5 2.5")],
    ),
    // a class without a value, a cell without a class, and totals of the map
    (
        "binding Z = z.asc : nominal; A = a.asc; areamap Z; initial report T = areatotal(A, Z); \
            report N = areaarea(Z); report M = maptotal(A); report L = mapminimum(ordinal(Z)); report H = mapmaximum(A - 5);",
        &[("z.asc", "1 1 -9999"), ("a.asc", "-9999 -9999 3")],
        0,
        "done files=5 steps=0\n",
        &[
            ("T", "1e31 1e31 1e31"),
            ("N", "2 2 1e31"),
            ("M", "3 3 3"),
            ("L", "1 1 1"),
            ("H", "-2 -2 -2"),
        ],
    ),
    // values of classes, by a class that is a condition; a missing value has its class's
    (
        "binding Q = q.asc : boolean; O = o.asc : ordinal; areamap Q; initial report L = areaminimum(O, Q); \
            report H = areamaximum(O, Q); report M = areamajority(O, Q); report D = areadiversity(O, Q);",
        &[("q.asc", "1 1 1 0 0 -9999"), ("o.asc", "5 -3 5 2 -9999 9")],
        0,
        "done files=4 steps=0\n",
        &[
            ("L", "-3 -3 -3 2 2 1e31"),
            ("H", "5 5 5 2 2 1e31"),
            ("M", "5 5 5 2 2 1e31"),
            ("D", "2 2 2 1 1 1e31"),
        ],
    ),
    // a map without a value
    (
        "binding A = a.asc; areamap A; initial report T = maptotal(A); report W = windowtotal(A, 1);",
        &[("a.asc", "-9999 -9999")],
        0,
        "done files=2 steps=0\n",
        &[("T", "1e31 1e31"), ("W", "1e31 1e31")],
    ),
];

/// Sums out of range, and steps.
static ENDS: [Case; 5] = [
    // an average of what no sum may be
    (
        "binding A = a.asc; areamap A; initial report C = windowaverage(A, 3); report T = windowtotal(A, 3);",
        &[("a.asc", "1 9000000000000 0 9000000000000")],
        5,
        "overflow step 0 statement 2 operation 1 row \
            1 col 1\n",
        &[],
    ),
    // the first cell of the class whose sum is out of range
    (
        "binding Z = z.asc : nominal; A = a.asc; areamap Z; initial X = areaaverage(A, Z); report T = X + areatotal(A, Z);",
        &[("z.asc", "2 1 1"), ("a.asc", "0 1 9000000000000")],
        5,
        "overflow step 0 statement 2 operation 1 row \
            1 col 2\n",
        &[],
    ),
    // sums whose parts leave the range come back into it
    (
        "binding A = a.asc; areamap A; initial report T = maptotal(A);",
        &[("a.asc", "9000000000000 9000000000000 -9000000000000")],
        0,
        "done files=1 steps=0\n",
        &[("T", "9000000000000 9000000000000 9000000000000")],
    ),
    // windows over what the step before left, and totals over a step's grid
    (
        "binding P = rain; Z = z.asc : ordinal; areamap Z; timer 1 2 1; initial S = 0; \
            dynamic report S = windowaverage(S + timeinput(P), 3); report T = timeoutput(Z, S); \
            report H = mapmaximum(areatotal(timeinput(P), Z));",
        &[
            ("z.asc", "1 1 2"),
            ("rain0000.001", "2 4 -9999"),
            ("rain0000.002", "1 0 0"),
        ],
        0,
        "done files=5 steps=2\n",
        &[
            ("S0000000.001", "3 3 4"),
            ("H0000000.001", "6 6 6"),
            ("S0000000.002", "3.5 3.666667 3.5"),
            ("H0000000.002", "1 1 1"),
            (
                "T",
                "timeseries scalar\n3\ntimestep\n1\n2\n1 3 4\n2 3.5 3.5\n",
            ),
        ],
    ),
    // an overflow in a later step
    (
        "binding A = a.asc; areamap A; timer 1 9 1; initial S = A; dynamic report S = maptotal(S);",
        &[("a.asc", "3000000000000 0")],
        5,
        "overflow step 3 statement 2 operation 1 row \
            1 col 1\n",
        &[
            ("S0000000.001", "3000000000000 3000000000000"),
            ("S0000000.002", "6000000000000 6000000000000"),
        ],
    ),
];

#[test]
fn computes_over_windows_and_areas(rt: HostRuntime) -> Result<(), Fail> {
    expect_cases(&rt, rt.alloc(), PUT, &VALUES)
}

#[test]
fn judges_sums_by_their_cells_alone(rt: HostRuntime) -> Result<(), Fail> {
    expect_cases(&rt, rt.alloc(), PUT, &ENDS)
}
