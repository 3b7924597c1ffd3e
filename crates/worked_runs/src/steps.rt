//! Runs over steps: sections, tables, series, stacks and samples. The files were worked out by hand from the rules of the
//! language and of a run.

use crate::files::{PUT, folder_with};
use crate::runs::{Case, expect_cases, expect_end};
use std::test::Fail;

/// A stack that is read and written.
const STACK: &str =
    "binding P = rain; Id = id.asc : nominal; areamap Id; timer 1 4 1; dynamic report O = timeinput(P);";

/// A sum over the steps, and its series.
const SUM: &str =
    "binding R = r.tss; Id = id.asc : nominal; areamap Id; timer 1 4 1; initial report Start = 1; S = Start; \
    dynamic report S = S + timeinputscalar(R, Id); report T = timeoutput(Id, S); report N = timeoutput(Id, Id);";

/// Stacks that are read and written, and ends within a step.
static STACKS: [Case; 7] = [
    // a sum over the steps
    (
        "binding R = r.tss; Id = id.asc : nominal; areamap Id; timer 1 3 1; initial S = 0; \
            dynamic report S = S + timeinputscalar(R, Id);",
        &[("id.asc", "1"), ("r.tss", "1 1\n2 2\n3 4\n")],
        0,
        "done files=3 steps=3\n",
        &[
            ("S0000000.001", "1"),
            ("S0000000.002", "3"),
            ("S0000000.003", "7"),
        ],
    ),
    // the grid of a step is not there, has another size, or is none
    (
        STACK,
        &[("id.asc", "1"), ("rain0000.001", "5")],
        4,
        "missing rain0000.002\n",
        &[("O0000000.001", "5")],
    ),
    (
        STACK,
        &[
            ("id.asc", "1"),
            ("rain0000.001", "5"),
            ("rain0000.002", "5 6"),
        ],
        4,
        "input rain0000.002 size 1 2\n",
        &[("O0000000.001", "5")],
    ),
    (
        STACK,
        &[
            ("id.asc", "1"),
            ("rain0000.001", "5"),
            ("rain0000.002", "wet"),
        ],
        4,
        "input rain0000.002 grid bad-number 51\n",
        &[("O0000000.001", "5")],
    ),
    (STACK, &[("id.asc", "1")], 4, "missing rain0000.001\n", &[]),
    // the stacks of a step are read in the order of their bindings
    (
        "binding H = heat : nominal; P = rain; Id = id.asc : nominal; areamap Id; timer 1 2 1; \
            dynamic report O = timeinput(P); report E = timeinput(H);",
        &[
            ("id.asc", "1"),
            ("rain0000.001", "5"),
            ("heat0000.001", "6"),
        ],
        4,
        "missing heat0000.002\n",
        &[("O0000000.001", "5"), ("E0000000.001", "6")],
    ),
    (
        "binding P = rain; H = heat : nominal; Id = id.asc : nominal; areamap Id; timer 1 2 1; \
            dynamic report E = timeinput(H); report O = timeinput(P);",
        &[
            ("id.asc", "1"),
            ("rain0000.001", "5"),
            ("rain0000.002", "2"),
            ("heat0000.001", "6"),
            ("heat0000.002", "2.5"),
        ],
        4,
        "input heat0000.002 grid range 51\n",
        &[("E0000000.001", "6"), ("O0000000.001", "5")],
    ),
];

/// Lookups, and samples of every sort of leaf.
static SAMPLES: [Case; 6] = [
    // a lookup table in `initial`
    (
        "binding A = a.asc; T = t.tbl; areamap A; initial report C = lookupscalar(T, A);",
        &[
            ("a.asc", "10 9.999999 -1"),
            ("t.tbl", "[0,10> 1\n[10,> 2\n"),
        ],
        0,
        "done files=1 steps=0\n",
        &[("C", "2 1 1e31")],
    ),
    // tables of several keys and kinds, with a number as a key, missing keys, and a table that is used twice
    (
        "binding N = n.asc : nominal; A = a.asc; T = t.tbl; D = d.tbl : nominal; areamap N; \
            initial report C = lookupnominal(T, N, A); report E = lookupnominal(T, 2, A + 1) == C; \
            report F = lookupdirectional(D, defined(A)); report G = lookupdirectional(D, 1);",
        &[
            ("n.asc", "1 2 -9999"),
            ("a.asc", "0.5 -9999 3"),
            ("t.tbl", "1 <0,1] 7\n\n2 [,] -3\n"),
            ("d.tbl", "0 90\r\n1 12.5\r\n"),
        ],
        0,
        "done files=4 steps=0\n",
        &[
            ("C", "7 1e31 1e31"),
            ("E", "0 1e31 1e31"),
            ("F", "12.5 90 12.5"),
            ("G", "12.5 12.5 12.5"),
        ],
    ),
    // a lookup in a step
    (
        "binding A = a.asc; T = t.tbl; areamap A; timer 1 3 1; dynamic report C = lookupscalar(T, time(), A);",
        &[("a.asc", "1 2"), ("t.tbl", "1 1 5\n1 2 6\n[3,> [,2> 7\n")],
        0,
        "done files=3 steps=3\n",
        &[
            ("C0000000.001", "5 6"),
            ("C0000000.002", "1e31 1e31"),
            ("C0000000.003", "7 1e31"),
        ],
    ),
    // a sample at the first cells of the ids
    (
        "binding Id = id.asc : nominal; A = a.asc; areamap Id; timer 1 2 1; dynamic report T = timeoutput(Id, A);",
        &[("id.asc", "2 1 2"), ("a.asc", "10 20 30")],
        0,
        "done files=1 steps=2\n",
        &[(
            "T",
            "timeseries scalar\n3\ntimestep\n1\n2\n1 20 10\n2 20 10\n",
        )],
    ),
    // ids that are not positive or missing, values that are missing, each sort of leaf
    (
        "binding P = wind : directional; Id = id.asc : ordinal; A = a.asc; Out = o.tss; K = 2; areamap Id; timer 1 2 1; \
            initial Was = A; Up = A * 2; \
            dynamic report Out = timeoutput(Id, A); report T = timeoutput(Id, time()); \
            report W = timeoutput(Id, timeinput(P)); report L = timeoutput(Id, Was); report U = timeoutput(Id, Up); \
            report K1 = timeoutput(Id, K); report K2 = timeoutput(Id, 2.50); Was = Was + time(); \
            report M = timeoutput(Id, Was); report B = timeoutput(Id, Was > 3);",
        &[
            ("id.asc", "0 -3 -9999 7 7 2"),
            ("a.asc", "1 2 3 -9999 5 0.5"),
            ("wind0000.001", "1 2 3 359.999999 5 6"),
            ("wind0000.002", "1 2 3 0 5 -9999"),
        ],
        0,
        "done files=9 steps=2\n",
        &[
            (
                "o.tss",
                "timeseries scalar\n3\ntimestep\n2\n7\n1 0.5 1e31\n2 0.5 1e31\n",
            ),
            ("T", "timeseries scalar\n3\ntimestep\n2\n7\n1 1 1\n2 2 2\n"),
            (
                "W",
                "timeseries directional\n3\ntimestep\n2\n7\n1 6 359.999999\n2 1e31 0\n",
            ),
            (
                "L",
                "timeseries scalar\n3\ntimestep\n2\n7\n1 0.5 1e31\n2 1.5 1e31\n",
            ),
            (
                "U",
                "timeseries scalar\n3\ntimestep\n2\n7\n1 1 1e31\n2 1 1e31\n",
            ),
            ("K1", "timeseries scalar\n3\ntimestep\n2\n7\n1 2 2\n2 2 2\n"),
            (
                "K2",
                "timeseries scalar\n3\ntimestep\n2\n7\n1 2.5 2.5\n2 2.5 2.5\n",
            ),
            (
                "M",
                "timeseries scalar\n3\ntimestep\n2\n7\n1 1.5 1e31\n2 3.5 1e31\n",
            ),
            (
                "B",
                "timeseries boolean\n3\ntimestep\n2\n7\n1 0 1e31\n2 1 1e31\n",
            ),
        ],
    ),
    // ids without a column
    (
        "binding Id = id.asc : boolean; areamap Id; timer 1 2 1; dynamic report T = timeoutput(Id, time());",
        &[("id.asc", "0 -9999")],
        0,
        "done files=1 steps=2\n",
        &[("T", "timeseries scalar\n1\ntimestep\n1\n2\n")],
    ),
];

/// Samples by the mean, which the first line asks for, and by the first cell, where it asks for something else.
static MEANS: [Case; 6] = [
    // of an id's cells the mean, also by a line end of two bytes
    (
        "#! timeoutput mean\nbinding Id = id.asc : nominal; A = a.asc; areamap Id; timer 1 2 1; dynamic report T = timeoutput(Id, A);",
        &[("id.asc", "2 1 2"), ("a.asc", "10 20 31")],
        0,
        "done files=1 steps=2\n",
        &[(
            "T",
            "timeseries scalar\n3\ntimestep\n1\n2\n1 20 20.5\n2 20 20.5\n",
        )],
    ),
    (
        "#! timeoutput mean\r\nbinding Id = id.asc : nominal; A = a.asc; areamap Id; timer 1 1 1; dynamic report T = timeoutput(Id, A);",
        &[("id.asc", "2 1 2"), ("a.asc", "-9999 20 31")],
        0,
        "done files=1 steps=1\n",
        &[("T", "timeseries scalar\n3\ntimestep\n1\n2\n1 20 31\n")],
    ),
    // another word is a comment
    (
        "#! timeoutput median\nbinding Id = id.asc : nominal; A = a.asc; areamap Id; timer 1 1 1; dynamic report T = timeoutput(Id, A);",
        &[("id.asc", "2 1 2"), ("a.asc", "10 20 30")],
        0,
        "done files=1 steps=1\n",
        &[("T", "timeseries scalar\n3\ntimestep\n1\n2\n1 20 10\n")],
    ),
    // rounding to the nearest, ties away from zero; ids without values; a number, the time, and a formula of one operation
    (
        "#! timeoutput mean\nbinding Id = id.asc : ordinal; A = a.asc; areamap Id; timer 1 1 1; \
            dynamic report T = timeoutput(Id, A); report K = timeoutput(Id, 2.5); report S = timeoutput(Id, time()); \
            report B = timeoutput(Id, A * 1000000);",
        &[
            ("id.asc", "1 1 2 2 3 3 3 4 -1 0 -9999"),
            (
                "a.asc",
                "0.000001 0.000002 -0.000001 -0.000002 0 0 0.000001 -9999 5 6 7",
            ),
        ],
        0,
        "done files=4 steps=1\n",
        &[
            (
                "T",
                "timeseries scalar\n5\ntimestep\n1\n2\n3\n4\n1 0.000002 -0.000002 0 1e31\n",
            ),
            (
                "K",
                "timeseries scalar\n5\ntimestep\n1\n2\n3\n4\n1 2.5 2.5 2.5 2.5\n",
            ),
            (
                "S",
                "timeseries scalar\n5\ntimestep\n1\n2\n3\n4\n1 1 1 1 1\n",
            ),
            (
                "B",
                "timeseries scalar\n5\ntimestep\n1\n2\n3\n4\n1 1.5 -1.5 0.333333 1e31\n",
            ),
        ],
    ),
    // a mean is one of scalars
    (
        "#! timeoutput mean\nbinding Id = id.asc : nominal; areamap Id; timer 1 1 1; dynamic report T = timeoutput(Id, Id);",
        &[("id.asc", "1")],
        3,
        "script statement 1 kind-mismatch\n",
        &[],
    ),
    // an operation of the operand is out of range
    (
        "#! timeoutput mean\nbinding Id = id.asc : nominal; areamap Id; timer 1 1 1; \
            dynamic report T = timeoutput(Id, 9000000000000 * 2);",
        &[("id.asc", "1 1")],
        5,
        "overflow step 1 statement 1 operation 1 row \
            1 col 1\n",
        &[("T", "timeseries scalar\n2\ntimestep\n1\n")],
    ),
];

/// Series, and what names have from the step before.
static SERIES: [Case; 5] = [
    // two maps of ids; series are put in the order of their statements, behind the last step
    (
        "binding Id = id.asc : nominal; Ok = ok.asc : boolean; areamap Id; timer 1 2 1; \
            dynamic report B = timeoutput(Ok, Id); report C = time(); report A = timeoutput(Id, Id);",
        &[("id.asc", "3 2"), ("ok.asc", "0 1")],
        0,
        "done files=4 steps=2\n",
        &[
            ("C0000000.001", "1 1"),
            ("C0000000.002", "2 2"),
            ("B", "timeseries nominal\n2\ntimestep\n1\n1 2\n2 2\n"),
            ("A", "timeseries nominal\n3\ntimestep\n2\n3\n1 2 3\n2 2 3\n"),
        ],
    ),
    // a series that is not reported is not put
    (
        "binding Id = id.asc : nominal; areamap Id; timer 1 1 1; dynamic T = timeoutput(Id, time()); report C = time();",
        &[("id.asc", "1")],
        0,
        "done files=1 steps=1\n",
        &[("C0000000.001", "1")],
    ),
    // a name has what the step before left it
    (
        "areamap a.asc; timer 1 3 1; initial A = 1; B = 1; dynamic report X = B; B = A; A = A + B;",
        &[("a.asc", "0")],
        0,
        "done files=3 steps=3\n",
        &[
            ("X0000000.001", "1"),
            ("X0000000.002", "1"),
            ("X0000000.003", "2"),
        ],
    ),
    // the last of several assignments
    (
        "areamap a.asc; timer 1 3 1; initial A = 1; A = A + 1; \
            dynamic report X = A; A = A * 10; report Y = A; A = A + time();",
        &[("a.asc", "0")],
        0,
        "done files=6 steps=3\n",
        &[
            ("X0000000.001", "2"),
            ("Y0000000.001", "20"),
            ("X0000000.002", "21"),
            ("Y0000000.002", "210"),
            ("X0000000.003", "212"),
            ("Y0000000.003", "2120"),
        ],
    ),
    // names of `initial` that `dynamic` does not assign, grids, and what `initial` reports
    (
        "binding A = a.asc; Out = out; areamap A; timer 1 2 1; initial report C = A + 1; D = C * 2; \
            dynamic report Out = D + time(); report E = A;",
        &[("a.asc", "1 -9999")],
        0,
        "done files=5 steps=2\n",
        &[
            ("C", "2 1e31"),
            ("out00000.001", "5 1e31"),
            ("E0000000.001", "1 1e31"),
            ("out00000.002", "6 1e31"),
            ("E0000000.002", "1 1e31"),
        ],
    ),
];

/// Sections that are left out, columns that are not there, and results out of range in a step.
static SECTIONS: [Case; 6] = [
    // no section `initial`, and an area map that is one of the grids of a stack
    (
        "binding P = rain : nominal; areamap rain0000.002; timer 1 2 1; dynamic report O = timeinput(P) == 5;",
        &[("rain0000.001", "5 6"), ("rain0000.002", "4 5")],
        0,
        "done files=2 steps=2\n",
        &[("O0000000.001", "1 0"), ("O0000000.002", "0 1")],
    ),
    // rows and columns that are not there
    (
        "binding R = r.tss : nominal; Id = id.asc : nominal; areamap Id; timer 1 3 1; \
            dynamic report S = timeinputnominal(R, Id); report E = timeinputnominal(R, 2);",
        &[
            ("id.asc", "2 0 -1 3 1 -9999"),
            ("r.tss", "rain\n3\nstep\nx\ny\n1 5 6\n3 7 1e31\n4 8 9\n"),
        ],
        0,
        "done files=6 steps=3\n",
        &[
            ("S0000000.001", "6 1e31 1e31 1e31 5 1e31"),
            ("E0000000.001", "6 6 6 6 6 6"),
            ("S0000000.002", "1e31 1e31 1e31 1e31 1e31 1e31"),
            ("E0000000.002", "1e31 1e31 1e31 1e31 1e31 1e31"),
            ("S0000000.003", "1e31 1e31 1e31 1e31 7 1e31"),
            ("E0000000.003", "1e31 1e31 1e31 1e31 1e31 1e31"),
        ],
    ),
    // ids that are computed, and kinds of series
    (
        "binding R = r.tss; A = a.asc; Q = q.tss; areamap A; timer 1 2 1; \
            dynamic report S = timeinputboolean(R, ordinal(A)); report D = timeinputdirectional(Q, boolean(A));",
        &[
            ("a.asc", "2.9 1 0"),
            ("r.tss", "1 0 1\n2 1 0\n"),
            ("q.tss", "2 359.5\n"),
        ],
        0,
        "done files=4 steps=2\n",
        &[
            ("S0000000.001", "1 0 1e31"),
            ("D0000000.001", "1e31 1e31 1e31"),
            ("S0000000.002", "0 1 1e31"),
            ("D0000000.002", "359.5 359.5 1e31"),
        ],
    ),
    // an overflow in a step: the rows of the steps that were settled
    (
        SUM,
        &[("id.asc", "1"), ("r.tss", "1 9000000000000\n2 1\n")],
        5,
        "overflow step 1 statement 3 operation 2 row \
            1 col 1\n",
        &[
            ("Start", "1"),
            ("T", "timeseries scalar\n2\ntimestep\n1\n"),
            ("N", "timeseries nominal\n2\ntimestep\n1\n"),
        ],
    ),
    (
        SUM,
        &[
            ("id.asc", "1 2"),
            ("r.tss", "1 1 1\n2 1 2\n3 1 9000000000000\n4 0 0\n"),
        ],
        5,
        "overflow step 3 statement 3 operation 2 row \
            1 col 2\n",
        &[
            ("Start", "1 1"),
            ("S0000000.001", "2 2"),
            ("S0000000.002", "3 4"),
            ("T", "timeseries scalar\n3\ntimestep\n1\n2\n1 2 2\n2 3 4\n"),
            ("N", "timeseries nominal\n3\ntimestep\n1\n2\n1 1 2\n2 1 2\n"),
        ],
    ),
    (
        "binding R = r.tss; Id = id.asc : nominal; areamap Id; timer 1 2 1; initial S = 1; \
            dynamic report S = S + timeinputscalar(R, Id); report T = timeoutput(Id, S);",
        &[("id.asc", "1"), ("r.tss", "1 9000000000000\n2 1\n")],
        5,
        "overflow step 1 statement 2 operation 2 row \
            1 col 1\n",
        &[("T", "timeseries scalar\n2\ntimestep\n1\n")],
    ),
];

/// Results out of range in order, maps of several rows, and grids that are not there.
static OVERFLOWS: [Case; 6] = [
    // an overflow in step 0: nothing
    (
        "binding Id = id.asc : nominal; areamap Id; timer 1 2 1; initial report S = 1; Big = 9000000000000 + S; \
            dynamic report C = time(); report T = timeoutput(Id, S);",
        &[("id.asc", "1")],
        5,
        "overflow step 0 statement 2 operation 1 row \
            1 col 1\n",
        &[],
    ),
    // an overflow in what a series that is not reported samples
    (
        "binding Id = id.asc : nominal; areamap Id; timer 1 3 1; initial Big = 8999999999998; \
            dynamic report C = time(); T = timeoutput(Id, Big + time());",
        &[("id.asc", "1")],
        5,
        "overflow step 3 statement 3 operation 1 row \
            1 col 1\n",
        &[("C0000000.001", "1"), ("C0000000.002", "2")],
    ),
    // the first overflow of a step is told, by its statement, its operation and its cell
    (
        "binding A = a.asc; areamap A; timer 1 2 1; initial F = 1; \
            dynamic F = F * 1000000; Y = nominal(A * F) == 1; X = A * A;",
        &[("a.asc", "1 3000 4000000")],
        5,
        "overflow step 1 statement 3 operation 2 row \
            1 col 2\n",
        &[],
    ),
    // maps of several rows, and stacks that lie elsewhere than the area map
    (
        "binding P = rain; Id = id.asc : nominal; areamap Id; timer 1 2 1; \
            dynamic report O = timeinput(P) * time() * 1000; report T = timeoutput(Id, O);",
        &[
            (
                "id.asc",
                "ncols 2\nnrows 2\nxllcorner 0\nyllcorner 0\ncellsize 1\n0 1\n2 1\n",
            ),
            (
                "rain0000.001",
                "ncols 2\nnrows 2\nxllcenter 7\nyllcenter 8\ncellsize 9\nNODATA_value 3\n1 2\n3 4\n",
            ),
            (
                "rain0000.002",
                "ncols 2\nnrows 2\nxllcorner 0\nyllcorner 0\ncellsize 1\n5 6 7000000000 8\n",
            ),
        ],
        5,
        "overflow step 2 statement 1 operation 2 row \
            2 col 1\n",
        &[
            (
                "O0000000.001",
                "ncols 2\nnrows 2\nxllcorner 0\nyllcorner 0\ncellsize 1\nNODATA_value 1e31\n1000 2000\n1e31 4000\n",
            ),
            ("T", "timeseries scalar\n3\ntimestep\n1\n2\n1 2000 1e31\n"),
        ],
    ),
    // a grid that is not there in a later step: the rows of the steps that were settled
    (
        "binding P = rain; Id = id.asc : nominal; areamap Id; timer 1 4 1; \
            dynamic report O = timeinput(P); report T = timeoutput(Id, O);",
        &[
            ("id.asc", "1"),
            ("rain0000.001", "5"),
            ("rain0000.002", "6"),
        ],
        4,
        "missing rain0000.003\n",
        &[
            ("O0000000.001", "5"),
            ("O0000000.002", "6"),
            ("T", "timeseries scalar\n2\ntimestep\n1\n1 5\n2 6\n"),
        ],
    ),
    (
        "binding P = rain; Id = id.asc : nominal; areamap Id; timer 1 4 1; \
            dynamic report O = timeinput(P); report T = timeoutput(Id, O);",
        &[("id.asc", "1")],
        4,
        "missing rain0000.001\n",
        &[("T", "timeseries scalar\n2\ntimestep\n1\n")],
    ),
];

/// Tables and series that are none, and the names that a timer leaves.
static FAULTS: [Case; 8] = [
    // an overflow of `initial` comes before a grid that is not there
    (
        "binding P = rain; Id = id.asc : nominal; areamap Id; timer 1 1 1; initial X = 9000000000000 * 2; \
            dynamic report O = timeinput(P);",
        &[("id.asc", "1")],
        5,
        "overflow step 0 statement 1 operation 1 row \
            1 col 1\n",
        &[],
    ),
    // tables and series that are none, in the order of their bindings; what is not used is not read
    (
        "binding U = u.tss; R = r.tss; T = t.tbl; Id = id.asc : nominal; areamap Id; timer 1 1 1; \
            dynamic report C = lookupscalar(T, Id) + timeinputscalar(R, Id);",
        &[("id.asc", "1"), ("r.tss", "1 1\n1 2\n"), ("t.tbl", "1\n")],
        4,
        "input r.tss series order line 2\n",
        &[],
    ),
    (
        "binding T = t.tbl; R = r.tss; Id = id.asc : nominal; areamap Id; timer 1 1 1; \
            dynamic report C = timeinputscalar(R, Id) + lookupscalar(T, Id);",
        &[
            ("id.asc", "1"),
            ("r.tss", "1 1\n1 2\n"),
            ("t.tbl", "1 1\n\n1\n"),
        ],
        4,
        "input t.tbl table columns line 3\n",
        &[],
    ),
    (
        "binding T = t.tbl; Id = id.asc : nominal; areamap Id; initial report C = lookupnominal(T, Id);",
        &[("id.asc", "1"), ("t.tbl", "1 1\n[2, 2\n")],
        4,
        "input t.tbl table bad-interval line 2\n",
        &[],
    ),
    (
        "binding T = t.tbl; Id = id.asc : nominal; areamap Id; initial report C = lookupnominal(T, Id);",
        &[("id.asc", "1"), ("t.tbl", "1 1.5\n")],
        4,
        "input t.tbl table range line 1\n",
        &[],
    ),
    (
        "binding R = r.tss; Id = id.asc : nominal; areamap Id; timer 1 1 1; dynamic report C = timeinputscalar(R, Id);",
        &[("id.asc", "1"), ("r.tss", "rain\nmuch\n")],
        4,
        "input r.tss series title line 2\n",
        &[],
    ),
    // the end of a timer, and the names that it leaves
    (
        "binding A = a.asc; areamap A; timer 1 1000 1; dynamic report abcdefgh = A;",
        &[("a.asc", "1")],
        3,
        "script statement 1 bad-stack-name\n",
        &[],
    ),
    // nothing is reported
    (
        "binding P = rain; A = a.asc; areamap A; timer 1 2 1; dynamic X = timeinput(P) + A;",
        &[("a.asc", "1"), ("rain0000.001", "1"), ("rain0000.002", "1")],
        0,
        "done files=0 steps=2\n",
        &[],
    ),
];

#[test]
fn reads_stacks_at_their_steps(rt: HostRuntime) -> Result<(), Fail> {
    expect_cases(&rt, rt.alloc(), PUT, &STACKS)
}

#[test]
fn looks_up_and_samples(rt: HostRuntime) -> Result<(), Fail> {
    expect_cases(&rt, rt.alloc(), PUT, &SAMPLES)
}

#[test]
fn samples_means(rt: HostRuntime) -> Result<(), Fail> {
    expect_cases(&rt, rt.alloc(), PUT, &MEANS)
}

#[test]
fn carries_names_and_puts_series(rt: HostRuntime) -> Result<(), Fail> {
    expect_cases(&rt, rt.alloc(), PUT, &SERIES)
}

#[test]
fn keeps_the_rows_of_settled_steps(rt: HostRuntime) -> Result<(), Fail> {
    expect_cases(&rt, rt.alloc(), PUT, &SECTIONS)
}

#[test]
fn tells_the_first_end_of_a_step(rt: HostRuntime) -> Result<(), Fail> {
    expect_cases(&rt, rt.alloc(), PUT, &OVERFLOWS)
}

#[test]
fn tells_faulty_tables_and_series(rt: HostRuntime) -> Result<(), Fail> {
    expect_cases(&rt, rt.alloc(), PUT, &FAULTS)
}

#[test]
fn names_its_last_file_by_the_end_of_the_timer(rt: HostRuntime) -> Result<(), Fail> {
    let script = "binding A = a.asc; areamap A; timer 1 999 1; dynamic report abcdefgh = A;";
    let mut folder = folder_with(rt.alloc(), script, &[("a.asc", "1")], 0)?;
    expect_end(
        &rt,
        rt.alloc(),
        "plain m.mod",
        &mut folder,
        0,
        "done files=999 steps=999\n",
    )?;
    assert_eq!(rt; folder.put_count(), 999);
    assert_eq!(rt; folder.put_name(0), b"abcdefgh.001".as_slice());
    assert_eq!(rt; folder.put_name(998), b"abcdefgh.999".as_slice());
    Ok(())
}
