//! Runs along drain directions: transports, neighbours, catchments and masks, and stages of `initial`. The files were worked
//! out by hand from the rules of the operations.

use crate::files::{File, PUT, RUNOFF, RUNOFF_FILES, RUNOFF_PUTS};
use crate::runs::{Case, expect_cases};
use std::test::Fail;

/// A transport whose area map is the drain map.
const FLUX: &str =
    "binding Ldd = ldd.asc : ldd; M = m.asc; areamap Ldd; initial report Q = accuflux(Ldd, M);";

/// Transports.
static TRANSPORTS: [Case; 7] = [
    (
        FLUX,
        &[("ldd.asc", "6 6 6 5"), ("m.asc", "1 1 1 1")],
        0,
        "done files=1 steps=0\n",
        &[("Q", "1 2 3 4")],
    ),
    // a total out of range, though what comes to the last cell is in range
    (
        FLUX,
        &[
            ("ldd.asc", "6 6 5"),
            ("m.asc", "9000000000000 9000000000000 -9000000000000"),
        ],
        5,
        "overflow step 0 statement 1 operation 1 row \
            1 col 2\n",
        &[],
    ),
    // material that is missing, and a cell without a direction beside the path
    (
        FLUX,
        &[("ldd.asc", "6 6 6 5 -9999"), ("m.asc", "1 -9999 1 1 1")],
        0,
        "done files=1 steps=0\n",
        &[("Q", "1 1e31 1e31 1e31 1e31")],
    ),
    // what passes a threshold and what stays
    (
        "binding Ldd = ldd.asc : ldd; M = m.asc; areamap Ldd; initial report F = accuthresholdflux(Ldd, M, 1); \
            report S = accuthresholdstate(Ldd, M, 1);",
        &[("ldd.asc", "6 6 6 5"), ("m.asc", "3 0 0 0")],
        0,
        "done files=2 steps=0\n",
        &[("F", "2 1 0 0"), ("S", "1 1 1 0")],
    ),
    // over rows
    (
        FLUX,
        &[
            (
                "ldd.asc",
                "ncols 4\nnrows 2\nxllcorner 0\nyllcorner 0\ncellsize 1\n6 6 2 4\n5 4 4 4\n",
            ),
            (
                "m.asc",
                "ncols 4\nnrows 2\nxllcorner 0\nyllcorner 0\ncellsize 1\n1 1 1 1\n1 1 1 1\n",
            ),
        ],
        0,
        "done files=1 steps=0\n",
        &[(
            "Q",
            "ncols 4\nnrows 2\nxllcorner 0\nyllcorner 0\ncellsize 1\nNODATA_value 1e31\n1 2 4 1\n8 7 6 1\n",
        )],
    ),
    (
        "binding Ldd = ldd.asc : ldd; P = p.asc : nominal; areamap Ldd; initial report C = catchment(Ldd, P);",
        &[("ldd.asc", "6 6 6 5"), ("p.asc", "1 3 0 0")],
        0,
        "done files=1 steps=0\n",
        &[("C", "3 3 0 0")],
    ),
    (
        "binding Ldd = ldd.asc : ldd; A = a.asc; areamap Ldd; initial report U = upstream(Ldd, A); \
            report D = downstream(Ldd, A);",
        &[("ldd.asc", "6 6 6 5"), ("a.asc", "1 2 3 4")],
        0,
        "done files=2 steps=0\n",
        &[("U", "0 1 2 3"), ("D", "2 3 4 4")],
    ),
];

/// Drain maps that are computed.
static MASKS: [Case; 5] = [
    (
        "binding Ldd = ldd.asc : ldd; B = b.asc : boolean; areamap Ldd; initial report K = lddmask(Ldd, B); \
            report Q = accuflux(K, 1);",
        &[("ldd.asc", "6 6 6 5"), ("b.asc", "1 1 0 1")],
        0,
        "done files=2 steps=0\n",
        &[("K", "6 5 1e31 5"), ("Q", "1 2 1e31 1")],
    ),
    // masks that read what the stages before gave
    (
        "binding L = l.asc : ldd; B = b.asc; areamap L; initial Up = upstream(L, B); K = lddmask(L, Up < 2); \
            report C = accuflux(K, 1); report J = lddmask(K, C == 1 and Up == 0); report D = accuflux(J, B);",
        &[("l.asc", "6 6 6 5"), ("b.asc", "1 2 3 4")],
        0,
        "done files=3 steps=0\n",
        &[
            ("C", "1 2 1e31 1e31"),
            ("J", "5 1e31 1e31 1e31"),
            ("D", "1 1e31 1e31 1e31"),
        ],
    ),
    // a name that has one drain map after another, and an input under another name
    (
        "binding L = l.asc : ldd; B = b.asc : boolean; areamap B; initial K = L; report A = accuflux(K, 1); \
            K = lddmask(K, B); report C = accuflux(K, 1); report M = L; report K = lddmask(M, not B); \
            report E = accuflux(K, 1);",
        &[("l.asc", "6 6 6 5"), ("b.asc", "1 1 0 0")],
        0,
        "done files=5 steps=0\n",
        &[
            ("A", "1 2 3 4"),
            ("C", "1 2 1e31 1e31"),
            ("M", "6 6 6 5"),
            ("K", "1e31 1e31 6 5"),
            ("E", "1e31 1e31 1 2"),
        ],
    ),
    // where a drain map stands as values
    (
        "binding L = l.asc : ldd; areamap L; initial K = lddmask(L, defined(downstream(L, 1)) and scalar(L) == 6); \
            report D = defined(K); report N = nominal(L); report S = scalar(L) + 0.5; report C = catchment(L, 7);",
        &[("l.asc", "6 6 5 -9999")],
        0,
        "done files=4 steps=0\n",
        &[
            ("D", "1 1 0 0"),
            ("N", "6 6 5 1e31"),
            ("S", "6.5 6.5 5.5 1e31"),
            ("C", "7 7 7 1e31"),
        ],
    ),
    // a result out of range behind the first drain map: nothing is put
    (
        "binding L = l.asc : ldd; B = b.asc; areamap L; initial report A = B; report K = lddmask(L, B > 1); \
            C = accuflux(K, 9000000000000); report D = C;",
        &[("l.asc", "6 6 5"), ("b.asc", "2 2 2")],
        5,
        "overflow step 0 statement 3 operation 1 row \
            1 col 2\n",
        &[],
    ),
];

/// Drain maps over steps.
static STEPS: [Case; 3] = [
    (
        RUNOFF,
        RUNOFF_FILES,
        0,
        "done files=3 steps=2\n",
        RUNOFF_PUTS,
    ),
    // a store along a drain map that `initial` cuts, each step from the one before
    (
        "binding L = l.asc : ldd; B = b.asc : boolean; areamap L; timer 1 2 1; initial S = 1; K = lddmask(L, B); \
            dynamic report S = accuflux(K, S) + upstream(L, time());",
        &[("l.asc", "6 6 6 5"), ("b.asc", "1 1 0 1")],
        0,
        "done files=2 steps=2\n",
        &[
            ("S0000000.001", "1 3 1e31 2"),
            ("S0000000.002", "1 6 1e31 4"),
        ],
    ),
    // no section `initial`, and an overflow in a later step
    (
        "binding L = l.asc : ldd; areamap L; timer 1 3 1; dynamic report Q = accuflux(L, time() * 2000000000000);",
        &[("l.asc", "6 6 5")],
        5,
        "overflow step 2 statement 1 operation 2 row \
            1 col 3\n",
        &[("Q0000000.001", "2000000000000 4000000000000 6000000000000")],
    ),
];

/// A script that reads a drain map behind its area map, and an input behind that.
const BEHIND: &str = "binding A = a.asc; Ldd = ldd.asc : ldd; N = n.asc; areamap A; \
    initial report Q = accuflux(Ldd, A) + N;";

/// Its area map.
const A: File = ("a.asc", "1 1");

/// Drain maps that are not sound, and what comes before that.
static UNSOUND: [Case; 8] = [
    // a ring of two cells, and a path that meets it
    (
        FLUX,
        &[("ldd.asc", "6 4"), ("m.asc", "1 1")],
        4,
        "input ldd.asc unsound 1 1\n",
        &[],
    ),
    (
        FLUX,
        &[("ldd.asc", "5 6 6 4"), ("m.asc", "1 1 1 1")],
        4,
        "input ldd.asc unsound 1 2\n",
        &[],
    ),
    // a direction out of the map, and one to a cell without a direction
    (
        FLUX,
        &[("ldd.asc", "4 5"), ("m.asc", "1 1")],
        4,
        "input ldd.asc unsound 1 1\n",
        &[],
    ),
    (
        FLUX,
        &[(
            "ldd.asc",
            "ncols 2\nnrows 3\nxllcorner 0\nyllcorner 0\ncellsize 1\n5 5\n9 -9999\n9 7\n",
        )],
        4,
        "input ldd.asc unsound 3 1\n",
        &[],
    ),
    // an input behind the area map: its text, its size, and then its directions, before the next input
    (
        BEHIND,
        &[A, ("ldd.asc", "5 6")],
        4,
        "input ldd.asc unsound 1 2\n",
        &[],
    ),
    (
        BEHIND,
        &[A, ("ldd.asc", "6 4 5")],
        4,
        "input ldd.asc size 1 3\n",
        &[],
    ),
    (
        BEHIND,
        &[A, ("ldd.asc", "6 4 0")],
        4,
        "input ldd.asc grid range 55\n",
        &[],
    ),
    (BEHIND, &[A, ("ldd.asc", "6 5")], 4, "missing n.asc\n", &[]),
];

#[test]
fn transports_along_drain_directions(rt: HostRuntime) -> Result<(), Fail> {
    expect_cases(&rt, rt.alloc(), PUT, &TRANSPORTS)
}

#[test]
fn cuts_drain_maps_between_stages(rt: HostRuntime) -> Result<(), Fail> {
    expect_cases(&rt, rt.alloc(), PUT, &MASKS)
}

#[test]
fn shares_drain_maps_with_steps(rt: HostRuntime) -> Result<(), Fail> {
    expect_cases(&rt, rt.alloc(), PUT, &STEPS)
}

#[test]
fn refuses_drain_maps_that_are_not_sound(rt: HostRuntime) -> Result<(), Fail> {
    expect_cases(&rt, rt.alloc(), PUT, &UNSOUND)
}
