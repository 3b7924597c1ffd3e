//! Scripts with results out of range: the first one is told, whatever the tiles.

use crate::runs::Told::{Done, Over};
use crate::runs::{Case, expect_cases};
use std::test::Fail;

/// Scripts whose results leave their range.
static OVERS: [Case; 10] = [
    // in two tiles: the place of the first row comes first, though its tile comes later
    (
        "initial report P = A + 1; Q = A * O; report R = Q + 1;",
        Over([0, 2, 1, 1, 5]),
    ),
    // of two operations the earlier one, at the last place
    ("initial P = A * T; Q = A * O;", Over([0, 1, 1, 4, 5])),
    // of two operations of one statement
    ("initial Q = A * T + A * O;", Over([0, 1, 1, 4, 5])),
    // over windows, areas and the whole map
    ("initial W = windowtotal(O, 3);", Over([0, 1, 1, 1, 1])),
    ("initial W = areatotal(T, A > 15);", Over([0, 1, 2, 4, 1])),
    ("initial W = maptotal(O);", Over([0, 1, 1, 1, 1])),
    // over drains: the first place by rows, and an operation before a transport
    ("initial F = accuflux(L, O);", Over([0, 1, 1, 2, 1])),
    (
        "initial P = A * T; F = accuflux(L, O);",
        Over([0, 1, 1, 4, 5]),
    ),
    // in a later stage
    (
        "initial report P = A + 1; K = lddmask(L, 1); report Q = upstream(K, A); report R = A * O;",
        Over([0, 4, 1, 1, 5]),
    ),
    // in range
    ("initial report P = min(A * 2, O);", Done(1, 0)),
];

/// Scripts whose results leave their range at a step.
static LATE: [Case; 1] = [(
    "timer 1 3 1; initial S = A; dynamic report S = S * 1000000;",
    Over([2, 2, 1, 2, 5]),
)];

#[test]
fn the_first_result_out_of_range_is_told(rt: HostRuntime) -> Result<(), Fail> {
    expect_cases(&rt, rt.alloc(), "", &OVERS)
}

#[test]
fn the_first_step_out_of_range_is_told(rt: HostRuntime) -> Result<(), Fail> {
    expect_cases(&rt, rt.alloc(), "", &LATE)
}
