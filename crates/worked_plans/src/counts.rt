//! How many tasks programs have.

use crate::plans::{counted, plan_of, planned};
use std::alloc::Global;
use std::process::Abort;
use std::test::Fail;
use task_graph::PlanEnd;

/// A script, the sides of its map and of a tile, the steps of a block, and how many tasks there are.
type Counted = (&'static str, [u32; 4], u32, u64);

/// Programs of each class of operation.
const COUNTED: [Counted; 11] = [
    // an addition for each of two tiles
    (
        "binding A = a.asc; B = b.asc; areamap A; initial report C = A + B;",
        [1, 2, 1, 1],
        1,
        2,
    ),
    // two operations over a million tiles
    (
        "binding A = a.asc; B = b.asc; areamap A; initial report C = A + B; report D = A - B;",
        [1000, 1000, 1, 1],
        1,
        2_000_000,
    ),
    // two operations at each of 64 steps
    (
        "binding A = a.asc; areamap A; timer 1 64 1; dynamic X = A + 1; Y = X + 1;",
        [128, 128, 1, 1],
        64,
        2_097_152,
    ),
    // the same program with a block of one step
    (
        "binding A = a.asc; areamap A; timer 1 64 1; dynamic X = A + 1; Y = X + 1;",
        [128, 128, 1, 1],
        1,
        32_768,
    ),
    // a block that is longer than the model
    (
        "binding A = a.asc; areamap A; timer 1 3 1; dynamic X = A + 1;",
        [1, 4, 1, 2],
        64,
        6,
    ),
    // a window, a step along drains and a transport have a task for each tile
    (
        "binding A = a.asc; areamap A; initial W = windowtotal(A, 3);",
        [1, 4, 1, 2],
        1,
        2,
    ),
    (
        "binding L = l.asc : ldd; A = a.asc; areamap A; initial U = upstream(L, A);",
        [1, 4, 1, 2],
        1,
        2,
    ),
    (
        "binding L = l.asc : ldd; A = a.asc; areamap A; initial Q = accuflux(L, A);",
        [1, 4, 1, 1],
        1,
        4,
    ),
    // areas and the whole map have two for each tile, and one that merges
    (
        "binding Z = z.asc : nominal; A = a.asc; areamap A; initial T = areatotal(A, Z);",
        [1, 4, 1, 2],
        1,
        5,
    ),
    (
        "binding A = a.asc; areamap A; initial T = maptotal(A);",
        [1, 4, 1, 2],
        1,
        5,
    ),
    // a drain map that is masked has none, and ends a stage: the greater stage counts
    (
        "binding L = l.asc : ldd; A = a.asc; areamap A; initial \
        M = A > 1; K = lddmask(L, M); B = A + 1; C = B + 1; Q = accuflux(K, C);",
        [1, 4, 1, 4],
        1,
        3,
    ),
];

// One row is told its count.
fn expect_count(
    rt: &impl Abort,
    alloc: Global,
    (text, sides, block, expected): Counted,
) -> Result<(), Fail> {
    let found = counted(alloc, text, sides, block)?;
    assert_eq!(rt; found, expected, "{text}");
    Ok(())
}

#[test]
fn tasks_are_counted(rt: HostRuntime) -> Result<(), Fail> {
    for row in COUNTED {
        expect_count(&rt, rt.alloc(), row)?;
    }
    Ok(())
}

/// Two operations at each step.
const TWO: &str = "binding A = a.asc; areamap A; timer 1 64 1; dynamic X = A + 1; Y = X + 1;";

// The plan of all steps has too many tasks, which are told.
fn expect_too_many(rt: &impl Abort, alloc: Global, last: u32, expected: u64) -> Result<(), Fail> {
    match planned(alloc, TWO, [128, 128, 1, 1], last)? {
        Ok(_) => Err(Fail::from("a plan")),
        Err(end) => {
            let wanted = PlanEnd::TooManyTasks { count: expected };
            assert_eq!(rt; end, wanted, "{last}");
            Ok(())
        }
    }
}

// There is a plan with so many tasks.
fn expect_tasks(rt: &impl Abort, alloc: Global, last: u32, expected: u32) -> Result<(), Fail> {
    let plan = plan_of(alloc, TWO, [128, 128, 1, 1], last)?;
    assert_eq!(rt; plan.tasks(), expected, "{last}");
    Ok(())
}

#[test]
fn plans_end_above_the_limit(rt: HostRuntime) -> Result<(), Fail> {
    expect_tasks(&rt, rt.alloc(), 32, 1_048_576)?;
    expect_too_many(&rt, rt.alloc(), 33, 1_081_344)?;
    expect_too_many(&rt, rt.alloc(), 64, 2_097_152)
}
