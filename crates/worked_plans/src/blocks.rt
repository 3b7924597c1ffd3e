//! What tasks of a block of two steps read, and who reads them.

use crate::plans::plan_of;
use std::process::Abort;
use std::test::Fail;
use task_graph::{Plan, Task, Work};

/// Three operations at two steps; a name of the step before. A step has 3 tasks of B, 7 of C and 3 of A, so the second one
/// begins with the task 13.
const BLOCK: &str =
    "binding I = i.asc; Z = z.asc : nominal; areamap I; timer 1 2 1; initial A = I + 0; \
    dynamic B = windowtotal(A, 3); C = areatotal(B, Z); A = B + A;";

/// What some tasks read.
const READ: [(u32, &[u32]); 12] = [
    (0, &[]),
    (3, &[0]),
    (6, &[3, 4, 5]),
    (8, &[6]),
    (10, &[0]),
    (13, &[10, 11]),
    (14, &[10, 11, 12]),
    (15, &[11, 12]),
    (17, &[14]),
    (19, &[16, 17, 18]),
    (21, &[19]),
    (24, &[14, 11]),
];

/// Who reads some tasks.
const READERS: [(u32, &[u32]); 6] = [
    (0, &[3, 10]),
    (6, &[7, 8, 9]),
    (8, &[]),
    (11, &[13, 14, 15, 24]),
    (14, &[17, 24]),
    (25, &[]),
];

/// Some tasks.
const TASKS: [(u32, u32, u32, Work, u32); 5] = [
    (0, 1, 0, Work::Window, 0),
    (5, 1, 1, Work::Partial, 2),
    (6, 1, 1, Work::Merge, 0),
    (22, 2, 1, Work::Spread, 2),
    (24, 2, 2, Work::Local, 1),
];

// Each row is the list that the plan tells.
fn expect_lists(rt: &impl Abort, plan: &Plan) {
    for (t, read) in READ {
        if t < plan.tasks() {
            assert_eq!(rt; plan.needs(t), read, "{t} reads");
        }
    }
    for (t, readers) in READERS {
        if t < plan.tasks() {
            assert_eq!(rt; plan.readers(t), readers, "{t} is read");
        }
    }
}

// Each row is the task of the plan.
fn expect_tasks(rt: &impl Abort, plan: &Plan) {
    for (t, step, operation, work, tile) in TASKS {
        if t < plan.tasks() {
            let task = Task {
                step,
                operation,
                work,
                tile,
            };
            assert_eq!(rt; plan.task(t), task, "{t}");
        }
    }
}

#[test]
fn a_block_reads_the_step_before(rt: HostRuntime) -> Result<(), Fail> {
    let plan = plan_of(rt.alloc(), BLOCK, [1, 3, 1, 1], 2)?;
    assert_eq!(rt; plan.tasks(), 26);
    expect_lists(&rt, &plan);
    expect_tasks(&rt, &plan);
    Ok(())
}
