//! Two workers take part, each with a task.

use crate::files::{SUM, SUMS, folder_of};
use crate::meeting::{MeetingGate, Pass};
use crate::runs::{Tiles, Told, Way, expect_rows, tiled};
use flow_task::BaseKit;
use std::alloc::Global;
use std::process::Abort;
use std::sync::Wait;
use std::test::Fail;
use std::thread::Threads;

// The passes are two, of the tasks 0 and 1 by two workers.
fn expect_two(rt: &impl Abort, passes: &[Pass]) {
    assert_eq!(rt; passes.len(), 2);
    if let [one, two] = passes {
        assert!(rt; one.worker != two.worker);
        assert_eq!(rt; one.task.min(two.task), 0);
        assert_eq!(rt; one.task.max(two.task), 1);
    }
}

// A worker is held until another has passed, in this way.
fn expect_meeting<R: Threads + Wait + Abort + Sync>(
    rt: &R,
    alloc: Global,
    way: Way,
) -> Result<(), Fail> {
    let gate = MeetingGate::new(alloc, 8)?;
    let mut folder = folder_of(alloc, &SUM)?;
    let told = tiled(
        rt,
        alloc,
        way,
        BaseKit,
        &gate,
        Tiles::of(1, 1, 2),
        &mut folder,
    );
    assert_eq!(rt; told, Told::Done(1, 0));
    assert!(rt; gate.has_met());
    expect_two(rt, gate.into_passes().as_slice());
    expect_rows(rt, &folder, SUMS, "sums");
    Ok(())
}

#[test]
fn two_workers_take_part(rt: HostRuntime) -> Result<(), Fail> {
    expect_meeting(&rt, rt.alloc(), Way::Workers)
}

#[test]
fn two_threads_of_a_round_take_part(rt: HostRuntime) -> Result<(), Fail> {
    expect_meeting(&rt, rt.alloc(), Way::Rounds)
}
