//! A task that is claimed again passes the gate again.

use crate::counting::CountingGate;
use crate::files::{BACK, FLOWS, File, SUM, SUMS, folder_of};
use crate::runs::{Tiles, Told, Way, expect_rows, tiled};
use flow_task::BaseKit;
use std::alloc::Global;
use std::process::Abort;
use std::sync::Wait;
use std::test::Fail;
use std::thread::Threads;

// How often the gate is passed by a run over tiles of this size.
fn passes<R: Threads + Wait + Abort + Sync>(
    rt: &R,
    alloc: Global,
    way: Way,
    tiles: Tiles,
    files: &[File],
    rows: &str,
) -> Result<u64, Fail> {
    let gate = CountingGate::new();
    let mut folder = folder_of(alloc, files)?;
    let told = tiled(rt, alloc, way, BaseKit, &gate, tiles, &mut folder);
    assert_eq!(rt; told, Told::Done(1, 0));
    expect_rows(rt, &folder, rows, "rows");
    Ok(gate.count())
}

#[test]
fn a_parked_task_passes_again(rt: HostRuntime) -> Result<(), Fail> {
    for way in [Way::Workers, Way::Rounds] {
        let count = passes(&rt, rt.alloc(), way, Tiles::of(2, 2, 1), &BACK, FLOWS)?;
        assert!(rt; count >= 3, "{way:?}");
    }
    Ok(())
}

#[test]
fn each_task_passes_once_where_none_waits(rt: HostRuntime) -> Result<(), Fail> {
    for way in [Way::Workers, Way::Rounds] {
        for workers in [1, 2, 3, 64] {
            let tiles = Tiles::of(1, 1, workers);
            let count = passes(&rt, rt.alloc(), way, tiles, &SUM, SUMS)?;
            assert_eq!(rt; count, 2, "{way:?} {workers}");
        }
    }
    Ok(())
}
