//! Workers that find no memory.

use crate::files::{BACK, FLOWS, folder_of};
use crate::refusing::RefusingKit;
use crate::runs::{Tiles, Told, Way, expect_rows, tiled};
use outside_io::OpenGate;
use std::alloc::Global;
use std::process::Abort;
use std::sync::Wait;
use std::sync::atomic::AtomicU64;
use std::test::Fail;
use std::thread::Threads;

// The run where so many works are refused comes out so.
fn expect_after<R: Threads + Wait + Abort + Sync>(
    rt: &R,
    alloc: Global,
    way: Way,
    refused: u64,
    expected: Told,
) -> Result<(), Fail> {
    let refusals = AtomicU64::new(refused);
    let kit = RefusingKit {
        refusals: &refusals,
    };
    let mut folder = folder_of(alloc, &BACK)?;
    let told = tiled(
        rt,
        alloc,
        way,
        kit,
        &OpenGate,
        Tiles::of(2, 2, 1),
        &mut folder,
    );
    assert_eq!(rt; told, expected, "{refused} {way:?}");
    if expected == Told::Done(1, 0) {
        expect_rows(rt, &folder, FLOWS, "flows");
    } else {
        assert_eq!(rt; folder.put_count(), 0, "{refused} {way:?}");
    }
    Ok(())
}

#[test]
fn the_caller_finishes_what_a_worker_puts_down(rt: HostRuntime) -> Result<(), Fail> {
    expect_after(&rt, rt.alloc(), Way::Workers, 0, Told::Done(1, 0))?;
    expect_after(&rt, rt.alloc(), Way::Workers, 1, Told::Done(1, 0))?;
    expect_after(&rt, rt.alloc(), Way::Workers, 2, Told::Memory)
}

#[test]
fn rounds_give_the_board_up(rt: HostRuntime) -> Result<(), Fail> {
    expect_after(&rt, rt.alloc(), Way::Rounds, 0, Told::Done(1, 0))?;
    expect_after(&rt, rt.alloc(), Way::Rounds, 1, Told::Memory)
}
