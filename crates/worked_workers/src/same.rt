//! The same files as over whole maps, whatever the workers and the tiles.

use crate::files::{BACK, File, MIXED, OVER, folder_of};
use crate::runs::{Tiles, Told, Way, expect_same_puts, tiled, whole};
use flow_task::BaseKit;
use outside_io::OpenGate;
use std::alloc::Global;
use std::process::Abort;
use std::sync::Wait;
use std::test::Fail;
use std::thread::Threads;

/// Rows and columns of tiles: one cell; rows and columns of cells; some that the map is no multiple of; more than the map.
const SIDES: [[u32; 2]; 6] = [[1, 1], [1, 3], [3, 1], [2, 2], [3, 4], [64, 4096]];

/// How many workers there are.
const WORKERS: [u32; 5] = [1, 2, 3, 4, 64];

// In this way the script comes out as it is to, with the files that it puts over whole maps.
fn expect_same<R: Threads + Wait + Abort + Sync>(
    rt: &R,
    alloc: Global,
    way: Way,
    files: &[File],
    expected: Told,
) -> Result<(), Fail> {
    let mut maps = folder_of(alloc, files)?;
    assert_eq!(rt; whole(alloc, &mut maps), expected);
    for [rows, cols] in SIDES {
        for workers in WORKERS {
            let mut folder = folder_of(alloc, files)?;
            let tiles = Tiles::of(rows, cols, workers);
            let told = tiled(rt, alloc, way, BaseKit, &OpenGate, tiles, &mut folder);
            assert_eq!(rt; told, expected, "{rows} by {cols} with {workers}");
            expect_same_puts(rt, &folder, &maps, "{rows} by {cols}");
        }
    }
    Ok(())
}

#[test]
fn workers_give_the_files_of_whole_maps(rt: HostRuntime) -> Result<(), Fail> {
    expect_same(&rt, rt.alloc(), Way::Workers, &MIXED, Told::Done(12, 2))?;
    expect_same(&rt, rt.alloc(), Way::Workers, &BACK, Told::Done(1, 0))
}

#[test]
fn rounds_give_the_files_of_whole_maps(rt: HostRuntime) -> Result<(), Fail> {
    expect_same(&rt, rt.alloc(), Way::Rounds, &MIXED, Told::Done(12, 2))?;
    expect_same(&rt, rt.alloc(), Way::Rounds, &BACK, Told::Done(1, 0))
}

#[test]
fn the_first_result_out_of_range_is_told(rt: HostRuntime) -> Result<(), Fail> {
    for way in [Way::Workers, Way::Rounds] {
        expect_same(&rt, rt.alloc(), way, &OVER, Told::Over([0, 1, 1, 1, 2]))?;
    }
    Ok(())
}
