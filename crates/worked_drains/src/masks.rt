//! Masked drain maps, and a transport over one.

use crate::maps::{Drawn, accumulated, drain_of, drawn_cells, expect_part};
use cell_values::Cell::{Mv, Val};
use drain_meaning::Drain;
use drain_ops::mask_drain;
use std::alloc::Global;
use std::process::Abort;
use std::test::Fail;
use tile_map::Arg;

/// A map, a mask, and the map that it leaves.
static MASKS: [(Drawn, &[u8], &[u8]); 7] = [
    ((1, 4, b"6665"), b"1101", b"65.5"),
    ((1, 4, b"6665"), b"1111", b"6665"),
    ((1, 4, b"6665"), b"0000", b"...."),
    ((1, 4, b"6665"), b"0111", b".665"),
    // A missing mask keeps no cell.
    ((1, 4, b"6665"), b"11.1", b"65.5"),
    // Nor is one kept that has no direction.
    ((1, 4, b"65.5"), b"1111", b"65.5"),
    ((2, 4, b"66245444"), b"10110111", b"5.24.544"),
];

// The masked map.
fn masked(alloc: Global, map: Drawn, mask: &[u8]) -> Result<Drain, Fail> {
    let drain = drain_of(alloc, map)?;
    let mask = drawn_cells(alloc, mask)?;
    if mask.len() != drain.cells().len() {
        Err("the mask has another size")?
    }
    Ok(mask_drain(alloc, &drain, Arg::Cells(mask.as_slice()))?)
}

// The mask leaves this of a map.
fn expect_left(
    rt: &impl Abort,
    alloc: Global,
    map: Drawn,
    mask: &[u8],
    wanted: &[u8],
) -> Result<(), Fail> {
    let left = masked(alloc, map, mask)?;
    let wanted = drawn_cells(alloc, wanted)?;
    assert_eq!(rt; left.cells(), wanted.as_slice(), "{map:?} {mask:?}");
    Ok(())
}

#[test]
fn masks_come_out(rt: HostRuntime) -> Result<(), Fail> {
    for (map, mask, wanted) in MASKS.iter() {
        expect_left(&rt, rt.alloc(), *map, mask, wanted)?;
    }
    Ok(())
}

#[test]
fn flow_stops_at_the_mask(rt: HostRuntime) -> Result<(), Fail> {
    let left = masked(rt.alloc(), (1, 4, b"6665"), b"1101")?;
    let part = accumulated(rt.alloc(), &left)?;
    expect_part(&rt, 0, &part, &[Val(1), Val(2), Mv, Val(1)], None);
    Ok(())
}
