//! The check of drain maps: sound ones, and the first place whose path fails.

use crate::maps::{Drawn, checked, drain_of, drawn_cells};
use drain_check::{CheckEnd, drain_order};
use std::alloc::Global;
use std::process::Abort;
use std::test::Fail;

/// Sound maps.
static SOUND: [Drawn; 9] = [
    (1, 1, b"5"),
    (1, 1, b"."),
    (1, 4, b"6665"),
    (1, 4, b"65.5"),
    (4, 1, b"5888"),
    (2, 4, b"66245444"),
    (3, 3, b"321654987"),
    (3, 3, b"5.5.5.5.5"),
    (2, 3, b"......"),
];

/// Maps that are not sound, and the first place whose path fails.
static UNSOUND: [(Drawn, u32); 24] = [
    // A cycle of two cells.
    ((1, 2, b"64"), 0),
    ((1, 4, b"5564"), 2),
    ((2, 2, b"2585"), 0),
    ((2, 2, b"5517"), 2),
    // The same, below a tributary.
    ((1, 5, b"56664"), 1),
    // Onto a missing cell.
    ((1, 2, b"6."), 0),
    ((1, 3, b"5.4"), 2),
    ((2, 2, b"35.."), 0),
    ((1, 4, b"666."), 0),
    // Out of the map.
    ((1, 2, b"45"), 0),
    ((1, 1, b"1"), 0),
    ((1, 1, b"2"), 0),
    ((1, 1, b"3"), 0),
    ((1, 1, b"4"), 0),
    ((1, 1, b"6"), 0),
    ((1, 1, b"7"), 0),
    ((1, 1, b"8"), 0),
    ((1, 1, b"9"), 0),
    // The east of a row is not the west of the next.
    ((2, 2, b"5655"), 1),
    ((2, 2, b"5545"), 2),
    // A cell drains into one that drains out of the map.
    ((2, 2, b"5256"), 1),
    // A long cycle with tributaries: within it, and from above it.
    ((3, 4, b"666285628444"), 0),
    ((4, 4, b"5535666285628444"), 2),
    // Two faults, of which the first place is told.
    ((1, 6, b"5.4564"), 2),
];

// The check of a drawn map: nothing where it is sound, or the place that is told.
fn end_of(alloc: Global, (rows, cols, signs): Drawn) -> Result<Option<CheckEnd>, Fail> {
    let cells = drawn_cells(alloc, signs)?;
    match checked(alloc, rows, cols, cells.as_slice())? {
        Ok(_) => Ok(None),
        Err(end) => Ok(Some(end)),
    }
}

// The check of a drawn map ends so.
fn expect_end(
    rt: &impl Abort,
    alloc: Global,
    map: Drawn,
    wanted: Option<CheckEnd>,
) -> Result<(), Fail> {
    assert_eq!(rt; end_of(alloc, map)?, wanted, "{map:?}");
    Ok(())
}

#[test]
fn sound_maps_are_taken(rt: HostRuntime) -> Result<(), Fail> {
    for map in SOUND.iter() {
        expect_end(&rt, rt.alloc(), *map, None)?;
    }
    Ok(())
}

#[test]
fn the_first_place_is_told(rt: HostRuntime) -> Result<(), Fail> {
    for (map, place) in UNSOUND.iter() {
        let wanted = Some(CheckEnd::Unsound { place: *place });
        expect_end(&rt, rt.alloc(), *map, wanted)?;
    }
    Ok(())
}

// The drain order of a drawn map, which is sound.
fn order_of(alloc: Global, map: Drawn) -> Result<Vec<u32>, Fail> {
    let drain = drain_of(alloc, map)?;
    Ok(drain_order(alloc, &drain)?)
}

#[test]
fn drain_order_goes_up_the_river(rt: HostRuntime) -> Result<(), Fail> {
    let order = order_of(rt.alloc(), (2, 3, b"662.54"))?;
    assert_eq!(rt; order.as_slice(), [4, 5, 2, 1, 0].as_slice());
    Ok(())
}
