//! Operations over areas, a row a map.

use crate::parts::{Classes, in_one, in_two};
use cell_values::Cell;
use cell_values::Cell::{Mv, Val};
use region_meaning::AreaOp;
use region_meaning::AreaOp::{Area, Average, Diversity, Majority, Maximum, Minimum, Total};
use std::alloc::Global;
use std::test::Fail;

/// An operation, the values, the classes, the results, and the first place that is out of range.
type Row = (
    AreaOp,
    &'static [Cell],
    Classes<'static>,
    &'static [Cell],
    Option<u32>,
);

/// One.
const ONE: i64 = 1_000_000;

/// The greatest scalar.
const MOST: i64 = 9_000_000_000_000_000_000;

static ROWS: [Row; 23] = [
    // An average of the cells of a class, and not one of averages.
    (
        Average,
        &[Val(ONE), Val(5 * ONE), Val(4 * ONE)],
        Some(&[Val(1), Val(2), Val(1)]),
        &[Val(2_500_000), Val(5 * ONE), Val(2_500_000)],
        None,
    ),
    (
        Average,
        &[Val(ONE), Val(2 * ONE), Val(6 * ONE)],
        Some(&[Val(1), Val(1), Val(1)]),
        &[Val(3 * ONE), Val(3 * ONE), Val(3 * ONE)],
        None,
    ),
    // Ties are rounded away from zero.
    (
        Average,
        &[Val(1), Val(0), Val(-1), Val(0)],
        Some(&[Val(1), Val(1), Val(2), Val(2)]),
        &[Val(1), Val(1), Val(-1), Val(-1)],
        None,
    ),
    // A cell whose value is missing does not count, and has the value of its class.
    (
        Average,
        &[Val(3 * ONE), Mv, Val(5 * ONE)],
        Some(&[Val(7), Val(7), Val(7)]),
        &[Val(4 * ONE), Val(4 * ONE), Val(4 * ONE)],
        None,
    ),
    (
        Total,
        &[Val(ONE), Mv, Val(3 * ONE)],
        Some(&[Val(0), Val(0), Val(0)]),
        &[Val(4 * ONE), Val(4 * ONE), Val(4 * ONE)],
        None,
    ),
    // A class without values, and places without a class.
    (
        Total,
        &[Mv, Val(3 * ONE), Val(5 * ONE), Mv],
        Some(&[Val(1), Val(2), Mv, Mv]),
        &[Mv, Val(3 * ONE), Mv, Mv],
        None,
    ),
    // The result is judged, and not the sums on the way to it.
    (
        Total,
        &[Val(MOST), Val(MOST), Val(-MOST)],
        Some(&[Val(1), Val(1), Val(1)]),
        &[Val(MOST), Val(MOST), Val(MOST)],
        None,
    ),
    (
        Total,
        &[Val(ONE), Val(MOST), Val(1), Val(-MOST), Val(-1)],
        Some(&[Val(-1), Val(1), Val(1), Val(2), Val(2)]),
        &[Val(ONE), Mv, Mv, Mv, Mv],
        Some(1),
    ),
    (
        Minimum,
        &[Val(-3), Val(2), Mv, Val(-5), Val(4)],
        Some(&[Val(1), Val(2), Val(1), Val(1), Val(2)]),
        &[Val(-5), Val(2), Val(-5), Val(-5), Val(2)],
        None,
    ),
    (
        Maximum,
        &[Val(-3), Val(2), Mv, Val(-5), Val(4)],
        Some(&[Val(1), Val(2), Val(1), Val(1), Val(2)]),
        &[Val(-3), Val(4), Val(-3), Val(-3), Val(4)],
        None,
    ),
    // Each value counts once, and a missing one does not.
    (
        Diversity,
        &[Val(3), Val(3), Val(4), Mv, Val(3)],
        Some(&[Val(1), Val(1), Val(1), Val(1), Val(2)]),
        &[
            Val(2 * ONE),
            Val(2 * ONE),
            Val(2 * ONE),
            Val(2 * ONE),
            Val(ONE),
        ],
        None,
    ),
    (
        Diversity,
        &[Val(3), Mv, Val(0), Val(-1), Mv],
        Some(&[Val(1), Val(1), Val(1), Val(1), Mv]),
        &[Val(3 * ONE), Val(3 * ONE), Val(3 * ONE), Val(3 * ONE), Mv],
        None,
    ),
    (
        Diversity,
        &[Mv, Mv, Val(0)],
        Some(&[Val(1), Val(1), Mv]),
        &[Mv, Mv, Mv],
        None,
    ),
    // The most frequent value, and the least of several.
    (
        Majority,
        &[Val(5), Val(2), Val(5), Val(9), Val(2), Val(5)],
        Some(&[Val(1), Val(1), Val(1), Val(1), Val(1), Val(1)]),
        &[Val(5), Val(5), Val(5), Val(5), Val(5), Val(5)],
        None,
    ),
    (
        Majority,
        &[Val(4), Val(3), Val(3), Val(4), Val(1)],
        Some(&[Val(1), Val(1), Val(1), Val(1), Val(1)]),
        &[Val(3), Val(3), Val(3), Val(3), Val(3)],
        None,
    ),
    (
        Majority,
        &[Val(1), Val(-1), Val(0)],
        Some(&[Val(2), Val(2), Val(2)]),
        &[Val(-1), Val(-1), Val(-1)],
        None,
    ),
    // Each class has its own, and a missing value is none.
    (
        Majority,
        &[Mv, Mv, Val(8), Val(7), Val(7), Mv],
        Some(&[Val(1), Val(1), Val(1), Val(2), Val(2), Val(3)]),
        &[Val(8), Val(8), Val(8), Val(7), Val(7), Mv],
        None,
    ),
    // Every cell of a class counts, whatever its value.
    (
        Area,
        &[Val(1), Mv, Val(1), Mv],
        Some(&[Val(1), Val(1), Val(2), Mv]),
        &[Val(2 * ONE), Val(2 * ONE), Val(ONE), Mv],
        None,
    ),
    // A map is one area.
    (
        Total,
        &[Val(ONE), Mv, Val(3 * ONE)],
        None,
        &[Val(4 * ONE), Val(4 * ONE), Val(4 * ONE)],
        None,
    ),
    (
        Minimum,
        &[Val(4), Mv, Val(-2)],
        None,
        &[Val(-2), Val(-2), Val(-2)],
        None,
    ),
    (
        Maximum,
        &[Val(4), Mv, Val(-2)],
        None,
        &[Val(4), Val(4), Val(4)],
        None,
    ),
    (Maximum, &[Mv, Mv], None, &[Mv, Mv], None),
    // A map without places.
    (Total, &[], None, &[], None),
];

#[test]
fn results_come_out(rt: HostRuntime) -> Result<(), Fail> {
    for (op, values, classes, cells, over) in ROWS {
        let part = in_one(rt.alloc(), op, values, classes)?;
        assert_eq!(rt; part.cells.as_slice(), cells, "{op:?} {values:?}");
        assert_eq!(rt; part.over, over, "{op:?} {values:?}");
    }
    Ok(())
}

// Whether two parts of a row give what it has, wherever the map is cut.
fn parts_agree(alloc: Global, (op, values, classes, cells, over): Row) -> Result<bool, Fail> {
    for at in 0..=values.len() {
        for turned in [false, true] {
            let part = in_two(alloc, op, values, classes, at, turned)?;
            if part.cells.as_slice() != cells || part.over != over {
                return Ok(false);
            }
        }
    }
    Ok(true)
}

#[test]
fn two_parts_give_what_the_map_gives(rt: HostRuntime) -> Result<(), Fail> {
    for row in ROWS {
        assert!(rt; parts_agree(rt.alloc(), row)?, "{row:?}");
    }
    Ok(())
}
