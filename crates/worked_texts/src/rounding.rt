//! Rounding to whole numbers, ties away from zero.

use cell_values::round_div;

/// The greatest size of a dividend.
const MOST: i128 = 100_000_000_000_000_000_000_000_000_000_000_000_000;

#[test]
fn rounds_ties_away_from_zero(rt: HostRuntime) {
    assert_eq!(rt; round_div(5, 2), 3);
    assert_eq!(rt; round_div(-5, 2), -3);
    assert_eq!(rt; round_div(4, 3), 1);
    assert_eq!(rt; round_div(-5, 3), -2);
    assert_eq!(rt; round_div(0, 7), 0);
    assert_eq!(rt; round_div(-MOST, 1), -MOST);
    assert_eq!(rt; round_div(MOST, i128::MAX), 1);
}
