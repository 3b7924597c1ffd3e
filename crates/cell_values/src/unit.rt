//! The unit in which scalars and directions are counted.

/// The digits behind the point that scalars and directions keep.
pub(crate) const PLACES: usize = 6;

/// How many millionths make one.
pub(crate) const MILLION: u64 = 1_000_000;

/// How many millionths of a degree make a full turn.
pub(crate) const FULL_TURN: u64 = 360 * MILLION;
