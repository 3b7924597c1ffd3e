/// A point in the time of a run.
#[derive(Clone, Copy, Debug, PartialEq, Eq)]
pub enum Point {
    /// The step of this number. Steps count from 1.
    Step(u32),
    /// The last step of the run.
    EndTime,
}

/// Steps from a first one on, up to a last one, each so many behind the one before. A single point is its own first and last one.
#[derive(Clone, Copy, Debug, PartialEq, Eq)]
pub struct Item {
    pub first: Point,
    /// How many steps one is behind the one before: 1 where a list gives no stride. With 0 the item has its first step alone.
    pub by: u32,
    pub last: Point,
}
