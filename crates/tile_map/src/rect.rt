/// A rectangle of cells of a map, or of tiles of a tiling: its first row and column, and how many of each it has.
#[derive(Clone, Copy, Debug, PartialEq, Eq)]
pub struct Rect {
    /// The first row.
    pub top: u32,
    /// The first column.
    pub left: u32,
    /// How many rows there are.
    pub rows: u32,
    /// How many columns there are.
    pub cols: u32,
}
