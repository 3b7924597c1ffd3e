use cell_values::{Cells, Word};

/// Where a grid lies: its lower left corner, or the center of the cell in that corner, and the size of
/// a cell. The words are spelled as in the text that they were read from.
#[derive(Debug, Drop)]
pub struct Head {
    /// Whether `x` is that of the center of the first column, and not of the left edge of the grid.
    pub x_center: bool,
    /// Whether `y` is that of the center of the last row, and not of the lower edge of the grid.
    pub y_center: bool,
    /// The place from west to east, in the units of the map.
    pub x: Word,
    /// The place from south to north, in the units of the map.
    pub y: Word,
    /// The length of a cell's side, in the units of the map.
    pub size: Word,
}

/// A grid: its size in cells, where it lies, and its cells row by row from the north.
#[derive(Debug, Drop)]
pub struct Grid {
    /// From north to south.
    pub rows: u32,
    /// From west to east.
    pub cols: u32,
    /// Where it lies.
    pub head: Head,
    /// Row by row.
    pub cells: Cells,
}
