use cell_values::Cells;

/// A row of a series: a step, and a cell for each column.
#[derive(Debug, Drop)]
pub struct SeriesRow {
    /// From 1.
    pub step: u32,
    /// From the first column on.
    pub cells: Cells,
}
