use cell_values::Cells;

/// What an operation gives over some places.
#[derive(Debug, Drop)]
pub struct Part {
    /// The cell at each place, in row-major order; a missing value where the result is out of the range of its kind.
    pub cells: Cells,
    /// The first place whose result is out of range.
    pub over: Option<u32>,
}
