ghost use Rattle.std.specs.Prelude.{◌≡◌, ◌≤◌, ◌<◌, ◌+◌, ◌*◌, ◌/◌, ◌%◌};
ghost use Rattle.text_base.specs.Limits.{most_cells};
ghost use Rattle.cell_values.specs.Kinds.{IsCell};
ghost use Rattle.cell_values.specs.declared.kind.Kind.TheVariants.{Ldd};
ghost use Rattle.drain_meaning.specs.Drains.{col_on, next_of, row_on, toward};

use cell_values::Cell;

/// Where a cell of a drain map drains to.
#[derive(Clone, Copy, Debug, PartialEq, Eq)]
pub enum Next {
    /// Nowhere: the cell is a pit.
    Pit,
    /// Into the cell at this place.
    Cell(u32),
    /// Out of the map.
    Outside,
    /// The cell has no direction.
    Missing,
}

// The cell in this row and column, counted from 1.
fn toward(rows: u32, cols: u32, row: u32, col: u32) -> Next
    requires few { rows * cols ≤ most_cells }
    ensures { result ≡ toward rows cols row col }
{
    if 1 <= row && row <= rows && 1 <= col && col <= cols {
        Next::Cell((row - 1) * cols + (col - 1))
    } else {
        Next::Outside
    }
}

// The row that a code other than that of a pit leads to, and the column, both counted from 1.
fn beside(cols: u32, place: u32, number: u32) -> (u32, u32)
    requires place { place < most_cells }
    requires some { 1 ≤ cols }
    requires number { 1 ≤ number }
    ensures row { result.0 ≡ place / cols + row_on number }
    ensures col { result.1 ≡ place % cols + col_on number }
{
    let south = 2u32.saturating_sub((number - 1) / 3);
    let east = (number - 1) % 3;
    (place / cols + south, place % cols + east)
}

/// Where a code leads from a place of a map, as on a numeric keypad: 7, 8 and 9 to the north-west, the north and the
/// north-east, 4 and 6 to the west and the east, 1, 2 and 3 to the south-west, the south and the south-east; 5 is a pit.
#[tactic(auto, unfolding(crate::specs::Drains::next_of))]
pub fn next_cell(rows: u32, cols: u32, place: u32, code: Cell) -> Next
    requires few { rows * cols ≤ most_cells }
    requires place { place < rows * cols }
    requires code { IsCell Ldd code }
    ensures { result ≡ next_of rows cols place code }
{
    match code {
        Cell::Mv => Next::Missing,
        Cell::Val(5) => Next::Pit,
        Cell::Val(number) => {
            let (row, col) = beside(cols, place, number as u32);
            toward(rows, cols, row, col)
        }
    }
}
