use cell_values::Kind;
use lookup_table::Table;
use map_meaning::Op;
use time_series::Series;

/// What is computed at each place.
#[derive(Clone, Copy, Debug)]
pub enum CellWork<'a> {
    /// An operation that looks at nothing but its operands' cells.
    Plain(Op),
    /// The conversion of cells of the kind `from` to cells of the kind `to`.
    Convert { from: Kind, to: Kind },
    /// The value of a table at its operands, which have these kinds; as many count as the table has keys.
    Lookup { table: &'a Table, keys: [Kind; 4] },
    /// The cell of a series in the row of a step, and in the column of its operand.
    SeriesAt(&'a Series, u32),
}
