//! Time series.

ghost use Rattle.std.specs.Prelude.{◌≡◌, ◌≤◌, ◌<◌, ◌==◌, length};
ghost use Rattle.std.specs.List.{AllPairs, find};
ghost use Rattle.std.specs.Option.{option_copied};
ghost use Rattle.time_series.specs.Values.{cell_in_column};
ghost use Rattle.time_series.specs.inside.Steps.{StepsBefore};

use crate::row::SeriesRow;
use cell_values::{Cell, Kind};
use std::marker::Model;

/// A time series: rows with ascending steps. Contracts see the kind of its values and its rows.
#[derive(Debug, Drop)]
pub struct Series {
    kind: Kind,
    rows: Vec<SeriesRow>,
}

impl Model for Series {
    ghost use Rattle.time_series.specs.Form.{SeriesValue};

    ghost Value = { SeriesValue };

    ghost use Rattle.time_series.specs.inside.Steps.{IsKeptSeries, series_view};

    ghost view = { λ s. series_view s.kind s.rows.items };

    ghost invariant = { λ s. IsKeptSeries s.kind s.rows.items };
}

// How many rows have a step below this one.
fn count_before(rows: &[SeriesRow], step: u32) -> usize
    requires { AllPairs (λ earlier later. earlier.step < later.step) rows.now }
    ensures within { result ≤ length rows.now }
    ensures point { StepsBefore rows.now step result }
{
    rows.partition_point(|row| row.step < step)
}

// The row of the step, by halving.
fn find_step(rows: &[SeriesRow], step: u32) -> Option<&SeriesRow>
    requires { AllPairs (λ earlier later. earlier.step < later.step) rows.now }
    ensures { option_copied result ≡ find (λ row. row.step == step) rows.now }
{
    let place = count_before(rows, step);
    if place == rows.len() {
        return None;
    }
    let row = &rows[place];
    if row.step != step {
        return None;
    }
    Some(row)
}

/// The cell of a column of a row, and `Mv` where there is no such column. Columns count from 1, behind the step.
pub fn cell_in_column(cells: &[Cell], column: i64) -> Cell
    ensures { result ≡ cell_in_column cells.now column }
{
    if column < 1 {
        return Cell::Mv;
    }
    match cells.get(column as usize - 1) {
        Some(cell) => *cell,
        None => Cell::Mv,
    }
}

impl Series {
    ghost use Rattle.std.specs.Prelude.{◌≡◌, ◌↔◌, IsNone, false, ◌==◌};
    ghost use Rattle.std.specs.List.{list_any};
    ghost use Rattle.std.specs.Option.{option_copied};
    ghost use Rattle.cell_values.specs.Kinds.{IsCell};
    ghost use Rattle.time_series.specs.Values.{cell_in_row, cells_at};
    ghost use Rattle.time_series.specs.inside.Steps.{IsKeptSeries, series_view};

    /// The series of these rows.
    pub(crate) fn of_rows(kind: Kind, rows: Vec<SeriesRow>) -> Series
        requires { IsKeptSeries kind rows.items }
        ensures { result ≡ series_view kind rows.items }
    {
        Series { kind, rows }
    }

    /// The cells of the row of a step, and `None` exactly where no row has that step. Takes time in
    /// proportion to the logarithm of the number of rows.
    pub fn row_of(&self, step: u32) -> Option<&[Cell]>
        ensures cells { option_copied result ≡ cells_at self.now.rows step }
        ensures none { IsNone result ↔ (list_any (λ row. row.step == step) self.now.rows ≡ false) }
    {
        match find_step(self.rows.as_slice(), step) {
            Some(row) => Some(row.cells.as_slice()),
            None => None,
        }
    }

    /// The cell of a column in the row of a step, and `Mv` where there is no such row or column.
    /// Columns count from 1, behind the step.
    pub fn value(&self, step: u32, column: i64) -> Cell
        ensures value { result ≡ cell_in_row (cells_at self.now.rows step) column }
        ensures cell { IsCell self.now.kind result }
    {
        match find_step(self.rows.as_slice(), step) {
            Some(row) => cell_in_column(row.cells.as_slice(), column),
            None => Cell::Mv,
        }
    }
}
