//! The rows of a series' text.

ghost use Rattle.std.specs.Prelude.{◌≡◌, ◌+◌, ◌<◌, ◌≤◌, ◌^◌, length, IfOk};
ghost use Rattle.std.specs.List.{All, AllPairs};
ghost use Rattle.cell_values.specs.Kinds.{IsCell};
ghost use Rattle.text_base.specs.Lines.{line_view, lines_at};
ghost use Rattle.time_series.specs.declared.fault.ReadSeries.TheVariants.{Fault};
ghost use Rattle.time_series.specs.inside.Reading.{at_line, cells_read, row_of_words, step_row_read, step_rows_read};
ghost use Rattle.time_series.specs.inside.Steps.{Answers, CellsAre, IsKeptSeries, words_left};

use crate::fault::{ReadSeries, SeriesFault, SeriesKind};
use crate::head::Head;
use crate::row::SeriesRow;
use crate::word::{count_words, read_step, read_word};
use cell_values::{Cells, Kind};
use std::alloc::Global;
use text_base::{Line, next_line, next_token};

// A fault in a line.
fn fault_in(line: u32, kind: SeriesKind) -> ReadSeries
    ensures { result ≡ Fault (record { kind = kind; line = line }) }
{
    ReadSeries::Fault(SeriesFault { kind, line })
}

// The cells of the last bytes of a line of this length and number.
fn read_cells(
    alloc: Global,
    kind: Kind,
    number: u32,
    len: usize,
    bytes: &[u8],
) -> Result<Cells, ReadSeries>
    requires within { length bytes.now ≤ len }
    ensures cells { Answers (λ cells. cells) result (at_line number (cells_read kind (words_left len bytes.now))) }
    ensures values { IfOk result (All (IsCell kind)) }
{
    let mut cells = Vec::new(alloc);
    let mut rest = bytes;
    while let Some((word, behind)) = next_token(len, rest) {
        match read_word(kind, word.bytes) {
            Ok(cell) => cells.push(cell)?,
            Err(why) => return Err(fault_in(number, why)),
        }
        rest = behind;
    }
    Ok(Cells::from_vec(cells))
}

// The row of the words of a line.
fn read_words(alloc: Global, kind: Kind, line: Line<'_>) -> Result<SeriesRow, ReadSeries>
    ensures row { Answers (λ row. row) result (at_line line.entry.number (row_of_words kind (words_left (length line.entry.bytes.now) line.entry.bytes.now))) }
    ensures values { IfOk result (CellsAre kind) }
{
    let bytes = line.bytes;
    let Some((word, rest)) = next_token(bytes.len(), bytes) else {
        return Err(fault_in(line.number, SeriesKind::Columns));
    };
    let step = match read_step(word.bytes) {
        Ok(step) => step,
        Err(why) => return Err(fault_in(line.number, why)),
    };
    let cells = read_cells(alloc, kind, line.number, bytes.len(), rest)?;
    Ok(SeriesRow { step, cells })
}

// The row of so many columns that a line writes behind a row of a step.
fn read_row(
    alloc: Global,
    kind: Kind,
    width: usize,
    before: u32,
    line: Line<'_>,
) -> Result<SeriesRow, ReadSeries>
    ensures row { Answers (λ row. row) result (at_line line.entry.number (step_row_read kind width before line.entry.bytes.now)) }
    ensures values { IfOk result (CellsAre kind) }
    ensures above { IfOk result (λ row. before < row.step) }
{
    if count_words(line.bytes) != width {
        return Err(fault_in(line.number, SeriesKind::Columns));
    }
    let row = read_words(alloc, kind, line)?;
    if row.step <= before {
        return Err(fault_in(line.number, SeriesKind::Order));
    }
    Ok(row)
}

/// The rows behind a head.
pub fn read_rows(alloc: Global, kind: Kind, head: Head<'_>) -> Result<Vec<SeriesRow>, ReadSeries>
    requires few { head.number + length head.rest.now < 2 ^ 32 }
    ensures rows { Answers (λ rows. rows.items) result (step_rows_read kind head.entry.width 0 (lines_at head.entry.number head.entry.rest.now)) }
    ensures kept { IfOk result (λ rows. IsKeptSeries kind rows.items) }
{
    let mut rows = Vec::new(alloc);
    let mut before = 0;
    let mut number = head.number;
    let mut rest = head.rest;
    while let Some((line, behind)) = next_line(number, rest) {
        let row = read_row(alloc, kind, head.width, before, line)?;
        before = row.step;
        rows.push(row)?;
        number = line.number + 1;
        rest = behind;
    }
    Ok(rows)
}
