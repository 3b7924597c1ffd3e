//! Lookup tables and time series that are read.

ghost use Rattle.std.specs.Prelude.{◌≡◌, ◌≢◌, ◌≤◌, length, IfOk};
ghost use Rattle.text_base.specs.Limits.{most_text_bytes};
ghost use Rattle.cell_values.specs.declared.kind.Kind.TheVariants.{Ldd};
ghost use Rattle.lookup_table.specs.inside.Reading.{table_of};
ghost use Rattle.time_series.specs.inside.Reading.{series_of};
ghost use Rattle.map_meaning.specs.Spans.{HasSeriesKind, HasTableKind};
ghost use Rattle.run_session.specs.Course.{or_series, or_table, table_run, timed_run};
ghost use Rattle.run_session.specs.inside.Parts.{GivesEnd, Makes};

use crate::ends::{InputKind, Stop};
use crate::files::fetch;
use crate::grids::input_end;
use lookup_table::{ReadTable, Table, read_table};
use map_meaning::{InputUse, SharedSeries, SharedTable};
use outside_io::Folder;
use std::alloc::Global;
use text_base::MOST_TEXT_BYTES;
use time_series::{ReadSeries, Series, read_series};

// The table of a text.
fn parse_table(alloc: Global, keys: u32, input: &InputUse, text: &[u8]) -> Result<Table, Stop>
    requires short { length text.now ≤ most_text_bytes }
    requires some { 1 ≤ keys }
    requires few { keys ≤ 4 }
    requires kind { input.now.kind ≢ Ldd }
    ensures settles { GivesEnd (or_table input.now.file (table_of keys input.now.kind text.now)) result }
    ensures keys { IfOk result (λ table. table.keys ≡ keys) }
    ensures values { IfOk result (HasTableKind input.now.kind) }
{
    match read_table(alloc, keys, input.kind, text) {
        Ok(table) => Ok(table),
        Err(ReadTable::Memory) => Err(Stop::Memory),
        Err(ReadTable::Fault(fault)) => {
            Err(input_end(alloc, &input.file, InputKind::Table(fault)))
        }
    }
}

/// Reads a lookup table. Its text is let go.
pub fn table_at<F: Folder>(
    alloc: Global,
    folder: &mut F,
    keys: u32,
    input: &InputUse,
) -> Result<SharedTable, Stop>
    requires some { 1 ≤ keys }
    requires few { keys ≤ 4 }
    requires kind { input.now.kind ≢ Ldd }
    ensures meets { Makes (table_run keys input.now) (F.state folder.old) (F.state folder.new) result }
    ensures keys { IfOk result (λ table. table.keys ≡ keys) }
    ensures values { IfOk result (HasTableKind input.now.kind) }
{
    let text = fetch(alloc, folder, input.file.bytes(), MOST_TEXT_BYTES)?;
    let table = parse_table(alloc, keys, input, &text)?;
    Ok(SharedTable::new(alloc, table)?)
}

// The series of a text.
fn parse_series(alloc: Global, input: &InputUse, text: &[u8]) -> Result<Series, Stop>
    requires short { length text.now ≤ most_text_bytes }
    requires kind { input.now.kind ≢ Ldd }
    ensures settles { GivesEnd (or_series input.now.file (series_of input.now.kind text.now)) result }
    ensures values { IfOk result (HasSeriesKind input.now.kind) }
{
    match read_series(alloc, input.kind, text) {
        Ok(series) => Ok(series),
        Err(ReadSeries::Memory) => Err(Stop::Memory),
        Err(ReadSeries::Fault(fault)) => {
            Err(input_end(alloc, &input.file, InputKind::Series(fault)))
        }
    }
}

/// Reads a time series. Its text is let go.
pub fn series_at<F: Folder>(
    alloc: Global,
    folder: &mut F,
    input: &InputUse,
) -> Result<SharedSeries, Stop>
    requires { input.now.kind ≢ Ldd }
    ensures meets { Makes (timed_run input.now) (F.state folder.old) (F.state folder.new) result }
    ensures values { IfOk result (HasSeriesKind input.now.kind) }
{
    let text = fetch(alloc, folder, input.file.bytes(), MOST_TEXT_BYTES)?;
    let series = parse_series(alloc, input, &text)?;
    Ok(SharedSeries::new(alloc, series)?)
}
