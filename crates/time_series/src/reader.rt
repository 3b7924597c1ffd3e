//! The reader of time series.

ghost use Rattle.std.specs.Prelude.{◌≡◌, ◌≤◌, ◌≢◌, ℕ, length, Ok, IfOk, IfErr};
ghost use Rattle.cell_values.specs.declared.kind.Kind.TheVariants.{Ldd};
ghost use Rattle.text_base.specs.Limits.{most_text_bytes};
ghost use Rattle.time_series.specs.Form.{SeriesValue, IsSeries};
ghost use Rattle.time_series.specs.Reading.{FirstSeriesFaultsAreTold, ReadsSeries, SeriesAreRead, TellsFirstSeriesFault};
ghost use Rattle.time_series.specs.inside.Reading.{series_of};

use crate::fault::ReadSeries;
use crate::head::read_head;
use crate::rows::read_rows;
use crate::series::Series;
use cell_values::Kind;
use std::alloc::Global;

// The series of the text.
#[tactic(auto, unfolding(crate::specs::inside::Reading::series_of))]
fn read_whole(alloc: Global, kind: Kind, text: &[u8]) -> Result<Series, ReadSeries>
    requires short { length text.now ≤ most_text_bytes }
    ensures { ReadsSeries result (series_of kind text.now) }
{
    let head = read_head(text)?;
    let rows = read_rows(alloc, kind, head)?;
    Ok(Series::of_rows(kind, rows))
}

/// Reads a series of the kind. Where the first line is a list of two or more decimals, each line is a
/// row; else the first line is a title, the second says how many columns a row has, as many lines
/// follow with their names, and then the rows. A row is a step, a whole number above that of the row
/// before, and its values, of which one of the exact value of `1e31` is missing. Lines of blanks alone
/// are passed over. `Fault` comes exactly where the text is no such series, with the first fault and
/// the number of its line. Takes time in proportion to the text.
pub fn read_series(alloc: Global, kind: Kind, text: &[u8]) -> Result<Series, ReadSeries>
    requires kind { kind ≢ Ldd }
    requires short { length text.now ≤ most_text_bytes }
    // The series is that of the text.
    ensures found { IfOk result (IsSeries kind text.now) }
    // A text that is a series is read, unless memory runs out.
    ensures only { (series : SeriesValue) → IsSeries kind text.now series → ReadsSeries result (Ok series) }
    // The fault is the first one.
    ensures first { IfErr result (TellsFirstSeriesFault kind text.now) }
    // What is answered where.
    ensures exact { ReadsSeries result (series_of kind text.now) }
{
    read_whole(alloc, kind, text)
}

/// A text is read as a series exactly where it is one with these rows, so no text has two readings.
pub fn series_are_read()
    ensures { SeriesAreRead }
{}

/// A fault is told exactly where it is the first one of the text.
pub fn first_series_faults_are_told()
    ensures { FirstSeriesFaultsAreTold }
{}
