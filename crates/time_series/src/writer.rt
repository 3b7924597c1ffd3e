//! The writer of time series.

ghost use Rattle.std.specs.Prelude.{◌≡◌, ◌+◌, ◌<◌, ◌^◌, ◌++◌, length, OnOk, IfOk};
ghost use Rattle.std.specs.List.{All};
ghost use Rattle.time_series.specs.Written.{kind_text, name_lines, spaced_cells, step_lines, title_lines, written_series};

use crate::row::SeriesRow;
use cell_values::{Cell, Kind, print_cell};
use itoa::Buffer;
use std::alloc::{AllocError, Global};

// The word of a kind.
fn kind_text(kind: Kind) -> &'static [u8]
    ensures { result.now ≡ kind_text kind }
{
    match kind {
        Kind::Boolean => b"boolean",
        Kind::Nominal => b"nominal",
        Kind::Ordinal => b"ordinal",
        Kind::Scalar => b"scalar",
        Kind::Directional => b"directional",
        Kind::Ldd => b"ldd",
    }
}

// The lines before the names.
fn put_title(kind: Kind, count: usize, out: &mut Vec<u8>) -> Result<(), AllocError>
    requires { count + 1 < 2 ^ 64 }
    ensures { OnOk result (out.new.items ≡ out.old.items ++ title_lines kind count) }
{
    out.extend_from_slice(b"timeseries ")?;
    out.extend_from_slice(kind_text(kind))?;
    out.push(b'\n')?;
    out.extend_from_slice(Buffer::new().format(count + 1).as_bytes())?;
    out.extend_from_slice(b"\ntimestep\n")?;
    Ok(())
}

// A line for each name.
fn put_names(names: &[i64], out: &mut Vec<u8>) -> Result<(), AllocError>
    ensures { OnOk result (out.new.items ≡ out.old.items ++ name_lines names.now) }
{
    let mut rest = names;
    while let Some((name, more)) = rest.split_first() {
        out.extend_from_slice(Buffer::new().format(*name).as_bytes())?;
        out.push(b'\n')?;
        rest = more;
    }
    Ok(())
}

// Cells, each behind a space.
fn put_cells(alloc: Global, kind: Kind, cells: &[Cell], out: &mut Vec<u8>) -> Result<(), AllocError>
    ensures { OnOk result (out.new.items ≡ out.old.items ++ spaced_cells kind cells.now) }
{
    let mut rest = cells;
    while let Some((cell, more)) = rest.split_first() {
        out.push(b' ')?;
        print_cell(alloc, kind, *cell, out)?;
        rest = more;
    }
    Ok(())
}

// A line for each row.
fn put_rows(
    alloc: Global,
    kind: Kind,
    rows: &[SeriesRow],
    out: &mut Vec<u8>,
) -> Result<(), AllocError>
    ensures { OnOk result (out.new.items ≡ out.old.items ++ step_lines kind rows.now) }
{
    let mut rest = rows;
    while let Some((row, more)) = rest.split_first() {
        out.extend_from_slice(Buffer::new().format(row.step).as_bytes())?;
        put_cells(alloc, kind, row.cells.as_slice(), out)?;
        out.push(b'\n')?;
        rest = more;
    }
    Ok(())
}

/// The one text of a series of the kind: the line `timeseries` with the kind's word, the number of
/// columns with that of the steps, a line for the name of each column, `timestep` first, and a line
/// for each row. A missing value is written as `1e31`.
#[tactic(auto, unfolding(crate::specs::Written::written_series))]
pub fn write_series(
    alloc: Global,
    kind: Kind,
    names: &[i64],
    rows: &[SeriesRow],
) -> Result<Vec<u8>, AllocError>
    requires { All (λ row. length row.cells ≡ length names.now) rows.now }
    ensures { IfOk result (λ text. text.items ≡ written_series kind names.now rows.now) }
{
    let mut out = Vec::new(alloc);
    put_title(kind, names.len(), &mut out)?;
    put_names(names, &mut out)?;
    put_rows(alloc, kind, rows, &mut out)?;
    Ok(out)
}
