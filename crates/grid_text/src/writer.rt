//! The writer of grid texts.

ghost use Rattle.std.specs.Prelude.{◌≡◌, ◌*◌, ◌<◌, ◌≤◌, ◌++◌, length, decimal, OnOk, IfOk};
ghost use Rattle.grid_text.specs.Form.{IsSize};
ghost use Rattle.grid_text.specs.Written.{key_line, head_lines, row_line, written_grid, CutGridsLoseTheLastCellAlone, GridsCanBeWritten, WrittenGridsReadBack};

use crate::grid::Head;
use cell_values::{Cell, Kind, print_cell};
use itoa::Buffer;
use std::alloc::{AllocError, Global};

/// The bytes of the head's lines without its words, rounded up.
const HEAD: usize = 128;

/// The most bytes of a cell and of what stands behind it: a sign, nineteen digits, a point and a blank.
const MOST_BYTES_OF_A_CELL: usize = 22;

fn put_line(key: &[u8], value: &[u8], out: &mut Vec<u8>) -> Result<(), AllocError>
    ensures { OnOk result (out.new.items ≡ out.old.items ++ key_line key.now value.now) }
{
    out.extend_from_slice(key)?;
    out.push(b' ')?;
    out.extend_from_slice(value)?;
    out.push(b'\n')?;
    Ok(())
}

fn put_head(rows: u32, cols: u32, head: &Head, out: &mut Vec<u8>) -> Result<(), AllocError>
    ensures { OnOk result (out.new.items ≡ out.old.items ++ head_lines rows cols head.now) }
{
    let x_key: &[u8] = if head.x_center {
        b"xllcenter"
    } else {
        b"xllcorner"
    };
    let y_key: &[u8] = if head.y_center {
        b"yllcenter"
    } else {
        b"yllcorner"
    };
    put_line(b"ncols", Buffer::new().format(cols).as_bytes(), out)?;
    put_line(b"nrows", Buffer::new().format(rows).as_bytes(), out)?;
    put_line(x_key, head.x.bytes(), out)?;
    put_line(y_key, head.y.bytes(), out)?;
    put_line(b"cellsize", head.size.bytes(), out)
}

// A row of cells, each with a space behind it, and the last with a line feed.
fn put_row(alloc: Global, kind: Kind, row: &[Cell], out: &mut Vec<u8>) -> Result<(), AllocError>
    ensures { OnOk result (out.new.items ≡ out.old.items ++ row_line kind row.now) }
{
    let mut rest = row;
    while let Some((cell, more)) = rest.split_first() {
        print_cell(alloc, kind, *cell, out)?;
        out.push(if more.is_empty() { b'\n' } else { b' ' })?;
        rest = more;
    }
    Ok(())
}

/// The one text of a grid, an ESRI ASCII grid: six lines of a key word and its value, and then one
/// line for each row of cells, which come row by row from the north. The words of the head are
/// written as they are, and a missing value as `1e31`.
#[tactic(auto, unfolding(crate::specs::Written::written_grid))]
pub fn write_grid(
    alloc: Global,
    kind: Kind,
    rows: u32,
    cols: u32,
    head: &Head,
    cells: &[Cell],
) -> Result<Vec<u8>, AllocError>
    requires size { IsSize rows cols }
    requires count { length cells.now ≡ rows * cols }
    ensures { IfOk result (λ text. text.items ≡ written_grid kind rows cols head.now cells.now) }
{
    // Room that is not written takes no memory.
    let mut out = Vec::with_capacity(alloc, HEAD + cells.len() * MOST_BYTES_OF_A_CELL)?;
    put_head(rows, cols, head, &mut out)?;
    put_line(b"NODATA_value", b"1e31", &mut out)?;
    let mut rest = cells;
    for _ in 0..rows {
        let (row, more) = rest.split_at(cols as usize);
        put_row(alloc, kind, row, &mut out)?;
        rest = more;
    }
    Ok(out)
}

/// A written text is read back as exactly the values that were written, and as no others.
pub fn written_grids_read_back()
    ensures { WrittenGridsReadBack }
{}

/// What is read can be written, so it is read back from its written text.
pub fn grids_can_be_written()
    ensures { GridsCanBeWritten }
{}

/// A written text that was cut off and is still a grid has the rows, columns and head that were written, and all cells but
/// the last.
pub fn cut_grids_lose_the_last_cell_alone()
    ensures { CutGridsLoseTheLastCellAlone }
{}
