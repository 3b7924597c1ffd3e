//! The reader of grid texts.

ghost use Rattle.std.specs.Prelude.{◌≡◌, ◌≤◌, length, Ok, IfOk, IfErr};
ghost use Rattle.grid_text.specs.declared.grid.Grid.{Grid};
ghost use Rattle.grid_text.specs.Form.{IsGrid};
ghost use Rattle.grid_text.specs.Faults.{place_of};
ghost use Rattle.text_base.specs.Tokens.{tokens_left};
ghost use Rattle.grid_text.specs.Reading.{FirstFaultsAreTold, GridsAreRead, ReadsGrid, TellsFirst};
ghost use Rattle.grid_text.specs.inside.Reading.{grid_of};

use crate::cells::read_cells;
use crate::fault::ReadGrid;
use crate::grid::Grid;
use crate::head::{Heading, head_fault, read_heading, read_pairs};
use cell_values::Kind;
use std::alloc::Global;
use text_base::next_token;

// The place of the first token of the last bytes, or the text's length.
fn place_of(text_len: usize, bytes: &[u8]) -> u64
    requires within { length bytes.now ≤ text_len }
    ensures { result ≡ place_of text_len (tokens_left text_len bytes.now) }
{
    match next_token(text_len, bytes) {
        Some((token, _)) => token.at,
        None => text_len as u64,
    }
}

// The grid of the text.
#[tactic(auto, unfolding(crate::specs::inside::Reading::grid_of))]
fn read_whole(alloc: Global, kind: Kind, text: &[u8]) -> Result<Grid, ReadGrid>
    ensures { ReadsGrid result (grid_of kind text.now) }
{
    let (given, rest) = read_pairs(text)?;
    let heading = read_heading(alloc, given, head_fault(place_of(text.len(), rest)))?;
    let Heading {
        rows,
        cols,
        head,
        nodata,
    } = heading;
    let count = rows as usize * cols as usize;
    let cells = read_cells(alloc, kind, nodata, count, text.len(), rest)?;
    Ok(Grid {
        rows,
        cols,
        head,
        cells,
    })
}

/// Reads a grid of the kind, an ESRI ASCII grid: pairs of a key word and its value, with the key words
/// in any order and in any case, and then the cells row by row from the north, all separated by
/// blanks. The key words are `ncols`, `nrows`, `xllcorner` or `xllcenter`, `yllcorner` or `yllcenter`,
/// `cellsize`, and where the missing value is not -9999 `NODATA_value`, a decimal or `nan`. Rows and
/// columns have 1 to 7 digits and make 1 to 4,194,304 cells; coordinates and the size of a cell are
/// decimals of at most 64 bytes, and the size is above 0. A cell is missing where it has the exact
/// value of the missing one. `Fault` comes exactly where the text is no such grid, with the first
/// fault and its byte place.
pub fn read_grid(alloc: Global, kind: Kind, text: &[u8]) -> Result<Grid, ReadGrid>
    // The values are those of the text.
    ensures found { IfOk result (IsGrid kind text.now) }
    // A text that is a grid is read, unless memory runs out.
    ensures only { (grid : Grid) → IsGrid kind text.now grid → ReadsGrid result (Ok grid) }
    // The fault is the first one.
    ensures first { IfErr result (TellsFirst kind text.now) }
    // What is answered where.
    ensures exact { ReadsGrid result (grid_of kind text.now) }
{
    read_whole(alloc, kind, text)
}

/// A text is read as a grid exactly where it is one with these values, so no text has two readings.
pub fn grids_are_read()
    ensures { GridsAreRead }
{}

/// A fault is told exactly where it is the first one of the text.
pub fn first_faults_are_told()
    ensures { FirstFaultsAreTold }
{}
