//! Grids that are read.

ghost use Rattle.std.specs.Prelude.{◌≡◌, ◌*◌, ◌≤◌, length, IfOk};
ghost use Rattle.text_base.specs.Limits.{most_text_bytes};
ghost use Rattle.grid_text.specs.inside.Reading.{grid_of};
ghost use Rattle.grid_text.specs.Written.{AreGridValues};
ghost use Rattle.map_meaning.specs.Maps.{IsMapOf};
ghost use Rattle.run_session.specs.Steps.{grid_run, map_run, or_input, or_size};
ghost use Rattle.run_session.specs.inside.Parts.{GivesEnd, IsInputEnd, Makes};

use crate::ends::{InputKind, Stop};
use crate::files::fetch;
use crate::frame::Frame;
use cell_values::{Kind, Word};
use grid_text::{Grid, ReadGrid, read_grid};
use map_meaning::Map;
use outside_io::Folder;
use std::alloc::Global;
use text_base::MOST_TEXT_BYTES;

/// The end at an input that is not as it is to be.
pub fn input_end(alloc: Global, name: &Word, kind: InputKind) -> Stop
    ensures { IsInputEnd name.now kind result }
{
    match name.twin(alloc) {
        Ok(name) => Stop::Input { name, kind },
        Err(_) => Stop::Memory,
    }
}

// The grid of a text.
fn parse_grid(alloc: Global, kind: Kind, name: &Word, text: &[u8]) -> Result<Grid, Stop>
    requires { length text.now ≤ most_text_bytes }
    ensures settles { GivesEnd (or_input name.now (grid_of kind text.now)) result }
    ensures values { IfOk result (AreGridValues kind) }
{
    match read_grid(alloc, kind, text) {
        Ok(grid) => Ok(grid),
        Err(ReadGrid::Memory) => Err(Stop::Memory),
        Err(ReadGrid::Fault(fault)) => Err(input_end(alloc, name, InputKind::Grid(fault))),
    }
}

/// Reads a grid. Its text is let go.
pub fn grid_at<F: Folder>(
    alloc: Global,
    folder: &mut F,
    kind: Kind,
    name: &Word,
) -> Result<Grid, Stop>
    ensures meets { Makes (grid_run kind name.now) (F.state folder.old) (F.state folder.new) result }
    ensures values { IfOk result (AreGridValues kind) }
{
    let text = fetch(alloc, folder, name.bytes(), MOST_TEXT_BYTES)?;
    parse_grid(alloc, kind, name, &text)
}

// The map of a grid that is to have the size of the area map.
fn sized(alloc: Global, name: &Word, frame: &Frame, grid: Grid) -> Result<Map, Stop>
    ensures settles { GivesEnd (or_size frame.now name.now grid) result }
    ensures size { IfOk result (λ map. (map ≡ grid.cells) × (grid.rows ≡ frame.now.rows) × (grid.cols ≡ frame.now.cols)) }
{
    let Grid {
        rows,
        cols,
        head: _,
        cells,
    } = grid;
    if rows != frame.rows || cols != frame.cols {
        return Err(input_end(alloc, name, InputKind::Size { rows, cols }));
    }
    Ok(Map::new(alloc, cells)?)
}

/// Reads a map, which is to have the size of the area map.
pub fn map_at<F: Folder>(
    alloc: Global,
    folder: &mut F,
    frame: &Frame,
    kind: Kind,
    name: &Word,
) -> Result<Map, Stop>
    ensures meets { Makes (map_run frame.now kind name.now) (F.state folder.old) (F.state folder.new) result }
    ensures cells { IfOk result (IsMapOf (frame.now.rows * frame.now.cols) kind) }
{
    let grid = grid_at(alloc, folder, kind, name)?;
    sized(alloc, name, frame, grid)
}
