//! The rows of the rain.

ghost use Rattle.std.specs.Prelude.{◌≡◌, ◌+◌, ◌*◌, ◌-◌, ◌<◌, ◌≤◌, IfOk, OnOk, map};
ghost use Rattle.std.specs.List.{All, range_with_len};
ghost use Rattle.model_maker.specs.Draws.{drawn_from};
ghost use Rattle.model_maker.specs.Rain.{columns, rain_cell, rain_row, steps};
ghost use Rattle.model_maker.specs.inside.States.{state_after};

use crate::draws::Draws;
use cell_values::{Cell, Cells};
use std::alloc::{AllocError, Global};
use time_series::SeriesRow;

const MILLION: i64 = 1_000_000;

/// The steps of the rain.
const STEPS: u32 = 4;

/// Its columns, one for each zone.
const COLUMNS: u32 = 4;

// The rain of a draw, in whole units.
fn rain_cell(drawn: u32) -> Cell
    ensures { result ≡ rain_cell drawn }
{
    Cell::Val((drawn % 10) as i64 * MILLION)
}

// Draws the cells of a step.
fn draw_row(alloc: Global, draws: &mut Draws) -> Result<Vec<Cell>, AllocError>
    ensures cells { IfOk result (λ cells. cells.items ≡ map rain_cell (drawn_from columns draws.old.state)) }
    ensures state { OnOk result (draws.new.state ≡ state_after columns draws.old.state) }
{
    let mut cells = Vec::with_capacity(alloc, COLUMNS as usize)?;
    for _ in 0..COLUMNS {
        let drawn = draws.draw();
        cells.push(rain_cell(drawn))?;
    }
    Ok(cells)
}

/// Draws the rows of the rain.
pub fn draw_rain(alloc: Global, draws: &mut Draws) -> Result<Vec<SeriesRow>, AllocError>
    ensures { IfOk result (λ rows. rows.items ≡ map (rain_row (drawn_from (columns * steps) draws.old.state)) (range_with_len 1 steps)) }
{
    let mut rows = Vec::with_capacity(alloc, STEPS as usize)?;
    for before in 0..STEPS {
        let cells = draw_row(alloc, draws)?;
        rows.push(SeriesRow {
            step: before + 1,
            cells: Cells::from_vec(cells),
        })?;
    }
    Ok(rows)
}
