//! The cells of the three maps.

ghost use Rattle.std.specs.Prelude.{◌≡◌, ◌*◌, ◌<◌, ◌≤◌, IfOk, OnOk, map, pos};
ghost use Rattle.std.specs.List.{range_with_len};
ghost use Rattle.model_maker.specs.Draws.{drawn_from};
ghost use Rattle.model_maker.specs.Cells.{by_place, cells_in_all, drain_cell, side, soil_cell, zone_cell};
ghost use Rattle.model_maker.specs.inside.States.{state_after};

use crate::draws::Draws;
use cell_values::Cell;
use drain_meaning::{Next, next_cell};
use std::alloc::{AllocError, Global};

/// The rows, and the columns, of each map.
pub const SIDE: u32 = 512;

// The directions that are drawn, and the code of a pit.
const DIRECTIONS: [u32; 4] = [1, 2, 3, 6];

const PIT: i64 = 5;

/// The number of cells of each map.
#[tactic(auto, unfolding(crate::specs::Cells::cells_in_all))]
pub fn cells_in_all() -> u32
    ensures all { result ≡ cells_in_all }
    ensures square { result ≡ side * side }
{
    SIDE * SIDE
}

// The cell of the drain map: the direction that is drawn, or a pit where it leads out of the map.
#[tactic(auto, unfolding(crate::specs::Cells::drain_cell))]
fn drain_cell(place: u32, drawn: u32) -> Cell
    requires { place < side * side }
    ensures { result ≡ drain_cell place drawn }
{
    let code = DIRECTIONS[drawn as usize % 4] as i64;
    match next_cell(SIDE, SIDE, place, Cell::Val(code)) {
        Next::Outside => Cell::Val(PIT),
        Next::Pit | Next::Cell(_) | Next::Missing => Cell::Val(code),
    }
}

// The cell of the soils.
fn soil_cell(drawn: u32) -> Cell
    ensures { result ≡ soil_cell drawn }
{
    Cell::Val((drawn / 4 % 1000 * 10_000) as i64)
}

// The zone of a place: one of the four quarters of the map.
fn zone_cell(place: u32) -> Cell
    ensures { result ≡ zone_cell place }
{
    let south = if place / SIDE >= SIDE / 2 { 2 } else { 0 };
    let east = if place % SIDE >= SIDE / 2 { 1 } else { 0 };
    Cell::Val(1 + south + east)
}

/// The cells that are drawn.
#[derive(Drop)]
pub struct DrawnCells {
    /// Of the drain map.
    pub drains: Vec<Cell>,
    /// Of the soils.
    pub soils: Vec<Cell>,
}

/// Draws the cells of so many places, each of the drain map and of the soils by one draw.
pub fn draw_cells(alloc: Global, count: u32, draws: &mut Draws) -> Result<DrawnCells, AllocError>
    requires { count ≤ side * side }
    ensures drains { IfOk result (λ cells. cells.drains.items ≡ by_place drain_cell 0 (drawn_from count draws.old.state)) }
    ensures soils { IfOk result (λ cells. cells.soils.items ≡ map soil_cell (drawn_from count draws.old.state)) }
    ensures state { OnOk result (draws.new.state ≡ state_after count draws.old.state) }
{
    let mut drains = Vec::with_capacity(alloc, count as usize)?;
    let mut soils = Vec::with_capacity(alloc, count as usize)?;
    for place in 0..count {
        let drawn = draws.draw();
        drains.push(drain_cell(place, drawn))?;
        soils.push(soil_cell(drawn))?;
    }
    Ok(DrawnCells { drains, soils })
}

/// The zones of so many places.
pub fn zone_cells(alloc: Global, count: u32) -> Result<Vec<Cell>, AllocError>
    ensures { IfOk result (λ cells. cells.items ≡ map zone_cell (range_with_len 0 count)) }
{
    let mut cells = Vec::with_capacity(alloc, count as usize)?;
    for place in 0..count {
        cells.push(zone_cell(place))?;
    }
    Ok(cells)
}
