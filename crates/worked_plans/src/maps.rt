//! Drain maps, as the tables draw them.

ghost use Rattle.std.specs.Prelude.{◌≡◌, IfOk, ℕ};
ghost use Rattle.cell_values.specs.Kinds.{IsCell};
ghost use Rattle.tile_map.specs.Cuts.{cell_at};

use cell_values::Cell::{Mv, Val};
use cell_values::{Cell, Kind, to_cell};
use drain_check::check_drain;
use drain_meaning::Drain;
use map_meaning::{Known, SharedDrain};
use sqlite_items::Items;
use std::alloc::{AllocError, Global};
use std::test::Fail;

// The cell, or none where it has no value of the kind.
fn fitted(kind: Kind, cell: Cell) -> Cell
    ensures { IsCell kind result }
{
    match cell {
        Mv => Mv,
        Val(number) => match to_cell(kind, i128::from(number)) {
            Ok(fits) => fits,
            Err(_) => Mv,
        },
    }
}

// The cells, so far as they have values of the kind.
fn of_kind(alloc: Global, kind: Kind, given: &[Cell]) -> Result<Vec<Cell>, AllocError>
    ensures { IfOk result (λ cells. (place : ℕ) → IsCell kind (cell_at cells.items place)) }
{
    let mut cells = Vec::with_capacity(alloc, given.len())?;
    for cell in given {
        cells.push(fitted(kind, *cell))?;
    }
    Ok(cells)
}

// The digits of a drawn map.
fn digits(alloc: Global, signs: &[u8]) -> Result<Vec<Cell>, AllocError> {
    let mut cells = Vec::with_capacity(alloc, signs.len())?;
    for sign in signs {
        cells.push(match *sign {
            b'0'..=b'9' => Val(i64::from(*sign - b'0')),
            _ => Mv,
        })?;
    }
    Ok(cells)
}

// The drawn map, which is sound.
fn drain_of(alloc: Global, rows: u32, cols: u32, signs: &[u8]) -> Result<Drain, Fail> {
    let drawn = digits(alloc, signs)?;
    let codes = of_kind(alloc, Kind::Ldd, drawn.as_slice())?;
    let count = u64::from(rows) * u64::from(cols);
    if count > 4_194_304 || codes.len() as u64 != count {
        return Err(Fail::from("the map has another size"));
    }
    match check_drain(alloc, rows, cols, codes) {
        Ok(drain) => Ok(drain),
        Err(_) => Err(Fail::from("the map is not sound")),
    }
}

/// What is known where one drain map is.
pub(crate) fn known_of(alloc: Global, rows: u32, cols: u32, signs: &[u8]) -> Result<Known, Fail> {
    let drain = drain_of(alloc, rows, cols, signs)?;
    let mut drains = Items::new(alloc);
    drains.push(SharedDrain::new(alloc, drain)?)?;
    Ok(Known {
        rows,
        cols,
        maps: Items::new(alloc),
        tables: Items::new(alloc),
        series: Items::new(alloc),
        drains,
        stacks: Items::new(alloc),
        initial: Items::new(alloc),
        last: Items::new(alloc),
    })
}
