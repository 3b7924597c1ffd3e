//! Drain maps, tilings and operands, as the tables draw them.

ghost use Rattle.std.specs.Prelude.{◌≡◌, IfOk, ℕ};
ghost use Rattle.border_channel.specs.Edges.{HasSizeOf};
ghost use Rattle.cell_values.specs.Kinds.{IsCell};
ghost use Rattle.cell_values.specs.declared.kind.Kind.TheVariants.{Scalar};
ghost use Rattle.tile_map.specs.Cuts.{cell_at};

use cell_values::Cell::{Mv, Val};
use cell_values::{Cell, Kind, to_cell};
use drain_check::check_drain;
use drain_meaning::Drain;
use std::alloc::{AllocError, Global};
use std::test::Fail;
use tile_map::Tiling;

/// A map's rows and columns, and its cells.
pub type Drawn = (u32, u32, &'static [u8]);

/// The greatest scalar.
const MOST: i64 = 9_000_000_000_000_000_000;

// The cell, or none where it has no value of the kind.
fn fitted(kind: Kind, cell: Cell) -> Cell
    ensures { IsCell kind result }
{
    match cell {
        Mv => Mv,
        Val(number) => match to_cell(kind, i128::from(number)) {
            Ok(fits) => fits,
            Err(_) => Mv,
        },
    }
}

// The cells, so far as they have values of the kind.
fn of_kind(alloc: Global, kind: Kind, given: &[Cell]) -> Result<Vec<Cell>, AllocError>
    ensures { IfOk result (λ cells. (place : ℕ) → IsCell kind (cell_at cells.items place)) }
{
    let mut cells = Vec::with_capacity(alloc, given.len())?;
    for cell in given {
        cells.push(fitted(kind, *cell))?;
    }
    Ok(cells)
}

/// The cells of an operand, each a scalar.
pub(crate) fn scalars(alloc: Global, given: &[Cell]) -> Result<Vec<Cell>, AllocError>
    ensures { IfOk result (λ cells. (place : ℕ) → IsCell Scalar (cell_at cells.items place)) }
{
    of_kind(alloc, Kind::Scalar, given)
}

/// The cells of a drawn map: its digits, the greatest and the least scalar for an M and an m, and a missing value for each
/// other sign.
pub(crate) fn drawn_cells(alloc: Global, signs: &[u8]) -> Result<Vec<Cell>, AllocError> {
    let mut cells = Vec::with_capacity(alloc, signs.len())?;
    for sign in signs {
        cells.push(match *sign {
            b'0'..=b'9' => Val(i64::from(*sign - b'0')),
            b'M' => Val(MOST),
            b'm' => Val(-MOST),
            _ => Mv,
        })?;
    }
    Ok(cells)
}

/// The drawn map, which is sound.
pub(crate) fn drain_of(alloc: Global, (rows, cols, signs): Drawn) -> Result<Drain, Fail> {
    let codes = of_kind(alloc, Kind::Ldd, &drawn_cells(alloc, signs)?)?;
    let count = u64::from(rows) * u64::from(cols);
    if count > 4_194_304 || codes.len() as u64 != count {
        Err("the map has another size")?
    }
    match check_drain(alloc, rows, cols, codes) {
        Ok(drain) => Ok(drain),
        Err(_) => Err("the map is not sound")?,
    }
}

/// The tiling of a map into tiles of this size.
pub(crate) fn tiling_of(drain: &Drain, sides: (u32, u32)) -> Result<Tiling, Fail>
    ensures { IfOk result (λ tiling. HasSizeOf drain.now tiling) }
{
    let (rows, cols) = (drain.rows(), drain.cols());
    let (tile_rows, tile_cols) = sides;
    let are_sides = 0 < rows
        && 0 < cols
        && u64::from(rows) * u64::from(cols) <= 4_194_304
        && 0 < tile_rows
        && tile_rows <= 4096
        && 0 < tile_cols
        && tile_cols <= 4096;
    if are_sides {
        Ok(Tiling::new(rows, cols, tile_rows, tile_cols))
    } else {
        Err("the map or its tiles have no such sides")?
    }
}
