//! Drain maps and operands, as the tables draw them.

ghost use Rattle.std.specs.Prelude.{◌≡◌, IfOk, ℕ};
ghost use Rattle.cell_values.specs.Kinds.{IsCell};
ghost use Rattle.cell_values.specs.declared.kind.Kind.TheVariants.{Scalar};
ghost use Rattle.tile_map.specs.Cuts.{cell_at};

use cell_values::Cell::{Mv, Val};
use cell_values::{Cell, Kind, to_cell};
use drain_check::{CheckEnd, check_drain};
use drain_meaning::{AccuRule, Drain};
use drain_ops::flow_whole;
use std::alloc::{AllocError, Global};
use std::process::Abort;
use std::test::Fail;
use tile_map::{Arg, Part};

/// A map's rows and columns, and its cells.
pub type Drawn = (u32, u32, &'static [u8]);

/// One.
pub const ONE: i64 = 1_000_000;

// The cell, or none where it has no value of the kind.
fn fitted(kind: Kind, cell: Cell) -> Cell
    ensures { IsCell kind result }
{
    match cell {
        Mv => Mv,
        Val(number) => match to_cell(kind, i128::from(number)) {
            Ok(fits) => fits,
            Err(_) => Mv,
        },
    }
}

// The cells, so far as they have values of the kind.
fn of_kind(alloc: Global, kind: Kind, given: &[Cell]) -> Result<Vec<Cell>, AllocError>
    ensures { IfOk result (λ cells. (place : ℕ) → IsCell kind (cell_at cells.items place)) }
{
    let mut cells = Vec::with_capacity(alloc, given.len())?;
    for cell in given {
        cells.push(fitted(kind, *cell))?;
    }
    Ok(cells)
}

/// The cells of an operand, each a scalar.
pub(crate) fn scalars(alloc: Global, given: &[Cell]) -> Result<Vec<Cell>, AllocError>
    ensures { IfOk result (λ cells. (place : ℕ) → IsCell Scalar (cell_at cells.items place)) }
{
    of_kind(alloc, Kind::Scalar, given)
}

/// The cells of a drawn map: its digits, and a missing value for each other sign.
pub(crate) fn drawn_cells(alloc: Global, signs: &[u8]) -> Result<Vec<Cell>, AllocError> {
    let mut cells = Vec::with_capacity(alloc, signs.len())?;
    for sign in signs {
        cells.push(match *sign {
            b'0'..=b'9' => Val(i64::from(*sign - b'0')),
            _ => Mv,
        })?;
    }
    Ok(cells)
}

/// The check of a map of these codes, where it has as many as its size says.
pub(crate) fn checked(
    alloc: Global,
    rows: u32,
    cols: u32,
    codes: &[Cell],
) -> Result<Result<Drain, CheckEnd>, Fail> {
    let codes = of_kind(alloc, Kind::Ldd, codes)?;
    let count = u64::from(rows) * u64::from(cols);
    if count > 4_194_304 || codes.len() as u64 != count {
        Err("the map has another size")?
    }
    Ok(check_drain(alloc, rows, cols, codes))
}

/// The map of these codes, which is sound.
pub(crate) fn sound(alloc: Global, rows: u32, cols: u32, codes: &[Cell]) -> Result<Drain, Fail> {
    match checked(alloc, rows, cols, codes)? {
        Ok(drain) => Ok(drain),
        Err(_) => Err("the map is not sound")?,
    }
}

/// The drawn map, which is sound.
pub(crate) fn drain_of(alloc: Global, (rows, cols, signs): Drawn) -> Result<Drain, Fail> {
    let codes = drawn_cells(alloc, signs)?;
    sound(alloc, rows, cols, codes.as_slice())
}

/// What comes together where each cell has one unit of material.
pub(crate) fn accumulated(alloc: Global, drain: &Drain) -> Result<Part, AllocError> {
    let one = Arg::One(Val(1));
    flow_whole(alloc, &AccuRule, Kind::Scalar, drain, one, Arg::Unused)
}

/// Compares the cells of a part and its first place that is out of range with those that are wanted.
pub(crate) fn expect_part(
    rt: &impl Abort,
    row: usize,
    part: &Part,
    cells: &[Cell],
    over: Option<u32>,
) {
    assert_eq!(rt;
        (part.cells.as_slice(), part.over),
        (cells, over),
        "row {row}"
    );
}
