ghost use Rattle.std.specs.Prelude.{◌≡◌, ◌↔◌, IsTrue};
ghost use Rattle.cell_values.specs.Kinds.{IsValue, cell_of_number, greatest, least};

use crate::cell::{Cell, Over};
use crate::kind::Kind;

/// The least scalar, in millionths.
pub(crate) const LEAST_SCALAR: i64 = -9_000_000_000_000_000_000;

/// The greatest scalar, in millionths.
pub(crate) const GREATEST_SCALAR: i64 = 9_000_000_000_000_000_000;

// The least and the greatest value of a kind.
#[inline(always)]
pub(crate) fn bounds(kind: Kind) -> (i64, i64)
    ensures { result ≡ (least kind, greatest kind) }
{
    match kind {
        Kind::Boolean => (0, 1),
        Kind::Nominal | Kind::Ordinal => (-2_147_483_647, 2_147_483_647),
        Kind::Scalar => (LEAST_SCALAR, GREATEST_SCALAR),
        Kind::Directional => (0, 359_999_999),
        Kind::Ldd => (1, 9),
    }
}

/// Whether the number is a value of the kind.
pub fn fits(kind: Kind, value: i128) -> bool
    ensures { IsTrue result ↔ IsValue kind value }
{
    let (least, greatest) = bounds(kind);
    least as i128 <= value && value <= greatest as i128
}

/// The cell of a number. `Over` comes exactly where it is no value of the kind.
pub fn to_cell(kind: Kind, value: i128) -> Result<Cell, Over>
    ensures { result ≡ cell_of_number kind value }
{
    if fits(kind, value) {
        Ok(Cell::Val(value as i64))
    } else {
        Err(Over)
    }
}
