//! Conversions between kinds.

ghost use Rattle.std.specs.Prelude.{◌≡◌};
ghost use Rattle.cell_values.specs.Conversion.{IsConversion, conversion_of, converted};

use crate::cell::{Cell, Over};
use crate::kind::Kind;
use crate::range::to_cell;
use crate::unit::{FULL_TURN, MILLION};

// The number of the kind `to` for a number of the kind `from`.
fn convert(from: Kind, to: Kind, value: i64) -> i128
    requires { IsConversion from to }
    ensures { result ≡ converted from to value }
{
    let number = value as i128;
    match (from, to) {
        (Kind::Nominal | Kind::Ordinal | Kind::Scalar, Kind::Boolean) => i128::from(number != 0),
        (Kind::Scalar, Kind::Nominal | Kind::Ordinal) => number / MILLION as i128,
        (Kind::Boolean | Kind::Nominal | Kind::Ordinal | Kind::Ldd, Kind::Scalar) => {
            number * MILLION as i128
        }
        (Kind::Scalar, Kind::Directional) => number.rem_euclid(FULL_TURN as i128),
        _ => number,
    }
}

/// The cell of the kind `to` for a cell of the kind `from`. To a boolean: 1 where the number is not 0, else 0. To a
/// class, from a scalar: cut toward zero to a whole number. To a direction, from a scalar: degrees reduced into 0 up
/// to but not 360. A missing value stays missing; `Over` comes exactly where the result is no value of `to`.
pub fn to_kind(from: Kind, to: Kind, a: Cell) -> Result<Cell, Over>
    requires { IsConversion from to }
    ensures { result ≡ conversion_of from to a }
{
    match a {
        Cell::Mv => Ok(Cell::Mv),
        Cell::Val(value) => to_cell(to, convert(from, to, value)),
    }
}
