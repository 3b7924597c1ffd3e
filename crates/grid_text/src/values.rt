//! The values that the keys of a head may have.

ghost use Rattle.std.specs.Prelude.{◌≡◌, ◌<◌, IfSome};
ghost use Rattle.std.specs.Str.Parse.{starts_with_minus};
ghost use Rattle.grid_text.specs.Key.{is_cell_size, is_coordinate, is_nodata, side_of};

use crate::key::is_nan;
use cell_values::{is_decimal, same_decimal};
use text_base::whole_number;

/// The most digits of a number of rows or columns.
const MOST_SIDE_DIGITS: usize = 7;

/// The most bytes of a coordinate and of the size of a cell.
const LONGEST_COORDINATE: usize = 64;

/// The number of rows or columns: 1 to 7 digits, and at least 1.
#[tactic(auto, unfolding(crate::specs::Key::side_of))]
pub fn side(value: &[u8]) -> Option<u32>
    ensures { result ≡ side_of value.now }
{
    let n = whole_number(value, MOST_SIDE_DIGITS)?;
    if n > 0 { Some(n as u32) } else { None }
}

/// Whether the value is a coordinate: a decimal of at most 64 bytes.
pub fn is_coordinate(value: &[u8]) -> bool
    ensures { result ≡ is_coordinate value.now }
{
    value.len() <= LONGEST_COORDINATE && is_decimal(value)
}

// Whether a minus stands first.
fn has_minus(value: &[u8]) -> bool
    ensures { result ≡ starts_with_minus value.now }
{
    !value.is_empty() && value[0] == b'-'
}

/// Whether the value is the size of a cell: a decimal of at most 64 bytes that is above 0.
pub fn is_cell_size(value: &[u8]) -> bool
    ensures { result ≡ is_cell_size value.now }
{
    if !is_coordinate(value) {
        return false;
    }
    if has_minus(value) {
        return false;
    }
    !same_decimal(value, b"0")
}

/// Whether the value may stand for a missing cell: a decimal, or `nan`.
pub fn is_nodata(value: &[u8]) -> bool
    ensures { result ≡ is_nodata value.now }
{
    is_decimal(value) || is_nan(value)
}
