//! Arithmetic on scalars.

ghost use Rattle.std.specs.Prelude.{MatchOption, IsTrue, false, is_ok, ◌≡◌, ◌≢◌, ◌≤◌, ◌^◌, pos, ◌-ℤ◌, ◌*ℤ◌, unsigned_abs};
ghost use Rattle.cell_values.specs.declared.kind.Kind.TheVariants.{Scalar};
ghost use Rattle.cell_values.specs.Units.{million};
ghost use Rattle.cell_values.specs.Kinds.{IsCell, is_value};
ghost use Rattle.cell_values.specs.Rounding.{cut_quotient, nearest, nearest_quotient};
ghost use Rattle.cell_values.specs.Arithmetic.{scalar_difference, scalar_product, scalar_quotient, scalar_remainder, scalar_sum, scalar_whole_quotient};
ghost use Rattle.cell_values.specs.inside.Sums.{number_or_zero, where_both};

use crate::cell::{Cell, Over};
use crate::kind::Kind;
use crate::range::{GREATEST_SCALAR, LEAST_SCALAR, to_cell};
use crate::rounding::{round_div, round_quotient};
use crate::unit::MILLION;

/// Two numbers from `-SMALL` up to below `SMALL` have a sum and a difference that are scalars.
const SMALL: i64 = 1 << 61;

// Whether two numbers are from `-SMALL` up to below `SMALL`.
#[inline(always)]
fn are_small(a: i64, b: i64) -> bool
    ensures { IsTrue result → (unsigned_abs a ≤ 2 ^ 61) × (unsigned_abs b ≤ 2 ^ 61) }
{
    (-SMALL <= a && a < SMALL) & (-SMALL <= b && b < SMALL)
}

// The number of a cell, and 0 where it is missing.
#[inline(always)]
fn number_or_zero(cell: Cell) -> i64
    ensures { result ≡ number_or_zero cell }
{
    match cell {
        Cell::Mv => 0,
        Cell::Val(number) => number,
    }
}

// The cell of a number, and a missing value where one of two cells is missing.
#[inline(always)]
fn where_both(a: Cell, b: Cell, number: i64) -> Cell
    ensures { result ≡ where_both a b number }
{
    if matches!(a, Cell::Val(_)) & matches!(b, Cell::Val(_)) {
        Cell::Val(number)
    } else {
        Cell::Mv
    }
}

// Whether a number has 64 bits and is a scalar.
fn is_scalar(number: Option<i64>) -> bool
    ensures { MatchOption number (result ≡ false) (λ n. result ≡ is_value Scalar n) }
{
    match number {
        Some(n) => LEAST_SCALAR <= n && n <= GREATEST_SCALAR,
        None => false,
    }
}

// Whether the sum of any two cells is a cell.
#[inline(never)]
fn has_sum(a: Cell, b: Cell) -> bool
    ensures { result ≡ is_ok (scalar_sum a b) }
{
    match (a, b) {
        (Cell::Val(a), Cell::Val(b)) => is_scalar(a.checked_add(b)),
        _ => true,
    }
}

/// The sum of two scalars. A missing operand gives a missing value; `Over` comes exactly where the sum is no
/// scalar.
#[inline]
pub fn add(a: Cell, b: Cell) -> Result<Cell, Over>
    ensures { result ≡ scalar_sum a b }
{
    // A missing operand counts as 0 here: so nothing jumps where cells differ, and small numbers need no other test.
    let (x, y) = (number_or_zero(a), number_or_zero(b));
    if are_small(x, y) || has_sum(a, b) {
        return Ok(where_both(a, b, x.wrapping_add(y)));
    }
    Err(Over)
}

// Whether the difference of any two cells is a cell.
#[inline(never)]
fn has_difference(a: Cell, b: Cell) -> bool
    ensures { result ≡ is_ok (scalar_difference a b) }
{
    match (a, b) {
        (Cell::Val(a), Cell::Val(b)) => is_scalar(a.checked_sub(b)),
        _ => true,
    }
}

/// The difference of two scalars. A missing operand gives a missing value; `Over` comes exactly where the
/// difference is no scalar.
#[inline]
pub fn sub(a: Cell, b: Cell) -> Result<Cell, Over>
    ensures { result ≡ scalar_difference a b }
{
    let (x, y) = (number_or_zero(a), number_or_zero(b));
    if are_small(x, y) || has_difference(a, b) {
        return Ok(where_both(a, b, x.wrapping_sub(y)));
    }
    Err(Over)
}

// The product of two scalars in millionths, rounded.
fn rounded_product(a: i64, b: i64) -> i128
    ensures { result ≡ nearest (a *ℤ b) million }
{
    round_div(a as i128 * b as i128, MILLION as i128)
}

/// The product of two scalars, rounded to millionths, ties away from zero. A missing operand gives a missing
/// value; `Over` comes exactly where the rounded product is no scalar.
pub fn mul(a: Cell, b: Cell) -> Result<Cell, Over>
    ensures { result ≡ scalar_product a b }
{
    match (a, b) {
        (Cell::Val(a), Cell::Val(b)) => to_cell(Kind::Scalar, rounded_product(a, b)),
        _ => Ok(Cell::Mv),
    }
}

// The quotient of two scalars in millionths, rounded.
fn rounded_quotient(a: i64, b: i64) -> i128
    requires { b ≢ pos 0 }
    ensures { result ≡ nearest_quotient (a *ℤ pos million) b }
{
    round_quotient(a as i128 * MILLION as i128, b as i128)
}

/// The quotient of two scalars, rounded to millionths, ties away from zero. A missing operand and a divisor of 0
/// give a missing value; `Over` comes exactly where the rounded quotient is no scalar.
pub fn div(a: Cell, b: Cell) -> Result<Cell, Over>
    ensures { result ≡ scalar_quotient a b }
{
    match (a, b) {
        (Cell::Val(_), Cell::Val(0)) => Ok(Cell::Mv),
        (Cell::Val(a), Cell::Val(b)) => to_cell(Kind::Scalar, rounded_quotient(a, b)),
        _ => Ok(Cell::Mv),
    }
}

// `a / b`, cut toward zero.
fn cut_quotient(a: i64, b: i64) -> i128
    requires { b ≢ pos 0 }
    ensures value { result ≡ cut_quotient a b }
    ensures size { unsigned_abs result ≤ 2 ^ 63 }
{
    a as i128 / b as i128
}

/// The quotient of two scalars, cut toward zero to a whole number. A missing operand and a divisor of 0 give a
/// missing value; `Over` comes exactly where that number is no scalar.
pub fn int_div(a: Cell, b: Cell) -> Result<Cell, Over>
    ensures { result ≡ scalar_whole_quotient a b }
{
    match (a, b) {
        (Cell::Val(_), Cell::Val(0)) => Ok(Cell::Mv),
        (Cell::Val(a), Cell::Val(b)) => to_cell(Kind::Scalar, cut_quotient(a, b) * MILLION as i128),
        _ => Ok(Cell::Mv),
    }
}

// What is left of `a` where `b` is taken away as often as the quotient, cut toward zero, says.
fn remainder(a: i64, b: i64) -> i64
    requires { b ≢ pos 0 }
    ensures value { result ≡ a -ℤ (b *ℤ cut_quotient a b) }
    ensures size { unsigned_abs result ≤ unsigned_abs a }
{
    (a as i128 % b as i128) as i64
}

/// What is left of a scalar where another is taken away as often as their quotient, cut toward zero, says. It is
/// a scalar too. A missing operand and a divisor of 0 give a missing value.
pub fn int_mod(a: Cell, b: Cell) -> Cell
    ensures value { result ≡ scalar_remainder a b }
    ensures scalar { IsCell Scalar a → IsCell Scalar result }
{
    match (a, b) {
        (Cell::Val(_), Cell::Val(0)) => Cell::Mv,
        (Cell::Val(a), Cell::Val(b)) => Cell::Val(remainder(a, b)),
        _ => Cell::Mv,
    }
}
