//! Whether two decimals have one exact value.

ghost use Rattle.std.specs.Prelude.{◌≡◌, ◌↔◌, ◌*◌, ◌<◌, IsTrue, IsSome, Some, ◌==◌};
ghost use Rattle.cell_values.specs.Decimal.{Decimal, IsDecimal, denominator, size_of};
ghost use Rattle.cell_values.specs.inside.Reading.{decimal_of};
ghost use Rattle.cell_values.specs.inside.Parts.{IsRowWithin, decimal_with, digit_behind, row_digits};
ghost use Rattle.cell_values.specs.Reading.{HasSameValue};
ghost use Rattle.cell_values.specs.inside.Reading.{same_value};

use crate::decimal::Parts;
use crate::digit_row::Row;

// The digit at a place of a row that begins at `start`, and a zero before and behind the row.
fn digit_from(row: &Row<'_>, start: usize, place: usize) -> u8
    ensures { result ≡ digit_behind (row_digits row.now) start place }
{
    if place < start {
        b'0'
    } else {
        row.digit(place - start)
    }
}

// Whether each digit of a row stands at its place in another, where they begin at `start` and `other_start`.
fn is_within(row: &Row<'_>, start: usize, other: &Row<'_>, other_start: usize) -> bool
    requires { start < 4000000 }
    ensures { IsTrue result ↔ IsRowWithin (row_digits row.now) start (row_digits other.now) other_start }
{
    for i in 0..row.len() {
        if row.digit(i) != digit_from(other, other_start, i + start) {
            return false;
        }
    }
    true
}

// Whether two decimals have one size.
fn same_size(a: &Parts<'_>, b: &Parts<'_>) -> bool
    ensures { let x = decimal_with a.now in let y = decimal_with b.now in
        result ≡ (size_of x * denominator y == size_of y * denominator x) }
{
    let a_start = b.whole.len() + b.rise() + a.fall();
    let b_start = a.whole.len() + a.rise() + b.fall();
    let (a, b) = (a.row(), b.row());
    is_within(&a, a_start, &b, b_start) && is_within(&b, b_start, &a, a_start)
}

// Whether two decimals have one exact value.
fn same_parts(a: &Parts<'_>, b: &Parts<'_>) -> bool
    ensures { result ≡ same_value (decimal_with a.now) (decimal_with b.now) }
{
    same_size(a, b) && (a.negative == b.negative || a.row().is_zero())
}

/// Whether two decimals have one exact value: nothing is rounded. Takes time in proportion to the texts.
pub fn same_decimal(a: &[u8], b: &[u8]) -> bool
    requires first { IsSome (decimal_of a.now) }
    requires second { IsSome (decimal_of b.now) }
    ensures reading { (x y : Decimal) → decimal_of a.now ≡ Some x → decimal_of b.now ≡ Some y →
        result ≡ same_value x y }
    ensures exact { (x y : Decimal) → IsDecimal a.now x → IsDecimal b.now y →
        IsTrue result ↔ HasSameValue x y }
{
    let Some(a) = Parts::of(a) else {
        return false;
    };
    let Some(b) = Parts::of(b) else {
        return false;
    };
    same_parts(&a, &b)
}
