//! The value of a decimal text.

ghost use Rattle.std.specs.Prelude.{◌≡◌, ◌↔◌, ◌*◌, ◌/◌, ◌^◌, ◌<◌, ◌≤◌, ℤ, pos, ◌*ℤ◌, unsigned_abs, List, ℕ, IfOk, if◌then◌else◌, ◌+◌, MatchOption, Ok, Some, ◌&&◌, get_or, nat_le};
ghost use Rattle.text_base.specs.Bytes.{zero_digit};
ghost use Rattle.cell_values.specs.Units.{decimal_places, million};
ghost use Rattle.cell_values.specs.Decimal.{Decimal, IsDecimal, IsDecimalText, denominator, numerator, size_of, with_sign};
ghost use Rattle.cell_values.specs.inside.Parts.{IsBeyond, IsCut, decimal_with, row_digits};
ghost use Rattle.cell_values.specs.Kinds.{IsValue};
ghost use Rattle.cell_values.specs.inside.Printed.{printed_cell};
ghost use Rattle.cell_values.specs.Rounding.{nearest};
ghost use Rattle.cell_values.specs.Reading.{HasNoValue, HasValue, IsCellOf};
ghost use Rattle.cell_values.specs.inside.Reading.{cell_read, quotient, number_taken};

use crate::cell::{Cell, NumberFault};
use crate::decimal::Parts;
use crate::digit_row::Row;
use crate::kind::Kind;
use crate::range::to_cell;
use crate::unit::PLACES;

/// A fraction cut to a whole number: whether what is cut off is a half or more, and whether it is 0.
#[derive(Clone, Copy)]
pub(crate) struct Cut {
    size: u64,
    half: bool,
    exact: bool,
}

// The number with zeros behind it, where it has at most 64 bits.
fn with_zeros(number: u64, zeros: usize) -> Option<u64>
    requires { zeros < 2 ^ 32 }
    ensures { MatchOption result (2 ^ 64 ≤ number * 10 ^ zeros) (λ n. n ≡ number * 10 ^ zeros) }
{
    if number == 0 || zeros == 0 {
        return Some(number);
    }
    let Some(power) = 10u64.checked_pow(zeros as u32) else {
        return None;
    };
    number.checked_mul(power)
}

// Whether the digits behind a cut are a half or more, where the cut stands behind `fallen` of `top` places.
fn half_behind(back: &Row<'_>, fallen: usize, top: usize) -> bool
    ensures { result ≡ (nat_le fallen top && nat_le (zero_digit + 5) (get_or (row_digits back.now) 0 zero_digit)) }
{
    fallen <= top && b'5' <= back.digit(0)
}

// The size of a decimal in units of 10 to the power of `-places`, where the whole units have at most 64 bits.
#[inline(always)]
fn cut_at(parts: &Parts<'_>, places: usize) -> Option<Cut>
    requires { places ≤ decimal_places }
    ensures { let d = decimal_with parts.now in MatchOption result
        (2 ^ 64 ≤ 10 ^ places * size_of d / denominator d)
        (λ cut. IsCut (10 ^ places * size_of d) (denominator d) cut) }
{
    let top = parts.whole.len() + parts.rise() + places;
    let fallen = parts.fall();
    let count = top.saturating_sub(fallen);
    let row = parts.row();
    let Some(number) = row.front(count).number() else {
        return None;
    };
    let Some(size) = with_zeros(number, count.saturating_sub(row.len())) else {
        return None;
    };
    let back = row.back(count);
    Some(Cut {
        size,
        half: half_behind(&back, fallen, top),
        exact: back.is_zero(),
    })
}

// A number with a sign.
fn signed(negative: bool, size: u64, more: bool) -> i128
    ensures { result ≡ with_sign negative (if more then size + 1 else size) }
{
    let size = i128::from(size) + i128::from(more);
    if negative { -size } else { size }
}

// The nearest number of millionths, unless it is beyond 64 bits.
fn nearest_in(parts: &Parts<'_>) -> Option<i128>
    ensures { let d = decimal_with parts.now in MatchOption result
        (2 ^ 64 ≤ unsigned_abs (nearest (pos million *ℤ numerator d) (denominator d)))
        (λ z. nearest (pos million *ℤ numerator d) (denominator d) ≡ z) }
{
    let Some(cut) = cut_at(parts, PLACES) else {
        return None;
    };
    Some(signed(parts.negative, cut.size, cut.half))
}

// The whole number that the decimal is, if it is one, unless it is beyond 64 bits.
fn whole_in(parts: &Parts<'_>) -> Option<i128>
    ensures { let d = decimal_with parts.now in MatchOption result
        (IsBeyond (quotient (numerator d) (denominator d)))
        (λ z. quotient (numerator d) (denominator d) ≡ Some z) }
{
    let Some(cut) = cut_at(parts, 0) else {
        return None;
    };
    if cut.exact {
        Some(signed(parts.negative, cut.size, false))
    } else {
        None
    }
}

// What the kind takes the decimal for, unless that is beyond 64 bits.
fn value_in(kind: Kind, parts: &Parts<'_>) -> Option<i128>
    ensures { let d = decimal_with parts.now in MatchOption result
        (IsBeyond (number_taken kind (numerator d) (denominator d)))
        (λ z. number_taken kind (numerator d) (denominator d) ≡ Some z) }
{
    match kind {
        Kind::Scalar | Kind::Directional => nearest_in(parts),
        Kind::Boolean | Kind::Nominal | Kind::Ordinal | Kind::Ldd => whole_in(parts),
    }
}

// The cell of the kind that a text stands for.
fn cell_in(kind: Kind, text: &[u8]) -> Result<Cell, NumberFault>
    ensures { result ≡ cell_read kind text.now }
{
    let Some(parts) = Parts::of(text) else {
        return Err(NumberFault::BadNumber);
    };
    let Some(value) = value_in(kind, &parts) else {
        return Err(NumberFault::Range);
    };
    match to_cell(kind, value) {
        Ok(cell) => Ok(cell),
        Err(_) => Err(NumberFault::Range),
    }
}

/// The cell of the kind that a decimal text stands for. Scalars and directions are rounded to millionths,
/// ties away from zero, before their range is judged; the other kinds take exact values alone.
/// `BadNumber` comes exactly where the text is no decimal, `Range` exactly where it is one without a value
/// of the kind. Takes time in proportion to the text.
pub fn read_cell(kind: Kind, text: &[u8]) -> Result<Cell, NumberFault>
    ensures reading { result ≡ cell_read kind text.now }
    ensures value { IfOk result (IsCellOf kind text.now) }
    ensures bad_number { (result ≡ Err NumberFault.BadNumber) ↔ ¬ (IsDecimalText text.now) }
    ensures range { (result ≡ Err NumberFault.Range) ↔ HasNoValue kind text.now }
{
    cell_in(kind, text)
}

/// A text has at most one cell of a kind, and `cell_read` finds it.
pub fn one_cell()
    ensures { (kind : Kind) (text : List ℕ) (z : ℤ) →
        (cell_read kind text ≡ Ok (Cell.Val z)) ↔ ((d : Decimal) × IsDecimal text d × HasValue kind d z) }
{}

/// What is printed reads back.
pub fn printed_reads_back()
    ensures { (kind : Kind) (z : ℤ) → IsValue kind z →
        cell_read kind (printed_cell kind (Cell.Val z)) ≡ Ok (Cell.Val z) }
{}
