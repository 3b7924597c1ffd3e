//! The text of a cell.

ghost use Rattle.std.specs.Prelude.{◌≡◌, ◌+◌, ◌-◌, ◌<◌, ◌≤◌, ◌++◌, ◌^◌, decimal, drop, length, take, OnOk, OnErr};
ghost use Rattle.cell_values.specs.Units.{million};
ghost use Rattle.cell_values.specs.Written.{WrittenTextsAreUnique};
ghost use Rattle.cell_values.specs.inside.Printed.{fraction_text, millionths_text, printed_cell, signed, trimmed};

use crate::cell::Cell;
use crate::kind::Kind;
use crate::unit::MILLION;
use itoa::{Buffer, write_digits};
use std::alloc::{AllocError, Global};

/// The most bytes of a number of millionths, rounded up, and where its point stands among them.
const MOST_BYTES: usize = 28;

const POINT: usize = 21;

/// Where the bytes end that stand behind each place at which a text begins, as many as the longest text has. At least one
/// digit stands before the point.
const ROOM: usize = POINT - 1 + MOST_BYTES;

// The digits without the zeros at their end.
#[inline]
fn without_zeros(digits: &[u8]) -> &[u8]
    ensures { result.now ≡ trimmed digits.now }
{
    let mut rest = digits;
    while let Some((last, front)) = rest.split_last() {
        if *last != b'0' {
            return rest;
        }
        rest = front;
    }
    rest
}

// Writes a point and the digits of a fraction, or nothing where it is 0, from the place of the point
// on, and tells where they end.
#[inline(always)]
fn put_fraction(part: u64, text: &mut [u8]) -> usize
    requires part { part < million }
    requires room { length text.old ≡ 48 }
    ensures within { (21 ≤ result) × (result ≤ 28) }
    ensures written { take (result - 21) (drop 21 text.new) ≡ fraction_text part }
{
    if part == 0 {
        return POINT;
    }
    // The million puts a digit in the place of the point, and zeros before small fractions.
    let _one = write_digits(MILLION + part, text, MOST_BYTES);
    text[POINT] = b'.';
    POINT + without_zeros(&text[POINT..MOST_BYTES]).len()
}

// Writes a whole number with its sign before the point, and tells where it starts.
#[inline(always)]
fn put_whole(negative: bool, whole: u64, text: &mut [u8]) -> usize
    requires whole { whole < 10 ^ 14 }
    requires room { length text.old ≡ 48 }
    ensures start { result + length (signed negative (decimal whole)) ≡ 21 }
    ensures digit { result < 21 }
    ensures written { drop result text.new ≡ signed negative (decimal whole) ++ drop 21 text.old }
{
    let start = write_digits(whole, text, POINT);
    if !negative {
        return start;
    }
    text[start - 1] = b'-';
    start - 1
}

// Appends the first of these bytes. It copies them all, since a copy of a known number of bytes is no call.
#[inline(always)]
fn put_front(bytes: &[u8], count: usize, into: &mut Vec<u8>) -> Result<(), AllocError>
    requires { count ≤ length bytes.now }
    ensures ok { OnOk result (into.new.items ≡ into.old.items ++ take count bytes.now) }
    ensures err { OnErr result (into.new.items ≡ into.old.items) }
{
    let len = into.len() + count;
    into.extend_from_slice(bytes)?;
    into.truncate(len);
    Ok(())
}

// Appends a number of millionths.
fn print_millionths(value: i64, into: &mut Vec<u8>) -> Result<(), AllocError>
    ensures ok { OnOk result (into.new.items ≡ into.old.items ++ millionths_text value) }
    ensures err { OnErr result (into.new.items ≡ into.old.items) }
{
    let size = value.unsigned_abs();
    let mut text = [0u8; ROOM];
    let end = put_fraction(size % MILLION, &mut text);
    let start = put_whole(value < 0, size / MILLION, &mut text);
    put_front(&text[start..start + MOST_BYTES], end - start, into)
}

/// Appends the one text of a cell of a kind: `1e31` for a missing value, else a whole number, or for
/// scalars and directions the shortest decimal of the millionths. A refusal leaves `into` as before.
#[inline(always)]
pub fn print_cell(
    _alloc: Global,
    kind: Kind,
    cell: Cell,
    into: &mut Vec<u8>,
) -> Result<(), AllocError>
    ensures ok { OnOk result (into.new.items ≡ into.old.items ++ printed_cell kind cell) }
    ensures err { OnErr result (into.new.items ≡ into.old.items) }
{
    let Cell::Val(value) = cell else {
        return into.extend_from_slice(b"1e31");
    };
    match kind {
        Kind::Scalar | Kind::Directional => print_millionths(value, into),
        Kind::Boolean | Kind::Nominal | Kind::Ordinal | Kind::Ldd => {
            into.extend_from_slice(Buffer::new().format(value).as_bytes())
        }
    }
}

/// A cell of a kind has one written text, which is the one that is printed.
pub fn written_texts_are_unique()
    ensures { WrittenTextsAreUnique }
{}
