//! Cells of few digits, read in one pass.

ghost use Rattle.std.specs.Prelude.{◌≡◌, ◌+◌, ◌*◌, ◌^◌, unsigned_abs, ◌<◌, ◌≤◌, IfSome, IsTrue, Ok, get_or, if◌then◌else◌, length, nat_le, take, true};
ghost use Rattle.std.specs.Char.{digit_value, is_ascii_digit};
ghost use Rattle.std.specs.Option.{SomeIff};
ghost use Rattle.std.specs.Str.Parse.{digits_value};
ghost use Rattle.text_base.specs.Bytes.{zero_digit};
ghost use Rattle.cell_values.specs.declared.cell.Cell.TheVariants.{Val};
ghost use Rattle.cell_values.specs.Kinds.{IsValue};
ghost use Rattle.cell_values.specs.Units.{million};
ghost use Rattle.cell_values.specs.Decimal.{are_digits};
ghost use Rattle.cell_values.specs.inside.Reading.{cell_read};
ghost use Rattle.cell_values.specs.inside.Short.{IsShort, ReadsSigned, counts_millionths};

use crate::kind::Kind;
use crate::range::bounds;
use crate::unit::{MILLION, PLACES};

/// The most digits before the point that are read so: their millionths fit into 64 bits.
const MOST_WHOLE_DIGITS: usize = 12;

/// The most digits that are passed over behind the one that rounds.
const MOST_DIGITS_PASSED: usize = 99;

// What a byte stands for as a digit, where it is one.
#[inline(always)]
#[tactic(auto, using(crate::proofs::FewDigits::digit_by_distance))]
fn digit_of(byte: u8) -> Option<u64>
    ensures { SomeIff result (is_ascii_digit byte ≡ true) (digit_value byte) }
{
    let distance = u64::from(byte).wrapping_sub(u64::from(b'0'));
    if distance < 10 { Some(distance) } else { None }
}

// The digits at the front of a text, at most `most`: how many they are, and the number that they
// write.
#[inline(always)]
fn leading_number(text: &[u8], most: usize) -> (usize, u64)
    requires { most ≤ 12 }
    ensures within { result.0 ≤ length text.now }
    ensures few { result.0 ≤ most }
    ensures digits { IsTrue (are_digits (take result.0 text.now)) }
    ensures value { result.1 ≡ digits_value 10 (take result.0 text.now) }
    ensures small { result.1 < 10 ^ 12 }
{
    let window = text.split_at(most.min(text.len())).0;
    let mut number: u64 = 0;
    for (i, b) in window.iter().enumerate() {
        let Some(digit) = digit_of(*b) else {
            return (i, number);
        };
        number = number * 10 + digit;
    }
    (window.len(), number)
}

// How many digits stand at the front of a text, at most `MOST_DIGITS_PASSED`.
#[inline(always)]
fn leading_digits(text: &[u8]) -> usize
    ensures within { result ≤ length text.now }
    ensures few { result ≤ 99 }
    ensures digits { IsTrue (are_digits (take result text.now)) }
{
    let window = text.split_at(MOST_DIGITS_PASSED.min(text.len())).0;
    for (i, b) in window.iter().enumerate() {
        if !b.is_ascii_digit() {
            return i;
        }
    }
    window.len()
}

// Whether digits that begin with this one are a half or more of what stands before them.
#[inline(always)]
fn is_half(first: u8) -> bool
    ensures { result ≡ nat_le (zero_digit + 5) first }
{
    first >= b'5'
}

/// The powers of ten up to the sixth.
const POWERS_OF_TEN: [u64; 7] = [1, 10, 100, 1_000, 10_000, 100_000, 1_000_000];

// A power of ten.
#[inline(always)]
#[tactic(auto, using(crate::proofs::FewDigits::power_of_ten))]
fn power_of_ten(places: usize) -> u64
    requires { places ≤ 6 }
    ensures value { result ≡ 10 ^ places }
    ensures small { result ≤ million }
{
    POWERS_OF_TEN[places]
}

// The millionths of a whole part and six digits behind a point, rounded by further digits at the front
// of what stands behind these, and how many further ones there are.
#[inline(never)]
fn rounded(size: u64, behind: &[u8]) -> (u64, usize)
    requires { size < 2 ^ 62 }
    ensures within { result.1 ≤ length behind.now }
    ensures few { result.1 ≤ 100 }
    ensures digits { IsTrue (are_digits (take result.1 behind.now)) }
    ensures value { let half = nat_le (zero_digit + 5) (get_or (take result.1 behind.now) 0 zero_digit) in
        result.0 ≡ (if half then size + 1 else size) }
{
    match behind.split_first() {
        Some((first, more)) if first.is_ascii_digit() => {
            (size + u64::from(is_half(*first)), 1 + leading_digits(more))
        }
        _ => (size, 0),
    }
}

// The millionths that stand at the front of a text without a sign, and how many bytes they take: at
// most twelve digits and six behind a point, and further ones by which the sixth is rounded.
#[inline(always)]
fn short_millionths(text: &[u8]) -> Option<(u64, usize)>
    ensures within { IfSome result (λ found. found.1 ≤ length text.now) }
    ensures reading { IfSome result (λ found. IsShort (take found.1 text.now) found.0) }
{
    let (wholes, whole) = leading_number(text, MOST_WHOLE_DIGITS);
    match text.split_at(wholes).1.split_first() {
        Some((b'.', rest)) => {
            let (places, fraction) = leading_number(rest, PLACES);
            if wholes + places == 0 {
                return None;
            }
            let size = whole * MILLION + fraction * power_of_ten(PLACES - places);
            if places < PLACES {
                return Some((size, wholes + 1 + places));
            }
            let (rounded, passed) = rounded(size, rest.split_at(PLACES).1);
            Some((rounded, wholes + 1 + PLACES + passed))
        }
        _ => {
            if wholes == 0 {
                return None;
            }
            Some((whole * MILLION, wholes))
        }
    }
}

// The whole number that stands at the front of a text without a sign, in at most twelve digits, and
// how many bytes they take.
#[inline(always)]
fn short_whole(text: &[u8]) -> Option<(u64, usize)>
    ensures within { IfSome result (λ found. found.1 ≤ length text.now) }
    ensures few { IfSome result (λ found. (0 < found.1) × (found.1 ≤ 12)) }
    ensures digits { IfSome result (λ found. IsTrue (are_digits (take found.1 text.now))) }
    ensures value { IfSome result (λ found. found.0 ≡ digits_value 10 (take found.1 text.now)) }
    ensures small { IfSome result (λ found. found.0 < 10 ^ 12) }
{
    let (count, number) = leading_number(text, MOST_WHOLE_DIGITS);
    if count == 0 {
        return None;
    }
    Some((number, count))
}

// Whether the kind counts millionths.
#[inline(always)]
fn counts_millionths(kind: Kind) -> bool
    ensures { result ≡ counts_millionths kind }
{
    matches!(kind, Kind::Scalar | Kind::Directional)
}

// The size of a number of the kind that stands at the front of a text without a sign, and how many
// bytes it takes.
#[inline(always)]
fn short_size(kind: Kind, text: &[u8]) -> Option<(u64, usize)>
    ensures within { IfSome result (λ found. found.1 ≤ length text.now) }
    ensures reading { IfSome result (λ found. ReadsSigned kind (take found.1 text.now) found.0) }
{
    if counts_millionths(kind) {
        short_millionths(text)
    } else {
        short_whole(text)
    }
}

// The number, where it is a value of the kind, and how many bytes it takes. A scalar of few digits is
// always one.
#[inline(always)]
#[tactic(auto, using(crate::proofs::FewDigits::few_scalar))]
fn in_range(kind: Kind, value: i64, len: usize) -> Option<(i64, usize)>
    requires { unsigned_abs value < 2 * 10 ^ 18 }
    ensures { IfSome result (λ found. (found ≡ (value, len)) × IsValue kind value) }
{
    if let Kind::Scalar = kind {
        return Some((value, len));
    }
    let (least, greatest) = bounds(kind);
    if value < least || greatest < value {
        return None;
    }
    Some((value, len))
}

/// A value of the kind that stands at the front of a text in few digits, without an exponent and a
/// plus, and how many bytes it takes. What stands behind is not looked at. `None` says nothing of the
/// text: `read_cell` reads what has more digits or another form.
#[inline(always)]
pub fn short_cell(kind: Kind, text: &[u8]) -> Option<(i64, usize)>
    ensures within { IfSome result (λ found. found.1 ≤ length text.now) }
    ensures reading { IfSome result (λ found. cell_read kind (take found.1 text.now) ≡ Ok (Val found.0)) }
{
    match text.split_first() {
        Some((b'-', unsigned)) => {
            let (size, len) = short_size(kind, unsigned)?;
            in_range(kind, -(size as i64), len + 1)
        }
        _ => {
            let (size, len) = short_size(kind, text)?;
            in_range(kind, size as i64, len)
        }
    }
}
