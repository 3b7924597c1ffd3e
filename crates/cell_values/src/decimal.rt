//! The parts of a decimal text.

ghost use Rattle.std.specs.Prelude.{◌≡◌, ◌↔◌, ◌^◌, ◌+◌, ◌++◌, ◌<◌, ◌≤◌, IfSome, List, ℕ, IsTrue, Some, is_some, length};
ghost use Rattle.std.specs.Char.{is_ascii_digit};
ghost use Rattle.std.specs.List.{prefix_len};
ghost use Rattle.std.specs.Option.{option_map};
ghost use Rattle.std.specs.Str.Parse.{digits_value, starts_with_minus, without_leading_sign};
ghost use Rattle.text_base.specs.Limits.{longest_number};
ghost use Rattle.cell_values.specs.Decimal.{most_exponent_digits, Decimal, IsDecimal, IsDecimalText, are_digits, fall_of, rise_of, with_sign};
ghost use Rattle.cell_values.specs.inside.Reading.{behind_digits, behind_fraction, decimal_of, exponent_of, fraction_digits, front_digits, has_digits, is_power_letter, is_short_numeral};

use crate::digit_row::{Row, number_after};
use text_base::LONGEST_NUMBER;

/// The most digits of an exponent.
const MOST_EXPONENT_DIGITS: usize = 6;

/// A decimal by its parts: whether a minus stands first, the digits before and behind the point, whether the
/// exponent is below 0, and its size.
#[derive(Clone, Copy)]
pub(crate) struct Parts<'a> {
    pub(crate) negative: bool,
    pub(crate) whole: &'a [u8],
    pub(crate) fraction: &'a [u8],
    pub(crate) falls: bool,
    pub(crate) power: usize,
    ghost whole_digits: { IsTrue (are_digits whole.now) },
    ghost fraction_digits: { IsTrue (are_digits fraction.now) },
    ghost short: { length whole.now + length fraction.now ≤ longest_number },
    ghost small: { power < 10 ^ most_exponent_digits },
}

impl Parts<'_> {
    ghost use Rattle.cell_values.specs.inside.Parts.{decimal_with, row_digits};

    /// The parts of the text, where it is a decimal.
    #[inline(always)]
    pub(crate) fn of(text: &[u8]) -> Option<Parts<'_>>
        ensures { option_map decimal_with result ≡ decimal_of text.now }
    {
        let (negative, unsigned) = split_sign(text);
        let (whole, rest) = split_digits(unsigned);
        let (fraction, rest) = split_fraction(rest);
        if !has_digits(text, whole, fraction) {
            return None;
        }
        let Some((falls, power)) = read_power(rest) else {
            return None;
        };
        Some(Parts {
            negative,
            whole,
            fraction,
            falls,
            power,
        })
    }

    /// All digits in a row.
    pub(crate) fn row(&self) -> Row<'_>
        ensures { row_digits result ≡ self.now.whole.now ++ self.now.fraction.now }
    {
        Row {
            first: self.whole,
            second: self.fraction,
        }
    }

    /// The exponent where it is above 0, and else 0.
    pub(crate) fn rise(&self) -> usize
        ensures value { result ≡ rise_of (with_sign self.now.falls self.now.power) }
        ensures small { result < 10 ^ most_exponent_digits }
    {
        if self.falls { 0 } else { self.power }
    }

    /// The size of the exponent where it is below 0, and else 0.
    pub(crate) fn fall(&self) -> usize
        ensures value { result ≡ fall_of (with_sign self.now.falls self.now.power) }
        ensures small { result < 10 ^ most_exponent_digits }
    {
        if self.falls { self.power } else { 0 }
    }
}

// Whether a minus stands first, and the text behind the sign.
fn split_sign(text: &[u8]) -> (bool, &[u8])
    ensures sign { result.0 ≡ starts_with_minus text.now }
    ensures rest { result.1.now ≡ without_leading_sign text.now }
    ensures len { length result.1.now ≤ length text.now }
{
    match text.split_first() {
        Some((b'-', rest)) => (true, rest),
        Some((b'+', rest)) => (false, rest),
        _ => (false, text),
    }
}

// How many digits stand at the front.
fn digit_count(text: &[u8]) -> usize
    ensures count { result ≡ prefix_len is_ascii_digit text.now }
    ensures within { result ≤ length text.now }
{
    for (i, b) in text.iter().enumerate() {
        if !b.is_ascii_digit() {
            return i;
        }
    }
    text.len()
}

// The digits at the front, and the text behind them.
#[tactic(auto, using(crate::proofs::Digits::digits_at_front))]
fn split_digits(text: &[u8]) -> (&[u8], &[u8])
    ensures digits { result.0.now ≡ front_digits text.now }
    ensures rest { result.1.now ≡ behind_digits text.now }
    ensures all { IsTrue (are_digits result.0.now) }
    ensures len { length result.0.now + length result.1.now ≡ length text.now }
{
    text.split_at(digit_count(text))
}

// The digits behind a point at the front, and the text behind both.
fn split_fraction(text: &[u8]) -> (&[u8], &[u8])
    ensures digits { result.0.now ≡ fraction_digits text.now }
    ensures rest { result.1.now ≡ behind_fraction text.now }
    ensures all { IsTrue (are_digits result.0.now) }
    ensures len { length result.0.now + length result.1.now ≤ length text.now }
{
    match text.split_first() {
        Some((b'.', rest)) => split_digits(rest),
        _ => text.split_at(0),
    }
}

// Whether a text is short enough and has a digit before or behind its point.
fn has_digits(text: &[u8], whole: &[u8], fraction: &[u8]) -> bool
    requires { length whole.now + length fraction.now ≤ length text.now }
    ensures { result ≡ has_digits text.now whole.now fraction.now }
{
    text.len() <= LONGEST_NUMBER && 0 < whole.len() + fraction.len()
}

// Whether each byte is a digit.
fn has_only_digits(text: &[u8]) -> bool
    ensures { result ≡ are_digits text.now }
{
    text.iter().all(|b| b.is_ascii_digit())
}

// Whether the text is one to six digits.
fn is_short_numeral(digits: &[u8]) -> bool
    ensures { result ≡ is_short_numeral digits.now }
{
    has_only_digits(digits) && 0 < digits.len() && digits.len() <= MOST_EXPONENT_DIGITS
}

// The number of at most six digits.
fn short_number(digits: &[u8]) -> usize
    requires { IsTrue (is_short_numeral digits.now) }
    ensures value { result ≡ digits_value 10 digits.now }
    ensures small { result < 10 ^ most_exponent_digits }
{
    number_after(0, digits).unwrap_or(0) as usize
}

fn is_power_letter(letter: u8) -> bool
    ensures { result ≡ is_power_letter letter }
{
    letter == b'e' || letter == b'E'
}

// The exponent that the text is, whether it is below 0 and its size: 0 where the text is empty.
fn read_power(text: &[u8]) -> Option<(bool, usize)>
    ensures value { option_map (λ power. with_sign power.0 power.1) result ≡ exponent_of text.now }
    ensures small { IfSome result (λ power. power.1 < 10 ^ most_exponent_digits) }
{
    let Some((letter, rest)) = text.split_first() else {
        return Some((false, 0));
    };
    let (falls, digits) = split_sign(rest);
    if is_power_letter(*letter) && is_short_numeral(digits) {
        Some((falls, short_number(digits)))
    } else {
        None
    }
}

/// Whether the text is a decimal: a sign or none, digits with at most one point and at least one digit, and an
/// exponent of one to six digits or none, in at most 128 bytes.
pub fn is_decimal(text: &[u8]) -> bool
    ensures reading { result ≡ is_some (decimal_of text.now) }
    ensures grammar { IsTrue result ↔ IsDecimalText text.now }
{
    Parts::of(text).is_some()
}

/// A text is at most one decimal, and `decimal_of` finds it.
pub fn one_decimal()
    ensures { (text : List ℕ) (d : Decimal) → (decimal_of text ≡ Some d) ↔ IsDecimal text d }
{}
