//! Digits in a row, and the numbers that they write.

ghost use Rattle.std.specs.Prelude.{◌≡◌, ◌+◌, ◌*◌, ◌^◌, ◌<◌, ◌≤◌, IsTrue, MatchOption, SomeIff, drop, get_or, length, nat_eq, take};
ghost use Rattle.std.specs.Char.{digit_value, is_ascii_digit};
ghost use Rattle.std.specs.List.{list_all};
ghost use Rattle.std.specs.Str.Parse.{digits_value, digits_value_after};
ghost use Rattle.text_base.specs.Bytes.{zero_digit};
ghost use Rattle.text_base.specs.Limits.{longest_number};
ghost use Rattle.cell_values.specs.Decimal.{are_digits};

/// Digits in a row, in two pieces.
#[derive(Clone, Copy)]
pub(crate) struct Row<'a> {
    pub(crate) first: &'a [u8],
    pub(crate) second: &'a [u8],
    ghost first_digits: { IsTrue (are_digits first.now) },
    ghost second_digits: { IsTrue (are_digits second.now) },
    ghost short: { length first.now + length second.now ≤ longest_number },
}

impl Row<'_> {
    ghost use Rattle.cell_values.specs.inside.Parts.{is_zero, row_digits};

    /// How many digits there are.
    pub(crate) fn len(&self) -> usize
        ensures count { result ≡ length (row_digits self.now) }
        ensures small { result ≤ longest_number }
    {
        self.first.len() + self.second.len()
    }

    /// The digit at a place, and a zero behind the last one.
    pub(crate) fn digit(&self, place: usize) -> u8
        ensures { result ≡ get_or (row_digits self.now) place zero_digit }
    {
        if place < self.first.len() {
            self.first[place]
        } else if place - self.first.len() < self.second.len() {
            self.second[place - self.first.len()]
        } else {
            b'0'
        }
    }

    /// Whether each digit is a zero.
    pub(crate) fn is_zero(&self) -> bool
        ensures { result ≡ list_all is_zero (row_digits self.now) }
    {
        has_only_zeros(self.first) && has_only_zeros(self.second)
    }

    /// The first `count` digits, or all where there are fewer.
    pub(crate) fn front(&self, count: usize) -> Row<'_>
        ensures { row_digits result ≡ take count (row_digits self.now) }
    {
        let behind = count.saturating_sub(self.first.len());
        Row {
            first: front(self.first, count),
            second: front(self.second, behind),
        }
    }

    /// The digits behind the first `count`.
    pub(crate) fn back(&self, count: usize) -> Row<'_>
        ensures { row_digits result ≡ drop count (row_digits self.now) }
    {
        let behind = count.saturating_sub(self.first.len());
        Row {
            first: back(self.first, count),
            second: back(self.second, behind),
        }
    }

    /// The number that the digits write, where it has at most 64 bits.
    pub(crate) fn number(&self) -> Option<u64>
        ensures { let value = digits_value 10 (row_digits self.now) in
            MatchOption result (2 ^ 64 ≤ value) (λ n. n ≡ value) }
    {
        match number_after(0, self.first) {
            Some(number) => number_after(number, self.second),
            None => None,
        }
    }
}

// Whether each digit is a zero.
fn has_only_zeros(digits: &[u8]) -> bool
    ensures { result ≡ list_all (λ d. nat_eq d zero_digit) digits.now }
{
    digits.iter().all(|d| *d == b'0')
}

// The first `count` digits, or all where there are fewer.
fn front(digits: &[u8], count: usize) -> &[u8]
    requires { IsTrue (are_digits digits.now) }
    ensures value { result.now ≡ take count digits.now }
    ensures all { IsTrue (are_digits result.now) }
{
    if count < digits.len() {
        digits.split_at(count).0
    } else {
        digits
    }
}

// The digits behind the first `count`.
fn back(digits: &[u8], count: usize) -> &[u8]
    requires { IsTrue (are_digits digits.now) }
    ensures value { result.now ≡ drop count digits.now }
    ensures all { IsTrue (are_digits result.now) }
{
    if count < digits.len() {
        digits.split_at(count).1
    } else {
        digits.split_at(digits.len()).1
    }
}

// The number with one more digit, where it has at most 64 bits.
fn with_digit(number: u64, digit: u8) -> Option<u64>
    requires { IsTrue (is_ascii_digit digit) }
    ensures { let value = number * 10 + digit_value digit in
        SomeIff result (value < 2 ^ 64) value }
{
    number.checked_mul(10)?.checked_add(u64::from(digit - b'0'))
}

/// The number that the digits write behind those of `number`, where it has at most 64 bits.
pub(crate) fn number_after(number: u64, digits: &[u8]) -> Option<u64>
    requires { IsTrue (are_digits digits.now) }
    ensures { let value = digits_value_after 10 number digits.now in
        MatchOption result (2 ^ 64 ≤ value) (λ n. n ≡ value) }
{
    let mut total = number;
    for digit in digits {
        let Some(next) = with_digit(total, *digit) else {
            return None;
        };
        total = next;
    }
    Some(total)
}
