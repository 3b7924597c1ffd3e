//! Rounding to whole numbers.

ghost use Rattle.std.specs.Prelude.{◌≡◌, ◌≢◌, ◌↔◌, ◌^◌, ◌<◌, ◌≤◌, ℕ, ℤ, pos, unsigned_abs, ◌<ℤ◌};
ghost use Rattle.cell_values.specs.Rounding.{IsNearest, IsNearestSize, nearest, nearest_quotient};

// The nearest whole number to `size / d`, and the greater one where two are as near.
fn round_size(size: u128, d: u128) -> u128
    requires divisor { 0 < d }
    requires small { d < 2 ^ 127 }
    requires most { size ≤ 10 ^ 38 }
    ensures nearest { IsNearestSize size d result }
    ensures most { result ≤ 10 ^ 38 }
{
    (size + d / 2) / d
}

// The nearest whole number to `n / d`, ties away from zero.
fn round_signed(n: i128, d: i128) -> i128
    requires divisor { pos 0 <ℤ d }
    requires most { unsigned_abs n ≤ 10 ^ 38 }
    ensures { IsNearest n d result }
{
    let size = round_size(n.unsigned_abs(), d.unsigned_abs()) as i128;
    if n < 0 { -size } else { size }
}

/// The nearest whole number to `n / d`, ties away from zero.
pub fn round_div(n: i128, d: i128) -> i128
    requires divisor { pos 0 <ℤ d }
    requires most { unsigned_abs n ≤ 10 ^ 38 }
    ensures is { IsNearest n d result }
    ensures value { result ≡ nearest n (unsigned_abs d) }
{
    round_signed(n, d)
}

// The nearest whole number to `n / d` for a divisor of either sign, ties away from zero.
pub(crate) fn round_quotient(n: i128, d: i128) -> i128
    requires divisor { d ≢ pos 0 }
    requires small { unsigned_abs d ≤ 2 ^ 63 }
    requires most { unsigned_abs n ≤ 10 ^ 38 }
    ensures { result ≡ nearest_quotient n d }
{
    if d < 0 {
        round_div(-n, -d)
    } else {
        round_div(n, d)
    }
}

/// A fraction has one nearest whole number, and `nearest` is it.
pub fn one_nearest()
    ensures { (n : ℤ) (d : ℕ) (q : ℤ) → 0 < d → IsNearest n (pos d) q ↔ (q ≡ nearest n d) }
{}
