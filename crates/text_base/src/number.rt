//! Whole numbers of a few digits.

ghost use Rattle.std.specs.Prelude.{◌≡◌, ◌^◌, ◌<◌, ◌≤◌, IfSome};
ghost use Rattle.text_base.specs.Numbers.{whole_number_of};

/// The number that a token of 1 to `most` digits writes, and `None` for every other token.
#[inline]
pub fn whole_number(token: &[u8], most: usize) -> Option<u64>
    requires { most ≤ 19 }
    ensures value { result ≡ whole_number_of most token.now }
    ensures small { IfSome result (λ n. n < 10 ^ most) }
{
    if token.is_empty() || token.len() > most {
        return None;
    }
    let mut n: u64 = 0;
    for b in token {
        if !b.is_ascii_digit() {
            return None;
        }
        n = n * 10 + (*b - b'0') as u64;
    }
    Some(n)
}
