//! The tokens of a text, one after the other.

ghost use Rattle.std.specs.Prelude.{◌≡◌, ◌<◌, ◌≤◌, ℕ, true, [], ◌∷◌, ◌++◌, length, take, drop, MatchOption, IfSome};
ghost use Rattle.std.specs.List.{list_all};
ghost use Rattle.text_base.specs.Bytes.{EndsWith};
ghost use Rattle.text_base.specs.Tokens.{ends_token, token_view, tokens_left, TokensAreUnique};
ghost use Rattle.text_base.specs.inside.Steps.{is_token_byte};
ghost use Rattle.text_base.specs.Tokens.{IsEmptyOrToken};

use crate::byte::is_blank;

/// A token of a text.
#[derive(Clone, Copy)]
pub struct Token<'a> {
    /// The place of its first byte, from 0.
    pub at: u64,
    pub bytes: &'a [u8],
}

/// Whether no token goes on into the text: a blank stands first, or nothing.
#[inline(always)]
pub fn ends_token(text: &[u8]) -> bool
    ensures { result ≡ ends_token text.now }
{
    match text.split_first() {
        Some((first, _)) => is_blank(*first),
        None => true,
    }
}

/// The text from its first token on.
#[inline(always)]
pub fn skip_blanks(text: &[u8]) -> &[u8]
    ensures shorter { length result.now ≤ length text.now }
    ensures same { (text_len : ℕ) → length text.now ≤ text_len → tokens_left text_len result.now ≡ tokens_left text_len text.now }
    ensures at_token { IsEmptyOrToken result.now }
    ensures end { EndsWith text.now result.now }
{
    let mut rest = text;
    while let Some((first, after)) = rest.split_first() {
        if !is_blank(*first) {
            return rest;
        }
        rest = after;
    }
    rest
}

// How many bytes stand before the first blank.
#[inline]
fn run_len(text: &[u8]) -> usize
    ensures within { result ≤ length text.now }
    ensures run { list_all is_token_byte (take result text.now) ≡ true }
    ensures end { ends_token (drop result text.now) ≡ true }
{
    for (i, b) in text.iter().enumerate() {
        if is_blank(*b) {
            return i;
        }
    }
    text.len()
}

/// The first token of the last bytes of a text of this length, and the bytes behind it; `None` where
/// only blanks are left. Takes time in proportion to the bytes that it passes.
#[inline]
pub fn next_token(text_len: usize, bytes: &[u8]) -> Option<(Token<'_>, &[u8])>
    requires within { length bytes.now ≤ text_len }
    ensures tokens { MatchOption result
        (tokens_left text_len bytes.now ≡ [])
        (λ found. tokens_left text_len bytes.now ≡ token_view found.0 ∷ tokens_left text_len found.1.now) }
    ensures behind { IfSome result (λ found. EndsWith bytes.now (found.0.bytes.now ++ found.1.now)) }
    ensures shorter { IfSome result (λ found. length found.1.now < length bytes.now) }
{
    let rest = skip_blanks(bytes);
    if rest.is_empty() {
        return None;
    }
    let at = (text_len - rest.len()) as u64;
    let (bytes, behind) = rest.split_at(run_len(rest));
    Some((Token { at, bytes }, behind))
}

/// A text has one list of tokens.
pub fn tokens_are_unique()
    ensures { TokensAreUnique }
{}
