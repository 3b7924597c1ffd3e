//! The lines of a text, one after the other.

ghost use Rattle.std.specs.Prelude.{◌≡◌, ◌+◌, ◌^◌, ◌<◌, ◌≤◌, [], ◌∷◌, length, MatchOption, IfSome};
ghost use Rattle.std.specs.List.{list_all, position_or_len};
ghost use Rattle.text_base.specs.Bytes.{is_blank};
ghost use Rattle.text_base.specs.Lines.{is_line_feed, line_view, lines_at, EndsWithLine, LinesAreUnique};
ghost use Rattle.text_base.specs.inside.Steps.{IsCutAtLine};

use crate::byte::is_blank;

/// A line of a text.
#[derive(Clone, Copy)]
pub struct Line<'a> {
    /// From 1, over all lines of the text.
    pub number: u32,
    /// Without the line feed that ends it.
    pub bytes: &'a [u8],
}

// Whether each byte is a blank.
fn has_only_blanks(bytes: &[u8]) -> bool
    ensures { result ≡ list_all is_blank bytes.now }
{
    bytes.iter().all(|b| is_blank(*b))
}

// How many bytes stand before the first line feed.
fn line_len(text: &[u8]) -> usize
    ensures value { result ≡ position_or_len is_line_feed text.now }
    ensures within { result ≤ length text.now }
{
    text.iter().take_while(|b| **b != b'\n').count()
}

// The first line, and the bytes behind its line feed.
#[tactic(auto, using(crate::proofs::LineLaws::cut_at_feed, crate::proofs::LineLaws::cut_at_end))]
fn cut_line(text: &[u8]) -> (&[u8], &[u8])
    requires { 0 < length text.now }
    ensures { IsCutAtLine text.now result.0.now result.1.now }
{
    let len = line_len(text);
    if len < text.len() {
        (&text[..len], &text[len + 1..])
    } else {
        text.split_at(len)
    }
}

/// The first line that has more than blanks of bytes that stand in a text from the line of this
/// number on, and the bytes behind its line feed; `None` where only blanks are left. The bytes behind
/// it stand from the next line on. Takes time in proportion to the bytes that it passes.
#[tactic(auto, using(crate::proofs::Ends::ends_with_line))]
pub fn next_line(number: u32, bytes: &[u8]) -> Option<(Line<'_>, &[u8])>
    requires { number + length bytes.now < 2 ^ 32 }
    ensures lines { MatchOption result
        (lines_at number bytes.now ≡ [])
        (λ found. lines_at number bytes.now ≡ line_view found.0 ∷ lines_at (found.0.number + 1) found.1.now) }
    ensures behind { IfSome result (λ found. EndsWithLine bytes.now found.0.bytes.now found.1.now) }
    ensures shorter { IfSome result (λ found. length found.1.now < length bytes.now) }
    ensures few { IfSome result (λ found. found.0.number + 1 + length found.1.now ≤ number + length bytes.now) }
{
    let mut rest = bytes;
    let mut number = number;
    while !rest.is_empty() {
        let (bytes, behind) = cut_line(rest);
        if !has_only_blanks(bytes) {
            return Some((Line { number, bytes }, behind));
        }
        number += 1;
        rest = behind;
    }
    None
}

/// A text has one list of lines.
pub fn lines_are_unique()
    ensures { LinesAreUnique }
{}
