//! The columns of a line, one after the other.

ghost use Rattle.std.specs.Prelude.{◌≡◌, ◌<◌, ◌≤◌, ◌==◌, length, position, IfOk, IfSome};
ghost use Rattle.std.specs.List.{prefix_len};
ghost use Rattle.text_base.specs.Bytes.{is_blank};
ghost use Rattle.lookup_table.specs.Columns.{is_closing, is_opening, is_run_byte};
ghost use Rattle.lookup_table.specs.inside.Reading.{columns_of, first_column};
ghost use Rattle.lookup_table.specs.inside.Steps.{column_view, count_of, answer_by};

use crate::fault::TableKind;
use text_base::is_blank;

/// Whether the byte begins an interval: `[` or `<`.
#[inline]
pub fn is_opening(byte: u8) -> bool
    ensures { result ≡ is_opening byte }
{
    byte == b'[' || byte == b'<'
}

// Whether the byte ends an interval: `]` or `>`.
#[inline]
fn is_closing(byte: u8) -> bool
    ensures { result ≡ is_closing byte }
{
    byte == b']' || byte == b'>'
}

// Whether the byte is one of a run: no blank, and none that begins an interval.
#[inline]
fn is_run_byte(byte: u8) -> bool
    ensures { result ≡ is_run_byte byte }
{
    !is_blank(byte) && !is_opening(byte)
}

// How many blanks stand first.
#[inline]
fn blanks(bytes: &[u8]) -> usize
    ensures len { result ≡ prefix_len is_blank bytes.now }
    ensures within { result ≤ length bytes.now }
{
    bytes.iter().take_while(|b| is_blank(**b)).count()
}

// How many bytes of a run stand first.
#[inline]
fn run_len(bytes: &[u8]) -> usize
    ensures len { result ≡ prefix_len is_run_byte bytes.now }
    ensures within { result ≤ length bytes.now }
{
    bytes.iter().take_while(|b| is_run_byte(**b)).count()
}

// The place of the first byte that ends an interval.
#[inline]
fn closing_place(bytes: &[u8]) -> Option<usize>
    ensures { result ≡ position is_closing bytes.now }
{
    bytes.iter().position(|b| is_closing(*b))
}

/// The first column of the bytes and what stands behind it, or nothing where blanks alone stand. An
/// interval that is not closed is the fault.
#[inline]
#[tactic(auto, unfolding(crate::specs::inside::Reading::first_column))]
pub fn next_column(bytes: &[u8]) -> Result<Option<(&[u8], &[u8])>, TableKind>
    ensures column { answer_by column_view result ≡ first_column bytes.now }
    ensures shorter { IfOk result (λ found. IfSome found (λ parts. length parts.1.now < length bytes.now)) }
{
    let (_, rest) = bytes.split_at(blanks(bytes));
    let Some(first) = rest.first() else {
        return Ok(None);
    };
    if !is_opening(*first) {
        return Ok(Some(rest.split_at(run_len(rest))));
    }
    let Some(end) = closing_place(rest) else {
        return Err(TableKind::BadInterval);
    };
    Ok(Some(rest.split_at(end + 1)))
}

/// How many columns the line has.
pub fn count_columns(line: &[u8]) -> Result<usize, TableKind>
    ensures { result ≡ count_of (columns_of line.now) }
{
    let mut count = 0;
    let mut rest = line;
    while let Some((_, behind)) = next_column(rest)? {
        count += 1;
        rest = behind;
    }
    Ok(count)
}
