//! The key columns of a table.

ghost use Rattle.std.specs.Prelude.{◌≡◌, ◌==◌, ◌≤◌, ◌+◌, ◌&&◌, length, position, slice_index, IfOk};
ghost use Rattle.cell_values.specs.Kinds.{IsValue};
ghost use Rattle.lookup_table.specs.Faults.{told};
ghost use Rattle.lookup_table.specs.Keys.{begins_interval, bound_in, first_from, last_to, lies_in};
ghost use Rattle.lookup_table.specs.inside.Reading.{alone, between_read, bound_or, first_of, halves_of, interval_read, is_comma, key_read, last_of, number_read};
ghost use Rattle.lookup_table.specs.inside.Steps.{bound_view, halves_view, answer_by};

use crate::column::is_opening;
use crate::fault::TableKind;
use cell_values::{Cell, Kind, NumberFault, is_decimal, read_cell};
use text_base::next_token;

/// The numbers of millionths that a key column takes in: from the first to the last. None where the
/// last is below the first.
#[derive(Clone, Copy, Debug)]
pub struct KeyRange {
    pub first: i64,
    pub last: i64,
}

impl KeyRange {
    /// Whether the number is one of them.
    #[inline]
    pub(crate) fn has(&self, number: i64) -> bool
        ensures { result ≡ lies_in self.now number }
    {
        self.first <= number && number <= self.last
    }
}

/// The number of the kind that a column writes.
pub fn read_number(kind: Kind, column: &[u8]) -> Result<i64, TableKind>
    ensures reading { result ≡ number_read kind column.now }
    ensures value { IfOk result (IsValue kind) }
{
    match read_cell(kind, column) {
        Ok(Cell::Val(number)) => Ok(number),
        Ok(Cell::Mv) => Err(TableKind::Range),
        Err(NumberFault::BadNumber) => Err(TableKind::BadNumber),
        Err(NumberFault::Range) => Err(TableKind::Range),
    }
}

// A bound of an interval: nothing, or one decimal.
fn read_bound(text: &[u8]) -> Result<Option<&[u8]>, TableKind>
    ensures { answer_by bound_view result ≡ bound_or (bound_in text.now) }
{
    let Some((word, rest)) = next_token(text.len(), text) else {
        return Ok(None);
    };
    if let Some(_other) = next_token(text.len(), rest) {
        return Err(TableKind::BadInterval);
    }
    if !is_decimal(word.bytes) {
        return Err(TableKind::BadInterval);
    }
    Ok(Some(word.bytes))
}

// The first number that an interval takes in.
#[tactic(auto, unfolding(crate::specs::inside::Reading::first_of))]
fn first_in(opening: u8, low: Option<&[u8]>) -> Result<i64, TableKind>
    ensures { result ≡ first_of opening (bound_view low.entry) }
{
    let Some(word) = low else {
        return Ok(i64::MIN);
    };
    let number = read_number(Kind::Scalar, word)?;
    if opening == b'[' {
        Ok(number)
    } else {
        Ok(number + 1)
    }
}

// The last number that an interval takes in.
#[tactic(auto, unfolding(crate::specs::inside::Reading::last_of))]
fn last_in(closing: u8, high: Option<&[u8]>) -> Result<i64, TableKind>
    ensures { result ≡ last_of closing (bound_view high.entry) }
{
    let Some(word) = high else {
        return Ok(i64::MAX);
    };
    let number = read_number(Kind::Scalar, word)?;
    if closing == b']' {
        Ok(number)
    } else {
        Ok(number - 1)
    }
}

// The place of the first comma.
fn comma_place(inner: &[u8]) -> Option<usize>
    ensures { result ≡ position is_comma inner.now }
{
    inner.iter().position(|b| *b == b',')
}

// What stands before and behind the first comma.
fn halves(inner: &[u8]) -> Result<(&[u8], &[u8]), TableKind>
    ensures { answer_by halves_view result ≡ halves_of inner.now }
{
    let Some(comma) = comma_place(inner) else {
        return Err(TableKind::BadInterval);
    };
    let (low, rest) = inner.split_at(comma);
    let (_, high) = rest.split_at(1);
    Ok((low, high))
}

// The range of an interval by its brackets and what stands between them.
#[tactic(auto, unfolding(crate::specs::inside::Reading::interval_read))]
fn read_interval(opening: u8, inner: &[u8], closing: u8) -> Result<KeyRange, TableKind>
    ensures { result ≡ interval_read opening inner.now closing }
{
    let (low_text, high_text) = halves(inner)?;
    let low = read_bound(low_text)?;
    let high = read_bound(high_text)?;
    let first = first_in(opening, low)?;
    let last = last_in(closing, high)?;
    Ok(KeyRange { first, last })
}

// Whether the column is an interval, and no run.
fn begins_interval(column: &[u8]) -> bool
    ensures { result ≡ begins_interval column.now }
{
    match column.first() {
        Some(first) => is_opening(*first),
        None => false,
    }
}

// The range of an interval.
fn read_between(column: &[u8]) -> Result<KeyRange, TableKind>
    ensures { result ≡ between_read column.now }
{
    let Some((opening, rest)) = column.split_first() else {
        return Err(TableKind::BadInterval);
    };
    let Some((closing, inner)) = rest.split_last() else {
        return Err(TableKind::BadInterval);
    };
    read_interval(*opening, inner, *closing)
}

/// The range of a key column: that of a number, or of an interval.
#[tactic(auto, unfolding(crate::specs::inside::Reading::key_read))]
pub fn read_key(column: &[u8]) -> Result<KeyRange, TableKind>
    ensures { result ≡ key_read column.now }
{
    if begins_interval(column) {
        return read_between(column);
    }
    let number = read_number(Kind::Scalar, column)?;
    Ok(KeyRange {
        first: number,
        last: number,
    })
}
