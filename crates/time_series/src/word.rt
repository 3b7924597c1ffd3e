//! The words of a line, and what each writes.

ghost use Rattle.std.specs.Prelude.{◌≡◌, ◌≤◌, ◌<◌, length, IfOk, IfSome};
ghost use Rattle.std.specs.List.{list_all};
ghost use Rattle.cell_values.specs.Kinds.{IsCell};
ghost use Rattle.time_series.specs.Words.{are_decimals, cell_of_word, column_count, is_decimal_word, is_missing_word, step_of_word, line_words};
ghost use Rattle.time_series.specs.Faults.{word_fault};
ghost use Rattle.time_series.specs.inside.Reading.{word_gives};

use crate::fault::SeriesKind;
use cell_values::{Cell, Kind, NumberFault, is_decimal, read_cell, same_decimal};
use text_base::{next_token, whole_number};

/// The most digits of a number of columns.
const MOST_COLUMN_DIGITS: usize = 7;

// Whether the word stands for a missing value.
fn is_missing(word: &[u8]) -> bool
    ensures { result ≡ is_missing_word word.now }
{
    is_decimal(word) && same_decimal(word, b"1e31")
}

// The fault of a word.
fn fault_of(why: NumberFault) -> SeriesKind
    ensures { result ≡ word_fault why }
{
    match why {
        NumberFault::BadNumber => SeriesKind::BadNumber,
        NumberFault::Range => SeriesKind::Range,
    }
}

/// The cell of the kind that a word writes.
#[tactic(auto, unfolding(crate::specs::Words::cell_of_word))]
pub fn read_word(kind: Kind, word: &[u8]) -> Result<Cell, SeriesKind>
    ensures reading { result ≡ word_gives (cell_of_word kind word.now) }
    ensures value { IfOk result (IsCell kind) }
{
    if is_missing(word) {
        return Ok(Cell::Mv);
    }
    match read_cell(kind, word) {
        Ok(cell) => Ok(cell),
        Err(why) => Err(fault_of(why)),
    }
}

/// The step that a word writes.
#[tactic(auto, unfolding(crate::specs::Words::step_of_word))]
pub fn read_step(word: &[u8]) -> Result<u32, SeriesKind>
    ensures { result ≡ word_gives (step_of_word word.now) }
{
    match read_cell(Kind::Ordinal, word) {
        Ok(Cell::Val(step)) => {
            if step < 1 {
                return Err(SeriesKind::Range);
            }
            Ok(step as u32)
        }
        Ok(Cell::Mv) => Err(SeriesKind::Range),
        Err(why) => Err(fault_of(why)),
    }
}

/// How many words the line has.
pub fn count_words(line: &[u8]) -> usize
    ensures { result ≡ length (line_words line.now) }
{
    let mut count = 0;
    let mut rest = line;
    while let Some((_, behind)) = next_token(line.len(), rest) {
        count += 1;
        rest = behind;
    }
    count
}

// Whether each word of the line is a decimal.
fn all_decimals(line: &[u8]) -> bool
    ensures { result ≡ list_all is_decimal_word (line_words line.now) }
{
    let mut rest = line;
    while let Some((word, behind)) = next_token(line.len(), rest) {
        if !is_decimal(word.bytes) {
            return false;
        }
        rest = behind;
    }
    true
}

/// Whether the line has two or more words, and each is a decimal.
pub fn are_decimals(line: &[u8]) -> bool
    ensures { result ≡ are_decimals (line_words line.now) }
{
    count_words(line) >= 2 && all_decimals(line)
}

/// The number of columns that the line writes.
pub fn column_count(line: &[u8]) -> Option<u32>
    ensures { result ≡ column_count (line_words line.now) }
{
    let Some((word, rest)) = next_token(line.len(), line) else {
        return None;
    };
    if let Some(_other) = next_token(line.len(), rest) {
        return None;
    }
    let Some(count) = whole_number(word.bytes, MOST_COLUMN_DIGITS) else {
        return None;
    };
    if count < 2 {
        return None;
    }
    Some(count as u32)
}
