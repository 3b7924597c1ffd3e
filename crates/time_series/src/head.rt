//! The head of a series' text.

ghost use Rattle.std.specs.Prelude.{◌≡◌, ◌+◌, ◌<◌, ◌≤◌, ◌^◌, length, IfOk};
ghost use Rattle.text_base.specs.Lines.{lines_at, lines_of};
ghost use Rattle.text_base.specs.Limits.{most_text_bytes};
ghost use Rattle.time_series.specs.Faults.{title_at};
ghost use Rattle.time_series.specs.inside.Reading.{behind_names, head_read, headed};
ghost use Rattle.time_series.specs.inside.Steps.{head_view, seen_result, line_at};

use crate::fault::{SeriesFault, SeriesKind};
use crate::word::{are_decimals, column_count, count_words};
use text_base::next_line;

/// What a head says: how many columns there are, and where the rows begin.
#[derive(Clone, Copy)]
pub struct Head<'a> {
    /// The columns of a row, that of the step too.
    pub width: usize,
    /// The number of the line at which the rest begins.
    pub number: u32,
    pub rest: &'a [u8],
}

// A fault of the head.
fn title_fault(line: u32) -> SeriesFault
    ensures { result ≡ title_at line }
{
    SeriesFault {
        kind: SeriesKind::Title,
        line,
    }
}

// The number of the line and the bytes behind so many names, the last line before which has a number.
fn pass_names(count: u32, last: u32, number: u32, bytes: &[u8]) -> Result<(u32, &[u8]), SeriesFault>
    requires few { number + length bytes.now < 2 ^ 32 }
    ensures names { seen_result line_at result ≡ behind_names count last (lines_at number bytes.now) }
    ensures few { IfOk result (λ found. found.0 + length found.1.now < 2 ^ 32) }
{
    let mut last = last;
    let mut number = number;
    let mut rest = bytes;
    for _ in 0..count {
        let Some((line, behind)) = next_line(number, rest) else {
            return Err(title_fault(last));
        };
        last = line.number;
        number = line.number + 1;
        rest = behind;
    }
    Ok((number, rest))
}

// The head behind a title at a line.
#[tactic(auto, unfolding(crate::specs::inside::Reading::headed))]
fn read_headed(title: u32, number: u32, bytes: &[u8]) -> Result<Head<'_>, SeriesFault>
    requires few { number + length bytes.now < 2 ^ 32 }
    ensures head { seen_result head_view result ≡ headed title (lines_at number bytes.now) }
    ensures few { IfOk result (λ head. head.number + length head.rest.now < 2 ^ 32) }
{
    let Some((size, behind)) = next_line(number, bytes) else {
        return Err(title_fault(title));
    };
    let Some(width) = column_count(size.bytes) else {
        return Err(title_fault(size.number));
    };
    let (number, rest) = pass_names(width, size.number, size.number + 1, behind)?;
    Ok(Head {
        width: width as usize,
        number,
        rest,
    })
}

/// The head of the text: a title, a number of columns and a name for each, or nothing where the first
/// line is a list of two or more decimals.
#[tactic(auto, unfolding(crate::specs::inside::Reading::head_read))]
pub fn read_head(text: &[u8]) -> Result<Head<'_>, SeriesFault>
    requires short { length text.now ≤ most_text_bytes }
    ensures head { seen_result head_view result ≡ head_read (lines_of text.now) }
    ensures few { IfOk result (λ head. head.number + length head.rest.now < 2 ^ 32) }
{
    let Some((first, behind)) = next_line(1, text) else {
        return Err(title_fault(1));
    };
    if are_decimals(first.bytes) {
        return Ok(Head {
            width: count_words(first.bytes),
            number: 1,
            rest: text,
        });
    }
    read_headed(first.number, first.number + 1, behind)
}
