ghost use Rattle.std.specs.Prelude.{◌≡◌, ◌&&◌, ◌==◌, ◌≤◌, length};
ghost use Rattle.std.specs.Option.{option_copied};
ghost use Rattle.std.specs.List.{find, position_or_len};
ghost use Rattle.text_base.specs.Bytes.{space};
ghost use Rattle.map_meaning.specs.Table.{ask_at, is_length, takes};
ghost use Rattle.script_types.specs.Names.{first_role, is_sample_word, role_asked};
ghost use Rattle.script_types.specs.Table.{is_spelled, row_for, stands_of, word_row, op_of, asks_drain};

use crate::typed::UsedAs;
use cell_values::Kind;
use map_meaning::{Ask, Meant, Op, Row, Stands, rows};

// How many bytes stand before the first space.
fn space_at(word: &[u8]) -> usize
    ensures first { result ≡ position_or_len (λ byte. byte == space) word.now }
    ensures within { result ≤ length word.now }
{
    for at in 0..word.len() {
        if word[at] == b' ' {
            return at;
        }
    }
    word.len()
}

// Whether the row is written so.
fn is_spelled(row: &Row, word: &[u8]) -> bool
    ensures { result ≡ is_spelled row.now word.now }
{
    let spelled = row.word.as_slice();
    &spelled[..space_at(spelled)] == word
}

// Whether the row may have this many operands.
fn takes(row: &Row, count: usize) -> bool
    ensures { result ≡ takes row.now count }
{
    row.least <= count && count <= row.most
}

// The first of the rows that is written so and may have this many operands.
fn find_row<'a>(rows: &'a [Row], word: &[u8], count: usize) -> Option<&'a Row>
    ensures { option_copied result ≡ find (λ row. is_spelled row word.now && takes row count) rows.now }
{
    for row in rows {
        if is_spelled(row, word) && takes(row, count) {
            return Some(row);
        }
    }
    None
}

// The first of the rows that is written so.
fn find_word<'a>(rows: &'a [Row], word: &[u8]) -> Option<&'a Row>
    ensures { option_copied result ≡ find (λ row. is_spelled row word.now) rows.now }
{
    for row in rows {
        if is_spelled(row, word) {
            return Some(row);
        }
    }
    None
}

/// The row that is written so and takes this many operands.
#[tactic(auto, unfolding(crate::specs::Table::row_for))]
pub fn row_for(word: &[u8], count: usize) -> Option<&'static Row>
    ensures { option_copied result ≡ row_for word.now count }
{
    find_row(rows(), word, count)
}

/// The first row that is written so.
#[tactic(auto, unfolding(crate::specs::Table::word_row))]
pub fn word_row(word: &[u8]) -> Option<&'static Row>
    ensures { option_copied result ≡ word_row word.now }
{
    find_word(rows(), word)
}

// Whether a word with this place is that of a time series.
fn is_sample_place(stands: Stands) -> bool
    ensures { result ≡ is_sample_word stands }
{
    matches!(stands, Stands::Sample)
}

/// Whether the word is that of a time series.
pub fn is_sample_word(word: &[u8]) -> bool
    ensures { result ≡ is_sample_word (stands_of (word_row word.now)) }
{
    match word_row(word) {
        Some(row) => is_sample_place(row.stands),
        None => false,
    }
}

/// What a name is used as that is the first of so many operands of this word.
#[tactic(auto, unfolding(crate::specs::Names::first_role))]
pub fn first_role(word: &[u8], count: usize) -> UsedAs
    ensures { result ≡ first_role word.now count }
{
    match word_row(word) {
        Some(row) => role_asked(count, ask_at(row, 0)),
        None => UsedAs::Grid,
    }
}

/// What the operand at this place is asked.
pub fn ask_at(row: &Row, at: usize) -> Ask
    ensures { result ≡ ask_at row.now at }
{
    match at {
        0 => row.first,
        1 => row.second,
        _ => row.further,
    }
}

/// The operation that a row stands for.
pub fn op_of(meant: Meant) -> Op
    ensures { result ≡ op_of meant }
{
    match meant {
        Meant::Op(op) => op,
        Meant::Step | Meant::Stack | Meant::Sample | Meant::Mask => Op::CopyOf,
    }
}

/// Whether the place asks the length of a window.
pub fn is_length(asked: Ask) -> bool
    ensures { result ≡ is_length asked }
{
    matches!(asked, Ask::Length)
}

/// Whether the place asks a drain map.
pub fn asks_drain(asked: Ask) -> bool
    ensures { result ≡ asks_drain asked }
{
    matches!(asked, Ask::Only(Kind::Ldd))
}

// What a name is used as in a place that asks so, as the first of so many operands.
fn role_asked(count: usize, asked: Ask) -> UsedAs
    ensures { result ≡ role_asked count asked }
{
    match asked {
        Ask::Table(kind) => UsedAs::Table {
            keys: count.saturating_sub(1),
            kind,
        },
        Ask::Series(kind) => UsedAs::Series { kind },
        Ask::Stack => UsedAs::Stack,
        Ask::Only(_) | Ask::One(_) | Ask::Alike(_) | Ask::Length => UsedAs::Grid,
    }
}
