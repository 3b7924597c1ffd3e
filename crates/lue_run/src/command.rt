ghost use Rattle.std.specs.Prelude.{◌≡◌, ◌<◌, ◌≤◌, IfSome};
ghost use Rattle.std.specs.Option.{option_map};
ghost use Rattle.lue_run.specs.Words.{command_named, has_no_leading_zero, main_command, number_named, plain_command, positive_named, tiles_named};
ghost use Rattle.lue_run.specs.inside.Asked.{command_asked, tiles_command};

use crate::asked::{Asked, AskedTiles, Tiles};
use cell_values::Word;
use text_base::{is_file_word, whole_number};

/// How many rows or columns a tile may have.
const LONGEST_TILE_SIDE: u32 = 4096;

/// How many workers a run by tiles may have.
const MOST_WORKERS: u32 = 64;

// The digits do not begin with a zero before others.
fn has_no_leading_zero(word: &[u8]) -> bool
    ensures { result ≡ has_no_leading_zero word.now }
{
    match word {
        [digit, _, ..] => *digit != b'0',
        _ => true,
    }
}

// The number that a word writes, where it is not above the limit.
fn number_named(word: &[u8], most: u32) -> Option<u32>
    ensures number { result ≡ number_named most word.now }
    ensures within { IfSome result (λ number. number ≤ most) }
{
    match whole_number(word, 10) {
        Some(number) => {
            if has_no_leading_zero(word) && number <= most as u64 {
                Some(number as u32)
            } else {
                None
            }
        }
        None => None,
    }
}

// The number that a word writes, where it is not 0 and not above the limit.
fn positive_named(word: &[u8], most: u32) -> Option<u32>
    ensures number { result ≡ positive_named most word.now }
    ensures within { IfSome result (λ number. (0 < number) × (number ≤ most)) }
{
    match number_named(word, most) {
        Some(number) if number >= 1 => Some(number),
        _ => None,
    }
}

// What a word that names a command asks for, with the word behind it.
fn asked_by<'a>(command: &[u8], operand: &'a Word) -> Option<Asked<'a>>
    ensures { option_map command_asked result ≡ command_named command.now operand.now }
{
    if command == b"plain".as_slice() {
        return if is_file_word(operand.bytes()) {
            Some(Asked::Plain(operand))
        } else {
            None
        };
    }
    if command == b"make".as_slice() {
        return match number_named(operand.bytes(), u32::MAX) {
            Some(number) => Some(Asked::Make(number)),
            None => None,
        };
    }
    None
}

// The run by tiles that four words ask for: of which script, by which rows and columns of a tile, with how many workers.
fn tiles_asked<'a>(
    script: &'a Word,
    rows: &[u8],
    cols: &[u8],
    workers: &[u8],
) -> Option<AskedTiles<'a>>
    ensures { option_map tiles_command result ≡ tiles_named script.now rows.now cols.now workers.now }
{
    if !is_file_word(script.bytes()) {
        return None;
    }
    let rows = positive_named(rows, LONGEST_TILE_SIDE)?;
    let cols = positive_named(cols, LONGEST_TILE_SIDE)?;
    let workers = positive_named(workers, MOST_WORKERS)?;
    Some(AskedTiles {
        script,
        tiles: Tiles {
            rows,
            cols,
            workers,
        },
    })
}

/// What the words ask of `lue_plain`, where they are one of its commands.
pub fn plain_asked(words: &[Word]) -> Option<Asked<'_>>
    ensures { option_map command_asked result ≡ plain_command words.now }
{
    match words {
        [command, operand] => asked_by(command.bytes(), operand),
        _ => None,
    }
}

/// What the words ask of `lue_main`, where they are one of its commands.
pub fn main_asked(words: &[Word]) -> Option<AskedTiles<'_>>
    ensures { option_map tiles_command result ≡ main_command words.now }
{
    match words {
        [command, script, rows, cols, workers] if command.bytes() == b"run".as_slice() => {
            tiles_asked(script, rows.bytes(), cols.bytes(), workers.bytes())
        }
        _ => None,
    }
}
