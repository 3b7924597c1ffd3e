//! The head of a grid text: its pairs, and what they say.

ghost use Rattle.std.specs.Prelude.{◌≡◌, [], length, MatchResult, Err};
ghost use Rattle.std.specs.Option.{option_map};
ghost use Rattle.grid_text.specs.Key.{side_of};
ghost use Rattle.grid_text.specs.declared.fault.GridKind.TheVariants as kinds;
ghost use Rattle.text_base.specs.Tokens.{tokens};
ghost use Rattle.grid_text.specs.Faults.{fault_at};
ghost use Rattle.grid_text.specs.inside.Reading.{pairs_from};
ghost use Rattle.grid_text.specs.inside.Steps.{Gives, ReadsPairs, heading_given, heading_view, given_view, has_come, place_given, place_view, side_beside, with_value};

use crate::fault::{GridFault, GridKind, ReadGrid};
use crate::grid::Head;
use crate::key::{Key, is_center, key_of};
use crate::values::{is_cell_size, is_coordinate, is_nodata, side};
use cell_values::Word;
use std::alloc::Global;
use text_base::{MOST_CELLS, next_token};

/// A place of the head, and whether it is that of a center.
#[derive(Clone, Copy)]
pub struct Place<'a> {
    pub center: bool,
    pub value: &'a [u8],
}

/// What the pairs so far have given.
#[derive(Clone, Copy)]
pub struct Given<'a> {
    pub cols: Option<u32>,
    pub rows: Option<u32>,
    pub x: Option<Place<'a>>,
    pub y: Option<Place<'a>>,
    pub size: Option<&'a [u8]>,
    pub nodata: Option<&'a [u8]>,
}

/// What a head says.
#[derive(Drop)]
pub struct Heading<'a> {
    pub rows: u32,
    pub cols: u32,
    pub head: Head,
    /// The token that stands for a missing cell.
    pub nodata: &'a [u8],
}

/// A fault of the head.
pub fn head_fault(at: u64) -> GridFault
    ensures { result ≡ fault_at kinds.Head at }
{
    GridFault {
        kind: GridKind::Head,
        at,
    }
}

// Whether the key has come.
fn has_come(given: Given<'_>, key: Key) -> bool
    ensures { result ≡ has_come key (given_view given.entry) }
{
    match key {
        Key::Cols => given.cols.is_some(),
        Key::Rows => given.rows.is_some(),
        Key::X => given.x.is_some(),
        Key::Y => given.y.is_some(),
        Key::Size => given.size.is_some(),
        Key::Nodata => given.nodata.is_some(),
    }
}

// A side that gives not too many cells with the other one.
fn side_next_to(value: &[u8], other: Option<u32>) -> Option<u32>
    ensures { result ≡ side_beside (side_of value.now) other }
{
    let n = side(value)?;
    if n as u64 * other.unwrap_or(1) as u64 <= MOST_CELLS {
        Some(n)
    } else {
        None
    }
}

// The place that a key word and its value name.
fn place_of<'a>(word: &[u8], value: &'a [u8]) -> Option<Place<'a>>
    ensures { option_map place_view result ≡ place_given word.now value.now }
{
    if !is_coordinate(value) {
        return None;
    }
    Some(Place {
        center: is_center(word),
        value,
    })
}

// What is given with one more value, where the key may have it.
fn add_value<'a>(given: Given<'a>, key: Key, word: &[u8], value: &'a [u8]) -> Option<Given<'a>>
    ensures { option_map given_view result ≡ with_value key word.now value.now (given_view given.entry) }
{
    match key {
        Key::Cols => Some(Given {
            cols: Some(side_next_to(value, given.rows)?),
            ..given
        }),
        Key::Rows => Some(Given {
            rows: Some(side_next_to(value, given.cols)?),
            ..given
        }),
        Key::X => Some(Given {
            x: Some(place_of(word, value)?),
            ..given
        }),
        Key::Y => Some(Given {
            y: Some(place_of(word, value)?),
            ..given
        }),
        Key::Size => {
            if !is_cell_size(value) {
                return None;
            }
            Some(Given {
                size: Some(value),
                ..given
            })
        }
        Key::Nodata => {
            if !is_nodata(value) {
                return None;
            }
            Some(Given {
                nodata: Some(value),
                ..given
            })
        }
    }
}

/// Reads the pairs: what they give and the bytes behind them, or their first fault.
pub fn read_pairs(text: &[u8]) -> Result<(Given<'_>, &[u8]), GridFault>
    ensures { MatchResult result
        (λ found. ReadsPairs text.now (given_view found.0) found.1.now)
        (λ fault. pairs_from (length text.now) [] (tokens text.now) ≡ Err fault) }
{
    let text_len = text.len();
    let mut given = Given {
        cols: None,
        rows: None,
        x: None,
        y: None,
        size: None,
        nodata: None,
    };
    let mut rest = text;
    while let Some((word, behind)) = next_token(text_len, rest) {
        let Some(key) = key_of(word.bytes) else {
            return Ok((given, rest));
        };
        if has_come(given, key) {
            return Err(head_fault(word.at));
        }
        let Some((value, after)) = next_token(text_len, behind) else {
            return Err(head_fault(text_len as u64));
        };
        let Some(more) = add_value(given, key, word.bytes, value.bytes) else {
            return Err(head_fault(value.at));
        };
        given = more;
        rest = after;
    }
    Ok((given, rest))
}

/// The head that the pairs have given, or the fault where a required key lacks.
#[tactic(auto, unfolding(crate::specs::inside::Steps::heading_given))]
pub fn read_heading<'a>(
    alloc: Global,
    given: Given<'a>,
    fault: GridFault,
) -> Result<Heading<'a>, ReadGrid>
    ensures { Gives heading_view result (heading_given fault (given_view given.entry)) }
{
    let cols = given.cols.ok_or(fault)?;
    let rows = given.rows.ok_or(fault)?;
    let x = given.x.ok_or(fault)?;
    let y = given.y.ok_or(fault)?;
    let size = given.size.ok_or(fault)?;
    Ok(Heading {
        rows,
        cols,
        head: Head {
            x_center: x.center,
            y_center: y.center,
            x: Word::new(alloc, x.value)?,
            y: Word::new(alloc, y.value)?,
            size: Word::new(alloc, size)?,
        },
        nodata: given.nodata.unwrap_or(b"-9999".as_slice()),
    })
}
