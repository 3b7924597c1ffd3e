//! The cells of a grid text.

ghost use Rattle.std.specs.Prelude.{◌≡◌, ◌≤◌, IfSome, MatchResult, true, length};
ghost use Rattle.cell_values.specs.inside.Reading.{cell_read};
ghost use Rattle.grid_text.specs.declared.fault.GridKind.TheVariants as kinds;
ghost use Rattle.grid_text.specs.Key.{is_nodata};
ghost use Rattle.grid_text.specs.Form.{cell_of_token, is_missing};
ghost use Rattle.grid_text.specs.Faults.{fault_at};
ghost use Rattle.grid_text.specs.inside.Reading.{cells_from, cell_or_fault_at};
ghost use Rattle.grid_text.specs.inside.Steps.{BeginsWithCell, BeginsWithFault, EndsTokenBefore, Gives, is_maybe_missing, number_of_cell};
ghost use Rattle.text_base.specs.Tokens.{tokens_left};

use crate::fault::{GridFault, GridKind, ReadGrid};
use crate::key::is_nan;
use cell_values::{
    Cell, Cells, Kind, NumberFault, is_decimal, read_cell, same_decimal, short_cell,
};
use std::alloc::Global;
use text_base::{is_blank, next_token, skip_blanks};

// A wrong number of cells.
fn count_fault(at: u64) -> GridFault
    ensures { result ≡ fault_at kinds.Count at }
{
    GridFault {
        kind: GridKind::Count,
        at,
    }
}

// The number of a cell that is read.
fn number_of(read: Result<Cell, NumberFault>) -> Option<i64>
    ensures { result ≡ number_of_cell read }
{
    match read {
        Ok(Cell::Val(number)) => Some(number),
        _ => None,
    }
}

// Whether what is read may be what the missing value is read as, of which the number is known.
#[inline]
fn is_maybe_missing(number: Option<i64>, read: Result<Cell, NumberFault>) -> bool
    ensures { result ≡ is_maybe_missing number read }
{
    match (number, read) {
        (Some(m), Ok(Cell::Val(n))) => m == n,
        (None, Ok(Cell::Val(_))) => false,
        _ => true,
    }
}

// Whether the token stands for a missing cell.
fn stands_for_missing(nodata: &[u8], token: &[u8]) -> bool
    ensures { result ≡ is_missing nodata.now token.now }
{
    if is_nan(nodata) && is_nan(token) {
        return true;
    }
    if !is_decimal(nodata) {
        return false;
    }
    if !is_decimal(token) {
        return false;
    }
    same_decimal(nodata, token)
}

// The cell that a token writes. A missing value has mostly the spelling of the head, and a cell of another number is
// not missing.
#[inline]
fn cell_at(
    kind: Kind,
    nodata: &[u8],
    number: Option<i64>,
    token: &[u8],
) -> Result<Cell, NumberFault>
    requires nodata { is_nodata nodata.now ≡ true }
    requires prepared { number ≡ number_of_cell (cell_read kind nodata.now) }
    ensures { result ≡ cell_of_token kind nodata.now token.now }
{
    if token == nodata {
        return Ok(Cell::Mv);
    }
    let read = read_cell(kind, token);
    if !is_maybe_missing(number, read) {
        return read;
    }
    if stands_for_missing(nodata, token) {
        return Ok(Cell::Mv);
    }
    read
}

// A cell, or the fault of its token.
#[inline]
fn cell_or_fault(at: u64, read: Result<Cell, NumberFault>) -> Result<Cell, GridFault>
    ensures { result ≡ cell_or_fault_at at read }
{
    match read {
        Ok(cell) => Ok(cell),
        Err(NumberFault::BadNumber) => Err(GridFault {
            kind: GridKind::BadNumber,
            at,
        }),
        Err(NumberFault::Range) => Err(GridFault {
            kind: GridKind::Range,
            at,
        }),
    }
}

// The text behind the one blank that ends a token, where one does.
#[inline(always)]
fn behind_token(text: &[u8]) -> Option<&[u8]>
    ensures { IfSome result (λ behind. EndsTokenBefore text.now behind.now) }
{
    match text.split_first() {
        Some((first, behind)) if is_blank(*first) => Some(behind),
        Some(_) => None,
        None => Some(text),
    }
}

// A cell of few digits at the front of these bytes that is not what the missing value is read as, and
// the bytes behind it. Most cells are such: one pass finds both the end of the token and its value.
// Before a blank stands none.
#[inline(always)]
fn leading_cell<'a>(
    kind: Kind,
    nodata: &[u8],
    number: Option<i64>,
    text_len: usize,
    bytes: &'a [u8],
) -> Option<(Cell, &'a [u8])>
    requires prepared { number ≡ number_of_cell (cell_read kind nodata.now) }
    requires within { length bytes.now ≤ text_len }
    ensures { IfSome result (λ found. BeginsWithCell kind nodata.now text_len bytes.now found.0 found.1.now) }
{
    let (value, len) = short_cell(kind, bytes)?;
    let cell = Cell::Val(value);
    if is_maybe_missing(number, Ok(cell)) {
        return None;
    }
    Some((cell, behind_token(bytes.split_at(len).1)?))
}

// The first cell of these bytes, behind blanks or in any form, and the bytes behind its token, or its fault.
#[inline(never)]
fn any_cell<'a>(
    kind: Kind,
    nodata: &[u8],
    number: Option<i64>,
    text_len: usize,
    bytes: &'a [u8],
) -> Result<(Cell, &'a [u8]), GridFault>
    requires nodata { is_nodata nodata.now ≡ true }
    requires prepared { number ≡ number_of_cell (cell_read kind nodata.now) }
    requires within { length bytes.now ≤ text_len }
    ensures { MatchResult result
        (λ found. BeginsWithCell kind nodata.now text_len bytes.now found.0 found.1.now)
        (λ fault. BeginsWithFault kind nodata.now text_len bytes.now fault) }
{
    let front = skip_blanks(bytes);
    if front.len() < bytes.len() {
        if let Some(found) = leading_cell(kind, nodata, number, text_len, front) {
            return Ok(found);
        }
    }
    let Some((token, behind)) = next_token(text_len, bytes) else {
        return Err(count_fault(text_len as u64));
    };
    match cell_or_fault(token.at, cell_at(kind, nodata, number, token.bytes)) {
        Ok(cell) => Ok((cell, behind)),
        Err(fault) => Err(fault),
    }
}

/// Reads just so many cells from the last bytes of a text of this length.
pub fn read_cells(
    alloc: Global,
    kind: Kind,
    nodata: &[u8],
    count: usize,
    text_len: usize,
    bytes: &[u8],
) -> Result<Cells, ReadGrid>
    requires nodata { is_nodata nodata.now ≡ true }
    requires within { length bytes.now ≤ text_len }
    ensures { Gives (λ cells. cells) result (cells_from kind nodata.now text_len count (tokens_left text_len bytes.now)) }
{
    let number = number_of(read_cell(kind, nodata));
    // A cell takes a byte, and a blank before the next one.
    let mut cells = Vec::with_capacity(alloc, count.min(bytes.len() / 2 + 1))?;
    let mut rest = bytes;
    for _ in 0..count {
        // What stands behind a cell is mostly one blank, which is passed with it.
        if let Some((cell, behind)) = leading_cell(kind, nodata, number, text_len, rest) {
            cells.push(cell)?;
            rest = behind;
            continue;
        }
        match any_cell(kind, nodata, number, text_len, rest) {
            Ok((cell, behind)) => {
                cells.push(cell)?;
                rest = behind;
            }
            Err(fault) => return Err(ReadGrid::Fault(fault)),
        }
    }
    if let Some((token, _)) = next_token(text_len, rest) {
        return Err(ReadGrid::Fault(count_fault(token.at)));
    }
    Ok(Cells::from_vec(cells))
}
