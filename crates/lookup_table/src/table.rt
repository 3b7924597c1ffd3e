//! Lookup tables.

ghost use Rattle.std.specs.Prelude.{◌≡◌, ◌≤◌, true, [], ◌∷◌, length};
ghost use Rattle.std.specs.List.{find};
ghost use Rattle.std.specs.Option.{option_copied};
ghost use Rattle.lookup_table.specs.Keys.{all_lie_in, lies_in};
ghost use Rattle.lookup_table.specs.inside.Steps.{Begun, EndedBefore, rows_are_apart, rows_ascend, begins_behind, comes_no_earlier, no_later, cell_found, row_view};

use crate::key::KeyRange;
use crate::row::Row;
use cell_values::{Cell, Kind};
use std::marker::Model;

/// A lookup table: lines of one to four key columns and a result. Contracts see how many keys it has,
/// the kind of its results, and its lines in order.
#[derive(Debug, Drop)]
pub struct Table {
    keys: u32,
    kind: Kind,
    rows: Vec<Row>,
    // Whether there is one key, and the ranges of the rows stand apart in ascending order.
    ascending: bool,
    // Whether the ranges of the rows' first keys begin and end in ascending order.
    sorted: bool,
}

impl Model for Table {
    ghost use Rattle.lookup_table.specs.Form.{TableValue};

    ghost Value = { TableValue };

    ghost use Rattle.lookup_table.specs.inside.Steps.{IsKept, table_view};

    ghost view = { λ t. table_view t.keys t.kind t.rows.items };

    ghost invariant = { λ t. IsKept t.keys t.kind t.rows.items t.ascending t.sorted };
}

// Whether the row's first key begins before that of the next one, if there is one.
fn begins_behind(row: &Row, rows: &[Row]) -> bool
    ensures { result ≡ begins_behind row.now rows.now }
{
    match rows.first() {
        Some(next) => row.a.last < next.a.first,
        None => true,
    }
}

// Whether the ranges of the rows' first keys stand apart in ascending order, and none is empty.
fn rows_are_apart(rows: &[Row]) -> bool
    ensures { result ≡ rows_are_apart rows.now }
{
    let mut rest = rows;
    while let Some((row, more)) = rest.split_first() {
        if row.a.last < row.a.first {
            return false;
        }
        if !begins_behind(row, more) {
            return false;
        }
        rest = more;
    }
    true
}

// Whether a range begins and ends where another one does, or before.
fn no_later(range: KeyRange, next: KeyRange) -> bool
    ensures { result ≡ no_later range next }
{
    range.first <= next.first && range.last <= next.last
}

// Whether the row's first key begins and ends no later than that of the next one, if there is one.
fn comes_no_earlier(row: &Row, rows: &[Row]) -> bool
    ensures { result ≡ comes_no_earlier row.now rows.now }
{
    match rows.first() {
        Some(next) => no_later(row.a, next.a),
        None => true,
    }
}

// Whether the ranges of the rows' first keys begin and end in ascending order.
fn rows_ascend(rows: &[Row]) -> bool
    ensures { result ≡ rows_ascend rows.now }
{
    let mut rest = rows;
    while let Some((row, more)) = rest.split_first() {
        if !comes_no_earlier(row, more) {
            return false;
        }
        rest = more;
    }
    true
}

// How many rows begin at a number or before it.
fn count_begun(rows: &[Row], number: i64) -> usize
    requires { rows_are_apart rows.now ≡ true }
    ensures within { result ≤ length rows.now }
    ensures point { Begun rows.now number result }
{
    rows.partition_point(|row| row.a.first <= number)
}

// The one row whose first key takes in the number, by halving.
fn find_apart(rows: &[Row], number: i64) -> Option<&Row>
    requires { rows_are_apart rows.now ≡ true }
    ensures { option_copied result ≡ find (λ row. lies_in row.a number) rows.now }
{
    let begun = count_begun(rows, number);
    if begun == 0 {
        return None;
    }
    let last = &rows[begun - 1];
    if !last.a.has(number) {
        return None;
    }
    Some(last)
}

// The first row whose keys take in the numbers.
fn find_first(rows: &[Row], keys: u32, a: i64, b: i64, c: i64, d: i64) -> Option<&Row>
    requires some { 1 ≤ keys }
    requires few { keys ≤ 4 }
    ensures { option_copied result ≡ find (λ row. all_lie_in (row_view keys row).keys (a ∷ b ∷ c ∷ d ∷ [])) rows.now }
{
    rows.iter().find(|row| row.fits(keys, a, b, c, d))
}

// How many rows of ascending ones begin at a number or before it.
fn count_started(rows: &[Row], number: i64) -> usize
    requires { rows_ascend rows.now ≡ true }
    ensures within { result ≤ length rows.now }
    ensures point { Begun rows.now number result }
{
    rows.partition_point(|row| row.a.first <= number)
}

// How many rows of ascending ones end before a number.
fn count_ended(rows: &[Row], number: i64) -> usize
    requires { rows_ascend rows.now ≡ true }
    ensures within { result ≤ length rows.now }
    ensures point { EndedBefore rows.now number result }
{
    rows.partition_point(|row| row.a.last < number)
}

// The first row whose keys take in the numbers, among those whose first key does, by halving.
fn find_sorted(rows: &[Row], keys: u32, a: i64, b: i64, c: i64, d: i64) -> Option<&Row>
    requires some { 1 ≤ keys }
    requires few { keys ≤ 4 }
    requires sorted { rows_ascend rows.now ≡ true }
    ensures { option_copied result ≡ find (λ row. all_lie_in (row_view keys row).keys (a ∷ b ∷ c ∷ d ∷ [])) rows.now }
{
    let started = count_started(rows, a);
    let ended = count_ended(rows, a).min(started);
    find_first(&rows[ended..started], keys, a, b, c, d)
}

// The first row whose keys take in the numbers, by halving where that can be.
fn find_row(
    rows: &[Row],
    keys: u32,
    ascending: bool,
    sorted: bool,
    a: i64,
    b: i64,
    c: i64,
    d: i64,
) -> Option<&Row>
    requires some { 1 ≤ keys }
    requires few { keys ≤ 4 }
    requires one { ascending ≡ true → keys ≡ 1 }
    requires apart { ascending ≡ true → rows_are_apart rows.now ≡ true }
    requires sorted { sorted ≡ true → rows_ascend rows.now ≡ true }
    ensures { option_copied result ≡ find (λ row. all_lie_in (row_view keys row).keys (a ∷ b ∷ c ∷ d ∷ [])) rows.now }
{
    if ascending {
        return find_apart(rows, a);
    }
    if sorted {
        return find_sorted(rows, keys, a, b, c, d);
    }
    find_first(rows, keys, a, b, c, d)
}

// The cell of the result of a row.
fn cell_of(found: Option<&Row>) -> Cell
    ensures { result ≡ cell_found (option_copied found.entry) }
{
    match found {
        Some(row) => Cell::Val(row.result),
        None => Cell::Mv,
    }
}

impl Table {
    ghost use Rattle.std.specs.Prelude.{◌≡◌, ◌↔◌, ◌≤◌, false, [], ◌∷◌};
    ghost use Rattle.std.specs.List.{All, list_any};
    ghost use Rattle.cell_values.specs.declared.cell.Cell.TheVariants.{Mv};
    ghost use Rattle.cell_values.specs.Kinds.{IsCell, IsValue};
    ghost use Rattle.lookup_table.specs.Keys.{all_lie_in};
    ghost use Rattle.lookup_table.specs.Form.{value_of};
    ghost use Rattle.lookup_table.specs.inside.Steps.{table_view};

    /// The table of these rows. Notes whether it can be searched by halving.
    pub(crate) fn of_rows(keys: u32, kind: Kind, rows: Vec<Row>) -> Table
        requires some { 1 ≤ keys }
        requires few { keys ≤ 4 }
        requires values { All (λ row. IsValue kind row.result) rows.items }
        ensures { result ≡ table_view keys kind rows.items }
    {
        let ascending = keys == 1 && rows_are_apart(rows.as_slice());
        let sorted = rows_ascend(rows.as_slice());
        Table {
            keys,
            kind,
            rows,
            ascending,
            sorted,
        }
    }

    /// How many keys it has.
    pub fn keys(&self) -> u32
        ensures { result ≡ self.now.keys }
    {
        self.keys
    }

    /// The value of the table at these numbers, in millionths: the result of the first line whose key
    /// columns all take in the number at their place, and `Mv` exactly where there is no such line. As
    /// many numbers count as the table has keys. A table of one key whose columns stand apart in
    /// ascending order, plain numbers or intervals, is searched by halving; so is any other one whose
    /// first key columns begin and end in ascending order, up to the lines whose first key takes in
    /// the first number, which are gone through up to the first that fits; and else all lines are.
    pub fn find(&self, a: i64, b: i64, c: i64, d: i64) -> Cell
        ensures value { result ≡ value_of self.now (a ∷ b ∷ c ∷ d ∷ []) }
        ensures missing { (result ≡ Mv) ↔ (list_any (λ row. all_lie_in row.keys (a ∷ b ∷ c ∷ d ∷ [])) self.now.rows ≡ false) }
        ensures cell { IsCell self.now.kind result }
    {
        let rows = self.rows.as_slice();
        cell_of(find_row(rows, self.keys, self.ascending, self.sorted, a, b, c, d))
    }
}
