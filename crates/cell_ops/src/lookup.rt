//! Lookups in tables and in series.

ghost use Rattle.std.specs.Prelude.{◌≡◌, ◌≤◌, ◌<◌, ℕ, IfOk, nat_lt, pos, Ok, Some, if◌then◌else◌};
ghost use Rattle.std.specs.Option.{option_copied};
ghost use Rattle.text_base.specs.Limits.{most_cells};
ghost use Rattle.map_meaning.specs.Local.{key_number, lookup_of, timeinput_of, value_at_keys};
ghost use Rattle.map_meaning.specs.Missing.{at_cell};
ghost use Rattle.tile_map.specs.Args.{SpansPlaces, arg_cell};
ghost use Rattle.tile_map.specs.Parts.{part_of};
ghost use Rattle.time_series.specs.Values.{cell_in_row};

use crate::places::{four, one};
use crate::rule::CellRule;
use cell_values::{Cell, Kind, Over, to_kind};
use lookup_table::Table;
use map_meaning::{Arg, Part};
use std::alloc::{AllocError, Global};
use time_series::{Series, cell_in_column};

/// The value of a table.
#[derive(Drop)]
struct Looked<'a> {
    /// The table.
    table: &'a Table,
    /// The kinds of its keys.
    keys: [Kind; 4],
}

/// The cell of a column of a row.
#[derive(Drop)]
struct Column<'a> {
    /// The row, where there is one.
    row: Option<&'a [Cell]>,
}

// The number of a key as a scalar.
fn key_number(kind: Kind, cell: Cell) -> Option<i64>
    ensures { result ≡ key_number kind cell }
{
    match to_kind(kind, Kind::Scalar, cell) {
        Ok(Cell::Val(number)) => Some(number),
        Ok(Cell::Mv) => None,
        Err(_) => None,
    }
}

// The number of the key with this number among the keys of a table, of which there are so many.
fn further_key(count: u32, i: u32, kind: Kind, cell: Cell) -> Option<i64>
    ensures { result ≡ (if nat_lt i count then key_number kind cell else Some (pos 0)) }
{
    if i < count {
        key_number(kind, cell)
    } else {
        Some(0)
    }
}

// The value of a table at these keys.
fn value_at(table: &Table, a: Option<i64>, b: Option<i64>, c: Option<i64>, d: Option<i64>) -> Cell
    ensures { result ≡ value_at_keys table.now a b c d }
{
    let Some(a) = a else {
        return Cell::Mv;
    };
    let Some(b) = b else {
        return Cell::Mv;
    };
    let Some(c) = c else {
        return Cell::Mv;
    };
    let Some(d) = d else {
        return Cell::Mv;
    };
    table.find(a, b, c, d)
}

impl<'a> CellRule for Looked<'a> {
    ghost rule = { λ s a b c d. lookup_of s.table.now s.keys a b c d };

    fn at(&self, a: Cell, b: Cell, c: Cell, d: Cell) -> Result<Cell, Over> {
        let count = self.table.keys();
        Ok(value_at(
            self.table,
            key_number(self.keys[0], a),
            further_key(count, 1, self.keys[1], b),
            further_key(count, 2, self.keys[2], c),
            further_key(count, 3, self.keys[3], d),
        ))
    }
}

impl<'a> CellRule for Column<'a> {
    ghost rule = { λ s a _ _ _. at_cell (λ id. Ok (cell_in_row (option_copied s.row) id)) a };

    fn at(&self, a: Cell, _b: Cell, _c: Cell, _d: Cell) -> Result<Cell, Over> {
        match (a, self.row) {
            (Cell::Val(id), Some(cells)) => Ok(cell_in_column(cells, id)),
            _ => Ok(Cell::Mv),
        }
    }
}

/// The values of a table at all places; the operands have these kinds, and as many count as the table has keys.
pub fn looked_up(
    alloc: Global,
    table: &Table,
    keys: [Kind; 4],
    len: usize,
    a: Arg<'_>,
    b: Arg<'_>,
    c: Arg<'_>,
    d: Arg<'_>,
) -> Result<Part, AllocError>
    requires few { len ≤ most_cells }
    requires a { SpansPlaces a len }
    requires b { SpansPlaces b len }
    requires c { SpansPlaces c len }
    requires d { SpansPlaces d len }
    ensures { IfOk result (λ part. part ≡ part_of (λ place. lookup_of table.now keys (arg_cell a.entry place) (arg_cell b.entry place) (arg_cell c.entry place) (arg_cell d.entry place)) len) }
{
    four(alloc, &Looked { table, keys }, len, a, b, c, d)
}

/// The cells of a series at all places, in the row of a step; the operand has the columns.
pub fn at_step(
    alloc: Global,
    series: &Series,
    step: u32,
    len: usize,
    a: Arg<'_>,
) -> Result<Part, AllocError>
    requires few { len ≤ most_cells }
    requires a { SpansPlaces a len }
    ensures { IfOk result (λ part. part ≡ part_of (λ place. timeinput_of series.now step (arg_cell a.entry place)) len) }
{
    let row = series.row_of(step);
    one(alloc, &Column { row }, len, a)
}
