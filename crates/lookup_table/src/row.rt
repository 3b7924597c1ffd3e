//! The lines of a table.

ghost use Rattle.std.specs.Prelude.{◌≡◌, ◌≤◌, [], ◌∷◌, take, length, IfOk};
ghost use Rattle.cell_values.specs.Kinds.{IsValue};
ghost use Rattle.lookup_table.specs.Keys.{all_lie_in};
ghost use Rattle.lookup_table.specs.inside.Reading.{key_at, result_at, row_at, row_read};
ghost use Rattle.lookup_table.specs.inside.Steps.{key_view, keys_of, row_view, answer_by};

use crate::column::{count_columns, next_column};
use crate::fault::TableKind;
use crate::key::{KeyRange, read_key, read_number};
use cell_values::Kind;

/// The most key columns of a table.
pub const MOST_KEYS: usize = 4;

/// A line of a table.
#[derive(Clone, Copy, Debug)]
pub struct Row {
    /// The ranges of the key columns; those beyond the table's keys do not count.
    pub a: KeyRange,
    pub b: KeyRange,
    pub c: KeyRange,
    pub d: KeyRange,
    /// A number of the table's kind.
    pub result: i64,
}

impl Row {
    // Whether each of four key columns takes in the number at its place.
    #[inline]
    fn fits_all(&self, a: i64, b: i64, c: i64, d: i64) -> bool
        ensures { result ≡ all_lie_in (keys_of self.now) (a ∷ b ∷ c ∷ d ∷ []) }
    {
        if !self.a.has(a) {
            return false;
        }
        if !self.b.has(b) {
            return false;
        }
        if !self.c.has(c) {
            return false;
        }
        self.d.has(d)
    }

    /// Whether each of so many key columns takes in the number at its place.
    #[inline]
    pub fn fits(&self, keys: u32, a: i64, b: i64, c: i64, d: i64) -> bool
        requires some { 1 ≤ keys }
        requires few { keys ≤ 4 }
        ensures { result ≡ all_lie_in (take keys (keys_of self.now)) (a ∷ b ∷ c ∷ d ∷ []) }
    {
        match keys {
            1 => self.a.has(a),
            2 => self.a.has(a) && self.b.has(b),
            3 => self.a.has(a) && self.b.has(b) && self.c.has(c),
            4 => self.fits_all(a, b, c, d),
            _ => unreachable!(),
        }
    }
}

// The range of the first column and what stands behind it.
#[tactic(auto, unfolding(crate::specs::inside::Reading::key_at))]
fn next_key(bytes: &[u8]) -> Result<(KeyRange, &[u8]), TableKind>
    ensures { answer_by key_view result ≡ key_at bytes.now }
{
    let Some((column, behind)) = next_column(bytes)? else {
        return Err(TableKind::Columns);
    };
    let range = read_key(column)?;
    Ok((range, behind))
}

// The number that the first column writes.
#[tactic(auto, unfolding(crate::specs::inside::Reading::result_at))]
fn read_result(kind: Kind, bytes: &[u8]) -> Result<i64, TableKind>
    ensures result { result ≡ result_at kind bytes.now }
    ensures value { IfOk result (IsValue kind) }
{
    let Some((column, _)) = next_column(bytes)? else {
        return Err(TableKind::Columns);
    };
    read_number(kind, column)
}

// The row of so many keys and a result at the front of the line.
fn read_columns(keys: u32, kind: Kind, line: &[u8]) -> Result<Row, TableKind>
    requires { keys ≤ 4 }
    ensures row { answer_by (row_view keys) result ≡ row_at keys kind line.now }
    ensures value { IfOk result (λ row. IsValue kind row.result) }
{
    let mut ranges = [KeyRange { first: 0, last: 0 }; MOST_KEYS];
    let mut rest = line;
    for i in 0..keys as usize {
        let (range, behind) = next_key(rest)?;
        ranges[i] = range;
        rest = behind;
    }
    let result = read_result(kind, rest)?;
    let [a, b, c, d] = ranges;
    Ok(Row { a, b, c, d, result })
}

/// The row of a line: so many key columns, and a result of the kind.
#[tactic(auto, unfolding(crate::specs::inside::Reading::row_read))]
pub fn read_row(keys: u32, kind: Kind, line: &[u8]) -> Result<Row, TableKind>
    requires { keys ≤ 4 }
    ensures row { answer_by (row_view keys) result ≡ row_read keys kind line.now }
    ensures value { IfOk result (λ row. IsValue kind row.result) }
{
    let count = count_columns(line)?;
    if count != keys as usize + 1 {
        return Err(TableKind::Columns);
    }
    read_columns(keys, kind, line)
}
