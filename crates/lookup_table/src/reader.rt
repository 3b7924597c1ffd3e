//! The reader of lookup tables.

ghost use Rattle.std.specs.Prelude.{◌≡◌, ◌≤◌, ◌≢◌, ℕ, length, Ok, IfOk, IfErr, MatchResult};
ghost use Rattle.std.specs.List.{All};
ghost use Rattle.cell_values.specs.Kinds.{IsValue};
ghost use Rattle.cell_values.specs.declared.kind.Kind.TheVariants.{Ldd};
ghost use Rattle.text_base.specs.Lines.{lines_of};
ghost use Rattle.text_base.specs.Limits.{most_text_bytes};
ghost use Rattle.lookup_table.specs.declared.fault.ReadTable.TheVariants.{Fault};
ghost use Rattle.lookup_table.specs.Form.{TableValue, IsTable};
ghost use Rattle.lookup_table.specs.Reading.{FirstTableFaultsAreTold, ReadsTable, TablesAreRead, TellsFirstTableFault};
ghost use Rattle.lookup_table.specs.inside.Reading.{rows_read, table_of};
ghost use Rattle.lookup_table.specs.inside.Steps.{RowsFail, rows_view};

use crate::fault::{ReadTable, TableFault, TableKind};
use crate::row::{Row, read_row};
use crate::table::Table;
use cell_values::Kind;
use std::alloc::Global;
use text_base::next_line;

// A fault in a line.
fn fault_in(line: u32, kind: TableKind) -> ReadTable
    ensures { result ≡ Fault (record { kind = kind; line = line }) }
{
    ReadTable::Fault(TableFault { kind, line })
}

// The rows of the lines that have more than blanks.
fn read_rows(alloc: Global, keys: u32, kind: Kind, text: &[u8]) -> Result<Vec<Row>, ReadTable>
    requires few { keys ≤ 4 }
    requires short { length text.now ≤ most_text_bytes }
    ensures rows { MatchResult result
        (λ rows. rows_read keys kind (lines_of text.now) ≡ Ok (rows_view keys rows.items))
        (λ why. RowsFail why (rows_read keys kind (lines_of text.now))) }
    ensures values { IfOk result (λ rows. All (λ row. IsValue kind row.result) rows.items) }
{
    let mut rows = Vec::new(alloc);
    let mut number = 1;
    let mut rest = text;
    while let Some((line, behind)) = next_line(number, rest) {
        match read_row(keys, kind, line.bytes) {
            Ok(row) => rows.push(row)?,
            Err(kind) => return Err(fault_in(line.number, kind)),
        }
        number = line.number + 1;
        rest = behind;
    }
    Ok(rows)
}

// The table of the text.
#[tactic(auto, unfolding(crate::specs::inside::Reading::table_of))]
fn read_whole(alloc: Global, keys: u32, kind: Kind, text: &[u8]) -> Result<Table, ReadTable>
    requires some { 1 ≤ keys }
    requires few { keys ≤ 4 }
    requires short { length text.now ≤ most_text_bytes }
    ensures { ReadsTable result (table_of keys kind text.now) }
{
    let rows = read_rows(alloc, keys, kind, text)?;
    Ok(Table::of_rows(keys, kind, rows))
}

/// Reads a lookup table of so many key columns, whose results are of the kind: a line for each row,
/// its columns between blanks, the result last. A key column is a decimal or an interval between `[`
/// or `<` and `]` or `>`, with a comma between its bounds, each of which may lack; both are read as
/// scalars. Lines of blanks alone are passed over. `Fault` comes exactly where the text is no such
/// table, with the first fault and the number of its line. Takes time in proportion to the text.
pub fn read_table(alloc: Global, keys: u32, kind: Kind, text: &[u8]) -> Result<Table, ReadTable>
    requires some { 1 ≤ keys }
    requires few { keys ≤ 4 }
    requires kind { kind ≢ Ldd }
    requires short { length text.now ≤ most_text_bytes }
    // The table is that of the text.
    ensures found { IfOk result (IsTable keys kind text.now) }
    // A text that is a table is read, unless memory runs out.
    ensures only { (table : TableValue) → IsTable keys kind text.now table → ReadsTable result (Ok table) }
    // The fault is the first one.
    ensures first { IfErr result (TellsFirstTableFault keys kind text.now) }
    // What is answered where.
    ensures exact { ReadsTable result (table_of keys kind text.now) }
{
    read_whole(alloc, keys, kind, text)
}

/// A text is read as a table exactly where it is one with these values, so no text has two readings.
pub fn tables_are_read()
    ensures { TablesAreRead }
{}

/// A fault is told exactly where it is the first one of the text.
pub fn first_table_faults_are_told()
    ensures { FirstTableFaultsAreTold }
{}
