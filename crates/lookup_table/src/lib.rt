//! Lookup tables: from classes and intervals of one to four maps to a value.
//!
//! A table is a text with a line for each row: its key columns, numbers or intervals, and then its
//! result. The value of a table at some numbers is the result of the first row whose key columns all
//! take them in. A text that is no table is refused with its first fault and the number of its line.
#![tactic(auto)]

mod column;
mod fault;
mod key;
mod reader;
mod row;
mod table;

pub use fault::{ReadTable, TableFault, TableKind};
pub use key::KeyRange;
pub use reader::{first_table_faults_are_told, read_table, tables_are_read};
pub use table::Table;
