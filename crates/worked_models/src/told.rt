//! What scripts are told.

ghost use Rattle.script_syntax.specs.WellMade.{IsWellMade};

use crate::texts::script_of;
use script_syntax::Script;
use script_types::{LowerEnd, MeaningKind, Place, lower};
use std::alloc::{AllocError, Global};
use std::process::Abort;
use std::test::Fail;

/// What a script is told.
#[derive(Clone, Copy, Debug, PartialEq, Eq)]
pub enum Told {
    /// It has a program of so many operations, all of `initial`.
    Fine(usize),
    /// It has a program of so many operations of `initial`, and of so many of `dynamic`.
    Timed(usize, usize),
    /// A fault of an entry of `binding`.
    Entry(u32, MeaningKind),
    /// A fault of the area map.
    Area(MeaningKind),
    /// A fault of a statement.
    At(u32, MeaningKind),
}

use Told::{Area, At, Entry, Fine, Timed};

// What a script is told.
fn answer(alloc: Global, script: &Script) -> Result<Told, AllocError>
    requires { IsWellMade script.now }
{
    match lower(alloc, script) {
        Ok(program) => Ok(if program.steps > 0 {
            Timed(program.initial.len(), program.dynamic.len())
        } else {
            Fine(program.initial.len())
        }),
        Err(LowerEnd::Memory) => Err(AllocError),
        Err(LowerEnd::Meaning(fault)) => Ok(match fault.at {
            Place::Binding(entry) => Entry(entry, fault.kind),
            Place::Area => Area(fault.kind),
            Place::Statement(number) => At(number, fault.kind),
        }),
    }
}

// What the script of a text is told.
fn told_of(alloc: Global, text: &str) -> Result<Told, Fail> {
    let script = script_of(alloc, text)?;
    let told = answer(alloc, &script)?;
    Ok(told)
}

/// The script of a text is told this; a row of a table names itself.
pub(crate) fn expect_told(
    rt: &impl Abort,
    alloc: Global,
    text: &str,
    expected: Told,
    row: &str,
) -> Result<(), Fail> {
    let found = told_of(alloc, text)?;
    assert_eq!(rt; found, expected, "{row}");
    Ok(())
}

/// With these entries, the area map `A` and this behind it, each row is told what stands beside it.
pub(crate) fn expect_rows(
    rt: &impl Abort,
    alloc: Global,
    entries: &str,
    section: &str,
    rows: &[(&str, Told)],
) -> Result<(), Fail> {
    for (row, expected) in rows {
        let text = format!(in alloc; "binding {entries} areamap A; {section} {row}")?;
        expect_told(rt, alloc, &text, *expected, row)?;
    }
    Ok(())
}

/// A script of these parts, with the two of a row between them, is told what stands beside the row.
pub(crate) fn expect_pairs(
    rt: &impl Abort,
    alloc: Global,
    parts: (&str, &str, &str),
    rows: &[(&str, &str, Told)],
) -> Result<(), Fail> {
    let (front, middle, end) = parts;
    for (first, second, expected) in rows {
        let text = format!(in alloc; "{front}{first}{middle}{second}{end}")?;
        expect_told(rt, alloc, &text, *expected, &text)?;
    }
    Ok(())
}
