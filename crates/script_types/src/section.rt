ghost use Rattle.std.specs.Prelude.{◌≡◌, ◌+◌, ◌-◌, ◌<◌, ◌≤◌, ◌++◌, ℕ, List, IfOk, OnOk, length, if◌then◌else◌};
ghost use Rattle.map_meaning.specs.Limits.{most_drains};
ghost use Rattle.script_types.specs.Lowered.{form_by, total_operations};
ghost use Rattle.script_types.specs.Reports.{file_written};
ghost use Rattle.script_types.specs.Statements.{operations_of};
ghost use Rattle.script_types.specs.inside.Nodes.{held_in};
ghost use Rattle.script_types.specs.inside.Scopes.{binding_in};
ghost use Rattle.script_types.specs.inside.Written.{AddsDrain, AddsLine, AddsMap, AreWritten, carried_operand, gives_name, held_before, output_with};

use crate::drains::emit_drain;
use crate::emit::{At, emit, own_operand};
use crate::line::count_with;
use crate::names::Names;
use crate::same::is_kind;
use crate::scope::Scope;
use crate::typed::{Line, Section};
use cell_values::{Kind, Word};
use map_meaning::{DrainUse, Operand, Operation, OutputKind, OutputUse};
use script_syntax::Target;
use sqlite_items::Items;
use std::alloc::{AllocError, Global};

// The file that the report of a statement writes, or the prefix of its stack.
fn file_written(alloc: Global, scope: &Scope<'_>, line: &Line) -> Result<Word, AllocError>
    ensures { IfOk result (λ file. file ≡ file_written (binding_in scope.now) line.now) }
{
    match scope.binding(line.statement.target.bytes()) {
        Some(binding) => match &binding.target {
            Target::File(file) => file.twin(alloc),
            Target::Number(_) => line.statement.target.twin(alloc),
        },
        None => line.statement.target.twin(alloc),
    }
}

// What a statement is written as.
fn form_by(section: Section, sample: Option<u32>) -> OutputKind
    ensures { result ≡ form_by section sample }
{
    match (sample, section) {
        (Some(ids), _) => OutputKind::Sample { ids },
        (None, Section::Initial) => OutputKind::InitialGrid,
        (None, Section::Dynamic) => OutputKind::StackGrid,
    }
}

// Writes the output of a statement, where it reports; this operand has its value.
fn write_output(
    alloc: Global,
    scope: &Scope<'_>,
    outputs: &mut Items<OutputUse>,
    statement: u32,
    value: Operand,
    line: &Line,
) -> Result<(), AllocError>
    ensures { OnOk result (outputs.new ≡ outputs.old ++ output_with (binding_in scope.now) statement line.now value) }
{
    if !line.report {
        return Ok(());
    }
    let file = file_written(alloc, scope, line)?;
    outputs.push(OutputUse {
        file,
        kind: form_by(line.section, line.sample),
        value,
        cell_kind: line.kind,
        statement,
    })
}

// Notes that an operand has the map of a statement's target. The target of a time series is not read.
fn note_target(
    alloc: Global,
    holders: &mut Names<Operand>,
    operand: Operand,
    line: &Line,
) -> Result<(), AllocError>
    ensures { OnOk result ((name : List ℕ) → held_in holders.new name ≡ (if gives_name line.now name then operand else held_in holders.old name)) }
{
    if line.sample.is_some() {
        return Ok(());
    }
    holders.set(alloc, line.statement.target.bytes(), operand)
}

// Writes the operations of a statement that is no drain map, and its output where it reports.
fn write_map(
    alloc: Global,
    scope: &Scope<'_>,
    numbers: &[u32],
    at: At,
    ops: &mut Items<Operation>,
    outputs: &mut Items<OutputUse>,
    holders: &mut Names<Operand>,
    line: &Line,
) -> Result<(), AllocError>
    requires first { at.first ≡ length ops.old }
    requires room { length ops.old + operations_of line.now.statement.value ≤ 8192 }
    ensures { OnOk result (AddsMap at.section (binding_in scope.now) numbers.now (held_in holders.old) (held_in holders.new) ops.old ops.new outputs.old outputs.new at.statement line.now) }
{
    let value = emit(alloc, ops, numbers, holders, at, &line.statement.value)?;
    let last = own_operand(at.section, ops.len().saturating_sub(1) as u32);
    note_target(alloc, holders, last, line)?;
    write_output(alloc, scope, outputs, at.statement, value, line)
}

// Writes the operations of a statement that is a drain map, the drain map behind them, and its output where it reports.
fn write_drain(
    alloc: Global,
    scope: &Scope<'_>,
    numbers: &[u32],
    at: At,
    ops: &mut Items<Operation>,
    drains: &mut Items<DrainUse>,
    outputs: &mut Items<OutputUse>,
    holders: &mut Names<Operand>,
    line: &Line,
) -> Result<(), AllocError>
    requires first { at.first ≡ length ops.old }
    requires room { length ops.old + operations_of line.now.statement.value ≤ 8192 }
    requires few { length drains.old < most_drains }
    ensures { OnOk result (AddsDrain at.section (binding_in scope.now) numbers.now (held_in holders.old) (held_in holders.new) ops.old ops.new drains.old drains.new outputs.old outputs.new at.statement line.now) }
{
    let from = emit_drain(alloc, ops, numbers, holders, at, &line.statement.value)?;
    let value = Operand::Drain(drains.len() as u32);
    drains.push(DrainUse {
        from,
        after: ops.len() as u32,
    })?;
    note_target(alloc, holders, value, line)?;
    write_output(alloc, scope, outputs, at.statement, value, line)
}

// Writes the operations of a statement, its drain map where it is one, and its output where it reports.
fn write_line(
    alloc: Global,
    scope: &Scope<'_>,
    numbers: &[u32],
    at: At,
    ops: &mut Items<Operation>,
    drains: &mut Items<DrainUse>,
    outputs: &mut Items<OutputUse>,
    holders: &mut Names<Operand>,
    line: &Line,
) -> Result<(), AllocError>
    requires first { at.first ≡ length ops.old }
    requires room { length ops.old + operations_of line.now.statement.value ≤ 8192 }
    requires few { length drains.old < most_drains }
    ensures { OnOk result (AddsLine at.section (binding_in scope.now) numbers.now (held_in holders.old) (held_in holders.new) ops.old ops.new drains.old drains.new outputs.old outputs.new at.statement line.now) }
{
    if is_kind(Kind::Ldd, line.kind) {
        return write_drain(
            alloc, scope, numbers, at, ops, drains, outputs, holders, line,
        );
    }
    write_map(alloc, scope, numbers, at, ops, outputs, holders, line)
}

/// Writes the operations, the drain maps and the outputs of the statements of a section, above which so many others stand. These are
/// the numbers of the inputs among drain maps.
pub fn write_section(
    alloc: Global,
    scope: &Scope<'_>,
    numbers: &[u32],
    section: Section,
    drains: &mut Items<DrainUse>,
    outputs: &mut Items<OutputUse>,
    holders: &mut Names<Operand>,
    above: usize,
    lines: &[Line],
) -> Result<Items<Operation>, AllocError>
    requires few { above + length lines.now ≤ 1000 }
    requires room { total_operations lines.now ≤ 8192 }
    requires few_drains { length drains.old + length lines.now ≤ most_drains }
    ensures { IfOk result (λ ops. AreWritten section (binding_in scope.now) numbers.now (held_in holders.old) (above + 1) lines.now (held_in holders.new) ops drains.old drains.new outputs.old outputs.new) }
{
    let mut ops = Items::new(alloc);
    for number in 0..lines.len() {
        let at = At {
            section,
            statement: (above + number) as u32 + 1,
            first: ops.len(),
        };
        write_line(
            alloc,
            scope,
            numbers,
            at,
            &mut ops,
            drains,
            outputs,
            holders,
            &lines[number],
        )?;
    }
    Ok(ops)
}

// What a name had before, where `dynamic` gives it the map of this operation.
fn carried(dynamic: u32, operand: Operand) -> Operand
    ensures { result ≡ carried_operand dynamic operand }
{
    match operand {
        Operand::Initial(initial) => Operand::Last { dynamic, initial },
        Operand::Last { initial, .. } => Operand::Last { dynamic, initial },
        other => other,
    }
}

// Notes what the target of a statement of `dynamic` had before, where the last of so many operations is the statement's.
fn carry_target(
    alloc: Global,
    holders: &mut Names<Operand>,
    below: usize,
    line: &Line,
) -> Result<(), AllocError>
    requires { below ≤ 8192 }
    ensures { OnOk result ((name : List ℕ) → held_in holders.new name ≡ (if gives_name line.now name then carried_operand (below - 1) (held_in holders.old name) else held_in holders.old name)) }
{
    if line.sample.is_some() {
        return Ok(());
    }
    let name = line.statement.target.bytes();
    let Some(operand) = holders.get(name) else {
        return Ok(());
    };
    let last = below.saturating_sub(1) as u32;
    holders.set(alloc, name, carried(last, operand))
}

/// Notes for the start of a step which operand has the map of each name that its statements assign and `initial` gives a map:
/// at step 1 that of `initial`, and then that of the step before.
pub fn carry(alloc: Global, holders: &mut Names<Operand>, lines: &[Line]) -> Result<(), AllocError>
    requires { total_operations lines.now ≤ 8192 }
    ensures { OnOk result ((name : List ℕ) → held_in holders.new name ≡ held_before (held_in holders.old) lines.now name) }
{
    let mut below = 0;
    for line in lines {
        if let Some(more) = count_with(&line.statement.value, below) {
            below = more;
        }
        carry_target(alloc, holders, below, line)?;
    }
    Ok(())
}
