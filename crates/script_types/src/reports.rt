ghost use Rattle.std.specs.Prelude.{◌≡◌, ◌≤◌, List, [], ◌∷◌, length, OnOk, if◌then◌else◌};
ghost use Rattle.std.specs.List.{list_any};
ghost use Rattle.script_types.specs.Reports.{Kept, One, Stacked, is_among, kept_as, names_of, share_a_name};
ghost use Rattle.script_types.specs.inside.Answers.{GivesReports, reports_pass};
ghost use Rattle.script_types.specs.inside.Scopes.{binding_in};
ghost use Rattle.script_types.specs.inside.Taken.{HasFileTable, HasTaken, Reports, TakesAll, is_taken_by, kept_in, kepts_in};

use crate::bindings::is_input;
use crate::end::LowerEnd;
use crate::fault::{MeaningFault, MeaningKind, Place};
use crate::line::writes_stack;
use crate::names::Names;
use crate::scope::{Scope, file_by, is_stack};
use crate::stacks::{is_file_of, share_a_file};
use crate::typed::{Line, UsedAs};
use cell_values::Word;
use script_syntax::Binding;
use sqlite_items::Items;
use std::alloc::{AllocError, Global};

/// What is read, and what is written above a statement.
#[derive(Drop)]
pub struct Taken {
    /// The names of the single files.
    pub names: Names<bool>,
    /// The single files.
    pub files: Items<Word>,
    /// The prefixes of the stacks.
    pub stacks: Items<Word>,
}

/// Nothing is read or written.
pub fn nothing_taken(alloc: Global) -> Taken
    ensures { HasTaken result [] }
{
    Taken {
        names: Names::new(alloc),
        files: Items::new(alloc),
        stacks: Items::new(alloc),
    }
}

/// Takes a file or a stack.
pub fn take(alloc: Global, taken: &mut Taken, stacked: bool, name: &[u8]) -> Result<(), AllocError>
    ensures { OnOk result (TakesAll taken.old taken.new (kept_as stacked name.now ∷ [])) }
{
    let word = Word::new(alloc, name)?;
    if stacked {
        return taken.stacks.push(word);
    }
    taken.names.set(alloc, name, true)?;
    taken.files.push(word)
}

// Whether a file is one of a stack of these.
fn is_of_stacks(stacks: &[Word], steps: u32, file: &[u8]) -> bool
    ensures { result ≡ list_any (λ prefix. is_among file.now (names_of steps (Stacked prefix))) stacks.now }
{
    for prefix in stacks {
        if is_file_of(prefix.bytes(), steps, file) {
            return true;
        }
    }
    false
}

// Whether one of these files is one of a stack.
fn has_file_of(files: &[Word], steps: u32, prefix: &[u8]) -> bool
    ensures { result ≡ list_any (λ file. is_among file (names_of steps (Stacked prefix.now))) files.now }
{
    for file in files {
        if is_file_of(prefix, steps, file.bytes()) {
            return true;
        }
    }
    false
}

// Whether a stack has a file in common with one of these.
fn has_file_in(stacks: &[Word], steps: u32, prefix: &[u8]) -> bool
    ensures { result ≡ list_any (λ other. share_a_name steps (Stacked prefix.now) (Stacked other)) stacks.now }
{
    for other in stacks {
        if share_a_file(prefix, other.bytes(), steps) {
            return true;
        }
    }
    false
}

// Whether something that is taken has this file.
fn is_file_taken(taken: &Taken, steps: u32, file: &[u8]) -> bool
    requires { HasFileTable taken.now }
    ensures { result ≡ is_taken_by (share_a_name steps (One file.now)) taken.now }
{
    taken.names.get(file).is_some() || is_of_stacks(taken.stacks.as_slice(), steps, file)
}

// Whether something that is taken has a file of this stack.
fn is_stack_taken(taken: &Taken, steps: u32, prefix: &[u8]) -> bool
    ensures { result ≡ is_taken_by (share_a_name steps (Stacked prefix.now)) taken.now }
{
    has_file_of(taken.files.as_slice(), steps, prefix)
        || has_file_in(taken.stacks.as_slice(), steps, prefix)
}

// Whether something that is taken has a file in common with this file or stack.
fn is_taken(taken: &Taken, steps: u32, stacked: bool, name: &[u8]) -> bool
    requires { HasFileTable taken.now }
    ensures { result ≡ is_taken_by (share_a_name steps (kept_as stacked name.now)) taken.now }
{
    if stacked {
        is_stack_taken(taken, steps, name)
    } else {
        is_file_taken(taken, steps, name)
    }
}

// Takes what a binding reads, where it is an input that is used.
fn take_input(
    alloc: Global,
    taken: &mut Taken,
    roles: &Names<UsedAs>,
    is_input: bool,
    binding: &Binding,
) -> Result<(), AllocError>
    ensures { OnOk result (TakesAll taken.old taken.new (if is_input then kept_in roles.now binding.now ∷ [] else [])) }
{
    if !is_input {
        return Ok(());
    }
    let name = binding.name.bytes();
    let role = roles.get(name).unwrap_or(UsedAs::Grid);
    take(alloc, taken, is_stack(role), file_by(Some(binding), name))
}

/// Takes what the bindings read that are inputs and used.
pub fn take_inputs(
    alloc: Global,
    taken: &mut Taken,
    bindings: &[Binding],
    targets: &Names<bool>,
    roles: &Names<UsedAs>,
) -> Result<(), AllocError>
    ensures { OnOk result (TakesAll taken.old taken.new (kepts_in targets.now roles.now bindings.now)) }
{
    for binding in bindings {
        let used = is_input(targets, roles, binding);
        take_input(alloc, taken, roles, used, binding)?;
    }
    Ok(())
}

// Takes what a statement's report writes. Answers whether it was taken before.
fn take_report(
    alloc: Global,
    scope: &Scope<'_>,
    taken: &mut Taken,
    line: &Line,
) -> Result<bool, AllocError>
    requires { HasFileTable taken.old }
    ensures taken { Reports result taken.old taken.new scope.now.steps (binding_in scope.now) line.now }
    ensures table { OnOk result (HasFileTable taken.new) }
{
    if !line.report {
        return Ok(false);
    }
    let name = line.statement.target.bytes();
    let file = file_by(scope.binding(name), name);
    let stacked = writes_stack(line);
    if is_taken(taken, scope.steps, stacked, file) {
        return Ok(true);
    }
    take(alloc, taken, stacked, file)?;
    Ok(false)
}

/// Finds the first report that writes a file which is taken: by these, or by an earlier report.
pub fn check_reports(
    alloc: Global,
    scope: &Scope<'_>,
    taken: &mut Taken,
    lines: &[Line],
) -> Result<(), LowerEnd>
    requires few { length lines.now ≤ 1000 }
    requires table { HasFileTable taken.old }
    ensures { (kepts : List Kept) → HasTaken taken.old kepts → GivesReports result (reports_pass scope.now.steps (binding_in scope.now) kepts 0 lines.now) }
{
    for at in 0..lines.len() {
        let was = take_report(alloc, scope, taken, &lines[at])?;
        if was {
            return Err(LowerEnd::Meaning(MeaningFault {
                at: Place::Statement(at as u32 + 1),
                kind: MeaningKind::NameClash,
            }));
        }
    }
    Ok(())
}
