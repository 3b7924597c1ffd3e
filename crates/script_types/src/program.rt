ghost use Rattle.std.specs.Prelude.{◌≡◌, ◌≤◌, ◌++◌, ◌∷◌, [], true, IfOk, OnOk, length, map, filter, if◌then◌else◌};
ghost use Rattle.map_meaning.specs.Limits.{most_inputs};
ghost use Rattle.map_meaning.specs.Programs.{SuitsRole};
ghost use Rattle.script_types.specs.Lowered.{input_as_used, used_kind, input_role, inputs_of, lines_in, total_operations};
ghost use Rattle.script_types.specs.inside.Answers.{StandsBelow, is_input_in};
ghost use Rattle.script_types.specs.inside.Programs.{AllSuit, AreBothWritten, input_by};
ghost use Rattle.script_types.specs.inside.Scopes.{binding_in};
ghost use Rattle.script_types.specs.declared.typed.Section.TheVariants.{Initial, Dynamic};

use crate::bindings::is_input;
use crate::drains::write_input_drains;
use crate::kept::Written;
use crate::names::Names;
use crate::scope::Scope;
use crate::section::{carry, write_section};
use crate::settle::Settled;
use crate::typed::{Line, Section, UsedAs};
use cell_values::Kind;
use map_meaning::{InputUse, Role};
use script_syntax::{Binding, Script, Target};
use sqlite_items::Items;
use std::alloc::{AllocError, Global};

// How many statements stand in `initial`.
fn initial_count(lines: &[Line]) -> usize
    ensures { result ≡ length (lines_in Initial lines.now) }
{
    let mut count = 0;
    for line in lines {
        if matches!(line.section, Section::Initial) {
            count += 1;
        }
    }
    count
}

/// Writes the drain maps of the inputs, and the operations, the drain maps and the outputs of the statements of a script, section by
/// section.
pub fn write_lines(
    alloc: Global,
    scope: &Scope<'_>,
    inputs: &[InputUse],
    lines: &[Line],
) -> Result<Written, AllocError>
    requires ordered { lines.now ≡ lines_in Initial lines.now ++ lines_in Dynamic lines.now }
    requires few_inputs { length inputs.now ≤ most_inputs }
    requires few { length lines.now ≤ 1000 }
    requires few_initial { total_operations (lines_in Initial lines.now) ≤ 8192 }
    requires few_dynamic { total_operations (lines_in Dynamic lines.now) ≤ 8192 }
    ensures { IfOk result (λ written. AreBothWritten (binding_in scope.now) inputs.now lines.now written) }
{
    let count = initial_count(lines);
    let first = &lines[..count];
    let later = &lines[count..];
    let mut drains = Items::new(alloc);
    let numbers = write_input_drains(alloc, &mut drains, inputs)?;
    let mut outputs = Items::new(alloc);
    let mut holders = Names::new(alloc);
    let initial = write_section(
        alloc,
        scope,
        numbers.as_slice(),
        Section::Initial,
        &mut drains,
        &mut outputs,
        &mut holders,
        0,
        first,
    )?;
    carry(alloc, &mut holders, later)?;
    let dynamic = write_section(
        alloc,
        scope,
        numbers.as_slice(),
        Section::Dynamic,
        &mut drains,
        &mut outputs,
        &mut holders,
        count,
        later,
    )?;
    Ok(Written {
        initial,
        dynamic,
        drains,
        outputs,
    })
}

// The role of an input that is used so.
fn input_role(role: UsedAs, kind: Kind) -> Role
    requires { SuitsRole kind (input_role role) }
    ensures { result ≡ input_role role }
{
    match role {
        UsedAs::Grid => Role::Grid,
        UsedAs::Stack => Role::Stack,
        UsedAs::Table { keys, .. } => Role::Table { keys: keys as u32 },
        UsedAs::Series { .. } => Role::Series,
    }
}

// The kind of an input that is used so, and whose binding gives this kind.
fn used_kind(role: UsedAs, given: Option<Kind>) -> Kind
    ensures { result ≡ used_kind role given }
{
    match role {
        UsedAs::Table { kind, .. } => kind,
        UsedAs::Series { kind } => kind,
        _ => given.unwrap_or(Kind::Scalar),
    }
}

// Writes the input of a binding, where it is one that is used.
fn write_input(
    alloc: Global,
    inputs: &mut Items<InputUse>,
    is_input: bool,
    role: UsedAs,
    binding: &Binding,
) -> Result<(), AllocError>
    requires { is_input ≡ true → SuitsRole (used_kind role binding.now.kind) (input_role role) }
    ensures { OnOk result (inputs.new ≡ inputs.old ++ (if is_input then input_as_used role binding.now ∷ [] else [])) }
{
    if !is_input {
        return Ok(());
    }
    let file = match &binding.target {
        Target::File(file) => file.twin(alloc)?,
        Target::Number(_) => binding.name.twin(alloc)?,
    };
    let kind = used_kind(role, binding.kind);
    inputs.push(InputUse {
        file,
        role: input_role(role, kind),
        kind,
    })
}

// Writes the inputs of the bindings that are used.
fn write_inputs(
    alloc: Global,
    inputs: &mut Items<InputUse>,
    bindings: &[Binding],
    targets: &Names<bool>,
    roles: &Names<UsedAs>,
) -> Result<(), AllocError>
    requires { AllSuit (map (input_by roles.now) (filter (is_input_in targets.now roles.now) bindings.now)) }
    ensures { OnOk result (inputs.new ≡ inputs.old ++ map (input_by roles.now) (filter (is_input_in targets.now roles.now) bindings.now)) }
{
    for binding in bindings {
        let used = is_input(targets, roles, binding);
        let role = roles.get(binding.name.bytes()).unwrap_or(UsedAs::Grid);
        write_input(alloc, inputs, used, role, binding)?;
    }
    Ok(())
}

/// The inputs of a script.
pub fn inputs_of(
    alloc: Global,
    script: &Script,
    settled: &Settled<'_>,
) -> Result<Items<InputUse>, AllocError>
    requires below { StandsBelow script.now settled.now.scope settled.now.lines }
    requires suit { AllSuit (inputs_of script.now) }
    ensures { IfOk result (λ inputs. inputs ≡ inputs_of script.now) }
{
    let mut inputs = Items::new(alloc);
    if settled.scope.binding(script.area.bytes()).is_none() {
        inputs.push(InputUse {
            file: script.area.twin(alloc)?,
            role: Role::Grid,
            kind: Kind::Scalar,
        })?;
    }
    write_inputs(
        alloc,
        &mut inputs,
        script.bindings.as_slice(),
        &settled.scope.targets,
        &settled.scope.roles,
    )?;
    Ok(inputs)
}
