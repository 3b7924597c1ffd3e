ghost use Rattle.std.specs.Prelude.{◌≡◌, ◌≤◌, ◌||◌, ℕ, List, [], ◌∷◌, OnOk, IfOk};
ghost use Rattle.std.specs.Option.{is_some};
ghost use Rattle.script_types.specs.Names.{is_assigned, is_assigned_in, is_sample, is_sampled, is_sampled_in, role_of, script_uses, statements_uses, uses};
ghost use Rattle.script_types.specs.Typing.{or_kind};
ghost use Rattle.script_types.specs.inside.Look.{look};
ghost use Rattle.script_types.specs.inside.Stacks.{area_use, has_role, with_use, with_uses};

use crate::names::Names;
use crate::scope::is_stack;
use crate::table::{first_role, is_sample_word};
use crate::typed::UsedAs;
use script_syntax::{Expr, Script, Statement};
use std::alloc::{AllocError, Global};

// Notes the names that these statements assign.
fn note_targets(
    alloc: Global,
    targets: &mut Names<bool>,
    statements: &[Statement],
) -> Result<(), AllocError>
    ensures { OnOk result ((name : List ℕ) → is_some (look targets.new.values name) ≡ (is_some (look targets.old.values name) || is_assigned_in statements.now name)) }
{
    for statement in statements {
        targets.set(alloc, statement.name.bytes(), true)?;
    }
    Ok(())
}

// Whether the right side is a time series.
fn is_sample(expr: &Expr) -> bool
    ensures { result ≡ is_sample expr.now }
{
    match expr {
        Expr::Name(_) => false,
        Expr::Number(_) => false,
        Expr::Call { word, .. } => is_sample_word(word.bytes()),
    }
}

// Notes the names that these statements assign as time series.
fn note_samples(
    alloc: Global,
    samples: &mut Names<bool>,
    statements: &[Statement],
) -> Result<(), AllocError>
    ensures { OnOk result ((name : List ℕ) → is_some (look samples.new.values name) ≡ (is_some (look samples.old.values name) || is_sampled_in statements.now name)) }
{
    for statement in statements {
        if is_sample(&statement.expr) {
            samples.set(alloc, statement.name.bytes(), true)?;
        }
    }
    Ok(())
}

/// The names that are targets of time series.
pub fn samples_of(alloc: Global, script: &Script) -> Result<Names<bool>, AllocError>
    ensures { IfOk result (λ names. (name : List ℕ) → is_some (look names.values name) ≡ is_sampled script.now name) }
{
    let mut samples = Names::new(alloc);
    note_samples(alloc, &mut samples, script.initial.as_slice())?;
    note_samples(alloc, &mut samples, script.dynamic.as_slice())?;
    Ok(samples)
}

/// The names that the statements of a script assign.
pub fn targets_of(alloc: Global, script: &Script) -> Result<Names<bool>, AllocError>
    ensures { IfOk result (λ names. (name : List ℕ) → is_some (look names.values name) ≡ is_assigned script.now name) }
{
    let mut targets = Names::new(alloc);
    note_targets(alloc, &mut targets, script.initial.as_slice())?;
    note_targets(alloc, &mut targets, script.dynamic.as_slice())?;
    Ok(targets)
}

/// The most that stacks are counted to: one more than may be read.
const MOST_COUNTED: u32 = 65;

// So many stacks, and one more where the name stands for one, as far as they are counted.
fn with_use(role: UsedAs, stacks: u32) -> u32
    requires { stacks ≤ 65 }
    ensures { result ≡ with_use role stacks }
{
    if is_stack(role) && stacks < MOST_COUNTED {
        stacks + 1
    } else {
        stacks
    }
}

/// Notes the role of each name that has none, by its first use in this expression. Counts the stacks among them on from so
/// many, but not above 65.
pub fn note_uses(
    alloc: Global,
    roles: &mut Names<UsedAs>,
    expr: &Expr,
    role: UsedAs,
    stacks: u32,
) -> Result<u32, AllocError>
    requires { stacks ≤ 65 }
    ensures few { IfOk result (λ counted. counted ≤ 65) }
    ensures counted { IfOk result (λ counted. counted ≡ with_uses (has_role roles.old) (uses expr.now role) stacks) }
    ensures noted { OnOk result ((name : List ℕ) → look roles.new.values name ≡ or_kind (look roles.old.values name) (role_of (uses expr.now role) name)) }
{
    match expr {
        Expr::Name(name) => match roles.get(name.bytes()) {
            Some(_) => Ok(stacks),
            None => {
                roles.set(alloc, name.bytes(), role)?;
                Ok(with_use(role, stacks))
            }
        },
        Expr::Number(_) => Ok(stacks),
        Expr::Call { word, args } => {
            let mut asked = first_role(word.bytes(), args.len());
            let mut counted = stacks;
            for arg in args.as_slice() {
                counted = note_uses(alloc, roles, arg, asked, counted)?;
                asked = UsedAs::Grid;
            }
            Ok(counted)
        }
    }
}

// Notes the roles of the names of these statements.
fn note_statements(
    alloc: Global,
    roles: &mut Names<UsedAs>,
    statements: &[Statement],
) -> Result<(), AllocError>
    ensures { OnOk result ((name : List ℕ) → look roles.new.values name ≡ or_kind (look roles.old.values name) (role_of (statements_uses statements.now) name)) }
{
    for statement in statements {
        let _stacks = note_uses(alloc, roles, &statement.expr, UsedAs::Grid, 0)?;
    }
    Ok(())
}

/// The area map in its role.
pub fn area_role(alloc: Global, script: &Script) -> Result<Names<UsedAs>, AllocError>
    ensures { IfOk result (λ names. (name : List ℕ) → look names.values name ≡ role_of (area_use script.now ∷ []) name) }
{
    let mut roles = Names::new(alloc);
    roles.set(alloc, script.area.bytes(), UsedAs::Grid)?;
    Ok(roles)
}

/// The roles of the names of a script, by their first uses.
pub fn roles_of(alloc: Global, script: &Script) -> Result<Names<UsedAs>, AllocError>
    ensures { IfOk result (λ names. (name : List ℕ) → look names.values name ≡ role_of (script_uses script.now) name) }
{
    let mut roles = area_role(alloc, script)?;
    note_statements(alloc, &mut roles, script.initial.as_slice())?;
    note_statements(alloc, &mut roles, script.dynamic.as_slice())?;
    Ok(roles)
}
