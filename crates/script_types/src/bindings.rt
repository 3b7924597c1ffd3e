ghost use Rattle.std.specs.Prelude.{◌≡◌, ◌≤◌, ℕ, List, length, filter, IfOk};
ghost use Rattle.script_types.specs.Names.{is_number_target, place_from};
ghost use Rattle.script_types.specs.Meaning.{is_bad_number};
ghost use Rattle.script_types.specs.inside.Answers.{GivesPlaces, TakesNumber, is_input_in};
ghost use Rattle.script_types.specs.inside.Look.{look};

use crate::end::LowerEnd;
use crate::fault::{MeaningFault, MeaningKind, Place};
use crate::names::Names;
use crate::typed::UsedAs;
use cell_values::{Kind, read_cell};
use script_syntax::{Binding, Target};
use std::alloc::{AllocError, Global};

// Whether a number is no value of its kind, or is given the kind of drain maps.
fn is_bad_number(target: &Target, kind: Option<Kind>) -> bool
    ensures { result ≡ is_bad_number target.now kind }
{
    match (target, kind) {
        (Target::Number(_), Some(Kind::Ldd)) => true,
        (Target::Number(text), Some(kind)) => read_cell(kind, text.bytes()).is_err(),
        _ => false,
    }
}

/// The places of the bindings, or their first fault.
pub fn places_of(alloc: Global, bindings: &[Binding]) -> Result<Names<u32>, LowerEnd>
    requires { length bindings.now ≤ 1000 }
    ensures { GivesPlaces result bindings.now }
{
    let mut places = Names::new(alloc);
    for at in 0..bindings.len() {
        let binding = &bindings[at];
        let number = at as u32;
        let name = binding.name.bytes();
        if places.get(name).is_some() {
            return Err(LowerEnd::Meaning(MeaningFault {
                at: Place::Binding(number + 1),
                kind: MeaningKind::NameClash,
            }));
        }
        if is_bad_number(&binding.target, binding.kind) {
            return Err(LowerEnd::Meaning(MeaningFault {
                at: Place::Binding(number + 1),
                kind: MeaningKind::KindMismatch,
            }));
        }
        places.set(alloc, name, number)?;
    }
    Ok(places)
}

// Whether what is bound is a number.
fn is_number(target: &Target) -> bool
    ensures { result ≡ is_number_target target.now }
{
    matches!(target, Target::Number(_))
}

/// Whether the binding is an input that is used.
pub fn is_input(targets: &Names<bool>, roles: &Names<UsedAs>, binding: &Binding) -> bool
    ensures { result ≡ is_input_in targets.now roles.now binding.now }
{
    let name = binding.name.bytes();
    !is_number(&binding.target) && targets.get(name).is_none() && roles.get(name).is_some()
}

// Gives a binding the next number where it is an input that is used, and answers the number behind it.
fn take_number(
    alloc: Global,
    inputs: &mut Names<u32>,
    is_input: bool,
    name: &[u8],
    number: u32,
) -> Result<u32, AllocError>
    requires { number ≤ 1001 }
    ensures { IfOk result (λ next. TakesNumber next inputs.old inputs.new is_input name.now number) }
{
    if !is_input {
        return Ok(number);
    }
    if inputs.get(name).is_some() {
        return Ok(number + 1);
    }
    inputs.set(alloc, name, number)?;
    Ok(number + 1)
}

/// The numbers of the inputs that are used, from the first number on, in the order of their bindings.
pub fn numbers_of(
    alloc: Global,
    bindings: &[Binding],
    targets: &Names<bool>,
    roles: &Names<UsedAs>,
    first: u32,
) -> Result<Names<u32>, AllocError>
    requires bindings { length bindings.now ≤ 1000 }
    requires first { first ≤ 1 }
    ensures { IfOk result (λ numbers. (name : List ℕ) → look numbers.values name ≡ place_from first (filter (is_input_in targets.now roles.now) bindings.now) name) }
{
    let mut inputs = Names::new(alloc);
    let mut number = first;
    for binding in bindings {
        let taken = is_input(targets, roles, binding);
        number = take_number(alloc, &mut inputs, taken, binding.name.bytes(), number)?;
    }
    Ok(inputs)
}
