ghost use Rattle.std.specs.Prelude.{◌≡◌, ◌+◌, ◌≤◌, [], ℕ, IfOk, OnOk, length, map, true};
ghost use Rattle.map_meaning.specs.Limits.{most_inputs};
ghost use Rattle.script_types.specs.Lowered.{is_drain_input};
ghost use Rattle.script_types.specs.Statements.{operations_of};
ghost use Rattle.script_types.specs.inside.Drains.{drain_numbers, input_uses};
ghost use Rattle.script_types.specs.inside.Fits.{Ground, SideFits};
ghost use Rattle.script_types.specs.inside.Nodes.{held_in};
ghost use Rattle.script_types.specs.inside.Values.{EmitsDrain};
ghost use Rattle.script_types.specs.inside.Written.{ListsDrain};

use crate::emit::{At, drain_named, emit, emit_all, operand_at};
use crate::names::Names;
use crate::same::is_kind;
use cell_values::Kind;
use map_meaning::{DrainFrom, DrainUse, InputUse, Operand, Operation, Role, Tree};
use sqlite_items::Items;
use std::alloc::{AllocError, Global};

// Whether an input is a drain map.
fn is_drain_input(input: &InputUse) -> bool
    ensures { result ≡ is_drain_input input.now }
{
    matches!(input.role, Role::Grid) && is_kind(Kind::Ldd, input.kind)
}

/// Writes the drain maps among the inputs, and gives for each input how many of them stand before it.
pub fn write_input_drains(
    alloc: Global,
    drains: &mut Items<DrainUse>,
    inputs: &[InputUse],
) -> Result<Vec<u32>, AllocError>
    requires none { drains.old ≡ [] }
    requires few { length inputs.now ≤ most_inputs }
    ensures drains { OnOk result (drains.new ≡ input_uses 0 inputs.now) }
    ensures numbers { IfOk result (λ numbers. numbers.items ≡ drain_numbers 0 inputs.now) }
{
    let mut numbers = Vec::new(alloc);
    for at in 0..inputs.len() {
        numbers.push(drains.len() as u32)?;
        if is_drain_input(&inputs[at]) {
            drains.push(DrainUse {
                from: DrainFrom::Input(at as u32),
                after: 0,
            })?;
        }
    }
    Ok(numbers)
}

/// Writes the operations of a right side that is a drain map, and gives where it comes from. These are the numbers of the inputs
/// among drain maps.
pub fn emit_drain(
    alloc: Global,
    ops: &mut Items<Operation>,
    numbers: &[u32],
    holders: &Names<Operand>,
    at: At,
    tree: &Tree,
) -> Result<DrainFrom, AllocError>
    requires first { at.first ≤ length ops.old }
    requires room { length ops.old + operations_of tree.now ≤ 8192 }
    ensures listed { IfOk result (λ from. ListsDrain ops.old ops.new at.statement at.first tree.now from) }
    ensures emits { IfOk result (λ from. (g : Ground) → numbers.now ≡ drain_numbers 0 g.inputs → SideFits g tree.now →
        EmitsDrain at.section g (held_in holders.now) ops.old ops.new at.statement at.first tree.now from) }
{
    match tree {
        Tree::Mask { operands } => {
            let found = emit_all(alloc, ops, numbers, holders, at, operands.as_slice())?;
            let of = drain_named(operand_at(found.as_slice(), 0));
            let by = operand_at(found.as_slice(), 1);
            Ok(DrainFrom::Mask { of, by })
        }
        _ => {
            let operand = emit(alloc, ops, numbers, holders, at, tree)?;
            Ok(DrainFrom::Same(drain_named(operand)))
        }
    }
}
