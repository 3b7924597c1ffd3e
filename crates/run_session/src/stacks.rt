//! Stacks of grids, one for each step.

ghost use Rattle.std.specs.Prelude.{◌≡◌, ◌*◌, ◌≤◌, [], length, IfOk, OnOk};
ghost use Rattle.outside_io.specs.Runs.{in_turn};
ghost use Rattle.outside_io.specs.inside.Parts.{seen_by};
ghost use Rattle.map_meaning.specs.Limits.{most_inputs};
ghost use Rattle.run_session.specs.Steps.{one_more_grid, stacks_among};
ghost use Rattle.run_session.specs.inside.Parts.{Makes};
ghost use Rattle.run_session.specs.inside.Standings.{AddsGrid, AreGridsOf};

use crate::ends::Stop;
use crate::frame::Frame;
use crate::grids::map_at;
use cell_values::{Kind, Word};
use map_meaning::{InputUse, Role, StepMap, stack_file};
use outside_io::Folder;
use sqlite_items::Items;
use std::alloc::{AllocError, Global};

/// A stack that is read.
#[derive(Drop)]
pub struct StackUse {
    /// Its number among the inputs.
    pub input: u32,
    /// How the names of its files begin.
    pub prefix: Word,
    /// The kind of its grids.
    pub kind: Kind,
}

/// The stacks among the inputs, in their order.
pub fn stacks_among(alloc: Global, inputs: &[InputUse]) -> Result<Items<StackUse>, AllocError>
    requires { length inputs.now ≤ most_inputs }
    ensures { IfOk result (λ stacks. stacks ≡ stacks_among 0 inputs.now) }
{
    let mut stacks = Items::new(alloc);
    for n in 0..inputs.len() {
        let input = &inputs[n];
        if let Role::Stack = input.role {
            let prefix = input.file.twin(alloc)?;
            stacks.push(StackUse {
                input: n as u32,
                prefix,
                kind: input.kind,
            })?;
        }
    }
    Ok(stacks)
}

// Reads the grid of one more stack at a step.
fn read_grid<F: Folder>(
    alloc: Global,
    folder: &mut F,
    frame: &Frame,
    step: u32,
    stack: &StackUse,
    grids: &mut Items<StepMap>,
) -> Result<(), Stop>
    ensures meets { Makes (one_more_grid frame.now step grids.old stack.now)
        (F.state folder.old) (F.state folder.new) (seen_by (λ _. grids.new) result) }
    ensures grids { OnOk result (AddsGrid (frame.now.rows * frame.now.cols) step stack.now grids.old grids.new) }
{
    let file = stack_file(alloc, stack.prefix.bytes(), step)?;
    let cells = map_at(alloc, folder, frame, stack.kind, &file)?;
    grids.push(StepMap {
        step,
        operation: stack.input,
        cells,
    })?;
    Ok(())
}

/// Reads the grids of a step, in the order of their stacks.
pub fn read_grids<F: Folder>(
    alloc: Global,
    folder: &mut F,
    frame: &Frame,
    step: u32,
    stacks: &[StackUse],
) -> Result<Items<StepMap>, Stop>
    ensures meets { Makes (in_turn (one_more_grid frame.now step) [] stacks.now) (F.state folder.old) (F.state folder.new) result }
    ensures grids { IfOk result (AreGridsOf (frame.now.rows * frame.now.cols) step stacks.now) }
{
    let mut grids = Items::new(alloc);
    for stack in stacks {
        read_grid(alloc, folder, frame, step, stack, &mut grids)?;
    }
    Ok(grids)
}
