//! What is run, and what of it is let go.

ghost use Rattle.std.specs.Prelude.{◌≡◌, ◌<◌};

use crate::inputs::Inputs;
use crate::stacks::StackUse;
use map_meaning::{OutputUse, Program, SharedDrain};
use sqlite_items::Items;
use std::alloc::Global;
use std::sync::Arc;

/// What is run over its inputs.
#[derive(Drop)]
pub struct Work {
    pub program: Arc<Program>,
    pub inputs: Inputs,
    /// For each input the drain map that it is, if it is one.
    pub drains: Items<Option<SharedDrain>>,
    /// The stacks among the inputs.
    pub stacks: Items<StackUse>,
    /// The outputs that are grids of `initial`.
    pub firsts: Items<OutputUse>,
    /// The outputs that are stacks.
    pub grids: Items<OutputUse>,
}

/// Lets go of what the inputs gave, where no step comes after this one: what is left of a run is only put.
pub fn let_go_of_inputs(alloc: Global, work: &mut Work, step: u32)
    ensures program { work.new.program ≡ work.old.program }
    ensures frame { work.new.inputs.frame ≡ work.old.inputs.frame }
    ensures firsts { work.new.firsts ≡ work.old.firsts }
    ensures grids { work.new.grids ≡ work.old.grids }
    ensures more { step < work.old.program.value.steps → work.new ≡ work.old }
{
    if step >= work.program.steps {
        work.inputs.maps = Items::new(alloc);
        work.inputs.tables = Items::new(alloc);
        work.inputs.series = Items::new(alloc);
        work.drains = Items::new(alloc);
    }
}
