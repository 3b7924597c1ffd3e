ghost use Rattle.run_session.specs.Course.{load_run};
ghost use Rattle.run_session.specs.inside.Parts.{IsReady, MakesFor};

use crate::ends::Stop;
use crate::inputs::{Inputs, read_inputs};
use crate::script::read_program;
use map_meaning::{Program, SharedDrain};
use outside_io::Folder;
use sqlite_items::Items;
use std::alloc::Global;
use std::sync::Arc;

/// A program and its inputs, all read.
#[derive(Drop)]
pub struct Ready {
    pub program: Arc<Program>,
    pub inputs: Inputs,
    /// For each input the drain map that it is, if it is one.
    pub drains: Items<Option<SharedDrain>>,
}

/// Reads a script, and then its inputs.
pub fn load<F: Folder>(alloc: Global, folder: &mut F, name: &[u8]) -> Result<Ready, Stop>
    ensures { MakesFor IsReady (load_run name.now) (F.state folder.old) (F.state folder.new) result }
{
    let program = read_program(alloc, folder, name)?;
    let sources = read_inputs(alloc, folder, &program)?;
    Ok(Ready {
        program,
        inputs: sources.inputs,
        drains: sources.drains,
    })
}
