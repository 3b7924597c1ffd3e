//! One step of a run.

ghost use Rattle.std.specs.Prelude.{◌≡◌, ◌⊎◌, ◌<◌, ◌≤◌, ◌-◌, ℕ, map, None, IfErr, OnOk};
ghost use Rattle.map_meaning.specs.declared.program.Program.{Program as TheProgram};
ghost use Rattle.run_session.specs.Steps.{Standing, step_run};
ghost use Rattle.run_session.specs.inside.Parts.{CutsOff, MakesFor};
ghost use Rattle.run_session.specs.inside.Running.{HasStanding, StepStands, IsStanding, IsPrepared};
ghost use Rattle.run_session.specs.inside.Standings.{AscendFrom, IsOrdered, program_plan, with_held_row};

use crate::ends::Stop;
use crate::evaluating::evaluate;
use crate::inputs::Inputs;
use crate::known::shared_known;
use crate::reports::put_reports;
use crate::samples::{Sample, add_rows};
use crate::stacks::read_grids;
use crate::stages::StageMaps;
use crate::work::{Work, let_go_of_inputs};
use map_meaning::{BlockRunner, Known, Span, StepMap};
use outside_io::Folder;
use sqlite_items::Items;
use std::alloc::{AllocError, Global};
use std::sync::Arc;

// Notes the rows of a step. What is known at it is let go: the grids of its stacks, and the maps of the step before.
fn note_rows(
    alloc: Global,
    known: Arc<Known>,
    maps: &[StepMap],
    step: u32,
    samples: &mut [Sample],
) -> Result<(), AllocError>
    requires ordered { IsOrdered known.value }
    requires ascend { AscendFrom 0 maps.now }
    ensures { OnOk result (samples.new ≡ map (with_held_row known.value maps.now step) samples.old) }
{
    add_rows(alloc, &known, maps, step, samples)
}

// Lets go of all that only evaluation reads, where no step comes after this one.
fn let_go(alloc: Global, work: &mut Work, left: &mut StageMaps, step: u32)
    ensures program { work.new.program ≡ work.old.program }
    ensures frame { work.new.inputs.frame ≡ work.old.inputs.frame }
    ensures grids { work.new.grids ≡ work.old.grids }
    ensures drains { left.new.drains ≡ left.old.drains }
    ensures more { step < work.old.program.value.steps → (work.new ≡ work.old) × (left.new ≡ left.old) }
{
    if step >= work.program.steps {
        left.kept = Items::new(alloc);
    }
    let_go_of_inputs(alloc, work, step);
}

/// Reads, evaluates and puts one step after others.
pub fn step_on<F: Folder, R: BlockRunner>(
    alloc: Global,
    folder: &mut F,
    runner: &mut R,
    work: &mut Work,
    step: u32,
    left: &mut StageMaps,
    last: Items<StepMap>,
    samples: &mut [Sample],
) -> Result<Items<StepMap>, Stop>
    requires ready { R.ready runner.old }
    requires block { 1 ≤ R.block_of runner.old }
    requires work { IsPrepared work.old }
    requires admitted { R.admits runner.old work.old.program.value work.old.inputs.frame.rows work.old.inputs.frame.cols ≡ None }
    requires some { 1 ≤ step }
    requires there { step ≤ work.old.program.value.steps }
    requires standing { HasStanding work.old.program.value work.old.inputs (step - 1) left.old last samples.old }
    ensures meets { (s : Standing) → IsStanding work.old.program.value work.old.inputs (step - 1) s left.old last samples.old
        → MakesFor (λ t maps. StepStands (R.asked runner.old) (R.asked runner.new) work.old.program.value work.old.inputs step s t left.old maps samples.new)
        (step_run (program_plan work.old.program.value work.old.inputs) s step) (F.state folder.old) (F.state folder.new) result }
    ensures samples { IfErr result (λ stop. CutsOff stop ⊎ (samples.new ≡ samples.old)) }
    ensures ready { R.ready runner.new }
    ensures block { R.block_of runner.new ≡ R.block_of runner.old }
    ensures more { step < work.old.program.value.steps → (work.new ≡ work.old) × (left.new ≡ left.old) }
    ensures admits { (p : TheProgram) (rows cols : ℕ) → R.admits runner.new p rows cols ≡ R.admits runner.old p rows cols }
{
    let grids = read_grids(
        alloc,
        folder,
        &work.inputs.frame,
        step,
        work.stacks.as_slice(),
    )?;
    let known = shared_known(alloc, &work.inputs, left, grids, last)?;
    let span = Span::Steps {
        first: step,
        last: step,
    };
    let maps = evaluate(alloc, runner, &work.program, span, &known)?;
    note_rows(alloc, known, maps.as_slice(), step, samples)?;
    let_go(alloc, work, left, step);
    put_reports(
        alloc,
        folder,
        &work.inputs.frame,
        step,
        maps.as_slice(),
        left.drains.as_slice(),
        work.grids.as_slice(),
    )?;
    Ok(maps)
}
