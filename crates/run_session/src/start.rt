//! Step 0 of a run, and what it is prepared from.

ghost use Rattle.std.specs.Prelude.{◌≡◌, ◌<◌, ◌≤◌, [], None, IfOk};
ghost use Rattle.map_meaning.specs.Programs.{IsWellFormed};
ghost use Rattle.run_session.specs.Steps.{evaluated_run, plan_run};
ghost use Rattle.run_session.specs.inside.Parts.{AreDrainsOf, AreInputsOf, MakesFor};
ghost use Rattle.run_session.specs.inside.Running.{AsksAll, IsStart, IsPrepared};
ghost use Rattle.run_session.specs.inside.Standings.{program_plan};

use crate::ends::Stop;
use crate::loading::Ready;
use crate::outputs::{begin_samples, first_grids, stack_grids};
use crate::reports::put_reports;
use crate::samples::put_samples;
use crate::stacks::stacks_among;
use crate::stages::{StageMaps, run_stages};
use crate::steps::run_on;
use crate::work::{Work, let_go_of_inputs};
use map_meaning::BlockRunner;
use outside_io::Folder;
use std::alloc::{AllocError, Global};

/// What is run of a program over its inputs.
pub fn prepared(alloc: Global, ready: Ready) -> Result<Work, AllocError>
    requires program { IsWellFormed ready.program.value }
    requires inputs { AreInputsOf ready.program.value.inputs ready.inputs }
    requires drains { AreDrainsOf ready.inputs.frame ready.program.value.inputs ready.inputs.maps ready.drains }
    ensures work { IfOk result IsPrepared }
    ensures program { IfOk result (λ work. work.program.value ≡ ready.program.value) }
    ensures inputs { IfOk result (λ work. work.inputs ≡ ready.inputs) }
{
    let stacks = stacks_among(alloc, ready.program.inputs.as_slice())?;
    let firsts = first_grids(alloc, ready.program.outputs.as_slice())?;
    let grids = stack_grids(alloc, ready.program.outputs.as_slice())?;
    Ok(Work {
        program: ready.program,
        inputs: ready.inputs,
        drains: ready.drains,
        stacks,
        firsts,
        grids,
    })
}

// Evaluates the section `initial`, and puts what it reports; its kept maps and all drain maps.
fn start<F: Folder, R: BlockRunner>(
    alloc: Global,
    folder: &mut F,
    runner: &mut R,
    work: &mut Work,
) -> Result<StageMaps, Stop>
    requires ready { R.ready runner.old }
    requires work { IsPrepared work.old }
    requires admitted { R.admits runner.old work.old.program.value work.old.inputs.frame.rows work.old.inputs.frame.cols ≡ None }
    ensures meets { MakesFor (λ reports left. IsStart (R.asked runner.old) (R.asked runner.new) work.old.program.value work.old.inputs left)
        (evaluated_run (program_plan work.old.program.value work.old.inputs) [] 0) (F.state folder.old) (F.state folder.new) result }
    ensures ready { R.ready runner.new }
    ensures block { R.block_of runner.new ≡ R.block_of runner.old }
    ensures steps { work.new.program.value.steps ≡ work.old.program.value.steps }
    ensures more { 0 < work.old.program.value.steps → work.new ≡ work.old }
    ensures admitted { R.admits runner.new work.old.program.value work.old.inputs.frame.rows work.old.inputs.frame.cols ≡ None }
{
    let left = run_stages(alloc, runner, work)?;
    let_go_of_inputs(alloc, work, 0);
    put_reports(
        alloc,
        folder,
        &work.inputs.frame,
        0,
        left.kept.as_slice(),
        left.drains.as_slice(),
        work.firsts.as_slice(),
    )?;
    Ok(left)
}

/// Step 0, and then the steps and the time series. What only evaluation reads is let go before the last outputs are put.
pub fn run_plan<F: Folder, R: BlockRunner>(
    alloc: Global,
    folder: &mut F,
    runner: &mut R,
    work: &mut Work,
) -> Result<(), Stop>
    requires ready { R.ready runner.old }
    requires block { 1 ≤ R.block_of runner.old }
    requires work { IsPrepared work.old }
    requires admitted { R.admits runner.old work.old.program.value work.old.inputs.frame.rows work.old.inputs.frame.cols ≡ None }
    ensures meets { MakesFor (λ t _. AsksAll (R.asked runner.old) (R.asked runner.new) work.old.program.value work.old.inputs t.grids)
        (plan_run (program_plan work.old.program.value work.old.inputs)) (F.state folder.old) (F.state folder.new) result }
    ensures ready { R.ready runner.new }
{
    let mut samples = begin_samples(alloc, &work.program, &work.inputs)?;
    let mut left = start(alloc, folder, runner, work)?;
    if work.program.steps == 0 {
        return put_samples(alloc, folder, samples.as_slice());
    }
    run_on(
        alloc,
        folder,
        runner,
        work,
        &mut left,
        samples.as_mut_slice(),
    )
}
