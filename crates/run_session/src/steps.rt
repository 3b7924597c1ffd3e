//! The steps of a run, and the time series of those that were settled.

ghost use Rattle.std.specs.Prelude.{◌≡◌, ◌⊎◌, ◌≤◌, [], All, None, IsErrAnd, true, false};
ghost use Rattle.run_session.specs.Steps.{standing_at_start, steps_and_series, steps_run};
ghost use Rattle.run_session.specs.inside.Parts.{CutsOff, MakesFor};
ghost use Rattle.run_session.specs.inside.Running.{AsksFrom, IsStanding, IsPrepared, MakesSteps};
ghost use Rattle.run_session.specs.inside.Standings.{IsWritable, program_plan};

use crate::ends::Stop;
use crate::samples::{Sample, put_samples};
use crate::stages::StageMaps;
use crate::step::step_on;
use crate::work::Work;
use map_meaning::BlockRunner;
use outside_io::Folder;
use sqlite_items::Items;
use std::alloc::Global;

// The steps, one by one. Where they stop by the files, the time series have a row for each step that was settled.
fn run_steps<F: Folder, R: BlockRunner>(
    alloc: Global,
    folder: &mut F,
    runner: &mut R,
    work: &mut Work,
    left: &mut StageMaps,
    samples: &mut [Sample],
) -> Result<(), Stop>
    requires ready { R.ready runner.old }
    requires block { 1 ≤ R.block_of runner.old }
    requires work { IsPrepared work.old }
    requires admitted { R.admits runner.old work.old.program.value work.old.inputs.frame.rows work.old.inputs.frame.cols ≡ None }
    requires standing { IsStanding work.old.program.value work.old.inputs 0
        (standing_at_start (program_plan work.old.program.value work.old.inputs)) left.old [] samples.old }
    ensures meets { MakesSteps (λ t. AsksFrom (R.asked runner.old) (R.asked runner.new) work.old.program.value work.old.inputs t.grids) samples.new
        (steps_run (program_plan work.old.program.value work.old.inputs) (standing_at_start (program_plan work.old.program.value work.old.inputs)) 1 work.old.program.value.steps)
        (F.state folder.old) (F.state folder.new) result }
    ensures written { IsErrAnd result CutsOff ⊎ All IsWritable samples.new }
    ensures ready { R.ready runner.new }
{
    let mut last = Items::new(alloc);
    for step in 0..work.program.steps {
        last = step_on(alloc, folder, runner, work, step + 1, left, last, samples)?;
    }
    Ok(())
}

// Whether the files, and no fault of the folder, stopped a run.
fn is_by_files(stop: &Stop) -> bool
    ensures yes { result ≡ true → CutsOff stop.now → ⊥ }
    ensures no { result ≡ false → CutsOff stop.now }
{
    match stop {
        Stop::FolderReadFault(_) | Stop::FolderWriteFault(_) | Stop::Memory => false,
        _ => true,
    }
}

/// The steps behind `initial`, and then the time series of those that were settled, whichever way the steps ended.
pub fn run_on<F: Folder, R: BlockRunner>(
    alloc: Global,
    folder: &mut F,
    runner: &mut R,
    work: &mut Work,
    left: &mut StageMaps,
    samples: &mut [Sample],
) -> Result<(), Stop>
    requires ready { R.ready runner.old }
    requires block { 1 ≤ R.block_of runner.old }
    requires work { IsPrepared work.old }
    requires admitted { R.admits runner.old work.old.program.value work.old.inputs.frame.rows work.old.inputs.frame.cols ≡ None }
    requires standing { IsStanding work.old.program.value work.old.inputs 0
        (standing_at_start (program_plan work.old.program.value work.old.inputs)) left.old [] samples.old }
    ensures meets { MakesFor (λ t _. AsksFrom (R.asked runner.old) (R.asked runner.new) work.old.program.value work.old.inputs t.grids)
        (steps_and_series (program_plan work.old.program.value work.old.inputs) (standing_at_start (program_plan work.old.program.value work.old.inputs)) 1 work.old.program.value.steps)
        (F.state folder.old) (F.state folder.new) result }
    ensures ready { R.ready runner.new }
{
    match run_steps(alloc, folder, runner, work, left, samples) {
        Ok(()) => put_samples(alloc, folder, samples),
        Err(stop) => {
            if !is_by_files(&stop) {
                return Err(stop);
            }
            put_samples(alloc, folder, samples)?;
            Err(stop)
        }
    }
}
