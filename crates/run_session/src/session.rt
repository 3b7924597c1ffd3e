ghost use Rattle.std.specs.Prelude.{◌≡◌, [], IfOk, IfErr, OnOk, Some};
ghost use Rattle.script_syntax.specs.declared.tree.Script.{Script as TheScript};
ghost use Rattle.outside_io.specs.Met.{Meets};
ghost use Rattle.run_session.specs.declared.ends.Halt.TheVariants as halt;
ghost use Rattle.run_session.specs.Asked.{CountsTasks, IfDone, IfTooMany, IsCountOf, WasAsked};
ghost use Rattle.run_session.specs.Course.{Many, script_run, start_run, whole_run};
ghost use Rattle.run_session.specs.Ends.{session_outcome, why};
ghost use Rattle.run_session.specs.inside.Parts.{IfHasMany, MakesWhole, halt_outcome, stop_outcome};
ghost use Rattle.run_session.specs.inside.Running.{IsPrepared};
ghost use Rattle.run_session.specs.inside.Standings.{program_plan};
ghost use Rattle.run_session.specs.inside.Tallies.{HasRun, files_put, tally_of};

use crate::ends::{Halt, SessionEnd, Stop, Tally};
use crate::evaluating::admitted;
use crate::loading::load;
use crate::start::{prepared, run_plan};
use crate::work::Work;
use map_meaning::BlockRunner;
use outside_io::Folder;
use std::alloc::Global;

// What is done once a program is run to its end: each grid of `initial`, each stack at each step and each time series is put.
fn tally(work: &Work) -> Tally
    requires { IsPrepared work.now }
    ensures { result ≡ tally_of (files_put work.now.program.value) work.now.program.value.steps }
{
    let outputs = work.program.outputs.len() as u64;
    let firsts = work.firsts.len() as u64;
    let grids = work.grids.len() as u64;
    let steps = work.program.steps;
    let samples = outputs - firsts - grids;
    Tally {
        files: firsts + steps as u64 * grids + samples,
        steps,
    }
}

// Runs what is prepared.
fn run_start<F: Folder, R: BlockRunner>(
    alloc: Global,
    folder: &mut F,
    runner: &mut R,
    work: &mut Work,
) -> Result<Tally, Halt>
    requires ready { R.ready runner.old }
    requires work { IsPrepared work.old }
    ensures meets { MakesWhole (start_run (R.admits runner.old work.old.program.value work.old.inputs.frame.rows work.old.inputs.frame.cols)
        (program_plan work.old.program.value work.old.inputs)) (F.state folder.old) (F.state folder.new) result }
    ensures run { IfOk result (λ tally. HasRun (R.asked runner.old) (R.asked runner.new) work.old.program.value work.old.inputs
        (F.state folder.old) (F.state folder.new)) }
    ensures many { IfErr result (λ halt. IfHasMany halt (λ count.
        R.admits runner.old work.old.program.value work.old.inputs.frame.rows work.old.inputs.frame.cols ≡ Some count)) }
    ensures ready { R.ready runner.new }
{
    admitted(
        runner,
        &work.program,
        work.inputs.frame.rows,
        work.inputs.frame.cols,
    )?;
    // A runner takes one step at least at a time, and is asked for one.
    let _block = runner.block();
    let done = tally(work);
    run_plan(alloc, folder, runner, work)?;
    Ok(done)
}

// Reads the script of this name and its inputs, and runs it.
fn run_named<F: Folder, R: BlockRunner>(
    alloc: Global,
    folder: &mut F,
    runner: &mut R,
    name: &[u8],
) -> Result<Tally, Halt>
    requires ready { R.ready runner.old }
    ensures meets { (many : TheScript → Many) → CountsTasks (R.admits runner.old) many
        → MakesWhole (whole_run many name.now) (F.state folder.old) (F.state folder.new) result }
    ensures many { (many : TheScript → Many) → CountsTasks (R.admits runner.old) many
        → IfErr result (λ halt. IfHasMany halt (IsCountOf many)) }
    ensures ready { R.ready runner.new }
    ensures asked { let holds = (F.state folder.old).holds in
        R.asked runner.old [] → OnOk result (WasAsked (R.asked runner.new) name.now holds) }
{
    let ready = load(alloc, folder, name)?;
    let mut work = prepared(alloc, ready)?;
    run_start(alloc, folder, runner, &mut work)
}

// The answer for a stop.
fn stop_end(stop: Stop) -> SessionEnd
    ensures outcome { session_outcome result ≡ stop_outcome stop }
    ensures stopped { IfDone result ⊥ }
    ensures few { IfTooMany result (λ _. ⊥) }
{
    match stop {
        Stop::Missing(name) => SessionEnd::Missing(name),
        Stop::TooLong(name) => SessionEnd::TooLong(name),
        Stop::Script(fault) => SessionEnd::Script(fault),
        Stop::Input { name, kind } => SessionEnd::Input { name, kind },
        Stop::Overflow(at) => SessionEnd::Overflow(at),
        Stop::FolderReadFault(name) => SessionEnd::FolderReadFault(name),
        Stop::FolderWriteFault(name) => SessionEnd::FolderWriteFault(name),
        Stop::Memory => SessionEnd::Memory,
    }
}

// The answer for a run that did not come to its end.
fn session_end(at: Halt) -> SessionEnd
    ensures outcome { session_outcome result ≡ halt_outcome at }
    ensures stopped { IfDone result ⊥ }
    ensures many { IfTooMany result (λ count. at ≡ halt.TooManyTasks count) }
{
    match at {
        Halt::TooManyTasks(count) => SessionEnd::TooManyTasks(count),
        Halt::Stopped(stop) => stop_end(stop),
    }
}

/// Runs the script of this name, by the runner, over the files of the folder.
///
/// The script is read, then the area map, then each other input that is no stack in the order of the section `binding`; a drain
/// map is to be sound. The section `initial` is evaluated in stages, one behind each statement of a drain map, and what its
/// statements report is put, in their order, with the head of the area map. Then for each step the grids of its stacks are
/// read, the section `dynamic` is evaluated, and what its statements report is put. At last the time series are put, with a row
/// for each settled step: also where the files end the run at a step, but not after a fault of the folder, nor where step 0 is
/// not settled. After a put that failed nothing more is put.
pub fn run_script<F: Folder, R: BlockRunner>(
    alloc: Global,
    name: &[u8],
    folder: &mut F,
    runner: &mut R,
) -> SessionEnd
    requires ready { R.ready runner.old }
    // Which files are read and put, in which order, with which end, and why each answer comes.
    ensures meets { (many : TheScript → Many) → CountsTasks (R.admits runner.old) many
        → Meets why (script_run many name.now) (F.state folder.old) (F.state folder.new) (session_outcome result) }
    // Too many tasks are told only by a number that a script has for this runner, also where the folder tells no files.
    ensures many { (many : TheScript → Many) → CountsTasks (R.admits runner.old) many → IfTooMany result (IsCountOf many) }
    ensures ready { R.ready runner.new }
    // A runner of block 1 that keeps a record of its runs has those of the script, where this was run to its end.
    ensures asked { let holds = (F.state folder.old).holds in
        R.block_of runner.old ≡ 1 → R.asked runner.old [] → IfDone result (WasAsked (R.asked runner.new) name.now holds) }
{
    match run_named(alloc, folder, runner, name) {
        Ok(tally) => SessionEnd::Done {
            files: tally.files,
            steps: tally.steps,
        },
        Err(halt) => session_end(halt),
    }
}
