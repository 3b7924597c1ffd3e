//! The section `initial`, stage by stage.

ghost use Rattle.std.specs.Prelude.{◌≡◌, ◌≤◌, [], ℕ, length, None, IfErr, IfOk, OnOk};
ghost use Rattle.map_meaning.specs.Programs.{IsWellFormed};
ghost use Rattle.map_meaning.specs.Spans.{IsInStage, is_computed};
ghost use Rattle.map_meaning.specs.declared.program.Program.{Program as TheProgram};
ghost use Rattle.run_session.specs.inside.Parts.{StopsAt};
ghost use Rattle.run_session.specs.inside.Running.{IsPrepared, IsStart};
ghost use Rattle.run_session.specs.inside.Stages.{AreDue, AsksStage, HasLeft, initial_or_end};

use crate::ends::Stop;
use crate::evaluating::evaluate;
use crate::known::shared_known;
use crate::masks::drain_map;
use crate::work::Work;
use map_meaning::{BlockRunner, DrainFrom, SharedDrain, Span, StepMap};
use sqlite_items::Items;
use std::alloc::{AllocError, Global};

/// What the stages of `initial` leave.
#[derive(Drop)]
pub struct StageMaps {
    /// The maps that are kept of them, by ascending numbers of operations.
    pub kept: Items<StepMap>,
    /// The drain maps, by their numbers.
    pub drains: Items<SharedDrain>,
}

// Computes the drain maps that are due once so many operations of `initial` are done, in their order.
fn add_due(alloc: Global, work: &Work, first: u32, left: &mut StageMaps) -> Result<(), AllocError>
    requires work { IsPrepared work.now }
    requires left { HasLeft work.now.program.value work.now.inputs first left.old }
    ensures left { OnOk result (HasLeft work.now.program.value work.now.inputs first left.new) }
    ensures due { OnOk result (AreDue work.now.program.value first left.new) }
{
    let uses = work.program.drains.as_slice();
    for n in left.drains.len()..uses.len() {
        let one = uses[n];
        if first < one.after {
            return Ok(());
        }
        let drain = drain_map(alloc, work, left, one.from)?;
        left.drains.push(drain)?;
    }
    Ok(())
}

// Evaluates one stage of `initial`, over the drain maps that are due by its first operation.
fn run_stage<R: BlockRunner>(
    alloc: Global,
    runner: &mut R,
    work: &Work,
    first: u32,
    end: u32,
    left: &mut StageMaps,
) -> Result<(), Stop>
    requires ready { R.ready runner.old }
    requires work { IsPrepared work.now }
    requires admitted { R.admits runner.old work.now.program.value work.now.inputs.frame.rows work.now.inputs.frame.cols ≡ None }
    requires stage { IsInStage work.now.program.value first end }
    requires left { HasLeft work.now.program.value work.now.inputs first left.old }
    ensures stops { IfErr result (StopsAt (initial_or_end work.now.program.value work.now.inputs)) }
    ensures left { OnOk result (HasLeft work.now.program.value work.now.inputs end left.new) }
    ensures due { OnOk result (AreDue work.now.program.value first left.new) }
    ensures asks { OnOk result (AsksStage (R.asked runner.old) (R.asked runner.new) work.now.program.value work.now.inputs first end) }
    ensures ready { R.ready runner.new }
    ensures block { R.block_of runner.new ≡ R.block_of runner.old }
    ensures admits { (p : TheProgram) (rows cols : ℕ) → R.admits runner.new p rows cols ≡ R.admits runner.old p rows cols }
{
    add_due(alloc, work, first, left)?;
    let known = shared_known(
        alloc,
        &work.inputs,
        left,
        Items::new(alloc),
        Items::new(alloc),
    )?;
    let span = Span::Initial { first, end };
    let maps = evaluate(alloc, runner, &work.program, span, &known)?;
    left.kept.append(maps)?;
    Ok(())
}

// Whether a drain map is computed by a statement.
fn is_computed(from: DrainFrom) -> bool
    ensures { result ≡ is_computed from }
{
    !matches!(from, DrainFrom::Input(_))
}

/// Evaluates the section `initial`: one stage behind each drain map that a statement gives, and one before the first of them.
///
/// A stage costs its operations, and one entry for each map, table, series and drain map that is shared.
pub fn run_stages<R: BlockRunner>(
    alloc: Global,
    runner: &mut R,
    work: &Work,
) -> Result<StageMaps, Stop>
    requires ready { R.ready runner.old }
    requires work { IsPrepared work.now }
    requires admitted { R.admits runner.old work.now.program.value work.now.inputs.frame.rows work.now.inputs.frame.cols ≡ None }
    ensures stops { IfErr result (StopsAt (initial_or_end work.now.program.value work.now.inputs)) }
    ensures start { IfOk result (IsStart (R.asked runner.old) (R.asked runner.new) work.now.program.value work.now.inputs) }
    ensures ready { R.ready runner.new }
    ensures block { R.block_of runner.new ≡ R.block_of runner.old }
    ensures admits { (p : TheProgram) (rows cols : ℕ) → R.admits runner.new p rows cols ≡ R.admits runner.old p rows cols }
{
    let mut left = StageMaps {
        kept: Items::new(alloc),
        drains: Items::new(alloc),
    };
    let uses = work.program.drains.as_slice();
    let mut first = 0;
    for n in 0..uses.len() {
        let one = uses[n];
        if is_computed(one.from) {
            run_stage(alloc, runner, work, first, one.after, &mut left)?;
            first = one.after;
        }
    }
    let end = work.program.initial.len() as u32;
    run_stage(alloc, runner, work, first, end, &mut left)?;
    Ok(left)
}
