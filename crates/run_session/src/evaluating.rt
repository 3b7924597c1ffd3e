//! What the runner is asked for.

ghost use Rattle.std.specs.Prelude.{◌≡◌, ◌++◌, ◌∷◌, [], ℕ, List, None, Some, IfOk, IfErr, OnOk};
ghost use Rattle.outside_io.specs.Causes.{outcome_by, why_by};
ghost use Rattle.outside_io.specs.inside.Parts.{Settles};
ghost use Rattle.grid_text.specs.Form.{IsSize};
ghost use Rattle.map_meaning.specs.declared.program.Program.{Program as TheProgram};
ghost use Rattle.map_meaning.specs.Programs.{IsWellFormed};
ghost use Rattle.map_meaning.specs.Spans.{IsSpan, Knows, RunOf, stage_of};
ghost use Rattle.run_session.specs.Course.{or_too_many};
ghost use Rattle.run_session.specs.Ends.{why};
ghost use Rattle.run_session.specs.inside.Parts.{GivesEnd, IfHasMany, halt_outcome};
ghost use Rattle.run_session.specs.inside.Standings.{stage_result};

use crate::ends::{Halt, Stop};
use map_meaning::{BlockRunner, Known, Program, Span, StageEnd, StepMap};
use sqlite_items::Items;
use std::alloc::Global;
use std::sync::Arc;

/// A program that is too large for the runner ends the run.
pub fn admitted<R: BlockRunner>(
    runner: &R,
    program: &Program,
    rows: u32,
    cols: u32,
) -> Result<(), Halt>
    requires program { IsWellFormed program.now }
    requires size { IsSize rows cols }
    ensures settles { Settles (why_by why) (or_too_many (R.admits runner.now program.now rows cols)) (outcome_by halt_outcome result) }
    ensures none { IfOk result (λ _. R.admits runner.now program.now rows cols ≡ None) }
    ensures many { IfErr result (λ halt. IfHasMany halt (λ count. R.admits runner.now program.now rows cols ≡ Some count)) }
{
    match runner.admit(program, rows, cols) {
        None => Ok(()),
        Some(count) => Err(Halt::TooManyTasks(count)),
    }
}

/// Has the runner evaluate a span.
pub fn evaluate<R: BlockRunner>(
    alloc: Global,
    runner: &mut R,
    program: &Arc<Program>,
    span: Span,
    known: &Arc<Known>,
) -> Result<Items<StepMap>, Stop>
    requires ready { R.ready runner.old }
    requires program { IsWellFormed program.now.value }
    requires span { IsSpan program.now.value span (R.block_of runner.old) }
    requires known { Knows program.now.value span known.now.value }
    requires admitted { R.admits runner.old program.now.value known.now.value.rows known.now.value.cols ≡ None }
    ensures settles { GivesEnd (stage_result (stage_of program.now.value span known.now.value)) result }
    ensures ready { R.ready runner.new }
    ensures block { R.block_of runner.new ≡ R.block_of runner.old }
    ensures admits { (p : TheProgram) (rows cols : ℕ) → R.admits runner.new p rows cols ≡ R.admits runner.old p rows cols }
    ensures asked { (before : List RunOf) → R.asked runner.old before
        → OnOk result (R.asked runner.new (before ++ record { program = program.now.value; span = span; known = known.now.value } ∷ [])) }
{
    let StageEnd { maps, over } = runner.run(alloc, program, span, known)?;
    match over {
        None => Ok(maps),
        Some(at) => Err(Stop::Overflow(at)),
    }
}
