ghost use Rattle.std.specs.Prelude.{◌≡◌, ℕ, ◌*◌, List, [], ◌∷◌, ◌++◌, ◌<◌, ◌≤◌, IfOk, OnOk, None};
ghost use Rattle.std.specs.declared.option.Option.{Option};
ghost use Rattle.text_base.specs.Limits.{most_cells};
ghost use Rattle.map_meaning.specs.declared.program.Program.{Program as TheProgram};
ghost use Rattle.map_meaning.specs.Limits.{most_block};
ghost use Rattle.map_meaning.specs.Programs.{IsWellFormed};
ghost use Rattle.map_meaning.specs.Spans.{RunOf, IsSpan, Knows, stage_of};

use crate::known::{Known, Span, StageEnd};
use crate::program::Program;
use std::alloc::{AllocError, Global};
use std::sync::Arc;

/// What evaluates the spans of a program.
pub trait BlockRunner {
    /// What it needs from its maker: that its threads may be started. No call takes it away.
    ghost ready: { Self → Type 0 };

    /// The most steps of a span.
    ghost block_of: { Self → ℕ };

    /// The number that shows that a program is too large for it at a map size.
    ghost admits: { Self → TheProgram → ℕ → ℕ → Option ℕ };

    /// The test on the list of the runs that it was asked for.
    ghost asked: { Self → List RunOf → Type 0 };

    /// The number that shows that this well-formed program is too large for the runner at this map size, which is within the
    /// limits, or none.
    fn admit(&self, program: &Program, rows: u32, cols: u32) -> Option<u64>
        requires program { IsWellFormed program.now }
        requires some_rows { 0 < rows }
        requires some_cols { 0 < cols }
        requires few { rows * cols ≤ most_cells }
        ensures { result ≡ admits self.now program.now rows cols };

    /// The most steps of a span, from 1 to 64.
    fn block(&self) -> u32
        ensures value { result ≡ block_of self.now }
        ensures some { 1 ≤ result }
        ensures most { result ≤ most_block };

    /// The kept maps of a span's steps before the first Over, and that Over. Want of memory is its only refusal.
    fn run(
        &mut self,
        alloc: Global,
        program: &Arc<Program>,
        span: Span,
        known: &Arc<Known>,
    ) -> Result<StageEnd, AllocError>
        requires ready { ready self.old }
        requires program { IsWellFormed program.now.value }
        requires span { IsSpan program.now.value span (block_of self.old) }
        requires known { Knows program.now.value span known.now.value }
        requires admitted { admits self.old program.now.value known.now.value.rows known.now.value.cols ≡ None }
        ensures value { IfOk result (λ end. end ≡ stage_of program.now.value span known.now.value) }
        ensures ready { ready self.new }
        ensures block { block_of self.new ≡ block_of self.old }
        ensures admits { (p : TheProgram) (rows cols : ℕ) → admits self.new p rows cols ≡ admits self.old p rows cols }
        ensures asked { (before : List RunOf) → asked self.old before
            → OnOk result (asked self.new (before ++ record { program = program.now.value; span = span; known = known.now.value } ∷ [])) };
}
