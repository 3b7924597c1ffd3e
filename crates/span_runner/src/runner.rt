//! The runner.

ghost use Rattle.std.specs.Prelude.{◌≡◌, ◌<◌, ◌≤◌, IfOk, ⊤};
ghost use Rattle.std.specs.Arc.{arc_value};
ghost use Rattle.map_meaning.specs.Limits.{most_block};
ghost use Rattle.span_runner.specs.SpanCalls.{CanEvaluate, GivesStage, MayBeAsked};
ghost use Rattle.task_graph.specs.Admitted.{program_too_many};
ghost use Rattle.tile_map.specs.Limits.{longest_tile_side};

use crate::span_call::SpanCall;
use map_meaning::{BlockRunner, Known, Program, Span, StageEnd};
use std::alloc::{AllocError, Global};
use std::sync::Arc;
use task_graph::too_many_tasks;
use tile_map::Tiling;

/// Has each span evaluated by a call, which its maker chose; how many tasks a program may have is judged for tiles of a size, in
/// cells, and for blocks of so many steps.
#[derive(Drop)]
pub struct SpanRunner<F: Fn(SpanCall) -> Result<StageEnd, AllocError>> {
    /// How many rows a tile has.
    pub tile_rows: u32,
    /// How many columns a tile has.
    pub tile_cols: u32,
    /// How many steps a span has at most.
    pub most_steps: u32,
    evaluate: F,
    ghost some_rows: { 0 < tile_rows },
    ghost some_cols: { 0 < tile_cols },
    ghost few_rows: { tile_rows ≤ longest_tile_side },
    ghost few_cols: { tile_cols ≤ longest_tile_side },
    ghost some_steps: { 1 ≤ most_steps },
    ghost few_steps: { most_steps ≤ most_block },
}

// What the runner is asked for, held once more.
fn held(program: &Arc<Program>, span: Span, known: &Arc<Known>) -> Result<SpanCall, AllocError>
    ensures program { IfOk result (λ call. arc_value call.program ≡ program.now.value) }
    ensures span { IfOk result (λ call. call.span ≡ span) }
    ensures known { IfOk result (λ call. arc_value call.known ≡ known.now.value) }
{
    Ok(SpanCall {
        program: Arc::try_clone(program)?,
        span,
        known: Arc::try_clone(known)?,
    })
}

impl<F: Fn(SpanCall) -> Result<StageEnd, AllocError>> SpanRunner<F> {
    // Has the span evaluated.
    fn evaluated(&self, call: SpanCall) -> Result<StageEnd, AllocError>
        requires ready { CanEvaluate (F.pre self.now.evaluate) (F.post self.now.evaluate) self.now.tile_rows self.now.tile_cols self.now.most_steps }
        requires call { MayBeAsked self.now.tile_rows self.now.tile_cols self.now.most_steps call }
        ensures { IfOk result (GivesStage call) }
    {
        let evaluate = &self.evaluate;
        match evaluate(call) {
            Ok(end) => Ok(end),
            Err(refused) => Err(refused),
        }
    }

    /// A runner by tiles of this size, which has spans of at most so many steps evaluated by this call. It keeps nothing between
    /// its runs.
    pub fn new(tile_rows: u32, tile_cols: u32, most_steps: u32, evaluate: F) -> SpanRunner<F>
        requires some_rows { 0 < tile_rows }
        requires some_cols { 0 < tile_cols }
        requires few_rows { tile_rows ≤ longest_tile_side }
        requires few_cols { tile_cols ≤ longest_tile_side }
        requires some_steps { 1 ≤ most_steps }
        requires few_steps { most_steps ≤ most_block }
        ensures rows { result.tile_rows ≡ tile_rows }
        ensures cols { result.tile_cols ≡ tile_cols }
        ensures steps { result.most_steps ≡ most_steps }
        ensures evaluate { result.evaluate ≡ evaluate }
    {
        SpanRunner {
            tile_rows,
            tile_cols,
            most_steps,
            evaluate,
        }
    }
}

impl<F: Fn(SpanCall) -> Result<StageEnd, AllocError>> BlockRunner for SpanRunner<F> {
    ghost ready = { λ r. CanEvaluate (F.pre r.evaluate) (F.post r.evaluate) r.tile_rows r.tile_cols r.most_steps };

    ghost block_of = { λ r. r.most_steps };

    ghost admits = { λ r. program_too_many r.tile_rows r.tile_cols r.most_steps };

    ghost asked = { λ _ _. ⊤ };

    fn admit(&self, program: &Program, rows: u32, cols: u32) -> Option<u64> {
        let tiling = Tiling::new(rows, cols, self.tile_rows, self.tile_cols);
        too_many_tasks(program, &tiling, self.most_steps)
    }

    fn block(&self) -> u32 {
        self.most_steps
    }

    fn run(
        &mut self,
        _alloc: Global,
        program: &Arc<Program>,
        span: Span,
        known: &Arc<Known>,
    ) -> Result<StageEnd, AllocError> {
        let call = held(program, span, known)?;
        self.evaluated(call)
    }
}
