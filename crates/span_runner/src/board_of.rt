//! The board of a span.

ghost use Rattle.std.specs.Prelude.{◌≡◌, ◌≤◌, IfOk};
ghost use Rattle.tile_map.specs.Tiles.{tile_count};
ghost use Rattle.flow_task.specs.Kits.{KnowsAll};
ghost use Rattle.map_meaning.specs.Limits.{most_block};
ghost use Rattle.map_meaning.specs.Programs.{IsWellFormed};
ghost use Rattle.map_meaning.specs.Spans.{IsSpan};
ghost use Rattle.map_meaning.specs.Table.{is_transport};
ghost use Rattle.plan_graph.specs.Borders.{HasDrainsOf};
ghost use Rattle.plan_graph.specs.PlanGraphs.{IsPlanOf};
ghost use Rattle.span_runner.specs.SpanCalls.{IsBoardOf, MayBeAsked};
ghost use Rattle.task_graph.specs.Counts.{span_tasks};
ghost use Rattle.task_graph.specs.Limits.{most_tasks};
ghost use Rattle.task_graph.specs.Plans.{span_plan};

use crate::span_call::SpanCall;
use flow_task::FlowKit;
use map_meaning::{Known, Program, Span};
use plan_graph::{PlanGraph, build_graph, transports_have_their_drains};
use std::alloc::{AllocError, Global};
use std::sync::Arc;
use task_board::Board;
use task_graph::PlanEnd;
use tile_map::Tiling;

// The plan of a span that has no more tasks than a plan may have.
fn planned(
    alloc: Global,
    program: &Program,
    span: Span,
    tiling: &Tiling,
    known: &Known,
) -> Result<PlanGraph, AllocError>
    requires program { IsWellFormed program.now }
    requires span { IsSpan program.now span most_block }
    requires drains { HasDrainsOf (span_plan program.now span tiling.now) known.now.drains }
    requires few { span_tasks (tile_count tiling.now) program.now span ≤ most_tasks }
    ensures span { IfOk result (λ graph. graph.span ≡ span) }
    ensures of { IfOk result (IsPlanOf program.now known.now tiling.now) }
{
    match build_graph(alloc, program, span, tiling, known) {
        Ok(graph) => Ok(graph),
        Err(PlanEnd::TooManyTasks { .. }) => unreachable!(),
        Err(PlanEnd::Memory) => Err(AllocError),
    }
}

/// The board of a span by tiles of this size, for the caller and so many workers beside it, on which nothing was done.
///
/// `_block` is the most steps of the spans that are asked for.
#[tactic(auto, using(crate::proofs::SpanLemmas::wider))]
pub fn make_board<K: FlowKit>(
    alloc: Global,
    kit: K,
    call: SpanCall,
    tile_rows: u32,
    tile_cols: u32,
    _block: u32,
    workers: u32,
) -> Result<Board<K>, AllocError>
    requires call { MayBeAsked tile_rows tile_cols _block call }
    requires block { _block ≤ most_block }
    requires kit { KnowsAll is_transport (K.known kit) }
    requires workers { workers ≤ 64 }
    ensures { IfOk result (IsBoardOf call tile_rows tile_cols workers) }
{
    transports_have_their_drains();
    let SpanCall {
        program,
        span,
        known,
    } = call;
    let tiling = Tiling::new(known.rows, known.cols, tile_rows, tile_cols);
    let plan = planned(alloc, &program, span, &tiling, &known)?;
    let plan = Arc::new(alloc, plan)?;
    let board = Board::make(alloc, kit, plan, program, known, workers)?;
    Ok(board)
}
