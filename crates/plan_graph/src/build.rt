ghost use Rattle.std.specs.Prelude.{◌≡◌, ◌≤◌, [], IfErr, IfOk};
ghost use Rattle.tile_map.specs.Tiles.{tile_count};
ghost use Rattle.map_meaning.specs.Limits.{most_block};
ghost use Rattle.map_meaning.specs.Programs.{IsWellFormed};
ghost use Rattle.map_meaning.specs.Spans.{IsSpan};
ghost use Rattle.task_graph.specs.Counts.{span_tasks};
ghost use Rattle.task_graph.specs.Ends.{IsEndAt};
ghost use Rattle.task_graph.specs.Limits.{most_tasks};
ghost use Rattle.task_graph.specs.Plans.{span_plan};
ghost use Rattle.plan_graph.specs.Borders.{HasDrainsOf};
ghost use Rattle.plan_graph.specs.PlanGraphs.{IsLocal, IsPlanOf, with_drains};
ghost use Rattle.plan_graph.specs.inside.Kept.{CanKeep};

use crate::borders::Borders;
use crate::channels::channels_of;
use crate::graph::PlanGraph;
use crate::joined::made_joints;
use crate::transports::transports_of;
use map_meaning::{Known, Program, SharedDrain, Span};
use sqlite_items::Items;
use std::alloc::{AllocError, Global};
use task_graph::{Plan, PlanEnd, build_plan};
use tile_map::Tiling;

// The same drain maps, held once more.
fn shared_drains(alloc: Global, drains: &[SharedDrain]) -> Result<Items<SharedDrain>, AllocError>
    ensures { IfOk result (λ shared. shared ≡ drains.now) }
{
    let mut shared = Items::new(alloc);
    for drain in drains {
        shared.push(drain.share()?)?;
    }
    Ok(shared)
}

// The plan with its graph, and with the drain maps that are known.
fn with_graph(alloc: Global, span: Span, plan: Plan, known: &Known) -> Result<PlanGraph, AllocError>
    requires { CanKeep span plan known.now.drains }
    ensures { IfOk result (λ graph. graph ≡ with_drains span plan known.now.drains) }
{
    let drains = shared_drains(alloc, known.drains.as_slice())?;
    let borders = Borders::make(alloc, known, &plan)?;
    let joints = made_joints(alloc, known, &plan, &borders)?;
    let channels = channels_of(alloc, plan.flows(), &joints)?;
    let transports = transports_of(alloc, &plan)?;
    Ok(PlanGraph {
        span,
        plan,
        drains,
        borders,
        joints,
        channels,
        transports,
    })
}

/// The plan of a span with its graph.
pub fn build_graph(
    alloc: Global,
    program: &Program,
    span: Span,
    tiling: &Tiling,
    known: &Known,
) -> Result<PlanGraph, PlanEnd>
    requires program { IsWellFormed program.now }
    requires span { IsSpan program.now span most_block }
    requires drains { HasDrainsOf (span_plan program.now span tiling.now) known.now.drains }
    ensures plan { IfOk result (λ graph. (span_tasks (tile_count tiling.now) program.now span ≤ most_tasks) × (graph.span ≡ span)) }
    ensures of { IfOk result (IsPlanOf program.now known.now tiling.now) }
    ensures local { (span_plan program.now span tiling.now).flows ≡ [] → IfOk result IsLocal }
    ensures end { IfErr result (IsEndAt (span_tasks (tile_count tiling.now) program.now span)) }
{
    let plan = build_plan(alloc, program, span, tiling)?;
    match with_graph(alloc, span, plan, known) {
        Ok(graph) => Ok(graph),
        Err(_) => Err(PlanEnd::Memory),
    }
}
