//! What the holder of a task makes of the tiles that it reads, away from the board.

ghost use Rattle.std.specs.Prelude.{◌≡◌, ◌<◌, IfOk, false, true};
ghost use Rattle.std.specs.Arc.{arc_value};
ghost use Rattle.std.specs.List.{AllZip};
ghost use Rattle.flow_task.specs.Kits.{KnowsAll};
ghost use Rattle.map_meaning.specs.Table.{is_transport};
ghost use Rattle.plan_graph.specs.PlanGraphs.{IsPlan, graph_of, list_at};
ghost use Rattle.task_tiles.specs.FlowTiles.{IsFlowBegun};
ghost use Rattle.task_tiles.specs.TaskTiles.{IsPlanned, IsTaskTile};

use flow_task::FlowKit;
use map_meaning::{Known, Program};
use plan_graph::PlanGraph;
use std::alloc::{AllocError, Global};
use std::sync::Arc;
use task_tiles::Tile;
use tile_tasks::{begin_flow, run_task};

/// The tile of a task that is no transport's, from the tiles of its needs in their order. Want of memory is its only refusal.
pub fn task_tile(
    alloc: Global,
    plan: &PlanGraph,
    program: &Program,
    known: &Known,
    task: u32,
    tiles: &[Arc<Tile>],
) -> Result<Arc<Tile>, AllocError>
    requires plan { IsPlan plan.now }
    requires planned { IsPlanned plan.now.plan plan.now.span program.now known.now }
    requires task { task < plan.now.tasks }
    requires local { (graph_of plan.now).is_flow task ≡ false }
    requires tiles { AllZip (λ a n. IsTaskTile plan.now.plan plan.now.span program.now known.now n (arc_value a)) tiles.now (list_at plan.now.needs task) }
    ensures { IfOk result (λ tile. IsTaskTile plan.now.plan plan.now.span program.now known.now task (arc_value tile)) }
{
    let tile = run_task(alloc, plan.plan(), plan.span(), program, known, task, tiles)?;
    let tile = Arc::new(alloc, tile)?;
    Ok(tile)
}

/// The work that a task of a transport begins, with the tiles of its needs in their order. Want of memory is its only refusal.
pub fn task_work<K: FlowKit>(
    alloc: Global,
    kit: K,
    plan: &PlanGraph,
    program: &Program,
    known: &Known,
    task: u32,
    tiles: &[Arc<Tile>],
) -> Result<K::Work, AllocError>
    requires kit { KnowsAll is_transport (K.known kit) }
    requires plan { IsPlan plan.now }
    requires planned { IsPlanned plan.now.plan plan.now.span program.now known.now }
    requires drains { plan.now.drains ≡ known.now.drains }
    requires task { task < plan.now.tasks }
    requires flow { (graph_of plan.now).is_flow task ≡ true }
    requires tiles { AllZip (λ a n. IsTaskTile plan.now.plan plan.now.span program.now known.now n (arc_value a)) tiles.now (list_at plan.now.needs task) }
    ensures { IfOk result (λ w. IsFlowBegun plan.now.plan plan.now.span program.now known.now task (K.work_of w)) }
{
    let work = begin_flow(
        alloc,
        &kit,
        plan.plan(),
        plan.span(),
        program,
        known,
        plan.edges(task),
        plan.edges_into(task),
        plan.edges_out_of(task),
        task,
        tiles,
    )?;
    Ok(work)
}
