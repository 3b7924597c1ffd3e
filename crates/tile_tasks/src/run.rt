//! A task of a plan.

ghost use Rattle.std.specs.Prelude.{◌≡◌, ◌<◌, ℕ, false, length, map, IfOk};
ghost use Rattle.std.specs.Arc.{arc_value};
ghost use Rattle.std.specs.List.{AllZip};
ghost use Rattle.map_meaning.specs.Evaluation.{Done};
ghost use Rattle.plan_graph.specs.Graphs.{is_flow_work};
ghost use Rattle.span_operands.specs.declared.scope.Scope.TheVariants as scopes;
ghost use Rattle.task_graph.specs.Plans.{needs_at, task_at};
ghost use Rattle.task_graph.specs.declared.task.Work.TheVariants as works;
ghost use Rattle.task_tiles.specs.TaskTiles.{IsPlanned, IsTaskTile, IsWorkTile, span_section};
ghost use Rattle.tile_tasks.specs.inside.Tasks.{SomeDone};
ghost use Rattle.tile_tasks.specs.inside.Runs.{CanRun, ReadsFor, SuitsScope};

use crate::areas::merged;
use crate::halo::{near_tile, window_tile};
use crate::local::local_tile;
use crate::zones::{partial_task, spread_task, zone_op};
use drain_meaning::NearOp;
use map_meaning::{Known, Operation, Program, Span};
use region_meaning::WindowOp;
use span_operands::{Scope, scope_of};
use std::alloc::{AllocError, Global};
use std::sync::Arc;
use task_graph::{Plan, Work};
use task_laws::tiles_of_operations_are_cuts;
use task_tiles::Tile;
use tile_map::Tiling;

/// The operations of the section that a span is of.
pub(crate) fn section<'a>(program: &'a Program, span: Span) -> &'a [Operation]
    ensures { result.now ≡ span_section program.now span }
{
    match span {
        Span::Initial { .. } => program.initial.as_slice(),
        Span::Steps { .. } => program.dynamic.as_slice(),
    }
}

// What is done with windows.
fn window_op(scope: Scope) -> WindowOp
    requires { SuitsScope works.Window scope }
    ensures { scope ≡ scopes.Focal result }
{
    match scope {
        Scope::Focal(op) => op,
        _ => unreachable!(),
    }
}

// What is done one step up or down stream.
fn near_op(scope: Scope) -> NearOp
    requires { SuitsScope works.Near scope }
    ensures { scope ≡ scopes.Near result }
{
    match scope {
        Scope::Near(op) => op,
        _ => unreachable!(),
    }
}

// The tile of an operation's work.
fn run_work(
    alloc: Global,
    work: Work,
    scope: Scope,
    program: &Program,
    operation: Operation,
    span: Span,
    step: u32,
    known: &Known,
    tiling: &Tiling,
    tile: u32,
    tiles: &[Arc<Tile>],
) -> Result<Tile, AllocError>
    requires run { CanRun program.now span known.now tiling.now step tile operation work scope }
    requires reads { SomeDone (ReadsFor work scope program.now span known.now tiling.now step tile operation (map arc_value tiles.now)) }
    ensures { IfOk result (λ t. (done : Done) → ReadsFor work scope program.now span known.now tiling.now step tile operation (map arc_value tiles.now) done → IsWorkTile program.now known.now tiling.now step done operation work tile t) }
{
    match work {
        Work::Local => Ok(Tile::of_part(local_tile(
            alloc, program, operation, span, step, known, tiling, tile, tiles,
        )?)),
        Work::Window => Ok(Tile::of_part(window_tile(
            alloc,
            window_op(scope),
            program,
            operation,
            span,
            step,
            known,
            tiling,
            tile,
            tiles,
        )?)),
        Work::Near => Ok(Tile::of_part(near_tile(
            alloc,
            near_op(scope),
            program,
            operation,
            span,
            step,
            known,
            tiling,
            tile,
            tiles,
        )?)),
        Work::Partial => Ok(Tile::Partial(partial_task(
            alloc, scope, program, operation, span, step, known, tiling, tile, tiles,
        )?)),
        Work::Merge => Ok(Tile::Partial(merged(alloc, zone_op(scope), tiling, tiles)?)),
        Work::Spread => Ok(Tile::of_part(spread_task(
            alloc, scope, program, operation, span, step, known, tiling, tile, tiles,
        )?)),
        Work::Flow => unreachable!(),
    }
}

/// The tile of a task that is no transport's, from the tiles of what it reads, in their order. Want of memory is its only
/// refusal.
pub fn run_task(
    alloc: Global,
    plan: &Plan,
    span: Span,
    program: &Program,
    known: &Known,
    task: u32,
    tiles: &[Arc<Tile>],
) -> Result<Tile, AllocError>
    requires planned { IsPlanned plan.now span program.now known.now }
    requires task { task < length plan.now.tasks }
    requires local { is_flow_work (task_at plan.now task).work ≡ false }
    requires tiles { AllZip (λ a n. IsTaskTile plan.now span program.now known.now n (arc_value a)) tiles.now (needs_at plan.now task) }
    ensures { IfOk result (IsTaskTile plan.now span program.now known.now task) }
{
    tiles_of_operations_are_cuts();
    let task = plan.task(task);
    let operation = section(program, span)[task.operation as usize];
    let tile = run_work(
        alloc,
        task.work,
        scope_of(operation.op),
        program,
        operation,
        span,
        task.step,
        known,
        plan.tiling(),
        task.tile,
        tiles,
    )?;
    Ok(tile)
}
