//! A transport's task: it begins with the tiles of the operands.

ghost use Rattle.std.specs.Prelude.{◌≡◌, ◌≤◌, ◌<◌, [], ◌∷◌, ℕ, length, map, true, IfOk};
ghost use Rattle.std.specs.Arc.{arc_value};
ghost use Rattle.std.specs.List.{AllZip};
ghost use Rattle.text_base.specs.Limits.{most_cells};
ghost use Rattle.tile_map.specs.Args.{SpansPlaces, arg_cell};
ghost use Rattle.tile_map.specs.Parts.{tabulate};
ghost use Rattle.drain_meaning.specs.Equations.{orient_of};
ghost use Rattle.flow_task.specs.Kits.{KnowsAll};
ghost use Rattle.flow_task.specs.Works.{CanBegin, flow_begun, tile_work};
ghost use Rattle.map_meaning.specs.Evaluation.{Done};
ghost use Rattle.map_meaning.specs.Table.{is_transport};
ghost use Rattle.plan_graph.specs.Graphs.{is_flow_work};
ghost use Rattle.span_operands.specs.declared.scope.Scope.TheVariants.{Transport};
ghost use Rattle.span_operands.specs.inside.Held.{HasDrainMap};
ghost use Rattle.span_operands.specs.inside.Scopes.{IsScopeOf};
ghost use Rattle.task_graph.specs.Plans.{needs_at, task_at};
ghost use Rattle.task_tiles.specs.FlowTiles.{IsBegunOn, IsFlowBegun};
ghost use Rattle.task_tiles.specs.TaskTiles.{IsPlanned, IsTaskTile};
ghost use Rattle.tile_tasks.specs.TaskEdges.{AreTaskEdges};
ghost use Rattle.tile_tasks.specs.inside.Flows.{AreTileEdges, IsTransport, ReadsFlow};
ghost use Rattle.tile_tasks.specs.inside.Tasks.{IsTaskAt, SomeDone};

use crate::local::{many, tile_size};
use crate::own::{own_cells, shown};
use crate::run::section;
use border_channel::Edge;
use cell_values::Kind;
use drain_meaning::{Drain, FlowOp};
use flow_task::FlowKit;
use map_meaning::{Known, Operation, Program, Span};
use span_operands::{Scope, drain_map, kind_or_scalar, made, scope_of, sheet};
use std::alloc::{AllocError, Global};
use std::sync::Arc;
use task_graph::Plan;
use task_laws::tiles_of_operations_are_cuts;
use task_tiles::Tile;
use tile_map::{Arg, Tiling};

// What is transported.
fn flow_op(scope: Scope) -> FlowOp
    requires { IsTransport scope }
    ensures { scope ≡ Transport result }
{
    match scope {
        Scope::Transport(op) => op,
        _ => unreachable!(),
    }
}

// A transport over one tile begins, with operands over its places.
fn begun<K: FlowKit>(
    alloc: Global,
    kit: &K,
    op: FlowOp,
    kind: Kind,
    drain: &Drain,
    tiling: &Tiling,
    tile: u32,
    edges: &[Edge],
    into: &[u32],
    out: &[u32],
    a: Arg<'_>,
    b: Arg<'_>,
    size: usize,
) -> Result<K::Work, AllocError>
    requires known { K.known kit.now op ≡ true }
    requires few { size ≤ most_cells }
    requires a { SpansPlaces a size }
    requires b { SpansPlaces b size }
    requires can { CanBegin (orient_of op) drain.now tiling.now tile edges.now into.now out.now (tabulate (arg_cell a) size) (tabulate (arg_cell b) size) }
    ensures { IfOk result (λ w. K.work_of w ≡ tile_work op (flow_begun kind drain.now tiling.now tile edges.now (tabulate (arg_cell a.entry) size) (tabulate (arg_cell b.entry) size)) []) }
{
    let made_a = made(alloc, a, size)?;
    let made_b = made(alloc, b, size)?;
    let work = kit.begin(
        alloc,
        op,
        kind,
        drain,
        tiling,
        tile,
        edges,
        into,
        out,
        sheet(a, made_a.as_slice(), size),
        sheet(b, made_b.as_slice(), size),
    )?;
    Ok(work)
}

// A transport of an operation over one tile begins, with the tiles of its operands.
fn flow_tile<K: FlowKit>(
    alloc: Global,
    kit: &K,
    op: FlowOp,
    program: &Program,
    operation: Operation,
    span: Span,
    step: u32,
    known: &Known,
    tiling: &Tiling,
    tile: u32,
    edges: &[Edge],
    into: &[u32],
    out: &[u32],
    tiles: &[Arc<Tile>],
) -> Result<K::Work, AllocError>
    requires scope { IsScopeOf (Transport op) operation.op }
    requires kit { KnowsAll is_transport (K.known kit.now) }
    requires task { IsTaskAt program.now span known.now tiling.now step tile operation }
    requires drain { HasDrainMap known.now operation.drain }
    requires edges { AreTileEdges known.now tiling.now tile operation op edges.now into.now out.now }
    requires reads { SomeDone (ReadsFlow program.now span known.now tiling.now step tile operation (map arc_value tiles.now)) }
    ensures op { IfOk result (λ w. (K.work_of w).which ≡ op) }
    ensures work { IfOk result (λ w. (done : Done) → ReadsFlow program.now span known.now tiling.now step tile operation (map arc_value tiles.now) done → IsBegunOn program.now known.now tiling.now step done operation tile (K.work_of w)) }
{
    let own_a = own_cells(alloc, operation.a, program, span, step, known, tiling, tile)?;
    let own_b = own_cells(alloc, operation.b, program, span, step, known, tiling, tile)?;
    let size = tile_size(tiling, tile);
    let index = many(span, step, operation.a);
    let kind = kind_or_scalar(program, operation.a);
    let drain = drain_map(known, operation.drain);
    let a = shown(&own_a, tiles, 0, size);
    let b = shown(&own_b, tiles, index, size);
    let work = begun(
        alloc, kit, op, kind, drain, tiling, tile, edges, into, out, a, b, size,
    )?;
    Ok(work)
}

/// A task of a transport begins its work over one tile: it is handed all border edges of the transport, the numbers of
/// those into and out of the tile, and the tiles of what it reads, in their order. Want of memory is its only refusal.
pub fn begin_flow<K: FlowKit>(
    alloc: Global,
    kit: &K,
    plan: &Plan,
    span: Span,
    program: &Program,
    known: &Known,
    edges: &[Edge],
    into: &[u32],
    out: &[u32],
    task: u32,
    tiles: &[Arc<Tile>],
) -> Result<K::Work, AllocError>
    requires planned { IsPlanned plan.now span program.now known.now }
    requires kit { KnowsAll is_transport (K.known kit.now) }
    requires task { task < length plan.now.tasks }
    requires flow { is_flow_work (task_at plan.now task).work ≡ true }
    requires edges { AreTaskEdges plan.now known.now.drains task edges.now into.now out.now }
    requires tiles { AllZip (λ a n. IsTaskTile plan.now span program.now known.now n (arc_value a)) tiles.now (needs_at plan.now task) }
    ensures { IfOk result (λ w. IsFlowBegun plan.now span program.now known.now task (K.work_of w)) }
{
    tiles_of_operations_are_cuts();
    let task = plan.task(task);
    let operation = section(program, span)[task.operation as usize];
    let work = flow_tile(
        alloc,
        kit,
        flow_op(scope_of(operation.op)),
        program,
        operation,
        span,
        task.step,
        known,
        plan.tiling(),
        task.tile,
        edges,
        into,
        out,
        tiles,
    )?;
    Ok(work)
}
