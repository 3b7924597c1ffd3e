ghost use Rattle.std.specs.Prelude.{◌≡◌, IfOk};
ghost use Rattle.std.specs.Thread.{IsSync};
ghost use Rattle.outside_io.specs.Met.{Meets};
ghost use Rattle.run_session.specs.Asked.{IfTooMany, IsCountOf};
ghost use Rattle.run_session.specs.Ends.{session_outcome, why};
ghost use Rattle.span_runner.specs.SpanCalls.{CanEvaluate, GivesStage, MayBeAsked};
ghost use Rattle.lue_run.specs.Course.{script_too_many, tiled_run};

use crate::asked::Tiles;
use cell_values::Word;
use flow_task::BaseKit;
use map_meaning::StageEnd;
use outside_io::{Folder, Gate};
use run_session::{SessionEnd, run_script};
use span_runner::{SpanCall, SpanRunner};
use std::alloc::{AllocError, Global};
use std::sync::Wait;
use std::thread::Threads;
use tile_runtime::run_span;

/// How many steps are evaluated at once.
const BLOCK: u32 = 1;

// Runs the script of this name by tiles, where each span is evaluated by this call.
fn run_by<F: Folder, C: Fn(SpanCall) -> Result<StageEnd, AllocError> + Drop>(
    alloc: Global,
    name: &Word,
    tiles: Tiles,
    folder: &mut F,
    evaluate: C,
) -> SessionEnd
    requires { CanEvaluate (C.pre evaluate) (C.post evaluate) tiles.rows tiles.cols 1 }
    ensures meets { Meets why (tiled_run tiles.rows tiles.cols name.now) (F.state folder.old) (F.state folder.new) (session_outcome result) }
    ensures many { IfTooMany result (IsCountOf (script_too_many tiles.rows tiles.cols)) }
{
    let mut runner = SpanRunner::new(tiles.rows, tiles.cols, BLOCK, evaluate);
    run_script(alloc, name.bytes(), folder, &mut runner)
}

// What a span gives, by workers over its tiles.
fn evaluated<G: Gate + Sync, R: Threads + Wait + Sync>(
    rt: &R,
    alloc: Global,
    tiles: Tiles,
    gate: &G,
    call: SpanCall,
) -> Result<StageEnd, AllocError>
    requires { MayBeAsked tiles.rows tiles.cols 1 call }
    ensures { IfOk result (GivesStage call) }
{
    run_span(
        rt,
        alloc,
        BaseKit,
        gate,
        call,
        tiles.rows,
        tiles.cols,
        BLOCK,
        tiles.workers,
    )
}

/// Runs the script of this name by tiles and workers, each of whom passes the gate between its claim of a task and its work on it.
pub fn run_tiles<F: Folder, G: Gate + Sync, R: Threads + Wait + Sync>(
    rt: &R,
    alloc: Global,
    name: &Word,
    tiles: Tiles,
    folder: &mut F,
    gate: &G,
) -> SessionEnd
    ensures meets { Meets why (tiled_run tiles.rows tiles.cols name.now) (F.state folder.old) (F.state folder.new) (session_outcome result) }
    ensures many { IfTooMany result (IsCountOf (script_too_many tiles.rows tiles.cols)) }
{
    let evaluate = move |call: SpanCall| -> Result<StageEnd, AllocError>
        requires { IsSync R.row × IsSync G.row × MayBeAsked tiles.rows tiles.cols 1 call }
        ensures { IfOk result (GivesStage call) }
    { evaluated(rt, alloc, tiles, gate, call) };
    run_by(alloc, name, tiles, folder, evaluate)
}
