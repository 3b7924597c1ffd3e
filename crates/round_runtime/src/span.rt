//! A span by rounds.

ghost use Rattle.std.specs.Prelude.{◌≤◌, IfOk};
ghost use Rattle.flow_task.specs.Kits.{KnowsAll};
ghost use Rattle.map_meaning.specs.Limits.{most_block};
ghost use Rattle.map_meaning.specs.Table.{is_transport};
ghost use Rattle.span_runner.specs.SpanCalls.{GivesStage, MayBeAsked};

use crate::run::run_rounds;
use flow_task::FlowKit;
use map_meaning::StageEnd;
use outside_io::Gate;
use span_runner::{SpanCall, make_board};
use std::alloc::{AllocError, Global};
use std::sync::Wait;
use std::thread::Threads;

/// What a span of at most so many steps gives, by tiles of this size, in cells, and rounds of so many workers.
pub fn run_span<K: FlowKit + Send + Sync, G: Gate + Sync, R: Threads + Wait + Sync>(
    rt: &R,
    alloc: Global,
    kit: K,
    gate: &G,
    call: SpanCall,
    tile_rows: u32,
    tile_cols: u32,
    block: u32,
    workers: u32,
) -> Result<StageEnd, AllocError>
where
    K::Work: Send,
    requires call { MayBeAsked tile_rows tile_cols block call }
    requires block { block ≤ most_block }
    requires kit { KnowsAll is_transport (K.known kit) }
    requires some { 1 ≤ workers }
    requires workers { workers ≤ 64 }
    ensures { IfOk result (GivesStage call) }
{
    let board = make_board(alloc, kit, call, tile_rows, tile_cols, block, workers)?;
    let board = run_rounds(rt, alloc, board, gate)?;
    board.collect(alloc)
}
