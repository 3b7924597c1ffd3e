//! A board by rounds.

ghost use Rattle.std.specs.Prelude.{◌<◌, ◌≤◌, IfOk, OnOk, length};
ghost use Rattle.task_board.specs.Boards.{IsFinished, IsLegal, NobodyHolds};
ghost use Rattle.round_runtime.specs.Rounds.{GrowsByWorkers};

use crate::round::go_round;
use flow_task::FlowKit;
use outside_io::Gate;
use std::alloc::{AllocError, Global};
use std::sync::Wait;
use std::thread::Threads;
use task_board::Board;

// One round: up to as many tasks as there are workers are claimed and computed, and their steps made.
fn one_round<K: FlowKit + Send + Sync, G: Gate + Sync, R: Threads + Wait + Sync>(
    rt: &R,
    alloc: Global,
    board: &mut Board<K>,
    gate: &G,
) -> Result<(), AllocError>
where
    K::Work: Send,
    requires some { 1 ≤ board.old.workers }
    requires idle { NobodyHolds board.old }
    requires left { IsFinished board.old → ⊥ }
    ensures grows { OnOk result (GrowsByWorkers board.old.workers board.old board.new) }
    ensures idle { OnOk result (NobodyHolds board.new) }
    ensures moves { OnOk result (length board.old.history < length board.new.history) }
    ensures legal { IsLegal board.new }
{
    let _plan = board.plan();
    let workers = board.workers();
    let _gone = go_round(rt, alloc, board, gate, workers, Vec::new(alloc))?;
    Ok(())
}

/// Runs a board to its end, by workers 1 to the last and in rounds. In each round up to as many tasks as there are workers are
/// claimed; each is passed through the gate and computed in a thread of its own, where one can be made; and then the caller makes
/// the steps of each, in the order of workers: it publishes a tile, and of a transport sends what is settled, takes what waits, and
/// publishes or parks. Where memory is refused the board is given up.
pub fn run_rounds<K: FlowKit + Send + Sync, G: Gate + Sync, R: Threads + Wait + Sync>(
    rt: &R,
    alloc: Global,
    board: Board<K>,
    gate: &G,
) -> Result<Board<K>, AllocError>
where
    K::Work: Send,
    requires some { 1 ≤ board.workers }
    requires idle { NobodyHolds board }
    ensures grows { IfOk result (GrowsByWorkers board.workers board) }
    ensures finished { IfOk result IsFinished }
    ensures legal { IfOk result IsLegal }
{
    let _plan = board.plan();
    let mut board = board;
    while !board.is_finished() {
        one_round(rt, alloc, &mut board, gate)?;
    }
    Ok(board)
}
