//! A board that its workers run.

ghost use Rattle.std.specs.Prelude.{◌≡◌, [], IfOk};
ghost use Rattle.task_board.specs.Boards.{Continues, IsFinished, IsLegal};
ghost use Rattle.tile_runtime.specs.Ends.{CallerStepsInLast};
ghost use Rattle.tile_runtime.specs.inside.Knowledge.{plan_of_board};
ghost use Rattle.tile_runtime.specs.inside.Roots.{AllEnded};

use crate::crew::{Crew, Desk};
use crate::threads::in_scope;
use flow_task::FlowKit;
use outside_io::Gate;
use std::alloc::{AllocError, Global};
use std::sync::{Arc, Wait};
use std::thread::Threads;
use task_board::Board;
use turn_cell::TurnCell;

// Finishes a board as worker 0 where the workers have left something.
fn complete<K: FlowKit>(alloc: Global, board: Board<K>) -> Result<Board<K>, AllocError>
    requires ended { AllEnded (plan_of_board board) board.workers board.history }
    ensures continues { IfOk result (Continues board) }
    ensures finished { IfOk result IsFinished }
    ensures legal { IfOk result IsLegal }
    ensures caller { IfOk result CallerStepsInLast }
{
    let mut board = board;
    let _plan = board.plan();
    if board.is_finished() {
        return Ok(board);
    }
    board.drive_alone(alloc)?;
    Ok(board)
}

/// Runs a board by its workers, each in a thread of its own where one can be made, and else by the caller; a board with fewer
/// than two tasks needs no thread. Each worker passes the gate between its claim of a task and its work on it, and computes
/// outside of its turns. One that finds no memory puts its task down and ends; where they have left something the caller
/// finishes the board alone, and where that finds no memory either, the run does not come to its end.
pub fn run_board<K: FlowKit + Send + Sync, G: Gate + Sync, R: Threads + Wait + Sync>(
    rt: &R,
    alloc: Global,
    board: Board<K>,
    gate: &G,
) -> Result<Board<K>, AllocError>
where
    K::Work: Send,
    requires empty { board.history ≡ [] }
    ensures continues { IfOk result (Continues board) }
    ensures finished { IfOk result IsFinished }
    ensures legal { IfOk result IsLegal }
    ensures caller { IfOk result CallerStepsInLast }
{
    let kit = board.kit();
    let plan = Arc::try_clone(board.plan())?;
    let program = Arc::try_clone(board.program())?;
    let known = Arc::try_clone(board.known())?;
    let workers = board.workers();
    let Ok((cell, root)) = TurnCell::make(alloc, board, workers + 1) else {
        return Err(AllocError);
    };
    let crew = Crew {
        alloc,
        kit,
        desk: Desk {
            plan: &plan,
            program: &program,
            known: &known,
            workers,
        },
    };
    let root = in_scope(rt, &cell, root, &crew, gate);
    complete(alloc, cell.close(root))
}
