//! One round.

ghost use Rattle.std.specs.Prelude.{◌≡◌, ◌≤◌, All, IfOk, OnOk, vec_len};
ghost use Rattle.task_board.specs.Boards.{IsLegal};
ghost use Rattle.task_board.specs.Tickets.{IsGoodTicket};
ghost use Rattle.round_runtime.specs.Rounds.{GrowsByWorkers};
ghost use Rattle.round_runtime.specs.inside.Free.{AreFree, Moves};
ghost use Rattle.round_runtime.specs.inside.Jobs.{EachComputed, IsJob, IsJobOf};
ghost use Rattle.round_runtime.specs.inside.Lists.{IsOneMore};

use crate::compute::{Outcome, RoundJob, compute_all};
use crate::steps::{give_up, step_of};
use flow_task::FlowKit;
use outside_io::Gate;
use std::alloc::{AllocError, Global};
use std::sync::Wait;
use std::thread::Threads;
use task_board::{Board, Claim, Ticket};

// What a thread is to work on for a ticket: with the tiles that its task reads, unless its work was begun before.
fn job_of<K: FlowKit>(
    board: &Board<K>,
    alloc: Global,
    ticket: &Ticket<K>,
) -> Result<RoundJob, AllocError>
    requires good { IsGoodTicket K.work_of board.now ticket.now }
    ensures job { IfOk result (IsJob board.now.plan board.now.program board.now.known) }
    ensures of { IfOk result (IsJobOf ticket.now) }
{
    let worker = ticket.worker;
    let task = ticket.task;
    if ticket.work.is_some() {
        return Ok(RoundJob {
            worker,
            task,
            tiles: None,
        });
    }
    let mut tiles = Vec::new(alloc);
    board.inputs_into(ticket, &mut tiles)?;
    Ok(RoundJob {
        worker,
        task,
        tiles: Some(tiles),
    })
}

// These jobs and the one of a ticket behind them.
fn with_job<K: FlowKit>(
    board: &Board<K>,
    alloc: Global,
    ticket: &Ticket<K>,
    jobs: Vec<RoundJob>,
) -> Result<Vec<RoundJob>, AllocError>
    requires good { IsGoodTicket K.work_of board.now ticket.now }
    ensures { IfOk result (λ v. IsOneMore (IsJob board.now.plan board.now.program board.now.known) (IsJobOf ticket.now) jobs.items v.items) }
{
    let mut jobs = jobs;
    let job = job_of(board, alloc, ticket)?;
    jobs.push(job)?;
    Ok(jobs)
}

// Computes jobs over a board, each in a thread of its own where one can be made.
fn compute_jobs<K: FlowKit + Send + Sync, G: Gate + Sync, R: Threads + Wait + Sync>(
    rt: &R,
    alloc: Global,
    board: &Board<K>,
    gate: &G,
    jobs: Vec<RoundJob>,
) -> Result<Vec<Result<Outcome<K::Work>, AllocError>>, AllocError>
where
    K::Work: Send,
    requires jobs { All (IsJob board.now.plan board.now.program board.now.known) jobs.items }
    ensures len { IfOk result (λ v. vec_len v ≡ vec_len jobs) }
    ensures each { IfOk result (λ v. EachComputed K.work_of board.now.plan board.now.program board.now.known jobs.items v.items) }
{
    compute_all(
        rt,
        alloc,
        board.kit(),
        board.plan(),
        board.program(),
        board.known(),
        gate,
        jobs,
    )
}

/// Goes on with a round in which jobs were gathered: claims a task for each of the workers from this one down, computes these and
/// the jobs, and makes the steps of what was claimed, in the order of workers. What the jobs gave is handed back.
///
/// Each ticket stays in the frame of its claim, so none is lost where memory is refused.
pub fn go_round<K: FlowKit + Send + Sync, G: Gate + Sync, R: Threads + Wait + Sync>(
    rt: &R,
    alloc: Global,
    board: &mut Board<K>,
    gate: &G,
    worker: u32,
    jobs: Vec<RoundJob>,
) -> Result<Vec<Result<Outcome<K::Work>, AllocError>>, AllocError>
where
    K::Work: Send,
    requires number { worker ≤ board.old.workers }
    requires free { AreFree board.old worker }
    requires jobs { All (IsJob board.old.plan board.old.program board.old.known) jobs.items }
    ensures grows { OnOk result (GrowsByWorkers worker board.old board.new) }
    ensures free { OnOk result (AreFree board.new worker) }
    ensures moves { OnOk result (Moves worker board.old board.new) }
    ensures len { IfOk result (λ v. vec_len v ≡ vec_len jobs) }
    ensures each { IfOk result (λ v. EachComputed K.work_of board.old.plan board.old.program board.old.known jobs.items v.items) }
    ensures legal { IsLegal board.new }
{
    let _workers = board.workers();
    let _plan = board.plan();
    if worker == 0 {
        return compute_jobs(rt, alloc, board, gate, jobs);
    }
    match board.claim(worker) {
        Claim::Idle { holder: _, task: _ } => compute_jobs(rt, alloc, board, gate, jobs),
        Claim::Finished => compute_jobs(rt, alloc, board, gate, jobs),
        Claim::Got(ticket) => {
            let jobs = match with_job(board, alloc, &ticket, jobs) {
                Ok(jobs) => jobs,
                Err(refused) => {
                    give_up(ticket);
                    return Err(refused);
                }
            };
            match go_round(rt, alloc, board, gate, worker - 1, jobs) {
                Ok(outcomes) => step_of(board, alloc, ticket, outcomes),
                Err(refused) => {
                    give_up(ticket);
                    Err(refused)
                }
            }
        }
    }
}
