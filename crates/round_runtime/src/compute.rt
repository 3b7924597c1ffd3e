//! What the threads of a round compute.

ghost use Rattle.std.specs.Prelude.{◌≡◌, All, IfOk, vec_len};
ghost use Rattle.std.specs.Thread.{IsSync};
ghost use Rattle.flow_task.specs.Kits.{KnowsAll};
ghost use Rattle.map_meaning.specs.Table.{is_transport};
ghost use Rattle.round_runtime.specs.inside.Jobs.{Computed, EachComputed, AreOfOneSpan, IsJob};

use flow_task::FlowKit;
use map_meaning::{Known, Program};
use outside_io::Gate;
use plan_graph::PlanGraph;
use std::alloc::{AllocError, Global};
use std::sync::{Arc, Wait};
use std::thread;
use std::thread::Threads;
use task_board::{task_tile, task_work};
use task_tiles::Tile;

/// What a thread of a round is to work on. The ticket stays with the caller.
#[derive(Drop)]
pub struct RoundJob {
    pub worker: u32,
    pub task: u32,
    /// The tiles that the task reads. None: it is a transport's, and its work was begun before.
    pub tiles: Option<Vec<Arc<Tile>>>,
}

/// What a thread of a round gives.
#[derive(Drop)]
pub enum Outcome<W> {
    /// The tile of a task that is no transport's.
    Made(Arc<Tile>),
    /// The work of a transport's task, as it begins.
    Begun(W),
    /// The work was begun before, and is with the ticket.
    Underway,
}

// Passes the gate, and computes the tile of a task or begins its work.
fn compute<K: FlowKit, G: Gate, R: Wait>(
    rt: &R,
    alloc: Global,
    kit: K,
    plan: &PlanGraph,
    program: &Program,
    known: &Known,
    gate: &G,
    job: RoundJob,
) -> Result<Outcome<K::Work>, AllocError>
    requires fits { AreOfOneSpan plan.now program.now known.now }
    requires kit { KnowsAll is_transport (K.known kit) }
    requires job { IsJob plan.now program.now known.now job }
    ensures { Computed K.work_of plan.now program.now known.now job result }
{
    let RoundJob {
        worker,
        task,
        tiles,
    } = job;
    gate.pass(rt, worker, task);
    let Some(tiles) = tiles else {
        return Ok(Outcome::Underway);
    };
    if plan.is_flow(task) {
        let work = task_work(alloc, kit, plan, program, known, task, tiles.as_slice())?;
        Ok(Outcome::Begun(work))
    } else {
        let tile = task_tile(alloc, plan, program, known, task, tiles.as_slice())?;
        Ok(Outcome::Made(tile))
    }
}

/// Computes the jobs of a round, each in a thread of its own where one can be made. Each job has its own want of memory.
pub fn compute_all<K: FlowKit + Send + Sync, G: Gate + Sync, R: Threads + Wait + Sync>(
    rt: &R,
    alloc: Global,
    kit: K,
    plan: &PlanGraph,
    program: &Program,
    known: &Known,
    gate: &G,
    jobs: Vec<RoundJob>,
) -> Result<Vec<Result<Outcome<K::Work>, AllocError>>, AllocError>
where
    K::Work: Send,
    requires fits { AreOfOneSpan plan.now program.now known.now }
    requires kit { KnowsAll is_transport (K.known kit) }
    requires jobs { All (IsJob plan.now program.now known.now) jobs.items }
    ensures len { IfOk result (λ v. vec_len v ≡ vec_len jobs) }
    ensures each { IfOk result (λ v. EachComputed K.work_of plan.now program.now known.now jobs.items v.items) }
{
    thread::map_vec(
        rt,
        jobs,
        &|job: RoundJob| -> Result<Outcome<K::Work>, AllocError>
            requires { AreOfOneSpan plan.now program.now known.now × KnowsAll is_transport (K.known kit) × IsJob plan.now program.now known.now job }
            ensures { Computed K.work_of plan.entry.now program.entry.now known.entry.now job result }
        { compute(rt, alloc, kit, plan, program, known, gate, job) },
    )
}
