//! The workers' threads, and the seats that they take and give back.

ghost use Rattle.std.specs.Prelude.{◌≡◌, ◌≤◌, [], IfErr, IfOk};
ghost use Rattle.std.specs.Thread.{IsSend, IsSync};
ghost use Rattle.turn_cell.specs.Seats.{history_seen};
ghost use Rattle.tile_runtime.specs.inside.Knowledge.{HasEnded, HasFreeHands, IsWorkersSeat, plan_at, board_seen};
ghost use Rattle.tile_runtime.specs.inside.Roots.{AllEnded, IsRootSeat};

use crate::crew::{Crew, Desk};
use crate::worker::work;
use core_model::Step;
use flow_task::FlowKit;
use outside_io::Gate;
use std::sync::Wait;
use std::thread;
use std::thread::{Promise, PromisedHandle, Scope, Threads};
use task_board::{Board, BoardPlan};
use turn_cell::{Chronicle, TurnCell, TurnSeat};

/// What a worker's thread promises of the seat that it gives back.
pub struct Ends<'a, K: FlowKit>
where
    Board<K>: Chronicle<Plan = BoardPlan, Entry = Step>,
{
    pub cell: &'a TurnCell<Board<K>>,
    pub desk: &'a Desk<'a>,
    pub worker: u32,
}

impl<'a, K: FlowKit> Promise<TurnSeat<Board<K>>> for Ends<'a, K>
where
    Board<K>: Chronicle<Plan = BoardPlan, Entry = Step>,
{
    ghost use Rattle.tile_runtime.specs.inside.Knowledge.{HasEnded, IsWorkersSeat, plan_at, board_seen};

    ghost kept_by = { λ p seat. IsWorkersSeat p.cell.now (plan_at p.desk.now) p.worker seat × HasEnded (board_seen (plan_at p.desk.now) seat) p.worker };
}

impl<'a, K: FlowKit> Drop for Ends<'a, K>
where
    Board<K>: Chronicle<Plan = BoardPlan, Entry = Step>,
{
    fn drop(self) {
        let Self {
            cell: _,
            desk: _,
            worker: _,
        } = self;
    }
}

// Starts a worker in a thread of its own. Where none can be made, or the board has no two tasks, it is run here, to its end.
fn start<'s, E, K: FlowKit + Send + Sync + 's, G: Gate + Sync + 's, R: Wait + Sync>(
    scope: &Scope<'s, E>,
    rt: &'s R,
    cell: &'s TurnCell<Board<K>>,
    seat: TurnSeat<Board<K>>,
    crew: &'s Crew<'s, K>,
    gate: &'s G,
    worker: u32,
) -> Result<PromisedHandle<TurnSeat<Board<K>>, Ends<'s, K>>, TurnSeat<Board<K>>>
where
    K::Work: Send,
    requires seat { IsWorkersSeat cell.now (plan_at crew.now.desk) worker seat }
    requires free { HasFreeHands (board_seen (plan_at crew.now.desk) seat) worker }
    ensures ok { IfOk result (λ h. (h.promise.cell.now ≡ cell.entry.now) × (h.promise.desk.now ≡ crew.entry.now.desk) × (h.promise.worker ≡ worker)) }
    ensures err { IfErr result (λ r. IsWorkersSeat cell.entry.now (plan_at crew.entry.now.desk) worker r × HasEnded (board_seen (plan_at crew.entry.now.desk) r) worker) }
{
    let run = move || -> TurnSeat<Board<K>>
        requires { IsSync R.row × IsWorkersSeat cell.now (plan_at crew.now.desk) worker seat × HasFreeHands (board_seen (plan_at crew.now.desk) seat) worker }
        ensures { IsWorkersSeat cell.entry.now (plan_at crew.entry.now.desk) worker result × HasEnded (board_seen (plan_at crew.entry.now.desk) result) worker }
    { work(rt, cell, seat, crew, gate, worker) };
    if crew.desk.plan.tasks() < 2 {
        return Err(run());
    }
    let promise = Ends {
        cell,
        desk: &crew.desk,
        worker,
    };
    match scope.spawn_with(promise, run) {
        Ok(handle) => Ok(handle),
        Err(refused) => Err((refused.value)()),
    }
}

// The seat that a worker gives back.
fn finish<'s, K: FlowKit, R: Threads>(
    rt: &R,
    cell: &'s TurnCell<Board<K>>,
    child: Result<PromisedHandle<TurnSeat<Board<K>>, Ends<'s, K>>, TurnSeat<Board<K>>>,
    crew: &Crew<'_, K>,
    worker: u32,
) -> TurnSeat<Board<K>>
    requires ok { IfOk child (λ h. (h.promise.cell.now ≡ cell.now) × (h.promise.desk.now ≡ crew.now.desk) × (h.promise.worker ≡ worker)) }
    requires err { IfErr child (λ r. IsWorkersSeat cell.now (plan_at crew.now.desk) worker r × HasEnded (board_seen (plan_at crew.now.desk) r) worker) }
    ensures seat { IsWorkersSeat cell.now (plan_at crew.now.desk) worker result }
    ensures ended { HasEnded (board_seen (plan_at crew.now.desk) result) worker }
{
    let _ = cell;
    let _ = crew;
    let _ = worker;
    match child {
        Ok(handle) => handle.join(rt),
        Err(seat) => seat,
    }
}

// Splits a seat off for each worker up to this one, lets all of them work, and takes the seats in again.
#[cycle(spread)]
fn spread<'s, E, K: FlowKit + Send + Sync + 's, G: Gate + Sync + 's, R: Threads + Wait + Sync>(
    scope: &Scope<'s, E>,
    rt: &'s R,
    cell: &'s TurnCell<Board<K>>,
    root: TurnSeat<Board<K>>,
    crew: &'s Crew<'s, K>,
    gate: &'s G,
    worker: u32,
) -> TurnSeat<Board<K>>
where
    K::Work: Send,
    requires root { IsRootSeat cell.now (plan_at crew.now.desk) worker root }
    requires seen { history_seen root ≡ [] }
    requires most { worker ≤ crew.now.desk.workers }
    ensures root { IsRootSeat cell.entry.now (plan_at crew.entry.now.desk) worker result }
    ensures ended { AllEnded (plan_at crew.entry.now.desk) worker (history_seen result) }
{
    if worker == 0 {
        return root;
    }
    let mut root = root;
    let seat = cell.split(&mut root);
    let child = start(scope, rt, cell, seat, crew, gate, worker);
    let mut root = spread(scope, rt, cell, root, crew, gate, worker - 1);
    let seat = finish(rt, cell, child, crew, worker);
    cell.join(&mut root, seat);
    root
}

/// Lets all workers work, and gives the root's seat back.
pub(crate) fn in_scope<K: FlowKit + Send + Sync, G: Gate + Sync, R: Threads + Wait + Sync>(
    rt: &R,
    cell: &TurnCell<Board<K>>,
    root: TurnSeat<Board<K>>,
    crew: &Crew<'_, K>,
    gate: &G,
) -> TurnSeat<Board<K>>
where
    K::Work: Send,
    requires root { IsRootSeat cell.now (plan_at crew.now.desk) crew.now.desk.workers root }
    requires seen { history_seen root ≡ [] }
    ensures root { IsRootSeat cell.entry.now (plan_at crew.entry.now.desk) crew.entry.now.desk.workers result }
    ensures ended { AllEnded (plan_at crew.entry.now.desk) crew.entry.now.desk.workers (history_seen result) }
{
    thread::scope(
        thread::scope_env(),
        rt,
        |scope| -> TurnSeat<Board<K>>
            requires { IsSync R.row × IsSend K.row × IsSync K.row × IsSend K.Work.row × IsSync G.row × IsRootSeat cell.now (plan_at crew.now.desk) crew.now.desk.workers root × (history_seen root ≡ []) }
            ensures { IsRootSeat cell.entry.now (plan_at crew.entry.now.desk) crew.entry.now.desk.workers result × AllEnded (plan_at crew.entry.now.desk) crew.entry.now.desk.workers (history_seen result) }
        { spread(scope, rt, cell, root, crew, gate, crew.desk.workers) },
    )
}
