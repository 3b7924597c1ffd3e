//! A worker, from its first claim to its end.

ghost use Rattle.std.specs.Prelude.{◌≡◌, None, false, true};
ghost use Rattle.plan_graph.specs.PlanGraphs.{graph_of, list_at};
ghost use Rattle.task_board.specs.Tiles.{AreTilesOf};
ghost use Rattle.tile_runtime.specs.inside.Knowledge.{GoesOnOrEnds, HasEnded, HasFreeHands, IsWorkersSeat, new_at, plan_at, board_seen};
ghost use Rattle.tile_runtime.specs.inside.Turns.{HasTicket};

use crate::crew::Crew;
use crate::flow::{flow_on, let_go};
use crate::turns::{claim, put_down, read};
use flow_task::FlowKit;
use outside_io::Gate;
use std::sync::{Arc, Wait};
use std::thread;
use task_board::{Board, Claim, Ticket, task_tile, task_work};
use task_tiles::Tile;
use turn_cell::{TurnCell, TurnSeat};

/// How often a worker yields at most before it looks for a task again.
const MOST_YIELDS: u32 = 32;

// Computes a task that is no transport's and lets go of it; tells whether the worker goes on.
fn local_on<K: FlowKit, R: Wait>(
    rt: &R,
    cell: &TurnCell<Board<K>>,
    seat: &mut TurnSeat<Board<K>>,
    crew: &Crew<'_, K>,
    worker: u32,
    ticket: Ticket<K>,
    tiles: &[Arc<Tile>],
) -> bool
    requires seat { IsWorkersSeat cell.now (plan_at crew.now.desk) worker seat.old }
    requires ticket { HasTicket K.work_of (board_seen (plan_at crew.now.desk) seat.old) worker ticket }
    requires local { (graph_of crew.now.desk.plan.now).is_flow ticket.task ≡ false }
    requires tiles { AreTilesOf (new_at crew.now.desk) tiles.now (list_at crew.now.desk.plan.now.needs ticket.task) }
    ensures seat { IsWorkersSeat cell.now (plan_at crew.now.desk) worker seat.new }
    ensures goes { GoesOnOrEnds (board_seen (plan_at crew.now.desk) seat.new) worker result }
{
    let desk = &crew.desk;
    let made = task_tile(
        crew.alloc,
        desk.plan,
        desk.program,
        desk.known,
        ticket.task,
        tiles,
    );
    let_go(rt, cell, seat, crew, worker, ticket, made)
}

// Begins a transport's task and goes on with it, or puts it down; tells whether the worker goes on.
fn begin<K: FlowKit, R: Wait>(
    rt: &R,
    cell: &TurnCell<Board<K>>,
    seat: &mut TurnSeat<Board<K>>,
    crew: &Crew<'_, K>,
    worker: u32,
    ticket: Ticket<K>,
    tiles: &[Arc<Tile>],
) -> bool
    requires seat { IsWorkersSeat cell.now (plan_at crew.now.desk) worker seat.old }
    requires ticket { HasTicket K.work_of (board_seen (plan_at crew.now.desk) seat.old) worker ticket }
    requires bare { ticket.work ≡ None }
    requires flow { (graph_of crew.now.desk.plan.now).is_flow ticket.task ≡ true }
    requires tiles { AreTilesOf (new_at crew.now.desk) tiles.now (list_at crew.now.desk.plan.now.needs ticket.task) }
    ensures seat { IsWorkersSeat cell.now (plan_at crew.now.desk) worker seat.new }
    ensures goes { GoesOnOrEnds (board_seen (plan_at crew.now.desk) seat.new) worker result }
{
    let desk = &crew.desk;
    let begun = task_work(
        crew.alloc,
        crew.kit,
        desk.plan,
        desk.program,
        desk.known,
        ticket.task,
        tiles,
    );
    match begun {
        Ok(work) => {
            let Ticket {
                worker: holder,
                task,
                work: _,
            } = ticket;
            let ticket = Ticket {
                worker: holder,
                task,
                work: Some(work),
            };
            flow_on(rt, cell, seat, crew, worker, ticket)
        }
        Err(_) => {
            put_down(rt, cell, seat, crew, worker, ticket);
            false
        }
    }
}

// Works on a claimed task until it is published, parked or put down; tells whether the worker goes on.
fn work_on<K: FlowKit, R: Wait>(
    rt: &R,
    cell: &TurnCell<Board<K>>,
    seat: &mut TurnSeat<Board<K>>,
    crew: &Crew<'_, K>,
    worker: u32,
    ticket: Ticket<K>,
) -> bool
    requires seat { IsWorkersSeat cell.now (plan_at crew.now.desk) worker seat.old }
    requires ticket { HasTicket K.work_of (board_seen (plan_at crew.now.desk) seat.old) worker ticket }
    ensures seat { IsWorkersSeat cell.now (plan_at crew.now.desk) worker seat.new }
    ensures goes { GoesOnOrEnds (board_seen (plan_at crew.now.desk) seat.new) worker result }
{
    if ticket.work.is_some() {
        return flow_on(rt, cell, seat, crew, worker, ticket);
    }
    match read(rt, cell, seat, crew, worker, &ticket) {
        Ok(tiles) => {
            if crew.desk.plan.is_flow(ticket.task) {
                begin(rt, cell, seat, crew, worker, ticket, tiles.as_slice())
            } else {
                local_on(rt, cell, seat, crew, worker, ticket, tiles.as_slice())
            }
        }
        Err(_) => {
            put_down(rt, cell, seat, crew, worker, ticket);
            false
        }
    }
}

// Yields, the next time twice as often.
fn pause(yields: &mut u32) {
    for _ in 0..*yields {
        thread::yield_now();
    }
    if *yields < MOST_YIELDS {
        *yields *= 2;
    }
}

/// Claims tasks and works on them until all are published, or until memory is refused and a task was put down.
pub(crate) fn work<K: FlowKit, G: Gate, R: Wait>(
    rt: &R,
    cell: &TurnCell<Board<K>>,
    seat: TurnSeat<Board<K>>,
    crew: &Crew<'_, K>,
    gate: &G,
    worker: u32,
) -> TurnSeat<Board<K>>
    requires seat { IsWorkersSeat cell.now (plan_at crew.now.desk) worker seat }
    requires free { HasFreeHands (board_seen (plan_at crew.now.desk) seat) worker }
    ensures seat { IsWorkersSeat cell.now (plan_at crew.now.desk) worker result }
    ensures ended { HasEnded (board_seen (plan_at crew.now.desk) result) worker }
{
    let mut seat = seat;
    let mut yields = 1;
    for _ in rt.forever() {
        match claim(rt, cell, &mut seat, crew, worker) {
            Claim::Got(ticket) => {
                gate.pass(rt, worker, ticket.task);
                if !work_on(rt, cell, &mut seat, crew, worker, ticket) {
                    return seat;
                }
                yields = 1;
            }
            Claim::Idle { holder: _, task: _ } => pause(&mut yields),
            Claim::Finished => return seat,
        }
    }
    unreachable!()
}
