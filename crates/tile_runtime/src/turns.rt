//! The turns of a worker, and what it knows after each.

ghost use Rattle.std.specs.Prelude.{IfOk};
ghost use Rattle.std.specs.Arc.{arc_value};
ghost use Rattle.std.specs.Option.{IsSomeAnd};
ghost use Rattle.plan_graph.specs.PlanGraphs.{list_at};
ghost use Rattle.task_board.specs.Boards.{IsTileFor};
ghost use Rattle.task_board.specs.Messages.{HasToWait, IsMessageOf};
ghost use Rattle.task_board.specs.Tickets.{IsDone, work_in};
ghost use Rattle.task_board.specs.Tiles.{AreTilesOf};
ghost use Rattle.tile_runtime.specs.inside.Knowledge.{HasEnded, HasFreeHands, IsWorkersSeat, new_at, plan_at, board_seen};
ghost use Rattle.tile_runtime.specs.inside.Turns.{HasClaimed, HasSent, HasTakenOrParked, HasTicket};

use crate::crew::Crew;
use crate::jobs::{PublishTile, PutTaskDown, ReadInputs, SendMessage};
use border_channel::Message;
use flow_task::FlowKit;
use std::alloc::AllocError;
use std::sync::{Arc, Wait};
use task_board::{Board, Claim, ClaimTask, TakeOrPark, Ticket, Waiting, good_tickets_stay_good};
use task_tiles::Tile;
use turn_cell::{TurnCell, TurnSeat};

/// Claims a task.
pub(crate) fn claim<K: FlowKit, R: Wait>(
    rt: &R,
    cell: &TurnCell<Board<K>>,
    seat: &mut TurnSeat<Board<K>>,
    crew: &Crew<'_, K>,
    worker: u32,
) -> Claim<K>
    requires seat { IsWorkersSeat cell.now (plan_at crew.now.desk) worker seat.old }
    requires free { HasFreeHands (board_seen (plan_at crew.now.desk) seat.old) worker }
    ensures seat { IsWorkersSeat cell.now (plan_at crew.now.desk) worker seat.new }
    ensures claimed { HasClaimed K.work_of (board_seen (plan_at crew.now.desk) seat.new) worker result }
{
    let _ = crew;
    cell.with_turn(rt, seat, ClaimTask { worker })
}

/// The tiles that the ticket's task reads.
pub(crate) fn read<K: FlowKit, R: Wait>(
    rt: &R,
    cell: &TurnCell<Board<K>>,
    seat: &mut TurnSeat<Board<K>>,
    crew: &Crew<'_, K>,
    worker: u32,
    ticket: &Ticket<K>,
) -> Result<Vec<Arc<Tile>>, AllocError>
    requires seat { IsWorkersSeat cell.now (plan_at crew.now.desk) worker seat.old }
    requires ticket { HasTicket K.work_of (board_seen (plan_at crew.now.desk) seat.old) worker ticket.now }
    ensures seat { IsWorkersSeat cell.now (plan_at crew.now.desk) worker seat.new }
    ensures ticket { HasTicket K.work_of (board_seen (plan_at crew.now.desk) seat.new) worker ticket.now }
    ensures tiles { IfOk result (λ tiles. AreTilesOf (new_at crew.now.desk) tiles.items (list_at crew.now.desk.plan.now.needs ticket.now.task)) }
{
    good_tickets_stay_good();
    let _ = worker;
    let alloc = crew.alloc;
    cell.with_turn(rt, seat, ReadInputs { alloc, ticket })
}

/// Publishes the tile of the ticket's task.
pub(crate) fn publish<K: FlowKit, R: Wait>(
    rt: &R,
    cell: &TurnCell<Board<K>>,
    seat: &mut TurnSeat<Board<K>>,
    crew: &Crew<'_, K>,
    worker: u32,
    ticket: Ticket<K>,
    tile: Arc<Tile>,
)
    requires seat { IsWorkersSeat cell.now (plan_at crew.now.desk) worker seat.old }
    requires ticket { HasTicket K.work_of (board_seen (plan_at crew.now.desk) seat.old) worker ticket }
    requires done { IsDone (new_at crew.now.desk) ticket.task (work_in K.work_of ticket) }
    requires tile { IsTileFor (new_at crew.now.desk) ticket.task (arc_value tile) }
    ensures seat { IsWorkersSeat cell.now (plan_at crew.now.desk) worker seat.new }
    ensures free { HasFreeHands (board_seen (plan_at crew.now.desk) seat.new) worker }
{
    good_tickets_stay_good();
    let _ = crew;
    let _ = worker;
    cell.with_turn(rt, seat, PublishTile { ticket, tile });
}

/// Sends the next message of the ticket's work.
pub(crate) fn send<K: FlowKit, R: Wait>(
    rt: &R,
    cell: &TurnCell<Board<K>>,
    seat: &mut TurnSeat<Board<K>>,
    crew: &Crew<'_, K>,
    worker: u32,
    ticket: &Ticket<K>,
    message: Message,
)
    requires seat { IsWorkersSeat cell.now (plan_at crew.now.desk) worker seat.old }
    requires ticket { HasTicket K.work_of (board_seen (plan_at crew.now.desk) seat.old) worker ticket.now }
    requires next { IsSomeAnd (work_in K.work_of ticket.now) (λ w. IsMessageOf w message) }
    ensures seat { IsWorkersSeat cell.now (plan_at crew.now.desk) worker seat.new }
    ensures sent { HasSent K.work_of (board_seen (plan_at crew.now.desk) seat.new) worker ticket.now message.edge }
{
    good_tickets_stay_good();
    let _ = crew;
    let _ = worker;
    cell.with_turn(rt, seat, SendMessage { ticket, message });
}

/// Takes a message for the ticket's task, or parks the task.
pub(crate) fn take_or_park<K: FlowKit, R: Wait>(
    rt: &R,
    cell: &TurnCell<Board<K>>,
    seat: &mut TurnSeat<Board<K>>,
    crew: &Crew<'_, K>,
    worker: u32,
    ticket: Ticket<K>,
) -> Waiting<K>
    requires seat { IsWorkersSeat cell.now (plan_at crew.now.desk) worker seat.old }
    requires ticket { HasTicket K.work_of (board_seen (plan_at crew.now.desk) seat.old) worker ticket }
    requires waits { IsSomeAnd (work_in K.work_of ticket) HasToWait }
    ensures seat { IsWorkersSeat cell.now (plan_at crew.now.desk) worker seat.new }
    ensures next { HasTakenOrParked K.work_of (board_seen (plan_at crew.now.desk) seat.new) worker ticket result }
{
    good_tickets_stay_good();
    let _ = crew;
    let _ = worker;
    cell.with_turn(rt, seat, TakeOrPark { ticket })
}

/// Puts the ticket's task down.
pub(crate) fn put_down<K: FlowKit, R: Wait>(
    rt: &R,
    cell: &TurnCell<Board<K>>,
    seat: &mut TurnSeat<Board<K>>,
    crew: &Crew<'_, K>,
    worker: u32,
    ticket: Ticket<K>,
)
    requires seat { IsWorkersSeat cell.now (plan_at crew.now.desk) worker seat.old }
    requires ticket { HasTicket K.work_of (board_seen (plan_at crew.now.desk) seat.old) worker ticket }
    ensures seat { IsWorkersSeat cell.now (plan_at crew.now.desk) worker seat.new }
    ensures ended { HasEnded (board_seen (plan_at crew.now.desk) seat.new) worker }
{
    good_tickets_stay_good();
    let _ = crew;
    let _ = worker;
    cell.with_turn(rt, seat, PutTaskDown { ticket });
}
