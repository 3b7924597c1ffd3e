//! The work of a transport's task, between its holder's turns.

ghost use Rattle.std.specs.Prelude.{◌≡◌, IfOk, IsSome};
ghost use Rattle.std.specs.Arc.{arc_value};
ghost use Rattle.std.specs.Option.{IsSomeAnd};
ghost use Rattle.border_channel.specs.Locals.{local_part};
ghost use Rattle.drain_meaning.specs.Equations.{transport_of};
ghost use Rattle.task_tiles.specs.declared.tile.Tile.TheVariants.{Part as PartTile};
ghost use Rattle.task_board.specs.Boards.{IsTileFor};
ghost use Rattle.task_board.specs.Messages.{IsAtItsEnd};
ghost use Rattle.task_board.specs.Tickets.{IsDone, work_in};
ghost use Rattle.tile_runtime.specs.inside.Knowledge.{GoesOnOrEnds, IsWorkersSeat, new_at, plan_at, board_seen};
ghost use Rattle.tile_runtime.specs.inside.Moves.{ComesNext};
ghost use Rattle.tile_runtime.specs.inside.Turns.{HasTicket};

use crate::crew::Crew;
use crate::turns::{publish, put_down, send, take_or_park};
use border_channel::Message;
use flow_task::FlowKit;
use std::alloc::{AllocError, Global};
use std::sync::{Arc, Wait};
use task_board::{Board, Ticket, Waiting};
use task_tiles::Tile;
use tile_tasks::settled_works_give_their_tiles;
use turn_cell::{TurnCell, TurnSeat};

/// What a transport's work comes to next.
pub enum Move {
    /// It sends this message.
    Send(Message),
    /// All its cells are settled, and its tile is to be published.
    Finish,
    /// It has to wait for a message.
    Wait,
}

// What the ticket's work comes to next.
fn next_move<K: FlowKit>(kit: K, ticket: &Ticket<K>) -> Move
    requires { IsSome ticket.now.work }
    ensures { IsSomeAnd (work_in K.work_of ticket.now) (λ w. ComesNext w result) }
{
    match ticket.next_out(kit) {
        Some(message) => Move::Send(message),
        None => {
            if ticket.is_settled(kit) {
                Move::Finish
            } else {
                Move::Wait
            }
        }
    }
}

// The tile of a work that is at its end.
fn flow_tile<K: FlowKit>(alloc: Global, kit: K, ticket: &Ticket<K>) -> Result<Arc<Tile>, AllocError>
    requires { IsSomeAnd (work_in K.work_of ticket.now) IsAtItsEnd }
    ensures { IfOk result (λ tile. IsSomeAnd (work_in K.work_of ticket.now) (λ w. arc_value tile ≡ PartTile (local_part (transport_of w.which) w.of))) }
{
    let part = ticket.finish(kit, alloc)?;
    let tile = Arc::new(alloc, Tile::of_part(part))?;
    Ok(tile)
}

/// Publishes a held task with the tile that was made, or puts it down where memory was refused; tells whether the worker goes
/// on.
pub(crate) fn let_go<K: FlowKit, R: Wait>(
    rt: &R,
    cell: &TurnCell<Board<K>>,
    seat: &mut TurnSeat<Board<K>>,
    crew: &Crew<'_, K>,
    worker: u32,
    ticket: Ticket<K>,
    made: Result<Arc<Tile>, AllocError>,
) -> bool
    requires seat { IsWorkersSeat cell.now (plan_at crew.now.desk) worker seat.old }
    requires ticket { HasTicket K.work_of (board_seen (plan_at crew.now.desk) seat.old) worker ticket }
    requires done { IsDone (new_at crew.now.desk) ticket.task (work_in K.work_of ticket) }
    requires tile { IfOk made (λ tile. IsTileFor (new_at crew.now.desk) ticket.task (arc_value tile)) }
    ensures seat { IsWorkersSeat cell.now (plan_at crew.now.desk) worker seat.new }
    ensures goes { GoesOnOrEnds (board_seen (plan_at crew.now.desk) seat.new) worker result }
{
    match made {
        Ok(tile) => {
            publish(rt, cell, seat, crew, worker, ticket, tile);
            true
        }
        Err(_) => {
            put_down(rt, cell, seat, crew, worker, ticket);
            false
        }
    }
}

// Lets go of a held task whose work is at its end, and tells whether the worker goes on.
fn finish<K: FlowKit, R: Wait>(
    rt: &R,
    cell: &TurnCell<Board<K>>,
    seat: &mut TurnSeat<Board<K>>,
    crew: &Crew<'_, K>,
    worker: u32,
    ticket: Ticket<K>,
) -> bool
    requires seat { IsWorkersSeat cell.now (plan_at crew.now.desk) worker seat.old }
    requires ticket { HasTicket K.work_of (board_seen (plan_at crew.now.desk) seat.old) worker ticket }
    requires end { IsSomeAnd (work_in K.work_of ticket) IsAtItsEnd }
    ensures seat { IsWorkersSeat cell.now (plan_at crew.now.desk) worker seat.new }
    ensures goes { GoesOnOrEnds (board_seen (plan_at crew.now.desk) seat.new) worker result }
{
    settled_works_give_their_tiles();
    let made = flow_tile(crew.alloc, crew.kit, &ticket);
    let_go(rt, cell, seat, crew, worker, ticket, made)
}

/// Goes on with a ticket's work until its task is published, parked or put down, and tells whether the worker goes on.
pub(crate) fn flow_on<K: FlowKit, R: Wait>(
    rt: &R,
    cell: &TurnCell<Board<K>>,
    seat: &mut TurnSeat<Board<K>>,
    crew: &Crew<'_, K>,
    worker: u32,
    ticket: Ticket<K>,
) -> bool
    requires seat { IsWorkersSeat cell.now (plan_at crew.now.desk) worker seat.old }
    requires ticket { HasTicket K.work_of (board_seen (plan_at crew.now.desk) seat.old) worker ticket }
    requires begun { IsSome ticket.work }
    ensures seat { IsWorkersSeat cell.now (plan_at crew.now.desk) worker seat.new }
    ensures goes { GoesOnOrEnds (board_seen (plan_at crew.now.desk) seat.new) worker result }
{
    let mut ticket = ticket;
    for _ in rt.forever() {
        match next_move(crew.kit, &ticket) {
            Move::Send(message) => {
                let edge = message.edge;
                send(rt, cell, seat, crew, worker, &ticket, message);
                ticket.mark_sent(crew.kit, edge);
            }
            Move::Finish => return finish(rt, cell, seat, crew, worker, ticket),
            Move::Wait => match take_or_park(rt, cell, seat, crew, worker, ticket) {
                Waiting::Took(same, message) => {
                    ticket = same;
                    ticket.accept(crew.kit, message);
                }
                Waiting::Parked => return true,
            },
        }
    }
    unreachable!()
}
