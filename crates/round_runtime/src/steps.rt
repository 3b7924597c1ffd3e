//! The steps of a task whose ticket is in hand.

ghost use Rattle.std.specs.Prelude.{IfOk, OnOk};
ghost use Rattle.std.specs.Option.{IsSome};
ghost use Rattle.task_board.specs.Boards.{IsLegal};
ghost use Rattle.task_board.specs.Tickets.{IsGoodTicket};
ghost use Rattle.round_runtime.specs.inside.Free.{FreesItself};
ghost use Rattle.round_runtime.specs.inside.Jobs.{IsOutcomeFor};
ghost use Rattle.round_runtime.specs.inside.Lists.{IsFrontOf, LastIs};

use crate::compute::Outcome;
use flow_task::FlowKit;
use std::alloc::{AllocError, Global};
use task_board::{Board, Ticket};

/// Takes a ticket apart, where memory is refused and the board is given up.
pub fn give_up<K: FlowKit>(ticket: Ticket<K>) {
    let Ticket {
        worker: _,
        task: _,
        work: _,
    } = ticket;
}

// Sends what a begun work has to send and takes what waits for it, in turn, and then publishes its task or parks it.
fn flow_on<K: FlowKit>(
    board: &mut Board<K>,
    alloc: Global,
    ticket: Ticket<K>,
) -> Result<(), AllocError>
    requires good { IsGoodTicket K.work_of board.old ticket }
    requires begun { IsSome ticket.work }
    ensures go { OnOk result (FreesItself ticket.worker board.old board.new) }
    ensures legal { IsLegal board.new }
{
    let _workers = board.workers();
    let _plan = board.plan();
    let mut ticket = ticket;
    if board.work_through(&mut ticket) {
        match board.finished(alloc, &ticket) {
            Ok(tile) => {
                board.publish(ticket, tile);
                Ok(())
            }
            Err(refused) => {
                give_up(ticket);
                Err(refused)
            }
        }
    } else {
        board.park(ticket);
        Ok(())
    }
}

/// Makes the steps of a held task, by what its thread gave.
pub fn make_steps<K: FlowKit>(
    board: &mut Board<K>,
    alloc: Global,
    ticket: Ticket<K>,
    outcome: Outcome<K::Work>,
) -> Result<(), AllocError>
    requires good { IsGoodTicket K.work_of board.old ticket }
    requires outcome { IsOutcomeFor K.work_of board.old ticket outcome }
    ensures go { OnOk result (FreesItself ticket.worker board.old board.new) }
    ensures legal { IsLegal board.new }
{
    let _workers = board.workers();
    let _plan = board.plan();
    match outcome {
        Outcome::Made(tile) => {
            board.publish(ticket, tile);
            Ok(())
        }
        Outcome::Begun(work) => {
            let Ticket {
                worker,
                task,
                work: _,
            } = ticket;
            let begun = Ticket {
                worker,
                task,
                work: Some(work),
            };
            flow_on(board, alloc, begun)
        }
        Outcome::Underway => flow_on(board, alloc, ticket),
    }
}

/// Makes the steps of a held task, by the last of what threads gave, and hands back the rest of that.
pub fn step_of<K: FlowKit>(
    board: &mut Board<K>,
    alloc: Global,
    ticket: Ticket<K>,
    outcomes: Vec<Result<Outcome<K::Work>, AllocError>>,
) -> Result<Vec<Result<Outcome<K::Work>, AllocError>>, AllocError>
    requires good { IsGoodTicket K.work_of board.old ticket }
    requires last { LastIs (λ outcome. IfOk outcome (IsOutcomeFor K.work_of board.old ticket)) outcomes.items }
    ensures go { OnOk result (FreesItself ticket.worker board.old board.new) }
    ensures front { IfOk result (λ v. IsFrontOf outcomes.items v.items) }
    ensures legal { IsLegal board.new }
{
    let _workers = board.workers();
    let mut outcomes = outcomes;
    match outcomes.pop() {
        None => unreachable!(),
        Some(Err(refused)) => {
            give_up(ticket);
            Err(refused)
        }
        Some(Ok(outcome)) => {
            make_steps(board, alloc, ticket, outcome)?;
            Ok(outcomes)
        }
    }
}
