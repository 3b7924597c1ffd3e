//! A board that its caller drives alone.

ghost use Rattle.std.specs.Prelude.{◌≡◌, IfOk, OnErr, OnOk, false};
ghost use Rattle.std.specs.Arc.{arc_value};
ghost use Rattle.core_model.specs.declared.step.Step.TheVariants.{PutDown as PutDownStep};
ghost use Rattle.plan_graph.specs.PlanGraphs.{graph_of};
ghost use Rattle.task_board.specs.Boards.{Continues, HoldsTask, IsFinished, IsLegal, IsTileFor, NobodyHolds, state_of};
ghost use Rattle.task_board.specs.Tickets.{IsGoodTicket};
ghost use Rattle.task_board.specs.inside.Driven.{EndsWell, EndsBy};

use crate::board::Board;
use crate::let_go::let_go;
use crate::tasks::task_tile;
use crate::ticket::{Claim, Ticket};
use flow_task::FlowKit;
use std::alloc::{AllocError, Global};
use std::sync::Arc;
use task_tiles::Tile;

// The tile of a held task that is no transport's.
fn made<K: FlowKit>(
    board: &Board<K>,
    alloc: Global,
    ticket: &Ticket<K>,
) -> Result<Arc<Tile>, AllocError>
    requires holds { HoldsTask board.now ticket.now.worker ticket.now.task }
    requires local { (graph_of board.now.plan).is_flow ticket.now.task ≡ false }
    ensures { IfOk result (λ tile. IsTileFor board.now ticket.now.task (arc_value tile)) }
{
    let mut tiles = Vec::new(alloc);
    board.inputs_into(ticket, &mut tiles)?;
    let tile = task_tile(
        alloc,
        board.plan(),
        board.program(),
        board.known(),
        ticket.task,
        tiles.as_slice(),
    )?;
    Ok(tile)
}

// Works on a held task that is no transport's.
fn local_on<K: FlowKit>(
    board: &mut Board<K>,
    alloc: Global,
    ticket: Ticket<K>,
) -> Result<(), AllocError>
    requires good { IsGoodTicket K.work_of board.old ticket }
    requires local { (graph_of board.old.plan).is_flow ticket.task ≡ false }
    requires can { (state_of board.old).has_put_down ticket.worker ≡ false }
    ensures ok { OnOk result (EndsWell board.old board.new ticket.worker ticket.task) }
    ensures err { OnErr result (EndsBy board.old board.new (PutDownStep ticket.worker ticket.task)) }
    ensures legal { IsLegal board.new }
{
    let made = made(board, alloc, &ticket);
    let_go(board, ticket, made)
}

// Works on a held task until it is published or has to wait, or puts it down where memory is refused.
fn work_on<K: FlowKit>(
    board: &mut Board<K>,
    alloc: Global,
    ticket: Ticket<K>,
) -> Result<(), AllocError>
    requires good { IsGoodTicket K.work_of board.old ticket }
    requires can { (state_of board.old).has_put_down ticket.worker ≡ false }
    ensures ok { OnOk result (EndsWell board.old board.new ticket.worker ticket.task) }
    ensures err { OnErr result (EndsBy board.old board.new (PutDownStep ticket.worker ticket.task)) }
    ensures legal { IsLegal board.new }
{
    if board.plan().is_flow(ticket.task) {
        board.flow_on(alloc, ticket)
    } else {
        local_on(board, alloc, ticket)
    }
}

impl<K: FlowKit> Board<K> {
    /// Finishes the board as worker 0. Where memory is refused, it has put its task down.
    pub fn drive_alone(&mut self, alloc: Global) -> Result<(), AllocError>
        requires idle { NobodyHolds self.old }
        requires can { (state_of self.old).has_put_down 0 ≡ false }
        ensures finished { OnOk result (IsFinished self.new) }
        ensures continues { Continues self.old self.new }
        ensures legal { IsLegal self.new }
        ensures idle { NobodyHolds self.new }
        ensures done { IsFinished self.old → self.new ≡ self.old }
    {
        let _tasks = self.plan().tasks();
        'tasks: loop {
            match self.claim(0) {
                Claim::Finished => return Ok(()),
                Claim::Idle { .. } => unreachable!(),
                Claim::Got(ticket) => work_on(self, alloc, ticket)?,
            }
        }
    }
}
