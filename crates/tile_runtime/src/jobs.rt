//! What a worker does in one turn, besides a claim, and a take or park.

ghost use Rattle.std.specs.Prelude.{◌≡◌, IfOk, false};
ghost use Rattle.std.specs.Arc.{arc_value};
ghost use Rattle.std.specs.Option.{IsSomeAnd};
ghost use Rattle.core_model.specs.declared.step.Step.TheVariants.{Publish as PublishStep, PutDown as PutDownStep, Send as SendStep};
ghost use Rattle.plan_graph.specs.PlanGraphs.{list_at};
ghost use Rattle.task_board.specs.Boards.{IsLegal, IsTileFor, board_with_step, state_of};
ghost use Rattle.task_board.specs.Messages.{IsMessageOf};
ghost use Rattle.task_board.specs.Tickets.{IsDone, IsGoodTicket, work_in};
ghost use Rattle.task_board.specs.Tiles.{AreTilesOf};

use border_channel::Message;
use flow_task::FlowKit;
use std::alloc::{AllocError, Global};
use std::sync::Arc;
use task_board::{Board, Ticket};
use task_tiles::Tile;
use turn_cell::Job;

/// The holder of a task is handed the tiles that it reads.
pub struct ReadInputs<'a, K: FlowKit> {
    pub alloc: Global,
    pub ticket: &'a Ticket<K>,
}

impl<'a, K: FlowKit> Job<Board<K>> for ReadInputs<'a, K> {
    type Answer = Result<Vec<Arc<Tile>>, AllocError>;

    ghost acts_as = { λ job. job.ticket.now.worker };

    ghost can_act = { λ job b. IsLegal b → IsGoodTicket K.work_of b job.ticket.now };

    ghost gives = { λ job b answer c. IsLegal c × (c ≡ b) × IfOk answer (λ tiles. AreTilesOf b tiles.items (list_at b.plan.needs job.ticket.now.task)) };

    fn act(self, value: &mut Board<K>) -> Result<Vec<Arc<Tile>>, AllocError> {
        let ReadInputs { alloc, ticket } = self;
        let _workers = value.workers();
        let mut tiles = Vec::new(alloc);
        value.inputs_into(ticket, &mut tiles)?;
        Ok(tiles)
    }
}

/// The holder of a task publishes its tile.
pub struct PublishTile<K: FlowKit> {
    pub ticket: Ticket<K>,
    pub tile: Arc<Tile>,
}

impl<K: FlowKit> Job<Board<K>> for PublishTile<K> {
    type Answer = ();

    ghost acts_as = { λ job. job.ticket.worker };

    ghost can_act = { λ job b. IsLegal b → IsGoodTicket K.work_of b job.ticket × IsDone b job.ticket.task (work_in K.work_of job.ticket) × IsTileFor b job.ticket.task (arc_value job.tile) };

    ghost gives = { λ job b _ c. IsLegal c × (c ≡ board_with_step b (PublishStep job.ticket.worker job.ticket.task)) };

    fn act(self, value: &mut Board<K>) {
        let PublishTile { ticket, tile } = self;
        let _workers = value.workers();
        value.publish(ticket, tile);
    }
}

/// The holder of a transport's task sends the next message of its work.
pub struct SendMessage<'a, K: FlowKit> {
    pub ticket: &'a Ticket<K>,
    pub message: Message,
}

impl<'a, K: FlowKit> Job<Board<K>> for SendMessage<'a, K> {
    type Answer = ();

    ghost acts_as = { λ job. job.ticket.now.worker };

    ghost can_act = { λ job b. IsLegal b → IsGoodTicket K.work_of b job.ticket.now × IsSomeAnd (work_in K.work_of job.ticket.now) (λ w. IsMessageOf w job.message) };

    ghost gives = { λ job b _ c. IsLegal c × (c ≡ board_with_step b (SendStep job.ticket.now.worker job.ticket.now.task job.message.edge)) };

    fn act(self, value: &mut Board<K>) {
        let SendMessage { ticket, message } = self;
        let _workers = value.workers();
        value.send(ticket, message);
    }
}

/// The holder of a task puts it down unfinished, with its work.
pub struct PutTaskDown<K: FlowKit> {
    pub ticket: Ticket<K>,
}

impl<K: FlowKit> Job<Board<K>> for PutTaskDown<K> {
    type Answer = ();

    ghost acts_as = { λ job. job.ticket.worker };

    ghost can_act = { λ job b. IsLegal b → IsGoodTicket K.work_of b job.ticket × ((state_of b).has_put_down job.ticket.worker ≡ false) };

    ghost gives = { λ job b _ c. IsLegal c × (c ≡ board_with_step b (PutDownStep job.ticket.worker job.ticket.task)) };

    fn act(self, value: &mut Board<K>) {
        let PutTaskDown { ticket } = self;
        let _workers = value.workers();
        value.put_down(ticket);
    }
}
