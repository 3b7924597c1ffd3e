//! Turns of a board behind a turn cell.

ghost use Rattle.std.specs.Prelude.{◌≤◌};
ghost use Rattle.std.specs.Option.{IsSomeAnd};
ghost use Rattle.core_model.specs.Steps.{worker_of};
ghost use Rattle.task_board.specs.Boards.{IsFree, IsLegal};
ghost use Rattle.task_board.specs.Claims.{ClaimGives, WaitingGives};
ghost use Rattle.task_board.specs.Messages.{HasToWait};
ghost use Rattle.task_board.specs.Tickets.{IsGoodTicket, work_in};

use crate::board::Board;
use crate::ticket::{Claim, Ticket, Waiting};
use core_model::Step;
use flow_task::FlowKit;
use map_meaning::{Known, Program};
use plan_graph::PlanGraph;
use turn_cell::{Chronicle, Job};

/// What stays as it is, whoever acts. No value of it is made.
pub struct BoardPlan {
    pub plan: PlanGraph,
    pub program: Program,
    pub known: Known,
    pub workers: u32,
}

impl<K: FlowKit> Chronicle for Board<K> {
    type Plan = BoardPlan;

    type Entry = Step;

    ghost plan = { λ b. record { plan = b.plan; program = b.program; known = b.known; workers = b.workers } };

    ghost history = { λ b. b.history };

    ghost author = { worker_of };
}

/// A worker claims a task.
pub struct ClaimTask {
    pub worker: u32,
}

impl<K: FlowKit> Job<Board<K>> for ClaimTask {
    type Answer = Claim<K>;

    ghost acts_as = { λ job. job.worker };

    ghost can_act = { λ job b. (job.worker ≤ b.workers) × (IsLegal b → IsFree b job.worker) };

    ghost gives = { λ job b answer c. IsLegal c × ClaimGives K.work_of b job.worker answer c };

    fn act(self, value: &mut Board<K>) -> Claim<K> {
        let ClaimTask { worker } = self;
        let _workers = value.workers();
        value.claim(worker)
    }
}

/// A worker that has to wait for a message takes one for its task, or parks it where none waits. It is one job: from one turn
/// to the next a message may come.
pub struct TakeOrPark<K: FlowKit> {
    pub ticket: Ticket<K>,
}

impl<K: FlowKit> Job<Board<K>> for TakeOrPark<K> {
    type Answer = Waiting<K>;

    ghost acts_as = { λ job. job.ticket.worker };

    ghost can_act = { λ job b. IsLegal b → IsGoodTicket K.work_of b job.ticket × IsSomeAnd (work_in K.work_of job.ticket) HasToWait };

    ghost gives = { λ job b answer c. IsLegal c × WaitingGives K.work_of b job.ticket answer c };

    fn act(self, value: &mut Board<K>) -> Waiting<K> {
        let TakeOrPark { ticket } = self;
        let _workers = value.workers();
        match value.take(&ticket) {
            Some(message) => Waiting::Took(ticket, message),
            None => {
                value.park(ticket);
                Waiting::Parked
            }
        }
    }
}
