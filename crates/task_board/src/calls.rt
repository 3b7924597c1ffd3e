//! The calls that make a step.

ghost use Rattle.std.specs.Prelude.{◌≡◌, ◌≤◌, false};
ghost use Rattle.std.specs.Arc.{arc_value};
ghost use Rattle.core_model.specs.declared.step.Step.TheVariants.{Publish as PublishStep, PutDown as PutDownStep};
ghost use Rattle.task_board.specs.Boards.{IsFree, IsLegal, IsTileFor, state_of, board_with_step};
ghost use Rattle.task_board.specs.Claims.{ClaimGives};
ghost use Rattle.task_board.specs.Tickets.{IsDone, IsGoodTicket, work_in};

use crate::board::Board;
use crate::noted::{earlier, noted};
use crate::ticket::{Claim, Ticket};
use crate::unread::put_and_give_up;
use core_model::Step;
use flow_task::FlowKit;
use std::sync::Arc;
use task_tiles::Tile;

impl<K: FlowKit> Board<K> {
    /// A worker that holds no task claims one.
    pub fn claim(&mut self, worker: u32) -> Claim<K>
        requires number { worker ≤ self.old.workers }
        requires free { IsFree self.old worker }
        ensures gives { ClaimGives K.work_of self.old worker result self.new }
        ensures legal { IsLegal self.new }
    {
        match self.states.claim(worker) {
            None => match self.states.holder() {
                Some((holder, task)) => Claim::Idle { holder, task },
                None => Claim::Finished,
            },
            Some(task) => {
                self.history.push_reserved(Step::Claim { worker, task });
                let work = self.works[task as usize].take();
                Claim::Got(Ticket { worker, task, work })
            }
        }
    }

    /// The holder of a task publishes it with its tile. Tiles that no task is to read any more, and that are not handed out, are
    /// let go.
    pub fn publish(&mut self, ticket: Ticket<K>, tile: Arc<Tile>)
        requires good { IsGoodTicket K.work_of self.old ticket }
        requires done { IsDone self.old ticket.task (work_in K.work_of ticket) }
        requires tile { IsTileFor self.old ticket.task (arc_value tile) }
        ensures step { self.new ≡ board_with_step self.old (PublishStep ticket.worker ticket.task) }
        ensures legal { IsLegal self.new }
    {
        let Ticket {
            worker,
            task,
            work: _,
        } = ticket;
        let note = noted(&self.plan, &self.program, &self.known, task, &tile);
        self.over = earlier(self.over, note);
        self.states.publish(worker, task, self.plan.readers(task));
        put_and_give_up(
            self.tiles.as_mut_slice(),
            self.unread.as_mut_slice(),
            self.kept.as_slice(),
            task,
            tile,
            self.plan.needs(task),
        );
        self.history.push_reserved(Step::Publish { worker, task });
    }

    /// The holder of a task puts it down unfinished, with its work. It can be claimed again.
    pub fn put_down(&mut self, ticket: Ticket<K>)
        requires good { IsGoodTicket K.work_of self.old ticket }
        requires can { (state_of self.old).has_put_down ticket.worker ≡ false }
        ensures step { self.new ≡ board_with_step self.old (PutDownStep ticket.worker ticket.task) }
        ensures legal { IsLegal self.new }
    {
        let Ticket { worker, task, work } = ticket;
        self.states.put_down(worker, task);
        self.works[task as usize] = work;
        self.history.push_reserved(Step::PutDown { worker, task });
    }
}
