//! The calls by which a transport's task sends, takes and waits.

ghost use Rattle.std.specs.Prelude.{◌≡◌, IsSome};
ghost use Rattle.std.specs.Option.{IsSomeAnd};
ghost use Rattle.core_model.specs.declared.step.Step.TheVariants.{Park as ParkStep, Send as SendStep};
ghost use Rattle.task_board.specs.Boards.{IsLegal, board_with_step};
ghost use Rattle.task_board.specs.Claims.{NoMessageFor, TakeGives};
ghost use Rattle.task_board.specs.Messages.{HasToWait, IsMessageOf};
ghost use Rattle.task_board.specs.Tickets.{IsGoodTicket, work_in};

use crate::board::Board;
use crate::channels::waiting_channel;
use crate::ticket::Ticket;
use border_channel::Message;
use core_model::Step;
use flow_task::FlowKit;
use tile_tasks::messages_fit_loads;

impl<K: FlowKit> Board<K> {
    /// The holder of a transport's task sends the next message of its work. Whoever waits for it can then be claimed.
    pub fn send(&mut self, ticket: &Ticket<K>, message: Message)
        requires good { IsGoodTicket K.work_of self.old ticket.now }
        requires next { IsSomeAnd (work_in K.work_of ticket.now) (λ w. IsMessageOf w message) }
        ensures step { self.new ≡ board_with_step self.old (SendStep ticket.now.worker ticket.now.task message.edge) }
        ensures legal { IsLegal self.new }
    {
        let worker = ticket.worker;
        let task = ticket.task;
        let edge = message.edge;
        let channel = self.plan.channel(task, edge);
        let receiver = self.plan.receiver(channel);
        self.channels[channel as usize].put(message);
        self.states.wake(receiver);
        self.history
            .push_reserved(Step::Send { worker, task, edge });
    }

    /// The holder of a transport's task takes a message for it, the oldest of its channel; None exactly where none waits.
    pub fn take(&mut self, ticket: &Ticket<K>) -> Option<Message>
        requires good { IsGoodTicket K.work_of self.old ticket.now }
        requires begun { IsSome ticket.now.work }
        ensures gives { TakeGives K.work_of self.old ticket.now result self.new }
        ensures legal { IsLegal self.new }
    {
        messages_fit_loads();
        let worker = ticket.worker;
        let task = ticket.task;
        let (first, joints) = self.plan.inbound(task);
        match waiting_channel(self.channels.as_slice(), first, joints) {
            None => None,
            Some(channel) => {
                let Some(message) = self.channels[channel].take() else {
                    unreachable!()
                };
                let edge = message.edge;
                self.history
                    .push_reserved(Step::Take { worker, task, edge });
                Some(message)
            }
        }
    }

    /// The holder of a transport's task parks it with its work, until a message comes.
    pub fn park(&mut self, ticket: Ticket<K>)
        requires good { IsGoodTicket K.work_of self.old ticket }
        requires waits { IsSomeAnd (work_in K.work_of ticket) HasToWait }
        requires none { NoMessageFor self.old ticket.task }
        ensures step { self.new ≡ board_with_step self.old (ParkStep ticket.worker ticket.task) }
        ensures legal { IsLegal self.new }
    {
        let Ticket { worker, task, work } = ticket;
        self.states.park(worker, task);
        self.works[task as usize] = work;
        self.history.push_reserved(Step::Park { worker, task });
    }
}
