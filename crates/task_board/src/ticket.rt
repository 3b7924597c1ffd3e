//! Tickets: what a worker has that holds a task.

ghost use Rattle.std.specs.Prelude.{◌≡◌, IfOk, Some};
ghost use Rattle.std.specs.Option.{IsSome, IsSomeAnd, option_map};
ghost use Rattle.border_channel.specs.Locals.{local_part};
ghost use Rattle.border_channel.specs.Outbound.{next_due, next_message};
ghost use Rattle.border_channel.specs.Settled.{all_settled};
ghost use Rattle.drain_meaning.specs.Equations.{orient_of, transport_of};
ghost use Rattle.flow_task.specs.Works.{CanAccept, accepted, marked};

use border_channel::Message;
use flow_task::FlowKit;
use std::alloc::{AllocError, Global};
use tile_map::Part;

/// The task that a worker holds, and its work if it was begun. It is spent by the call that lets go of the task.
pub struct Ticket<K: FlowKit> {
    pub worker: u32,
    pub task: u32,
    pub work: Option<K::Work>,
}

/// What a claim gives.
pub enum Claim<K: FlowKit> {
    /// The worker holds a task.
    Got(Ticket<K>),
    /// No task can be claimed, and another worker holds this one.
    Idle { holder: u32, task: u32 },
    /// All tasks are published.
    Finished,
}

/// What waiting for a message gives.
pub enum Waiting<K: FlowKit> {
    /// One waited already, and was taken.
    Took(Ticket<K>, Message),
    /// None waits, and the task was parked.
    Parked,
}

impl<K: FlowKit> Ticket<K> {
    ghost use Rattle.task_board.specs.Messages.{IsAtItsEnd};
    ghost use Rattle.task_board.specs.Tickets.{work_in};

    /// The next message that its work has to send, if there is one.
    pub fn next_out(&self, kit: K) -> Option<Message>
        requires { IsSome self.now.work }
        ensures { IsSomeAnd (work_in K.work_of self.now) (λ w. result ≡ next_message (transport_of w.which) w.of w.sent) }
    {
        match &self.work {
            Some(work) => kit.next_out(work),
            None => unreachable!(),
        }
    }

    /// Its work marks the edge of the next message as sent.
    pub fn mark_sent(&mut self, kit: K, edge: u32)
        requires { IsSomeAnd (work_in K.work_of self.old) (λ w. next_due (orient_of w.which) w.of w.sent ≡ Some edge) }
        ensures worker { self.new.worker ≡ self.old.worker }
        ensures task { self.new.task ≡ self.old.task }
        ensures work { work_in K.work_of self.new ≡ option_map (λ w. marked w edge) (work_in K.work_of self.old) }
    {
        match &mut self.work {
            Some(work) => kit.mark_sent(work, edge),
            None => unreachable!(),
        }
    }

    /// Its work accepts a message.
    pub fn accept(&mut self, kit: K, message: Message)
        requires { IsSomeAnd (work_in K.work_of self.old) (λ w. CanAccept (orient_of w.which) w.of message) }
        ensures worker { self.new.worker ≡ self.old.worker }
        ensures task { self.new.task ≡ self.old.task }
        ensures work { work_in K.work_of self.new ≡ option_map (λ w. accepted w message) (work_in K.work_of self.old) }
    {
        match &mut self.work {
            Some(work) => kit.accept(work, message),
            None => unreachable!(),
        }
    }

    /// Whether all cells of its work are settled.
    pub fn is_settled(&self, kit: K) -> bool
        requires { IsSome self.now.work }
        ensures { IsSomeAnd (work_in K.work_of self.now) (λ w. result ≡ all_settled (orient_of w.which) w.of) }
    {
        match &self.work {
            Some(work) => kit.is_settled(work),
            None => unreachable!(),
        }
    }

    /// The results of its work, which is at its end.
    pub fn finish(&self, kit: K, alloc: Global) -> Result<Part, AllocError>
        requires { IsSomeAnd (work_in K.work_of self.now) IsAtItsEnd }
        ensures { IfOk result (λ part. IsSomeAnd (work_in K.work_of self.now) (λ w. part ≡ local_part (transport_of w.which) w.of)) }
    {
        match &self.work {
            Some(work) => kit.finish(alloc, work),
            None => unreachable!(),
        }
    }
}
