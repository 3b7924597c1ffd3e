//! The work of a transport's task, driven by its holder.

ghost use Rattle.std.specs.Prelude.{◌≡◌, IfOk, MatchBool, OnErr, OnOk, None, Some, false, true};
ghost use Rattle.std.specs.Arc.{arc_value};
ghost use Rattle.std.specs.Option.{IsSome, IsSomeAnd};
ghost use Rattle.core_model.specs.declared.step.Step.TheVariants.{PutDown as PutDownStep};
ghost use Rattle.plan_graph.specs.PlanGraphs.{graph_of};
ghost use Rattle.task_tiles.specs.FlowTiles.{IsFlowBegun};
ghost use Rattle.task_board.specs.Boards.{HoldsTask, IsLegal, IsTileFor, state_of};
ghost use Rattle.task_board.specs.Claims.{NoMessageFor};
ghost use Rattle.task_board.specs.Messages.{HasToWait, IsAtItsEnd};
ghost use Rattle.task_board.specs.Tickets.{IsGoodTicket, work_in};
ghost use Rattle.task_board.specs.Holders.{GoesOn};
ghost use Rattle.task_board.specs.inside.Driven.{EndsWell, EndsBy, MakesStep, SendsNone, StaysSo};

use crate::board::Board;
use crate::let_go::let_go;
use crate::tasks::task_work;
use crate::ticket::Ticket;
use flow_task::FlowKit;
use std::alloc::{AllocError, Global};
use std::sync::Arc;
use task_tiles::Tile;
use tile_tasks::settled_works_give_their_tiles;

impl<K: FlowKit> Board<K> {
    // The work of a held task of a transport that was not begun.
    fn begun(&self, alloc: Global, ticket: &Ticket<K>) -> Result<K::Work, AllocError>
        requires holds { HoldsTask self.now ticket.now.worker ticket.now.task }
        requires flow { (graph_of self.now.plan).is_flow ticket.now.task ≡ true }
        ensures { IfOk result (λ w. IsFlowBegun self.now.plan.plan self.now.plan.span self.now.program self.now.known ticket.now.task (K.work_of w)) }
    {
        let mut tiles = Vec::new(alloc);
        self.inputs_into(ticket, &mut tiles)?;
        let work = task_work(
            alloc,
            self.kit,
            &self.plan,
            &self.program,
            &self.known,
            ticket.task,
            tiles.as_slice(),
        )?;
        Ok(work)
    }

    // Begins the work of a ticket, unless it was begun.
    fn begin(&self, alloc: Global, ticket: &mut Ticket<K>) -> Result<(), AllocError>
        requires good { IsGoodTicket K.work_of self.now ticket.old }
        requires flow { (graph_of self.now.plan).is_flow ticket.old.task ≡ true }
        ensures worker { ticket.new.worker ≡ ticket.old.worker }
        ensures task { ticket.new.task ≡ ticket.old.task }
        ensures good { IsGoodTicket K.work_of self.now ticket.new }
        ensures begun { OnOk result (IsSome ticket.new.work) }
    {
        if ticket.work.is_some() {
            return Ok(());
        }
        let work = self.begun(alloc, ticket)?;
        ticket.work = Some(work);
        Ok(())
    }

    // Sends the next message of a ticket's work, if there is one.
    fn send_next(&mut self, ticket: &mut Ticket<K>) -> bool
        requires good { IsGoodTicket K.work_of self.old ticket.old }
        requires begun { IsSome ticket.old.work }
        ensures goes { MatchBool result (MakesStep K.work_of self.old self.new ticket.old ticket.new) (StaysSo self.old self.new ticket.old ticket.new × SendsNone K.work_of ticket.old) }
        ensures legal { IsLegal self.new }
    {
        let _workers = self.workers();
        match ticket.next_out(self.kit()) {
            None => false,
            Some(message) => {
                let edge = message.edge;
                self.send(ticket, message);
                ticket.mark_sent(self.kit(), edge);
                true
            }
        }
    }

    // Takes a message for a ticket's work, if one waits.
    fn take_next(&mut self, ticket: &mut Ticket<K>) -> bool
        requires good { IsGoodTicket K.work_of self.old ticket.old }
        requires begun { IsSome ticket.old.work }
        ensures goes { MatchBool result (MakesStep K.work_of self.old self.new ticket.old ticket.new) (StaysSo self.old self.new ticket.old ticket.new × NoMessageFor self.old ticket.old.task) }
        ensures legal { IsLegal self.new }
    {
        match self.take(ticket) {
            None => false,
            Some(message) => {
                ticket.accept(self.kit(), message);
                true
            }
        }
    }

    // Sends all messages that a ticket's work has to send.
    fn send_all(&mut self, ticket: &mut Ticket<K>)
        requires good { IsGoodTicket K.work_of self.old ticket.old }
        requires begun { IsSome ticket.old.work }
        ensures goes { GoesOn K.work_of self.old self.new ticket.old ticket.new }
        ensures none { SendsNone K.work_of ticket.new }
        ensures legal { IsLegal self.new }
    {
        let _plan = self.plan();
        while self.send_next(ticket) {}
    }

    // Whether the ticket's work is at its end, where it has nothing to send; else it has to wait.
    fn is_at_its_end(&self, ticket: &Ticket<K>) -> bool
        requires good { IsGoodTicket K.work_of self.now ticket.now }
        requires begun { IsSome ticket.now.work }
        requires none { SendsNone K.work_of ticket.now }
        ensures { MatchBool result (IsSomeAnd (work_in K.work_of ticket.now) IsAtItsEnd) (IsSomeAnd (work_in K.work_of ticket.now) HasToWait) }
    {
        ticket.is_settled(self.kit)
    }

    /// The tile of a ticket's task, whose work is at its end.
    pub fn finished(&self, alloc: Global, ticket: &Ticket<K>) -> Result<Arc<Tile>, AllocError>
        requires good { IsGoodTicket K.work_of self.now ticket.now }
        requires end { IsSomeAnd (work_in K.work_of ticket.now) IsAtItsEnd }
        ensures { IfOk result (λ tile. IsTileFor self.now ticket.now.task (arc_value tile)) }
    {
        settled_works_give_their_tiles();
        let part = ticket.finish(self.kit, alloc)?;
        let tile = Arc::new(alloc, Tile::of_part(part))?;
        Ok(tile)
    }

    /// Works on a held task of a transport whose work was begun: sends what the work has to send and takes what waits for it, in
    /// turn. True: the work is at its end. False: it has to wait, and no message waits for it.
    pub fn work_through(&mut self, ticket: &mut Ticket<K>) -> bool
        requires good { IsGoodTicket K.work_of self.old ticket.old }
        requires begun { IsSome ticket.old.work }
        ensures goes { GoesOn K.work_of self.old self.new ticket.old ticket.new }
        ensures ends { MatchBool result (IsSomeAnd (work_in K.work_of ticket.new) IsAtItsEnd) (IsSomeAnd (work_in K.work_of ticket.new) HasToWait × NoMessageFor self.new ticket.new.task) }
        ensures legal { IsLegal self.new }
    {
        let _plan = self.plan();
        loop {
            self.send_all(ticket);
            if self.is_at_its_end(ticket) {
                return true;
            }
            if !self.take_next(ticket) {
                return false;
            }
        }
    }

    // Goes on with a ticket's work until its task is published, or no message waits for it and it is parked; or puts it down
    // where memory is refused.
    fn go_on(&mut self, alloc: Global, ticket: Ticket<K>) -> Result<(), AllocError>
        requires good { IsGoodTicket K.work_of self.old ticket }
        requires begun { IsSome ticket.work }
        requires can { (state_of self.old).has_put_down ticket.worker ≡ false }
        ensures ok { OnOk result (EndsWell self.old self.new ticket.worker ticket.task) }
        ensures err { OnErr result (EndsBy self.old self.new (PutDownStep ticket.worker ticket.task)) }
        ensures legal { IsLegal self.new }
    {
        let mut ticket = ticket;
        if self.work_through(&mut ticket) {
            let made = self.finished(alloc, &ticket);
            return let_go(self, ticket, made);
        }
        self.park(ticket);
        Ok(())
    }

    // Works on a held task of a transport.
    pub(crate) fn flow_on(&mut self, alloc: Global, ticket: Ticket<K>) -> Result<(), AllocError>
        requires good { IsGoodTicket K.work_of self.old ticket }
        requires flow { (graph_of self.old.plan).is_flow ticket.task ≡ true }
        requires can { (state_of self.old).has_put_down ticket.worker ≡ false }
        ensures ok { OnOk result (EndsWell self.old self.new ticket.worker ticket.task) }
        ensures err { OnErr result (EndsBy self.old self.new (PutDownStep ticket.worker ticket.task)) }
        ensures legal { IsLegal self.new }
    {
        let mut ticket = ticket;
        match self.begin(alloc, &mut ticket) {
            Ok(()) => self.go_on(alloc, ticket),
            Err(refused) => {
                self.put_down(ticket);
                Err(refused)
            }
        }
    }
}
