//! The board, and what it tells of itself.

ghost use Rattle.std.specs.Prelude.{◌≡◌, ◌≤◌, IfOk, not};
ghost use Rattle.std.specs.Arc.{arc_value};
ghost use Rattle.flow_task.specs.Kits.{KnowsAll};
ghost use Rattle.map_meaning.specs.Table.{is_transport};
ghost use Rattle.plan_graph.specs.PlanGraphs.{IsPlan};
ghost use Rattle.task_tiles.specs.TaskTiles.{IsPlanned};
ghost use Rattle.task_board.specs.Boards.{IsLegal, IsOfItsSpan, new_board, state_of};

use crate::channels::channels;
use crate::fresh::{empties, kept_tasks, need_counts, reader_counts};
use border_channel::Channel;
use core_model::Step;
use flow_task::FlowKit;
use map_meaning::{Known, OverAt, Program};
use plan_graph::PlanGraph;
use std::alloc::{AllocError, Global};
use std::marker::Model;
use std::sync::Arc;
use task_states::TaskStates;
use task_tiles::Tile;

/// The tasks of a span, which workers claim and publish. Worker 0 is the caller of `drive_alone`; the others are 1 to `workers`.
pub struct Board<K: FlowKit> {
    pub(crate) kit: K,
    pub(crate) plan: Arc<PlanGraph>,
    pub(crate) program: Arc<Program>,
    pub(crate) known: Arc<Known>,
    pub(crate) workers: u32,
    /// Where each task stands.
    pub(crate) states: TaskStates,
    /// By task, its tile, from its publication to the last one of its readers, or to the end where it is handed out.
    pub(crate) tiles: Vec<Option<Arc<Tile>>>,
    /// By task, how many tasks that read it are unpublished.
    pub(crate) unread: Vec<u32>,
    /// By task, whether its tile is handed out.
    pub(crate) kept: Vec<bool>,
    /// By task, its work while nobody holds it.
    pub(crate) works: Vec<Option<K::Work>>,
    /// By channel, the messages on their way.
    pub(crate) channels: Vec<Channel>,
    /// The steps that were made, with room for every run.
    pub(crate) history: Vec<Step>,
    /// The first of what the tiles of published tasks note.
    pub(crate) over: Option<OverAt>,
}

impl<K: FlowKit> Model for Board<K> {
    ghost use Rattle.std.specs.Prelude.{map, vec_capacity};
    ghost use Rattle.std.specs.Option.{option_map};
    ghost use Rattle.std.specs.Arc.{arc_value};
    ghost use Rattle.task_board.specs.Boards.{BoardValue};
    ghost use Rattle.task_board.specs.inside.Held.{IsBoard};

    ghost Value = { BoardValue };

    ghost view = { λ b. record {
      plan = arc_value b.plan;
      program = arc_value b.program;
      known = arc_value b.known;
      workers = b.workers;
      history = b.history.items;
    } };

    ghost invariant = { λ b. IsBoard record {
      plan = arc_value b.plan;
      program = arc_value b.program;
      known = arc_value b.known;
      knows = K.known b.kit;
      workers = b.workers;
      states = b.states;
      tiles = b.tiles.items;
      unread = b.unread.items;
      kept = b.kept.items;
      works = map (option_map K.work_of) b.works.items;
      channels = b.channels.items;
      history = b.history.items;
      room = vec_capacity b.history;
      over = b.over;
    } };
}

impl<K: FlowKit> Board<K> {
    /// A board on which nothing was done, with the room that every run asks for. No later call but `inputs_into`, `drive_alone`
    /// and `collect` takes memory.
    pub fn make(
        alloc: Global,
        kit: K,
        plan: Arc<PlanGraph>,
        program: Arc<Program>,
        known: Arc<Known>,
        workers: u32,
    ) -> Result<Board<K>, AllocError>
        requires plan { IsPlanned (arc_value plan).plan (arc_value plan).span (arc_value program) (arc_value known) }
        requires drains { (arc_value plan).drains ≡ (arc_value known).drains }
        requires kit { KnowsAll is_transport (K.known kit) }
        requires workers { workers ≤ 64 }
        ensures { IfOk result (λ board. board ≡ new_board (arc_value plan) (arc_value program) (arc_value known) workers) }
    {
        let tasks = plan.tasks() as usize;
        let most = 2 * tasks + 4 * plan.all_edges() as usize + 2 * (workers as usize + 1);
        let states = TaskStates::make(alloc, need_counts(alloc, &plan)?, workers)?;
        let tiles = empties(alloc, tasks)?;
        let unread = reader_counts(alloc, &plan)?;
        let kept = kept_tasks(alloc, &plan, &program)?;
        let works = empties(alloc, tasks)?;
        let channels = channels(alloc, plan.rooms())?;
        let history = Vec::with_capacity(alloc, most)?;
        Ok(Board {
            kit,
            plan,
            program,
            known,
            workers,
            states,
            tiles,
            unread,
            kept,
            works,
            channels,
            history,
            over: None,
        })
    }

    /// What computes transports.
    pub fn kit(&self) -> K
        ensures { KnowsAll is_transport (K.known result) }
    {
        self.kit
    }

    /// Its plan.
    pub fn plan(&self) -> &Arc<PlanGraph>
        ensures value { arc_value result.now ≡ self.now.plan }
        ensures keeps { IsPlan self.now.plan }
        ensures of { IsOfItsSpan self.now }
    {
        &self.plan
    }

    /// The program.
    pub fn program(&self) -> &Arc<Program>
        ensures { arc_value result.now ≡ self.now.program }
    {
        &self.program
    }

    /// What is known before the span.
    pub fn known(&self) -> &Arc<Known>
        ensures { arc_value result.now ≡ self.now.known }
    {
        &self.known
    }

    /// How many workers there are, beside the caller.
    pub fn workers(&self) -> u32
        ensures value { result ≡ self.now.workers }
        ensures legal { IsLegal self.now }
    {
        self.workers
    }

    /// Whether the worker has put no task down.
    pub fn can_put_down(&self, worker: u32) -> bool
        requires { worker ≤ self.now.workers }
        ensures value { (state_of self.now).has_put_down worker ≡ not result }
        ensures legal { IsLegal self.now }
    {
        self.states.can_put_down(worker)
    }
}

impl<K: FlowKit> Drop for Board<K> {
    fn drop(self) {
        let Self {
            kit: _,
            plan: _,
            program: _,
            known: _,
            workers: _,
            states: _,
            tiles: _,
            unread: _,
            kept: _,
            works: _,
            channels: _,
            history: _,
            over: _,
        } = self;
    }
}
