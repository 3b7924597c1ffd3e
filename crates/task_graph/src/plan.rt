ghost use Rattle.std.specs.Prelude.{◌≡◌, ◌≤◌, ◌<◌, length, slice_get, slice_index, Some, IfErr, IfOk};
ghost use Rattle.tile_map.specs.Tiles.{tile_count};
ghost use Rattle.number_lists.specs.Lists.{numbers_in};
ghost use Rattle.map_meaning.specs.Limits.{most_block};
ghost use Rattle.map_meaning.specs.Programs.{IsWellFormed};
ghost use Rattle.map_meaning.specs.Spans.{IsSpan};
ghost use Rattle.task_graph.specs.Counts.{span_tasks};
ghost use Rattle.task_graph.specs.Layouts.{laid_in};
ghost use Rattle.task_graph.specs.Limits.{most_needs, most_tasks};
ghost use Rattle.task_graph.specs.Plans.{entries_of, needs_at, readers_at, span_plan};
ghost use Rattle.task_graph.specs.Ends.{IsEndAt};
ghost use Rattle.task_graph.specs.inside.Grown.{IsDrawn};
ghost use Rattle.task_graph.specs.inside.Held.{IsSmallPlan};

use crate::build::{Drawn, draw};
use crate::count::span_tasks;
use crate::flows::FlowTasks;
use crate::lay::{firsts, flows, lay};
use crate::layout::{Laid, Layout};
use crate::task::Task;
use map_meaning::{Program, Span};
use number_lists::Lists;
use sqlite_items::Items;
use std::alloc::{AllocError, Global};
use std::marker::Model;
use tile_map::Tiling;

/// How many tasks a plan may have.
pub const MOST_TASKS: u64 = 1_048_576;

/// Why there is no plan.
#[derive(Clone, Copy, Debug, PartialEq, Eq)]
pub enum PlanEnd {
    /// The span has too many tasks.
    TooManyTasks {
        /// How many it has.
        count: u64,
    },
    /// Want of memory.
    Memory,
}

/// The tasks of a span in their order, and what each reads.
#[derive(Drop)]
pub struct Plan {
    tiling: Tiling,
    tasks: Items<Task>,
    needs: Lists,
    readers: Lists,
    flows: Items<FlowTasks>,
}

impl Model for Plan {
    ghost use Rattle.task_graph.specs.Plans.{PlanValue};
    ghost use Rattle.task_graph.specs.inside.Held.{IsHeldPlan};

    ghost Value = { PlanValue };

    ghost view = { λ p. record { tiling = p.tiling; tasks = p.tasks; needs = p.needs; flows = p.flows } };

    ghost invariant = { λ p. IsHeldPlan p.tasks p.needs p.readers };
}

impl Plan {
    /// How many tasks there are.
    pub fn tasks(&self) -> u32
        ensures value { result ≡ length self.now.tasks }
        ensures few { result ≤ most_tasks }
    {
        self.tasks.len() as u32
    }

    /// The task with this number.
    pub fn task(&self, t: u32) -> Task
        requires { t < length self.now.tasks }
        ensures { slice_get self.now.tasks t ≡ Some result }
    {
        self.tasks.as_slice()[t as usize]
    }

    /// What the task with this number reads: the tasks whose tiles it reads, in their order.
    pub fn needs(&self, t: u32) -> &[u32]
        requires { t < length self.now.tasks }
        ensures { result.now ≡ needs_at self.now t }
    {
        self.needs.list(t as usize)
    }

    /// How many tasks the task with this number reads, each counted as often as it reads it.
    pub fn need_count(&self, t: u32) -> u32
        requires { t < length self.now.tasks }
        ensures { result ≡ length (needs_at self.now t) }
    {
        self.needs.list(t as usize).len() as u32
    }

    /// One of the tasks that the task with this number reads.
    pub fn need(&self, t: u32, i: u32) -> u32
        requires task { t < length self.now.tasks }
        requires need { i < length (needs_at self.now t) }
        ensures { result ≡ slice_index (needs_at self.now t) i }
    {
        self.needs(t)[i as usize]
    }

    /// The tasks that read the tile of the task with this number, in ascending order, each as often as it reads it.
    pub fn readers(&self, t: u32) -> &[u32]
        requires { t < length self.now.tasks }
        ensures { result.now ≡ readers_at self.now t }
    {
        self.readers.list(t as usize)
    }

    /// How many tasks read the tile of the task with this number, each counted as often as it reads it.
    pub fn reader_count(&self, t: u32) -> u32
        requires { t < length self.now.tasks }
        ensures { result ≡ length (readers_at self.now t) }
    {
        self.readers.list(t as usize).len() as u32
    }

    /// The transports among its operations, each at its steps.
    pub fn flows(&self) -> &[FlowTasks]
        ensures { result.now ≡ self.now.flows }
    {
        self.flows.as_slice()
    }

    /// The tiles.
    pub fn tiling(&self) -> &Tiling
        ensures { result.now ≡ self.now.tiling }
    {
        &self.tiling
    }
}

// The tasks of a span's operations at its steps, and what each reads.
fn drawn(
    alloc: Global,
    program: &Program,
    span: Span,
    tiling: &Tiling,
    operations: &[Laid],
) -> Result<Drawn, AllocError>
    requires program { IsWellFormed program.now }
    requires span { IsSpan program.now span most_block }
    requires few { span_tasks (tile_count tiling.now) program.now span ≤ most_tasks }
    requires operations { operations.now ≡ laid_in program.now span }
    ensures drawn { IfOk result (λ drawn. IsDrawn drawn (entries_of program.now span tiling.now)) }
    ensures small { IfOk result (λ drawn. IsSmallPlan drawn.tasks drawn.needs) }
{
    let layout = Layout {
        tiling: *tiling,
        span,
        many: program.dynamic.len() as u32,
        firsts: firsts(alloc, tiling.count(), operations)?,
    };
    let drawn = draw(alloc, &layout, operations)?;
    Ok(drawn)
}

// The plan of a span that has no more tasks than a plan may have.
fn planned(
    alloc: Global,
    program: &Program,
    span: Span,
    tiling: &Tiling,
) -> Result<Plan, AllocError>
    requires program { IsWellFormed program.now }
    requires span { IsSpan program.now span most_block }
    requires few { span_tasks (tile_count tiling.now) program.now span ≤ most_tasks }
    ensures plan { IfOk result (λ plan. plan ≡ span_plan program.now span tiling.now) }
    ensures few { IfOk result (λ plan. numbers_in plan.needs ≤ most_needs) }
{
    let laid = lay(alloc, program, span)?;
    let Drawn { tasks, needs } = drawn(alloc, program, span, tiling, laid.as_slice())?;
    let readers = needs.turned(alloc, tasks.len() as u32)?;
    let flows = flows(alloc, tiling.count(), laid.as_slice())?;
    Ok(Plan {
        tiling: *tiling,
        tasks,
        needs,
        readers,
        flows,
    })
}

/// The plan of a span.
pub fn build_plan(
    alloc: Global,
    program: &Program,
    span: Span,
    tiling: &Tiling,
) -> Result<Plan, PlanEnd>
    requires program { IsWellFormed program.now }
    requires span { IsSpan program.now span most_block }
    ensures plan { IfOk result (λ plan. (span_tasks (tile_count tiling.now) program.now span ≤ most_tasks) × (plan ≡ span_plan program.now span tiling.now)) }
    ensures few { IfOk result (λ plan. numbers_in plan.needs ≤ most_needs) }
    ensures end { IfErr result (IsEndAt (span_tasks (tile_count tiling.now) program.now span)) }
{
    let count = span_tasks(program, span, tiling.count());
    if count > MOST_TASKS {
        return Err(PlanEnd::TooManyTasks { count });
    }
    match planned(alloc, program, span, tiling) {
        Ok(plan) => Ok(plan),
        Err(_) => Err(PlanEnd::Memory),
    }
}
