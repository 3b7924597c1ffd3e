//! Lists of a board on which nothing was done.

ghost use Rattle.std.specs.Prelude.{◌≡◌, ℕ, ◌<◌, length, IfOk, slice_get, slice_index, slice_index_or, false, None};
ghost use Rattle.plan_graph.specs.PlanGraphs.{list_at};
ghost use Rattle.task_board.specs.Tiles.{hands_out, hands_out_at, hands_out_map};

use map_meaning::{Operation, Program, Span};
use plan_graph::PlanGraph;
use std::alloc::{AllocError, Global};
use task_graph::{Task, Work};

/// So many places without a value.
pub fn empties<T: Drop>(alloc: Global, count: usize) -> Result<Vec<Option<T>>, AllocError>
    ensures all { IfOk result (λ v. length v.items ≡ count) }
    ensures none { IfOk result (λ v. (k : ℕ) → slice_index_or v.items k None ≡ None) }
{
    let mut list = Vec::with_capacity(alloc, count)?;
    for _ in 0..count {
        list.push(None)?;
    }
    Ok(list)
}

/// How many tasks each task reads.
pub fn need_counts(alloc: Global, plan: &PlanGraph) -> Result<Vec<u32>, AllocError>
    ensures all { IfOk result (λ v. length v.items ≡ plan.now.tasks) }
    ensures counts { IfOk result (λ v. (t : ℕ) → t < plan.now.tasks → slice_index v.items t ≡ length (list_at plan.now.needs t)) }
{
    let tasks = plan.tasks();
    let mut counts = Vec::with_capacity(alloc, tasks as usize)?;
    for task in 0..tasks {
        counts.push(plan.needs(task).len() as u32)?;
    }
    Ok(counts)
}

/// How many tasks read each task, each counted as often as it does.
pub fn reader_counts(alloc: Global, plan: &PlanGraph) -> Result<Vec<u32>, AllocError>
    ensures all { IfOk result (λ v. length v.items ≡ plan.now.tasks) }
    ensures counts { IfOk result (λ v. (t : ℕ) → t < plan.now.tasks → slice_index v.items t ≡ length (list_at plan.now.readers t)) }
{
    let tasks = plan.tasks();
    let mut counts = Vec::with_capacity(alloc, tasks as usize)?;
    for task in 0..tasks {
        counts.push(plan.readers(task).len() as u32)?;
    }
    Ok(counts)
}

// Whether the map of the operation with this number is handed out.
fn hands_out_map(operations: &[Operation], number: u32) -> bool
    ensures { result ≡ hands_out_map (slice_get operations.now number) }
{
    match operations.get(number as usize) {
        Some(operation) => operation.kept,
        None => false,
    }
}

// Whether the task's tile is a part of a map that is handed out.
fn is_handed_out(program: &Program, span: Span, task: Task) -> bool
    ensures { result ≡ hands_out program.now span task.work task.operation }
{
    match task.work {
        Work::Partial => false,
        Work::Merge => false,
        _ => match span {
            Span::Initial { .. } => hands_out_map(program.initial.as_slice(), task.operation),
            Span::Steps { .. } => hands_out_map(program.dynamic.as_slice(), task.operation),
        },
    }
}

/// By task, whether its tile is a part of a map that is handed out.
pub fn kept_tasks(
    alloc: Global,
    plan: &PlanGraph,
    program: &Program,
) -> Result<Vec<bool>, AllocError>
    ensures all { IfOk result (λ v. length v.items ≡ plan.now.tasks) }
    ensures kept { IfOk result (λ v. (t : ℕ) → t < plan.now.tasks → slice_index_or v.items t false ≡ hands_out_at plan.now.plan program.now plan.now.span t) }
{
    let tasks = plan.tasks();
    let span = plan.span();
    let mut kept = Vec::with_capacity(alloc, tasks as usize)?;
    for task in 0..tasks {
        kept.push(is_handed_out(program, span, plan.plan().task(task)))?;
    }
    Ok(kept)
}
