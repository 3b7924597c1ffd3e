//! The tasks of operations and what each reads.

ghost use Rattle.std.specs.Prelude.{◌≡◌, ◌≤◌, ◌<◌, ◌+◌, ◌∷◌, [], true, OnOk, IfOk};
ghost use Rattle.tile_map.specs.Tiles.{tile_count};
ghost use Rattle.task_graph.specs.Classes.{op_class};
ghost use Rattle.task_graph.specs.Layouts.{tasks_in};
ghost use Rattle.task_graph.specs.Limits.{most_needs, most_tasks};
ghost use Rattle.task_graph.specs.Needs.{each_tile, entries_for, entries_from, entry_of};
ghost use Rattle.task_graph.specs.inside.Grown.{CanLay, CanLayAll, Grown, IsDrawn};

use crate::class::{Class, op_class, size};
use crate::layout::{Laid, Layout};
use crate::needs::needs;
use crate::task::{Task, Work};
use number_lists::Lists;
use sqlite_items::Items;
use std::alloc::{AllocError, Global};

/// How many tasks the tasks of a plan may read together, each counted as often as it is read: 64 a task, at four bytes each. A
/// plan that reads more, as of wide windows over many tiles of one cell, is answered by want of memory before it fills it.
const MOST_NEEDS: usize = 67_108_864;

/// Tasks and what each reads.
#[derive(Drop)]
pub(crate) struct Drawn {
    /// The tasks.
    pub tasks: Items<Task>,
    /// What each reads.
    pub needs: Lists,
}

// Whether a plan may read so many tasks more.
fn has_room(read: usize, more: usize) -> bool
    ensures { result ≡ true → read + more ≤ most_needs }
{
    more <= MOST_NEEDS && read <= MOST_NEEDS - more
}

// Adds one task.
#[tactic(auto, using(crate::proofs::GrownLemmas::few_more))]
fn add_task(
    alloc: Global,
    drawn: &mut Drawn,
    layout: &Layout,
    start: u32,
    laid: Laid,
    work: Work,
    tile: u32,
) -> Result<(), AllocError>
    requires can { CanLay layout.now start laid }
    requires tile { tile < tile_count layout.now.tiling }
    ensures { OnOk result (Grown drawn.old drawn.new (entry_of layout.now start laid work tile ∷ [])) }
{
    let needs = needs(alloc, layout, start, laid, work, tile)?;
    if !has_room(drawn.needs.total(), needs.len()) {
        return Err(AllocError);
    }
    drawn.needs.add(needs.as_slice())?;
    drawn.tasks.push(Task {
        step: laid.step,
        operation: laid.number,
        work,
        tile,
    })
}

// Adds a task for each tile.
fn add_each(
    alloc: Global,
    drawn: &mut Drawn,
    layout: &Layout,
    start: u32,
    laid: Laid,
    work: Work,
) -> Result<(), AllocError>
    requires { CanLay layout.now start laid }
    ensures { OnOk result (Grown drawn.old drawn.new (each_tile layout.now start laid work)) }
{
    for tile in 0..layout.tiling.count() {
        add_task(alloc, drawn, layout, start, laid, work, tile)?;
    }
    Ok(())
}

// Adds the tasks of an operation.
#[tactic(auto, using(crate::proofs::GrownLemmas::grown_area))]
fn add_operation(
    alloc: Global,
    drawn: &mut Drawn,
    layout: &Layout,
    start: u32,
    laid: Laid,
) -> Result<(), AllocError>
    requires some { 0 < tile_count layout.now.tiling }
    requires can { CanLay layout.now start laid }
    ensures { OnOk result (Grown drawn.old drawn.new (entries_for layout.now start laid (op_class laid.operation.op))) }
{
    match op_class(laid.operation.op) {
        Class::Local => add_each(alloc, drawn, layout, start, laid, Work::Local),
        Class::Window => add_each(alloc, drawn, layout, start, laid, Work::Window),
        Class::Near => add_each(alloc, drawn, layout, start, laid, Work::Near),
        Class::Flow => add_each(alloc, drawn, layout, start, laid, Work::Flow),
        Class::Area => {
            add_each(alloc, drawn, layout, start, laid, Work::Partial)?;
            add_task(alloc, drawn, layout, start, laid, Work::Merge, 0)?;
            add_each(alloc, drawn, layout, start, laid, Work::Spread)
        }
    }
}

/// The tasks of these operations and what each reads.
#[tactic(auto, using(crate::proofs::GrownLemmas::on_way_end))]
pub(crate) fn draw(alloc: Global, layout: &Layout, operations: &[Laid]) -> Result<Drawn, AllocError>
    requires some { 0 < tile_count layout.now.tiling }
    requires few { tasks_in (tile_count layout.now.tiling) operations.now ≤ most_tasks }
    requires can { CanLayAll layout.now 0 operations.now }
    ensures { IfOk result (λ drawn. IsDrawn drawn (entries_from layout.now 0 operations.now)) }
{
    let mut drawn = Drawn {
        tasks: Items::new(alloc),
        needs: Lists::new(alloc),
    };
    let mut start = 0;
    for laid in operations {
        add_operation(alloc, &mut drawn, layout, start, *laid)?;
        start += size(layout.tiling.count(), laid.operation.op);
    }
    Ok(drawn)
}
