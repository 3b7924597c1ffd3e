//! How many tasks there are.

ghost use Rattle.std.specs.Prelude.{◌≡◌, ◌≤◌, ◌+◌, ◌*◌, length, map, slice_range};
ghost use Rattle.text_base.specs.Limits.{most_cells};
ghost use Rattle.map_meaning.specs.Limits.{most_block, most_operations};
ghost use Rattle.map_meaning.specs.Programs.{IsWellFormed};
ghost use Rattle.map_meaning.specs.Spans.{IsSpan};
ghost use Rattle.tile_map.specs.Tiles.{tile_count};
ghost use Rattle.map_meaning.specs.Spans.{initial_stages, is_computed};
ghost use Rattle.task_graph.specs.Counts.{most_tasks_of, span_tasks, task_count, tasks_of};

use crate::class::size;
use map_meaning::{DrainFrom, Operation, Program, Span};
use tile_map::Tiling;

// How many tasks these operations have.
pub(crate) fn tasks_of(tiles: u32, operations: &[Operation]) -> u64
    requires tiles { tiles ≤ most_cells }
    requires few { length operations.now ≤ most_operations }
    ensures value { result ≡ tasks_of tiles operations.now }
    ensures few { result ≤ length operations.now * (2 * most_cells + 1) }
{
    let mut count: u64 = 0;
    for operation in operations {
        count += size(tiles, operation.op) as u64;
    }
    count
}

// How many tasks a stage of `initial` has.
fn stage_tasks(tiles: u32, program: &Program, first: u32, end: u32) -> u64
    requires tiles { tiles ≤ most_cells }
    requires order { first ≤ end }
    requires there { end ≤ length program.now.initial }
    requires few { length program.now.initial ≤ most_operations }
    ensures { result ≡ tasks_of tiles (slice_range program.now.initial first end) }
{
    tasks_of(
        tiles,
        &program.initial.as_slice()[first as usize..end as usize],
    )
}

/// How many tasks a span has.
pub fn span_tasks(program: &Program, span: Span, tiles: u32) -> u64
    requires program { IsWellFormed program.now }
    requires span { IsSpan program.now span most_block }
    requires tiles { tiles ≤ most_cells }
    ensures { result ≡ span_tasks tiles program.now span }
{
    match span {
        Span::Initial { first, end } => stage_tasks(tiles, program, first, end),
        Span::Steps { first, last } => {
            (last + 1 - first) as u64 * tasks_of(tiles, program.dynamic.as_slice())
        }
    }
}

// Whether a drain map is computed by a statement.
fn is_computed(from: DrainFrom) -> bool
    ensures { result ≡ is_computed from }
{
    !matches!(from, DrainFrom::Input(_))
}

// The greatest number of tasks of a stage of `initial`.
fn most_of_stages(tiles: u32, program: &Program) -> u64
    requires tiles { tiles ≤ most_cells }
    requires program { IsWellFormed program.now }
    ensures { result ≡ most_tasks_of (map (span_tasks tiles program.now) (initial_stages program.now)) }
{
    let mut most: u64 = 0;
    let mut first = 0;
    for drain in program.drains.as_slice() {
        if is_computed(drain.from) {
            most = most.max(stage_tasks(tiles, program, first, drain.after));
            first = drain.after;
        }
    }
    most.max(stage_tasks(tiles, program, first, program.initial.len() as u32))
}

/// The number of tasks of a program: the greatest of a stage of `initial`, or that of `dynamic` times the steps of a block.
pub fn count_tasks(program: &Program, tiling: &Tiling, block: u32) -> u64
    requires program { IsWellFormed program.now }
    requires block { block ≤ most_block }
    ensures { result ≡ task_count (tile_count tiling.now) program.now block }
{
    let tiles = tiling.count();
    let steps = block.min(program.steps) as u64;
    most_of_stages(tiles, program).max(steps * tasks_of(tiles, program.dynamic.as_slice()))
}
