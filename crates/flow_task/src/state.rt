//! How a transport over a tile goes on: flow comes to a cell from each cell that feeds it, and a cell to which all has come
//! passes its own on.

ghost use Rattle.std.specs.Prelude.{◌≡◌, ◌+◌, ◌-◌, ◌<◌, ◌≤◌, length, slice_index_or, slice_set, vec_capacity};
ghost use Rattle.drain_meaning.specs.Rules.{FitsBefore};
ghost use Rattle.tile_map.specs.Cuts.{cell_at};
ghost use Rattle.flow_task.specs.inside.States.{CanEnd, CanPass, CanReceive, end_here, fed_cells, inflow_at, missing_at, passed_on, queued, received, state};

use crate::fed::FedCells;
use crate::packed::PackedCells;
use drain_meaning::{Flow, FlowEnd, FlowRule};

// A flow comes to a cell. The cell is queued where nothing more is missing.
pub(crate) fn receive<R: FlowRule>(
    rule: &R,
    inflows: &mut Vec<R::Acc>,
    missing: &mut Vec<u8>,
    queue: &mut Vec<u32>,
    cell: u32,
    flow: Flow,
)
    requires { CanReceive (R.rule rule.now) (state inflows.old.items missing.old.items queue.old.items) cell flow (vec_capacity queue.old) }
    ensures inflows { inflows.new.items ≡ slice_set inflows.old.items cell ((R.rule rule.now).joined (slice_index_or inflows.old.items cell (R.rule rule.now).none) ((R.rule rule.now).lifted flow)) }
    ensures missing { missing.new.items ≡ slice_set missing.old.items cell (slice_index_or missing.old.items cell 0 - 1) }
    ensures queue { queue.new.items ≡ queued queue.old.items (slice_index_or missing.old.items cell 0) cell }
    ensures capacity { vec_capacity queue.old ≤ vec_capacity queue.new }
{
    let at = cell as usize;
    inflows[at] = rule.add(inflows[at], rule.lift(flow));
    let missed = missing[at];
    missing[at] = missed - 1;
    if missed == 1 {
        let _ = queue.push(cell);
    }
}

// A flow comes to the cells that one feeds.
pub(crate) fn pass_on<R: FlowRule>(
    rule: &R,
    inflows: &mut Vec<R::Acc>,
    missing: &mut Vec<u8>,
    queue: &mut Vec<u32>,
    cells: &[u32],
    flow: Flow,
)
    requires { CanPass (R.rule rule.now) cells.now flow (vec_capacity queue.old) (state inflows.old.items missing.old.items queue.old.items) }
    ensures state { state inflows.new.items missing.new.items queue.new.items ≡ passed_on (R.rule rule.now) cells.now flow (state inflows.old.items missing.old.items queue.old.items) }
    ensures capacity { vec_capacity queue.old ≤ vec_capacity queue.new }
{
    for cell in cells {
        receive(rule, inflows, missing, queue, *cell, flow);
    }
}

// The end of a cell to which all has come.
pub(crate) fn end_of<R: FlowRule>(
    rule: &R,
    a: &PackedCells,
    b: &PackedCells,
    inflows: &Vec<R::Acc>,
    cell: u32,
) -> FlowEnd
    requires inflow { cell < length inflows.now.items }
    requires a { cell < length a.now }
    requires b { cell < length b.now }
    requires fits { FitsBefore (R.rule rule.now) (slice_index_or inflows.now.items cell (R.rule rule.now).none) }
    ensures { result ≡ (R.rule rule.now).ended (slice_index_or inflows.now.items cell (R.rule rule.now).none) (cell_at a.now cell) (cell_at b.now cell) }
{
    let at = cell as usize;
    rule.finish(inflows[at], a.at(at), b.at(at))
}

// A cell to which all has come has its end, and passes its flow on in the tile.
pub(crate) fn end_cell<R: FlowRule>(
    rule: &R,
    fed: &FedCells,
    a: &PackedCells,
    b: &PackedCells,
    inflows: &mut Vec<R::Acc>,
    missing: &mut Vec<u8>,
    queue: &mut Vec<u32>,
    cell: u32,
)
    requires { CanEnd (R.rule rule.now) (state inflows.old.items missing.old.items queue.old.items) fed.now a.now b.now cell (vec_capacity queue.old) }
    ensures state { state inflows.new.items missing.new.items queue.new.items ≡ passed_on (R.rule rule.now) (fed_cells fed.now cell) (end_here (R.rule rule.now) (state inflows.old.items missing.old.items queue.old.items) a.now b.now cell).out (state inflows.old.items missing.old.items queue.old.items) }
    ensures capacity { vec_capacity queue.old ≤ vec_capacity queue.new }
{
    let end = end_of(rule, a, b, inflows, cell);
    pass_on(
        rule,
        inflows,
        missing,
        queue,
        fed.list(cell as usize),
        end.out,
    );
}
