//! Cells of a tile settle, one after the other.

ghost use Rattle.std.specs.Prelude.{◌≤◌, length, vec_capacity};
ghost use Rattle.flow_task.specs.inside.Abouts.{flow_of};
ghost use Rattle.flow_task.specs.inside.States.{Grows, state};
ghost use Rattle.flow_task.specs.inside.Underway.{IsWorkBegun, IsUnderway, tile_size};

use crate::about::About;
use crate::fed::FedCells;
use crate::packed::PackedCells;
use crate::state::end_cell;
use drain_meaning::FlowRule;

// Gives each queued cell its turn, from this place of the queue on, and each cell that is queued meanwhile.
pub(crate) fn settle<R: FlowRule>(
    rule: &R,
    about: &About,
    fed: &FedCells,
    a: &PackedCells,
    b: &PackedCells,
    inflows: &mut Vec<R::Acc>,
    missing: &mut Vec<u8>,
    queue: &mut Vec<u32>,
    from: usize,
)
    requires begun { IsWorkBegun (R.transport rule.now) (flow_of (R.transport rule.now).orient about.now a.now b.now) fed.now a.now b.now }
    requires underway { IsUnderway (R.transport rule.now) (R.rule rule.now) (flow_of (R.transport rule.now).orient about.now a.now b.now) (state inflows.old.items missing.old.items queue.old.items) from }
    requires room { tile_size (flow_of (R.transport rule.now).orient about.now a.now b.now) ≤ vec_capacity queue.old }
    ensures underway { IsUnderway (R.transport rule.now) (R.rule rule.now) (flow_of (R.transport rule.now).orient about.now a.now b.now) (state inflows.new.items missing.new.items queue.new.items) (length queue.new.items) }
    ensures grows { Grows queue.old.items queue.new.items }
    ensures capacity { vec_capacity queue.old ≤ vec_capacity queue.new }
{
    let mut head = from;
    while head < queue.len() {
        let cell = queue[head];
        end_cell(rule, fed, a, b, inflows, missing, queue, cell);
        head += 1;
    }
}
