//! The transports of a plan's tasks.

ghost use Rattle.std.specs.Prelude.{◌≡◌, ◌⊎◌, ℕ, ◌+◌, ◌<◌, ◌≤◌, get_or, length, IfOk};
ghost use Rattle.plan_graph.specs.inside.Numbers.{AreTold, HaveTasks};

use crate::channels::number;
use sqlite_items::Items;
use std::alloc::{AllocError, Global};
use task_graph::Plan;

// Notes the number of a transport for each of its tasks.
fn note_tasks(first: u32, tiles: u32, transport: u32, told: &mut Vec<u32>)
    requires { first + tiles ≤ length told.old.items }
    ensures many { length told.new.items ≡ length told.old.items }
    ensures own { (tile : ℕ) → tile < tiles → get_or told.new.items (first + tile) 0 ≡ transport }
    ensures others { (t : ℕ) → (t < first) ⊎ (first + tiles ≤ t) → get_or told.new.items t 0 ≡ get_or told.old.items t 0 }
{
    for tile in 0..tiles {
        told[first as usize + tile as usize] = transport;
    }
}

/// By task, the number of the transport that it is of.
pub(crate) fn transports_of(alloc: Global, plan: &Plan) -> Result<Items<u32>, AllocError>
    requires { HaveTasks plan.now }
    ensures { IfOk result (AreTold plan.now (length plan.now.flows)) }
{
    let mut told = vec![in alloc; 0; plan.tasks() as usize]?;
    let tiles = plan.tiling().count();
    let flows = plan.flows();
    for f in 0..flows.len() {
        note_tasks(flows[f].first, tiles, number(f)?, &mut told);
    }
    Ok(Items::from_vec(told))
}
