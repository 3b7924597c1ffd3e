//! The joints of a plan's transports.

ghost use Rattle.std.specs.Prelude.{◌≡◌, ℕ, ◌*◌, ◌<◌, ◌^◌, [], false, get_or, length, replicate, IfOk, OnOk};
ghost use Rattle.plan_graph.specs.Borders.{AreDrained, borders_of};
ghost use Rattle.plan_graph.specs.inside.Joined.{EdgesAreWithin};
ghost use Rattle.plan_graph.specs.inside.Slots.{HaveJoints, IsOneMade, no_joints};

use crate::borders::{Borders, slot};
use crate::joints::{Joints, joints_of};
use border_channel::Edge;
use map_meaning::Known;
use number_lists::Lists;
use sqlite_items::Items;
use std::alloc::{AllocError, Global};
use task_graph::Plan;
use tile_map::Tiling;

// The joints of nothing.
fn no_joints(alloc: Global) -> Joints
    ensures { result ≡ no_joints }
{
    Joints {
        outbound: Lists::new(alloc),
        inbound: Lists::new(alloc),
        joints: Items::new(alloc),
        tiles: Items::new(alloc),
        rooms: Items::new(alloc),
        into: Lists::new(alloc),
    }
}

// These so many times.
fn empty_joints(alloc: Global, count: usize) -> Result<Items<Joints>, AllocError>
    ensures { IfOk result (λ lists. lists ≡ replicate count no_joints) }
{
    let mut lists = Items::new(alloc);
    for _n in 0..count {
        lists.push(no_joints(alloc))?;
    }
    Ok(lists)
}

// Makes the joints of these edges at a place, unless they were made.
fn make_joints(
    alloc: Global,
    tiling: &Tiling,
    edges: &[Edge],
    slot: usize,
    lists: &mut Items<Joints>,
    made: &mut Vec<bool>,
) -> Result<(), AllocError>
    requires within { EdgesAreWithin tiling.now edges.now }
    requires few { length edges.now < 2 ^ 32 }
    requires lists { slot < length lists.old }
    requires made { slot < length made.old.items }
    ensures { OnOk result (IsOneMade tiling.now edges.now slot lists.old lists.new made.old.items made.new.items) }
{
    if made[slot] {
        return Ok(());
    }
    let joints = joints_of(alloc, tiling, edges)?;
    lists.set(slot, joints);
    made[slot] = true;
    Ok(())
}

/// The joints of each of a plan's transports, once for each drain map and orientation.
pub(crate) fn made_joints(
    alloc: Global,
    known: &Known,
    plan: &Plan,
    borders: &Borders,
) -> Result<Items<Joints>, AllocError>
    requires drained { AreDrained plan.now.tiling known.now.drains plan.now.flows }
    requires borders { borders.now ≡ borders_of plan.now known.now.drains }
    requires within { (f : ℕ) → f < length plan.now.flows → EdgesAreWithin plan.now.tiling (get_or borders.now f []) }
    requires few { (f : ℕ) → f < length plan.now.flows → length (get_or borders.now f []) < 2 ^ 32 }
    ensures { IfOk result (HaveJoints plan.now.tiling known.now.drains plan.now.flows) }
{
    let count = 2 * known.drains.as_slice().len();
    let mut lists = empty_joints(alloc, count)?;
    let mut made = vec![in alloc; false; count]?;
    let flows = plan.flows();
    for f in 0..flows.len() {
        let edges = borders.edges(f);
        make_joints(
            alloc,
            plan.tiling(),
            edges,
            slot(flows[f]),
            &mut lists,
            &mut made,
        )?;
    }
    Ok(lists)
}
