//! The channels of a plan's transports.

ghost use Rattle.std.specs.Prelude.{◌≡◌, ℕ, ◌+◌, ◌<◌, ◌^◌, ◌++◌, EachIndex, get_or, length, map, slice_index, IfOk, OnOk};
ghost use Rattle.plan_graph.specs.Borders.{no_flow};
ghost use Rattle.plan_graph.specs.inside.Channels.{AreChannels};
ghost use Rattle.plan_graph.specs.inside.Made.{slot_of};
ghost use Rattle.plan_graph.specs.inside.Slots.{joints_for};

use crate::borders::slot;
use crate::joints::Joints;
use sqlite_items::Items;
use std::alloc::{AllocError, Global};
use task_graph::FlowTasks;

/// The channels of transports, one for each joint: those of a transport are numbered behind those of the transports before.
#[derive(Drop)]
pub(crate) struct Channels {
    /// By transport, the number of its first channel.
    pub firsts: Items<u32>,
    /// By channel, the task that it leads into.
    pub receivers: Items<u32>,
    /// By channel, how many edges it has.
    pub rooms: Items<u32>,
}

/// A count as a number; want of memory where it is too large for one.
pub(crate) fn number(count: usize) -> Result<u32, AllocError>
    ensures { IfOk result (λ number. number ≡ count) }
{
    if count > u32::MAX as usize {
        return Err(AllocError);
    }
    Ok(count as u32)
}

// Appends the tasks of these tiles, the first of which is given.
fn add_receivers(first: u32, tiles: &[u32], receivers: &mut Vec<u32>) -> Result<(), AllocError>
    requires { EachIndex tiles.now (λ j. first + slice_index tiles.now j < 2 ^ 32) }
    ensures { OnOk result (receivers.new.items ≡ receivers.old.items ++ map (λ tile. first + tile) tiles.now) }
{
    for tile in tiles {
        receivers.push(first + *tile)?;
    }
    Ok(())
}

/// The channels of these transports.
pub(crate) fn channels_of(
    alloc: Global,
    flows: &[FlowTasks],
    joints: &Items<Joints>,
) -> Result<Channels, AllocError>
    requires there { (f : ℕ) → f < length flows.now → slot_of (get_or flows.now f no_flow) < length joints.now }
    requires fit { (f : ℕ) → f < length flows.now → EachIndex (joints_for joints.now (get_or flows.now f no_flow)).tiles (λ j. (get_or flows.now f no_flow).first + slice_index (joints_for joints.now (get_or flows.now f no_flow)).tiles j < 2 ^ 32) }
    ensures { IfOk result (AreChannels joints.now flows.now) }
{
    let mut firsts = Vec::with_capacity(alloc, flows.len())?;
    let mut receivers = Vec::new(alloc);
    let mut rooms = Vec::new(alloc);
    for flow in flows {
        let own = &joints.as_slice()[slot(*flow)];
        firsts.push(number(receivers.len())?)?;
        add_receivers(flow.first, own.tiles.as_slice(), &mut receivers)?;
        rooms.extend_from_slice(own.rooms.as_slice())?;
    }
    let _count = number(receivers.len())?;
    Ok(Channels {
        firsts: Items::from_vec(firsts),
        receivers: Items::from_vec(receivers),
        rooms: Items::from_vec(rooms),
    })
}
