//! The joints of border edges: the pairs of tiles that they join.

ghost use Rattle.std.specs.Prelude.{◌≡◌, ℕ, ◌*◌, ◌%◌, ◌<◌, ◌≤◌, ◌^◌, EachIndex, IfOk, length, map, slice_index};
ghost use Rattle.std.specs.List.{Contains, range_with_len};
ghost use Rattle.std.specs.List.Sorted.{IsStrictlyIncreasing};
ghost use Rattle.tile_map.specs.Tiles.{tile_count};
ghost use Rattle.border_channel.specs.Own.{edges_into, edges_out_of};
ghost use Rattle.plan_graph.specs.Joints.{pair_of};
ghost use Rattle.plan_graph.specs.inside.Joined.{AreJoints, EdgesAreWithin, number_counts, number_place, source_tiles, target_tiles};
ghost use Rattle.plan_graph.specs.inside.Distinct.{IsSortedSet};

use crate::places::places_by_number;
use border_channel::Edge;
use number_lists::Lists;
use sqlite_items::Items;
use std::alloc::{AllocError, Global};
use tile_map::Tiling;

/// Border edges by tiles, and by the pairs of tiles that they join, which are numbered in ascending order.
#[derive(Drop)]
pub(crate) struct Joints {
    /// By tile, the numbers of the edges out of it.
    pub outbound: Lists,
    /// By tile, the numbers of the edges into it.
    pub inbound: Lists,
    /// By edge, the number of its joint.
    pub joints: Items<u32>,
    /// By joint, the tile that it leads into.
    pub tiles: Items<u32>,
    /// By joint, how many edges it has.
    pub rooms: Items<u32>,
    /// By tile, the numbers of the joints into it.
    pub into: Lists,
}

// By edge, the tile that it leaves.
fn source_tiles(alloc: Global, tiling: &Tiling, edges: &[Edge]) -> Result<Vec<u32>, AllocError>
    requires { EdgesAreWithin tiling.now edges.now }
    ensures { IfOk result (λ tiles. tiles.items ≡ source_tiles tiling.now edges.now) }
{
    let mut tiles = Vec::with_capacity(alloc, edges.len())?;
    for edge in edges {
        tiles.push(tiling.tile_of(edge.source))?;
    }
    Ok(tiles)
}

// By edge, the tile that it leads into.
fn target_tiles(alloc: Global, tiling: &Tiling, edges: &[Edge]) -> Result<Vec<u32>, AllocError>
    requires { EdgesAreWithin tiling.now edges.now }
    ensures { IfOk result (λ tiles. tiles.items ≡ target_tiles tiling.now edges.now) }
{
    let mut tiles = Vec::with_capacity(alloc, edges.len())?;
    for edge in edges {
        tiles.push(tiling.tile_of(edge.target))?;
    }
    Ok(tiles)
}

// By tile, the numbers of the edges out of it.
fn edges_out_of(alloc: Global, tiling: &Tiling, edges: &[Edge]) -> Result<Lists, AllocError>
    requires within { EdgesAreWithin tiling.now edges.now }
    requires few { length edges.now ≤ 2 ^ 32 }
    ensures { IfOk result (λ lists. lists ≡ map (λ tile. edges_out_of tiling.now tile edges.now) (range_with_len 0 (tile_count tiling.now))) }
{
    let tiles = source_tiles(alloc, tiling, edges)?;
    places_by_number(alloc, &tiles, tiling.count())
}

// By tile, the numbers of the edges into it.
fn edges_into(alloc: Global, tiling: &Tiling, edges: &[Edge]) -> Result<Lists, AllocError>
    requires within { EdgesAreWithin tiling.now edges.now }
    requires few { length edges.now ≤ 2 ^ 32 }
    ensures { IfOk result (λ lists. lists ≡ map (λ tile. edges_into tiling.now tile edges.now) (range_with_len 0 (tile_count tiling.now))) }
{
    let tiles = target_tiles(alloc, tiling, edges)?;
    places_by_number(alloc, &tiles, tiling.count())
}

// The number of the pair of tiles that an edge joins.
fn pair_of(tiling: &Tiling, edge: Edge) -> u64
    requires source { edge.source < tiling.now.rows * tiling.now.cols }
    requires target { edge.target < tiling.now.rows * tiling.now.cols }
    ensures { result ≡ pair_of tiling.now edge }
{
    let from = tiling.tile_of(edge.source);
    let into = tiling.tile_of(edge.target);
    u64::from(from) * u64::from(tiling.count()) + u64::from(into)
}

// By edge, the number of the pair of tiles that it joins.
fn pairs(alloc: Global, tiling: &Tiling, edges: &[Edge]) -> Result<Vec<u64>, AllocError>
    requires { EdgesAreWithin tiling.now edges.now }
    ensures { IfOk result (λ pairs. pairs.items ≡ map (pair_of tiling.now) edges.now) }
{
    let mut pairs = Vec::with_capacity(alloc, edges.len())?;
    for edge in edges {
        pairs.push(pair_of(tiling, *edge))?;
    }
    Ok(pairs)
}

// These numbers in ascending order, each once.
fn sorted_set(alloc: Global, numbers: &[u64]) -> Result<Vec<u64>, AllocError>
    ensures { IfOk result (λ set. IsSortedSet numbers.now set.items) }
{
    let mut set = Vec::from_slice(alloc, numbers)?;
    set.sort_unstable();
    set.dedup();
    Ok(set)
}

// The place of a number in a list that ascends and has it.
fn place_in(list: &[u64], number: u64) -> usize
    requires rises { IsStrictlyIncreasing list.now }
    requires there { Contains list.now number }
    ensures place { result ≡ number_place list.now number }
    ensures within { result < length list.now }
{
    match list.binary_search(&number) {
        Ok(place) => place,
        Err(_) => unreachable!(),
    }
}

// The places of these numbers in a list that ascends and has them all.
fn found_in(alloc: Global, list: &[u64], numbers: &[u64]) -> Result<Vec<u32>, AllocError>
    requires rises { IsStrictlyIncreasing list.now }
    requires there { EachIndex numbers.now (λ i. Contains list.now (slice_index numbers.now i)) }
    requires few { length list.now ≤ 2 ^ 32 }
    ensures { IfOk result (λ places. places.items ≡ map (number_place list.now) numbers.now) }
{
    let mut places = Vec::with_capacity(alloc, numbers.len())?;
    for number in numbers {
        places.push(place_in(list, *number) as u32)?;
    }
    Ok(places)
}

// By joint, the tile that it leads into.
fn joint_tiles(alloc: Global, joints: &[u64], tiles: u32) -> Result<Vec<u32>, AllocError>
    requires { 0 < tiles }
    ensures { IfOk result (λ into. into.items ≡ map (λ p. p % tiles) joints.now) }
{
    let mut into = Vec::with_capacity(alloc, joints.len())?;
    for joint in joints {
        into.push((*joint % u64::from(tiles)) as u32)?;
    }
    Ok(into)
}

// How often each number below the count is among these.
fn number_counts(alloc: Global, numbers: &[u32], count: usize) -> Result<Vec<u32>, AllocError>
    requires below { EachIndex numbers.now (λ i. slice_index numbers.now i < count) }
    requires few { length numbers.now < 2 ^ 32 }
    ensures { IfOk result (λ counts. counts.items ≡ number_counts numbers.now count) }
{
    let mut counts = vec![in alloc; 0; count]?;
    for number in numbers {
        counts[*number as usize] += 1;
    }
    Ok(counts)
}

/// The joints of border edges. Takes time and memory by the tiles and by how many edges there are, but for the sorting of these.
pub(crate) fn joints_of(
    alloc: Global,
    tiling: &Tiling,
    edges: &[Edge],
) -> Result<Joints, AllocError>
    requires within { EdgesAreWithin tiling.now edges.now }
    requires few { length edges.now < 2 ^ 32 }
    ensures { IfOk result (λ joints. AreJoints tiling.now edges.now joints) }
{
    let pairs = pairs(alloc, tiling, edges)?;
    let set = sorted_set(alloc, &pairs)?;
    let joints = found_in(alloc, &set, &pairs)?;
    let tiles = joint_tiles(alloc, &set, tiling.count())?;
    let rooms = number_counts(alloc, &joints, set.len())?;
    let into = places_by_number(alloc, &tiles, tiling.count())?;
    Ok(Joints {
        outbound: edges_out_of(alloc, tiling, edges)?,
        inbound: edges_into(alloc, tiling, edges)?,
        joints: Items::from_vec(joints),
        tiles: Items::from_vec(tiles),
        rooms: Items::from_vec(rooms),
        into,
    })
}
