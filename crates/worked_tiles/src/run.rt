//! A transport over one tile, with the tests that its calls ask of their caller: its methods ask for nothing.

ghost use Rattle.std.specs.Prelude.{◌≡◌, ◌≢◌, ◌==◌, ◌<◌, ◌≤◌, ℕ, IfOk, false, length, slice_index, true};
ghost use Rattle.border_channel.specs.Edges.{HasSizeOf};
ghost use Rattle.drain_meaning.specs.Equations.{orient_of};
ghost use Rattle.drain_meaning.specs.Flows.{FlowFits};
ghost use Rattle.flow_task.specs.Works.{CanAccept};
ghost use Rattle.tile_map.specs.Tiles.{tile_at, tile_count};
ghost use Rattle.worked_tiles.specs.Runs.{edges_of_tile, looked_end};

use crate::maps::scalars;
use border_channel::{Edge, Message, border_edges};
use cell_values::{Cell, Kind};
use drain_meaning::{Drain, Flow, FlowOp, Orient};
use flow_task::{BaseKit, BaseWork, FlowKit};
use std::alloc::Global;
use std::marker::Model;
use std::test::Fail;
use tile_map::{Part, Tiling};

/// A transport over one tile, and the edges whose messages it took.
#[derive(Drop)]
pub struct Run {
    work: BaseWork,
    edges: Vec<Edge>,
    tiling: Tiling,
    tile: u32,
    taken: Vec<u32>,
}

impl Model for Run {
    ghost use Rattle.drain_meaning.specs.declared.op.FlowOp.{FlowOp as TheFlowOp};
    ghost use Rattle.flow_task.specs.BaseWorks.{base_work_of};
    ghost use Rattle.flow_task.specs.Works.{TileWork};
    ghost use Rattle.worked_tiles.specs.Runs.{IsTileRun};

    ghost Value = { TileWork TheFlowOp };

    ghost view = { λ r. base_work_of r.work };

    ghost invariant = { λ r. IsTileRun (base_work_of r.work) r.edges.items r.tiling r.tile r.taken.items };
}

// Which cells feed a cell in a transport.
fn orient_of(op: FlowOp) -> Orient
    ensures { result ≡ orient_of op }
{
    match op {
        FlowOp::Catchment | FlowOp::Subcatchment => Orient::Up,
        _ => Orient::Down,
    }
}

// The end of an edge that is looked at.
fn looked_end(edge: Edge, inward: bool) -> u32
    ensures { result ≡ looked_end inward edge }
{
    if inward { edge.target } else { edge.source }
}

// Whether a place lies in a tile, where the map has it.
fn lies_in(tiling: &Tiling, tile: u32, place: u32) -> Result<bool, Fail>
    ensures { IfOk result (λ lies. lies ≡ (tile_at tiling.now place == tile)) }
{
    if u64::from(place) >= u64::from(tiling.rows) * u64::from(tiling.cols) {
        Err("an edge leaves the map")?
    }
    Ok(tiling.tile_of(place) == tile)
}

/// The numbers of the edges into a tile, or out of it.
pub(crate) fn edges_of_tile(
    alloc: Global,
    tiling: &Tiling,
    tile: u32,
    edges: &[Edge],
    inward: bool,
) -> Result<Vec<u32>, Fail>
    requires tile { tile < tile_count tiling.now }
    requires many { length edges.now ≤ 4294967295 }
    ensures { IfOk result (λ own. own.items ≡ edges_of_tile inward tiling.now tile edges.now) }
{
    let mut own = Vec::new(alloc);
    for number in 0..edges.len() {
        if lies_in(tiling, tile, looked_end(edges[number], inward))? {
            own.push(number as u32)?;
        }
    }
    Ok(own)
}

// Whether an edge is among those whose messages were taken.
fn was_taken(taken: &[u32], edge: u32) -> bool
    ensures { result ≡ false → (k : ℕ) → k < length taken.now → slice_index taken.now k ≢ edge }
{
    for other in taken {
        if *other == edge {
            return true;
        }
    }
    false
}

// Whether a flow is missing, or no more than twice the greatest scalar, so that it fits the load of any cell.
fn is_small(flow: Flow) -> bool
    ensures { result ≡ true → (load : ℕ) → 1 ≤ load → FlowFits flow load }
{
    match flow {
        Flow::Mv => true,
        Flow::Num(number) => {
            -18_000_000_000_000_000_000 <= number && number <= 18_000_000_000_000_000_000
        }
    }
}

impl Run {
    /// A transport over one tile of a map begins, with operands over the tile.
    pub fn begin(
        alloc: Global,
        op: FlowOp,
        kind: Kind,
        drain: &Drain,
        tiling: &Tiling,
        tile: u32,
        a: &[Cell],
        b: &[Cell],
    ) -> Result<Run, Fail>
        requires size { HasSizeOf drain.now tiling.now }
    {
        if !BaseKit.knows(op) || tile >= tiling.count() {
            Err("there is no such transport or tile")?
        }
        let _ = drain.cells();
        let edges = border_edges(alloc, drain, tiling, orient_of(op))?;
        if edges.len() > 4_294_967_295 {
            Err("there are too many edges")?
        }
        let into = edges_of_tile(alloc, tiling, tile, &edges, true)?;
        let out = edges_of_tile(alloc, tiling, tile, &edges, false)?;
        let a = scalars(alloc, a)?;
        let b = scalars(alloc, b)?;
        let rect = tiling.rect(tile);
        let count = rect.rows as usize * rect.cols as usize;
        if a.len() != count || b.len() != count {
            Err("an operand has another size")?
        }
        let work = BaseKit.begin(
            alloc, op, kind, drain, tiling, tile, &edges, &into, &out, &a, &b,
        )?;
        Ok(Run {
            work,
            edges,
            tiling: *tiling,
            tile,
            taken: Vec::new(alloc),
        })
    }

    // Whether a message is one for an edge into the tile that was not taken, and small.
    fn can_take(&self, message: Message) -> bool
        ensures { result ≡ true → CanAccept (orient_of self.now.which) self.now.of message }
    {
        let number = message.edge as usize;
        if number >= self.edges.len() {
            return false;
        }
        let target = self.edges[number].target;
        if u64::from(target) >= u64::from(self.tiling.rows) * u64::from(self.tiling.cols) {
            return false;
        }
        if self.tiling.tile_of(target) != self.tile {
            return false;
        }
        if was_taken(&self.taken, message.edge) {
            return false;
        }
        is_small(message.flow)
    }

    /// A message comes, where it is one for an edge into the tile that was not taken.
    pub fn accept(&mut self, message: Message) -> Result<(), Fail> {
        if self.can_take(message) {
            self.taken.push(message.edge)?;
            BaseKit.accept(&mut self.work, message);
            Ok(())
        } else {
            Err("the tile cannot take this message")?
        }
    }

    /// The next message, which is marked as sent, and the target of its edge.
    pub fn send(&mut self) -> Option<(Message, u32)> {
        let message = BaseKit.next_out(&self.work)?;
        BaseKit.mark_sent(&mut self.work, message.edge);
        let edge = self.edges.get(message.edge as usize)?;
        Some((message, edge.target))
    }

    /// Whether all cells are settled, and whether all edges were sent.
    pub fn ends(&self) -> (bool, bool) {
        (BaseKit.is_settled(&self.work), BaseKit.all_sent(&self.work))
    }

    /// The results, where all cells are settled and all edges were sent.
    pub fn finish(&self, alloc: Global) -> Result<Part, Fail> {
        if !BaseKit.is_settled(&self.work) || !BaseKit.all_sent(&self.work) {
            Err("the tile has not ended")?
        }
        Ok(BaseKit.finish(alloc, &self.work)?)
    }
}
