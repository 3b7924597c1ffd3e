//! The border edges of a plan's transports.

ghost use Rattle.std.specs.Prelude.{◌≡◌, ◌≤◌, ◌<◌, ◌+◌, ◌*◌, ◌^◌, ℕ, [], true, false, get_or, length, map, replicate, IfOk, IfSome, OnOk};
ghost use Rattle.drain_meaning.specs.Equations.{orient_of};
ghost use Rattle.plan_graph.specs.Borders.{AreDrained, IsDrained, borders_of, edges_for, no_flow};
ghost use Rattle.plan_graph.specs.Numbered.{count_all};
ghost use Rattle.plan_graph.specs.inside.Made.{AreMade, kept_borders, slot_of};

use border_channel::{Edge, border_edges};
use drain_meaning::{FlowOp, Orient};
use map_meaning::Known;
use sqlite_items::Items;
use std::alloc::{AllocError, Global};
use std::marker::Model;
use task_graph::{FlowTasks, Plan};
use tile_map::Tiling;

/// The border edges of each of a plan's transports. Those of one drain map and one orientation are kept once.
#[derive(Drop)]
pub struct Borders {
    lists: Items<Items<Edge>>,
    flows: Items<FlowTasks>,
    total: u32,
}

impl Model for Borders {
    ghost use Rattle.std.specs.Prelude.{List};
    ghost use Rattle.border_channel.specs.declared.edge.Edge.{Edge};
    ghost use Rattle.plan_graph.specs.inside.Made.{KeepsBorders, kept_borders};

    ghost Value = { List (List Edge) };

    ghost view = { λ b. kept_borders b.lists b.flows };

    ghost invariant = { λ b. KeepsBorders b.lists b.flows b.total };
}

// Which cells feed a cell in a transport.
fn orient_of(op: FlowOp) -> Orient
    ensures { result ≡ orient_of op }
{
    match op {
        FlowOp::Catchment | FlowOp::Subcatchment => Orient::Up,
        _ => Orient::Down,
    }
}

/// Where the edges of a transport are kept.
pub(crate) fn slot(flow: FlowTasks) -> usize
    ensures { result ≡ slot_of flow }
{
    let drain = 2 * flow.drain as usize;
    match orient_of(flow.op) {
        Orient::Down => drain,
        Orient::Up => drain + 1,
    }
}

// The border edges of a transport.
fn edges_for(
    alloc: Global,
    known: &Known,
    tiling: &Tiling,
    flow: FlowTasks,
) -> Result<Items<Edge>, AllocError>
    requires { IsDrained tiling.now known.now.drains flow }
    ensures { IfOk result (λ edges. edges ≡ edges_for tiling.now known.now.drains flow) }
{
    let drain = known.drains.as_slice()[flow.drain as usize].drain();
    let edges = border_edges(alloc, drain, tiling, orient_of(flow.op))?;
    Ok(Items::from_vec(edges))
}

// Makes the edges of a transport, unless they were made.
fn make_edges(
    alloc: Global,
    known: &Known,
    tiling: &Tiling,
    flow: FlowTasks,
    lists: &mut Items<Items<Edge>>,
    made: &mut Vec<bool>,
) -> Result<(), AllocError>
    requires drained { IsDrained tiling.now known.now.drains flow }
    requires made { AreMade tiling.now known.now.drains lists.old made.old.items }
    ensures made { OnOk result (AreMade tiling.now known.now.drains lists.new made.new.items) }
    ensures there { OnOk result (get_or made.new.items (slot_of flow) false ≡ true) }
    ensures stays { OnOk result ((k : ℕ) → get_or made.old.items k false ≡ true → get_or made.new.items k false ≡ true) }
{
    let slot = slot(flow);
    if made[slot] {
        return Ok(());
    }
    let edges = edges_for(alloc, known, tiling, flow)?;
    lists.set(slot, edges);
    made[slot] = true;
    Ok(())
}

// So many empty lists.
fn empty_lists(alloc: Global, count: usize) -> Result<Items<Items<Edge>>, AllocError>
    ensures { IfOk result (λ lists. lists ≡ replicate count []) }
{
    let mut lists = Items::new(alloc);
    for _n in 0..count {
        lists.push(Items::new(alloc))?;
    }
    Ok(lists)
}

// The edges of each of these transports, once for each drain map and orientation.
fn made_lists(
    alloc: Global,
    known: &Known,
    tiling: &Tiling,
    flows: &[FlowTasks],
) -> Result<Items<Items<Edge>>, AllocError>
    requires { AreDrained tiling.now known.now.drains flows.now }
    ensures all { IfOk result (λ lists. length lists ≡ 2 * length known.now.drains) }
    ensures each { IfOk result (λ lists. kept_borders lists flows.now ≡ map (edges_for tiling.now known.now.drains) flows.now) }
{
    let count = 2 * known.drains.as_slice().len();
    let mut lists = empty_lists(alloc, count)?;
    let mut made = vec![in alloc; false; count]?;
    for flow in flows {
        make_edges(alloc, known, tiling, *flow, &mut lists, &mut made)?;
    }
    Ok(lists)
}

// How many edges these transports have together; none where they are more than a board could count.
fn total(lists: &Items<Items<Edge>>, flows: &[FlowTasks]) -> Option<u32>
    requires { (f : ℕ) → f < length flows.now → slot_of (get_or flows.now f no_flow) < length lists.now }
    ensures { IfSome result (λ total. total ≡ count_all (kept_borders lists.now flows.now)) }
{
    let mut total: u32 = 0;
    for flow in flows {
        let count = lists.as_slice()[slot(*flow)].len();
        if count > (u32::MAX - total) as usize {
            return None;
        }
        total += count as u32;
    }
    Some(total)
}

impl Borders {
    /// The border edges of the transports of a plan.
    pub fn make(alloc: Global, known: &Known, plan: &Plan) -> Result<Borders, AllocError>
        requires { AreDrained plan.now.tiling known.now.drains plan.now.flows }
        ensures are { IfOk result (λ borders. borders ≡ borders_of plan.now known.now.drains) }
        ensures few { IfOk result (λ borders. count_all borders < 2 ^ 32) }
    {
        let lists = made_lists(alloc, known, plan.tiling(), plan.flows())?;
        let flows = Items::from_slice(alloc, plan.flows())?;
        let Some(total) = total(&lists, flows.as_slice()) else {
            return Err(AllocError);
        };
        Ok(Borders {
            lists,
            flows,
            total,
        })
    }

    /// How many border edges all transports have together.
    pub fn all(&self) -> u32
        ensures { result ≡ count_all self.now }
    {
        self.total
    }

    /// How many transports there are.
    pub fn count(&self) -> usize
        ensures { result ≡ length self.now }
    {
        self.flows.len()
    }

    /// The border edges of the transport with this number, by ascending source and then target.
    pub fn edges(&self, f: usize) -> &[Edge]
        requires { f < length self.now }
        ensures { result.now ≡ get_or self.now f [] }
    {
        let flow = self.flows.as_slice()[f];
        self.lists.as_slice()[slot(flow)].as_slice()
    }
}
