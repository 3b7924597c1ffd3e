//! Border edges of plans with one transport.

ghost use Rattle.std.specs.Prelude.{◌≡◌, true};
ghost use Rattle.plan_graph.specs.Borders.{AreDrained, IsDrained};

use crate::maps::known_of;
use crate::plans::plan_of;
use map_meaning::Known;
use plan_graph::Borders;
use std::alloc::Global;
use std::process::Abort;
use std::test::Fail;
use task_graph::{FlowTasks, Plan};
use tile_map::Tiling;

/// The sides of a map and of a tile, the drain map, how many tasks there are, and the border edges as pairs of places.
type Bordered = ([u32; 4], &'static [u8], u32, &'static [(u32, u32)]);

/// Plans of one step with one transport.
const BORDERED: [Bordered; 5] = [
    // a row of four cells in tiles of one, of two, and of four
    ([1, 4, 1, 1], b"6665", 4, &[(0, 1), (1, 2), (2, 3)]),
    ([1, 4, 2, 2], b"6665", 2, &[(1, 2)]),
    ([1, 4, 1, 4], b"6665", 1, &[]),
    // there and back over one border
    ([2, 4, 2, 2], b"66245444", 2, &[(1, 2), (6, 5)]),
    // tiles that touch at a corner
    ([2, 2, 1, 1], b"3555", 4, &[(0, 3)]),
];

const FLOW: &str =
    "binding L = l.asc : ldd; M = m.asc; areamap M; timer 1 1 1; dynamic report Q = accuflux(L, M);";

// Whether the drain map of a transport is there, of the size of the tiling.
fn is_drained(tiling: &Tiling, known: &Known, flow: FlowTasks) -> bool
    ensures { result ≡ true → IsDrained tiling.now known.now.drains flow }
{
    if flow.drain as usize >= known.drains.len() {
        return false;
    }
    let drain = known.drains.as_slice()[flow.drain as usize].drain();
    drain.rows() == tiling.rows && drain.cols() == tiling.cols
}

// Whether a plan has one transport, with its drain map.
fn has_one(plan: &Plan, known: &Known) -> bool
    ensures { result ≡ true → AreDrained plan.now.tiling known.now.drains plan.now.flows }
{
    if plan.flows().len() != 1 {
        return false;
    }
    is_drained(plan.tiling(), known, plan.flows()[0])
}

// The border edges of a plan with one transport.
fn borders_of(alloc: Global, plan: &Plan, known: &Known) -> Result<Borders, Fail> {
    if !has_one(plan, known) {
        return Err(Fail::from("not one transport"));
    }
    Ok(Borders::make(alloc, known, plan)?)
}

// The edges of the one transport are these.
fn expect_edges(rt: &impl Abort, borders: &Borders, expected: &[(u32, u32)]) {
    assert_eq!(rt; borders.all() as usize, expected.len());
    if borders.count() > 0 {
        for (edge, (source, target)) in borders.edges(0).iter().zip(expected) {
            assert_eq!(rt; (edge.source, edge.target), (*source, *target));
        }
    }
}

// One row has its tasks and its edges.
fn expect_row(rt: &impl Abort, alloc: Global, row: Bordered) -> Result<(), Fail> {
    let (sides, signs, tasks, edges) = row;
    let plan = plan_of(alloc, FLOW, sides, 1)?;
    assert_eq!(rt; plan.tasks(), tasks);
    let known = known_of(alloc, sides[0], sides[1], signs)?;
    let borders = borders_of(alloc, &plan, &known)?;
    expect_edges(rt, &borders, edges);
    Ok(())
}

#[test]
fn transports_have_their_border_edges(rt: HostRuntime) -> Result<(), Fail> {
    for row in BORDERED {
        expect_row(&rt, rt.alloc(), row)?;
    }
    Ok(())
}
