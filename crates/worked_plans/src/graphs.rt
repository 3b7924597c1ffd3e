//! The graphs of plans with transports: which border edges lead into and out of a task, and through which channels.

ghost use Rattle.std.specs.Prelude.{◌≡◌, ◌<◌, true, length};
ghost use Rattle.drain_meaning.specs.Sound.{IsDrain};
ghost use Rattle.border_channel.specs.Edges.{HasSizeOf};
ghost use Rattle.map_meaning.specs.Programs.{IsWellFormed};
ghost use Rattle.plan_graph.specs.Borders.{HasDrainsOf, drain_of};
ghost use Rattle.plan_graph.specs.PlanGraphs.{graph_of};

use crate::maps::known_of;
use crate::plans::{program_of, tiling_of};
use map_meaning::{Known, Program, Span};
use plan_graph::{PlanGraph, build_graph};
use std::alloc::Global;
use std::process::Abort;
use std::test::Fail;
use task_graph::{FlowTasks, Plan, build_plan};
use tile_map::Tiling;

/// A task with the numbers of the edges into it and out of it, the first channel of its transport, and the channels into it,
/// counted from that one.
type Bordered = (u32, &'static [u32], &'static [u32], u32, &'static [u32]);

/// A task, one of its transport's edges, and the channel of that edge.
type Carried = (u32, u32, u32);

/// A graph: the operations of each step, the sides of the map and of a tile, the drain map and the number of steps; how many border
/// edges there are; by channel the task that it leads into and how many edges it has; some tasks; and some edges.
#[derive(Clone, Copy)]
struct Graphed {
    text: &'static str,
    sides: [u32; 4],
    signs: &'static [u8],
    steps: u32,
    edges: u32,
    channels: &'static [(u32, u32)],
    tasks: &'static [Bordered],
    carried: &'static [Carried],
}

const ONE: &str =
    "binding L = l.asc : ldd; M = m.asc; areamap M; timer 1 2 1; dynamic report Q = accuflux(L, M);";

const BOTH: &str =
    "binding L = l.asc : ldd; M = m.asc; P = p.asc : nominal; areamap M; timer 1 1 1; \
    dynamic report Q = accuflux(L, M); report C = catchment(L, P);";

const TWO: &str = "binding L = l.asc : ldd; M = m.asc; areamap M; timer 1 1 1; \
    dynamic Q = accuflux(L, M); report R = accuflux(L, Q);";

const GRAPHED: [Graphed; 6] = [
    // a row of four cells in tiles of one
    Graphed {
        text: ONE,
        sides: [1, 4, 1, 1],
        signs: b"6665",
        steps: 1,
        edges: 3,
        channels: &[(1, 1), (2, 1), (3, 1)],
        tasks: &[
            (0, &[], &[0], 0, &[]),
            (1, &[0], &[1], 0, &[0]),
            (3, &[2], &[], 0, &[2]),
        ],
        carried: &[(0, 0, 0), (1, 1, 1), (3, 2, 2)],
    },
    // there and back over one border, at two steps
    Graphed {
        text: ONE,
        sides: [2, 4, 2, 2],
        signs: b"66245444",
        steps: 2,
        edges: 4,
        channels: &[(1, 1), (0, 1), (3, 1), (2, 1)],
        tasks: &[
            (0, &[1], &[0], 0, &[1]),
            (2, &[1], &[0], 2, &[1]),
            (3, &[0], &[1], 2, &[0]),
        ],
        carried: &[(0, 1, 1), (2, 0, 2), (3, 1, 3)],
    },
    // two edges from one tile into another
    Graphed {
        text: ONE,
        sides: [2, 2, 2, 1],
        signs: b"6565",
        steps: 1,
        edges: 2,
        channels: &[(1, 2)],
        tasks: &[(0, &[], &[0, 1], 0, &[]), (1, &[0, 1], &[], 0, &[0])],
        carried: &[(0, 0, 0), (1, 1, 0)],
    },
    // tiles that touch at a corner
    Graphed {
        text: ONE,
        sides: [2, 2, 1, 1],
        signs: b"3555",
        steps: 1,
        edges: 1,
        channels: &[(3, 1)],
        tasks: &[(1, &[], &[], 0, &[]), (3, &[0], &[], 0, &[0])],
        carried: &[(0, 0, 0)],
    },
    // flow from above, and from below
    Graphed {
        text: BOTH,
        sides: [1, 2, 1, 1],
        signs: b"65",
        steps: 1,
        edges: 2,
        channels: &[(1, 1), (2, 1)],
        tasks: &[
            (0, &[], &[0], 0, &[]),
            (1, &[0], &[], 0, &[0]),
            (2, &[0], &[], 1, &[0]),
            (3, &[], &[0], 1, &[]),
        ],
        carried: &[(1, 0, 0), (3, 0, 1)],
    },
    // two transports along one drain map
    Graphed {
        text: TWO,
        sides: [1, 2, 1, 1],
        signs: b"65",
        steps: 1,
        edges: 2,
        channels: &[(1, 1), (3, 1)],
        tasks: &[(1, &[0], &[], 0, &[0]), (3, &[0], &[], 1, &[0])],
        carried: &[(0, 0, 0), (2, 0, 1)],
    },
];

// Whether the drain map of a transport is sound, and of the tiling's size.
fn has_drain(plan: &Plan, known: &Known, flow: FlowTasks) -> bool
    ensures { result ≡ true → IsDrain (drain_of known.now.drains flow) × HasSizeOf (drain_of known.now.drains flow) plan.now.tiling }
{
    if flow.drain as usize >= known.drains.len() {
        return false;
    }
    let drain = known.drains.as_slice()[flow.drain as usize].drain();
    let _cells = drain.cells();
    drain.rows() == plan.tiling().rows && drain.cols() == plan.tiling().cols
}

// Whether those of all transports of a plan are.
fn has_drains(plan: &Plan, known: &Known) -> bool
    ensures { result ≡ true → HasDrainsOf plan.now known.now.drains }
{
    for flow in plan.flows() {
        if !has_drain(plan, known, *flow) {
            return false;
        }
    }
    true
}

// The plan of the first steps, with its graph.
fn make_graph(
    alloc: Global,
    program: &Program,
    last: u32,
    tiling: &Tiling,
    known: &Known,
) -> Result<PlanGraph, Fail>
    requires { IsWellFormed program.now }
{
    if last < 1 || last > program.steps || last > 64 {
        return Err(Fail::from("no such steps"));
    }
    let span = Span::Steps { first: 1, last };
    let Ok(plan) = build_plan(alloc, program, span, tiling) else {
        return Err(Fail::from("no plan"));
    };
    if !has_drains(&plan, known) {
        return Err(Fail::from("no drain maps"));
    }
    match build_graph(alloc, program, span, tiling, known) {
        Ok(graph) => Ok(graph),
        Err(_) => Err(Fail::from("no graph")),
    }
}

// Whether it is a flow task.
fn is_flow_task(graph: &PlanGraph, task: u32) -> bool
    ensures { result ≡ true → (task < graph.now.tasks) × ((graph_of graph.now).is_flow task ≡ true) }
{
    task < graph.tasks() && graph.is_flow(task)
}

// A task has these edges and channels.
fn expect_task(rt: &impl Abort, graph: &PlanGraph, (task, into, out, first, inbound): Bordered) {
    assert!(rt; is_flow_task(graph, task), "{task}");
    assert_eq!(rt; graph.edges_into(task), into, "into {task}");
    assert_eq!(rt; graph.edges_out_of(task), out, "out of {task}");
    let (own, joints) = graph.inbound(task);
    assert_eq!(rt; own, first, "first of {task}");
    assert_eq!(rt; joints, inbound, "inbound of {task}");
}

// An edge of a task's transport goes through this channel.
fn expect_edge(rt: &impl Abort, graph: &PlanGraph, (task, edge, channel): Carried) {
    assert!(rt; is_flow_task(graph, task), "{task}");
    let many = graph.edges(task).len();
    assert!(rt; (edge as usize) < many, "{edge} of {task}");
    assert_eq!(rt; graph.channel(task, edge), channel, "{edge} of {task}");
}

// Whether there is a channel with this number.
fn is_channel(graph: &PlanGraph, channel: u32) -> bool
    ensures { result ≡ true → channel < (graph_of graph.now).channels }
{
    (channel as usize) < graph.rooms().len()
}

// The channels lead into these tasks, and have so many edges.
fn expect_channels(rt: &impl Abort, graph: &PlanGraph, channels: &[(u32, u32)]) {
    assert_eq!(rt; graph.rooms().len(), channels.len());
    let mut channel = 0;
    for ((receiver, room), found) in channels.iter().zip(graph.rooms()) {
        assert_eq!(rt; *found, *room, "{channel}");
        if is_channel(graph, channel) && channel < 100 {
            assert_eq!(rt; graph.receiver(channel), *receiver, "{channel}");
            channel += 1;
        }
    }
    assert_eq!(rt; channel as usize, channels.len());
}

// These tasks have their edges and channels.
fn expect_tasks(rt: &impl Abort, graph: &PlanGraph, tasks: &[Bordered]) {
    for task in tasks {
        expect_task(rt, graph, *task);
    }
}

// These edges have their channels.
fn expect_edges(rt: &impl Abort, graph: &PlanGraph, edges: &[Carried]) {
    for edge in edges {
        expect_edge(rt, graph, *edge);
    }
}

// The graph of a row.
fn graph_of_row(alloc: Global, row: Graphed) -> Result<PlanGraph, Fail> {
    let program = program_of(alloc, row.text)?;
    let tiling = tiling_of(row.sides)?;
    let known = known_of(alloc, row.sides[0], row.sides[1], row.signs)?;
    make_graph(alloc, &program, row.steps, &tiling, &known)
}

// One row has its graph.
fn expect_row(rt: &impl Abort, alloc: Global, row: Graphed) -> Result<(), Fail> {
    let graph = graph_of_row(alloc, row)?;
    assert_eq!(rt; graph.all_edges(), row.edges);
    expect_channels(rt, &graph, row.channels);
    expect_tasks(rt, &graph, row.tasks);
    expect_edges(rt, &graph, row.carried);
    Ok(())
}

#[test]
fn graphs_have_their_edges_and_channels(rt: HostRuntime) -> Result<(), Fail> {
    for row in GRAPHED {
        expect_row(&rt, rt.alloc(), row)?;
    }
    Ok(())
}
