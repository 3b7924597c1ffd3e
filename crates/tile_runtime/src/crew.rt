//! What the workers of a board share besides the board.

ghost use Rattle.flow_task.specs.Kits.{KnowsAll};
ghost use Rattle.map_meaning.specs.Table.{is_transport};

use flow_task::FlowKit;
use map_meaning::{Known, Program};
use plan_graph::PlanGraph;
use std::alloc::Global;

/// What stays of a board, whoever acts, as its workers see it.
#[derive(Drop)]
pub struct Desk<'a> {
    pub plan: &'a PlanGraph,
    pub program: &'a Program,
    pub known: &'a Known,
    /// How many workers there are, beside the caller.
    pub workers: u32,
}

/// What all workers of a board share.
#[derive(Drop)]
pub struct Crew<'a, K: FlowKit> {
    pub alloc: Global,
    pub kit: K,
    pub desk: Desk<'a>,
    ghost knows: { KnowsAll is_transport (K.known kit) },
}
