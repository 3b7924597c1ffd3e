ghost use Rattle.std.specs.Prelude.{◌≡◌, ◌+◌, ◌<◌, [], false, get_or, length, map, slice_index_or, true};
ghost use Rattle.core_model.specs.Graphs.{edge_at};
ghost use Rattle.plan_graph.specs.Borders.{borders_of};
ghost use Rattle.plan_graph.specs.Graphs.{is_flow_work};
ghost use Rattle.plan_graph.specs.PlanGraphs.{IsOfTransport, IsPlan, channels_into, graph_of, list_at, rooms_of};
ghost use Rattle.plan_graph.specs.Transports.{task_edges, task_edges_into, task_edges_out_of, task_transport};
ghost use Rattle.plan_graph.specs.inside.Joined.{AreJoints};
ghost use Rattle.plan_graph.specs.inside.Kept.{IsFirstChannel, border_of};

use crate::borders::{Borders, slot};
use crate::channels::Channels;
use crate::joints::Joints;
use border_channel::Edge;
use map_meaning::{SharedDrain, Span};
use sqlite_items::Items;
use std::marker::Model;
use task_graph::{Plan, Work};

/// A plan with its graph: tasks with what each reads and who reads it, and the border edges and channels of its transports.
#[derive(Drop)]
pub struct PlanGraph {
    pub(crate) span: Span,
    pub(crate) plan: Plan,
    /// The drain maps that are known to the span.
    pub(crate) drains: Items<SharedDrain>,
    /// The border edges of each transport.
    pub(crate) borders: Borders,
    /// By drain map and orientation, the joints of the border edges.
    pub(crate) joints: Items<Joints>,
    pub(crate) channels: Channels,
    /// By task, the number of its transport.
    pub(crate) transports: Items<u32>,
}

impl Model for PlanGraph {
    ghost use Rattle.plan_graph.specs.PlanGraphs.{PlanGraphValue, with_drains};
    ghost use Rattle.plan_graph.specs.inside.Kept.{KeepsPlan};

    ghost Value = { PlanGraphValue };

    ghost view = { λ g. with_drains g.span g.plan g.drains };

    ghost invariant = { λ g. KeepsPlan g.span g.plan g.drains g.borders g.joints g.channels g.transports };
}

// Whether it is the work of a transport.
fn is_flow_work(work: Work) -> bool
    ensures { result ≡ is_flow_work work }
{
    matches!(work, Work::Flow)
}

impl PlanGraph {
    /// The span that it is the plan of.
    pub fn span(&self) -> Span
        ensures { result ≡ self.now.span }
    {
        self.span
    }

    /// The plan.
    pub fn plan(&self) -> &Plan
        ensures { result.now ≡ self.now.plan }
    {
        &self.plan
    }

    /// How many tasks there are.
    pub fn tasks(&self) -> u32
        ensures value { result ≡ self.now.tasks }
        ensures plan { IsPlan self.now }
    {
        self.plan.tasks()
    }

    /// How many border edges there are, over all transports.
    pub fn all_edges(&self) -> u32
        ensures { result ≡ self.now.edges }
    {
        self.borders.all()
    }

    /// The tasks that a task reads.
    pub fn needs(&self, task: u32) -> &[u32]
        requires { task < self.now.tasks }
        ensures { result.now ≡ list_at self.now.needs task }
    {
        self.plan.needs(task)
    }

    /// The tasks that read a task, each as often as it does.
    pub fn readers(&self, task: u32) -> &[u32]
        requires { task < self.now.tasks }
        ensures { result.now ≡ list_at self.now.readers task }
    {
        self.plan.readers(task)
    }

    /// Whether it is a flow task.
    pub fn is_flow(&self, task: u32) -> bool
        requires { task < self.now.tasks }
        ensures { result ≡ slice_index_or self.now.flows task false }
    {
        is_flow_work(self.plan.task(task).work)
    }

    // The number of the transport that a flow task is of.
    fn transport(&self, task: u32) -> usize
        requires task { task < self.now.tasks }
        requires flow { (graph_of self.now).is_flow task ≡ true }
        ensures value { result ≡ task_transport self.now.plan task }
        ensures there { result < length self.now.plan.flows }
    {
        self.transports.as_slice()[task as usize] as usize
    }

    // The tile of a flow task.
    fn tile(&self, task: u32) -> u32
        requires task { task < self.now.tasks }
        requires flow { (graph_of self.now).is_flow task ≡ true }
        ensures { IsOfTransport self.now.plan task (task_transport self.now.plan task) result }
    {
        self.plan.task(task).tile
    }

    // The border edges of a transport.
    fn border(&self, transport: usize) -> &[Edge]
        requires { transport < length self.now.plan.flows }
        ensures { result.now ≡ border_of self.now transport }
    {
        self.borders.edges(transport)
    }

    // The joints of a transport.
    fn joints(&self, transport: usize) -> &Joints
        requires { transport < length self.now.plan.flows }
        ensures { AreJoints self.now.plan.tiling (border_of self.now transport) result.now }
    {
        &self.joints.as_slice()[slot(self.plan.flows()[transport])]
    }

    // The number of a transport's first channel.
    fn first_channel(&self, transport: usize) -> u32
        requires { transport < length self.now.plan.flows }
        ensures { IsFirstChannel self.now transport result }
    {
        self.channels.firsts.as_slice()[transport]
    }

    /// All border edges of a flow task's transport, by ascending source and then target.
    pub fn edges(&self, task: u32) -> &[Edge]
        requires task { task < self.now.tasks }
        requires flow { (graph_of self.now).is_flow task ≡ true }
        ensures { result.now ≡ task_edges self.now.plan self.now.drains task }
    {
        self.border(self.transport(task))
    }

    /// The numbers of those of them that lead into the task's tile, ascending.
    pub fn edges_into(&self, task: u32) -> &[u32]
        requires task { task < self.now.tasks }
        requires flow { (graph_of self.now).is_flow task ≡ true }
        ensures { result.now ≡ task_edges_into self.now.plan self.now.drains task }
    {
        let tile = self.tile(task);
        self.joints(self.transport(task))
            .inbound
            .list(tile as usize)
    }

    /// The numbers of those that lead out of it, ascending.
    pub fn edges_out_of(&self, task: u32) -> &[u32]
        requires task { task < self.now.tasks }
        requires flow { (graph_of self.now).is_flow task ≡ true }
        ensures { result.now ≡ task_edges_out_of self.now.plan self.now.drains task }
    {
        let tile = self.tile(task);
        self.joints(self.transport(task))
            .outbound
            .list(tile as usize)
    }

    /// The channel of a border edge of a flow task's transport.
    pub fn channel(&self, task: u32, edge: u32) -> u32
        requires task { task < self.now.tasks }
        requires flow { (graph_of self.now).is_flow task ≡ true }
        requires edge { edge < length (task_edges self.now.plan self.now.drains task) }
        ensures { result ≡ (graph_of self.now).channel_of (edge_at (graph_of self.now) task edge) }
    {
        let transport = self.transport(task);
        let joint = self.joints(transport).joints.as_slice()[edge as usize];
        self.first_channel(transport) + joint
    }

    /// The channels into a flow task, ascending: each of the list's numbers is to be added to the first one.
    pub fn inbound(&self, task: u32) -> (u32, &[u32])
        requires task { task < self.now.tasks }
        requires flow { (graph_of self.now).is_flow task ≡ true }
        ensures { map (λ j. result.0 + j) result.1.now ≡ channels_into (graph_of self.now) task }
    {
        let tile = self.tile(task);
        let transport = self.transport(task);
        let first = self.first_channel(transport);
        (first, self.joints(transport).into.list(tile as usize))
    }

    /// The task that a channel leads into.
    pub fn receiver(&self, channel: u32) -> u32
        requires { channel < (graph_of self.now).channels }
        ensures { result ≡ (graph_of self.now).into channel }
    {
        self.channels.receivers.as_slice()[channel as usize]
    }

    /// By channel, how many edges it has.
    pub fn rooms(&self) -> &[u32]
        ensures value { result.now ≡ rooms_of (graph_of self.now) }
        ensures plan { IsPlan self.now }
    {
        self.channels.rooms.as_slice()
    }
}
