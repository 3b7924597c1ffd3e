ghost use Rattle.std.specs.Prelude.{◌≡◌, [], ◌∷◌, ◌++◌, ◌<◌, ◌≤◌, if◌then◌else◌, IfOk, OnOk, Some, length, true};
ghost use Rattle.border_channel.specs.Locals.{local_part};
ghost use Rattle.border_channel.specs.Outbound.{all_sent, next_due, next_message};
ghost use Rattle.border_channel.specs.Settled.{all_settled};
ghost use Rattle.flow_task.specs.inside.Kept.{Ascend, HasLink, IsLinkAt, IsLinked};
ghost use Rattle.drain_meaning.specs.Flows.{flow_outcome};
ghost use Rattle.drain_meaning.specs.declared.flow.Flow.TheVariants as flow;
ghost use Rattle.tile_map.specs.Parts.{or_missing, or_over_at};
ghost use Rattle.flow_task.specs.Works.{CanAccept, CanBegin, accepted, flow_begun, marked, tile_work};

use crate::about::About;
use crate::begin::{first_border, first_cells};
use crate::due::{DueLinks, marked_cells, note_settled};
use crate::fed::FedCells;
use crate::link::Link;
use crate::packed::PackedCells;
use crate::settle::settle;
use crate::state::{end_of, receive};
use border_channel::{Edge, Message};
use cell_values::{Cell, Cells, Kind, Over};
use drain_meaning::{Drain, Flow, FlowEnd, FlowRule, drain_cell};
use std::alloc::{AllocError, Global};
use std::marker::Model;
use std::snapshot::Snapshot;
use tile_map::{Part, Tiling};

/// A transport over one tile, by a rule: flow comes over the tile's border in any order.
#[derive(Drop)]
pub struct FlowWork<R: FlowRule + Drop> {
    rule: R,
    about: About,
    a: PackedCells,
    b: PackedCells,
    directed: Vec<bool>,
    fed: FedCells,
    inbound: Vec<Link>,
    outbound: Vec<Link>,
    inflows: Vec<R::Acc>,
    missing: Vec<u8>,
    queue: Vec<u32>,
    unsent: Vec<bool>,
    sent: Vec<u32>,
    leaves: Vec<bool>,
    due: DueLinks,
}

impl<R: FlowRule + Drop> Model for FlowWork<R> {
    ghost use Rattle.std.specs.Prelude.{◌≡◌, vec_capacity};
    ghost use Rattle.tile_map.specs.Rects.{cell_count};
    ghost use Rattle.tile_map.specs.Tiles.{rect_of};
    ghost use Rattle.flow_task.specs.inside.Begins.{coded_first, over_cells};
    ghost use Rattle.flow_task.specs.Works.{TileWork, tile_work};
    ghost use Rattle.flow_task.specs.inside.Abouts.{flow_of};
    ghost use Rattle.flow_task.specs.inside.Due.{AreNoted};
    ghost use Rattle.flow_task.specs.inside.Kept.{AreUnsent, IsWorkKept};
    ghost use Rattle.flow_task.specs.inside.States.{state};

    ghost Value = { TileWork R };

    ghost view = { λ w. tile_work w.rule (flow_of (R.transport w.rule).orient w.about w.a w.b) w.sent.items };

    ghost invariant = { λ w. IsWorkKept (R.transport w.rule) (R.rule w.rule) (flow_of (R.transport w.rule).orient w.about w.a w.b) w.fed (state w.inflows.items w.missing.items w.queue.items) w.inbound.items w.outbound.items (vec_capacity w.queue) (vec_capacity w.about.taken) × AreUnsent w.outbound.items w.unsent.items w.sent.items (vec_capacity w.sent) × (w.directed.items ≡ over_cells (coded_first w.about.drain.value.codes w.about.tiling w.about.tile) (cell_count (rect_of w.about.tiling w.about.tile))) × AreNoted w.outbound.items w.unsent.items w.leaves.items w.queue.items w.missing.items w.due };
}

// Where the link of an edge stands.
fn link_place(links: &[Link], edge: u32) -> usize
    requires ascend { Ascend links.now }
    requires has { HasLink links.now edge }
    ensures { IsLinkAt links.now edge result }
{
    let mut low = 0;
    let mut high = links.len();
    while high - low > 1 {
        let middle = low + (high - low) / 2;
        if links[middle].edge <= edge {
            low = middle;
        } else {
            high = middle;
        }
    }
    low
}

// The cell of the tile at an edge.
fn cell_at_edge(links: &[Link], edge: u32) -> u32
    requires ascend { Ascend links.now }
    requires has { HasLink links.now edge }
    ensures { IsLinked links.now edge result }
{
    links[link_place(links, edge)].cell
}

// The result at a cell: missing where it has no direction.
fn result_of(directed: bool, end: FlowEnd) -> Flow
    ensures { result ≡ (if directed then end.result else flow.Mv) }
{
    if directed { end.result } else { Flow::Mv }
}

// Appends the cell of a result, and tells the least number of those that are out of range.
fn push_outcome(
    kind: Kind,
    flow: Flow,
    cells: &mut Vec<Cell>,
    over: Option<u32>,
) -> Result<Option<u32>, AllocError>
    requires { length cells.old.items ≤ 4294967295 }
    ensures cells { OnOk result (cells.new.items ≡ cells.old.items ++ or_missing (flow_outcome kind flow) ∷ []) }
    ensures over { IfOk result (λ now. now ≡ or_over_at (length cells.old.items) (flow_outcome kind flow) over) }
{
    let number = cells.len() as u32;
    match drain_cell(kind, flow) {
        Ok(cell) => {
            cells.push(cell)?;
            Ok(over)
        }
        Err(Over) => {
            cells.push(Cell::Mv)?;
            Ok(Some(over.unwrap_or(number)))
        }
    }
}

impl<R: FlowRule + Drop> FlowWork<R> {
    /// A transport over one tile begins, with all border edges of the operation and the tile's own cells.
    pub fn begin(
        alloc: Global,
        rule: R,
        kind: Kind,
        drain: &Drain,
        tiling: &Tiling,
        tile: u32,
        edges: &[Edge],
        into: &[u32],
        out: &[u32],
        a: &[Cell],
        b: &[Cell],
    ) -> Result<FlowWork<R>, AllocError>
        requires { CanBegin (R.transport rule).orient drain.now tiling.now tile edges.now into.now out.now a.now b.now }
        ensures { IfOk result (λ w. w ≡ tile_work rule (flow_begun kind drain.now tiling.now tile edges.now a.now b.now) []) }
    {
        let rect = tiling.rect(tile);
        let cells = first_cells(alloc, &rule, drain, tiling, tile, rect)?;
        let border = first_border(alloc, tiling, tile, rect, edges, into, out)?;
        let a = PackedCells::pack(alloc, a)?;
        let b = PackedCells::pack(alloc, b)?;
        let about = About {
            kind,
            drain: Snapshot::of(drain),
            tiling: *tiling,
            tile,
            taken: border.taken,
        };
        let leaves = marked_cells(alloc, cells.missing.len(), &border.outbound)?;
        let mut due = DueLinks::with_room(alloc, border.outbound.len())?;
        let fed = cells.fed;
        let mut inflows = cells.inflows;
        let mut missing = cells.missing;
        let mut queue = cells.queue;
        settle(
            &rule,
            &about,
            &fed,
            &a,
            &b,
            &mut inflows,
            &mut missing,
            &mut queue,
            0,
        );
        note_settled(
            &border.outbound,
            &border.unsent,
            &leaves,
            &queue,
            0,
            &mut due,
        );
        Ok(FlowWork {
            rule,
            about,
            a,
            b,
            directed: cells.directed,
            fed,
            inbound: border.inbound,
            outbound: border.outbound,
            inflows,
            missing,
            queue,
            unsent: border.unsent,
            sent: border.sent,
            leaves,
            due,
        })
    }

    /// A message comes. Takes no memory.
    pub fn accept(&mut self, message: Message)
        requires { CanAccept (R.transport self.old.which).orient self.old.of message }
        ensures { self.new ≡ accepted self.old message }
    {
        let cell = cell_at_edge(&self.inbound, message.edge);
        let from = self.queue.len();
        receive(
            &self.rule,
            &mut self.inflows,
            &mut self.missing,
            &mut self.queue,
            cell,
            message.flow,
        );
        let _ = self.about.taken.push(message);
        settle(
            &self.rule,
            &self.about,
            &self.fed,
            &self.a,
            &self.b,
            &mut self.inflows,
            &mut self.missing,
            &mut self.queue,
            from,
        );
        note_settled(
            &self.outbound,
            &self.unsent,
            &self.leaves,
            &self.queue,
            from,
            &mut self.due,
        );
    }

    /// The least edge that can be sent, with its flow; None exactly where there is none.
    pub fn next_out(&self) -> Option<Message>
        ensures { result ≡ next_message (R.transport self.now.which) self.now.of self.now.sent }
    {
        match self.due.least() {
            Some(at) => {
                let link = self.outbound[at];
                let end = end_of(&self.rule, &self.a, &self.b, &self.inflows, link.cell);
                Some(Message {
                    edge: link.edge,
                    flow: end.out,
                })
            }
            None => None,
        }
    }

    /// Marks the edge that `next_out` gives as sent. Takes no memory.
    pub fn mark_sent(&mut self, edge: u32)
        requires { next_due (R.transport self.old.which).orient self.old.of self.old.sent ≡ Some edge }
        ensures { self.new ≡ marked self.old edge }
    {
        let at = link_place(&self.outbound, edge);
        self.unsent[at] = false;
        let _ = self.due.take_least();
        let _ = self.sent.push(edge);
    }

    /// Whether every cell of the tile is settled.
    pub fn is_settled(&self) -> bool
        ensures { result ≡ all_settled (R.transport self.now.which).orient self.now.of }
    {
        self.queue.len() == self.missing.len()
    }

    /// Whether every edge that leaves the tile was sent.
    pub fn all_sent(&self) -> bool
        ensures { result ≡ all_sent self.now.of self.now.sent }
    {
        self.sent.len() == self.outbound.len()
    }

    /// The results of the tile.
    pub fn finish(&self, alloc: Global) -> Result<Part, AllocError>
        requires settled { all_settled (R.transport self.now.which).orient self.now.of ≡ true }
        requires sent { all_sent self.now.of self.now.sent ≡ true }
        ensures { IfOk result (λ part. part ≡ local_part (R.transport self.now.which) self.now.of) }
    {
        let count = self.missing.len();
        let mut cells = Vec::with_capacity(alloc, count)?;
        let mut over = None;
        for i in 0..count {
            let end = end_of(&self.rule, &self.a, &self.b, &self.inflows, i as u32);
            let result = result_of(self.directed[i], end);
            over = push_outcome(self.about.kind, result, &mut cells, over)?;
        }
        Ok(Part {
            cells: Cells::from_vec(cells),
            over,
        })
    }
}
