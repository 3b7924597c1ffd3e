ghost use Rattle.std.specs.Prelude.{◌≡◌, [], Bool, IfOk, Some, length, true};
ghost use Rattle.border_channel.specs.Locals.{local_part};
ghost use Rattle.border_channel.specs.Outbound.{all_sent, next_due, next_message};
ghost use Rattle.border_channel.specs.Settled.{all_settled};
ghost use Rattle.drain_meaning.specs.Equations.{orient_of, transport_of};
ghost use Rattle.drain_meaning.specs.Transports.{transport_outcome};
ghost use Rattle.drain_meaning.specs.declared.op.FlowOp.{FlowOp as TheFlowOp};
ghost use Rattle.drain_ops.specs.Operands.{AreInRange, flow_operand};
ghost use Rattle.flow_task.specs.Works.{CanAccept, CanBegin, TileWork, accepted, flow_begun, marked, tile_work};
ghost use Rattle.tile_map.specs.Args.{SpansPlaces};
ghost use Rattle.tile_map.specs.Parts.{part_of};

use border_channel::{Edge, Message};
use cell_values::{Cell, Kind};
use drain_meaning::{Drain, FlowOp};
use std::alloc::{AllocError, Global};
use tile_map::{Arg, Part, Tiling};

/// The transports that a runner knows.
pub trait FlowKit: Copy {
    /// What a kit keeps of a transport over one tile.
    type Work: Drop;

    /// The transports that the kit knows, as a test.
    ghost known: { Self → TheFlowOp → Bool };

    /// What a transport over a tile was begun with, and what has happened since.
    ghost work_of: { Self.Work → TileWork TheFlowOp };

    /// Whether the kit knows a transport.
    fn knows(&self, op: FlowOp) -> bool
        ensures { result ≡ known self.now op };

    /// A transport over a whole map: the cells of a kind that hold its results. An operand that the transport does not have
    /// one_if as 0.
    fn whole(
        &self,
        alloc: Global,
        op: FlowOp,
        kind: Kind,
        drain: &Drain,
        a: Arg<'_>,
        b: Arg<'_>,
    ) -> Result<Part, AllocError>
        requires known { known self.now op ≡ true }
        requires a { SpansPlaces a (length drain.now.codes) }
        requires b { SpansPlaces b (length drain.now.codes) }
        requires a_range { AreInRange (flow_operand a) }
        requires b_range { AreInRange (flow_operand b) }
        ensures { IfOk result (λ part. part ≡ part_of (transport_outcome (transport_of op) kind drain.now (flow_operand a.entry) (flow_operand b.entry)) (length drain.now.codes)) };

    /// A transport over one tile begins. It is handed all border edges of the operation, the numbers of those into and out of the
    /// tile, and the operands in the tile; no other edge is looked at.
    fn begin(
        &self,
        alloc: Global,
        op: FlowOp,
        kind: Kind,
        drain: &Drain,
        tiling: &Tiling,
        tile: u32,
        edges: &[Edge],
        into: &[u32],
        out: &[u32],
        a: &[Cell],
        b: &[Cell],
    ) -> Result<Self::Work, AllocError>
        requires known { known self.now op ≡ true }
        requires can { CanBegin (orient_of op) drain.now tiling.now tile edges.now into.now out.now a.now b.now }
        ensures { IfOk result (λ w. work_of w ≡ tile_work op (flow_begun kind drain.now tiling.now tile edges.now a.now b.now) []) };

    /// A message comes. Takes no memory.
    fn accept(&self, work: &mut Self::Work, message: Message)
        requires { CanAccept (orient_of (work_of work.old).which) (work_of work.old).of message }
        ensures { work_of work.new ≡ accepted (work_of work.old) message };

    /// The least edge that can be sent, with its flow; None exactly where there is none.
    fn next_out(&self, work: &Self::Work) -> Option<Message>
        ensures { result ≡ next_message (transport_of (work_of work.now).which) (work_of work.now).of (work_of work.now).sent };

    /// Marks the edge that `next_out` gives as sent. Takes no memory.
    fn mark_sent(&self, work: &mut Self::Work, edge: u32)
        requires { next_due (orient_of (work_of work.old).which) (work_of work.old).of (work_of work.old).sent ≡ Some edge }
        ensures { work_of work.new ≡ marked (work_of work.old) edge };

    /// Whether every cell of the tile is settled.
    fn is_settled(&self, work: &Self::Work) -> bool
        ensures { result ≡ all_settled (orient_of (work_of work.now).which) (work_of work.now).of };

    /// Whether every edge that leaves the tile was sent.
    fn all_sent(&self, work: &Self::Work) -> bool
        ensures { result ≡ all_sent (work_of work.now).of (work_of work.now).sent };

    /// The results of the tile.
    fn finish(&self, alloc: Global, work: &Self::Work) -> Result<Part, AllocError>
        requires settled { all_settled (orient_of (work_of work.now).which) (work_of work.now).of ≡ true }
        requires sent { all_sent (work_of work.now).of (work_of work.now).sent ≡ true }
        ensures { IfOk result (λ part. part ≡ local_part (transport_of (work_of work.now).which) (work_of work.now).of) };
}
