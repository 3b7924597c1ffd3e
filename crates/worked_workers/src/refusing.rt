//! A kit that finds no memory at first.

ghost use Rattle.flow_task.specs.Base.{is_base};
ghost use Rattle.flow_task.specs.BaseWorks.{base_work_of};

use border_channel::{Edge, Message};
use cell_values::{Cell, Kind};
use drain_meaning::{Drain, FlowOp};
use flow_task::{BaseKit, BaseWork, FlowKit};
use std::alloc::{AllocError, Global};
use std::sync::atomic::{AtomicU64, Ordering};
use tile_map::{Arg, Part, Tiling};

/// The base kit, but that it refuses to begin some works.
#[derive(Clone, Copy)]
pub struct RefusingKit<'a> {
    /// How many works it is still to refuse.
    pub refusals: &'a AtomicU64,
}

impl RefusingKit<'_> {
    // Whether it refuses this time.
    fn refuses(&self) -> bool {
        let left = self.refusals.load(Ordering::SeqCst);
        left > 0
            && self
                .refusals
                .compare_exchange(left, left - 1, Ordering::SeqCst, Ordering::SeqCst)
                .is_ok()
    }
}

impl FlowKit for RefusingKit<'_> {
    type Work = BaseWork;

    ghost known = { λ _. is_base };

    ghost work_of = { base_work_of };

    fn knows(&self, op: FlowOp) -> bool {
        BaseKit.knows(op)
    }

    fn whole(
        &self,
        alloc: Global,
        op: FlowOp,
        kind: Kind,
        drain: &Drain,
        a: Arg<'_>,
        b: Arg<'_>,
    ) -> Result<Part, AllocError> {
        BaseKit.whole(alloc, op, kind, drain, a, b)
    }

    fn begin(
        &self,
        alloc: Global,
        op: FlowOp,
        kind: Kind,
        drain: &Drain,
        tiling: &Tiling,
        tile: u32,
        edges: &[Edge],
        into: &[u32],
        out: &[u32],
        a: &[Cell],
        b: &[Cell],
    ) -> Result<BaseWork, AllocError> {
        if self.refuses() {
            return Err(AllocError);
        }
        BaseKit.begin(alloc, op, kind, drain, tiling, tile, edges, into, out, a, b)
    }

    fn accept(&self, work: &mut BaseWork, message: Message) {
        BaseKit.accept(work, message)
    }

    fn next_out(&self, work: &BaseWork) -> Option<Message> {
        BaseKit.next_out(work)
    }

    fn mark_sent(&self, work: &mut BaseWork, edge: u32) {
        BaseKit.mark_sent(work, edge)
    }

    fn is_settled(&self, work: &BaseWork) -> bool {
        BaseKit.is_settled(work)
    }

    fn all_sent(&self, work: &BaseWork) -> bool {
        BaseKit.all_sent(work)
    }

    fn finish(&self, alloc: Global, work: &BaseWork) -> Result<Part, AllocError> {
        BaseKit.finish(alloc, work)
    }
}
