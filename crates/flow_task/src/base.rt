use crate::kit::FlowKit;
use crate::work::FlowWork;
use border_channel::{Edge, Message};
use cell_values::{Cell, Kind};
use drain_meaning::{AccuRule, Drain, FlowOp, PointRule, ThresholdRule};
use drain_ops::flow_whole;
use std::alloc::{AllocError, Global};
use tile_map::{Arg, Part, Tiling};

/// What the kit of the first transports keeps of a transport over one tile.
#[derive(Drop)]
pub enum BaseWork {
    /// By the rule of `accuflux`.
    Accu(FlowWork<AccuRule>),
    /// By the rule of the operations with a threshold.
    Threshold(FlowWork<ThresholdRule>),
    /// By the rule of `catchment`.
    Point(FlowWork<PointRule>),
}

/// The kit of the first transports: `accuflux`, `accuthresholdflux`, `accuthresholdstate` and `catchment`.
#[derive(Clone, Copy, Debug, PartialEq, Eq)]
pub struct BaseKit;

impl FlowKit for BaseKit {
    ghost use Rattle.flow_task.specs.Base.{is_base};
    ghost use Rattle.flow_task.specs.BaseWorks.{base_work_of};

    type Work = BaseWork;

    ghost known = { λ _. is_base };

    ghost work_of = { base_work_of };

    fn knows(&self, op: FlowOp) -> bool {
        matches!(
            op,
            FlowOp::Accuflux | FlowOp::ThresholdFlux | FlowOp::ThresholdState | FlowOp::Catchment
        )
    }

    fn whole(
        &self,
        alloc: Global,
        op: FlowOp,
        kind: Kind,
        drain: &Drain,
        a: Arg<'_>,
        b: Arg<'_>,
    ) -> Result<Part, AllocError> {
        match op {
            FlowOp::Accuflux => flow_whole(alloc, &AccuRule, kind, drain, a, b),
            FlowOp::ThresholdFlux => {
                flow_whole(alloc, &ThresholdRule { state: false }, kind, drain, a, b)
            }
            FlowOp::ThresholdState => {
                flow_whole(alloc, &ThresholdRule { state: true }, kind, drain, a, b)
            }
            // The kit knows no other.
            _ => flow_whole(alloc, &PointRule, kind, drain, a, b),
        }
    }

    fn begin(
        &self,
        alloc: Global,
        op: FlowOp,
        kind: Kind,
        drain: &Drain,
        tiling: &Tiling,
        tile: u32,
        edges: &[Edge],
        into: &[u32],
        out: &[u32],
        a: &[Cell],
        b: &[Cell],
    ) -> Result<BaseWork, AllocError> {
        match op {
            FlowOp::Accuflux => {
                let work = FlowWork::begin(
                    alloc, AccuRule, kind, drain, tiling, tile, edges, into, out, a, b,
                )?;
                Ok(BaseWork::Accu(work))
            }
            FlowOp::ThresholdFlux => {
                let rule = ThresholdRule { state: false };
                let work = FlowWork::begin(
                    alloc, rule, kind, drain, tiling, tile, edges, into, out, a, b,
                )?;
                Ok(BaseWork::Threshold(work))
            }
            FlowOp::ThresholdState => {
                let rule = ThresholdRule { state: true };
                let work = FlowWork::begin(
                    alloc, rule, kind, drain, tiling, tile, edges, into, out, a, b,
                )?;
                Ok(BaseWork::Threshold(work))
            }
            // The kit knows no other.
            _ => {
                let work = FlowWork::begin(
                    alloc, PointRule, kind, drain, tiling, tile, edges, into, out, a, b,
                )?;
                Ok(BaseWork::Point(work))
            }
        }
    }

    fn accept(&self, work: &mut BaseWork, message: Message) {
        match work {
            BaseWork::Accu(w) => w.accept(message),
            BaseWork::Threshold(w) => w.accept(message),
            BaseWork::Point(w) => w.accept(message),
        }
    }

    fn next_out(&self, work: &BaseWork) -> Option<Message> {
        match work {
            BaseWork::Accu(w) => w.next_out(),
            BaseWork::Threshold(w) => w.next_out(),
            BaseWork::Point(w) => w.next_out(),
        }
    }

    fn mark_sent(&self, work: &mut BaseWork, edge: u32) {
        match work {
            BaseWork::Accu(w) => w.mark_sent(edge),
            BaseWork::Threshold(w) => w.mark_sent(edge),
            BaseWork::Point(w) => w.mark_sent(edge),
        }
    }

    fn is_settled(&self, work: &BaseWork) -> bool {
        match work {
            BaseWork::Accu(w) => w.is_settled(),
            BaseWork::Threshold(w) => w.is_settled(),
            BaseWork::Point(w) => w.is_settled(),
        }
    }

    fn all_sent(&self, work: &BaseWork) -> bool {
        match work {
            BaseWork::Accu(w) => w.all_sent(),
            BaseWork::Threshold(w) => w.all_sent(),
            BaseWork::Point(w) => w.all_sent(),
        }
    }

    fn finish(&self, alloc: Global, work: &BaseWork) -> Result<Part, AllocError> {
        match work {
            BaseWork::Accu(w) => w.finish(alloc),
            BaseWork::Threshold(w) => w.finish(alloc),
            BaseWork::Point(w) => w.finish(alloc),
        }
    }
}
