use crate::end::FlowEnd;
use crate::flow::Flow;
use crate::op::Orient;
use crate::rule::FlowRule;
use crate::sum::sum;
use cell_values::Cell;

/// The rule of `catchment`: the point of the cell drained into comes up, and where it is 0 the cell's own.
#[derive(Clone, Copy, Debug, PartialEq, Eq)]
pub struct PointRule;

impl FlowRule for PointRule {
    ghost use Rattle.drain_meaning.specs.Equations.{transport_of};
    ghost use Rattle.drain_meaning.specs.Sums.{point_rule};
    ghost use Rattle.drain_meaning.specs.inside.SumLaws.{point_laws};
    ghost use Rattle.drain_meaning.specs.declared.op.FlowOp.TheVariants.{Catchment};

    type Acc = Flow;

    ghost transport = { λ _. transport_of Catchment };

    ghost rule = { λ _. point_rule };

    ghost laws = { λ _. point_laws };

    fn orient(&self) -> Orient {
        Orient::Up
    }

    fn zero(&self) -> Flow {
        Flow::Num(0)
    }

    fn lift(&self, flow: Flow) -> Flow {
        flow
    }

    fn add(&self, a: Flow, b: Flow) -> Flow {
        sum(a, b)
    }

    fn finish(&self, inflow: Flow, a: Cell, _b: Cell) -> FlowEnd {
        let point = match (inflow, a) {
            (Flow::Num(0), Cell::Val(own)) => Flow::Num(i128::from(own)),
            (Flow::Num(below), Cell::Val(_)) => Flow::Num(below),
            (Flow::Mv, _) | (_, Cell::Mv) => Flow::Mv,
        };
        FlowEnd {
            out: point,
            result: point,
        }
    }
}
