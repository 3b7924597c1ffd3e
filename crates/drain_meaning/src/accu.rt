use crate::end::FlowEnd;
use crate::flow::Flow;
use crate::op::Orient;
use crate::rule::FlowRule;
use crate::sum::{sum, with_cell};
use cell_values::Cell;

/// The rule of `accuflux`: the material of a cell and what flows into it flow on.
#[derive(Clone, Copy, Debug, PartialEq, Eq)]
pub struct AccuRule;

impl FlowRule for AccuRule {
    ghost use Rattle.drain_meaning.specs.Equations.{transport_of};
    ghost use Rattle.drain_meaning.specs.Sums.{accu_rule};
    ghost use Rattle.drain_meaning.specs.inside.SumLaws.{accu_laws};
    ghost use Rattle.drain_meaning.specs.declared.op.FlowOp.TheVariants.{Accuflux};

    type Acc = Flow;

    ghost transport = { λ _. transport_of Accuflux };

    ghost rule = { λ _. accu_rule };

    ghost laws = { λ _. accu_laws };

    fn orient(&self) -> Orient {
        Orient::Down
    }

    fn zero(&self) -> Flow {
        Flow::Num(0)
    }

    fn lift(&self, flow: Flow) -> Flow {
        flow
    }

    fn add(&self, a: Flow, b: Flow) -> Flow {
        sum(a, b)
    }

    fn finish(&self, inflow: Flow, a: Cell, _b: Cell) -> FlowEnd {
        let total = with_cell(inflow, a);
        FlowEnd {
            out: total,
            result: total,
        }
    }
}
