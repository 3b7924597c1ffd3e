ghost use Rattle.std.specs.Prelude.{◌≡◌};
ghost use Rattle.text_base.specs.Limits.{most_cells};
ghost use Rattle.drain_meaning.specs.Equations.{above_threshold};
ghost use Rattle.drain_meaning.specs.Flows.{FitsCells};
ghost use Rattle.drain_meaning.specs.declared.flow.Flow.TheVariants.{Num};

use crate::end::FlowEnd;
use crate::flow::Flow;
use crate::op::Orient;
use crate::rule::FlowRule;
use crate::sum::{sum, with_cell};
use cell_values::Cell;

/// The rule of the operations with a threshold: what is above it flows on.
#[derive(Clone, Copy, Debug, PartialEq, Eq)]
pub struct ThresholdRule {
    /// The result is what the threshold keeps, and not what flows on.
    pub state: bool,
}

// What is above the threshold, or nothing.
fn above(total: i128, threshold: i64) -> i128
    requires { FitsCells total most_cells }
    ensures { Num result ≡ above_threshold (Num total) (Num threshold) }
{
    let above = total - i128::from(threshold);
    if above < 0 { 0 } else { above }
}

impl FlowRule for ThresholdRule {
    ghost use Rattle.drain_meaning.specs.Equations.{threshold_op, transport_of};
    ghost use Rattle.drain_meaning.specs.Sums.{threshold_rule};
    ghost use Rattle.drain_meaning.specs.inside.SumLaws.{threshold_laws};

    type Acc = Flow;

    ghost transport = { λ r. transport_of (threshold_op r.state) };

    ghost rule = { λ r. threshold_rule r.state };

    ghost laws = { λ r. threshold_laws r.state };

    fn orient(&self) -> Orient {
        Orient::Down
    }

    fn zero(&self) -> Flow {
        Flow::Num(0)
    }

    fn lift(&self, flow: Flow) -> Flow {
        flow
    }

    fn add(&self, a: Flow, b: Flow) -> Flow {
        sum(a, b)
    }

    fn finish(&self, inflow: Flow, a: Cell, b: Cell) -> FlowEnd {
        match (with_cell(inflow, a), b) {
            (Flow::Num(total), Cell::Val(threshold)) => {
                let out = above(total, threshold);
                FlowEnd {
                    out: Flow::Num(out),
                    result: Flow::Num(if self.state { total - out } else { out }),
                }
            }
            (Flow::Mv, _) | (_, Cell::Mv) => FlowEnd {
                out: Flow::Mv,
                result: Flow::Mv,
            },
        }
    }
}
