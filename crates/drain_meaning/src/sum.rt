//! Flows together, as the rules that add their inflows take them.

ghost use Rattle.std.specs.Prelude.{◌≡◌};
ghost use Rattle.text_base.specs.Limits.{most_cells};
ghost use Rattle.drain_meaning.specs.Flows.{FlowFits, material, together};
ghost use Rattle.drain_meaning.specs.Rules.{FitTogether, FitsBefore};
ghost use Rattle.drain_meaning.specs.Sums.{accu_rule};

use crate::flow::Flow;
use cell_values::Cell;

/// Two flows together.
pub(crate) fn sum(a: Flow, b: Flow) -> Flow
    requires { FitTogether accu_rule a b }
    ensures { result ≡ together a b }
{
    match (a, b) {
        (Flow::Num(x), Flow::Num(y)) => Flow::Num(x + y),
        (Flow::Mv, _) | (_, Flow::Mv) => Flow::Mv,
    }
}

/// A cell's inflow and its material.
pub(crate) fn with_cell(inflow: Flow, a: Cell) -> Flow
    requires { FitsBefore accu_rule inflow }
    ensures value { result ≡ together inflow (material a) }
    ensures fits { FlowFits result most_cells }
{
    match (inflow, a) {
        (Flow::Num(x), Cell::Val(y)) => Flow::Num(x + i128::from(y)),
        (Flow::Mv, _) | (_, Cell::Mv) => Flow::Mv,
    }
}
