ghost use Rattle.std.specs.Prelude.{◌≡◌};
ghost use Rattle.drain_meaning.specs.Rules.{Accumulator, FitTogether, FitsBefore, RuleLaws};
ghost use Rattle.drain_meaning.specs.Transports.{Transport};

use crate::end::FlowEnd;
use crate::flow::Flow;
use crate::op::Orient;
use cell_values::Cell;

/// How one transport is computed, inflow by inflow.
pub trait FlowRule {
    /// What inflows come to before the cell into which they flow has its end.
    type Acc: Copy;

    ghost transport: { Self → Transport };

    ghost rule: { Self → Accumulator Self.Acc };

    ghost laws: { (r : Self) → RuleLaws (transport r) (rule r) };

    /// Which cells feed a cell.
    fn orient(&self) -> Orient
        ensures { result ≡ (transport self.now).orient };

    /// No inflow.
    fn zero(&self) -> Self::Acc
        ensures { result ≡ (rule self.now).none };

    /// One inflow.
    fn lift(&self, flow: Flow) -> Self::Acc
        ensures { result ≡ (rule self.now).lifted flow };

    /// Inflows together.
    fn add(&self, a: Self::Acc, b: Self::Acc) -> Self::Acc
        requires { FitTogether (rule self.now) a b }
        ensures { result ≡ (rule self.now).joined a b };

    /// The end of a cell by what flows into it and its two operands.
    fn finish(&self, inflow: Self::Acc, a: Cell, b: Cell) -> FlowEnd
        requires { FitsBefore (rule self.now) inflow }
        ensures { result ≡ (rule self.now).ended inflow a b };
}
