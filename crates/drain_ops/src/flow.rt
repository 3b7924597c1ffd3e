ghost use Rattle.std.specs.Prelude.{◌≡◌, IfOk, length};
ghost use Rattle.drain_meaning.specs.Transports.{transport_outcome};
ghost use Rattle.drain_ops.specs.Operands.{AreInRange, flow_operand};
ghost use Rattle.tile_map.specs.Args.{SpansPlaces};
ghost use Rattle.tile_map.specs.Parts.{part_of};

use crate::down::flow_down;
use crate::up::flow_up;
use cell_values::Kind;
use drain_meaning::{Drain, FlowRule, Orient};
use std::alloc::{AllocError, Global};
use tile_map::{Arg, Part};

/// A transport over a whole map, by its rule: the cells of a kind that hold its results, by one walk. An
/// operand that the operation does not have counts as 0.
pub fn flow_whole<R: FlowRule>(
    alloc: Global,
    rule: &R,
    kind: Kind,
    drain: &Drain,
    a: Arg<'_>,
    b: Arg<'_>,
) -> Result<Part, AllocError>
    requires a { SpansPlaces a (length drain.now.codes) }
    requires b { SpansPlaces b (length drain.now.codes) }
    requires a_range { AreInRange (flow_operand a) }
    requires b_range { AreInRange (flow_operand b) }
    ensures { IfOk result (λ part. part ≡ part_of (transport_outcome (R.transport rule.now) kind drain.now (flow_operand a.entry) (flow_operand b.entry)) (length drain.now.codes)) }
{
    match rule.orient() {
        Orient::Down => flow_down(alloc, rule, kind, drain, a, b),
        Orient::Up => flow_up(alloc, rule, kind, drain, a, b),
    }
}
