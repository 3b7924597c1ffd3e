ghost use Rattle.std.specs.Prelude.{IfOk};
ghost use Rattle.drain_meaning.specs.Orders.{IsDrainOrder};

use crate::check::CheckEnd;
use crate::codes::Codes;
use crate::walk::order_of;
use drain_meaning::Drain;
use std::alloc::{AllocError, Global};

/// The places of all cells with a direction, each once and after the one that it drains into.
pub fn drain_order(alloc: Global, drain: &Drain) -> Result<Vec<u32>, AllocError>
    ensures { IfOk result (λ order. IsDrainOrder drain.now order.items) }
{
    let codes = Codes {
        rows: drain.rows(),
        cols: drain.cols(),
        cells: drain.cells(),
    };
    match order_of(alloc, codes) {
        Ok(order) => Ok(order),
        Err(CheckEnd::Unsound { .. } | CheckEnd::Memory) => Err(AllocError),
    }
}
