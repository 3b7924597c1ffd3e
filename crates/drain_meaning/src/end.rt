ghost use Rattle.std.specs.Prelude.{◌≡◌};
ghost use Rattle.drain_meaning.specs.Flows.{flow_outcome};

use crate::flow::Flow;
use cell_values::{Cell, Kind, Over, to_cell};

/// What flows out of a cell, and what the operation gives there.
#[derive(Clone, Copy, Debug, PartialEq, Eq)]
pub struct FlowEnd {
    /// What flows on to the cells that this one feeds.
    pub out: Flow,
    /// The result at the cell, before its range is looked at.
    pub result: Flow,
}

/// The cell of a kind that holds a flow; `Over` exactly where its number is out of the kind's range.
pub fn drain_cell(kind: Kind, flow: Flow) -> Result<Cell, Over>
    ensures { result ≡ flow_outcome kind flow }
{
    match flow {
        Flow::Mv => Ok(Cell::Mv),
        Flow::Num(number) => to_cell(kind, number),
    }
}
