ghost use Rattle.std.specs.Prelude.{◌≡◌};
ghost use Rattle.drain_meaning.specs.Flows.{flow_outcome};
ghost use Rattle.drain_ops.specs.inside.Judged.{least_place, noted};
ghost use Rattle.tile_map.specs.Parts.{or_missing};

use cell_values::{Cell, Kind, Over};
use drain_meaning::{Flow, drain_cell};

// The cell of a kind that holds a flow, missing where the flow is out of range, and the least place of those that are.
pub(crate) fn judged(kind: Kind, flow: Flow, place: u32, over: Option<u32>) -> (Cell, Option<u32>)
    ensures cell { result.0 ≡ or_missing (flow_outcome kind flow) }
    ensures over { result.1 ≡ noted place (flow_outcome kind flow) over }
{
    match drain_cell(kind, flow) {
        Ok(cell) => (cell, over),
        Err(Over) => (Cell::Mv, Some(least(over, place))),
    }
}

// The lesser of two places.
fn least(over: Option<u32>, place: u32) -> u32
    ensures { result ≡ least_place place over }
{
    match over {
        Some(first) if first < place => first,
        _ => place,
    }
}
