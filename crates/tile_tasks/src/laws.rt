//! What a transport's work over one tile gives.

ghost use Rattle.tile_tasks.specs.FlowLaws.{GiveTheirTiles, MessagesFit};

use border_channel::{flows_fit_loads, settled_tiles_are_right};
use drain_meaning::{AccuRule, PointRule, ThresholdRule};
use task_laws::tiles_of_operations_are_cuts;

/// The work that a task of a transport begins has the results of the task's tile, once messages that are what flows over
/// their edges on the whole map have settled all cells of the tile.
pub fn settled_works_give_their_tiles()
    ensures { GiveTheirTiles }
{
    tiles_of_operations_are_cuts();
    settled_tiles_are_right();
}

/// What a message brings that is what flows out of its edge's source on the whole map fits the load of that source.
pub fn messages_fit_loads()
    ensures { MessagesFit }
{
    tiles_of_operations_are_cuts();
    flows_fit_loads(&AccuRule);
    flows_fit_loads(&ThresholdRule { state: false });
    flows_fit_loads(&ThresholdRule { state: true });
    flows_fit_loads(&PointRule);
}
