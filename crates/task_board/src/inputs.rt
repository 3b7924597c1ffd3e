//! Tiles that a board hands out.

ghost use Rattle.std.specs.Prelude.{◌≡◌, ℕ, ◌<◌, [], length, None, Some, MatchOption, OnErr, OnOk};
ghost use Rattle.std.specs.Arc.{arc_value};
ghost use Rattle.std.specs.List.{AllZip};
ghost use Rattle.std.specs.Option.{IsSome};
ghost use Rattle.core_model.specs.Graphs.{Each};
ghost use Rattle.plan_graph.specs.PlanGraphs.{list_at};
ghost use Rattle.task_board.specs.Boards.{HoldsTask, IsTileFor};
ghost use Rattle.task_board.specs.Tiles.{AreTilesOf, HasNoTile};
ghost use Rattle.task_board.specs.inside.Held.{IsCopy, tile_for};

use crate::board::Board;
use crate::ticket::Ticket;
use flow_task::FlowKit;
use std::alloc::{AllocError, Global};
use std::sync::Arc;
use task_tiles::Tile;

// The tile that is there for a task.
fn tile_here(tiles: &[Option<Arc<Tile>>], task: u32) -> &Arc<Tile>
    requires inside { task < length tiles.now }
    requires there { IsSome (tile_for tiles.now task) }
    ensures { tile_for tiles.now task ≡ Some result.now }
{
    match &tiles[task as usize] {
        Some(tile) => tile,
        None => unreachable!(),
    }
}

// The tile of a task, if there is one.
fn tile_at(tiles: &[Option<Arc<Tile>>], task: u32) -> Option<&Arc<Tile>>
    requires { task < length tiles.now }
    ensures { MatchOption result (tile_for tiles.now task ≡ None) (λ tile. tile_for tiles.now task ≡ Some tile.now) }
{
    match &tiles[task as usize] {
        Some(tile) => Some(tile),
        None => None,
    }
}

// Puts clones of the tiles of these tasks behind what is there.
fn copy_tiles(
    tiles: &[Option<Arc<Tile>>],
    tasks: &[u32],
    into: &mut Vec<Arc<Tile>>,
) -> Result<(), AllocError>
    requires empty { into.old.items ≡ [] }
    requires there { Each (λ t. (t < length tiles.now) × IsSome (tile_for tiles.now t)) tasks.now }
    ensures { OnOk result (AllZip (IsCopy tiles.now) into.new.items tasks.now) }
{
    for t in tasks {
        let tile = tile_here(tiles, *t).clone()?;
        into.push(tile)?;
    }
    Ok(())
}

impl<K: FlowKit> Board<K> {
    /// Puts the tiles of the needs of a held task, in their order, into an empty list. Where memory is refused it is empty
    /// again.
    pub fn inputs_into(
        &self,
        ticket: &Ticket<K>,
        into: &mut Vec<Arc<Tile>>,
    ) -> Result<(), AllocError>
        requires holds { HoldsTask self.now ticket.now.worker ticket.now.task }
        requires empty { into.old.items ≡ [] }
        ensures ok { OnOk result (AreTilesOf self.now into.new.items (list_at self.now.plan.needs ticket.now.task)) }
        ensures err { OnErr result (into.new.items ≡ []) }
    {
        match copy_tiles(self.tiles.as_slice(), self.plan.needs(ticket.task), into) {
            Ok(()) => Ok(()),
            Err(refused) => {
                into.clear();
                Err(refused)
            }
        }
    }

    /// The tile of a published task that is still to be read, or whose operation's map is handed out.
    pub fn tile(&self, task: u32) -> Option<&Arc<Tile>>
        requires { task < self.now.plan.tasks }
        ensures { MatchOption result (HasNoTile self.now task) (λ tile. IsTileFor self.now task (arc_value tile.now) × (HasNoTile self.now task → ⊥)) }
    {
        tile_at(self.tiles.as_slice(), task)
    }
}
