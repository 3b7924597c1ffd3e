//! Which tiles a board has.

ghost use Rattle.std.specs.Prelude.{◌≡◌, ◌⊎◌, ℕ, ◌<◌, ◌≤◌, List, Option, None, false, length, slice_index};
ghost use Rattle.std.specs.Global.{Global as TheGlobal};
ghost use Rattle.std.specs.declared.sync.Arc.{Arc as TheArc};
ghost use Rattle.core_model.specs.Graphs.{Each};
ghost use Rattle.number_lists.specs.Turned.{times};
ghost use Rattle.task_tiles.specs.declared.tile.Tile.{Tile as TheTile};
ghost use Rattle.task_board.specs.inside.Held.{AreRead, IsPutAmong, tile_for};

use std::sync::Arc;
use task_tiles::Tile;

// Puts a task's tile where it is still to be read, or is handed out.
fn put_tile(
    tiles: &mut [Option<Arc<Tile>>],
    unread: &[u32],
    kept: &[bool],
    task: u32,
    tile: Arc<Tile>,
)
    requires tiles { task < length tiles.old }
    requires unread { task < length unread.now }
    requires kept { task < length kept.now }
    ensures { IsPutAmong tiles.old tiles.new unread.now kept.now task tile }
{
    let place = task as usize;
    if unread[place] > 0 || kept[place] {
        tiles[place] = Some(tile);
    }
}

// Lets a task's tile go where nobody is to read it any more and it isn't kept.
fn let_go(tiles: &mut [Option<Arc<Tile>>], task: u32, left: u32, kept: bool)
    requires { task < length tiles.old }
    ensures gone { left ≡ 0 → kept ≡ false → tile_for tiles.new task ≡ None }
    ensures same { (u : ℕ) → (tile_for tiles.new u ≡ tile_for tiles.old u) ⊎ ((u ≡ task) × (left ≡ 0) × (kept ≡ false) × (tile_for tiles.new u ≡ None)) }
{
    if left == 0 && !kept {
        tiles[task as usize] = None;
    }
}

// Each of these tasks was read once more. The tile of one that nobody is to read any more is let go, where it isn't kept.
fn give_up(tiles: &mut [Option<Arc<Tile>>], unread: &mut [u32], kept: &[bool], needs: &[u32])
    requires tiles { length tiles.old ≡ length unread.old }
    requires kept { length kept.now ≡ length unread.old }
    requires within { Each (λ n. n < length unread.old) needs.now }
    requires owed { (n : ℕ) → times n needs.now ≤ slice_index unread.old n }
    ensures { AreRead tiles.old tiles.new unread.old unread.new kept.now needs.now }
{
    for need in needs {
        let place = *need as usize;
        let left = unread[place] - 1;
        unread[place] = left;
        let_go(tiles, *need, left, kept[place]);
    }
}

/// Puts the tile of a task that is published, and lets go of those that it was the last to read.
pub fn put_and_give_up(
    tiles: &mut [Option<Arc<Tile>>],
    unread: &mut [u32],
    kept: &[bool],
    task: u32,
    tile: Arc<Tile>,
    needs: &[u32],
)
    requires tiles { length tiles.old ≡ length unread.old }
    requires kept { length kept.now ≡ length unread.old }
    requires task { task < length unread.old }
    requires within { Each (λ n. n < length unread.old) needs.now }
    requires owed { (n : ℕ) → times n needs.now ≤ slice_index unread.old n }
    ensures { (put : List (Option (TheArc TheTile TheGlobal))) × IsPutAmong tiles.old put unread.old kept.now task tile × AreRead put tiles.new unread.old unread.new kept.now needs.now }
{
    put_tile(tiles, unread, kept, task, tile);
    give_up(tiles, unread, kept, needs);
}
