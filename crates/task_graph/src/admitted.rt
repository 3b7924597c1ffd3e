//! When a program has too many tasks for a run by tiles.

ghost use Rattle.std.specs.Prelude.{◌≡◌, ◌≤◌};
ghost use Rattle.map_meaning.specs.Limits.{most_block};
ghost use Rattle.map_meaning.specs.Programs.{IsWellFormed};
ghost use Rattle.task_graph.specs.Admitted.{program_too_many};

use crate::count::count_tasks;
use crate::plan::MOST_TASKS;
use map_meaning::Program;
use tile_map::Tiling;

/// The number of tasks of a program, where a run over this tiling, by blocks of so many steps, may not have so many.
#[tactic(auto, unfolding(tile_map::specs::Tiles::across, tile_map::specs::Tiles::down))]
pub fn too_many_tasks(program: &Program, tiling: &Tiling, block: u32) -> Option<u64>
    requires program { IsWellFormed program.now }
    requires block { block ≤ most_block }
    ensures { result ≡ program_too_many tiling.now.tile_rows tiling.now.tile_cols block program.now tiling.now.rows tiling.now.cols }
{
    let count = count_tasks(program, tiling, block);
    if count > MOST_TASKS {
        Some(count)
    } else {
        None
    }
}
