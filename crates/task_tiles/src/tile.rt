ghost use Rattle.std.specs.Prelude.{◌≡◌};
ghost use Rattle.task_tiles.specs.declared.tile.Tile.TheVariants as tile;

use area_ops::Partial;
use tile_map::Part;

/// What a task publishes.
#[derive(Drop)]
pub enum Tile {
    /// A tile of an operation's map, with the first of its places that is Over.
    Part(Part),
    /// What an operation over areas keeps of some places.
    Partial(Partial),
}

impl Tile {
    /// The tile of a part.
    pub fn of_part(part: Part) -> Tile
        ensures { result ≡ tile.Part part }
    {
        Tile::Part(part)
    }
}
