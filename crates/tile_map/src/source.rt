ghost use Rattle.std.specs.Prelude.{◌≡◌, ℕ, List};
ghost use Rattle.cell_values.specs.declared.cell.Cell.{Cell as TheCell};

use cell_values::Cell;

/// Who has the cells of tiles.
pub trait TileSource {
    /// The cells of each tile, in row-major order.
    ghost tiles: { Self → ℕ → List TheCell };

    /// The tiles that may be asked for.
    ghost has: { Self → ℕ → Type 0 };

    /// The cells of a tile that may be asked for, in row-major order.
    fn tile(&self, tile: u32) -> &[Cell]
        requires { has self.now tile }
        ensures { result.now ≡ tiles self.now tile };
}
