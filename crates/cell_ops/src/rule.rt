ghost use Rattle.std.specs.Prelude.{◌≡◌};
ghost use Rattle.cell_values.specs.declared.cell.Cell.{Cell as TheCell};
ghost use Rattle.tile_map.specs.Parts.{Outcome};

use cell_values::{Cell, Over};

/// What an operation does at one place.
pub trait CellRule {
    /// Its outcome, by its operands' cells.
    ghost rule: { Self → TheCell → TheCell → TheCell → TheCell → Outcome };

    /// Its outcome at these cells; it looks at no more of them than it has operands.
    fn at(&self, a: Cell, b: Cell, c: Cell, d: Cell) -> Result<Cell, Over>
        ensures { result ≡ rule self.now a b c d };
}
