ghost use Rattle.std.specs.Prelude.{◌≡◌};
ghost use Rattle.tile_map.specs.Args.{HasPlace, arg_cell};

use cell_values::Cell;

/// An operand over some places, in row-major order.
#[derive(Clone, Copy, Debug)]
pub enum Arg<'a> {
    /// The operation has no such operand.
    Unused,
    /// One cell for all places.
    One(Cell),
    /// A cell for each place.
    Cells(&'a [Cell]),
}

impl<'a> Arg<'a> {
    /// The operand's cell at a place; a missing value where it is unused.
    pub fn at(self, place: usize) -> Cell
        requires { HasPlace self place }
        ensures { result ≡ arg_cell self.entry place }
    {
        match self {
            Arg::Unused => Cell::Mv,
            Arg::One(cell) => cell,
            Arg::Cells(cells) => cells[place],
        }
    }
}
