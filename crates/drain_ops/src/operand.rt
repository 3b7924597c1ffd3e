ghost use Rattle.std.specs.Prelude.{◌≡◌};
ghost use Rattle.tile_map.specs.Args.{HasPlace};
ghost use Rattle.drain_ops.specs.Operands.{flow_operand};

use cell_values::Cell;
use tile_map::Arg;

/// The cell of an operand at a place; 0 where the operation has no such operand.
pub(crate) fn operand(arg: Arg<'_>, place: u32) -> Cell
    requires { HasPlace arg place }
    ensures { result ≡ flow_operand arg.entry place }
{
    match arg {
        Arg::Unused => Cell::Val(0),
        Arg::One(cell) => cell,
        Arg::Cells(cells) => cells[place as usize],
    }
}
